// The order of nodes that read nodes, the lowest ready one always next (Kahn's). The reads are words, 4,096 × the node
// that reads + the node read, and a flag that is not 0 says that a number is a node that is not done.
#![tactic(auto)]

ghost use Rattle.std.specs.Prelude.{◌≡◌, Bool, false, ℕ, ◌+◌, ◌<◌, ◌≤◌, length, get_or, set};
ghost use Rattle.loops.specs.Edges.{reader_of, read_of, done_in};
ghost use Rattle.lowest_set.specs.Tree.{Holds};
ghost use Rattle.topological.specs.Waiting.{waiting, still_waiting, one_more};
ghost use Rattle.topological.specs.State.{Words, Links, Counts, ready_by, joined};
ghost use Rattle.topological.specs.Sorted.{Sorted};

// The node that reads, by the word of a read.
fn reader_of(edge: u32) -> usize
    ensures { result ≡ reader_of edge }
{
    (edge / 4096) as usize
}

// The node read.
fn read_of(edge: u32) -> usize
    ensures { result ≡ read_of edge }
{
    (edge % 4096) as usize
}

// The reads, each with the last before it that reads the same node, and for each node the last that reads it.
#[derive(Clone, Copy)]
struct Linked<'a> {
    edges: &'a [u32],
    link: &'a [u32],
    head: &'a [u32],
    ghost linked: { Links edges.now link.now head.now (length edges.now) },
}

// Links all edges by the nodes read, each with the last before it that reads the same node.
fn link_edges(edges: &[u32], link: &mut [u32], head: &mut [u32])
    requires { Links edges.now link.old head.old 0 }
    ensures { Links edges.now link.new head.new (length edges.now) }
{
    for (e, edge) in edges.iter().enumerate() {
        let read = read_of(*edge);
        let last = logic::word_at(head, read);
        logic::put(link, e, last);
        logic::put(head, read, e as u32 + 1);
    }
}

// Counts for each node the reads of nodes that are not done.
fn count_waits(edges: &[u32], flags: &[u32], waits: &mut [u32])
    requires { (length edges.now ≤ 16384) × Words waits.old (waiting edges.now (done_in flags.now) 0) }
    ensures { Words waits.new (waiting edges.now (done_in flags.now)
        (length edges.now)) }
{
    for edge in edges {
        if logic::word_at(flags, read_of(*edge)) != 0 {
            let reader = reader_of(*edge);
            let many = logic::word_at(waits, reader);
            logic::put(waits, reader, many + 1);
        }
    }
}

// Puts a number into the set of the ready nodes, where it is a node that is not done and waits for nothing.
fn insert_ready(flags: &[u32], waits: &[u32], tree: &mut [u32], a: u32)
    ensures { (members : ℕ → Bool) → Holds tree.old members → a < 4096
        → Holds tree.new (joined members
        (ready_by (done_in flags.now) (λ i. get_or waits.now i 0) a) a) }
{
    if logic::word_at(flags, a as usize) != 0 && logic::word_at(waits, a as usize) == 0 {
        lowest_set::insert(tree, a);
    }
}

// Finds the nodes that are ready at the start.
fn start_ready(flags: &[u32], waits: &[u32], tree: &mut [u32])
    requires { (length flags.now ≤ 4096) × Holds tree.old (λ _. false) }
    ensures { Holds tree.new
        (ready_by (done_in flags.now) (λ i. get_or waits.now i 0)) }
{
    for a in 0..flags.len() {
        insert_ready(flags, waits, tree, a as u32);
    }
}

// Takes off one read of node a. It gets ready with its last.
fn settle(flags: &[u32], waits: &mut [u32], tree: &mut [u32], a: u32)
    ensures { (left : ℕ → ℕ) → Counts flags.now (one_more left a) waits.old
        tree.old → Counts flags.now left waits.new tree.new }
{
    let left = logic::word_at(waits, a as usize);
    if 0 < left {
        logic::put(waits, a as usize, left - 1);
        insert_ready(flags, waits, tree, a);
    }
}

impl Linked<'_> {
    // Takes off all reads of node a, which is done.
    fn release(&self, flags: &[u32], waits: &mut [u32], tree: &mut [u32], a: u32)
        requires { (a < 4096)
            × Counts flags.now (still_waiting self.now.edges.now (done_in flags.now) a (length self.now.edges.now))
            waits.old tree.old }
        ensures { Counts flags.now (waiting self.now.edges.now (done_in flags.now)
            (length self.now.edges.now)) waits.new tree.new }
    {
        let mut e = logic::word_at(self.head, a as usize);
        while let Some(p) = e.checked_sub(1) {
            settle(
                flags,
                waits,
                tree,
                logic::word_at(self.edges, p as usize) / 4096,
            );
            e = logic::word_at(self.link, p as usize);
        }
    }

    // Node a is done.
    fn take(&self, flags: &mut [u32], waits: &mut [u32], tree: &mut [u32], a: u32)
        requires { (a < 4096) × (done_in flags.old a ≡ false)
            × Counts flags.old (waiting self.now.edges.now (done_in flags.old) (length self.now.edges.now)) waits.old tree.old }
        ensures { (flags.new ≡ set flags.old a 0) × Counts flags.new
            (waiting self.now.edges.now (done_in flags.new) (length self.now.edges.now))
            waits.new tree.new }
    {
        logic::put(flags, a as usize, 0);
        lowest_set::remove(tree, a);
        self.release(flags, waits, tree, a);
    }

    // Takes the lowest ready node as long as there is one.
    fn take_turns(
        &self,
        flags: &mut [u32],
        waits: &mut [u32],
        tree: &mut [u32],
        slots: &mut [u32],
    ) -> usize
        requires { (length flags.old ≤ 4096)
            × Counts flags.old (waiting self.now.edges.now (done_in flags.old) (length self.now.edges.now)) waits.old tree.old }
        ensures { Sorted self.now.edges.now flags.old slots.old flags.new
            slots.new result }
    {
        let mut k: usize = 0;
        while let Some(a) = lowest_set::lowest(tree) {
            logic::put(slots, k, a);
            self.take(flags, waits, tree, a);
            k += 1;
        }
        k
    }
}

// The order, of at most 16,384 reads and 4,096 flags.
fn sort_within(edges: &[u32], flags: &mut [u32], slots: &mut [u32]) -> usize
    requires { (length edges.now ≤ 16384) × (length flags.old ≤ 4096) }
    ensures { Sorted edges.now flags.old slots.old flags.new
        slots.new result }
{
    let mut link = [0u32; 16384];
    let mut head = [0u32; 4096];
    let mut waits = [0u32; 4096];
    let mut tree = [0u32; 8192];
    link_edges(edges, &mut link, &mut head);
    count_waits(edges, flags, &mut waits);
    start_ready(flags, &waits, &mut tree);
    let linked = Linked {
        edges,
        link: &link,
        head: &head,
    };
    linked.take_turns(flags, &mut waits, &mut tree, slots)
}

// Writes the order of the nodes that are not done, the lowest ready one always next, and clears their flags: those that
// never get ready keep theirs. Answers how many it wrote.
pub fn sort(edges: &[u32], flags: &mut [u32], slots: &mut [u32]) -> usize
    ensures { length edges.now ≤ 16384 → length flags.old ≤ 4096
        → Sorted edges.now flags.old slots.old flags.new
        slots.new result }
{
    if 16384 < edges.len() || 4096 < flags.len() {
        return 0;
    }
    sort_within(edges, flags, slots)
}
