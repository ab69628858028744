// The loop that document 02's change 4 names: always to the lowest node read that never gets ready.
#![tactic(auto)]

ghost use Rattle.std.specs.Prelude.{◌≡◌, ◌==◌, Bool, not, ℕ, ◌<◌, ◌≤◌, length, position, replicate};
ghost use Rattle.std.proofs.lemmas.List.Edits.{sets};
ghost use Rattle.logic.specs.Table.{tab};
ghost use Rattle.loops.specs.Edges.{done_in};
ghost use Rattle.loops.specs.Run.{loop_of, lowest_left};
ghost use Rattle.loop_walk.specs.Reads.{noted, LowestReads};
ghost use Rattle.loop_walk.specs.Steps.{step, steps};
ghost use Rattle.loop_walk.specs.Named.{Named};

// A loop of a walk: a node of it, and how many it has.
#[derive(Clone, Copy)]
struct Loop {
    at: usize,
    length: usize,
}

// One read noted, where its node is not done and lower than the one noted for the reader.
fn note_read(flags: &[u32], next: &mut [u32], edge: u32)
    ensures { next.new ≡ noted flags.now next.old edge }
{
    let reader = (edge / 4096) as usize;
    let read = edge % 4096;
    if logic::word_at(flags, read as usize) == 0 {
        return;
    }
    if read < logic::word_at(next, reader) {
        logic::put(next, reader, read);
    }
}

// The lowest node read that is not done, for every node: every read is noted.
fn lowest_reads(edges: &[u32], flags: &[u32], next: &mut [u32])
    requires { (length flags.now ≤ 4096) × (next.old ≡ replicate 4096 (length flags.now)) }
    ensures { LowestReads edges.now flags.now next.new }
{
    for edge in edges {
        note_read(flags, next, *edge);
    }
}

// The place of the first flag that is not 0, if there is one.
fn first_flag(flags: &[u32]) -> Option<usize>
    ensures { result ≡ position (λ flag. not (flag == 0)) flags.now }
{
    flags.iter().position(|flag| *flag != 0)
}

// The lowest node that is not done, 0 where all are.
fn lowest_left(flags: &[u32]) -> usize
    ensures { (reads : ℕ → ℕ → Bool) →
        result ≡ lowest_left (length flags.now) reads (done_in flags.now) }
{
    first_flag(flags).unwrap_or(0)
}

// The next node of the walk.
fn step(next: &[u32], n: usize, at: usize) -> usize
    ensures { result ≡ step next.now n at }
{
    let to = logic::word_at(next, at) as usize;
    if to < n { to } else { 0 }
}

// The walk from a start, up to the first node met again: the table `met` has for each node the place at which it was
// met first, n where it was not.
fn follow(next: &[u32], met: &mut [u32], n: usize, start: usize) -> Loop
    requires { (n ≤ 4096) × (start < 4096) × (met.old ≡ replicate 4096 n) }
    ensures { (result.at < 4096) × (loop_of n (steps next.now n start)
        ≡ tab result.length (steps next.now n result.at)) }
{
    let mut at = start;
    for k in 0..n {
        let first = logic::word_at(met, at) as usize;
        if first < n {
            return Loop {
                at,
                length: k - first,
            };
        }
        logic::put(met, at, k as u32);
        at = step(next, n, at);
    }
    Loop {
        at,
        length: n - logic::word_at(met, at) as usize,
    }
}

// A number of nodes of the walk from a start, written to the slots.
fn write_loop(next: &[u32], n: usize, slots: &mut [u32], start: usize, length: usize)
    requires { (n ≤ 4096) × (start < 4096) }
    ensures { slots.new ≡ sets slots.old 0
        (tab length (steps next.now n start)) }
{
    let mut at = start;
    for m in 0..length {
        logic::put(slots, m, at as u32);
        at = step(next, n, at);
    }
}

// Names the loop: from the lowest node that is not done always to the lowest such node read; from the first met again
// on. Its length.
pub fn name_loop(edges: &[u32], flags: &[u32], slots: &mut [u32]) -> usize
    ensures { length flags.now ≤ 4096 → Named
        edges.now flags.now slots.old slots.new result }
{
    let n = flags.len();
    if 4096 < n {
        return 0;
    }
    let mut next = [n as u32; 4096];
    lowest_reads(edges, flags, &mut next);
    let mut met = [n as u32; 4096];
    let start = lowest_left(flags);
    let found = follow(&next, &mut met, n, start);
    write_loop(&next, n, slots, found.at, found.length);
    found.length
}
