// The current reads of one record of an accepted list, as words: 4,096 × the node that reads + the first slot of the
// cell read. They are stored into a lent slice one after another; past its end nothing is stored.
#![tactic(auto)]

ghost use Rattle.std.specs.Prelude.{◌≡◌, [], ◌∷◌, ◌+◌, ◌*◌, ◌<◌, ◌≤◌, ◌^◌, min};
ghost use Rattle.logic.specs.Net.{slot};
ghost use Rattle.logic.specs.Table.{tab};
ghost use Rattle.cell.specs.declared.Operation.TheVariants as O;
ghost use Rattle.right.specs.Bounds.{Bounded};
ghost use Rattle.rules.specs.Reads.{current_net, current_nets, compared, compared_by_any, compared_nets, current_reads};
ghost use Rattle.cell_reader.specs.Parse.{net_in, nets_in, trit_in, trits_in, patterns_in, cell_in, cell_at};
ghost use Rattle.nets.specs.Reads.{past_in};
ghost use Rattle.replaced_cells.specs.Cursor.{Readable};
ghost use Rattle.cell_reads.specs.Reads.{past_by, reading_of, Adds, Few};
ghost use Rattle.cell_reads.specs.declared.Reading.TheVariants.{Run};

use cell::Operation;
use logic::{Driver, Net, Slot, Trit};

// How the nets that a record reads stand in its words: as a Match's, of which the compared ones are read, as a Dff's,
// of which the first is the clock, or in one run.
#[derive(Clone, Copy)]
enum Reading {
    Compared,
    Clocked,
    Run,
}

// How the nets of an operation's record stand.
fn reading_of(op: Operation) -> Reading
    ensures { result ≡ reading_of op }
{
    match op {
        Operation::Match => Reading::Compared,
        Operation::Dff => Reading::Clocked,
        _ => Reading::Run,
    }
}

// A node that reads, with the words of the accepted list that has its record and those of the list's slot table.
#[derive(Clone, Copy)]
struct Reader<'a> {
    list: &'a [u32],
    table: &'a [u32],
    node: u32,
    ghost low: { node < 4096 },
}

// Whether a slot is read by its past trit: that of a base Dff, unless it is read as a clock.
fn is_past(table: &[u32], clock: bool, slot: Slot) -> bool
    ensures { result ≡ past_by table.now clock slot.0 }
{
    if clock {
        return false;
    }
    logic::word_at(table, slot.0 as usize) % 8 == 1
}

impl Reader<'_> {
    // The read of a slot, where it is a current one.
    fn slot_edge(&self, edges: &mut [u32], count: usize, clock: bool, read: Slot) -> usize
        ensures { count < 2 ^ 62
            → Adds self.now.table.now self.now.node (current_net (past_by self.now.table.now clock) (slot read.0))
            edges.old count edges.new result }
    {
        if is_past(self.table, clock, read) || 4611686018427387904 <= count {
            return count;
        }
        let first = logic::word_at(self.table, read.0 as usize) / 1024;
        logic::put(edges, count, self.node * 4096 + first);
        count + 1
    }

    // The read of the net at a place, where it is a current one: a clock's always is.
    fn net_edge(&self, edges: &mut [u32], count: usize, clock: bool, at: usize) -> usize
        ensures { count < 2 ^ 62
            → Adds self.now.table.now self.now.node (current_net (past_by self.now.table.now clock) (net_in self.now.list.now at))
            edges.old count edges.new result }
    {
        match logic::driver_of(Net(logic::payload(logic::word_at(self.list, at)))) {
            Driver::Output(slot) => self.slot_edge(edges, count, clock, slot),
            Driver::Constant(_) | Driver::NoNet => count,
        }
    }

    // The reads of a run of n nets.
    fn nets_edges(&self, edges: &mut [u32], count: usize, n: usize, start: usize) -> usize
        requires { (count + n < 2 ^ 62) × (start + n < 2 ^ 63) }
        ensures { Adds self.now.table.now self.now.node
            (current_nets (past_in self.now.table.now) (nets_in self.now.list.now n start))
            edges.old count edges.new result }
    {
        let mut total = count;
        for i in 0..n {
            total = self.net_edge(edges, total, false, start + i);
        }
        total
    }

    // The read of one position of an alternate: its value's net, unless the constant there is X.
    fn position_edge(&self, edges: &mut [u32], count: usize, net: usize, constant: usize) -> usize
        ensures { count < 2 ^ 62
            → Adds self.now.table.now self.now.node (current_nets (past_in self.now.table.now)
            (compared (net_in self.now.list.now net ∷ []) (trit_in self.now.list.now constant ∷ [])))
            edges.old count edges.new result }
    {
        match operands::trit_at(self.list, constant) {
            Trit::Undef => count,
            Trit::Zero | Trit::One => self.net_edge(edges, count, false, net),
        }
    }

    // The reads of the alternate at a place, of n positions of the value.
    fn alternate_edges(
        &self,
        edges: &mut [u32],
        count: usize,
        n: usize,
        value: usize,
        start: usize,
    ) -> usize
        requires { (count + n < 2 ^ 62) × (value + n < 2 ^ 63) × (start + n < 2 ^ 63) }
        ensures { Adds self.now.table.now self.now.node (current_nets (past_in self.now.table.now)
            (compared (nets_in self.now.list.now n value) (trits_in self.now.list.now n start)))
            edges.old count edges.new result }
    {
        let mut total = count;
        for i in 0..n {
            total = self.position_edge(edges, total, value + i, start + i);
        }
        total
    }

    // The reads of a pattern, of which so many alternates stand from a place on.
    fn pattern_edges(
        &self,
        edges: &mut [u32],
        count: usize,
        n: usize,
        value: usize,
        alternates: usize,
        start: usize,
    ) -> usize
        requires { (n ≤ 63) × (alternates ≤ 64) × (count < 2 ^ 61) × (value < 2 ^ 62)
            × (start + 4032 < 2 ^ 63) }
        ensures { Adds self.now.table.now self.now.node (current_nets (past_in self.now.table.now)
            (compared_by_any (nets_in self.now.list.now n value)
            (tab alternates (λ i. trits_in self.now.list.now n (start + i * n)))))
            edges.old count edges.new result }
    {
        let mut total = count;
        let mut at = start;
        for _ in 0..alternates {
            total = self.alternate_edges(edges, total, n, value, at);
            at += n;
        }
        total
    }

    // The reads of k patterns, one after another from a place on: the bounds of an accepted list keep every count small.
    fn patterns_edges(
        &self,
        edges: &mut [u32],
        count: usize,
        n: usize,
        value: usize,
        k: usize,
        start: usize,
    ) -> usize
        requires { (n ≤ 63) × (k ≤ 63) × (count < 2 ^ 60) × (value < 2 ^ 62) × (start < 2 ^ 62) }
        ensures { Few (patterns_in self.now.list.now n k start)
            → Adds self.now.table.now self.now.node (current_nets (past_in self.now.table.now)
            (compared_nets (nets_in self.now.list.now n value) (patterns_in self.now.list.now n k start)))
            edges.old count edges.new result }
    {
        let mut total = count;
        let mut at = start;
        for _ in 0..k {
            let alternates = logic::payload(logic::word_at(self.list, at)).min(64) as usize;
            total = self.pattern_edges(edges, total, n, value, alternates, at + 1);
            at += 1 + alternates * n;
        }
        total
    }

    // The reads of a Match whose fields begin at a place: #n #k enable, n nets, the patterns.
    fn match_edges(&self, edges: &mut [u32], count: usize, at: usize) -> usize
        requires { (count < 2 ^ 32) × (at ≤ 2 ^ 61) }
        ensures { Bounded (cell_in self.now.list.now O.Match at)
            → Adds self.now.table.now self.now.node
            (current_reads (past_in self.now.table.now) (cell_in self.now.list.now O.Match at))
            edges.old count edges.new result }
    {
        let n = logic::payload(logic::word_at(self.list, at)).min(63) as usize;
        let k = logic::payload(logic::word_at(self.list, at + 1)).min(63) as usize;
        let enabled = self.net_edge(edges, count, false, at + 2);
        self.patterns_edges(edges, enabled, n, at + 3, k, at + 3 + n)
    }

    // The reads of a Dff whose fields begin at a place: #n #reset-over-enable clock clear reset enable, n nets.
    fn flip_flop_edges(&self, edges: &mut [u32], count: usize, at: usize) -> usize
        requires { (count < 2 ^ 32) × (at ≤ 2 ^ 61) }
        ensures { Adds self.now.table.now self.now.node
            (current_reads (past_in self.now.table.now) (cell_in self.now.list.now O.Dff at))
            edges.old count edges.new result }
    {
        let n = logic::payload(logic::word_at(self.list, at)) as usize;
        let clocked = self.net_edge(edges, count, true, at + 2);
        self.nets_edges(edges, clocked, 3 + n, at + 3)
    }

    // The reads of a record of another operation whose fields begin at a place: after its numbers all its nets in one run.
    fn run_edges(&self, op: Operation, edges: &mut [u32], count: usize, at: usize) -> usize
        requires { (count < 2 ^ 32) × (at ≤ 2 ^ 61) }
        ensures { reading_of op ≡ Run → Adds self.now.table.now self.now.node
            (current_reads (past_in self.now.table.now) (cell_in self.now.list.now op at))
            edges.old count edges.new result }
    {
        let n = logic::payload(logic::word_at(self.list, at));
        let m = logic::payload(logic::word_at(self.list, at + 1));
        let fields = cell::fields_of(op, n, m);
        let numbers = cell::numbers_of(op);
        let start = at + numbers.count as usize;
        self.nets_edges(edges, count, fields.controls + fields.nets, start)
    }

    // The reads of a record whose fields begin at a place.
    fn fields_edges(&self, op: Operation, edges: &mut [u32], count: usize, at: usize) -> usize
        requires { (count < 2 ^ 32) × (at ≤ 2 ^ 61) }
        ensures { Bounded (cell_in self.now.list.now op at) → Adds self.now.table.now self.now.node
            (current_reads (past_in self.now.table.now) (cell_in self.now.list.now op at))
            edges.old count edges.new result }
    {
        match reading_of(op) {
            Reading::Compared => self.match_edges(edges, count, at),
            Reading::Clocked => self.flip_flop_edges(edges, count, at),
            Reading::Run => self.run_edges(op, edges, count, at),
        }
    }
}

// The read of the net at a place, where it is a current one: a clock's always is.
pub fn net_edge(
    list: &[u32],
    table: &[u32],
    edges: &mut [u32],
    count: usize,
    node: u32,
    clock: bool,
    at: usize,
) -> usize
    ensures { node < 4096 → count < 2 ^ 62
        → Adds table.now node (current_net (past_by table.now clock) (net_in list.now at))
        edges.old count edges.new result }
{
    if 4096 <= node {
        return count;
    }
    Reader { list, table, node }.net_edge(edges, count, clock, at)
}

// The words of the current reads of the record at a place, stored from a count on.
pub fn record_edges(
    list: &[u32],
    table: &[u32],
    edges: &mut [u32],
    count: usize,
    node: u32,
    at: usize,
) -> usize
    ensures { Readable list.now at → node < 4096 → count < 2 ^ 32
        → Adds table.now node
        (current_reads (past_in table.now) (cell_at list.now at))
        edges.old count edges.new result }
{
    if list.len() <= at || 4096 <= node || 4294967296 <= count {
        return count;
    }
    let op = replaced_cells::op_at(list, at);
    Reader { list, table, node }.fields_edges(op, edges, count, at + 1)
}
