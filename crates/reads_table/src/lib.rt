// The current reads of an accepted list as words, and its nodes as flags.
#![tactic(auto)]

ghost use Rattle.std.specs.Prelude.{◌≡◌, cond, [], ◌∷◌, ℕ, ◌+◌, ◌%◌, ◌<◌, ◌≤◌, ◌^◌, max, length, replicate, MatchOption};
ghost use Rattle.cell.specs.Design.{Design, total};
ghost use Rattle.cell.specs.declared.Mode as declared;
ghost use Rattle.cell.specs.Each.{Each};
ghost use Rattle.rules.specs.Reads.{current_net, current_reads};
ghost use Rattle.cell_reader.specs.Parse.{number_in, net_in, cell_at, end_at};
ghost use Rattle.design_list.specs.Read.{read, accepted};
ghost use Rattle.loops.specs.Graph.{node_flags, cell_edges, pair_edges};
ghost use Rattle.nets.specs.Reads.{past_in};
ghost use Rattle.replaced_cells.specs.Cursor.{Readable};
ghost use Rattle.cell_reads.specs.Reads.{edges_in};
ghost use Rattle.slots.specs.Tells.{width_in};
ghost use Rattle.reads_table.specs.Table.{IsTable};
ghost use Rattle.reads_table.specs.Fills.{Fills, void_words, Filled};
ghost use Rattle.reads_table.specs.Nodes.{has_rule, asserted_in, cell_nodes, void_in, slots_in, pair_nodes, flag_all};

use cell::Operation;
use logic::{Driver, Net, Slot};
use slots::Pair;

// Whether a cell of an operation has outputs by a rule: no Void, and no cell whose outputs are given.
fn has_rule(op: Operation) -> bool
    ensures { result ≡ has_rule op }
{
    match op {
        Operation::Void | Operation::IoBuf | Operation::Input => false,
        _ => true,
    }
}

// Whether the cell at a slot, its record at a place, is asserted: it has a rule, and its width is not 0.
fn is_asserted(list: &[u32], table: &[u32], at: usize, slot: Slot) -> bool
    ensures { result ≡ asserted_in list.now table.now at slot.0 }
{
    has_rule(replaced_cells::op_at(list, at)) && slots::width_at(table, slot) != 0
}

// The slots that the cell at a slot takes.
fn slots_at(table: &[u32], slot: Slot) -> u32
    ensures { result ≡ max 1 (width_in table.now slot.0) }
{
    slots::width_at(table, slot).max(1)
}

// A walk along the cells of an accepted list: the place of the next record, and its first slot.
#[derive(Clone, Copy)]
struct Walk {
    at: usize,
    slot: usize,
}

impl Walk {
    // The place and the slot of the next cell, if one is left.
    fn next(&mut self, list: &[u32], table: &[u32]) -> Option<(usize, Slot)>
        ensures { MatchOption result (length table.now ≤ self.old.slot) (λ cell.
            (self.old.slot < length table.now) × (cell.0 ≡ self.old.at) × (cell.1.0 ≡ self.old.slot % 2 ^ 32)
            × (self.old.at < length list.now → self.new.at ≡ end_at list.now self.old.at)
            × (self.new.slot ≡ self.old.slot + max 1 (width_in table.now cell.1.0))) }
    {
        if table.len() <= self.slot {
            return None;
        }
        let at = self.at;
        let slot = Slot((self.slot % 4294967296) as u32);
        self.at = replaced_cells::next_at(list, at);
        self.slot += slots_at(table, slot) as usize;
        Some((at, slot))
    }
}

// The flag of the cell at a slot, its record at a place, if it is asserted.
fn flag_cell(list: &[u32], table: &[u32], flags: &mut [u32], at: usize, slot: Slot)
    ensures { flags.new ≡ flag_all flags.old
        (cond (asserted_in list.now table.now at slot.0) (slot.0 ∷ []) []) }
{
    if is_asserted(list, table, at, slot) {
        logic::put(flags, slot.0 as usize, 1);
    }
}

// The flags of the asserted cells, in slot order.
fn flag_cells(list: &[u32], table: &[u32], flags: &mut [u32])
    ensures { (mode : declared.Mode) (d : Design) (replacements pairs : ℕ)
        → read mode list.now ≡ accepted d replacements pairs → IsTable d table.now
        → flags.new ≡ flag_all flags.old (cell_nodes d.cells) }
{
    let mut walk = Walk { at: 4, slot: 0 };
    while let Some((at, slot)) = walk.next(list, table) {
        flag_cell(list, table, flags, at, slot);
    }
}

// The net of the word at a place.
fn net_at(list: &[u32], at: usize) -> Net
    ensures { result.0 ≡ number_in list.now at }
{
    Net(logic::payload(logic::word_at(list, at)))
}

// The Void that a net replacement replaces, if it is one's.
fn void_of(table: &[u32], from_net: Net, to_net: Net) -> Driver
    ensures { result ≡ void_in table.now from_net.0 to_net.0 }
{
    match slots::pair_of(table, from_net, to_net) {
        Pair::OfVoid => logic::driver_of(from_net),
        _ => Driver::NoNet,
    }
}

// The flag of the Void that a net replacement replaces.
fn flag_pair(table: &[u32], flags: &mut [u32], from_net: Net, to_net: Net)
    ensures { flags.new ≡ flag_all flags.old
        (slots_in (void_in table.now from_net.0 to_net.0)) }
{
    if let Driver::Output(slot) = void_of(table, from_net, to_net) {
        logic::put(flags, slot.0 as usize, 1);
    }
}

// The flags of the replaced Voids, by the net replacements in order, two words each, up to the last word.
fn flag_pairs(list: &[u32], pairs: usize, table: &[u32], flags: &mut [u32])
    ensures { (mode : declared.Mode) (d : Design) (replacements : ℕ)
        → read mode list.now ≡ accepted d replacements pairs → IsTable d table.now
        → flags.new ≡ flag_all flags.old (pair_nodes d d.net_reps) }
{
    for at in (pairs..list.len()).step_by(2) {
        let from_net = net_at(list, at);
        let to_net = net_at(list, at + 1);
        flag_pair(table, flags, from_net, to_net);
    }
}

// The flags of the nodes of an accepted list, 1 at each, where all were 0.
pub fn flag_nodes(list: &[u32], pairs: usize, table: &[u32], flags: &mut [u32])
    ensures { (mode : declared.Mode) (d : Design) (replacements : ℕ)
        → read mode list.now ≡ accepted d replacements pairs → IsTable d table.now
        → flags.old ≡ replicate (total d) 0 → flags.new ≡ node_flags d }
{
    flag_cells(list, table, flags);
    flag_pairs(list, pairs, table, flags);
}

// The words of the reads of the cell at a slot, its record at a place, if it is asserted; stored from a count on.
fn cell_edges(
    list: &[u32],
    table: &[u32],
    edges: &mut [u32],
    count: usize,
    at: usize,
    slot: Slot,
) -> usize
    ensures { Readable list.now at → slot.0 < 4096 → count < 2 ^ 32
        → Fills (cond (asserted_in list.now table.now at slot.0)
        (edges_in table.now slot.0
        (current_reads (past_in table.now) (cell_at list.now at))) [])
        edges.old count edges.new result }
{
    if is_asserted(list, table, at, slot) {
        return cell_reads::record_edges(list, table, edges, count, slot.0, at);
    }
    count
}

// The words of the reads of all cells, in slot order.
fn fill_cells(list: &[u32], table: &[u32], edges: &mut [u32]) -> usize
    ensures { (mode : declared.Mode) (d : Design) (replacements pairs : ℕ)
        → read mode list.now ≡ accepted d replacements pairs → IsTable d table.now
        → Fills (cell_edges d d.cells) edges.old 0 edges.new result × (result ≤ replacements) }
{
    let mut count: usize = 0;
    let mut walk = Walk { at: 4, slot: 0 };
    while let Some((at, slot)) = walk.next(list, table) {
        count = cell_edges(list, table, edges, count, at, slot);
    }
    count
}

// The word of the read of a replaced Void, of the net at a place, where it is a current one; none where there is no
// Void.
fn void_edge(
    list: &[u32],
    table: &[u32],
    edges: &mut [u32],
    count: usize,
    replaced: Driver,
    at: usize,
) -> usize
    ensures { Each (λ i. i < 4096) (slots_in replaced) → count < 2 ^ 32
        → Fills (void_words table.now replaced
        (current_net (past_in table.now) (net_in list.now at)))
        edges.old count edges.new result }
{
    match replaced {
        Driver::Output(slot) => cell_reads::net_edge(list, table, edges, count, slot.0, false, at),
        Driver::Constant(_) | Driver::NoNet => count,
    }
}

// The words of the reads of the replaced Voids, by the net replacements in order; stored from a count on.
fn fill_pairs(list: &[u32], pairs: usize, table: &[u32], edges: &mut [u32], start: usize) -> usize
    ensures { (mode : declared.Mode) (d : Design) (replacements : ℕ)
        → read mode list.now ≡ accepted d replacements pairs → IsTable d table.now
        → start ≤ pairs
        → Fills (pair_edges d d.net_reps) edges.old start edges.new result
        × (result ≤ length list.now) }
{
    let mut count = start;
    for at in (pairs..list.len()).step_by(2) {
        let from_net = net_at(list, at);
        let to_net = net_at(list, at + 1);
        let replaced = void_of(table, from_net, to_net);
        count = void_edge(list, table, edges, count, replaced, at + 1);
    }
    count
}

// The words of the reads of all nodes of an accepted list: of its asserted cells, then of its replaced Voids.
pub fn fill(list: &[u32], pairs: usize, table: &[u32], edges: &mut [u32]) -> usize
    ensures { (mode : declared.Mode) (d : Design) (replacements : ℕ)
        → read mode list.now ≡ accepted d replacements pairs → IsTable d table.now
        → Filled d edges.old edges.new result }
{
    let cells = fill_cells(list, table, edges);
    fill_pairs(list, pairs, table, edges, cells)
}
