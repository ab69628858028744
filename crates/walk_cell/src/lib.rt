// `Design::verify` of design.rs: what is made of one cell of an accepted list, by the words of its record and of its
// replacement.
#![tactic(auto)]

ghost use Rattle.std.specs.Prelude.{◌≡◌, true, List, [], ◌∷◌, ℕ, ◌+◌, ◌≤◌, ◌<◌};
ghost use Rattle.cell_reader.specs.Parse.{cell_at};
ghost use Rattle.order.specs.Verify.{obliged, add_cell, new_cell};
ghost use Rattle.nets.specs.Reads.{past_in};
ghost use Rattle.slots.specs.Tells.{width_in};
ghost use Rattle.net_pairs.specs.Does.{Does};
ghost use Rattle.replaced_cells.specs.Cursor.{is_next, new_at, Readable};
ghost use Rattle.walk_cell.specs.Steps.{steps_at};

use logic::Slot;
use net_pairs::Walked;

// `smt.add_cell` of the record at a place.
fn add_at(
    list: &[u32],
    at: usize,
    table: &[u32],
    calls: &mut [u32],
    names: &mut [u32],
    marks: &mut [u8],
    s: Walked,
    slot: Slot,
    width: u32,
) -> Walked
    ensures { (eqs : List ℕ) → Readable list.now at → width ≤ 64 → slot.0 + width + 1 < 536870911
        → Does (add_cell (past_in table.now) slot.0 width (cell_at list.now at) ∷ [])
        calls.old names.old marks.old eqs s
        calls.new names.new marks.new eqs result }
{
    let op = replaced_cells::op_at(list, at);
    if at < list.len() {
        let first = at + 1;
        let fields = &list[first..];
        let counts = steps::add_cell(
            op, fields, table, calls, names, marks, s.counts, slot, width,
        );
        return Walked {
            counts,
            obligations: s.obligations,
        };
    }
    s
}

// The obligation of `smt.replace_cell`, its new cell that of the record at a place.
fn new_at(
    list: &[u32],
    at: usize,
    table: &[u32],
    calls: &mut [u32],
    names: &mut [u32],
    marks: &mut [u8],
    eqs: &mut [u32],
    s: Walked,
    slot: Slot,
    width: u32,
) -> Walked
    ensures { Readable list.now at → width ≤ 64 → slot.0 + width + 1 < 536870911
        → Does (obliged (new_cell (past_in table.now) slot.0 width (cell_at list.now at)) ∷ [])
        calls.old names.old marks.old eqs.old s
        calls.new names.new marks.new eqs.new result }
{
    let op = replaced_cells::op_at(list, at);
    if at < list.len() {
        let first = at + 1;
        let fields = &list[first..];
        let eq = steps::new_cell(
            op, fields, table, calls, names, marks, s.counts, slot, width,
        );
        return net_pairs::push(eqs, s.obligations, eq);
    }
    s
}

// A cell at a slot: `smt.add_cell`, or `smt.replace_cell` where the next replacement is its; one of output width 0 is
// skipped.
pub fn verify_cell(
    list: &[u32],
    end: usize,
    at: usize,
    rep: usize,
    table: &[u32],
    calls: &mut [u32],
    names: &mut [u32],
    marks: &mut [u8],
    eqs: &mut [u32],
    s: Walked,
    slot: Slot,
) -> Walked
    ensures { Readable list.now at → (is_next list.now end rep slot.0 ≡ true
        → Readable list.now (rep + 1))
        → width_in table.now slot.0 ≤ 64 → slot.0 + width_in table.now slot.0 + 1 < 536870911
        → Does (steps_at (past_in table.now) slot.0 (width_in table.now slot.0)
        (cell_at list.now at) (new_at list.now end rep slot.0))
        calls.old names.old marks.old eqs.old s
        calls.new names.new marks.new eqs.new result }
{
    let width = slots::width_at(table, slot);
    if width == 0 {
        return s;
    }
    let old = add_at(list, at, table, calls, names, marks, s, slot, width);
    if replaced_cells::is_next(list, end, rep, slot) {
        let new = rep + 1;
        return new_at(list, new, table, calls, names, marks, eqs, old, slot, width);
    }
    old
}
