// The records of cells in an accepted list, one after the other, and `changes.replaced_cells` of design.rs: the
// replacements go along with the cells.
#![tactic(auto)]

ghost use Rattle.std.specs.Prelude.{◌≡◌, true, ◌+◌, ◌<◌, length};
ghost use Rattle.cell_reader.specs.Parse.{op_at, end_at};
ghost use Rattle.replaced_cells.specs.Cursor.{is_next, rep_after, Readable};

use cell::Operation;
use logic::Slot;

// The operation of the record at a place; a Note's where its head names none.
pub fn op_at(list: &[u32], at: usize) -> Operation
    ensures { result ≡ op_at list.now at }
{
    match cell::operation_of(logic::payload(logic::word_at(list, at)) % 32) {
        None => Operation::Note,
        Some(op) => op,
    }
}

// The place after the record at a place in the list.
pub fn next_at(list: &[u32], at: usize) -> usize
    ensures { at < length list.now → result ≡ end_at list.now at }
{
    if at < list.len() {
        return at + 1 + (logic::payload(logic::word_at(list, at)) / 32) as usize;
    }
    at
}

// `changes.replaced_cells.get(&index)`: whether the next cell replacement is that of a slot.
pub fn is_next(list: &[u32], end: usize, rep: usize, slot: Slot) -> bool
    ensures { result ≡ is_next list.now end rep slot.0 }
{
    if rep < end {
        return logic::payload(logic::word_at(list, rep)) == slot.0;
    }
    false
}

// The place of the next cell replacement, after the cell at a slot.
pub fn rep_after(list: &[u32], end: usize, rep: usize, slot: Slot) -> usize
    ensures { (is_next list.now end rep slot.0 ≡ true → Readable list.now (rep + 1))
        → result ≡ rep_after list.now end rep slot.0 }
{
    if is_next(list, end, rep, slot) {
        return next_at(list, rep + 1);
    }
    rep
}
