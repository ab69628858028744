// SmtBuilder of smt.rs: the arm of `cell` for a Dff. `fields` is the part of the list from the record's first field on.
#![tactic(auto)]

ghost use Rattle.std.specs.Prelude.{Bool, ℕ, ◌+◌, ◌≤◌, ◌<◌};
ghost use Rattle.cell.specs.declared.Operation.TheVariants as O;
ghost use Rattle.cell_reader.specs.Parse.{number_in, cell_in};
ghost use Rattle.smt.specs.Builder.{tv_lit, has_clear, cleared, cell};
ghost use Rattle.builder.specs.Ran.{trits, MakesTrits, RanTrits, RanCell};
ghost use Rattle.nets.specs.Reads.{past_in};
ghost use Rattle.flip_flop_data.specs.Fields.{flip_flop_in};
ghost use Rattle.flip_flop.specs.Parts.{clocked};

use builder::{BuiltTrits, Counts, TritVec};
use logic::Slot;

// `self.tv_lit(&flip_flop.clear_value)`
fn clear_value(fields: &[u32], calls: &mut [u32], c: Counts) -> BuiltTrits
    ensures { number_in fields.now 0 ≤ 64
        → MakesTrits (tv_lit (flip_flop_in fields.now).clear_value) (number_in fields.now 0)
        calls.old c calls.new result }
{
    let n = logic::payload(logic::word_at(fields, 0));
    let value = operands::constants(fields, 6 + n, n);
    trits::tv_lit(calls, c, n, value.x, value.y)
}

// The clear value where it is cleared, else the data; the data where it never is.
fn cleared(
    fields: &[u32],
    calls: &mut [u32],
    data: BuiltTrits,
    width: u32,
    clear: TritVec,
) -> BuiltTrits
    ensures { number_in fields.now 0 ≤ 64 → (reads_past : ℕ → Bool)
        → MakesTrits
        (cleared reads_past (has_clear (flip_flop_in fields.now)) (flip_flop_in fields.now) width
        (trits 1 clear) (trits width «data».value)) width
        calls.old «data».counts calls.new result }
{
    let control = controls::control_of(logic::word_at(fields, 3));
    if controls::has_clear(control) {
        let to = clear_value(fields, calls, data.counts);
        return gates::tv_mux(calls, to.counts, clear, to.value, data.value, width);
    }
    data
}

// The data at an active edge, else the output as it was; then the clear.
fn clocked(
    fields: &[u32],
    table: &[u32],
    calls: &mut [u32],
    names: &mut [u32],
    marks: &mut [u8],
    c: Counts,
    slot: Slot,
    width: u32,
    clear: TritVec,
    data: TritVec,
) -> BuiltTrits
    ensures { number_in fields.now 0 ≤ 64 → width ≤ 64 → slot.0 + width + 1 < 536870911 → (i : ℕ)
        → RanTrits
        (clocked (past_in table.now) (flip_flop_in fields.now) slot.0 width (trits 1 clear)
        (trits i «data»)) width
        calls.old names.old marks.old c
        calls.new names.new marks.new result }
{
    let clock = controls::control_of(logic::word_at(fields, 2));
    let active_edge = controls::clock_net(calls, names, marks, c, clock);
    let old = values::past_value(slot, width, table, calls, names, marks, active_edge.counts);
    let value = gates::tv_mux(calls, old.counts, active_edge.value, data, old.value, width);
    cleared(fields, calls, value, width, clear)
}

// `Cell::Dff(flip_flop)`, of a base design or added to it: they differ in how other cells read them.
pub fn dff_cell(
    fields: &[u32],
    table: &[u32],
    calls: &mut [u32],
    names: &mut [u32],
    marks: &mut [u8],
    c: Counts,
    slot: Slot,
    width: u32,
) -> BuiltTrits
    ensures { number_in fields.now 0 ≤ 64 → width ≤ 64 → slot.0 + width + 1 < 536870911
        → RanCell (cell (past_in table.now) slot.0 width (cell_in fields.now O.Dff 0))
        calls.old names.old marks.old c
        calls.new names.new marks.new result }
{
    let n = logic::payload(logic::word_at(fields, 0));
    let data = values::value(fields, 6, n, table, calls, names, marks, c);
    let clear = cells::control_at(fields, 3, table, calls, names, marks, data.counts);
    let reset = cells::control_at(fields, 4, table, calls, names, marks, clear.counts);
    let enable = cells::control_at(fields, 5, table, calls, names, marks, reset.counts);
    let data = flip_flop_data::loaded(
        fields,
        table,
        calls,
        names,
        marks,
        enable.counts,
        slot,
        width,
        reset.value,
        enable.value,
        data.value,
    );
    clocked(
        fields,
        table,
        calls,
        names,
        marks,
        data.counts,
        slot,
        width,
        clear.value,
        data.value,
    )
}
