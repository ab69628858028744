// SmtBuilder of smt.rs, `cell` for a Dff: the data that it takes at an edge, by its reset and its enable. `fields` is
// the part of the list from the record's first field on.
#![tactic(auto)]

ghost use Rattle.std.specs.Prelude.{Bool, true, false, List, ℕ, ◌+◌, ◌≤◌, ◌<◌};
ghost use Rattle.cell_reader.specs.Parse.{number_in};
ghost use Rattle.smt.specs.Builder.{tv_lit, enabled, reset_to, loaded};
ghost use Rattle.builder.specs.Ran.{trits, MakesTrits, RanTrits};
ghost use Rattle.nets.specs.Reads.{past_in};
ghost use Rattle.flip_flop_data.specs.Fields.{flip_flop_in};

use builder::{BuiltTrits, Counts, TritVec};
use logic::Slot;

// `self.tv_lit(&flip_flop.reset_value)`
fn reset_value(fields: &[u32], calls: &mut [u32], c: Counts) -> BuiltTrits
    ensures { number_in fields.now 0 ≤ 64
        → MakesTrits (tv_lit (flip_flop_in fields.now).reset_value) (number_in fields.now 0)
        calls.old c calls.new result }
{
    let n = logic::payload(logic::word_at(fields, 0));
    let value = operands::constants(fields, 6 + n + n, n);
    trits::tv_lit(calls, c, n, value.x, value.y)
}

// The data where it is enabled, else the output as it was.
fn enabled(
    table: &[u32],
    calls: &mut [u32],
    names: &mut [u32],
    marks: &mut [u8],
    c: Counts,
    slot: Slot,
    width: u32,
    enable: TritVec,
    data: TritVec,
) -> BuiltTrits
    ensures { width ≤ 64 → slot.0 + width + 1 < 536870911 → (fields : List ℕ) (i : ℕ)
        → RanTrits
        (enabled (past_in table.now) (flip_flop_in fields) slot.0 width (trits 1 enable)
        (trits i «data»)) width
        calls.old names.old marks.old c
        calls.new names.new marks.new result }
{
    let old = values::past_value(slot, width, table, calls, names, marks, c);
    gates::tv_mux(calls, old.counts, enable, data, old.value, width)
}

// The reset value where it is reset, else the data.
fn reset_to(
    fields: &[u32],
    calls: &mut [u32],
    c: Counts,
    width: u32,
    reset: TritVec,
    data: TritVec,
) -> BuiltTrits
    ensures { number_in fields.now 0 ≤ 64 → (reads_past : ℕ → Bool) (i : ℕ)
        → MakesTrits (reset_to reads_past (flip_flop_in fields.now) width (trits 1 reset) (trits i «data»)) width
        calls.old c calls.new result }
{
    let to = reset_value(fields, calls, c);
    gates::tv_mux(calls, to.counts, reset, to.value, data, width)
}

// Enable first, then reset over it.
fn reset_over_enable(
    fields: &[u32],
    table: &[u32],
    calls: &mut [u32],
    names: &mut [u32],
    marks: &mut [u8],
    c: Counts,
    slot: Slot,
    width: u32,
    reset: TritVec,
    enable: TritVec,
    data: TritVec,
) -> BuiltTrits
    ensures { number_in fields.now 0 ≤ 64 → width ≤ 64 → slot.0 + width + 1 < 536870911 → (i : ℕ)
        → RanTrits
        (loaded (past_in table.now) true (flip_flop_in fields.now) slot.0 width
        (trits 1 reset) (trits 1 enable) (trits i «data»)) width
        calls.old names.old marks.old c
        calls.new names.new marks.new result }
{
    let data = enabled(table, calls, names, marks, c, slot, width, enable, data);
    reset_to(fields, calls, data.counts, width, reset, data.value)
}

// Reset first, then enable over it.
fn enable_over_reset(
    fields: &[u32],
    table: &[u32],
    calls: &mut [u32],
    names: &mut [u32],
    marks: &mut [u8],
    c: Counts,
    slot: Slot,
    width: u32,
    reset: TritVec,
    enable: TritVec,
    data: TritVec,
) -> BuiltTrits
    ensures { number_in fields.now 0 ≤ 64 → width ≤ 64 → slot.0 + width + 1 < 536870911 → (i : ℕ)
        → RanTrits
        (loaded (past_in table.now) false (flip_flop_in fields.now) slot.0 width
        (trits 1 reset) (trits 1 enable) (trits i «data»)) width
        calls.old names.old marks.old c
        calls.new names.new marks.new result }
{
    let data = reset_to(fields, calls, c, width, reset, data);
    enabled(
        table,
        calls,
        names,
        marks,
        data.counts,
        slot,
        width,
        enable,
        data.value,
    )
}

// Reset and enable in the flagged order.
pub fn loaded(
    fields: &[u32],
    table: &[u32],
    calls: &mut [u32],
    names: &mut [u32],
    marks: &mut [u8],
    c: Counts,
    slot: Slot,
    width: u32,
    reset: TritVec,
    enable: TritVec,
    data: TritVec,
) -> BuiltTrits
    ensures { number_in fields.now 0 ≤ 64 → width ≤ 64 → slot.0 + width + 1 < 536870911 → (i : ℕ)
        → RanTrits
        (loaded (past_in table.now) (flip_flop_in fields.now).reset_over_enable
        (flip_flop_in fields.now) slot.0 width (trits 1 reset) (trits 1 enable) (trits i «data»)) width
        calls.old names.old marks.old c
        calls.new names.new marks.new result }
{
    if logic::payload(logic::word_at(fields, 1)) == 1 {
        return reset_over_enable(
            fields, table, calls, names, marks, c, slot, width, reset, enable, data,
        );
    }
    enable_over_reset(
        fields, table, calls, names, marks, c, slot, width, reset, enable, data,
    )
}
