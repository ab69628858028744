// SmtBuilder of smt.rs: the arms of `cell` on two vectors and a net, each from the fields of the cell's record. A
// promise speaks of every slot and width that an arm does not look at.
#![tactic(auto)]

ghost use Rattle.std.specs.Prelude.{ℕ, ◌+◌, ◌≤◌};
ghost use Rattle.cell.specs.declared.Operation.TheVariants as O;
ghost use Rattle.cell_reader.specs.Parse.{number_in, cell_in};
ghost use Rattle.smt.specs.Builder.{cell};
ghost use Rattle.builder.specs.Ran.{RanCell};
ghost use Rattle.nets.specs.Reads.{past_in};

use builder::{BuiltTrits, Counts};

// Cell::Mux
pub fn mux_cell(
    fields: &[u32],
    table: &[u32],
    calls: &mut [u32],
    names: &mut [u32],
    marks: &mut [u8],
    c: Counts,
    width: u32,
) -> BuiltTrits
    ensures { (slot : ℕ) → number_in fields.now 0 ≤ 63
        → RanCell (cell (past_in table.now) slot width (cell_in fields.now O.Mux 0))
        calls.old names.old marks.old c
        calls.new names.new marks.new result }
{
    let n = cells::number_at(fields, 0);
    let s = cells::net_at(fields, 1, table, calls, names, marks, c);
    let a = values::value(fields, 2, n, table, calls, names, marks, s.counts);
    let b = values::value(fields, 2 + n, n, table, calls, names, marks, a.counts);
    gates::tv_mux(calls, b.counts, s.value, a.value, b.value, width)
}

// Cell::Adc
pub fn adc_cell(
    fields: &[u32],
    table: &[u32],
    calls: &mut [u32],
    names: &mut [u32],
    marks: &mut [u8],
    c: Counts,
) -> BuiltTrits
    ensures { (slot width : ℕ) → number_in fields.now 0 ≤ 63
        → RanCell (cell (past_in table.now) slot width (cell_in fields.now O.Adc 0))
        calls.old names.old marks.old c
        calls.new names.new marks.new result }
{
    let n = cells::number_at(fields, 0);
    if n == 0 {
        return cells::net_at(fields, 1, table, calls, names, marks, c);
    }
    let a = values::value(fields, 1, n, table, calls, names, marks, c);
    let b = values::value(fields, 1 + n, n, table, calls, names, marks, a.counts);
    let carry = cells::net_at(fields, 1 + n + n, table, calls, names, marks, b.counts);
    adc::tv_adc(calls, carry.counts, a.value, b.value, carry.value, n)
}

// Cell::Assign
pub fn assign_cell(
    fields: &[u32],
    table: &[u32],
    calls: &mut [u32],
    names: &mut [u32],
    marks: &mut [u8],
    c: Counts,
    width: u32,
) -> BuiltTrits
    ensures { (slot : ℕ) → number_in fields.now 0 ≤ 63
        → number_in fields.now 2 + number_in fields.now 1 ≤ number_in fields.now 0
        → RanCell (cell (past_in table.now) slot width (cell_in fields.now O.Assign 0))
        calls.old names.old marks.old c
        calls.new names.new marks.new result }
{
    let n = cells::number_at(fields, 0);
    let u = cells::number_at(fields, 1);
    let offset = cells::number_at(fields, 2);
    let mut nets = [0u32; 64];
    operands::overwritten_nets(&mut nets, fields, 4, n, 4 + n, u, offset);
    let enable = cells::net_at(fields, 3, table, calls, names, marks, c);
    let updated = values::value(&nets, 0, n, table, calls, names, marks, enable.counts);
    let value = values::value(fields, 4, n, table, calls, names, marks, updated.counts);
    gates::tv_mux(
        calls,
        value.counts,
        enable.value,
        updated.value,
        value.value,
        width,
    )
}
