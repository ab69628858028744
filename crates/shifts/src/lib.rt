// SmtBuilder of smt.rs: prepare_shift and the shifts of `cell`, from the fields of the cell's record.
#![tactic(auto)]

ghost use Rattle.std.specs.Prelude.{◌≡◌, true, [], ◌∷◌, ◌++◌, ℕ, suc, ◌-◌, ◌≤◌};
ghost use Rattle.logic.specs.Net.{constant};
ghost use Rattle.logic.specs.declared.Trit.TheVariants as t;
ghost use Rattle.engine.specs.Call as k;
ghost use Rattle.engine.specs.Emit.{binary_of};
ghost use Rattle.cell.specs.declared.Operation.TheVariants as O;
ghost use Rattle.cell_reader.specs.Parse.{number_in, nets_in, cell_in};
ghost use Rattle.smt.specs.Builder.{prepare_at, cell};
ghost use Rattle.builder.specs.Ran.{Ran, RanTrits, RanCell};
ghost use Rattle.nets.specs.Reads.{past_in};
ghost use Rattle.arith.specs.Shifts.{prepared_of};
ghost use Rattle.shifts.specs.Parts.{value_in, prepared_in, shifted_by};

use arith::Prepared;
use builder::{BuiltTrits, Counts};
use engine::BinaryOp;
use operators::Shift;

// What prepare_shift gives, and the counts after its calls.
#[derive(Clone, Copy)]
pub struct BuiltPrepared {
    pub prepared: Prepared,
    pub counts: Counts,
}

// prepare_shift from the nets of the extended value and amount on.
fn prepare_at(
    width: u32,
    value_ext: &[u32],
    amount_ext: &[u32],
    stride: u32,
    table: &[u32],
    calls: &mut [u32],
    names: &mut [u32],
    marks: &mut [u8],
    c: Counts,
) -> BuiltPrepared
    ensures ran { width ≤ 64 →
        Ran (prepare_at (past_in table.now) width (nets_in value_ext.now width 0)
        (nets_in amount_ext.now width 0) stride) calls.old names.old
        marks.old c calls.new names.new marks.new result.counts
        (prepared_of result.prepared) }
    ensures width { result.prepared.width ≡ width }
{
    let value = values::value(value_ext, 0, width, table, calls, names, marks, c);
    let amount = values::value(
        amount_ext,
        0,
        width,
        table,
        calls,
        names,
        marks,
        value.counts,
    );
    let amount_mul = arith::amount_times(calls, amount.counts, width, amount.value, stride);
    BuiltPrepared {
        prepared: Prepared {
            width,
            value: value.value,
            amount: amount.value,
            amount_mul: amount_mul.term,
        },
        counts: amount_mul.counts,
    }
}

// `prepare_shift` of a value of n nets; the amount and the stride are those of the fields.
fn prepare_shift(
    words: &[u32],
    at: u32,
    n: u32,
    signed: bool,
    fields: &[u32],
    table: &[u32],
    calls: &mut [u32],
    names: &mut [u32],
    marks: &mut [u8],
    c: Counts,
) -> BuiltPrepared
    ensures ran { n ≤ 64 → number_in fields.now 1 ≤ 32 →
        Ran (prepared_in (past_in table.now) fields.now (nets_in words.now n at) signed)
        calls.old names.old marks.old c calls.new names.new
        marks.new result.counts (prepared_of result.prepared) }
    ensures narrow { n ≤ 64 → number_in fields.now 1 ≤ 32 → result.prepared.width ≤ 64 }
{
    let m = cells::number_at(fields, 1);
    let stride = cells::number_at(fields, 2);
    let width = operands::shift_width(n, m, stride);
    let mut value_ext = [0u32; 64];
    operands::extended_nets(&mut value_ext, words, at, n, width, signed);
    let amount = 3 + cells::number_at(fields, 0);
    let mut amount_ext = [0u32; 64];
    operands::extended_nets(&mut amount_ext, fields, amount, m, width, false);
    prepare_at(
        width,
        &value_ext,
        &amount_ext,
        stride,
        table,
        calls,
        names,
        marks,
        c,
    )
}

// Cell::Shl, Cell::UShr, Cell::SShr: the value is extended by 0 or by its sign, and one operation shifts its x and its
// y.
fn shifted(
    fields: &[u32],
    signed: bool,
    op: BinaryOp,
    table: &[u32],
    calls: &mut [u32],
    names: &mut [u32],
    marks: &mut [u8],
    c: Counts,
) -> BuiltTrits
    ensures { number_in fields.now 0 ≤ 63 → number_in fields.now 1 ≤ 32
        → RanTrits
        (shifted_by (past_in table.now) fields.now (value_in fields.now) signed
        (binary_of op) (binary_of op)) (suc (number_in fields.now 0 - 1))
        calls.old names.old marks.old c
        calls.new names.new marks.new result }
{
    let n = cells::number_at(fields, 0);
    let p = prepare_shift(fields, 3, n, signed, fields, table, calls, names, marks, c);
    arith::tv_shift(calls, p.counts, op, op, n, p.prepared)
}

// Cell::XShr: the value with a net X above it is extended by its sign.
fn shifted_undef(
    fields: &[u32],
    table: &[u32],
    calls: &mut [u32],
    names: &mut [u32],
    marks: &mut [u8],
    c: Counts,
) -> BuiltTrits
    ensures { number_in fields.now 0 ≤ 63 → number_in fields.now 1 ≤ 32
        → RanTrits
        (shifted_by (past_in table.now) fields.now
        (value_in fields.now ++ (constant t.Undef ∷ [])) true k.bvashr k.bvlshr)
        (suc (number_in fields.now 0 - 1))
        calls.old names.old marks.old c
        calls.new names.new marks.new result }
{
    let n = cells::number_at(fields, 0);
    let mut value = [0u32; 64];
    operands::concat_undef(&mut value, fields, 3, n);
    let p = prepare_shift(
        &value,
        0,
        n + 1,
        true,
        fields,
        table,
        calls,
        names,
        marks,
        c,
    );
    arith::tv_shift(
        calls,
        p.counts,
        BinaryOp::Ashr,
        BinaryOp::Lshr,
        n,
        p.prepared,
    )
}

// Cell::Shl, Cell::UShr, Cell::SShr, Cell::XShr
pub fn shift_cell(
    operator: Shift,
    fields: &[u32],
    table: &[u32],
    calls: &mut [u32],
    names: &mut [u32],
    marks: &mut [u8],
    c: Counts,
) -> BuiltTrits
    ensures { (slot width : ℕ) → number_in fields.now 0 ≤ 63 → number_in fields.now 1 ≤ 32
        → RanCell (cell (past_in table.now) slot width (cell_in fields.now (O.Shift operator) 0))
        calls.old names.old marks.old c
        calls.new names.new marks.new result }
{
    match operator {
        Shift::Shl => shifted(fields, false, BinaryOp::Shl, table, calls, names, marks, c),
        Shift::UShr => shifted(fields, false, BinaryOp::Lshr, table, calls, names, marks, c),
        Shift::SShr => shifted(fields, true, BinaryOp::Ashr, table, calls, names, marks, c),
        Shift::XShr => shifted_undef(fields, table, calls, names, marks, c),
    }
}
