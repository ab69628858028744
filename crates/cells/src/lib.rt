// SmtBuilder of smt.rs: the arms of `cell` on one or two operands, and IoBuf, each from the fields of the cell's
// record. A promise speaks of every slot and width that an arm does not look at.
#![tactic(auto)]

ghost use Rattle.std.specs.Prelude.{◌≡◌, ℕ, ◌+◌, ◌≤◌, ◌<◌};
ghost use Rattle.cell.specs.Cell.{io_buf};
ghost use Rattle.cell.specs.declared.Operation.TheVariants as O;
ghost use Rattle.cell_reader.specs.Parse.{number_in, net_in, control_in, cell_in};
ghost use Rattle.smt.specs.Builder.{control_net, cell};
ghost use Rattle.smt.specs.Builder as model;
ghost use Rattle.builder.specs.Ran.{RanTrits, RanCell};
ghost use Rattle.nets.specs.Reads.{past_in};

use builder::{BuiltTrits, Counts};
use logic::{Net, Slot};
use nets::Reading;
use operators::{Binary, Unary};

// ---- the fields of a record

// The number at a place.
pub fn number_at(fields: &[u32], at: u32) -> u32
    ensures { result ≡ number_in fields.now at }
{
    logic::payload(logic::word_at(fields, at as usize))
}

// `self.net(..)` of the net at a place.
pub fn net_at(
    fields: &[u32],
    at: u32,
    table: &[u32],
    calls: &mut [u32],
    names: &mut [u32],
    marks: &mut [u8],
    c: Counts,
) -> BuiltTrits
    ensures { RanTrits (model.net (past_in table.now) (net_in fields.now at)) 1
        calls.old names.old marks.old c
        calls.new names.new marks.new result }
{
    let net = Net(number_at(fields, at));
    nets::net(table, calls, names, marks, c, net)
}

// `self.control_net(..)` of the control at a place.
pub fn control_at(
    fields: &[u32],
    at: u32,
    table: &[u32],
    calls: &mut [u32],
    names: &mut [u32],
    marks: &mut [u8],
    c: Counts,
) -> BuiltTrits
    ensures { RanTrits (control_net (past_in table.now) (control_in fields.now at)) 1
        calls.old names.old marks.old c
        calls.new names.new marks.new result }
{
    let control = controls::control_of(logic::word_at(fields, at as usize));
    controls::control_net(table, calls, names, marks, c, control)
}

// ---- the arms

// Cell::Buf, Cell::Not
pub fn unary_cell(
    operator: Unary,
    fields: &[u32],
    table: &[u32],
    calls: &mut [u32],
    names: &mut [u32],
    marks: &mut [u8],
    c: Counts,
) -> BuiltTrits
    ensures { (slot width : ℕ) → number_in fields.now 0 ≤ 63
        → RanCell (cell (past_in table.now) slot width (cell_in fields.now (O.Unary operator) 0))
        calls.old names.old marks.old c
        calls.new names.new marks.new result }
{
    let n = number_at(fields, 0);
    let a = values::value(fields, 1, n, table, calls, names, marks, c);
    match operator {
        Unary::Buf => a,
        Unary::Not => trits::tv_not(calls, a.counts, a.value),
    }
}

// Cell::And, Cell::Or, Cell::Xor, Cell::Eq, Cell::ULt, Cell::SLt, Cell::Mul, and the divisions
pub fn binary_cell(
    operator: Binary,
    fields: &[u32],
    table: &[u32],
    calls: &mut [u32],
    names: &mut [u32],
    marks: &mut [u8],
    c: Counts,
    width: u32,
) -> BuiltTrits
    ensures { (slot : ℕ) → number_in fields.now 0 ≤ 63
        → RanCell (cell (past_in table.now) slot width (cell_in fields.now (O.Binary operator) 0))
        calls.old names.old marks.old c
        calls.new names.new marks.new result }
{
    let n = number_at(fields, 0);
    let a = values::value(fields, 1, n, table, calls, names, marks, c);
    let b = values::value(fields, 1 + n, n, table, calls, names, marks, a.counts);
    arith::tv_binary(calls, b.counts, operator, a.value, b.value, n, width)
}

// Cell::Aig
pub fn aig_cell(
    fields: &[u32],
    table: &[u32],
    calls: &mut [u32],
    names: &mut [u32],
    marks: &mut [u8],
    c: Counts,
) -> BuiltTrits
    ensures { (slot width : ℕ)
        → RanCell (cell (past_in table.now) slot width (cell_in fields.now O.Aig 0))
        calls.old names.old marks.old c
        calls.new names.new marks.new result }
{
    let a = control_at(fields, 0, table, calls, names, marks, c);
    let b = control_at(fields, 1, table, calls, names, marks, a.counts);
    gates::tv_and(calls, b.counts, a.value, b.value, 1)
}

// Cell::IoBuf: i/en/o treated as POs/PIs
pub fn io_buf_cell(
    table: &[u32],
    calls: &mut [u32],
    names: &mut [u32],
    marks: &mut [u8],
    c: Counts,
    slot: Slot,
    width: u32,
) -> BuiltTrits
    ensures { (n : ℕ) → width ≤ 64 → slot.0 + width + 1 < 536870911
        → RanCell (cell (past_in table.now) slot.0 width (io_buf n))
        calls.old names.old marks.old c
        calls.new names.new marks.new result }
{
    values::output_value(slot, width, Reading::Either, table, calls, names, marks, c)
}
