// `SmtBuilder::cell` of smt.rs: the terms of a cell, by its operation, from the fields of its record.
#![tactic(auto)]

ghost use Rattle.std.specs.Prelude.{◌≡◌, ◌+◌, ◌≤◌, ◌<◌};
ghost use Rattle.right.specs.Bounds.{Bounded};
ghost use Rattle.right.specs.Shape.{Shaped};
ghost use Rattle.cell_reader.specs.Parse.{cell_in};
ghost use Rattle.smt.specs.Prog.{tv};
ghost use Rattle.smt.specs.Builder.{no_vec, cell};
ghost use Rattle.builder.specs.Ran.{trits, RanCell};
ghost use Rattle.nets.specs.Reads.{past_in};

use builder::{BuiltTrits, Counts, TritVec};
use cell::Operation;
use logic::{Slot, Term};

// A cell without terms: Void, Note and Input.
fn no_terms(c: Counts) -> BuiltTrits
    ensures { (trits 0 result.value ≡ tv no_vec no_vec) × (result.counts ≡ c) }
{
    BuiltTrits {
        value: TritVec {
            x: Term(0),
            y: Term(0),
        },
        counts: c,
    }
}

pub fn cell(
    op: Operation,
    fields: &[u32],
    table: &[u32],
    calls: &mut [u32],
    names: &mut [u32],
    marks: &mut [u8],
    c: Counts,
    slot: Slot,
    width: u32,
) -> BuiltTrits
    ensures { Bounded (cell_in fields.now op 0) → Shaped (cell_in fields.now op 0)
        → width ≤ 64 → slot.0 + width + 1 < 536870911
        → RanCell (cell (past_in table.now) slot.0 width (cell_in fields.now op 0))
        calls.old names.old marks.old c
        calls.new names.new marks.new result }
{
    match op {
        Operation::Void => no_terms(c),
        Operation::Note => no_terms(c),
        Operation::IoBuf => cells::io_buf_cell(table, calls, names, marks, c, slot, width),
        Operation::Input => no_terms(c),
        Operation::Unary(o) => cells::unary_cell(o, fields, table, calls, names, marks, c),
        Operation::Binary(o) => cells::binary_cell(o, fields, table, calls, names, marks, c, width),
        Operation::Mux => ternary::mux_cell(fields, table, calls, names, marks, c, width),
        Operation::Adc => ternary::adc_cell(fields, table, calls, names, marks, c),
        Operation::Aig => cells::aig_cell(fields, table, calls, names, marks, c),
        Operation::Shift(o) => shifts::shift_cell(o, fields, table, calls, names, marks, c),
        Operation::Match => decision::match_cell(fields, table, calls, names, marks, c),
        Operation::Assign => ternary::assign_cell(fields, table, calls, names, marks, c, width),
        Operation::Dff => flip_flop::dff_cell(fields, table, calls, names, marks, c, slot, width),
    }
}
