// SmtBuilder of smt.rs: what `Design::verify` makes of a cell, and `check`: the steps of the order of work.
#![tactic(auto)]

ghost use Rattle.std.specs.Prelude.{◌≡◌, [], ◌∷◌, ◌+◌, ◌<◌, ◌≤◌};
ghost use Rattle.right.specs.Bounds.{Bounded};
ghost use Rattle.right.specs.Shape.{Shaped};
ghost use Rattle.cell_reader.specs.Parse.{cell_in};
ghost use Rattle.order.specs.Verify.{asserted, obliged, claim, add_cell, new_cell, query};
ghost use Rattle.builder.specs.Ran.{Ran, MakesBool};
ghost use Rattle.nets.specs.Reads.{past_in};
ghost use Rattle.net_steps.specs.Did.{Did, Asks};
ghost use Rattle.steps.specs.Inputs.{is_input_of};

use builder::{Built, Counts};
use cell::Operation;
use logic::Slot;

// The outputs of a cell at its slots equal its terms.
fn claim(
    op: Operation,
    fields: &[u32],
    table: &[u32],
    calls: &mut [u32],
    names: &mut [u32],
    marks: &mut [u8],
    c: Counts,
    slot: Slot,
    width: u32,
) -> Built
    ensures { Bounded (cell_in fields.now op 0) → Shaped (cell_in fields.now op 0)
        → width ≤ 64 → slot.0 + width + 1 < 536870911
        → Ran (claim (past_in table.now) slot.0 width (cell_in fields.now op 0))
        calls.old names.old marks.old c
        calls.new names.new marks.new result.counts result.term.0 }
{
    let terms = cell_terms::cell(op, fields, table, calls, names, marks, c, slot, width);
    let output = values::curr_value(slot, width, table, calls, names, marks, terms.counts);
    trits::tv_eq(calls, output.counts, output.value, terms.value)
}

// Whether an operation is an Input.
fn is_input(op: Operation) -> bool
    ensures { result ≡ is_input_of op }
{
    matches!(op, Operation::Input)
}

// A cell added: its claim is asserted; an Input's nets are declared, so that they are in the example even if unused.
pub fn add_cell(
    op: Operation,
    fields: &[u32],
    table: &[u32],
    calls: &mut [u32],
    names: &mut [u32],
    marks: &mut [u8],
    c: Counts,
    slot: Slot,
    width: u32,
) -> Counts
    ensures { Bounded (cell_in fields.now op 0) → Shaped (cell_in fields.now op 0)
        → width ≤ 64 → slot.0 + width + 1 < 536870911
        → Did (add_cell (past_in table.now) slot.0 width (cell_in fields.now op 0) ∷ [])
        calls.old names.old marks.old c
        calls.new names.new marks.new result [] }
{
    if is_input(op) {
        let output = values::curr_value(slot, width, table, calls, names, marks, c);
        return output.counts;
    }
    let equal = claim(op, fields, table, calls, names, marks, c, slot, width);
    net_steps::assert_claim(calls, equal)
}

// The obligation of a replaced cell: its outputs refine to the terms of the new cell.
pub fn new_cell(
    op: Operation,
    fields: &[u32],
    table: &[u32],
    calls: &mut [u32],
    names: &mut [u32],
    marks: &mut [u8],
    c: Counts,
    slot: Slot,
    width: u32,
) -> Built
    ensures { Bounded (cell_in fields.now op 0) → Shaped (cell_in fields.now op 0)
        → width ≤ 64 → slot.0 + width + 1 < 536870911
        → Did (obliged (new_cell (past_in table.now) slot.0 width (cell_in fields.now op 0)) ∷ [])
        calls.old names.old marks.old c
        calls.new names.new marks.new result.counts (result.term.0 ∷ []) }
{
    let terms = cell_terms::cell(op, fields, table, calls, names, marks, c, slot, width);
    let output = values::curr_value(slot, width, table, calls, names, marks, terms.counts);
    trits::tv_refines(calls, output.counts, output.value, terms.value)
}

// The not of the and of all obligations, by the numbers of their terms.
pub fn query(calls: &mut [u32], c: Counts, eqs: &[u32]) -> Built
    ensures { MakesBool (query eqs.now) calls.old c calls.new result }
{
    let all = builder::build_and_all(calls, c, eqs);
    builder::build_not(calls, all.counts, all.term)
}

// The query asserted, and check after it; with no obligation neither.
pub fn check(calls: &mut [u32], c: Counts, eqs: &[u32]) -> Counts
    ensures { Asks eqs.now calls.old c calls.new result }
{
    if eqs.is_empty() {
        return c;
    }
    let not_and_eqs = query(calls, c, eqs);
    let asserted = engine::assert_term(calls, not_and_eqs.counts.words, not_and_eqs.term);
    Counts {
        terms: not_and_eqs.counts.terms,
        temporaries: not_and_eqs.counts.temporaries,
        words: engine::check_sat(calls, asserted),
    }
}
