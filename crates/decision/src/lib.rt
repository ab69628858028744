// SmtBuilder of smt.rs: the arm of `cell` for a Match. `fields` is the part of the list from the record's first field
// on: #n #k enable, n nets, and for each of k patterns #alternates and its constants, n for each alternate.
#![tactic(auto)]

ghost use Rattle.std.specs.Prelude.{List, ℕ, ◌*◌, ◌≤◌, length};
ghost use Rattle.logic.specs.declared.Trit.{Trit};
ghost use Rattle.cell.specs.declared.Operation.TheVariants as O;
ghost use Rattle.cell.specs.Each.{Each};
ghost use Rattle.right.specs.Bounds.{Bounded};
ghost use Rattle.cell_reader.specs.Parse.{net_in, nets_in, patterns_in, cell_in};
ghost use Rattle.smt.specs.Builder.{collect, match_of, cell};
ghost use Rattle.builder.specs.Ran.{trits, Ran, RanTrits, RanCell};
ghost use Rattle.nets.specs.Reads.{past_in};
ghost use Rattle.vectors.specs.Elements.{elements};
ghost use Rattle.decision.specs.Parts.{chosen};

use builder::{BuiltTrits, Counts, TritVec};
use logic::Net;

// The terms of k patterns from a place on, one after the other.
fn matches(
    fields: &[u32],
    at: u32,
    n: u32,
    k: u32,
    table: &[u32],
    calls: &mut [u32],
    names: &mut [u32],
    marks: &mut [u8],
    terms: &mut [u32],
    c: Counts,
) -> Counts
    ensures { 2 * k ≤ length terms.old → at ≤ 66 → n ≤ 63 → k ≤ 63
        → Each (λ (alternates : List (List Trit)). length alternates ≤ 64) (patterns_in fields.now n k at)
        → Ran (collect (match_of (past_in table.now) (nets_in fields.now n 3))
        (patterns_in fields.now n k at))
        calls.old names.old marks.old c
        calls.new names.new marks.new result (elements terms.new k) }
{
    let mut counts = c;
    let mut place = at;
    for i in 0..k {
        let made = alternates::sum(fields, place, n, table, calls, names, marks, counts);
        vectors::put_element(terms, i, made.value);
        counts = made.counts;
        let alternates = logic::payload(logic::word_at(fields, place as usize));
        place = alternates::alternate_at(place, alternates, n);
    }
    counts
}

// Where it is enabled, the first of k patterns that matches; else none is hot.
fn chosen(
    fields: &[u32],
    k: u32,
    table: &[u32],
    calls: &mut [u32],
    names: &mut [u32],
    marks: &mut [u8],
    c: Counts,
    matches: TritVec,
) -> BuiltTrits
    ensures { k ≤ 64 → (i : ℕ)
        → RanTrits (chosen (past_in table.now) (net_in fields.now 2) k (trits i matches)) k
        calls.old names.old marks.old c
        calls.new names.new marks.new result }
{
    let net = Net(logic::payload(logic::word_at(fields, 2)));
    let enable = nets::net(table, calls, names, marks, c, net);
    let all_cold = one_hot::tv_zero(calls, enable.counts, k);
    let result = one_hot::first_match(calls, all_cold.counts, matches, k, all_cold.value);
    gates::tv_mux(
        calls,
        result.counts,
        enable.value,
        result.value,
        all_cold.value,
        k,
    )
}

// `Cell::Match(MatchCell { value, enable, patterns })`
pub fn match_cell(
    fields: &[u32],
    table: &[u32],
    calls: &mut [u32],
    names: &mut [u32],
    marks: &mut [u8],
    c: Counts,
) -> BuiltTrits
    ensures { Bounded (cell_in fields.now O.Match 0) → (s w : ℕ)
        → RanCell (cell (past_in table.now) s w (cell_in fields.now O.Match 0))
        calls.old names.old marks.old c
        calls.new names.new marks.new result }
{
    let n = logic::payload(logic::word_at(fields, 0));
    let k = logic::payload(logic::word_at(fields, 1));
    let mut terms = [0u32; 128];
    let counts = matches(
        fields,
        3 + n,
        n,
        k,
        table,
        calls,
        names,
        marks,
        &mut terms,
        c,
    );
    let found = vectors::tv_concat(calls, counts, &terms, k);
    let bound = trits::tv_bind(calls, found.counts, found.value, k);
    chosen(
        fields,
        k,
        table,
        calls,
        names,
        marks,
        bound.counts,
        bound.value,
    )
}
