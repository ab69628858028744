// The builder's running counts change through the caller's own record: a pass over an accepted list, by value, and over
// it two functions in which the counts are a record that the caller lends.
#![tactic(auto)]

ghost use Rattle.running.specs.Passes.{nothing, Passes};

use builder::Counts;
use cell::Mode;

// What a pass counted, and how many obligations it asked.
#[derive(Clone, Copy)]
pub struct Tally {
    pub counts: Counts,
    pub obligations: usize,
}

// The steps of an accepted list and `check`. The terms of its obligations stand in a lent table, and as many are asked
// as it has room for.
fn pass(
    c: Counts,
    mode: Mode,
    list: &[u32],
    replacements: usize,
    pairs: usize,
    table: &[u32],
    calls: &mut [u32],
    names: &mut [u32],
    marks: &mut [u8],
    eqs: &mut [u32],
) -> Tally
    ensures { Passes c mode list.now replacements pairs table.now
        calls.old names.old marks.old eqs.old
        calls.new names.new marks.new eqs.new result.counts result.obligations }
{
    let s = walk::work(
        mode,
        list,
        replacements,
        pairs,
        table,
        calls,
        names,
        marks,
        eqs,
        c,
    );
    let asked = s.obligations.min(eqs.len());
    let counts = steps::check(calls, s.counts, &eqs[..asked]);
    Tally {
        counts,
        obligations: s.obligations,
    }
}

// A pass that goes on from the counts of the caller's record, and leaves its own there.
pub fn pass_into(
    counts: &mut Counts,
    mode: Mode,
    list: &[u32],
    replacements: usize,
    pairs: usize,
    table: &[u32],
    calls: &mut [u32],
    names: &mut [u32],
    marks: &mut [u8],
    eqs: &mut [u32],
) -> usize
    ensures { Passes counts.old mode list.now replacements pairs table.now
        calls.old names.old marks.old eqs.old
        calls.new names.new marks.new eqs.new counts.new result }
{
    let p = pass(
        *counts,
        mode,
        list,
        replacements,
        pairs,
        table,
        calls,
        names,
        marks,
        eqs,
    );
    *counts = p.counts;
    p.obligations
}

// A pass from no counts: the record is made here and lent, and what it then holds is answered.
pub fn run(
    mode: Mode,
    list: &[u32],
    replacements: usize,
    pairs: usize,
    table: &[u32],
    calls: &mut [u32],
    names: &mut [u32],
    marks: &mut [u8],
    eqs: &mut [u32],
) -> Tally
    ensures { Passes nothing mode list.now replacements pairs table.now
        calls.old names.old marks.old eqs.old
        calls.new names.new marks.new eqs.new result.counts result.obligations }
{
    let mut counts = Counts {
        terms: 0,
        temporaries: 0,
        words: 0,
    };
    let obligations = pass_into(
        &mut counts,
        mode,
        list,
        replacements,
        pairs,
        table,
        calls,
        names,
        marks,
        eqs,
    );
    Tally {
        counts,
        obligations,
    }
}
