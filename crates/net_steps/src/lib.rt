// SmtBuilder of smt.rs: what `Design::verify` makes of a net replacement, as steps of the order of work.
#![tactic(auto)]

ghost use Rattle.std.specs.Prelude.{[], ◌∷◌, ◌<◌, ◌^◌};
ghost use Rattle.logic.specs.Net.{net_of};
ghost use Rattle.order.specs.Verify.{asserted, obliged, replace_net, replace_void_net, replace_dff_net, join_pasts, currents};
ghost use Rattle.nets.specs.Reads.{past_in};
ghost use Rattle.net_steps.specs.Did.{Did, Asserts};

use builder::{Built, Counts};
use logic::Net;

// A claim asserted.
pub fn assert_claim(calls: &mut [u32], claim: Built) -> Counts
    ensures { Asserts claim calls.old calls.new result }
{
    Counts {
        terms: claim.counts.terms,
        temporaries: claim.counts.temporaries,
        words: engine::assert_term(calls, claim.counts.words, claim.term),
    }
}

// The obligation of a net replacement: from, taken current, refines to, as read.
pub fn replace_net(
    table: &[u32],
    calls: &mut [u32],
    names: &mut [u32],
    marks: &mut [u8],
    c: Counts,
    from_net: Net,
    to_net: Net,
) -> Built
    ensures { from_net.0 < 2 ^ 29 → to_net.0 < 2 ^ 29
        → Did (obliged (replace_net (past_in table.now) (net_of from_net.0) (net_of to_net.0)) ∷ [])
        calls.old names.old marks.old c
        calls.new names.new marks.new result.counts (result.term.0 ∷ []) }
{
    let from = nets::curr_net(calls, names, marks, c, from_net);
    let to = nets::net(table, calls, names, marks, from.counts, to_net);
    trits::tv_refines(calls, to.counts, from.value, to.value)
}

// A Void's net replacement asserts equality.
pub fn replace_void_net(
    table: &[u32],
    calls: &mut [u32],
    names: &mut [u32],
    marks: &mut [u8],
    c: Counts,
    from_net: Net,
    to_net: Net,
) -> Counts
    ensures { from_net.0 < 2 ^ 29 → to_net.0 < 2 ^ 29
        → Did (asserted (replace_void_net (past_in table.now) (net_of from_net.0) (net_of to_net.0))
        ∷ [])
        calls.old names.old marks.old c
        calls.new names.new marks.new result [] }
{
    let from = nets::curr_net(calls, names, marks, c, from_net);
    let to = nets::net(table, calls, names, marks, from.counts, to_net);
    let equal = trits::tv_eq(calls, to.counts, from.value, to.value);
    assert_claim(calls, equal)
}

// The past nets of two Dffs, joined by an assertion.
fn join_pasts(
    calls: &mut [u32],
    names: &mut [u32],
    marks: &mut [u8],
    c: Counts,
    from_net: Net,
    to_net: Net,
) -> Counts
    ensures { from_net.0 < 2 ^ 29 → to_net.0 < 2 ^ 29
        → Did (asserted (join_pasts (net_of from_net.0) (net_of to_net.0)) ∷ [])
        calls.old names.old marks.old c
        calls.new names.new marks.new result [] }
{
    let from = nets::past_net(calls, names, marks, c, from_net);
    let to = nets::past_net(calls, names, marks, from.counts, to_net);
    let equal = trits::tv_eq(calls, to.counts, from.value, to.value);
    assert_claim(calls, equal)
}

// The obligation of current to current.
fn currents(
    calls: &mut [u32],
    names: &mut [u32],
    marks: &mut [u8],
    c: Counts,
    from_net: Net,
    to_net: Net,
) -> Built
    ensures { from_net.0 < 2 ^ 29 → to_net.0 < 2 ^ 29
        → Did (obliged (currents (net_of from_net.0) (net_of to_net.0)) ∷ [])
        calls.old names.old marks.old c
        calls.new names.new marks.new result.counts (result.term.0 ∷ []) }
{
    let from = nets::curr_net(calls, names, marks, c, from_net);
    let to = nets::curr_net(calls, names, marks, from.counts, to_net);
    trits::tv_refines(calls, to.counts, from.value, to.value)
}

// Essentially a single induction step: the pasts are joined, and the currents obliged.
pub fn replace_dff_net(
    calls: &mut [u32],
    names: &mut [u32],
    marks: &mut [u8],
    c: Counts,
    from_net: Net,
    to_net: Net,
) -> Built
    ensures { from_net.0 < 2 ^ 29 → to_net.0 < 2 ^ 29
        → Did (replace_dff_net (net_of from_net.0) (net_of to_net.0))
        calls.old names.old marks.old c
        calls.new names.new marks.new result.counts (result.term.0 ∷ []) }
{
    let joined = join_pasts(calls, names, marks, c, from_net, to_net);
    currents(calls, names, marks, joined, from_net, to_net)
}
