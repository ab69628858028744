// What each kind of net replacement makes in the second loop of `Design::verify` of design.rs; and the terms of
// obligations in a lent table.
#![tactic(auto)]

ghost use Rattle.std.specs.Prelude.{List, [], ◌∷◌, ℕ, ◌<◌, ◌^◌};
ghost use Rattle.logic.specs.Net.{net_of};
ghost use Rattle.order.specs.Verify.{asserted, obliged, replace_net, replace_void_net, replace_dff_net, dff_steps};
ghost use Rattle.nets.specs.Reads.{past_in};
ghost use Rattle.net_pairs.specs.Does.{Pushed, Does};

use builder::{Built, Counts};
use cell::Mode;
use logic::Net;

// What a part of the walk has done: the counts, and how many obligations there are.
#[derive(Clone, Copy)]
pub struct Walked {
    pub counts: Counts,
    pub obligations: usize,
}

// `self.eqs.borrow_mut().push`: the term of an obligation, stored after the others; past the table's end nothing is
// stored.
pub fn push(eqs: &mut [u32], obligations: usize, eq: Built) -> Walked
    ensures { Pushed eqs.old obligations eq eqs.new result }
{
    if obligations < eqs.len() {
        eqs[obligations] = eq.term.0;
        return Walked {
            counts: eq.counts,
            obligations: obligations + 1,
        };
    }
    Walked {
        counts: eq.counts,
        obligations,
    }
}

// `SmtBuilder::replace_net`: an obligation.
pub fn replace_net(
    table: &[u32],
    calls: &mut [u32],
    names: &mut [u32],
    marks: &mut [u8],
    eqs: &mut [u32],
    s: Walked,
    from_net: Net,
    to_net: Net,
) -> Walked
    ensures { from_net.0 < 2 ^ 29 → to_net.0 < 2 ^ 29
        → Does (obliged (replace_net (past_in table.now) (net_of from_net.0) (net_of to_net.0)) ∷ [])
        calls.old names.old marks.old eqs.old s
        calls.new names.new marks.new eqs.new result }
{
    let eq = net_steps::replace_net(table, calls, names, marks, s.counts, from_net, to_net);
    push(eqs, s.obligations, eq)
}

// `SmtBuilder::replace_void_net`: an assertion.
pub fn replace_void_net(
    table: &[u32],
    calls: &mut [u32],
    names: &mut [u32],
    marks: &mut [u8],
    s: Walked,
    from_net: Net,
    to_net: Net,
) -> Walked
    ensures { (eqs : List ℕ) → from_net.0 < 2 ^ 29 → to_net.0 < 2 ^ 29
        → Does (asserted (replace_void_net (past_in table.now) (net_of from_net.0) (net_of to_net.0))
        ∷ [])
        calls.old names.old marks.old eqs s
        calls.new names.new marks.new eqs result }
{
    let counts = net_steps::replace_void_net(
        table, calls, names, marks, s.counts, from_net, to_net,
    );
    Walked {
        counts,
        obligations: s.obligations,
    }
}

// `SmtBuilder::replace_dff_net`: the pasts joined, and an obligation.
fn replace_dff_net(
    calls: &mut [u32],
    names: &mut [u32],
    marks: &mut [u8],
    eqs: &mut [u32],
    s: Walked,
    from_net: Net,
    to_net: Net,
) -> Walked
    ensures { from_net.0 < 2 ^ 29 → to_net.0 < 2 ^ 29
        → Does (replace_dff_net (net_of from_net.0) (net_of to_net.0))
        calls.old names.old marks.old eqs.old s
        calls.new names.new marks.new eqs.new result }
{
    let eq = net_steps::replace_dff_net(calls, names, marks, s.counts, from_net, to_net);
    push(eqs, s.obligations, eq)
}

// A Dff's net replaced by a Dff's: an induction step, and in the ported mode what any other replacement makes, too.
pub fn replace_dff_pair(
    mode: Mode,
    table: &[u32],
    calls: &mut [u32],
    names: &mut [u32],
    marks: &mut [u8],
    eqs: &mut [u32],
    s: Walked,
    from_net: Net,
    to_net: Net,
) -> Walked
    ensures { from_net.0 < 2 ^ 29 → to_net.0 < 2 ^ 29
        → Does (dff_steps (past_in table.now) mode
        (record { from = net_of from_net.0; to = net_of to_net.0 }))
        calls.old names.old marks.old eqs.old s
        calls.new names.new marks.new eqs.new result }
{
    let joined = replace_dff_net(calls, names, marks, eqs, s, from_net, to_net);
    match mode {
        Mode::Ported => replace_net(table, calls, names, marks, eqs, joined, from_net, to_net),
        Mode::Inductive => joined,
    }
}
