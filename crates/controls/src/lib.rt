// SmtBuilder of smt.rs: its functions that read a control, a net that may be inverted, under their own names and in its
// order.
#![tactic(auto)]

ghost use Rattle.std.specs.Prelude.{◌≡◌, not, ◌<◌, ◌^◌};
ghost use Rattle.logic.specs.Net.{net_of};
ghost use Rattle.bitvec.specs.Bits.{bit};
ghost use Rattle.smt.specs.Builder.{invert_net, control_net, clock_net, is_always_inactive};
ghost use Rattle.builder.specs.Ran.{trits, MakesTrits, RanTrits};
ghost use Rattle.nets.specs.Reads.{past_in};
ghost use Rattle.controls.specs.Reads.{control_of, control_word};

use builder::{BuiltTrits, Counts, TritVec};
use engine::BinaryOp;
use logic::Net;

// `ControlNet`: a net that may be inverted.
#[derive(Clone, Copy)]
pub struct ControlNet {
    pub net: Net,
    pub inverted: bool,
}

// The control of a word: kind 1 is an inverted net.
pub fn control_of(word: u32) -> ControlNet
    ensures { result ≡ control_word word }
{
    ControlNet {
        net: Net(logic::payload(word)),
        inverted: logic::kind(word) == 1,
    }
}

// Ones where the control is positive, zero where it is inverted.
fn active(control: ControlNet) -> u64
    ensures { result ≡ bit (not control.inverted) }
{
    u64::from(!control.inverted)
}

pub fn invert_net(calls: &mut [u32], c: Counts, control: ControlNet, net: TritVec) -> BuiltTrits
    ensures { MakesTrits (invert_net (control_of control) (trits 1 net)) 1 calls.old c
        calls.new result }
{
    let active = builder::build_bitvec_lit(calls, c, 1, active(control));
    let y = builder::build_binary(calls, active.counts, BinaryOp::Comp, net.y, active.term);
    builder::trits(net.x, y)
}

pub fn control_net(
    table: &[u32],
    calls: &mut [u32],
    names: &mut [u32],
    marks: &mut [u8],
    c: Counts,
    control: ControlNet,
) -> BuiltTrits
    ensures { control.net.0 < 2 ^ 29
        → RanTrits (control_net (past_in table.now) (control_of control)) 1
        calls.old names.old marks.old c
        calls.new names.new marks.new result }
{
    let a = nets::net(table, calls, names, marks, c, control.net);
    invert_net(calls, a.counts, control, a.value)
}

pub fn clock_net(
    calls: &mut [u32],
    names: &mut [u32],
    marks: &mut [u8],
    c: Counts,
    control: ControlNet,
) -> BuiltTrits
    ensures { control.net.0 < 2 ^ 29 → RanTrits (clock_net (control_of control)) 1
        calls.old names.old marks.old c
        calls.new names.new marks.new result }
{
    let now = nets::curr_net(calls, names, marks, c, control.net);
    let now = invert_net(calls, now.counts, control, now.value);
    let was = nets::past_net(calls, names, marks, now.counts, control.net);
    let was = invert_net(calls, was.counts, control, was.value);
    let was_not = trits::tv_not(calls, was.counts, was.value);
    gates::tv_and(calls, was_not.counts, now.value, was_not.value, 1)
}

// `control_net.is_always(false)`
pub fn is_always_inactive(control: ControlNet) -> bool
    ensures { result ≡ is_always_inactive control.inverted (net_of control.net.0) }
{
    let net = control.net;
    if net.0 == 0 {
        return !control.inverted;
    }
    if net.0 == 1 {
        return control.inverted;
    }
    false
}

// `flip_flop.has_clear()`, of its clear.
pub fn has_clear(clear: ControlNet) -> bool
    ensures { result ≡ not (is_always_inactive clear.inverted (net_of clear.net.0)) }
{
    !is_always_inactive(clear)
}
