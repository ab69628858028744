// The second loop of `Design::verify` of design.rs: the net replacements of an accepted list, from its words.
#![tactic(auto)]

ghost use Rattle.std.specs.Prelude.{◌≡◌, ℕ, ◌<◌, ◌^◌};
ghost use Rattle.logic.specs.Net.{net_of};
ghost use Rattle.cell.specs.Design.{Design};
ghost use Rattle.cell_reader.specs.Parse.{number_in};
ghost use Rattle.design_list.specs.Read.{read, accepted};
ghost use Rattle.order.specs.Verify.{pair_steps, each_pair};
ghost use Rattle.nets.specs.Reads.{past_in};
ghost use Rattle.slots.specs.Tells.{Tells};
ghost use Rattle.slots.specs.Pairs.{pair_in};
ghost use Rattle.net_pairs.specs.Does.{Does};

use cell::Mode;
use logic::Net;
use net_pairs::{Walked, replace_dff_pair, replace_net, replace_void_net};
use slots::Pair;

// A net replacement: of equal nets none, of a Void's net an assertion, of a Dff's by a Dff's by the mode.
fn replace_pair(
    mode: Mode,
    table: &[u32],
    calls: &mut [u32],
    names: &mut [u32],
    marks: &mut [u8],
    eqs: &mut [u32],
    s: Walked,
    from_net: Net,
    to_net: Net,
) -> Walked
    ensures { from_net.0 < 2 ^ 29 → to_net.0 < 2 ^ 29
        → Does (pair_steps (past_in table.now) mode
        (pair_in table.now from_net.0 to_net.0)
        (record { from = net_of from_net.0; to = net_of to_net.0 }))
        calls.old names.old marks.old eqs.old s
        calls.new names.new marks.new eqs.new result }
{
    match slots::pair_of(table, from_net, to_net) {
        Pair::Equal => s,
        Pair::OfVoid => replace_void_net(table, calls, names, marks, s, from_net, to_net),
        Pair::OfDffs => replace_dff_pair(
            mode, table, calls, names, marks, eqs, s, from_net, to_net,
        ),
        Pair::Ordinary => replace_net(table, calls, names, marks, eqs, s, from_net, to_net),
    }
}

// The net of the word at a place.
fn net_at(list: &[u32], at: usize) -> Net
    ensures { result.0 ≡ number_in list.now at }
{
    Net(logic::payload(logic::word_at(list, at)))
}

// The net replacements in order, two words each, up to the last word.
pub fn replace_pairs(
    mode: Mode,
    list: &[u32],
    pairs: usize,
    table: &[u32],
    calls: &mut [u32],
    names: &mut [u32],
    marks: &mut [u8],
    eqs: &mut [u32],
    start: Walked,
) -> Walked
    ensures { (d : Design) (replacements : ℕ) → read mode list.now ≡ accepted d replacements pairs
        → Tells d table.now → Does (each_pair d d.net_reps)
        calls.old names.old marks.old eqs.old start
        calls.new names.new marks.new eqs.new result }
{
    let mut s = start;
    let mut at = pairs;
    while at < list.len() {
        let from_net = net_at(list, at);
        let to_net = net_at(list, at + 1);
        s = replace_pair(mode, table, calls, names, marks, eqs, s, from_net, to_net);
        at += 2;
    }
    s
}
