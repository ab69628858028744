// SmtBuilder of smt.rs: its functions that read one net, under their own names and in its order.
#![tactic(auto)]

ghost use Rattle.std.specs.Prelude.{◌≡◌, [], ◌∷◌, ◌<◌, ◌^◌};
ghost use Rattle.logic.specs.Net.{net_of};
ghost use Rattle.smt.specs.Builder.{tv_lit, curr_net, past_net};
ghost use Rattle.smt.specs.Builder as model;
ghost use Rattle.builder.specs.Ran.{trits, MakesTrits, RanTrits};
ghost use Rattle.names.specs.Names.{age_of};
ghost use Rattle.nets.specs.Reads.{past_in, age_in, reader, age_by};

use builder::{BuiltTrits, Counts};
use logic::{Driver, Net, Trit};
use names::Age;

// How nets are read: by their current trits, by their past ones, or as `net` does: the past trit of a base Dff, else
// the current one.
#[derive(Clone, Copy)]
pub enum Reading {
    Curr,
    Past,
    Either,
}

// `self.tv_lit(trit)`
pub fn trit_lit(calls: &mut [u32], c: Counts, trit: Trit) -> BuiltTrits
    ensures { MakesTrits (tv_lit (trit ∷ [])) 1 calls.old c calls.new result }
{
    trits::tv_lit(calls, c, 1, operands::x_bit(trit), operands::y_bit(trit))
}

// The current or the past trit of a net.
fn net_of(
    calls: &mut [u32],
    names: &mut [u32],
    marks: &mut [u8],
    c: Counts,
    age: Age,
    net: Net,
) -> BuiltTrits
    ensures { net.0 < 2 ^ 29 → RanTrits (model.net_of (age_of age) (net_of net.0)) 1
        calls.old names.old marks.old c
        calls.new names.new marks.new result }
{
    match logic::driver_of(net) {
        Driver::Constant(trit) => trit_lit(calls, c, trit),
        Driver::Output(slot) => names::tv_const(calls, names, marks, c, age, slot),
        Driver::NoNet => trit_lit(calls, c, Trit::Undef),
    }
}

pub fn curr_net(
    calls: &mut [u32],
    names: &mut [u32],
    marks: &mut [u8],
    c: Counts,
    net: Net,
) -> BuiltTrits
    ensures { net.0 < 2 ^ 29 → RanTrits (curr_net (net_of net.0)) 1
        calls.old names.old marks.old c
        calls.new names.new marks.new result }
{
    net_of(calls, names, marks, c, Age::Curr, net)
}

pub fn past_net(
    calls: &mut [u32],
    names: &mut [u32],
    marks: &mut [u8],
    c: Counts,
    net: Net,
) -> BuiltTrits
    ensures { net.0 < 2 ^ 29 → RanTrits (past_net (net_of net.0)) 1
        calls.old names.old marks.old c
        calls.new names.new marks.new result }
{
    net_of(calls, names, marks, c, Age::Past, net)
}

// Which trit of a net `net` reads: the past one of a base Dff, by the word of the slot table.
fn age_in(table: &[u32], net: Net) -> Age
    ensures { net.0 < 2 ^ 29 → age_of result ≡ age_in (past_in table.now) (net_of net.0) }
{
    match logic::driver_of(net) {
        Driver::Output(slot) if logic::word_at(table, slot.0 as usize) % 8 == 1 => Age::Past,
        _ => Age::Curr,
    }
}

pub fn net(
    table: &[u32],
    calls: &mut [u32],
    names: &mut [u32],
    marks: &mut [u8],
    c: Counts,
    net: Net,
) -> BuiltTrits
    ensures { net.0 < 2 ^ 29 → RanTrits (model.net (past_in table.now) (net_of net.0)) 1
        calls.old names.old marks.old c
        calls.new names.new marks.new result }
{
    net_of(calls, names, marks, c, age_in(table, net), net)
}

// Which trit of a net is read.
fn age_by(reading: Reading, table: &[u32], net: Net) -> Age
    ensures { net.0 < 2 ^ 29 → age_of result ≡ age_by reading table.now (net_of net.0) }
{
    match reading {
        Reading::Curr => Age::Curr,
        Reading::Past => Age::Past,
        Reading::Either => age_in(table, net),
    }
}

// curr_net, past_net or net, by the reading.
pub fn read_net(
    reading: Reading,
    table: &[u32],
    calls: &mut [u32],
    names: &mut [u32],
    marks: &mut [u8],
    c: Counts,
    net: Net,
) -> BuiltTrits
    ensures { net.0 < 2 ^ 29 → RanTrits (reader reading table.now (net_of net.0)) 1
        calls.old names.old marks.old c
        calls.new names.new marks.new result }
{
    net_of(calls, names, marks, c, age_by(reading, table, net), net)
}
