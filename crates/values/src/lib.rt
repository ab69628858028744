// SmtBuilder of smt.rs: its functions that read the nets of a value (`curr_value`, `past_value`, `value`). A value is a
// run of net words, of the list or of a table, or the output of a cell, by its first slot and its width.
#![tactic(auto)]

ghost use Rattle.std.specs.Prelude.{◌+◌, ◌*◌, ◌≤◌, ◌<◌, length};
ghost use Rattle.cell_reader.specs.Parse.{nets_in};
ghost use Rattle.smt.specs.Builder.{collect, value_of, curr_value, past_value, output_nets};
ghost use Rattle.smt.specs.Builder as model;
ghost use Rattle.builder.specs.Ran.{Ran, RanTrits};
ghost use Rattle.vectors.specs.Elements.{elements};
ghost use Rattle.nets.specs.Reads.{past_in, reader};

use builder::{BuiltTrits, Counts};
use logic::{Net, Slot};
use nets::Reading;

// The terms of n nets from a place of some words on, one after the other.
fn net_terms(
    words: &[u32],
    at: u32,
    n: u32,
    reading: Reading,
    table: &[u32],
    calls: &mut [u32],
    names: &mut [u32],
    marks: &mut [u8],
    terms: &mut [u32],
    c: Counts,
) -> Counts
    ensures { 2 * n ≤ length terms.old
        → Ran (collect (reader reading table.now) (nets_in words.now n at))
        calls.old names.old marks.old c
        calls.new names.new marks.new result (elements terms.new n) }
{
    let mut counts = c;
    for i in 0..n {
        let word = logic::word_at(words, at as usize + i as usize);
        let net = Net(logic::payload(word));
        let made = nets::read_net(reading, table, calls, names, marks, counts, net);
        vectors::put_element(terms, i, made.value);
        counts = made.counts;
    }
    counts
}

// The value of n nets from a place of some words on, n at most 64: `curr_value`, `past_value` or `value`, by the
// reading.
pub fn read_value(
    words: &[u32],
    at: u32,
    n: u32,
    reading: Reading,
    table: &[u32],
    calls: &mut [u32],
    names: &mut [u32],
    marks: &mut [u8],
    c: Counts,
) -> BuiltTrits
    ensures { n ≤ 64 → RanTrits (value_of (reader reading table.now) (nets_in words.now n at)) n
        calls.old names.old marks.old c
        calls.new names.new marks.new result }
{
    let mut terms = [0u32; 128];
    let counts = net_terms(
        words, at, n, reading, table, calls, names, marks, &mut terms, c,
    );
    vectors::tv_concat(calls, counts, &terms, n)
}

// `self.value(..)` of an operand.
pub fn value(
    words: &[u32],
    at: u32,
    n: u32,
    table: &[u32],
    calls: &mut [u32],
    names: &mut [u32],
    marks: &mut [u8],
    c: Counts,
) -> BuiltTrits
    ensures { n ≤ 64 → RanTrits (model.value (past_in table.now) (nets_in words.now n at)) n
        calls.old names.old marks.old c
        calls.new names.new marks.new result }
{
    read_value(words, at, n, Reading::Either, table, calls, names, marks, c)
}

// ---- the output of a cell

// The value of a cell's own output, of its first slot and its width.
pub fn output_value(
    slot: Slot,
    width: u32,
    reading: Reading,
    table: &[u32],
    calls: &mut [u32],
    names: &mut [u32],
    marks: &mut [u8],
    c: Counts,
) -> BuiltTrits
    ensures { width ≤ 64 → slot.0 + width + 1 < 536870911
        → RanTrits (value_of (reader reading table.now) (output_nets slot.0 width)) width
        calls.old names.old marks.old c
        calls.new names.new marks.new result }
{
    let mut output = [0u32; 64];
    operands::output_nets(&mut output, slot, width);
    read_value(&output, 0, width, reading, table, calls, names, marks, c)
}

// `self.curr_value(output)`
pub fn curr_value(
    slot: Slot,
    width: u32,
    table: &[u32],
    calls: &mut [u32],
    names: &mut [u32],
    marks: &mut [u8],
    c: Counts,
) -> BuiltTrits
    ensures { width ≤ 64 → slot.0 + width + 1 < 536870911
        → RanTrits (curr_value (output_nets slot.0 width)) width
        calls.old names.old marks.old c
        calls.new names.new marks.new result }
{
    output_value(slot, width, Reading::Curr, table, calls, names, marks, c)
}

// `self.past_value(output)`
pub fn past_value(
    slot: Slot,
    width: u32,
    table: &[u32],
    calls: &mut [u32],
    names: &mut [u32],
    marks: &mut [u8],
    c: Counts,
) -> BuiltTrits
    ensures { width ≤ 64 → slot.0 + width + 1 < 536870911
        → RanTrits (past_value (output_nets slot.0 width)) width
        calls.old names.old marks.old c
        calls.new names.new marks.new result }
{
    output_value(slot, width, Reading::Past, table, calls, names, marks, c)
}
