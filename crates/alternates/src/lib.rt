// SmtBuilder of smt.rs, `cell` for a Match: the match of one pattern, the sum over its alternates of the products over
// their positions. `fields` is the part of the list from the record's first field on: #n #k enable, n nets, and for
// each of k patterns #alternates and its constants, n for each alternate.
#![tactic(auto)]

ghost use Rattle.std.specs.Prelude.{◌≡◌, ◌+◌, ◌*◌, ◌<◌, ◌^◌, min};
ghost use Rattle.cell_reader.specs.Parse.{number_in, net_in, nets_in, trits_in};
ghost use Rattle.smt.specs.Builder.{compared, product, match_of};
ghost use Rattle.builder.specs.Ran.{trits, RanTrits};
ghost use Rattle.nets.specs.Reads.{past_in};
ghost use Rattle.alternates.specs.Parts.{alternates_in, position};

use builder::{BuiltTrits, Counts};
use logic::{Net, Trit};

// The product with one compared position more: `tv_and(prd, tv_not(tv_xor(net, mask)), 1)`.
fn compared(
    fields: &[u32],
    index: u32,
    mask: Trit,
    table: &[u32],
    calls: &mut [u32],
    names: &mut [u32],
    marks: &mut [u8],
    prd: BuiltTrits,
) -> BuiltTrits
    ensures { RanTrits
        (compared (past_in table.now) (net_in fields.now (3 + index)) mask (trits 1 prd.value)) 1
        calls.old names.old marks.old prd.counts
        calls.new names.new marks.new result }
{
    let net = Net(logic::payload(logic::word_at(fields, 3 + index as usize)));
    let a = nets::net(table, calls, names, marks, prd.counts, net);
    let b = nets::trit_lit(calls, a.counts, mask);
    let differ = gates::tv_xor(calls, b.counts, a.value, b.value);
    let same = trits::tv_not(calls, differ.counts, differ.value);
    gates::tv_and(calls, same.counts, prd.value, same.value, 1)
}

// The product with one position more; X is compared with nothing.
fn position(
    fields: &[u32],
    index: u32,
    mask: Trit,
    table: &[u32],
    calls: &mut [u32],
    names: &mut [u32],
    marks: &mut [u8],
    prd: BuiltTrits,
) -> BuiltTrits
    ensures { RanTrits
        (position (past_in table.now) (net_in fields.now (3 + index)) mask (trits 1 prd.value)) 1
        calls.old names.old marks.old prd.counts
        calls.new names.new marks.new result }
{
    match mask {
        Trit::Undef => prd,
        Trit::Zero | Trit::One => compared(fields, index, mask, table, calls, names, marks, prd),
    }
}

// The product over the positions of the alternate at a place.
fn product(
    fields: &[u32],
    at: u32,
    n: u32,
    table: &[u32],
    calls: &mut [u32],
    names: &mut [u32],
    marks: &mut [u8],
    prd: BuiltTrits,
) -> BuiltTrits
    ensures { RanTrits
        (product (past_in table.now) (nets_in fields.now n 3) (trits_in fields.now n at)
        (trits 1 prd.value)) 1
        calls.old names.old marks.old prd.counts
        calls.new names.new marks.new result }
{
    let mut result = prd;
    for index in 0..n {
        let mask = operands::trit_at(fields, at as usize + index as usize);
        result = position(fields, index, mask, table, calls, names, marks, result);
    }
    result
}

// The place of alternate i of the pattern at a place, at most 2^32 - 1; that of the next pattern if i is the number of
// alternates.
pub fn alternate_at(at: u32, i: u32, n: u32) -> u32
    ensures { result ≡ min (at + 1 + i * n) 4294967295 }
{
    (at as u64 + 1 + (i as u64) * (n as u64)).min(4294967295) as u32
}

// The sum over the alternates of the pattern at a place.
pub fn sum(
    fields: &[u32],
    at: u32,
    n: u32,
    table: &[u32],
    calls: &mut [u32],
    names: &mut [u32],
    marks: &mut [u8],
    c: Counts,
) -> BuiltTrits
    ensures { at + 1 + number_in fields.now at * n < 2 ^ 32
        → RanTrits
        (match_of (past_in table.now) (nets_in fields.now n 3)
        (alternates_in fields.now n at)) 1
        calls.old names.old marks.old c
        calls.new names.new marks.new result }
{
    let alternates = logic::payload(logic::word_at(fields, at as usize));
    let mut sum = nets::trit_lit(calls, c, Trit::Zero);
    for i in 0..alternates {
        let place = alternate_at(at, i, n);
        let one = nets::trit_lit(calls, sum.counts, Trit::One);
        let prd = product(fields, place, n, table, calls, names, marks, one);
        sum = gates::tv_or(calls, prd.counts, sum.value, prd.value, 1);
    }
    sum
}
