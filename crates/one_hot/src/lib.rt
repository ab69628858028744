// SmtBuilder of smt.rs: the arm Match of `cell` from the matches on: the first pattern that matches is hot.
#![tactic(auto)]

ghost use Rattle.std.specs.Prelude.{◌≡◌, ℕ, ◌^◌, ◌<◌, ◌≤◌, replicate};
ghost use Rattle.logic.specs.declared.Trit.TheVariants as t;
ghost use Rattle.smt.specs.Builder.{tv_lit, one_hot, first_match};
ghost use Rattle.builder.specs.Ran.{trits, MakesTrits};

use builder::{BuiltTrits, Counts, TritVec};

// ---- cell: Match

// `Const::zero`
pub fn tv_zero(calls: &mut [u32], c: Counts, width: u32) -> BuiltTrits
    ensures { width ≤ 64 → MakesTrits (tv_lit (replicate width t.Zero)) width calls.old c
        calls.new result }
{
    trits::tv_lit(calls, c, width, 0, 0)
}

fn power_of_two(index: u32) -> u64
    ensures { index < 64 → result ≡ 2 ^ index }
{
    if index < 64 { 1 << index } else { 0 }
}

// `Const::one_hot`
fn tv_one_hot(calls: &mut [u32], c: Counts, width: u32, index: u32) -> BuiltTrits
    ensures { width ≤ 64 → index < width → MakesTrits (tv_lit (one_hot width index)) width calls.old c
        calls.new result }
{
    trits::tv_lit(calls, c, width, 0, power_of_two(index))
}

// The patterns from the last to the first: where one matches it is hot, else what the later ones give.
pub fn first_match(
    calls: &mut [u32],
    c: Counts,
    matches: TritVec,
    k: u32,
    all_cold: TritVec,
) -> BuiltTrits
    ensures { k ≤ 64 → (i : ℕ) → MakesTrits (first_match (trits i matches) k k (trits k all_cold)) k
        calls.old c calls.new result }
{
    let mut result = BuiltTrits {
        value: all_cold,
        counts: c,
    };
    for index in (0..k).rev() {
        let hit = trits::tv_extract(calls, result.counts, index, index, matches);
        let hot = tv_one_hot(calls, hit.counts, k, index);
        result = gates::tv_mux(calls, hot.counts, hit.value, hot.value, result.value, k);
    }
    result
}
