// SmtBuilder of smt.rs: the arms Eq, ULt and SLt of `cell` from their operands' terms on.
#![tactic(auto)]

ghost use Rattle.std.specs.Prelude.{ℕ, ◌-◌, ◌≤◌};
ghost use Rattle.engine.specs.Emit.{compare_of};
ghost use Rattle.smt.specs.Builder.{bv_no_x, tv_equals, tv_less};
ghost use Rattle.builder.specs.Ran.{trits, MakesBool, MakesTrits};
ghost use Rattle.compare.specs.Parts.{equals_unless};

use builder::{Built, BuiltTrits, Counts, TritVec};
use engine::{BinaryOp, Compare};

// Is no bit of either operand's x set?
pub fn bv_no_x(calls: &mut [u32], c: Counts, a: TritVec, b: TritVec, n: u32) -> Built
    ensures { n ≤ 64 → (i j : ℕ) → MakesBool (bv_no_x (trits i a) (trits j b) n) calls.old c
        calls.new result }
{
    let a_def = bits::bv_is_zero(calls, c, a.x, n);
    let b_def = bits::bv_is_zero(calls, a_def.counts, b.x, n);
    builder::build_and(calls, b_def.counts, a_def.term, b_def.term)
}

// ---- Eq

// The rest of an Eq: it is undefined where no two defined bits are unequal and some bit is X.
fn equals_unless(
    calls: &mut [u32],
    any_unequal: Built,
    a: TritVec,
    b: TritVec,
    n: u32,
) -> BuiltTrits
    ensures { n ≤ 64 → (i j : ℕ)
        → MakesTrits (equals_unless any_unequal.term.0 (trits i a) (trits j b) n) 1
        calls.old any_unequal.counts calls.new result }
{
    let never = builder::build_bool_lit(calls, any_unequal.counts, false);
    let no_x = bv_no_x(calls, never.counts, a, b, n);
    let any_x = builder::build_not(calls, no_x.counts, no_x.term);
    let undef = builder::build_bool_ite(
        calls,
        any_x.counts,
        any_unequal.term,
        never.term,
        any_x.term,
    );
    let x = bits::bool_to_bv(calls, undef.counts, undef.term);
    let y = builder::build_binary(calls, x.counts, BinaryOp::Comp, a.y, b.y);
    builder::trits(x.term, y)
}

pub fn tv_equals(calls: &mut [u32], c: Counts, a: TritVec, b: TritVec, n: u32) -> BuiltTrits
    ensures { n ≤ 64 → (i j : ℕ) → MakesTrits (tv_equals (trits i a) (trits j b) n) 1 calls.old c
        calls.new result }
{
    let differ = builder::build_binary(calls, c, BinaryOp::Xor, a.y, b.y);
    let some_x = builder::build_binary(calls, differ.counts, BinaryOp::Or, a.x, b.x);
    let no_x = builder::build_bvnot(calls, some_x.counts, some_x.term);
    let unequal = builder::build_binary(calls, no_x.counts, BinaryOp::And, differ.term, no_x.term);
    let none_unequal = bits::bv_is_zero(calls, unequal.counts, unequal.term, n);
    let any_unequal = builder::build_not(calls, none_unequal.counts, none_unequal.term);
    equals_unless(calls, any_unequal, a, b, n)
}

// ---- ULt, SLt

pub fn tv_less(
    calls: &mut [u32],
    c: Counts,
    op: Compare,
    a: TritVec,
    b: TritVec,
    n: u32,
) -> BuiltTrits
    ensures { n ≤ 64 → (i j : ℕ) → MakesTrits (tv_less (compare_of op) (trits i a) (trits j b) n) 1
        calls.old c calls.new result }
{
    let no_x = bv_no_x(calls, c, a, b, n);
    let any_x = builder::build_not(calls, no_x.counts, no_x.term);
    let x = bits::bool_to_bv(calls, any_x.counts, any_x.term);
    let less = builder::build_compare(calls, x.counts, op, a.y, b.y);
    let y = bits::bool_to_bv(calls, less.counts, less.term);
    builder::trits(x.term, y)
}
