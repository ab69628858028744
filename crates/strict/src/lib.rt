// SmtBuilder of smt.rs: what Mul and the divisions have in common, one operation on y and all X unless a term holds.
#![tactic(auto)]

ghost use Rattle.std.specs.Prelude.{◌≤◌};
ghost use Rattle.engine.specs.Emit.{binary_of};
ghost use Rattle.smt.specs.Builder.{tv_strict, may_divide, tv_divide};
ghost use Rattle.builder.specs.Ran.{trits, MakesBool};
ghost use Rattle.strict.specs.Strict.{MakesStrict};

use builder::{Built, BuiltTrits, Counts, TritVec};
use engine::BinaryOp;
use logic::Term;

// An operation on y; all X unless the term `defined` holds.
pub fn tv_strict(
    calls: &mut [u32],
    c: Counts,
    op: BinaryOp,
    defined: Term,
    a: TritVec,
    b: TritVec,
    n: u32,
) -> BuiltTrits
    ensures { n ≤ 64 → MakesStrict (tv_strict (binary_of op) defined.0 (trits n a) (trits n b) n)
        (binary_of op) n calls.old c calls.new result }
{
    let none = builder::build_bitvec_lit(calls, c, n, 0);
    let all = builder::build_bitvec_lit(calls, none.counts, n, 18446744073709551615);
    let x = builder::build_bitvec_ite(calls, all.counts, defined, none.term, all.term);
    let y = builder::build_binary(calls, x.counts, op, a.y, b.y);
    builder::trits(x.term, y)
}

// No operand has an X, and the divisor is not zero.
fn may_divide(calls: &mut [u32], c: Counts, a: TritVec, b: TritVec, n: u32) -> Built
    ensures { n ≤ 64 → MakesBool (may_divide (trits n a) (trits n b) n) calls.old c
        calls.new result }
{
    let no_x = compare::bv_no_x(calls, c, a, b, n);
    let by_zero = bits::bv_is_zero(calls, no_x.counts, b.y, n);
    let not_by_zero = builder::build_not(calls, by_zero.counts, by_zero.term);
    builder::build_and(calls, not_by_zero.counts, no_x.term, not_by_zero.term)
}

// A division, by its operation on y.
pub fn tv_divide(
    calls: &mut [u32],
    c: Counts,
    op: BinaryOp,
    a: TritVec,
    b: TritVec,
    n: u32,
) -> BuiltTrits
    ensures { n ≤ 64 → MakesStrict (tv_divide (binary_of op) (trits n a) (trits n b) n) (binary_of op) n
        calls.old c calls.new result }
{
    let defined = may_divide(calls, c, a, b, n);
    tv_strict(calls, defined.counts, op, defined.term, a, b, n)
}
