// SmtBuilder of smt.rs: the arms of `cell` on two vectors and the shifts, from their operands' terms on.
#![tactic(auto)]

ghost use Rattle.std.specs.Prelude.{◌≡◌, ℕ, suc, ◌-◌, ◌≤◌};
ghost use Rattle.engine.specs.Emit.{binary_of};
ghost use Rattle.smt.specs.Builder.{tv_shift, tv_binary};
ghost use Rattle.builder.specs.Ran.{trits, MakesVector, MakesTrits};
ghost use Rattle.arith.specs.Shifts.{prepared_of};
ghost use Rattle.arith.specs.Parts.{amount_times};

use builder::{Built, BuiltTrits, Counts, TritVec};
use engine::{BinaryOp, Compare};
use logic::Term;
use operators::Binary;

// What prepare_shift gives: the width, the extended value and amount, and the amount times the stride.
#[derive(Clone, Copy)]
pub struct Prepared {
    pub width: u32,
    pub value: TritVec,
    pub amount: TritVec,
    pub amount_mul: Term,
}

// ---- Shl, UShr, SShr, XShr

// `bv_amount_mul`: the amount times the stride.
pub fn amount_times(calls: &mut [u32], c: Counts, width: u32, amount: TritVec, stride: u32) -> Built
    ensures { width ≤ 64 → (i : ℕ) → MakesVector (amount_times width (trits i amount) stride) i
        calls.old c calls.new result }
{
    let bv_stride = builder::build_bitvec_lit(calls, c, width, stride as u64);
    builder::build_binary(
        calls,
        bv_stride.counts,
        BinaryOp::Mul,
        amount.y,
        bv_stride.term,
    )
}

// The highest place of a vector of n bits.
fn highest(n: u32) -> u32
    ensures { result ≡ n - 1 }
{
    n.saturating_sub(1)
}

// A shift of a value of n bits, by the operations on its x and on its y.
pub fn tv_shift(
    calls: &mut [u32],
    c: Counts,
    on_x: BinaryOp,
    on_y: BinaryOp,
    n: u32,
    p: Prepared,
) -> BuiltTrits
    ensures { p.width ≤ 64
        → MakesTrits (tv_shift (binary_of on_x) (binary_of on_y) n (prepared_of p)) (suc (n - 1)) calls.old c
        calls.new result }
{
    let value = p.value;
    let amount = p.amount;
    let no_x = bits::bv_is_zero(calls, c, amount.x, p.width);
    let moved = builder::build_binary(calls, no_x.counts, on_x, value.x, p.amount_mul);
    let all = builder::build_bitvec_lit(calls, moved.counts, p.width, 18446744073709551615);
    let x = builder::build_bitvec_ite(calls, all.counts, no_x.term, moved.term, all.term);
    let y = builder::build_binary(calls, x.counts, on_y, value.y, p.amount_mul);
    let result = builder::trits(x.term, y);
    trits::tv_extract(calls, result.counts, highest(n), 0, result.value)
}

// ---- And, Or, Xor, Eq, ULt, SLt, Mul, UDiv, UMod, SDivTrunc, SModTrunc

// An operation on two vectors of n trits, with an output of `width`.
pub fn tv_binary(
    calls: &mut [u32],
    c: Counts,
    op: Binary,
    a: TritVec,
    b: TritVec,
    n: u32,
    width: u32,
) -> BuiltTrits
    ensures { n ≤ 64 → (i : ℕ) × MakesTrits (tv_binary op (trits n a) (trits n b) n width) i
        calls.old c calls.new result }
{
    match op {
        Binary::And => gates::tv_and(calls, c, a, b, width),
        Binary::Or => gates::tv_or(calls, c, a, b, width),
        Binary::Xor => gates::tv_xor(calls, c, a, b),
        Binary::Eq => compare::tv_equals(calls, c, a, b, n),
        Binary::ULt => compare::tv_less(calls, c, Compare::Ult, a, b, n),
        Binary::SLt => compare::tv_less(calls, c, Compare::Slt, a, b, n),
        Binary::Mul => {
            let no_x = compare::bv_no_x(calls, c, a, b, n);
            strict::tv_strict(calls, no_x.counts, BinaryOp::Mul, no_x.term, a, b, n)
        }
        Binary::UDiv => strict::tv_divide(calls, c, BinaryOp::Udiv, a, b, n),
        Binary::UMod => strict::tv_divide(calls, c, BinaryOp::Urem, a, b, n),
        Binary::SDivTrunc => strict::tv_divide(calls, c, BinaryOp::Sdiv, a, b, n),
        Binary::SModTrunc => strict::tv_divide(calls, c, BinaryOp::Srem, a, b, n),
    }
}
