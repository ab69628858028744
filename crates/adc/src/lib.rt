// SmtBuilder of smt.rs: the arm Adc of `cell` from its operands' terms on.
#![tactic(auto)]

ghost use Rattle.std.specs.Prelude.{ℕ, ◌+◌, ◌<◌, ◌≤◌, length};
ghost use Rattle.smt.specs.Prog.{bv};
ghost use Rattle.smt.specs.Builder.{carry_x, tv_adc};
ghost use Rattle.builder.specs.Ran.{trits, Writes, MakesVector, MakesTrits};
ghost use Rattle.vectors.specs.Elements.{bit_elements};
ghost use Rattle.adc.specs.Parts.{carry_one, adc_sum, adc_carry};

use builder::{Built, BuiltTrits, Counts, TritVec};
use engine::BinaryOp;
use logic::Term;

// ---- cell: Adc

// The carry's x after position `index`: X where the carry into it or an operand is.
fn carry_one(calls: &mut [u32], c: Counts, a: TritVec, b: TritVec, index: u32, carry: Term) -> Built
    ensures { (i : ℕ) → MakesVector (carry_one (trits i a) (trits i b) index (bv carry.0 1)) 1
        calls.old c calls.new result }
{
    let a_x = builder::build_extract(calls, c, index, index, a.x);
    let b_x = builder::build_extract(calls, a_x.counts, index, index, b.x);
    let either = builder::build_binary(calls, b_x.counts, BinaryOp::Or, a_x.term, b_x.term);
    let any = builder::build_binary(calls, either.counts, BinaryOp::Or, carry, either.term);
    bits::bv_bind(calls, any.counts, any.term, 1)
}

// The carry's x after each of n positions, and the last once more.
fn carry_x(
    calls: &mut [u32],
    xs: &mut [u32],
    c: Counts,
    a: TritVec,
    b: TritVec,
    n: u32,
    carry: Term,
) -> Counts
    ensures { n < length xs.old → (i : ℕ)
        → Writes (carry_x (trits i a) (trits i b) n 0 (bv carry.0 1)) calls.old c
        calls.new result (bit_elements xs.new (n + 1)) }
{
    let mut last = Built {
        term: carry,
        counts: c,
    };
    for index in 0..n {
        last = carry_one(calls, last.counts, a, b, index, last.term);
        logic::put(xs, index as usize, last.term.0);
    }
    logic::put(xs, n as usize, last.term.0);
    last.counts
}

// The carry added to the operands' sum, whose x is made.
fn adc_carry(calls: &mut [u32], sum: Built, carry: TritVec, n: u32, x: Term) -> BuiltTrits
    ensures { n ≤ 63 → (w : ℕ) → MakesTrits (adc_carry (trits 1 carry) n (bv x.0 w) (bv sum.term.0 w)) w
        calls.old sum.counts calls.new result }
{
    let zero = bits::bv_lit(calls, sum.counts, n, 0);
    let carry_ext = builder::build_concat(calls, zero.counts, zero.term, carry.y);
    let y = builder::build_binary(
        calls,
        carry_ext.counts,
        BinaryOp::Add,
        sum.term,
        carry_ext.term,
    );
    builder::trits(x, y)
}

// The sum, whose x is made.
fn adc_sum(
    calls: &mut [u32],
    x: Built,
    a: TritVec,
    b: TritVec,
    carry: TritVec,
    n: u32,
) -> BuiltTrits
    ensures { n ≤ 63 → MakesTrits (adc_sum (trits n a) (trits n b) (trits 1 carry) n (bv x.term.0 (1 + n))) (1 + n)
        calls.old x.counts calls.new result }
{
    let zero = bits::bv_lit(calls, x.counts, 1, 0);
    let a_ext = builder::build_concat(calls, zero.counts, zero.term, a.y);
    let zero = bits::bv_lit(calls, a_ext.counts, 1, 0);
    let b_ext = builder::build_concat(calls, zero.counts, zero.term, b.y);
    let sum = builder::build_binary(calls, b_ext.counts, BinaryOp::Add, a_ext.term, b_ext.term);
    adc_carry(calls, sum, carry, n, x.term)
}

// Adc of n positions, at most 63, with the carry out on top.
pub fn tv_adc(
    calls: &mut [u32],
    c: Counts,
    a: TritVec,
    b: TritVec,
    carry: TritVec,
    n: u32,
) -> BuiltTrits
    ensures { n ≤ 63 → (i j : ℕ) → MakesTrits (tv_adc (trits i a) (trits j b) (trits 1 carry) n) (n + 1)
        calls.old c calls.new result }
{
    let a = trits::tv_bind(calls, c, a, n);
    let b = trits::tv_bind(calls, a.counts, b, n);
    let mut xs = [0u32; 64];
    let counts = carry_x(calls, &mut xs, b.counts, a.value, b.value, n, carry.x);
    let x = vectors::bv_concat(calls, counts, &xs, builder::following(n));
    adc_sum(calls, x, a.value, b.value, carry, n)
}
