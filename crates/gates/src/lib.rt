// SmtBuilder of smt.rs: tv_and, tv_or, tv_xor and tv_mux, under their own names and in its order.
#![tactic(auto)]

ghost use Rattle.std.specs.Prelude.{ℕ, ◌-◌};
ghost use Rattle.smt.specs.Prog.{bv};
ghost use Rattle.smt.specs.Builder.{tv_and, tv_or, tv_xor, tv_mux};
ghost use Rattle.builder.specs.Ran.{trits, MakesTrits};
ghost use Rattle.gates.specs.Parts.{undecided, and_bound, or_bound, mux_bound, mux_x, mux_y};

use builder::{Built, BuiltTrits, Counts, TritVec};
use engine::BinaryOp;
use logic::Term;

// The rest of an and or an or, whose y is made: X where either is and neither decides.
fn undecided(
    calls: &mut [u32],
    y: Built,
    a: TritVec,
    b: TritVec,
    a_decides: Term,
    b_decides: Term,
) -> BuiltTrits
    ensures { (i : ℕ)
        → MakesTrits
        (undecided (trits i a) (trits i b) (bv a_decides.0 i) (bv b_decides.0 i) (bv y.term.0 i)) i
        calls.old y.counts calls.new result }
{
    let some_x = builder::build_binary(calls, y.counts, BinaryOp::Or, a.x, b.x);
    let either = builder::build_binary(calls, some_x.counts, BinaryOp::Or, a_decides, b_decides);
    let neither = builder::build_bvnot(calls, either.counts, either.term);
    let x = builder::build_binary(
        calls,
        neither.counts,
        BinaryOp::And,
        some_x.term,
        neither.term,
    );
    BuiltTrits {
        value: TritVec {
            x: x.term,
            y: y.term,
        },
        counts: x.counts,
    }
}

// An and of bound operands.
fn and_bound(calls: &mut [u32], c: Counts, a: TritVec, b: TritVec) -> BuiltTrits
    ensures { (i : ℕ) → MakesTrits (and_bound (trits i a) (trits i b)) i calls.old c
        calls.new result }
{
    let a_is0 = trits::tv_is0(calls, c, a);
    let b_is0 = trits::tv_is0(calls, a_is0.counts, b);
    let y = builder::build_binary(calls, b_is0.counts, BinaryOp::And, a.y, b.y);
    undecided(calls, y, a, b, a_is0.term, b_is0.term)
}

//   0 1 X
// 0 0 0 0
// 1 0 1 X
// X 0 X X
pub fn tv_and(calls: &mut [u32], c: Counts, a: TritVec, b: TritVec, width: u32) -> BuiltTrits
    ensures { (i j : ℕ) → MakesTrits (tv_and (trits i a) (trits j b) width) width calls.old c
        calls.new result }
{
    let a = trits::tv_bind(calls, c, a, width);
    let b = trits::tv_bind(calls, a.counts, b, width);
    and_bound(calls, b.counts, a.value, b.value)
}

// An or of bound operands.
fn or_bound(calls: &mut [u32], c: Counts, a: TritVec, b: TritVec) -> BuiltTrits
    ensures { (i : ℕ) → MakesTrits (or_bound (trits i a) (trits i b)) i calls.old c
        calls.new result }
{
    let a_is1 = trits::tv_is1(calls, c, a);
    let b_is1 = trits::tv_is1(calls, a_is1.counts, b);
    let y = builder::build_binary(calls, b_is1.counts, BinaryOp::Or, a.y, b.y);
    undecided(calls, y, a, b, a_is1.term, b_is1.term)
}

//   0 1 X
// 0 0 1 X
// 1 1 1 1
// X X 1 X
pub fn tv_or(calls: &mut [u32], c: Counts, a: TritVec, b: TritVec, width: u32) -> BuiltTrits
    ensures { (i j : ℕ) → MakesTrits (tv_or (trits i a) (trits j b) width) width calls.old c
        calls.new result }
{
    let a = trits::tv_bind(calls, c, a, width);
    let b = trits::tv_bind(calls, a.counts, b, width);
    or_bound(calls, b.counts, a.value, b.value)
}

//   0 1 X
// 0 0 1 X
// 1 1 0 X
// X X X X
pub fn tv_xor(calls: &mut [u32], c: Counts, a: TritVec, b: TritVec) -> BuiltTrits
    ensures { (i j : ℕ) → MakesTrits (tv_xor (trits i a) (trits j b)) i calls.old c
        calls.new result }
{
    let y = builder::build_binary(calls, c, BinaryOp::Xor, a.y, b.y);
    let x = builder::build_binary(calls, y.counts, BinaryOp::Or, a.x, b.x);
    BuiltTrits {
        value: TritVec {
            x: x.term,
            y: y.term,
        },
        counts: x.counts,
    }
}

// The y of a mux, whose x is made.
fn mux_y(
    calls: &mut [u32],
    x: Built,
    a: TritVec,
    b: TritVec,
    s_is0: Term,
    s_is1: Term,
) -> BuiltTrits
    ensures { (i : ℕ)
        → MakesTrits (mux_y (trits i a) (trits i b) s_is0.0 s_is1.0 (bv x.term.0 i)) i
        calls.old x.counts calls.new result }
{
    let y_sx = builder::build_binary(calls, x.counts, BinaryOp::And, a.y, b.y);
    let y_s1 = builder::build_bitvec_ite(calls, y_sx.counts, s_is1, a.y, y_sx.term);
    let y_s0 = builder::build_bitvec_ite(calls, y_s1.counts, s_is0, b.y, y_s1.term);
    builder::trits(x.term, y_s0)
}

// The x of a mux, then its y.
fn mux_x(
    calls: &mut [u32],
    c: Counts,
    a: TritVec,
    b: TritVec,
    s_is0: Term,
    s_is1: Term,
) -> BuiltTrits
    ensures { (i : ℕ) → MakesTrits (mux_x (trits i a) (trits i b) s_is0.0 s_is1.0) i
        calls.old c calls.new result }
{
    let x_sx = builder::build_binary(calls, c, BinaryOp::Xor, a.y, b.y);
    let x_sx = builder::build_binary(calls, x_sx.counts, BinaryOp::Or, x_sx.term, a.x);
    let x_sx = builder::build_binary(calls, x_sx.counts, BinaryOp::Or, x_sx.term, b.x);
    let x_s1 = builder::build_bitvec_ite(calls, x_sx.counts, s_is1, a.x, x_sx.term);
    let x_s0 = builder::build_bitvec_ite(calls, x_s1.counts, s_is0, b.x, x_s1.term);
    mux_y(calls, x_s0, a, b, s_is0, s_is1)
}

// A mux of bound operands.
fn mux_bound(calls: &mut [u32], c: Counts, s: TritVec, a: TritVec, b: TritVec) -> BuiltTrits
    ensures { (i : ℕ) → MakesTrits (mux_bound (trits 1 s) (trits i a) (trits i b)) i calls.old c
        calls.new result }
{
    let bv_is0 = trits::tv_is0(calls, c, s);
    let bv_is1 = trits::tv_is1(calls, bv_is0.counts, s);
    let s_is0 = bits::bv_to_bool(calls, bv_is1.counts, bv_is0.term);
    let s_is1 = bits::bv_to_bool(calls, s_is0.counts, bv_is1.term);
    mux_x(calls, s_is1.counts, a, b, s_is0.term, s_is1.term)
}

// S A B O    S A B O    S A B O
// 0 ? 0 0    1 0 ? 0    X 0 0 0
// 0 ? 1 1    1 1 ? 1    X 1 1 1
// 0 ? X X    1 X ? X    X ? ? X
pub fn tv_mux(
    calls: &mut [u32],
    c: Counts,
    s: TritVec,
    a: TritVec,
    b: TritVec,
    width: u32,
) -> BuiltTrits
    ensures { (h i j : ℕ) → MakesTrits (tv_mux (trits h s) (trits i a) (trits j b) width) width
        calls.old c calls.new result }
{
    let s = trits::tv_bind(calls, c, s, 1);
    let a = trits::tv_bind(calls, s.counts, a, width);
    let b = trits::tv_bind(calls, a.counts, b, width);
    mux_bound(calls, b.counts, s.value, a.value, b.value)
}
