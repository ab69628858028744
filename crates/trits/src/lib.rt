// SmtBuilder of smt.rs: its functions on trit vectors (`tv_`) that touch no net, but for the
// truth tables, under their own names and in its order.
#![tactic(auto)]

ghost use Rattle.std.specs.Prelude.{◌≡◌, List, map, ℕ, ◌-◌, suc, min, length};
ghost use Rattle.logic.specs.Trit.{x_of, y_of};
ghost use Rattle.logic.specs.declared.Trit.{Trit};
ghost use Rattle.bitvec.specs.Bits.{nat2bv};
ghost use Rattle.smt.specs.Builder.{tv_lit, tv_bind, tv_extract, tv_is0, tv_is1, tv_eq, tv_refines, tv_not};
ghost use Rattle.builder.specs.Ran.{trits, MakesBool, MakesVector, MakesTrits};

use builder::{Built, BuiltTrits, Counts, TritVec};
use engine::{BinaryOp, Suffix};

// A literal of at most 64 trits, by the numbers of its x and its y.
pub fn tv_lit(calls: &mut [u32], c: Counts, width: u32, x: u64, y: u64) -> BuiltTrits
    ensures { (ts : List Trit) → nat2bv (min width 64) x ≡ map x_of ts → nat2bv (min width 64) y ≡ map y_of ts
        → MakesTrits (tv_lit ts) (length ts) calls.old c calls.new result }
{
    let is_undef = bits::bv_lit(calls, c, width, x);
    let is_one = bits::bv_lit(calls, is_undef.counts, width, y);
    builder::trits(is_undef.term, is_one)
}

pub fn tv_bind(calls: &mut [u32], c: Counts, value: TritVec, width: u32) -> BuiltTrits
    ensures { (i : ℕ) → MakesTrits (tv_bind (trits i value) width) width calls.old c
        calls.new result }
{
    let x = bits::declare_temporary(calls, c, Suffix::X, width);
    let y = bits::declare_temporary(calls, x.counts, Suffix::Y, width);
    let next = bits::next_temporary(y.counts);
    let equal_x = bits::assert_eq(calls, next, x.term, value.x);
    let equal_y = bits::assert_eq(calls, equal_x.counts, y.term, value.y);
    let xt = x.term;
    let yt = y.term;
    let counts = equal_y.counts;
    BuiltTrits {
        value: TritVec { x: xt, y: yt },
        counts,
    }
}

pub fn tv_extract(
    calls: &mut [u32],
    c: Counts,
    index_msb: u32,
    index_lsb: u32,
    tv: TritVec,
) -> BuiltTrits
    ensures { (i : ℕ)
        → MakesTrits (tv_extract index_msb index_lsb (trits i tv)) (suc index_msb - index_lsb)
        calls.old c calls.new result }
{
    let x = builder::build_extract(calls, c, index_msb, index_lsb, tv.x);
    let y = builder::build_extract(calls, x.counts, index_msb, index_lsb, tv.y);
    builder::trits(x.term, y)
}

pub fn tv_is0(calls: &mut [u32], c: Counts, tv: TritVec) -> Built
    ensures { (i : ℕ) → MakesVector (tv_is0 (trits i tv)) i calls.old c calls.new result }
{
    let y = builder::build_bvnot(calls, c, tv.y);
    let x = builder::build_bvnot(calls, y.counts, tv.x);
    builder::build_binary(calls, x.counts, BinaryOp::And, y.term, x.term)
}

pub fn tv_is1(calls: &mut [u32], c: Counts, tv: TritVec) -> Built
    ensures { (i : ℕ) → MakesVector (tv_is1 (trits i tv)) i calls.old c calls.new result }
{
    let x = builder::build_bvnot(calls, c, tv.x);
    builder::build_binary(calls, x.counts, BinaryOp::And, tv.y, x.term)
}

pub fn tv_eq(calls: &mut [u32], c: Counts, a: TritVec, b: TritVec) -> Built
    ensures { (i j : ℕ) → MakesBool (tv_eq (trits i a) (trits j b)) calls.old c
        calls.new result }
{
    let x = builder::build_bitvec_eq(calls, c, a.x, b.x);
    let y = builder::build_bitvec_eq(calls, x.counts, a.y, b.y);
    builder::build_and(calls, y.counts, x.term, y.term)
}

// If a bit is X in `to`, it should be X in `from`; if it was 0 or 1 in `from`, it should be that same value in `to`.
pub fn tv_refines(calls: &mut [u32], c: Counts, from: TritVec, to: TritVec) -> Built
    ensures { (i j : ℕ) → MakesBool (tv_refines (trits i from) (trits j to)) calls.old c
        calls.new result }
{
    let from_def = builder::build_bvnot(calls, c, from.x);
    let both_x = builder::build_binary(calls, from_def.counts, BinaryOp::And, to.x, from.x);
    let x = builder::build_bitvec_eq(calls, both_x.counts, to.x, both_x.term);
    let from_y = builder::build_binary(calls, x.counts, BinaryOp::And, from_def.term, from.y);
    let to_y = builder::build_binary(calls, from_y.counts, BinaryOp::And, from_def.term, to.y);
    let y = builder::build_bitvec_eq(calls, to_y.counts, from_y.term, to_y.term);
    builder::build_and(calls, y.counts, x.term, y.term)
}

pub fn tv_not(calls: &mut [u32], c: Counts, a: TritVec) -> BuiltTrits
    ensures { (i : ℕ) → MakesTrits (tv_not (trits i a)) i calls.old c calls.new result }
{
    let y = builder::build_bvnot(calls, c, a.y);
    builder::trits(a.x, y)
}
