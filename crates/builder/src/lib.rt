// What every function of SmtBuilder (smt.rs) stands on: the running counts, a term or a trit vector with the counts
// after it, and the calls of the trait `SmtEngine` with their counts. Calls go into a lent slice of words; past its end
// nothing is written, and the counts go on.
#![tactic(auto)]

ghost use Rattle.std.specs.Prelude.{◌≡◌, [], ◌∷◌, ℕ, ◌+◌, ◌-◌, suc, min, length};
ghost use Rattle.bitvec.specs.Bits.{Bits, nat2bv};
ghost use Rattle.engine.specs.Emit.{binary_of, compare_of};
ghost use Rattle.smt.specs.Prog.{bv, build_bool_lit, build_bool_ite, build_not, build_and, build_bitvec_eq, build_compare};
ghost use Rattle.smt.specs.Prog.{build_bitvec_lit, build_bitvec_ite, build_concat, build_extract, build_bvnot, build_op2};
ghost use Rattle.smt.specs.Prog.{result_width};
ghost use Rattle.builder.specs.Ran.{following, built_at, MakesBool, MakesVector};

use engine::{BinaryOp, Compare};
use logic::Term;

// How many terms and temporaries are made and how many words the calls take: the next term and the next temporary have
// these numbers.
#[derive(Clone, Copy)]
pub struct Counts {
    pub terms: u32,
    pub temporaries: u32,
    pub words: usize,
}

// `SmtTritVec`. x: is it undefined? y: if not, is it one?
#[derive(Clone, Copy)]
pub struct TritVec {
    pub x: Term,
    pub y: Term,
}

// A term, and the counts after the calls that made it.
#[derive(Clone, Copy)]
pub struct Built {
    pub term: Term,
    pub counts: Counts,
}

// The two terms of a trit vector, and the counts after the calls that made them.
#[derive(Clone, Copy)]
pub struct BuiltTrits {
    pub value: TritVec,
    pub counts: Counts,
}

// One more; at the largest number it stops.
pub fn following(n: u32) -> u32
    ensures { result ≡ following n }
{
    n.saturating_add(1)
}

// The term of a call, after which the words have this count.
pub fn made(c: Counts, words: usize) -> Built
    ensures { result ≡ built_at c words }
{
    Built {
        term: Term(c.terms),
        counts: Counts {
            terms: following(c.terms),
            temporaries: c.temporaries,
            words,
        },
    }
}

// Two terms as a trit vector.
pub fn trits(x: Term, y: Built) -> BuiltTrits
    ensures { result ≡ record { value = record { x = x; y = y.term }; counts = y.counts } }
{
    let term = y.term;
    let counts = y.counts;
    BuiltTrits {
        value: TritVec { x, y: term },
        counts,
    }
}

// ---- SmtEngine: calls with a Bool as the result

pub fn build_bool_lit(calls: &mut [u32], c: Counts, value: bool) -> Built
    ensures { MakesBool (build_bool_lit value) calls.old c calls.new result }
{
    made(c, engine::build_bool_lit(calls, c.words, value))
}

pub fn build_bool_ite(
    calls: &mut [u32],
    c: Counts,
    cond: Term,
    if_true: Term,
    if_false: Term,
) -> Built
    ensures { MakesBool (build_bool_ite cond.0 if_true.0 if_false.0) calls.old c
        calls.new result }
{
    made(
        c,
        engine::build_bool_ite(calls, c.words, cond, if_true, if_false),
    )
}

pub fn build_not(calls: &mut [u32], c: Counts, arg: Term) -> Built
    ensures { MakesBool (build_not arg.0) calls.old c calls.new result }
{
    made(c, engine::build_not(calls, c.words, arg))
}

// The and of two terms.
pub fn build_and(calls: &mut [u32], c: Counts, arg1: Term, arg2: Term) -> Built
    ensures { MakesBool (build_and (arg1.0 ∷ arg2.0 ∷ [])) calls.old c calls.new result }
{
    made(c, engine::build_and2(calls, c.words, arg1, arg2))
}

// The and of terms, by their numbers.
pub fn build_and_all(calls: &mut [u32], c: Counts, args: &[u32]) -> Built
    ensures { MakesBool (build_and args.now) calls.old c calls.new result }
{
    made(c, engine::build_and(calls, c.words, args))
}

pub fn build_bitvec_eq(calls: &mut [u32], c: Counts, arg1: Term, arg2: Term) -> Built
    ensures { (i j : ℕ) → MakesBool (build_bitvec_eq (bv arg1.0 i) (bv arg2.0 j)) calls.old c
        calls.new result }
{
    made(c, engine::build_eq(calls, c.words, arg1, arg2))
}

pub fn build_compare(calls: &mut [u32], c: Counts, op: Compare, arg1: Term, arg2: Term) -> Built
    ensures { (i j : ℕ) → MakesBool (build_compare (compare_of op) (bv arg1.0 i) (bv arg2.0 j))
        calls.old c calls.new result }
{
    made(c, engine::build_compare(calls, c.words, op, arg1, arg2))
}

// ---- and with a bit vector

// The literal of a width, by its number.
pub fn build_bitvec_lit(calls: &mut [u32], c: Counts, width: u32, value: u64) -> Built
    ensures { (s : Bits) → nat2bv (min width 64) value ≡ s → MakesVector (build_bitvec_lit s) (length s)
        calls.old c calls.new result }
{
    made(c, engine::build_bitvec_lit(calls, c.words, width, value))
}

pub fn build_bitvec_ite(
    calls: &mut [u32],
    c: Counts,
    cond: Term,
    if_true: Term,
    if_false: Term,
) -> Built
    ensures { (i j : ℕ) → MakesVector (build_bitvec_ite cond.0 (bv if_true.0 i) (bv if_false.0 j)) i
        calls.old c calls.new result }
{
    made(
        c,
        engine::build_bitvec_ite(calls, c.words, cond, if_true, if_false),
    )
}

pub fn build_concat(calls: &mut [u32], c: Counts, arg_msb: Term, arg_lsb: Term) -> Built
    ensures { (i j : ℕ) → MakesVector (build_concat (bv arg_msb.0 i) (bv arg_lsb.0 j)) (i + j)
        calls.old c calls.new result }
{
    made(c, engine::build_concat(calls, c.words, arg_msb, arg_lsb))
}

pub fn build_extract(
    calls: &mut [u32],
    c: Counts,
    index_msb: u32,
    index_lsb: u32,
    arg: Term,
) -> Built
    ensures { (i : ℕ)
        → MakesVector (build_extract index_msb index_lsb (bv arg.0 i)) (suc index_msb - index_lsb)
        calls.old c calls.new result }
{
    made(
        c,
        engine::build_extract(calls, c.words, index_msb, index_lsb, arg),
    )
}

pub fn build_bvnot(calls: &mut [u32], c: Counts, arg: Term) -> Built
    ensures { (i : ℕ) → MakesVector (build_bvnot (bv arg.0 i)) i calls.old c
        calls.new result }
{
    made(c, engine::build_bvnot(calls, c.words, arg))
}

pub fn build_binary(calls: &mut [u32], c: Counts, op: BinaryOp, arg1: Term, arg2: Term) -> Built
    ensures { (i j : ℕ)
        → MakesVector (build_op2 (binary_of op) (bv arg1.0 i) (bv arg2.0 j)) (result_width (binary_of op) i)
        calls.old c calls.new result }
{
    made(c, engine::build_binary(calls, c.words, op, arg1, arg2))
}
