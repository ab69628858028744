// SmtBuilder of smt.rs: its functions on bit vectors (`bv_`), under their own names and in its order.
#![tactic(auto)]

ghost use Rattle.std.specs.Prelude.{◌≡◌, [], ◌∷◌, ℕ, ◌≤◌, min, length};
ghost use Rattle.bitvec.specs.Bits.{Bits, nat2bv};
ghost use Rattle.engine.specs.Call as k;
ghost use Rattle.engine.specs.Emit.{suffix_of};
ghost use Rattle.smt.specs.Emit.{temp_name};
ghost use Rattle.smt.specs.Prog.{bv};
ghost use Rattle.smt.specs.Builder.{bv_lit, bv_bind, bv_is_zero, bv_to_bool, bool_to_bv};
ghost use Rattle.builder.specs.Ran.{MakesBool, MakesVector};
ghost use Rattle.bits.specs.Called.{Called, next_temporary};

use builder::{Built, Counts};
use engine::{Letter, Suffix};
use logic::Term;

// A literal of at most 64 bits, by its number.
pub fn bv_lit(calls: &mut [u32], c: Counts, width: u32, value: u64) -> Built
    ensures { (s : Bits) → nat2bv (min width 64) value ≡ s → MakesVector (bv_lit s) (length s)
        calls.old c calls.new result }
{
    builder::build_bitvec_lit(calls, c, width, value)
}

// A name of the next temporary.
pub fn declare_temporary(calls: &mut [u32], c: Counts, suffix: Suffix, width: u32) -> Built
    ensures { Called (k.declare (temp_name c.temporaries (suffix_of suffix)) width ∷ []) result.term.0
        calls.old c calls.new result.counts }
{
    builder::made(
        c,
        engine::declare_bitvec_const(calls, c.words, Letter::T, c.temporaries, suffix, width),
    )
}

// `self.temp += 1`
pub fn next_temporary(c: Counts) -> Counts
    ensures { result ≡ next_temporary c }
{
    Counts {
        terms: c.terms,
        temporaries: builder::following(c.temporaries),
        words: c.words,
    }
}

// A term asserted equal to another.
pub fn assert_eq(calls: &mut [u32], c: Counts, arg1: Term, arg2: Term) -> Built
    ensures { Called (k.term (k.equal arg1.0 arg2.0) ∷ k.assert c.terms ∷ []) result.term.0
        calls.old c calls.new result.counts }
{
    let words = engine::build_eq(calls, c.words, arg1, arg2);
    builder::made(c, engine::assert_term(calls, words, Term(c.terms)))
}

pub fn bv_bind(calls: &mut [u32], c: Counts, value: Term, width: u32) -> Built
    ensures { (i : ℕ) → MakesVector (bv_bind (bv value.0 i) width) width calls.old c
        calls.new result }
{
    let temp = declare_temporary(calls, c, Suffix::None, width);
    let next = next_temporary(temp.counts);
    let equal = assert_eq(calls, next, temp.term, value);
    Built {
        term: temp.term,
        counts: equal.counts,
    }
}

pub fn bv_is_zero(calls: &mut [u32], c: Counts, value: Term, width: u32) -> Built
    ensures { width ≤ 64 → (i : ℕ) → MakesBool (bv_is_zero (bv value.0 i) width) calls.old c
        calls.new result }
{
    let zero = bv_lit(calls, c, width, 0);
    builder::build_bitvec_eq(calls, zero.counts, value, zero.term)
}

pub fn bv_to_bool(calls: &mut [u32], c: Counts, value: Term) -> Built
    ensures { (i : ℕ) → MakesBool (bv_to_bool (bv value.0 i)) calls.old c calls.new result }
{
    let one = bv_lit(calls, c, 1, 1);
    builder::build_bitvec_eq(calls, one.counts, value, one.term)
}

pub fn bool_to_bv(calls: &mut [u32], c: Counts, value: Term) -> Built
    ensures { MakesVector (bool_to_bv value.0) 1 calls.old c calls.new result }
{
    let one = bv_lit(calls, c, 1, 1);
    let zero = bv_lit(calls, one.counts, 1, 0);
    builder::build_bitvec_ite(calls, zero.counts, value, one.term, zero.term)
}
