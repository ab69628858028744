// SmtBuilder of smt.rs: vectors made of elements, bv_concat and tv_concat.
#![tactic(auto)]

ghost use Rattle.std.specs.Prelude.{◌≡◌, ℕ, ◌+◌, ◌*◌, ◌<◌, set};
ghost use Rattle.smt.specs.Builder.{bv_concat, tv_concat};
ghost use Rattle.builder.specs.Ran.{trits, MakesVector, MakesTrits};
ghost use Rattle.vectors.specs.Elements.{bit_elements, element_at, elements, tv_join};

use builder::{Built, BuiltTrits, Counts, TritVec};
use logic::Term;

// The first n of some terms of one bit each, joined from the last down; the Rust has no vector of no elements.
pub fn bv_concat(calls: &mut [u32], c: Counts, terms: &[u32], n: u32) -> Built
    ensures { MakesVector (bv_concat (bit_elements terms.now n)) n calls.old c
        calls.new result }
{
    if n == 0 {
        return Built {
            term: Term(0),
            counts: c,
        };
    }
    let mut result = Built {
        term: Term(logic::word_at(terms, (n - 1) as usize)),
        counts: c,
    };
    for i in (0..n - 1).rev() {
        let elem = Term(logic::word_at(terms, i as usize));
        result = builder::build_concat(calls, result.counts, result.term, elem);
    }
    result
}

// The terms of element i of a trit vector.
fn element_at(terms: &[u32], i: u32) -> TritVec
    ensures { trits 1 result ≡ element_at terms.now i }
{
    let at = 2 * (i as usize);
    TritVec {
        x: Term(logic::word_at(terms, at)),
        y: Term(logic::word_at(terms, at + 1)),
    }
}

// The terms of element i of a trit vector, stored.
pub fn put_element(terms: &mut [u32], i: u32, value: TritVec)
    ensures { terms.new ≡ set (set terms.old (2 * i) value.x.0) (2 * i + 1) value.y.0 }
{
    let at = 2 * (i as usize);
    logic::put(terms, at, value.x.0);
    logic::put(terms, at + 1, value.y.0);
}

// An element below what there is.
fn tv_join(calls: &mut [u32], c: Counts, msb: TritVec, elem: TritVec) -> BuiltTrits
    ensures { (i j : ℕ) → MakesTrits (tv_join (trits i msb) (trits j elem)) (i + j) calls.old c
        calls.new result }
{
    let x = builder::build_concat(calls, c, msb.x, elem.x);
    let y = builder::build_concat(calls, x.counts, msb.y, elem.y);
    builder::trits(x.term, y)
}

// The first n elements joined from the last down.
pub fn tv_concat(calls: &mut [u32], c: Counts, terms: &[u32], n: u32) -> BuiltTrits
    ensures { MakesTrits (tv_concat (elements terms.now n)) n calls.old c
        calls.new result }
{
    if n == 0 {
        let none = TritVec {
            x: Term(0),
            y: Term(0),
        };
        return BuiltTrits {
            value: none,
            counts: c,
        };
    }
    let mut result = BuiltTrits {
        value: element_at(terms, n - 1),
        counts: c,
    };
    for i in (0..n - 1).rev() {
        let elem = element_at(terms, i);
        result = tv_join(calls, result.counts, result.value, elem);
    }
    result
}
