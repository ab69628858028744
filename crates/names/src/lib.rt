// The names of nets: bv_const and tv_const of smt.rs. The table of names has four words for each slot, 0 or one more
// than the term that the name was declared with, so that a known name gives its term again; the marks have one byte for
// each slot, by its last read.
#![tactic(auto)]

ghost use Rattle.std.specs.Prelude.{◌≡◌, set};
ghost use Rattle.engine.specs.Emit as engine;
ghost use Rattle.smt.specs.Emit as model;
ghost use Rattle.smt.specs.Prog.{bv};
ghost use Rattle.smt.specs.Builder.{bv_const, tv_const};
ghost use Rattle.builder.specs.Ran.{Ran, RanTrits};
ghost use Rattle.names.specs.Names.{age_of, half_of, Declared};

use builder::{Built, BuiltTrits, Counts};
use engine::{Letter, Suffix};
use logic::{Slot, Term};

// The current or the past trit of a net: the prefixes n and p.
#[derive(Clone, Copy)]
pub enum Age {
    Curr,
    Past,
}

// Is the trit undefined? If not, is it one? The suffixes x and y.
#[derive(Clone, Copy)]
pub enum Half {
    IsUndef,
    IsOne,
}

fn letter_of(age: Age) -> Letter
    ensures { engine.letter_of result ≡ model.letter_of (age_of age) }
{
    match age {
        Age::Curr => Letter::N,
        Age::Past => Letter::P,
    }
}

fn suffix_of(half: Half) -> Suffix
    ensures { engine.suffix_of result ≡ model.suffix_of (half_of half) }
{
    match half {
        Half::IsUndef => Suffix::X,
        Half::IsOne => Suffix::Y,
    }
}

fn mark_of(age: Age) -> u8
    ensures { result ≡ model.mark (age_of age) }
{
    match age {
        Age::Curr => 1,
        Age::Past => 2,
    }
}

fn offset_of(age: Age, half: Half) -> usize
    ensures { result ≡ model.offset (age_of age) (half_of half) }
{
    match (age, half) {
        (Age::Curr, Half::IsUndef) => 0,
        (Age::Curr, Half::IsOne) => 1,
        (Age::Past, Half::IsUndef) => 2,
        (Age::Past, Half::IsOne) => 3,
    }
}

// Where a net's name stands in the table of names.
fn place_of(age: Age, slot: Slot, half: Half) -> usize
    ensures { result ≡ model.place (age_of age) slot.0 (half_of half) }
{
    4 * (slot.0 as usize) + offset_of(age, half)
}

// A mark stored for a slot; past the end nothing changes.
fn put_mark(marks: &mut [u8], slot: Slot, mark: u8)
    ensures { marks.new ≡ set marks.old slot.0 mark }
{
    let at = slot.0 as usize;
    if at < marks.len() {
        marks[at] = mark;
    }
}

// A name that is not known yet: its call, and its term in the table.
fn declare_new(
    calls: &mut [u32],
    names: &mut [u32],
    c: Counts,
    age: Age,
    slot: Slot,
    half: Half,
    at: usize,
) -> Built
    ensures { Declared (age_of age) slot.0 (half_of half) calls.old names.old c at
        calls.new names.new result }
{
    let letter = letter_of(age);
    let suffix = suffix_of(half);
    let words = engine::declare_bitvec_const(calls, c.words, letter, slot.0, suffix, 1);
    let built = builder::made(c, words);
    logic::put(names, at, built.counts.terms);
    built
}

// `self.bv_const(prefix, index, suffix, 1)`: declared once, its slot marked at every read.
pub fn bv_const(
    calls: &mut [u32],
    names: &mut [u32],
    marks: &mut [u8],
    c: Counts,
    age: Age,
    slot: Slot,
    half: Half,
) -> Built
    ensures { Ran (bv_const (age_of age) slot.0 (half_of half))
        calls.old names.old marks.old c
        calls.new names.new marks.new result.counts (bv result.term.0 1) }
{
    put_mark(marks, slot, mark_of(age));
    let at = place_of(age, slot, half);
    let known = logic::word_at(names, at);
    if known == 0 {
        return declare_new(calls, names, c, age, slot, half, at);
    }
    Built {
        term: Term(known - 1),
        counts: c,
    }
}

pub fn tv_const(
    calls: &mut [u32],
    names: &mut [u32],
    marks: &mut [u8],
    c: Counts,
    age: Age,
    slot: Slot,
) -> BuiltTrits
    ensures { RanTrits (tv_const (age_of age) slot.0) 1
        calls.old names.old marks.old c
        calls.new names.new marks.new result }
{
    let x = bv_const(calls, names, marks, c, age, slot, Half::IsUndef);
    let y = bv_const(calls, names, marks, x.counts, age, slot, Half::IsOne);
    builder::trits(x.term, y)
}
