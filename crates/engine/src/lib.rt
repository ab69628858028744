// The calls of an SMT engine (trait `SmtEngine` of smt.rs), as words: each function writes the record of a call into a
// lent slice at a count of words and gives the count after it. Past the slice's end nothing is written, and the count
// goes on.
#![tactic(auto)]

ghost use Rattle.std.specs.Prelude.{◌≡◌, [], ◌∷◌, map, min};
ghost use Rattle.logic.specs.Word.{head_word, number_word, term_word};
ghost use Rattle.bitvec.specs.Bits.{nat2bv};
ghost use Rattle.engine.specs.Call as c;
ghost use Rattle.engine.specs.Encode.{record_of, digits, binary_number, compare_number, letter_number, suffix_number};
ghost use Rattle.engine.specs.Emit.{Wrote, binary_of, compare_of, letter_of, suffix_of};

use logic::Term;

// What an argument word of a call record is.
#[derive(Clone, Copy)]
pub enum Argument {
    // 0 or 1
    Flag,
    // an earlier term of any sort, a Bool, a bit vector
    AnyTerm,
    BoolTerm,
    VectorTerm,
    // a term of the sort of the one before it; one that it can be joined to
    SameSort,
    Joined,
    // the high and the low index of an extract, and a term that has both
    High,
    Low,
    Holder,
    // a name and its width
    Letter,
    Index,
    Suffix,
    Width,
    // the 16-bit number j of a literal
    Digit(usize),
    // none
    Nothing,
}

// What a record says of the sort of its term: a width (0 for a Bool), the sort of another term, or the widths of two
// together.
#[derive(Clone, Copy)]
pub enum Origin {
    Given(u32),
    Same(Term),
    Joined(Term, Term),
}

// The operations of two vectors that make a vector, and those that compare.
#[derive(Clone, Copy)]
pub enum BinaryOp {
    And,
    Or,
    Xor,
    Add,
    Comp,
    Shl,
    Lshr,
    Ashr,
    Mul,
    Udiv,
    Urem,
    Sdiv,
    Srem,
}

#[derive(Clone, Copy)]
pub enum Compare {
    Ult,
    Slt,
}

// The letter and the suffix of a declared name.
#[derive(Clone, Copy)]
pub enum Letter {
    N,
    P,
    T,
}

#[derive(Clone, Copy)]
pub enum Suffix {
    None,
    X,
    Y,
}

// The number of an operation.
fn binary_number(op: BinaryOp) -> u32
    ensures { result ≡ binary_number (binary_of op) }
{
    match op {
        BinaryOp::And => 10,
        BinaryOp::Or => 11,
        BinaryOp::Xor => 12,
        BinaryOp::Add => 13,
        BinaryOp::Comp => 14,
        BinaryOp::Shl => 17,
        BinaryOp::Lshr => 18,
        BinaryOp::Ashr => 19,
        BinaryOp::Mul => 20,
        BinaryOp::Udiv => 24,
        BinaryOp::Urem => 25,
        BinaryOp::Sdiv => 26,
        BinaryOp::Srem => 27,
    }
}

fn compare_number(op: Compare) -> u32
    ensures { result ≡ compare_number (compare_of op) }
{
    match op {
        Compare::Ult => 15,
        Compare::Slt => 16,
    }
}

fn letter_number(letter: Letter) -> u32
    ensures { result ≡ letter_number (letter_of letter) }
{
    match letter {
        Letter::N => 0,
        Letter::P => 1,
        Letter::T => 2,
    }
}

fn suffix_number(suffix: Suffix) -> u32
    ensures { result ≡ suffix_number (suffix_of suffix) }
{
    match suffix {
        Suffix::None => 0,
        Suffix::X => 1,
        Suffix::Y => 2,
    }
}

// One word.
fn push(calls: &mut [u32], at: usize, word: u32) -> usize
    ensures { Wrote calls.old at (word ∷ []) calls.new result }
{
    logic::put(calls, at, word);
    at.saturating_add(1)
}

// Two words.
fn push2(calls: &mut [u32], at: usize, a: u32, b: u32) -> usize
    ensures { Wrote calls.old at (a ∷ b ∷ []) calls.new result }
{
    let next = push(calls, at, a);
    push(calls, next, b)
}

// A head and its one, two or three arguments.
fn record1(calls: &mut [u32], at: usize, op: u32, a: u32) -> usize
    ensures { Wrote calls.old at (head_word op 1 ∷ a ∷ []) calls.new result }
{
    push2(calls, at, logic::head_word(op, 1), a)
}

fn record2(calls: &mut [u32], at: usize, op: u32, a: u32, b: u32) -> usize
    ensures { Wrote calls.old at (head_word op 2 ∷ a ∷ b ∷ []) calls.new result }
{
    let next = push(calls, at, logic::head_word(op, 2));
    push2(calls, next, a, b)
}

fn record3(calls: &mut [u32], at: usize, op: u32, a: u32, b: u32, c: u32) -> usize
    ensures { Wrote calls.old at (head_word op 3 ∷ a ∷ b ∷ c ∷ []) calls.new result }
{
    let next = push2(calls, at, logic::head_word(op, 3), a);
    push2(calls, next, b, c)
}

pub fn build_bool_lit(calls: &mut [u32], at: usize, value: bool) -> usize
    ensures { Wrote calls.old at (record_of (c.term (c.bool_lit value))) calls.new result }
{
    record1(calls, at, 0, logic::number_word(u32::from(value)))
}

pub fn build_bool_ite(
    calls: &mut [u32],
    at: usize,
    cond: Term,
    if_true: Term,
    if_false: Term,
) -> usize
    ensures { Wrote calls.old
        at (record_of (c.term (c.bool_ite cond.0 if_true.0 if_false.0))) calls.new result }
{
    record3(
        calls,
        at,
        1,
        logic::term_word(cond),
        logic::term_word(if_true),
        logic::term_word(if_false),
    )
}

pub fn build_not(calls: &mut [u32], at: usize, arg: Term) -> usize
    ensures { Wrote calls.old at (record_of (c.term (c.not arg.0))) calls.new result }
{
    record1(calls, at, 2, logic::term_word(arg))
}

// SMT-LIB's =, on Bools and on bit vectors.
pub fn build_eq(calls: &mut [u32], at: usize, arg1: Term, arg2: Term) -> usize
    ensures { Wrote calls.old at (record_of (c.term (c.equal arg1.0 arg2.0))) calls.new result }
{
    record2(calls, at, 5, logic::term_word(arg1), logic::term_word(arg2))
}

pub fn build_bitvec_ite(
    calls: &mut [u32],
    at: usize,
    cond: Term,
    if_true: Term,
    if_false: Term,
) -> usize
    ensures { Wrote calls.old
        at (record_of (c.term (c.ite cond.0 if_true.0 if_false.0))) calls.new result }
{
    record3(
        calls,
        at,
        6,
        logic::term_word(cond),
        logic::term_word(if_true),
        logic::term_word(if_false),
    )
}

pub fn build_concat(calls: &mut [u32], at: usize, arg_msb: Term, arg_lsb: Term) -> usize
    ensures { Wrote calls.old
        at (record_of (c.term (c.concat arg_msb.0 arg_lsb.0))) calls.new result }
{
    record2(
        calls,
        at,
        7,
        logic::term_word(arg_msb),
        logic::term_word(arg_lsb),
    )
}

pub fn build_extract(
    calls: &mut [u32],
    at: usize,
    index_msb: u32,
    index_lsb: u32,
    arg: Term,
) -> usize
    ensures { Wrote calls.old
        at (record_of (c.term (c.extract index_msb index_lsb arg.0))) calls.new result }
{
    record3(
        calls,
        at,
        8,
        logic::number_word(index_msb),
        logic::number_word(index_lsb),
        logic::term_word(arg),
    )
}

pub fn build_bvnot(calls: &mut [u32], at: usize, arg: Term) -> usize
    ensures { Wrote calls.old at (record_of (c.term (c.bvnot arg.0))) calls.new result }
{
    record1(calls, at, 9, logic::term_word(arg))
}

pub fn build_binary(calls: &mut [u32], at: usize, op: BinaryOp, arg1: Term, arg2: Term) -> usize
    ensures { Wrote calls.old
        at (record_of (c.term (c.op2 (binary_of op) arg1.0 arg2.0))) calls.new result }
{
    record2(
        calls,
        at,
        binary_number(op),
        logic::term_word(arg1),
        logic::term_word(arg2),
    )
}

pub fn build_compare(calls: &mut [u32], at: usize, op: Compare, arg1: Term, arg2: Term) -> usize
    ensures { Wrote calls.old
        at (record_of (c.term (c.compare (compare_of op) arg1.0 arg2.0))) calls.new result }
{
    record2(
        calls,
        at,
        compare_number(op),
        logic::term_word(arg1),
        logic::term_word(arg2),
    )
}

pub fn declare_bitvec_const(
    calls: &mut [u32],
    at: usize,
    letter: Letter,
    index: u32,
    suffix: Suffix,
    width: u32,
) -> usize
    ensures { Wrote calls.old
        at (record_of (c.declare (record { letter = letter_of letter; index = index; suffix = suffix_of suffix }) width))
        calls.new result }
{
    let named = push(calls, at, logic::head_word(21, 4));
    let next = push2(
        calls,
        named,
        logic::number_word(letter_number(letter)),
        logic::number_word(index),
    );
    push2(
        calls,
        next,
        logic::number_word(suffix_number(suffix)),
        logic::number_word(width),
    )
}

pub fn assert_term(calls: &mut [u32], at: usize, term: Term) -> usize
    ensures { Wrote calls.old at (record_of (c.assert term.0)) calls.new result }
{
    record1(calls, at, 22, logic::term_word(term))
}

pub fn check_sat(calls: &mut [u32], at: usize) -> usize
    ensures { Wrote calls.old at (record_of c.check) calls.new result }
{
    push(calls, at, logic::head_word(23, 0))
}

// The and of two terms.
pub fn build_and2(calls: &mut [u32], at: usize, arg1: Term, arg2: Term) -> usize
    ensures { Wrote calls.old at (record_of (c.term (c.and (arg1.0 ∷ arg2.0 ∷ [])))) calls.new result }
{
    record2(calls, at, 3, logic::term_word(arg1), logic::term_word(arg2))
}

// A reference to each of the terms, lent as their numbers.
fn term_words(calls: &mut [u32], at: usize, terms: &[u32]) -> usize
    ensures { Wrote calls.old at (map term_word terms.now) calls.new result }
{
    let mut next = at;
    for term in terms {
        next = push(calls, next, logic::term_word(Term(*term)));
    }
    next
}

// The and of any number of terms, lent as their numbers.
pub fn build_and(calls: &mut [u32], at: usize, terms: &[u32]) -> usize
    ensures { Wrote calls.old at (record_of (c.term (c.and terms.now))) calls.new result }
{
    let next = push(
        calls,
        at,
        logic::head_word(3, (terms.len() % 16777216) as u32),
    );
    term_words(calls, next, terms)
}

// The lowest n 16-bit numbers of a number, low first.
fn digit_words(calls: &mut [u32], at: usize, n: u32, value: u64) -> usize
    ensures { Wrote calls.old at (map number_word (digits n value)) calls.new result }
{
    let mut next = at;
    let mut rest = value;
    for _ in 0..n {
        next = push(calls, next, logic::number_word((rest % 65536) as u32));
        rest /= 65536;
    }
    next
}

// A literal of the low bits of a number; a width above 64 counts as 64.
pub fn build_bitvec_lit(calls: &mut [u32], at: usize, width: u32, value: u64) -> usize
    ensures { Wrote calls.old
        at (record_of (c.term (c.lit (nat2bv (min width 64) value)))) calls.new result }
{
    let bits = width.min(64);
    let count = (bits + 15) / 16;
    let next = push2(
        calls,
        at,
        logic::head_word(4, 1 + count),
        logic::number_word(bits),
    );
    digit_words(calls, next, count, bitvec::reduce(bits, value))
}
