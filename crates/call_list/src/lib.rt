// The reader of call records: the operation of the record at a place, its arguments, and where the next record begins.
// Each function is total and reads the words as they stand.
#![tactic(auto)]

ghost use Rattle.std.specs.Prelude.{◌≡◌, ◌+◌, ◌<◌, ◌%◌, length, get_or};
ghost use Rattle.logic.specs.Word.{payload_of};
ghost use Rattle.engine.specs.Encode.{op_of, makes_term, offset, operation_at, count_at, bare, argument_at, next_at};
ghost use Rattle.engine.specs.Structure.{term_place, place_of_term};
ghost use Rattle.engine.specs.Emit.{counted};
ghost use Rattle.call_list.specs.Operations.{op_from, is_declare};
ghost use Rattle.bitvec.specs.Bits.{bit};
ghost use Rattle.call_list.specs.Cursors.{passed};
ghost use Rattle.call_list.specs.Literal.{payloads, digit_or, four_digits};

use engine::{BinaryOp, Compare};
use logic::Term;

// The operations of the terms, and those of the calls.
#[derive(Clone, Copy)]
pub enum TermOp {
    BoolLit,
    BoolIte,
    Not,
    And,
    Lit,
    Equal,
    Ite,
    Concat,
    Extract,
    BvNot,
    Binary(BinaryOp),
    Compare(Compare),
}

#[derive(Clone, Copy)]
pub enum Operation {
    Term(TermOp),
    Declare,
    Assert,
    Check,
    Unknown,
}

// The operation of a number.
#[tactic(auto, unfolding(engine::specs::Encode::op_of))]
pub fn operation_of(number: u32) -> Operation
    ensures { op_from result ≡ op_of number }
{
    match number {
        0 => Operation::Term(TermOp::BoolLit),
        1 => Operation::Term(TermOp::BoolIte),
        2 => Operation::Term(TermOp::Not),
        3 => Operation::Term(TermOp::And),
        4 => Operation::Term(TermOp::Lit),
        5 => Operation::Term(TermOp::Equal),
        6 => Operation::Term(TermOp::Ite),
        7 => Operation::Term(TermOp::Concat),
        8 => Operation::Term(TermOp::Extract),
        9 => Operation::Term(TermOp::BvNot),
        10 => Operation::Term(TermOp::Binary(BinaryOp::And)),
        11 => Operation::Term(TermOp::Binary(BinaryOp::Or)),
        12 => Operation::Term(TermOp::Binary(BinaryOp::Xor)),
        13 => Operation::Term(TermOp::Binary(BinaryOp::Add)),
        14 => Operation::Term(TermOp::Binary(BinaryOp::Comp)),
        15 => Operation::Term(TermOp::Compare(Compare::Ult)),
        16 => Operation::Term(TermOp::Compare(Compare::Slt)),
        17 => Operation::Term(TermOp::Binary(BinaryOp::Shl)),
        18 => Operation::Term(TermOp::Binary(BinaryOp::Lshr)),
        19 => Operation::Term(TermOp::Binary(BinaryOp::Ashr)),
        20 => Operation::Term(TermOp::Binary(BinaryOp::Mul)),
        21 => Operation::Declare,
        22 => Operation::Assert,
        23 => Operation::Check,
        24 => Operation::Term(TermOp::Binary(BinaryOp::Udiv)),
        25 => Operation::Term(TermOp::Binary(BinaryOp::Urem)),
        26 => Operation::Term(TermOp::Binary(BinaryOp::Sdiv)),
        27 => Operation::Term(TermOp::Binary(BinaryOp::Srem)),
        _ => Operation::Unknown,
    }
}

// The number of the operation of the record at a place.
pub fn operation_number(calls: &[u32], at: usize) -> u32
    ensures { result ≡ payload_of (get_or calls.now at 0) % 32 }
{
    logic::payload(logic::word_at(calls, at)) % 32
}

// The operation of the record at a place.
pub fn operation_at(calls: &[u32], at: usize) -> Operation
    ensures { op_from result ≡ operation_at calls.now at }
{
    operation_of(operation_number(calls, at))
}

// How many arguments the record at a place has.
pub fn count_at(calls: &[u32], at: usize) -> u32
    ensures { result ≡ count_at calls.now at }
{
    logic::payload(logic::word_at(calls, at)) / 32
}

// Whether an operation makes a term.
pub fn makes_term(operation: Operation) -> bool
    ensures { result ≡ makes_term (op_from operation) }
{
    matches!(operation, Operation::Term(_) | Operation::Declare)
}

// Whether an operation declares a name.
pub fn is_declare(operation: Operation) -> bool
    ensures { result ≡ is_declare (op_from operation) }
{
    matches!(operation, Operation::Declare)
}

// Where argument i of the record at a place stands; the largest place stays.
pub fn argument_place(at: usize, i: usize) -> usize
    ensures { result ≡ counted (at + offset bare + i) }
{
    counting::counted_sum(counting::counted_sum(at, 1), i)
}

// The word of argument i of the record at a place.
pub fn argument_word(calls: &[u32], at: usize, i: usize) -> u32
    ensures { result ≡ argument_at bare calls.now at i }
{
    logic::word_at(calls, argument_place(at, i))
}

// The number or the term that argument i of the record at a place has.
pub fn argument_at(calls: &[u32], at: usize, i: usize) -> u32
    ensures { result ≡ payload_of (argument_at bare calls.now at i) }
{
    logic::payload(argument_word(calls, at, i))
}

// The place after the record at a place; the largest place stays.
pub fn next_record(calls: &[u32], at: usize) -> usize
    ensures { result ≡ counted (next_at bare calls.now at) }
{
    argument_place(at, count_at(calls, at) as usize)
}

// How far a list is read: the place, and the terms made and names declared before it.
#[derive(Clone, Copy)]
pub struct Cursor {
    pub at: usize,
    pub terms: usize,
    pub declared: usize,
}

// A count, one higher where a test holds; the largest number stays.
fn count_if(holds: bool, count: usize) -> usize
    ensures { result ≡ counted (count + bit holds) }
{
    if holds {
        counting::counted_sum(count, 1)
    } else {
        count
    }
}

// How far a list is read after the record at a cursor's place; the largest numbers stay.
pub fn next(calls: &[u32], cursor: Cursor) -> Cursor
    ensures { result ≡ passed calls.now cursor }
{
    let operation = operation_at(calls, cursor.at);
    Cursor {
        at: next_record(calls, cursor.at),
        terms: count_if(makes_term(operation), cursor.terms),
        declared: count_if(is_declare(operation), cursor.declared),
    }
}

// The place of the record that makes the term number `left` among those made from a place on; the place past the last
// record where there is none.
pub fn place_from(calls: &[u32], from: usize, left: u32) -> usize
    ensures { result ≡ term_place (length calls.now) calls.now from left }
{
    let mut at = from;
    let mut more = left;
    while at < calls.len() {
        if makes_term(operation_at(calls, at)) {
            if more == 0 {
                return at;
            }
            more -= 1;
        }
        at = next_record(calls, at);
    }
    at
}

// The place of the record that makes a term; the place past the last record where there is none.
pub fn place_of_term(calls: &[u32], term: Term) -> usize
    ensures { result ≡ place_of_term calls.now term.0 }
{
    place_from(calls, 0, term.0)
}

// The 16-bit number j of a literal, or 0 past the last.
fn digit(calls: &[u32], head: usize, j: u32) -> u64
    requires { j < 4 }
    ensures { (result ≡ digit_or (payloads calls.now head) (count_at calls.now head) j) × (result < 65536) }
{
    if j + 1 < count_at(calls, head) {
        return (argument_at(calls, head, j as usize + 1) % 65536) as u64;
    }
    0
}

// The number of the literal at a place: that of its first four 16-bit numbers.
pub fn literal_number(calls: &[u32], head: usize) -> u64
    ensures { result ≡ four_digits calls.now head }
{
    let low = digit(calls, head, 0) + 65536 * digit(calls, head, 1);
    low + 4294967296 * digit(calls, head, 2) + 281474976710656 * digit(calls, head, 3)
}
