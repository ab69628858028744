// The pieces of a script's lines: names, terms and applications as SMT-LIB text in a lent slice of bytes. Each function
// writes a piece from a place on and gives the next place; past the slice's end it only counts.
#![tactic(auto)]

ghost use Rattle.std.specs.Prelude.{◌≡◌, ◌∷◌, [], ◌++◌, get_or};
ghost use Rattle.engine.specs.Call as c;
ghost use Rattle.engine.specs.Emit.{Wrote};
ghost use Rattle.engine.specs.Encode.{letters, suffixes};
ghost use Rattle.text.specs.Bytes.{ascii};
ghost use Rattle.text.specs.Names.{letter_text, suffix_text, name_text};
ghost use Rattle.call_list.specs.Literal.{payloads};
ghost use Rattle.call_list.specs.Operations.{op_from};
ghost use Rattle.syntax.specs.Text.{operation_text};
ghost use Rattle.pieces.specs.Text.{numbered, spaced, applied, conjunction};
ghost use Rattle.pieces.specs.Shape.{line_of, body_of, name_of};
ghost use Rattle.pieces.specs.Arguments.{spelled, reference_by, argument_texts, extraction_text};

use call_list::{Operation, TermOp};
use logic::Term;

// How a term is written: a letter, a number and a suffix, by its number.
#[derive(Clone, Copy)]
struct Spelling {
    letter: u8,
    index: usize,
    suffix: u32,
}

// The terms that a call list makes before a record: the places of every `gap + 1`th, and how many they are.
#[derive(Clone, Copy)]
pub struct Made<'a> {
    pub calls: &'a [u32],
    pub places: &'a [u32],
    pub gap: u32,
    pub terms: usize,
}

// What the line of a record does.
#[derive(Clone, Copy)]
pub enum Line {
    Define,
    Declare,
    Assert,
    Check,
}

// How the term that a record defines is written.
#[derive(Clone, Copy)]
pub enum Body {
    Bool,
    And,
    Literal,
    Extract,
    Application,
}

// What the line of an operation's record does.
pub fn line_of(operation: Operation) -> Line
    ensures { result ≡ line_of (op_from operation) }
{
    match operation {
        Operation::Term(_) => Line::Define,
        Operation::Declare => Line::Declare,
        Operation::Assert => Line::Assert,
        Operation::Check | Operation::Unknown => Line::Check,
    }
}

// How the term of an operation's record is written.
pub fn body_of(operation: Operation) -> Body
    ensures { result ≡ body_of (op_from operation) }
{
    match operation {
        Operation::Term(TermOp::BoolLit) => Body::Bool,
        Operation::Term(TermOp::And) => Body::And,
        Operation::Term(TermOp::Lit) => Body::Literal,
        Operation::Term(TermOp::Extract) => Body::Extract,
        _ => Body::Application,
    }
}

// The byte of a letter's number.
fn letter_byte(letter: u32) -> u8
    ensures { (result ∷ []) ≡ letter_text (get_or letters letter c.n) }
{
    match letter {
        1 => b'p',
        2 => b't',
        _ => b'n',
    }
}

// Writes a suffix, by its number.
fn put_suffix(text: &mut [u8], at: usize, suffix: u32) -> usize
    ensures { Wrote text.old at (suffix_text (get_or suffixes suffix c.none)) text.new result }
{
    match suffix {
        1 => text::put_byte(text, at, b'x'),
        2 => text::put_byte(text, at, b'y'),
        _ => at,
    }
}

// Writes a letter, a number and a suffix.
fn put_spelling(text: &mut [u8], at: usize, word: Spelling) -> usize
    ensures { Wrote text.old at (spelled word) text.new result }
{
    let index = text::put_byte(text, at, word.letter);
    let suffix = text::put_number(text, index, word.index);
    put_suffix(text, suffix, word.suffix)
}

// The name that the record at a place declares.
fn declared_name(calls: &[u32], head: usize) -> Spelling
    ensures { spelled result ≡ name_text (name_of (payloads calls.now head)) }
{
    Spelling {
        letter: letter_byte(call_list::argument_at(calls, head, 0)),
        index: call_list::argument_at(calls, head, 1) as usize,
        suffix: call_list::argument_at(calls, head, 2),
    }
}

// k and a term's number.
fn number_of(term: usize) -> Spelling
    ensures { spelled result ≡ numbered term }
{
    Spelling {
        letter: b'k',
        index: term,
        suffix: 0,
    }
}

// Writes the name that the record at a place declares.
pub fn put_declared(text: &mut [u8], at: usize, calls: &[u32], head: usize) -> usize
    ensures { Wrote text.old at (name_text (name_of (payloads calls.now head)))
        text.new result }
{
    put_spelling(text, at, declared_name(calls, head))
}

// Writes k and a term's number.
pub fn put_numbered(text: &mut [u8], at: usize, term: usize) -> usize
    ensures { Wrote text.old at (numbered term) text.new result }
{
    put_spelling(text, at, number_of(term))
}

// How a term, of so many so far, is written: a declared one by its name, any other by its number.
fn reference_of(made: &Made, term: Term) -> Spelling
    ensures { let m = made.now in
        spelled result ≡ reference_by m.places.now m.gap m.calls.now m.terms term.0 }
{
    let k = term.0 as usize;
    if made.terms <= k {
        return number_of(k);
    }
    let head = term_places::near_place(made.calls, made.places, made.gap, term.0);
    if call_list::is_declare(call_list::operation_at(made.calls, head)) {
        return declared_name(made.calls, head);
    }
    number_of(k)
}

// Writes a term, of so many so far.
pub fn put_reference(text: &mut [u8], at: usize, made: &Made, term: Term) -> usize
    ensures { let m = made.now in Wrote text.old at
        (reference_by m.places.now m.gap m.calls.now m.terms term.0) text.new result }
{
    put_spelling(text, at, reference_of(made, term))
}

// Writes a space and a term.
fn put_argument(text: &mut [u8], at: usize, made: &Made, term: Term) -> usize
    ensures { let m = made.now in Wrote text.old at
        (ascii " " ++ reference_by m.places.now m.gap m.calls.now m.terms term.0)
        text.new result }
{
    let next = text::put_byte(text, at, b' ');
    put_reference(text, next, made, term)
}

// Writes the first arguments of a record, each after a space.
fn put_arguments(text: &mut [u8], start: usize, made: &Made, head: usize, n: u32) -> usize
    ensures { let m = made.now in Wrote text.old start
        (spaced (argument_texts m.places.now m.gap m.calls.now m.terms head n)) text.new result }
{
    let mut at = start;
    for i in 0..n {
        let term = Term(call_list::argument_at(made.calls, head, i as usize));
        at = put_argument(text, at, made, term);
    }
    at
}

// Writes an operation and the first arguments of a record, in parentheses.
pub fn put_application(
    text: &mut [u8],
    at: usize,
    made: &Made,
    head: usize,
    operation: Operation,
    n: u32,
) -> usize
    ensures { let m = made.now in Wrote text.old at
        (applied (operation_text (op_from operation))
        (argument_texts m.places.now m.gap m.calls.now m.terms head n)) text.new result }
{
    let name = text::put_byte(text, at, b'(');
    let arguments = syntax::put_operation(text, name, operation);
    let closing = put_arguments(text, arguments, made, head, n);
    text::put_byte(text, closing, b')')
}

// Writes an and; one of one argument is that argument.
pub fn put_conjunction(text: &mut [u8], at: usize, made: &Made, head: usize, n: u32) -> usize
    ensures { let m = made.now in Wrote text.old at
        (conjunction (argument_texts m.places.now m.gap m.calls.now m.terms head n))
        text.new result }
{
    if n == 1 {
        let term = Term(call_list::argument_at(made.calls, head, 0));
        return put_reference(text, at, made, term);
    }
    put_application(text, at, made, head, Operation::Term(TermOp::And), n)
}

// Writes the part of a vector that a record takes out.
pub fn put_extraction(text: &mut [u8], at: usize, made: &Made, head: usize) -> usize
    ensures { let m = made.now in Wrote text.old at
        (extraction_text m.places.now m.gap m.calls.now m.terms head) text.new result }
{
    let operation = text::put_byte(text, at, b'(');
    let high = call_list::argument_at(made.calls, head, 0) as usize;
    let low = call_list::argument_at(made.calls, head, 1) as usize;
    let argument = syntax::put_extract(text, operation, high, low);
    let term = Term(call_list::argument_at(made.calls, head, 2));
    let closing = put_argument(text, argument, made, term);
    text::put_byte(text, closing, b')')
}
