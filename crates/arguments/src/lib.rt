// The arguments of call records: how many an operation has, what each of them is, and which words may stand as them.
#![tactic(auto)]

ghost use Rattle.std.specs.Prelude.{◌≡◌, ◌&&◌, eqb, leb, ltb, ◌+◌, ◌-◌, ◌*◌, ◌^◌, min};
ghost use Rattle.logic.specs.Word.{payload_of};
ghost use Rattle.engine.specs.WellFormed.{is_number, is_vector, is_width, literal_count, count_fits, pick, declaration};
ghost use Rattle.engine.specs.WellFormed.{extraction, argument_of, admits};
ghost use Rattle.call_list.specs.Operations.{op_from};

use call_list::{Operation, TermOp};
use engine::Argument;

// A number of at most a bound, and a width.
pub fn number_at_most(word: u32, bound: u32) -> bool
    ensures { result ≡ (is_number word && leb (payload_of word) bound) }
{
    logic::kind(word) == 3 && logic::payload(word) <= bound
}

pub fn is_vector(sort: u32) -> bool
    ensures { result ≡ is_vector sort }
{
    1 <= sort && sort <= 64
}

pub fn is_width(word: u32) -> bool
    ensures { result ≡ is_width word }
{
    logic::kind(word) == 3 && is_vector(logic::payload(word))
}

// Whether a literal has as many numbers as its width asks.
fn literal_count(n: u32, width: u32) -> bool
    ensures { result ≡ literal_count n width }
{
    if is_width(width) {
        n == 1 + (logic::payload(width) + 15) / 16
    } else {
        2 <= n && n <= 5
    }
}

// Whether an operation has that many arguments, the first of which is given.
pub fn count_fits(operation: Operation, n: u32, first: u32) -> bool
    ensures { result ≡ count_fits (op_from operation) n first }
{
    match operation {
        Operation::Term(term) => match term {
            TermOp::BoolLit => n == 1,
            TermOp::BoolIte => n == 3,
            TermOp::Not => n == 1,
            TermOp::And => 1 <= n,
            TermOp::Lit => literal_count(n, first),
            TermOp::Equal => n == 2,
            TermOp::Ite => n == 3,
            TermOp::Concat => n == 2,
            TermOp::Extract => n == 3,
            TermOp::BvNot => n == 1,
            TermOp::Binary(_) => n == 2,
            TermOp::Compare(_) => n == 2,
        },
        Operation::Declare => n == 4,
        Operation::Assert => n == 1,
        Operation::Check => n == 0,
        Operation::Unknown => false,
    }
}

// The first argument, and the others.
fn first_or(i: usize, first: Argument, others: Argument) -> Argument
    ensures { result ≡ pick (eqb i 0) first others }
{
    if i == 0 { first } else { others }
}

fn ite_argument(i: usize) -> Argument
    ensures { result ≡ pick (eqb i 0) Argument.BoolTerm (pick (eqb i 1) Argument.VectorTerm Argument.SameSort) }
{
    if i == 0 {
        return Argument::BoolTerm;
    }
    if i == 1 {
        return Argument::VectorTerm;
    }
    Argument::SameSort
}

fn extraction_argument(i: usize) -> Argument
    ensures { result ≡ extraction i }
{
    if i == 0 {
        return Argument::High;
    }
    if i == 1 {
        return Argument::Low;
    }
    Argument::Holder
}

fn declaration_argument(i: usize) -> Argument
    ensures { result ≡ declaration i }
{
    if i == 0 {
        return Argument::Letter;
    }
    if i == 1 {
        return Argument::Index;
    }
    if i == 2 {
        return Argument::Suffix;
    }
    Argument::Width
}

fn literal_argument(i: usize) -> Argument
    ensures { result ≡ pick (eqb i 0) Argument.Width (Argument.Digit (i - 1)) }
{
    if i == 0 {
        return Argument::Width;
    }
    Argument::Digit(i - 1)
}

// What argument i of an operation is.
pub fn argument(operation: Operation, i: usize) -> Argument
    ensures { result ≡ argument_of (op_from operation) i }
{
    match operation {
        Operation::Term(term) => match term {
            TermOp::BoolLit => Argument::Flag,
            TermOp::BoolIte => Argument::BoolTerm,
            TermOp::Not => Argument::BoolTerm,
            TermOp::And => Argument::BoolTerm,
            TermOp::Lit => literal_argument(i),
            TermOp::Equal => first_or(i, Argument::AnyTerm, Argument::SameSort),
            TermOp::Ite => ite_argument(i),
            TermOp::Concat => first_or(i, Argument::VectorTerm, Argument::Joined),
            TermOp::Extract => extraction_argument(i),
            TermOp::BvNot => Argument::VectorTerm,
            TermOp::Binary(_) => first_or(i, Argument::VectorTerm, Argument::SameSort),
            TermOp::Compare(_) => first_or(i, Argument::VectorTerm, Argument::SameSort),
        },
        Operation::Declare => declaration_argument(i),
        Operation::Assert => Argument::BoolTerm,
        Operation::Check => Argument::Nothing,
        Operation::Unknown => Argument::Nothing,
    }
}

// What number j of a literal lies below: 16 bits, or what its width leaves.
fn digit_bound(width: u32, j: usize) -> u32
    ensures { result ≡ 2 ^ min 16 (width - 16 * j) }
{
    if 268435456 <= j {
        return 1;
    }
    let passed = 16 * (j as u32);
    if width <= passed {
        return 1;
    }
    let left = width - passed;
    if left < 16 { 1 << left } else { 65536 }
}

fn is_digit(width: u32, j: usize, word: u32) -> bool
    ensures { result ≡ (is_number word && ltb (payload_of word) (2 ^ min 16 (payload_of width - 16 * j))) }
{
    logic::kind(word) == 3 && logic::payload(word) < digit_bound(logic::payload(width), j)
}

// Sorts that two vectors can be joined at, and that has an index.
fn joins(before: u32, sort: u32) -> bool
    ensures { result ≡ (leb 1 sort && leb (before + sort) 64) }
{
    1 <= sort && before as u64 + sort as u64 <= 64
}

fn holds_index(high: u32, sort: u32) -> bool
    ensures { result ≡ (ltb high sort && leb sort 64) }
{
    high < sort && sort <= 64
}

// Whether a word may stand as an argument after the record's first argument and the word before, with the sorts of the
// terms that the word before and the word itself refer to.
pub fn admitted(
    argument: Argument,
    first: u32,
    before: u32,
    word: u32,
    sort_before: u32,
    sort: u32,
) -> bool
    ensures { result ≡ admits argument first before word sort_before sort }
{
    match argument {
        Argument::Flag => number_at_most(word, 1),
        Argument::AnyTerm => sort <= 64,
        Argument::BoolTerm => sort == 0,
        Argument::VectorTerm => is_vector(sort),
        Argument::SameSort => sort == sort_before,
        Argument::Joined => joins(sort_before, sort),
        Argument::High => number_at_most(word, 63),
        Argument::Low => number_at_most(word, logic::payload(before)),
        Argument::Holder => holds_index(logic::payload(first), sort),
        Argument::Letter => number_at_most(word, 2),
        Argument::Index => logic::kind(word) == 3,
        Argument::Suffix => number_at_most(word, 2),
        Argument::Width => is_width(word),
        Argument::Digit(j) => is_digit(first, j, word),
        Argument::Nothing => false,
    }
}
