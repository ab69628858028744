// The numbers of terms: what a record's operation makes of the numbers and sorts of the terms before it.
#![tactic(auto)]

ghost use Rattle.std.specs.Prelude.{◌≡◌, cond, get_or, eqb};
ghost use Rattle.bitvec.specs.Bits.{bit, nat2bv};
ghost use Rattle.bitvec.specs.Words.{at_width, holds_at};
ghost use Rattle.engine.specs.Meaning.{denote_op, denote_compare};
ghost use Rattle.engine.specs.Emit.{binary_of, compare_of};
ghost use Rattle.logic.specs.Table.{tab};
ghost use Rattle.call_list.specs.Literal.{payloads};
ghost use Rattle.term_table.specs.Near.{sort_in};
ghost use Rattle.term_values.specs.Values.{and_number};
ghost use Rattle.term_values.specs.Records.{number_in, sort_below, literal_value, concat_in, extract_in, record_value};

use call_list::{Operation, TermOp};
use engine::{BinaryOp, Compare};
use term_table::Tables;

// The number at a place, 0 past the end.
pub fn number_at(numbers: &[u64], at: usize) -> u64
    ensures { result ≡ get_or numbers.now at 0 }
{
    if at < numbers.len() { numbers[at] } else { 0 }
}

// A choice by a Bool's number.
fn chosen(condition: u64, if_one: u64, otherwise: u64) -> u64
    ensures { result ≡ cond (eqb condition 1) if_one otherwise }
{
    if condition == 1 { if_one } else { otherwise }
}

// An operation of two vectors of a width.
pub fn binary_value(op: BinaryOp, width: u32, s: u64, t: u64) -> u64
    ensures { result ≡ at_width width (denote_op (binary_of op) (nat2bv width s) (nat2bv width t)) }
{
    match op {
        BinaryOp::And => bitvec::bvand(width, s, t),
        BinaryOp::Or => bitvec::bvor(width, s, t),
        BinaryOp::Xor => bitvec::bvxor(width, s, t),
        BinaryOp::Add => bitvec::bvadd(width, s, t),
        BinaryOp::Comp => bitvec::bvcomp(width, s, t),
        BinaryOp::Shl => bitvec::bvshl(width, s, t),
        BinaryOp::Lshr => bitvec::bvlshr(width, s, t),
        BinaryOp::Ashr => bitvec::bvashr(width, s, t),
        BinaryOp::Mul => bitvec::bvmul(width, s, t),
        BinaryOp::Udiv => bitvec::bvudiv(width, s, t),
        BinaryOp::Urem => bitvec::bvurem(width, s, t),
        BinaryOp::Sdiv => bitvec::bvsdiv(width, s, t),
        BinaryOp::Srem => bitvec::bvsrem(width, s, t),
    }
}

// A comparison of two vectors of a width.
pub fn compare_value(op: Compare, width: u32, s: u64, t: u64) -> bool
    ensures { result ≡ holds_at width (denote_compare (compare_of op) (nat2bv width s) (nat2bv width t)) }
{
    match op {
        Compare::Ult => bitvec::bvult(width, s, t),
        Compare::Slt => bitvec::bvslt(width, s, t),
    }
}

// The number of an and of n arguments: 1 if all of theirs are.
fn and_value(calls: &[u32], values: &[u64], at: usize, n: usize) -> u64
    ensures { result ≡ and_number (number_in values.now) (tab n (payloads calls.now at)) }
{
    for i in 0..n {
        if argument_value(calls, values, at, i) != 1 {
            return 0;
        }
    }
    1
}

// The number of the literal at a place.
fn literal_value(calls: &[u32], at: usize) -> u64
    ensures { result ≡ literal_value calls.now at }
{
    bitvec::reduce(
        call_list::argument_at(calls, at, 0),
        call_list::literal_number(calls, at),
    )
}

// The number of the term that argument i of the record at a place refers to.
fn argument_value(calls: &[u32], values: &[u64], at: usize, i: usize) -> u64
    ensures { result ≡ number_in values.now (payloads calls.now at i) }
{
    number_at(values, call_list::argument_at(calls, at, i) as usize)
}

// The sort of the term that argument i of the record at a place refers to, of so many so far.
fn argument_sort(tables: &Tables, terms: usize, at: usize, i: usize) -> u32
    ensures { result
        ≡ sort_below
        (sort_in tables.now terms)
        terms (payloads tables.now.calls.now at i) }
{
    let k = call_list::argument_at(tables.calls, at, i);
    if (k as usize) < terms {
        term_table::term_sort(tables, terms, k)
    } else {
        65
    }
}

// The number of an ite: that of the second argument where the first's is 1, else that of the third.
fn choice_value(calls: &[u32], values: &[u64], at: usize) -> u64
    ensures { result ≡ cond (eqb (number_in values.now (payloads calls.now at 0)) 1)
        (number_in values.now (payloads calls.now at 1))
        (number_in values.now (payloads calls.now at 2)) }
{
    let condition = argument_value(calls, values, at, 0);
    let if_one = argument_value(calls, values, at, 1);
    chosen(condition, if_one, argument_value(calls, values, at, 2))
}

// The number of an equation: 1 where both arguments have one number.
fn equal_value(calls: &[u32], values: &[u64], at: usize) -> u64
    ensures { result ≡ bit (eqb (number_in values.now (payloads calls.now at 0))
        (number_in values.now (payloads calls.now at 1))) }
{
    let left = argument_value(calls, values, at, 0);
    let right = argument_value(calls, values, at, 1);
    u64::from(left == right)
}

// The number of a concat.
fn concat_value(tables: &Tables, values: &[u64], terms: usize, at: usize) -> u64
    ensures { result ≡ concat_in
        (sort_in tables.now terms)
        values.now tables.now.calls.now terms at }
{
    let high = argument_sort(tables, terms, at, 0);
    let low = argument_sort(tables, terms, at, 1);
    let s = argument_value(tables.calls, values, at, 0);
    bitvec::concat(high, s, low, argument_value(tables.calls, values, at, 1))
}

// The number of an extract.
fn extract_value(tables: &Tables, values: &[u64], terms: usize, at: usize) -> u64
    ensures { result ≡ extract_in
        (sort_in tables.now terms)
        values.now tables.now.calls.now terms at }
{
    let calls = tables.calls;
    let width = argument_sort(tables, terms, at, 2);
    let high = call_list::argument_at(calls, at, 0);
    let low = call_list::argument_at(calls, at, 1);
    bitvec::extract(width, high, low, argument_value(calls, values, at, 2))
}

// The number of the term that the record at a place makes, from the numbers and sorts of the terms before it.
pub fn record_value(tables: &Tables, values: &[u64], terms: usize, given: u64, at: usize) -> u64
    ensures { result ≡ record_value
        (sort_in tables.now terms)
        values.now tables.now.calls.now terms given at }
{
    let calls = tables.calls;
    match call_list::operation_at(calls, at) {
        Operation::Term(term) => match term {
            TermOp::BoolLit => u64::from(call_list::argument_at(calls, at, 0) == 1),
            TermOp::BoolIte | TermOp::Ite => choice_value(calls, values, at),
            TermOp::Not => chosen(argument_value(calls, values, at, 0), 0, 1),
            TermOp::And => and_value(calls, values, at, call_list::count_at(calls, at) as usize),
            TermOp::Lit => literal_value(calls, at),
            TermOp::Equal => equal_value(calls, values, at),
            TermOp::Concat => concat_value(tables, values, terms, at),
            TermOp::Extract => extract_value(tables, values, terms, at),
            TermOp::BvNot => {
                let width = argument_sort(tables, terms, at, 0);
                bitvec::bvnot(width, argument_value(calls, values, at, 0))
            }
            TermOp::Binary(op) => {
                let width = argument_sort(tables, terms, at, 0);
                let s = argument_value(calls, values, at, 0);
                binary_value(op, width, s, argument_value(calls, values, at, 1))
            }
            TermOp::Compare(op) => {
                let width = argument_sort(tables, terms, at, 0);
                let s = argument_value(calls, values, at, 0);
                u64::from(compare_value(op, width, s, argument_value(calls, values, at, 1)))
            }
        },
        Operation::Declare => given,
        Operation::Assert | Operation::Check | Operation::Unknown => 0,
    }
}
