// SMT-LIB's texts of operations, sorts and literals, in a lent slice of bytes. Each function writes a text from a place
// on and gives the next place; past the slice's end it only counts.
#![tactic(auto)]

ghost use Rattle.std.specs.Prelude.{◌-◌, eqb};
ghost use Rattle.bitvec.specs.Bits.{nat2bv};
ghost use Rattle.engine.specs.Emit.{Wrote, binary_of, compare_of};
ghost use Rattle.call_list.specs.Operations.{op_from};
ghost use Rattle.syntax.specs.Text.{sort_text, bool_text, bits_text, literal_text};
ghost use Rattle.syntax.specs.Text.{binary_text, compare_text, operation_text, extract_text};

use call_list::{Operation, TermOp};
use engine::{BinaryOp, Compare};

// Writes the name of an operation on two bit vectors.
fn put_binary(text: &mut [u8], at: usize, op: BinaryOp) -> usize
    ensures { Wrote text.old at (binary_text (binary_of op)) text.new result }
{
    match op {
        BinaryOp::And => text::put_bytes(text, at, b"bvand"),
        BinaryOp::Or => text::put_bytes(text, at, b"bvor"),
        BinaryOp::Xor => text::put_bytes(text, at, b"bvxor"),
        BinaryOp::Add => text::put_bytes(text, at, b"bvadd"),
        BinaryOp::Comp => text::put_bytes(text, at, b"bvcomp"),
        BinaryOp::Shl => text::put_bytes(text, at, b"bvshl"),
        BinaryOp::Lshr => text::put_bytes(text, at, b"bvlshr"),
        BinaryOp::Ashr => text::put_bytes(text, at, b"bvashr"),
        BinaryOp::Mul => text::put_bytes(text, at, b"bvmul"),
        BinaryOp::Udiv => text::put_bytes(text, at, b"bvudiv"),
        BinaryOp::Urem => text::put_bytes(text, at, b"bvurem"),
        BinaryOp::Sdiv => text::put_bytes(text, at, b"bvsdiv"),
        BinaryOp::Srem => text::put_bytes(text, at, b"bvsrem"),
    }
}

// Writes the name of a comparison.
fn put_compare(text: &mut [u8], at: usize, op: Compare) -> usize
    ensures { Wrote text.old at (compare_text (compare_of op)) text.new result }
{
    match op {
        Compare::Ult => text::put_bytes(text, at, b"bvult"),
        Compare::Slt => text::put_bytes(text, at, b"bvslt"),
    }
}

// Writes the name of an operation; one that is not applied by name has none.
#[tactic(auto, using(engine::proofs::EmitLaws::wrote_none))]
pub fn put_operation(text: &mut [u8], at: usize, operation: Operation) -> usize
    ensures { Wrote text.old at (operation_text (op_from operation)) text.new result }
{
    match operation {
        Operation::Term(term) => match term {
            TermOp::BoolLit | TermOp::Lit | TermOp::Extract => at,
            TermOp::BoolIte | TermOp::Ite => text::put_bytes(text, at, b"ite"),
            TermOp::Not => text::put_bytes(text, at, b"not"),
            TermOp::And => text::put_bytes(text, at, b"and"),
            TermOp::Equal => text::put_bytes(text, at, b"="),
            TermOp::Concat => text::put_bytes(text, at, b"concat"),
            TermOp::BvNot => text::put_bytes(text, at, b"bvnot"),
            TermOp::Binary(op) => put_binary(text, at, op),
            TermOp::Compare(op) => put_compare(text, at, op),
        },
        _ => at,
    }
}

// Writes the operation of an extract with its two numbers.
pub fn put_extract(text: &mut [u8], at: usize, high: usize, low: usize) -> usize
    ensures { Wrote text.old at (extract_text high low) text.new result }
{
    let first = text::put_bytes(text, at, b"(_ extract ");
    let space = text::put_number(text, first, high);
    let second = text::put_byte(text, space, b' ');
    let closing = text::put_number(text, second, low);
    text::put_byte(text, closing, b')')
}

// Writes a sort.
pub fn put_sort(text: &mut [u8], at: usize, sort: u32) -> usize
    ensures { Wrote text.old at (sort_text sort) text.new result }
{
    if sort == 0 {
        return text::put_bytes(text, at, b"Bool");
    }
    let width = text::put_bytes(text, at, b"(_ BitVec ");
    let closing = text::put_number(text, width, sort as usize);
    text::put_byte(text, closing, b')')
}

// Writes a Bool, by its number.
pub fn put_bool(text: &mut [u8], at: usize, number: u32) -> usize
    ensures { Wrote text.old at (bool_text (eqb number 1)) text.new result }
{
    if number == 1 {
        return text::put_bytes(text, at, b"true");
    }
    text::put_bytes(text, at, b"false")
}

// Writes the low bits of a number, the highest first.
fn put_bits(text: &mut [u8], at: usize, n: u64, width: u32) -> usize
    ensures { Wrote text.old at (bits_text (nat2bv width n)) text.new result }
{
    if width == 0 {
        return at;
    }
    let last = put_bits(text, at, n / 2, width - 1);
    text::put_byte(text, last, (48 + n % 2) as u8)
}

// Writes a literal of some width, #b and every digit.
pub fn put_literal(text: &mut [u8], at: usize, n: u64, width: u32) -> usize
    ensures { Wrote text.old at (literal_text (nat2bv width n)) text.new result }
{
    let digits = text::put_bytes(text, at, b"#b");
    put_bits(text, digits, n, width)
}
