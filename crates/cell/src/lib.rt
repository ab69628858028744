// Cells: their operations, and how the body of each is laid out in the words of a design list (cell.rs of the
// original).
#![tactic(auto)]

ghost use Rattle.std.specs.Prelude.{◌≡◌};
ghost use Rattle.cell.specs.Cell.{binary_width};
ghost use Rattle.cell.specs.Operation.{operation_of, lead, body, layout_of, numbers_in, fields_in, numbers_of};
ghost use Rattle.cell.specs.Operation.{fields_of, standing_of, may_replace};
ghost use Rattle.cell.specs.Mode.{mode_of};

use operators::{Binary, Shift, Unary};

// How a Dff's net replaced by a Dff's is judged: as the original judges it, or by its induction step alone.
#[derive(Clone, Copy)]
pub enum Mode {
    Ported,
    Inductive,
}

// The operations; those on one vector, those on two and the shifts are told apart by their operator.
#[derive(Clone, Copy)]
pub enum Operation {
    Void,
    Note,
    IoBuf,
    Input,
    Unary(Unary),
    Binary(Binary),
    Mux,
    Adc,
    Aig,
    Shift(Shift),
    Match,
    Assign,
    Dff,
}

// What stands at a slot, as far as reading nets goes: a Void, a Dff or another cell.
#[derive(Clone, Copy)]
pub enum Standing {
    Void,
    Dff,
    Other,
}

// How a body is laid out; of two vectors and of a shift the least n or the output width goes by the operator.
#[derive(Clone, Copy)]
pub enum Layout {
    Empty,
    Port,
    Unary,
    Binary(Binary),
    Mux,
    Adc,
    Aig,
    Shift(Shift),
    Match,
    Assign,
    Dff,
}

// The numbers that lead a body: how many, the least that the first may be, the bound of the second, and whether the
// third is an offset at which as many nets as the second says must fit within as many as the first says.
#[derive(Clone, Copy)]
pub struct Numbers {
    pub count: u32,
    pub least: u32,
    pub second: u32,
    pub within: bool,
}

// What follows the numbers, in this order, and the output width.
#[derive(Clone, Copy)]
pub struct Fields {
    pub controls: usize,
    pub nets: usize,
    pub constants: usize,
    pub patterns: usize,
    pub width: usize,
}

// The mode that a caller's number chooses.
pub fn mode_of(number: u32) -> Option<Mode>
    ensures { result ≡ mode_of number }
{
    match number {
        0 => Some(Mode::Ported),
        1 => Some(Mode::Inductive),
        2.. => None,
    }
}

// The operation that a number names.
pub fn operation_of(number: u32) -> Option<Operation>
    ensures { result ≡ operation_of number }
{
    match number {
        0 => Some(Operation::Void),
        1 => Some(Operation::Unary(Unary::Buf)),
        2 => Some(Operation::Unary(Unary::Not)),
        3 => Some(Operation::Binary(Binary::And)),
        4 => Some(Operation::Binary(Binary::Or)),
        5 => Some(Operation::Binary(Binary::Xor)),
        6 => Some(Operation::Mux),
        7 => Some(Operation::Adc),
        8 => Some(Operation::Aig),
        9 => Some(Operation::Binary(Binary::Eq)),
        10 => Some(Operation::Binary(Binary::ULt)),
        11 => Some(Operation::Binary(Binary::SLt)),
        12 => Some(Operation::Shift(Shift::Shl)),
        13 => Some(Operation::Shift(Shift::UShr)),
        14 => Some(Operation::Shift(Shift::SShr)),
        15 => Some(Operation::Shift(Shift::XShr)),
        16 => Some(Operation::Binary(Binary::Mul)),
        17 => Some(Operation::Match),
        18 => Some(Operation::Assign),
        19 => Some(Operation::Dff),
        20 => Some(Operation::IoBuf),
        21 => Some(Operation::Input),
        22 => Some(Operation::Note),
        23 => Some(Operation::Binary(Binary::UDiv)),
        24 => Some(Operation::Binary(Binary::UMod)),
        25 => Some(Operation::Binary(Binary::SDivTrunc)),
        26 => Some(Operation::Binary(Binary::SModTrunc)),
        _ => None,
    }
}

// The numbers of a body.
pub fn lead(count: u32, least: u32, second: u32, within: bool) -> Numbers
    ensures { result ≡ lead count least second within }
{
    Numbers {
        count,
        least,
        second,
        within,
    }
}

// The fields of a body, after its numbers.
pub fn body(controls: usize, nets: usize, constants: usize, patterns: usize, width: usize) -> Fields
    ensures { result ≡ body controls nets constants patterns width }
{
    Fields {
        controls,
        nets,
        constants,
        patterns,
        width,
    }
}

// The layout of an operation's body.
pub fn layout_of(op: Operation) -> Layout
    ensures { result ≡ layout_of op }
{
    match op {
        Operation::Void => Layout::Empty,
        Operation::Note => Layout::Empty,
        Operation::IoBuf => Layout::Port,
        Operation::Input => Layout::Port,
        Operation::Unary(_) => Layout::Unary,
        Operation::Binary(operator) => Layout::Binary(operator),
        Operation::Mux => Layout::Mux,
        Operation::Adc => Layout::Adc,
        Operation::Aig => Layout::Aig,
        Operation::Shift(operator) => Layout::Shift(operator),
        Operation::Match => Layout::Match,
        Operation::Assign => Layout::Assign,
        Operation::Dff => Layout::Dff,
    }
}

// The output width of an operation on two vectors of n nets.
pub fn binary_width(operator: Binary, n: usize) -> usize
    ensures { result ≡ binary_width operator n }
{
    if operators::compares(operator) {
        return 1;
    }
    n
}

// The numbers that lead a body of a layout.
pub fn numbers_in(layout: Layout) -> Numbers
    ensures { result ≡ numbers_in layout }
{
    match layout {
        // columns: how many, least n, bound of the second, within
        Layout::Empty => lead(0, 0, 0, false),
        Layout::Port => lead(1, 0, 0, false),
        Layout::Unary => lead(1, 0, 0, false),
        Layout::Binary(operator) => lead(1, operators::binary_least(operator), 0, false),
        Layout::Mux => lead(1, 0, 0, false),
        Layout::Adc => lead(1, 0, 0, false),
        Layout::Aig => lead(0, 0, 0, false),
        Layout::Shift(operator) => lead(3, operators::shift_least(operator), 32, false),
        Layout::Match => lead(2, 0, 63, false),
        Layout::Assign => lead(3, 0, 63, true),
        Layout::Dff => lead(2, 0, 1, false),
    }
}

// The fields that follow the numbers n and m of a layout, and the output width.
pub fn fields_in(layout: Layout, first: u32, second: u32) -> Fields
    ensures { result ≡ fields_in layout first second }
{
    let n = first as usize;
    let m = second as usize;
    match layout {
        // columns: controls, nets, constants, patterns, output width
        Layout::Empty => body(0, 0, 0, 0, 0),
        Layout::Port => body(0, 0, 0, 0, n),
        Layout::Unary => body(0, n, 0, 0, n),
        Layout::Binary(operator) => body(0, n + n, 0, 0, binary_width(operator, n)),
        Layout::Mux => body(0, 1 + n + n, 0, 0, n),
        Layout::Adc => body(0, n + n + 1, 0, 0, n + 1),
        Layout::Aig => body(2, 0, 0, 0, 1),
        Layout::Shift(_) => body(0, n + m, 0, 0, n),
        Layout::Match => body(0, 1 + n, 0, m, m),
        Layout::Assign => body(0, 1 + n + m, 0, 0, n),
        Layout::Dff => body(4, n, n + n, 0, n),
    }
}

// The numbers that lead an operation's body.
pub fn numbers_of(op: Operation) -> Numbers
    ensures { result ≡ numbers_of op }
{
    numbers_in(layout_of(op))
}

// The fields that follow the numbers of an operation's body, of which the first two are n and m, and the output width.
pub fn fields_of(op: Operation, first: u32, second: u32) -> Fields
    ensures { result ≡ fields_of op first second }
{
    fields_in(layout_of(op), first, second)
}

// What stands at the slots of an operation's cell.
pub fn standing_of(op: Operation) -> Standing
    ensures { result ≡ standing_of op }
{
    match op {
        Operation::Void => Standing::Void,
        Operation::Dff => Standing::Dff,
        _ => Standing::Other,
    }
}

// Whether an operation's cell may be the new cell of a replacement.
pub fn may_replace(op: Operation) -> bool
    ensures { result ≡ may_replace op }
{
    !matches!(op, Operation::Void | Operation::Note | Operation::Input)
}
