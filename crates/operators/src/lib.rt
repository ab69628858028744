// The operations that share the layout of their body with others: on one vector, on two, and shifts.
#![tactic(auto)]

ghost use Rattle.std.specs.Prelude.{◌≡◌};
ghost use Rattle.operators.specs.Operators.{binary_least, compares, shift_least};

// Operations on one vector.
#[derive(Clone, Copy)]
pub enum Unary {
    Buf,
    Not,
}

// Operations on two vectors of one width.
#[derive(Clone, Copy)]
pub enum Binary {
    And,
    Or,
    Xor,
    Eq,
    ULt,
    SLt,
    Mul,
    UDiv,
    UMod,
    SDivTrunc,
    SModTrunc,
}

// Shifts.
#[derive(Clone, Copy)]
pub enum Shift {
    Shl,
    UShr,
    SShr,
    XShr,
}

// The least n of an operation on two vectors.
pub fn binary_least(operator: Binary) -> u32
    ensures { result ≡ binary_least operator }
{
    match operator {
        Binary::Eq | Binary::ULt | Binary::SLt | Binary::SDivTrunc | Binary::SModTrunc => 1,
        _ => 0,
    }
}

// Whether an operation on two vectors compares them.
pub fn compares(operator: Binary) -> bool
    ensures { result ≡ compares operator }
{
    matches!(operator, Binary::Eq | Binary::ULt | Binary::SLt)
}

// The least n of a shift.
pub fn shift_least(operator: Shift) -> u32
    ensures { result ≡ shift_least operator }
{
    match operator {
        Shift::SShr => 1,
        _ => 0,
    }
}
