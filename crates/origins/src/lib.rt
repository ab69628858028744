// Where the sort of a term comes from: what the record that makes it says.
#![tactic(auto)]

ghost use Rattle.std.specs.Prelude.{◌≡◌, suc, ◌-◌, ◌<◌, ◌^◌};
ghost use Rattle.engine.specs.Encode.{call_at};
ghost use Rattle.engine.specs.Structure.{binary_origin, origin_of};
ghost use Rattle.engine.specs.Emit.{binary_of};

use call_list::{Operation, TermOp};
use engine::{BinaryOp, Origin};
use logic::Term;

fn extract_width(high: u32, low: u32) -> u32
    requires { high < 2 ^ 29 }
    ensures { result ≡ suc high - low }
{
    if high < low { 0 } else { high - low + 1 }
}

fn binary_origin(op: BinaryOp, a: Term) -> Origin
    ensures { result ≡ binary_origin (binary_of op) a.0 }
{
    match op {
        BinaryOp::Comp => Origin::Given(1),
        _ => Origin::Same(a),
    }
}

// What the record at a place says of its term's sort.
pub fn origin_at(calls: &[u32], at: usize) -> Origin
    ensures { result ≡ origin_of (call_at calls.now at) }
{
    let a = call_list::argument_at(calls, at, 0);
    let b = call_list::argument_at(calls, at, 1);
    let w = call_list::argument_at(calls, at, 3);
    match call_list::operation_at(calls, at) {
        Operation::Term(term) => match term {
            TermOp::BoolLit
            | TermOp::BoolIte
            | TermOp::Not
            | TermOp::And
            | TermOp::Equal
            | TermOp::Compare(_) => Origin::Given(0),
            TermOp::Lit => Origin::Given(a),
            TermOp::Ite => Origin::Same(Term(b)),
            TermOp::Concat => Origin::Joined(Term(a), Term(b)),
            TermOp::Extract => Origin::Given(extract_width(a, b)),
            TermOp::BvNot => Origin::Same(Term(a)),
            TermOp::Binary(op) => binary_origin(op, Term(a)),
        },
        Operation::Declare => Origin::Given(w),
        Operation::Assert | Operation::Check | Operation::Unknown => Origin::Given(65),
    }
}
