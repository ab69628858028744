// The bits that the declared names of a call list are given (fault 20).
#![tactic(auto)]

ghost use Rattle.std.specs.Prelude.{◌≡◌, ◌^◌, ltb};
ghost use Rattle.engine.specs.Encode.{decode};
ghost use Rattle.bits_given.specs.Given.{bits_fault, wrong_bits};

use call_list::Cursor;

// Whether a number fits a width.
fn fits_width(number: u64, width: u32) -> bool
    ensures { result ≡ ltb number (2 ^ width) }
{
    64 <= width || number < 1 << width
}

// Whether the record at a place declares a name whose bits are missing or above its width.
fn wrong_bits(calls: &[u32], bits: &[u64], declared: usize, at: usize) -> bool
    ensures { result ≡ wrong_bits calls.now bits.now declared at }
{
    call_list::is_declare(call_list::operation_at(calls, at))
        && !(declared < bits.len()
            && fits_width(bits[declared], call_list::argument_at(calls, at, 3)))
}

// The term number of the first declaration whose bits are missing or above its width (fault 20).
pub fn bits_fault(calls: &[u32], bits: &[u64]) -> Option<usize>
    ensures { result ≡ bits_fault 0 (decode calls.now) bits.now }
{
    let mut seen = Cursor {
        at: 0,
        terms: 0,
        declared: 0,
    };
    while seen.at < calls.len() {
        if wrong_bits(calls, bits, seen.declared, seen.at) {
            return Some(seen.terms);
        }
        seen = call_list::next(calls, seen);
    }
    None
}
