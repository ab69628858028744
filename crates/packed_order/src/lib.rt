// The order of a list's nodes or its loop, packed into one word of 64 bits.
#![tactic(auto)]

ghost use Rattle.std.specs.Prelude.{◌≡◌};
ghost use Rattle.packed_order.specs.Packed.{packed_order};

use logic::Fault;
use ordering::Ordering;

// An answer, packed: its number from bit 48 on, whether it is a loop in bit 47, and below it the length or the place.
pub fn packed_order(answer: Result<Ordering, Fault>) -> u64
    ensures { result ≡ packed_order answer }
{
    match answer {
        Ok(Ordering::Ordered(n)) => (n % 281474976710656) as u64,
        Ok(Ordering::Looped(n)) => {
            ((n % 281474976710656) as u64 + 140737488355328) % 281474976710656
        }
        Err(f) => packing::packed_fault(f),
    }
}
