// A refusal packed into one word of 64 bits.
#![tactic(auto)]

ghost use Rattle.std.specs.Prelude.{◌≡◌};
ghost use Rattle.packing.specs.Packed.{packed_fault};

use logic::Fault;

// A refusal, packed: its number above its place.
pub fn packed_fault(fault: Fault) -> u64
    ensures { result ≡ packed_fault fault }
{
    (fault.number % 65536) as u64 * 281474976710656 + (fault.place % 281474976710656) as u64
}
