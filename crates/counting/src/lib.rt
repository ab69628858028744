// Counts of words and bytes that never wrap: a sum stops at the largest number, where no slice has a place.
#![tactic(auto)]

ghost use Rattle.std.specs.Prelude.{◌≡◌, ◌+◌};
ghost use Rattle.engine.specs.Emit.{counted};

// The sum of two counts; the largest number stays.
pub fn counted_sum(a: usize, b: usize) -> usize
    ensures { result ≡ counted (a + b) }
{
    if b < 18446744073709551615 - a {
        a + b
    } else {
        18446744073709551615
    }
}
