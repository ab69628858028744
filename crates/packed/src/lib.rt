// What the order of work answers, packed into one word of 64 bits.
#![tactic(auto)]

ghost use Rattle.std.specs.Prelude.{◌≡◌, length, ◌≤◌};
ghost use Rattle.packed.specs.Verified.{packed_verified, lent, counts_written, Told};

use builder::Counts;
use logic::Fault;
use requirement::Verified;

// What the order of work answers, packed: its number from bit 48 on, whether anything is asked in bit 47, and below
// it the call words or the place.
pub fn packed_verified(answer: Result<Verified, Fault>) -> u64
    ensures { result ≡ packed_verified answer }
{
    match answer {
        Err(f) => packing::packed_fault(f),
        Ok(Verified::NothingAsked(n)) => (n.words % 281474976710656) as u64,
        Ok(Verified::Asked(n)) => {
            ((n.words % 281474976710656) as u64 + 140737488355328) % 281474976710656
        }
    }
}

// An answer with its counts, or 14 where the slice lent for them has less than three numbers.
fn with_room(answer: Result<Verified, Fault>, room: usize) -> Result<Verified, Fault>
    ensures { result ≡ lent answer room }
{
    let told = answer?;
    if room < 3 {
        return Err(Fault {
            number: 14,
            place: 3,
        });
    }
    Ok(told)
}

// Terms, temporaries and words, in this order, in front of a slice.
fn put_counts(n: Counts, into: &mut [u64])
    requires { 3 ≤ length into.old }
    ensures { into.new ≡ counts_written n into.old }
{
    into[0] = n.terms as u64;
    into[1] = n.temporaries as u64;
    into[2] = n.words as u64;
}

// An answer and its counts told: packed, with the numbers of terms, temporaries and call words in front of a slice.
pub fn told(answer: Result<Verified, Fault>, counts: &mut [u64]) -> u64
    ensures { Told answer counts.old counts.new result }
{
    let roomed = with_room(answer, counts.len());
    match roomed {
        Err(_) => {}
        Ok(Verified::NothingAsked(n)) => put_counts(n, counts),
        Ok(Verified::Asked(n)) => put_counts(n, counts),
    }
    packed_verified(roomed)
}
