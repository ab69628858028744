// What the order of work answers for a list of words (design.rs, `Design::verify`). The definitions and the claim of
// requirement 3 stand in specs/, their proof in proofs/; no code but this answer and the tests that it rests on.
#![tactic(auto)]

ghost use Rattle.std.specs.Prelude.{◌≡◌};
ghost use Rattle.requirement.specs.Verified.{room_for, told_by};

use builder::Counts;

// Of an accepted list: one with no obligation, or one whose obligations are asked.
#[derive(Clone, Copy)]
pub enum Verified {
    NothingAsked(Counts),
    Asked(Counts),
}

// Room for so many words in the call slice, then for so many slots in the recorded one; an `Err` is the room that the
// first short one needs.
pub fn room_for(words: usize, room: usize, slots: usize, recorded: usize) -> Result<(), usize>
    ensures { result ≡ room_for words room slots recorded }
{
    if room < words {
        return Err(words);
    }
    if recorded < slots {
        return Err(slots);
    }
    Ok(())
}

// The answer where there is room, by the number of obligations.
pub fn told(obligations: usize, counts: Counts) -> Verified
    ensures { result ≡ told_by obligations counts }
{
    if obligations == 0 {
        return Verified::NothingAsked(counts);
    }
    Verified::Asked(counts)
}
