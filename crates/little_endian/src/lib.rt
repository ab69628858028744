// The words of an input of bytes, each four bytes, the lowest first.
#![tactic(auto)]

ghost use Rattle.std.specs.Prelude.{◌≡◌, ◌/◌, ◌<◌, length};
ghost use Rattle.std.proofs.lemmas.List.Edits.{sets};
ghost use Rattle.little_endian.specs.Words.{word_at, words_of, input_of, words_after};

use logic::Fault;

// The word that begins at byte 4 * i.
fn word(input: &[u8], i: usize) -> u32
    requires { i < length input.now / 4 }
    ensures { result ≡ word_at input.now i }
{
    let at = 4 * i;
    u32::from_le_bytes([input[at], input[at + 1], input[at + 2], input[at + 3]])
}

// Stores the whole words of the input from the start of a slice on.
fn load(input: &[u8], words: &mut [u32])
    ensures { words.new ≡ sets words.old 0 (words_of input.now) }
{
    for i in 0..input.len() / 4 {
        logic::put(words, i, word(input, i));
    }
}

// The words of an input, stored from the start of a slice on, and how many they are: a byte after the 16,384th word is
// 4, a broken last word is 1, and both leave the slice as it was.
#[tactic(auto, unfolding(crate::specs::Words::input_of))]
pub fn words(input: &[u8], words: &mut [u32]) -> Result<usize, Fault>
    ensures { (result ≡ input_of input.now)
        × (words.new ≡ words_after input.now words.old) }
{
    if 65536 < input.len() {
        return Err(Fault {
            number: 4,
            place: 16384,
        });
    }
    let whole = input.len() / 4;
    if input.len() % 4 != 0 {
        return Err(Fault {
            number: 1,
            place: whole,
        });
    }
    load(input, words);
    Ok(whole)
}
