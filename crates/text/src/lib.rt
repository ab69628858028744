// Bytes of a lent text: reading one, and writing bytes, texts and decimal numbers with the next place counted past the
// end.
#![tactic(auto)]

ghost use Rattle.std.specs.Prelude.{◌≡◌, ◌∷◌, [], ◌+◌, ◌-◌, ◌≤◌, ◌<◌, ◌^◌, length, take, get_or, set};
ghost use Rattle.engine.specs.Emit.{Wrote, overwrite};
ghost use Rattle.text.specs.Bytes.{decimal};
ghost use Rattle.text.specs.Names.{spelling};

// The byte at a place of a text, 0 past its end.
pub fn byte_at(text: &[u8], at: usize) -> u8
    ensures { result ≡ get_or text.now at 0 }
{
    if at < text.len() { text[at] } else { 0 }
}

// A byte stored at a place of a text; past its end nothing changes.
pub fn set_byte(text: &mut [u8], at: usize, byte: u8)
    ensures { text.new ≡ set text.old at byte }
{
    if at < text.len() {
        text[at] = byte;
    }
}

// Writes a byte at a place and gives the next one; past the text's end it only counts.
#[tactic(auto, using(crate::proofs::Write::writing))]
pub fn put_byte(text: &mut [u8], at: usize, byte: u8) -> usize
    ensures { Wrote text.old at (byte ∷ []) text.new result }
{
    set_byte(text, at, byte);
    counting::counted_sum(at, 1)
}

// Writes bytes from a place on and gives the next place; only those for which there is room are stored.
#[tactic(auto, using(crate::proofs::Write::writing))]
pub fn put_bytes(text: &mut [u8], at: usize, bytes: &[u8]) -> usize
    ensures { Wrote text.old at bytes.now text.new result }
{
    if at < text.len() {
        let stored = bytes.len().min(text.len() - at);
        text[at..at + stored].copy_from_slice(&bytes[..stored]);
    }
    counting::counted_sum(at, bytes.len())
}

// How many decimal digits a number has.
#[tactic(auto, using(crate::proofs::BytesLaws::lengths))]
fn digit_count(n: usize) -> usize
    ensures { result ≡ length (decimal n) }
{
    let mut left = n;
    let mut count = 0;
    while 10000 <= left {
        left = left / 10000;
        count += 4;
    }
    if left < 10 {
        return count + 1;
    }
    if left < 100 {
        return count + 2;
    }
    if left < 1000 {
        return count + 3;
    }
    count + 4
}

// Stores the decimal digits of a number, of which there are so many, from a place on, the last one first.
#[tactic(auto, using(crate::proofs::Digits::turns))]
fn store_digits(text: &mut [u8], at: usize, n: usize, count: usize)
    requires { (count ≡ length (decimal n)) × (at + count < 2 ^ 64) }
    ensures { text.new ≡ overwrite text.old at (decimal n) }
{
    let mut left = n;
    let mut end = at + count;
    while 10 <= left {
        end -= 1;
        set_byte(text, end, (48 + left % 10) as u8);
        left = left / 10;
    }
    set_byte(text, at, (48 + left) as u8);
}

// Writes a number in decimal from a place on and gives the next place.
#[tactic(auto, using(crate::proofs::BytesLaws::lengths, crate::proofs::Write::writing))]
pub fn put_number(text: &mut [u8], at: usize, n: usize) -> usize
    ensures { Wrote text.old at (decimal n) text.new result }
{
    let count = digit_count(n);
    if at < text.len() {
        store_digits(text, at, n, count);
    }
    counting::counted_sum(at, count)
}

// Writes a name from a place on, its letter and suffix as bytes, and gives the next place.
pub fn put_name(text: &mut [u8], start: usize, letter: u8, index: usize, suffix: u8) -> usize
    ensures { Wrote text.old start (spelling letter index suffix) text.new result }
{
    let number = put_byte(text, start, letter);
    let last = put_number(text, number, index);
    put_byte(text, last, suffix)
}
