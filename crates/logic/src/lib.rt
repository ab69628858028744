// Trits, net words and faults: logic.rs and value.rs of the original, over document 01's 32-bit words.
#![tactic(auto)]

ghost use Rattle.std.specs.Prelude.{◌≡◌, get_or, set};
ghost use Rattle.logic.specs.Trit.{trit_number, readback_number, shows};
ghost use Rattle.logic.specs.Word.{kind_of, payload_of, net_word, head_word, number_word, term_word};
ghost use Rattle.logic.specs.Net.{driver_of, net_of_slot};

// How many payloads there are.
const PAYLOADS: u32 = 536870912;

// The last payload: constant X as a net, and the largest number of a word.
pub const LAST_PAYLOAD: u32 = 536870911;

// An extended binary value: 0, 1 or X.
#[derive(Clone, Copy)]
pub enum Trit {
    Zero,
    One,
    Undef,
}

// A slot number: which output bit of the design's cells.
#[derive(Clone, Copy)]
pub struct Slot(pub u32);

// A net number: the payload of a net word, for a slot two above the slot's number.
#[derive(Clone, Copy)]
pub struct Net(pub u32);

// A term number: how many engine calls made a term before it.
#[derive(Clone, Copy)]
pub struct Term(pub u32);

// What a net number names.
#[derive(Clone, Copy)]
pub enum Driver {
    Constant(Trit),
    Output(Slot),
    NoNet,
}

// A refusal: document 01's number, and the place of the first word or byte at fault.
#[derive(Clone, Copy)]
pub struct Fault {
    pub number: u32,
    pub place: usize,
}

// The number by which a trit is written.
pub fn trit_number(trit: Trit) -> u8
    ensures { result ≡ trit_number trit }
{
    match trit {
        Trit::Zero => 0,
        Trit::One => 1,
        Trit::Undef => 2,
    }
}

// The number by which a readback is written: that of the trit that it shows, or 3 where nothing was recorded.
pub fn readback_number(readback: Option<Trit>) -> u8
    ensures { result ≡ readback_number readback }
{
    match readback {
        Some(trit) => trit_number(trit),
        None => 3,
    }
}

// The trit that two bits show: x of 1 hides y.
pub fn trit_of_bits(x: bool, y: bool) -> Trit
    ensures { result ≡ shows x y }
{
    if x {
        return Trit::Undef;
    }
    if y {
        return Trit::One;
    }
    Trit::Zero
}

// The kind of a word: its top three bits.
pub fn kind(word: u32) -> u32
    ensures { result ≡ kind_of word }
{
    word / PAYLOADS
}

// The payload of a word: its low 29 bits.
pub fn payload(word: u32) -> u32
    ensures { result ≡ payload_of word }
{
    word % PAYLOADS
}

// The word of a net.
pub fn net_word(net: Net) -> u32
    ensures { result ≡ net_word net.0 }
{
    payload(net.0)
}

// The word that heads a record: its operation and how many words follow.
pub fn head_word(op: u32, count: u32) -> u32
    ensures { result ≡ head_word op count }
{
    let whole = op as u64 + 32 * (count as u64);
    2 * PAYLOADS + (whole % (PAYLOADS as u64)) as u32
}

// The word of a number, written #n.
pub fn number_word(n: u32) -> u32
    ensures { result ≡ number_word n }
{
    3 * PAYLOADS + payload(n)
}

// The word that refers to a term.
pub fn term_word(term: Term) -> u32
    ensures { result ≡ term_word term.0 }
{
    4 * PAYLOADS + payload(term.0)
}

// The net number of a slot, `Net::from_cell_index`.
pub fn net_of_slot(slot: Slot) -> Net
    ensures { result.0 ≡ net_of_slot slot.0 }
{
    Net(payload(payload(slot.0) + 2))
}

// What a net number names, `Net::as_cell_index`.
pub fn driver_of(net: Net) -> Driver
    ensures { result ≡ driver_of net.0 }
{
    let n = net.0;
    if PAYLOADS <= n {
        return Driver::NoNet;
    }
    if n == 0 {
        return Driver::Constant(Trit::Zero);
    }
    if n == 1 {
        return Driver::Constant(Trit::One);
    }
    if n == LAST_PAYLOAD {
        return Driver::Constant(Trit::Undef);
    }
    Driver::Output(Slot(n - 2))
}

// The word at a place of a list, 0 past its end.
pub fn word_at(words: &[u32], at: usize) -> u32
    ensures { result ≡ get_or words.now at 0 }
{
    if at < words.len() { words[at] } else { 0 }
}

// A word stored at a place of a list; past its end nothing changes.
pub fn put(words: &mut [u32], at: usize, word: u32)
    ensures { words.new ≡ set words.old at word }
{
    if at < words.len() {
        words[at] = word;
    }
}
