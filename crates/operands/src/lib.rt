// What the arms of `SmtBuilder::cell` of smt.rs do with their operands before any call of the engine. A value is a run
// of net words: words of the list, read in place, or words stored into a table that the caller lends; past its end
// nothing is stored.
#![tactic(auto)]

ghost use Rattle.std.specs.Prelude.{◌≡◌, cond, [], ◌∷◌, ◌++◌, map, ℕ, ◌+◌, ◌-◌, ◌^◌, ◌≤◌, ◌<◌, min, max, length, get_or};
ghost use Rattle.std.proofs.lemmas.List.Edits.{sets};
ghost use Rattle.logic.specs.Net.{constant, net_of, net_of_slot};
ghost use Rattle.logic.specs.Trit.{x_of, y_of};
ghost use Rattle.logic.specs.Word.{payload_of, net_word};
ghost use Rattle.logic.specs.declared.Trit.TheVariants as t;
ghost use Rattle.bitvec.specs.Bits.{bit, nat2bv};
ghost use Rattle.cell_reader.specs.Parse.{nets_in, trit_of, trit_in, trits_in};
ghost use Rattle.smt.specs.Builder.{output_nets, extended, overwritten, ilog2, shift_width};
ghost use Rattle.operands.specs.Words.{words_in, output_words, msb_word, extension, extended_words};
ghost use Rattle.operands.specs.Words.{ShiftFits, packed, Packed};

use logic::{Driver, Net, Slot, Trit};

// n words from a place on, copied to another.
fn copy(out: &mut [u32], to: u32, words: &[u32], from: u32, n: u32)
    ensures { out.new ≡ sets out.old to (words_in words.now n from) }
{
    for i in 0..n {
        let word = logic::word_at(words, from as usize + i as usize);
        logic::put(out, to as usize + i as usize, word);
    }
}

// ---- the nets of a cell's output

// The net word of an output: the slot so many after the cell's first.
fn output_word(slot: Slot, index: u32) -> u32
    ensures { result ≡ net_word (net_of_slot (slot.0 + index)) }
{
    let number = (slot.0 as u64 + index as u64) % 536870912;
    logic::net_word(logic::net_of_slot(Slot(number as u32)))
}

// The nets of the output of a cell, of its first slot and its width.
pub fn output_nets(out: &mut [u32], slot: Slot, width: u32)
    ensures stored { out.new ≡ sets out.old 0 (output_words slot.0 width) }
    ensures nets { width ≤ length out.old → slot.0 + width + 1 < 536870911
        → nets_in out.new width 0 ≡ output_nets slot.0 width }
{
    for i in 0..width {
        logic::put(out, i as usize, output_word(slot, i));
    }
}

// ---- prepare_shift

// The word by which a value is extended: that of its top net, X where it has none, or that of the constant 0.
fn extension(words: &[u32], at: u32, n: u32, signed: bool) -> u32
    ensures { result ≡ extension signed (words_in words.now n at) }
{
    if signed {
        if n == 0 {
            return 536870911;
        }
        return logic::word_at(words, at as usize + (n - 1) as usize);
    }
    0
}

// `sext` or `zext` of a value of n nets to a width.
pub fn extended_nets(out: &mut [u32], words: &[u32], at: u32, n: u32, width: u32, signed: bool)
    ensures stored { out.new
        ≡ sets out.old 0 (extended_words signed (words_in words.now n at) width) }
    ensures nets { n ≤ width → width ≤ length out.old
        → nets_in out.new width 0 ≡ extended signed (nets_in words.now n at) width }
{
    copy(out, 0, words, at, n);
    let word = extension(words, at, n, signed);
    stores::fill(out, n as usize, width as usize, word);
}

// A value of n nets with one net X above them, as XShr shifts it.
pub fn concat_undef(out: &mut [u32], words: &[u32], at: u32, n: u32)
    ensures stored { out.new
        ≡ sets out.old 0 (words_in words.now n at ++ (536870911 ∷ [])) }
    ensures nets { n + 1 ≤ length out.old
        → nets_in out.new (n + 1) 0 ≡ nets_in words.now n at ++ (constant t.Undef ∷ []) }
{
    copy(out, 0, words, at, n);
    logic::put(out, n as usize, logic::net_word(Net(536870911)));
}

// `stride.max(1).ilog2()`: the exponent of the last power of two that the stride reaches.
fn ilog2(stride: u32) -> u32
    ensures { result ≡ ilog2 (max stride 1) }
{
    stride.max(1).ilog2()
}

// The width at which a shift is made: the value's, or what the amount times the stride needs if that is more; at most
// 2^32 - 1.
pub fn shift_width(n: u32, m: u32, stride: u32) -> u32
    ensures width { result ≡ min (shift_width n m stride) 4294967295 }
    ensures wide { n ≤ 64 → m ≤ 32 → stride < 2 ^ 29 → ShiftFits n m stride result }
{
    let needed = m as u64 + ilog2(stride) as u64 + 1;
    if needed <= n as u64 {
        return n;
    }
    if needed < 4294967296 {
        return needed as u32;
    }
    4294967295
}

// ---- Assign

// A value of n nets with an update of u nets from the offset on.
pub fn overwritten_nets(
    out: &mut [u32],
    words: &[u32],
    value: u32,
    n: u32,
    update: u32,
    u: u32,
    offset: u32,
)
    ensures stored { out.new
        ≡ sets (sets out.old 0 (words_in words.now n value)) offset
        (words_in words.now u update) }
    ensures nets { n ≤ length out.old → offset + u ≤ n
        → nets_in out.new n 0
        ≡ overwritten (nets_in words.now n value) offset (nets_in words.now u update) }
{
    copy(out, 0, words, value, n);
    copy(out, offset, words, update, u);
}

// ---- constants

// The constant of a word, X where it is another net.
pub fn trit_of(word: u32) -> Trit
    ensures { result ≡ trit_of (net_of (payload_of word)) }
{
    match logic::driver_of(Net(logic::payload(word))) {
        Driver::Constant(trit) => trit,
        Driver::Output(_) | Driver::NoNet => Trit::Undef,
    }
}

// The constant at a place of a pattern, or of a reset or clear value.
pub fn trit_at(words: &[u32], at: usize) -> Trit
    ensures { result ≡ trit_in words.now at }
{
    trit_of(logic::word_at(words, at))
}

// Is a trit undefined, as a bit?
pub fn x_bit(trit: Trit) -> u64
    ensures { result ≡ bit (x_of trit) }
{
    u64::from(matches!(trit, Trit::Undef))
}

// If not, is it one?
pub fn y_bit(trit: Trit) -> u64
    ensures { result ≡ bit (y_of trit) }
{
    u64::from(matches!(trit, Trit::One))
}

// The numbers of the x and of the y of some constants, as `tv_lit` takes them.
#[derive(Clone, Copy)]
pub struct Const {
    pub x: u64,
    pub y: u64,
}

// n constants from a place on, the first 64 of them where there are more: a literal has at most 64 bits.
pub fn constants(words: &[u32], at: u32, n: u32) -> Const
    ensures numbers { (result.x ≡ packed x_of words.now (min n 64) at)
        × (result.y ≡ packed y_of words.now (min n 64) at) }
    ensures literal { n ≤ 64 → Packed words.now n at result.x result.y }
{
    let mut x: u64 = 0;
    let mut y: u64 = 0;
    for i in (0..n.min(64)).rev() {
        let trit = trit_at(words, at as usize + i as usize);
        x = 2 * x + x_bit(trit);
        y = 2 * y + y_bit(trit);
    }
    Const { x, y }
}
