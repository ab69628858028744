// Reading a solver's reply token by token: its first word, and the pairs of names and values after sat.
#![tactic(auto)]

ghost use Rattle.std.specs.Prelude.{◌≡◌, List, ◌≤◌, length};
ghost use Rattle.std.proofs.Math.Seq.{slice};
ghost use Rattle.engine.specs.Call.{Name};
ghost use Rattle.tokens.specs.Token.{tokens_of};
ghost use Rattle.tokens.specs.Place.{tokens_from};
ghost use Rattle.reply.specs.Reply.{same, expect_spelled, expect_name, value, pair_spelled, ended, reply};
ghost use Rattle.reply.specs.Step.{end_result, step_result, value_result, slot_pair, trit, entry_of};
ghost use Rattle.reply.specs.Step.{reply_after};

use logic::Fault;
use tokens::Span;

// The answer's first token: after sat, the place where the rest starts.
#[derive(Clone, Copy)]
pub enum Verdict {
    Unsat,
    Sat(usize),
}

// The refusal of a token that is none of those that may stand at its place, which is 0 where the text ends early.
fn unreadable(place: usize) -> Fault
    ensures { result ≡ record { number = 16; place = place } }
{
    Fault { number: 16, place }
}

// Is a token of the text spelled as a word?
fn token_is(text: &[u8], token: Span, word: &[u8]) -> bool
    requires { (token.start ≤ token.end) × (token.end ≤ length text.now) }
    ensures { result ≡ same (slice token.start token.end text.now) word.now }
{
    &text[token.start..token.end] == word
}

// Reads a token of one spelling, and gives the place after it.
pub fn expect_word(text: &[u8], at: usize, word: &[u8]) -> Result<usize, Fault>
    ensures { expect_spelled word.now (tokens_from text.now at)
        ≡ step_result text.now result }
{
    let token = tokens::next_token(text, at).ok_or(unreadable(0))?;
    if !token_is(text, token, word) {
        return Err(unreadable(token.start));
    }
    Ok(token.end)
}

// Reads the name asked, and gives the place after it.
fn expect_name(text: &[u8], at: usize, name: &[u8]) -> Result<usize, Fault>
    ensures { expect_name name.now (tokens_from text.now at)
        ≡ step_result text.now result }
{
    let token = tokens::next_token(text, at).ok_or(unreadable(0))?;
    if token_is(text, token, name) {
        return Ok(token.end);
    }
    if token_is(text, token, b"(") || token_is(text, token, b")") {
        return Err(unreadable(token.start));
    }
    Err(Fault {
        number: 17,
        place: token.start,
    })
}

// Reads #b0 or #b1, and gives the bit and the place after it.
fn value_at(text: &[u8], at: usize) -> Result<(bool, usize), Fault>
    ensures { value (tokens_from text.now at) ≡ value_result text.now result }
{
    let token = tokens::next_token(text, at).ok_or(unreadable(0))?;
    if token_is(text, token, b"#b0") {
        return Ok((false, token.end));
    }
    if token_is(text, token, b"#b1") {
        return Ok((true, token.end));
    }
    Err(unreadable(token.start))
}

// Reads a pair: a name that is spelled as asked, and its value.
#[tactic(auto, unfolding(crate::specs::Reply::pair_spelled))]
fn pair_at(text: &[u8], at: usize, name: &[u8]) -> Result<(bool, usize), Fault>
    ensures { pair_spelled name.now (tokens_from text.now at)
        ≡ value_result text.now result }
{
    let named = expect_word(text, at, b"(")?;
    let valued = expect_name(text, named, name)?;
    let (bit, closing) = value_at(text, valued)?;
    let next = expect_word(text, closing, b")")?;
    Ok((bit, next))
}

// Reads the pair of a slot's name.
fn slot_pair_at(
    text: &[u8],
    at: usize,
    letter: u8,
    slot: usize,
    suffix: u8,
) -> Result<(bool, usize), Fault>
    ensures { slot_pair letter slot suffix (tokens_from text.now at)
        ≡ value_result text.now result }
{
    let mut name = [0u8; 24];
    let n = text::put_name(&mut name, 0, letter, slot, suffix);
    pair_at(text, at, &name[..n])
}

// Reads the two pairs of a slot: x, then y, which an x of 1 hides. Gives the number of its readback and the place after
// them.
#[tactic(auto, unfolding(crate::specs::Step::trit))]
fn trit_at(text: &[u8], at: usize, letter: u8, slot: usize) -> Result<(u8, usize), Fault>
    ensures { trit letter slot (tokens_from text.now at) ≡ value_result text.now result }
{
    let (x, second) = slot_pair_at(text, at, letter, slot, b'x')?;
    let (y, next) = slot_pair_at(text, second, letter, slot, b'y')?;
    Ok((
        logic::readback_number(Some(logic::trit_of_bits(x, y))),
        next,
    ))
}

// Reads what a slot's mark asks for, if anything: the number of its readback, and the place after it.
#[tactic(auto, unfolding(crate::specs::Step::entry_of))]
pub fn entry_at(text: &[u8], at: usize, slot: usize, mark: u8) -> Result<(u8, usize), Fault>
    ensures { entry_of slot mark (tokens_from text.now at) ≡ value_result text.now result }
{
    match mark {
        1 => trit_at(text, at, b'n', slot),
        2 => trit_at(text, at, b'p', slot),
        _ => Ok((logic::readback_number(None), at)),
    }
}

// The text ends: no token is left.
pub fn end_at(text: &[u8], at: usize) -> Result<(), Fault>
    ensures { ended (tokens_from text.now at) ≡ end_result result }
{
    match tokens::next_token(text, at) {
        Some(token) => Err(unreadable(token.start)),
        None => Ok(()),
    }
}

// Reads the answer's first token.
#[tactic(auto, unfolding(crate::specs::Reply::reply, tokens::specs::Place::tokens_from))]
pub fn verdict_of(text: &[u8]) -> Result<Verdict, Fault>
    ensures { (names : List Name)
        → reply names (tokens_of text.now) ≡ reply_after text.now names result }
{
    let token = tokens::next_token(text, 0).ok_or(unreadable(0))?;
    if token_is(text, token, b"sat") {
        return Ok(Verdict::Sat(token.end));
    }
    if token_is(text, token, b"unsat") {
        return Ok(Verdict::Unsat);
    }
    if token_is(text, token, b"unknown") {
        return Err(Fault {
            number: 18,
            place: token.start,
        });
    }
    Err(unreadable(token.start))
}
