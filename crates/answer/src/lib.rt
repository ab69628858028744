// The answer reader: a solver's reply, read against the recorded marks into a lent table of trits.
#![tactic(auto, using(crate::proofs::ModelLaws::steps))]

ghost use Rattle.std.specs.Prelude.{◌≡◌};
ghost use Rattle.engine.specs.Emit.{overwrite};
ghost use Rattle.text.specs.Names.{asked_names};
ghost use Rattle.tokens.specs.Place.{tokens_from};
ghost use Rattle.reply.specs.Reply.{model};
ghost use Rattle.reply.specs.Step.{step_result};
ghost use Rattle.answer.specs.Reply.{bad_mark, Read};
ghost use Rattle.answer.specs.Model.{listed, Tabled};
ghost use Rattle.answer.specs.Entries.{entries, entries_written, forget, nothing};

use logic::Fault;
use reply::Verdict;

// What a solver said. After sat the table is written.
#[derive(Clone, Copy)]
pub enum Answer {
    Unsat,
    Sat,
}

// Reads the entries of all slots and gives the place after them.
fn scan_entries(text: &[u8], start: usize, recorded: &[u8]) -> Result<usize, Fault>
    ensures { forget (entries 0 recorded.now (tokens_from text.now start))
        ≡ step_result text.now result }
{
    let mut at = start;
    for (slot, mark) in recorded.iter().enumerate() {
        let (_, next) = reply::entry_at(text, at, slot, *mark)?;
        at = next;
    }
    Ok(at)
}

// Writes the entries of all slots; a fault, of which the scan would have told, ends it.
fn write_entries(text: &[u8], start: usize, recorded: &[u8], trits: &mut [u8])
    ensures { trits.new
        ≡ overwrite trits.old 0
        (entries_written 0 recorded.now (tokens_from text.now start)) }
{
    let mut at = start;
    for (slot, mark) in recorded.iter().enumerate() {
        let Ok((number, next)) = reply::entry_at(text, at, slot, *mark) else {
            return;
        };
        text::set_byte(trits, slot, number);
        at = next;
    }
}

// Does no mark ask for a name?
fn nothing_asked(recorded: &[u8]) -> bool
    ensures { result ≡ nothing (asked_names recorded.now) }
{
    recorded.iter().all(|mark| *mark != 1 && *mark != 2)
}

// The first mark above 2, if there is one.
fn bad_mark(recorded: &[u8]) -> Option<usize>
    ensures { result ≡ bad_mark 0 recorded.now }
{
    recorded.iter().position(|mark| 2 < *mark)
}

// Reads the pairs and the list's end, from the place of the first pair, which it gives back.
fn pairs_at(text: &[u8], first: usize, recorded: &[u8]) -> Result<usize, Fault>
    ensures { Tabled text.now recorded.now
        (listed (asked_names recorded.now) (tokens_from text.now first)) result }
{
    let closing = scan_entries(text, first, recorded)?;
    let last = reply::expect_word(text, closing, b")")?;
    reply::end_at(text, last)?;
    Ok(first)
}

// Reads what follows sat, and gives the place of the first pair.
fn model_at(text: &[u8], at: usize, recorded: &[u8]) -> Result<usize, Fault>
    ensures { Tabled text.now recorded.now
        (model (asked_names recorded.now) (tokens_from text.now at)) result }
{
    if nothing_asked(recorded) {
        reply::end_at(text, at)?;
        return Ok(at);
    }
    let first = reply::expect_word(text, at, b"(")?;
    pairs_at(text, first, recorded)
}

// Reads a solver's answer against the recorded marks. After sat the table has an entry for each mark; otherwise it
// stays as it was. A refusal has document 01's number and the place of the byte or mark at fault.
pub fn read_answer(text: &[u8], recorded: &[u8], trits: &mut [u8]) -> Result<Answer, Fault>
    ensures { Read text.now recorded.now trits.old trits.new result }
{
    if let Some(slot) = bad_mark(recorded) {
        return Err(Fault {
            number: 2,
            place: slot,
        });
    }
    if trits.len() < recorded.len() {
        return Err(Fault {
            number: 15,
            place: recorded.len(),
        });
    }
    match reply::verdict_of(text)? {
        Verdict::Unsat => Ok(Answer::Unsat),
        Verdict::Sat(at) => {
            let first = model_at(text, at, recorded)?;
            write_entries(text, first, recorded, trits);
            Ok(Answer::Sat)
        }
    }
}
