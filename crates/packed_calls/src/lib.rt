// What checker, evaluator, writer and answer reader say, packed into one word of 64 bits. Where a caller lends tables,
// what they hold afterwards is free.
#![tactic(auto)]

ghost use Rattle.std.specs.Prelude.{◌≡◌};
ghost use Rattle.packed_calls.specs.Packed.{PackedCheck, checked_of, packed_evaluation, PackedEvaluation};
ghost use Rattle.packed_calls.specs.Packed.{packed_written, PackedScript, PackedAnswer};

use answer::Answer;
use checker::Counts;
use logic::Fault;

// ---- the checker

// Packs what the checker says, and stores the numbers of terms and of declared names.
fn packed_check(checked: Result<Counts, usize>, sizes: &mut [u64]) -> u64
    ensures { PackedCheck checked sizes.old sizes.new result }
{
    match checked {
        Err(place) => packing::packed_fault(Fault { number: 19, place }),
        Ok(Counts { terms, declared }) => {
            if sizes.len() < 2 {
                return packing::packed_fault(Fault {
                    number: 14,
                    place: 2,
                });
            }
            sizes[0] = terms as u64;
            sizes[1] = declared as u64;
            (terms % 281474976710656) as u64
        }
    }
}

// Checks a call list: 19 and its place, or 0 and the number of terms, which goes into a slice with that of the declared
// names.
pub fn check(calls: &[u32], sizes: &mut [u64]) -> u64
    ensures { PackedCheck (checked_of calls.now) sizes.old sizes.new result }
{
    packed_check(checker::check(calls), sizes)
}

// The same with lent tables.
pub fn check_with(calls: &[u32], sizes: &mut [u64], sorts: &mut [u8], names: &mut [u8]) -> u64
    ensures { PackedCheck (checked_of calls.now) sizes.old sizes.new result }
{
    let mut places = [0u32; 128];
    let mut recent = [0u8; 256];
    let gap = term_places::gap_of(calls, 128);
    packed_check(
        checker::check_by(calls, &mut places, gap, sorts, &mut recent, names),
        sizes,
    )
}

// ---- the evaluator

fn packed_evaluation(answer: Result<usize, Fault>) -> u64
    ensures { result ≡ packed_evaluation answer }
{
    match answer {
        Err(f) => packing::packed_fault(f),
        Ok(falses) => (falses % 281474976710656) as u64,
    }
}

// Evaluates a call list: the fault's number and place, or 0 and the number of false assertions.
pub fn evaluate(calls: &[u32], bits: &[u64], values: &mut [u64]) -> u64
    ensures { PackedEvaluation calls.now bits.now values.old values.new result }
{
    packed_evaluation(eval::evaluate(calls, bits, values))
}

// The same with lent tables.
pub fn evaluate_with(
    calls: &[u32],
    bits: &[u64],
    values: &mut [u64],
    sorts: &mut [u8],
    names: &mut [u8],
) -> u64
    ensures { PackedEvaluation calls.now bits.now values.old values.new result }
{
    packed_evaluation(eval::evaluate_with(calls, bits, values, sorts, names))
}

// ---- the writer

fn packed_written(answer: Result<usize, Fault>) -> u64
    ensures { result ≡ packed_written answer }
{
    match answer {
        Err(f) => packing::packed_fault(f),
        Ok(bytes) => (bytes % 281474976710656) as u64,
    }
}

// Writes a script: the fault's number and place, or 0 and the number of bytes.
pub fn script(calls: &[u32], recorded: &[u8], text: &mut [u8]) -> u64
    ensures { PackedScript calls.now recorded.now text.old text.new result }
{
    packed_written(script::write_script(calls, recorded, text))
}

// The same with lent tables.
pub fn script_with(
    calls: &[u32],
    recorded: &[u8],
    text: &mut [u8],
    places: &mut [u32],
    sorts: &mut [u8],
    names: &mut [u8],
) -> u64
    ensures { PackedScript calls.now recorded.now text.old text.new result }
{
    packed_written(script::write_script_with(calls, recorded, text, places, sorts, names))
}

// ---- the answer reader

// Reads a solver's answer: the fault's number and place, or 0 for unsat and 1 for sat.
pub fn answer(text: &[u8], recorded: &[u8], trits: &mut [u8]) -> u64
    ensures { PackedAnswer text.now recorded.now trits.old trits.new result }
{
    match answer::read_answer(text, recorded, trits) {
        Ok(Answer::Unsat) => 0,
        Ok(Answer::Sat) => 1,
        Err(f) => packing::packed_fault(f),
    }
}
