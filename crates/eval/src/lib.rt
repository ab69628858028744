// The evaluator of a call list (faults 19 and 20), total on every list of words.
#![tactic(auto)]

ghost use Rattle.std.specs.Prelude.{◌≡◌, ◌<◌, map, length};
ghost use Rattle.engine.specs.Encode.{decode};
ghost use Rattle.engine.specs.Emit.{overwrite};
ghost use Rattle.engine.specs.Meaning.{value_at};
ghost use Rattle.term_values.specs.Values.{value_number};
ghost use Rattle.eval.specs.Evaluated.{false_assertions, term_values, answer, values_after};
ghost use Rattle.eval.specs.Evaluable.{Evaluable};

use call_list::Cursor;
use logic::Fault;
use term_table::Tables;

// The numbers of all terms go into the slice, and how many assertions are false is counted; with tables of the sorts
// and places.
fn evaluate_records(
    calls: &[u32],
    bits: &[u64],
    values: &mut [u64],
    sorts: &[u8],
    recent: &mut [u8],
    places: &[u32],
    gap: u32,
) -> usize
    requires { Evaluable gap calls.now bits.now values.old sorts.now places.now }
    ensures { (values.new
        ≡ overwrite values.old 0 (map value_number (term_values calls.now bits.now)))
        × (result ≡ false_assertions (value_at (term_values calls.now bits.now))
        (decode calls.now)) }
{
    let mut done = Cursor {
        at: 0,
        terms: 0,
        declared: 0,
    };
    let mut falses = 0;
    while done.at < calls.len() {
        let operation = call_list::operation_at(calls, done.at);
        let asserted = term_values::number_at(
            values,
            call_list::argument_at(calls, done.at, 0) as usize,
        );
        let given = term_values::number_at(bits, done.declared);
        falses += record_values::false_of(operation, asserted);
        let tables = Tables {
            calls,
            sorts,
            recent,
            places,
            gap,
        };
        record_values::write_value(&tables, values, done.terms, given, done.at);
        term_table::note_recent(calls, sorts, recent, places, gap, done.at, done.terms);
        done = call_list::next(calls, done);
    }
    falses
}

// The number of every term under the bits of the declared names, and how many assertions are false (faults 19 and 20),
// with tables for the sorts of the first terms and of the latest, the places of every `gap + 1`th term and the names of
// low indexes; what they hold afterwards is free.
fn evaluate_by(
    calls: &[u32],
    bits: &[u64],
    values: &mut [u64],
    sorts: &mut [u8],
    recent: &mut [u8],
    places: &mut [u32],
    gap: u32,
    names: &mut [u8],
) -> Result<usize, Fault>
    ensures { (result ≡ answer calls.now bits.now (length values.old))
        × (values.new ≡ values_after result calls.now bits.now values.old) }
{
    let made = checker::check_by(calls, places, gap, sorts, recent, names).map_err(|place| Fault {
        number: 19,
        place,
    })?;
    if let Some(place) = bits_given::bits_fault(calls, bits) {
        return Err(Fault { number: 20, place });
    }
    let room = values.len();
    if room < made.terms {
        return Err(Fault {
            number: 20,
            place: room,
        });
    }
    Ok(evaluate_records(calls, bits, values, sorts, recent, places, gap))
}

// The same with a ring of so many sorts and a table of so many places of its own.
fn evaluate_in<const RECENT: usize, const PLACES: usize>(
    calls: &[u32],
    bits: &[u64],
    values: &mut [u64],
    sorts: &mut [u8],
    names: &mut [u8],
) -> Result<usize, Fault>
    requires { (RECENT < 65536) × (PLACES < 65536) }
    ensures { (result ≡ answer calls.now bits.now (length values.old))
        × (values.new ≡ values_after result calls.now bits.now values.old) }
{
    let mut recent = [0u8; RECENT];
    let mut places = [0u32; PLACES];
    let gap = term_places::gap_of(calls, PLACES);
    evaluate_by(
        calls,
        bits,
        values,
        sorts,
        &mut recent,
        &mut places,
        gap,
        names,
    )
}

// The number of every term under the bits of the declared names, and how many assertions are false (faults 19 and 20),
// with tables that the caller lends for the sorts of the first terms and the names of low indexes; what they hold
// afterwards is free.
pub fn evaluate_with(
    calls: &[u32],
    bits: &[u64],
    values: &mut [u64],
    sorts: &mut [u8],
    names: &mut [u8],
) -> Result<usize, Fault>
    ensures { (result ≡ answer calls.now bits.now (length values.old))
        × (values.new ≡ values_after result calls.now bits.now values.old) }
{
    evaluate_in::<256, 128>(calls, bits, values, sorts, names)
}

// The number of every term under the bits of the declared names, and how many assertions are false (faults 19 and 20).
pub fn evaluate(calls: &[u32], bits: &[u64], values: &mut [u64]) -> Result<usize, Fault>
    ensures { (result ≡ answer calls.now bits.now (length values.old))
        × (values.new ≡ values_after result calls.now bits.now values.old) }
{
    let mut sorts = [0u8; 40960];
    let mut names = [0u8; 64512];
    evaluate_in::<4096, 4096>(calls, bits, values, &mut sorts, &mut names)
}
