// The script writer: a call list and the names that its recorded marks ask for, as SMT-LIB text in a lent slice of
// bytes. Each function writes a part from a place on and gives the next place; past the slice's end it only counts.
#![tactic(auto)]

ghost use Rattle.std.specs.Prelude.{◌≡◌, [], ◌+◌, length};
ghost use Rattle.engine.specs.Encode.{decode};
ghost use Rattle.text.specs.Names.{asked_names};
ghost use Rattle.engine.specs.Emit.{Wrote, counted};
ghost use Rattle.call_list.specs.Made.{made};
ghost use Rattle.script.specs.Text.{lines, script};
ghost use Rattle.script.specs.Walk.{gap_for, HasTables, HasNames};
ghost use Rattle.script.specs.Written.{script_of, room_for, marked, written, Scripted};

use call_list::Cursor;
use logic::Fault;
use term_table::Tables;

// Writes the lines of a well-formed call list, with tables of the places of every `gap + 1`th term and of the sorts of
// the first terms and of the latest.
fn put_records(
    text: &mut [u8],
    start: usize,
    calls: &[u32],
    places: &[u32],
    gap: u32,
    sorts: &[u8],
    recent: &mut [u8],
) -> usize
    requires { HasTables gap calls.now places.now sorts.now }
    ensures { Wrote text.old start (lines [] (decode calls.now)) text.new result }
{
    let mut at = start;
    let mut seen = Cursor {
        at: 0,
        terms: 0,
        declared: 0,
    };
    while seen.at < calls.len() {
        let tables = Tables {
            calls,
            sorts,
            recent,
            places,
            gap,
        };
        at = lines::put_record(text, at, &tables, seen);
        term_table::note_recent(calls, sorts, recent, places, gap, seen.at, seen.terms);
        seen = call_list::next(calls, seen);
    }
    at
}

// Writes the script of a well-formed call list.
fn put_script(
    text: &mut [u8],
    calls: &[u32],
    places: &[u32],
    gap: u32,
    sorts: &[u8],
    recent: &mut [u8],
    recorded: &[u8],
) -> usize
    requires { HasTables gap calls.now places.now sorts.now }
    ensures { Wrote text.old 0
        (script (decode calls.now) (asked_names recorded.now)) text.new result }
{
    let lines = text::put_bytes(
        text,
        0,
        b"(set-option :produce-models true)\n(set-logic QF_BV)\n",
    );
    let ending = put_records(text, lines, calls, places, gap, sorts, recent);
    asked::put_ending(text, ending, calls, recorded)
}

// How many bytes a script has: it is written into a text of one byte, past which writing only counts.
fn script_length(
    calls: &[u32],
    places: &[u32],
    gap: u32,
    sorts: &[u8],
    recent: &mut [u8],
    recorded: &[u8],
) -> usize
    requires { HasTables gap calls.now places.now sorts.now }
    ensures { result ≡ counted (0 + length (script_of calls.now recorded.now)) }
{
    let mut trial = [0u8; 1];
    put_script(&mut trial, calls, places, gap, sorts, recent, recorded)
}

// Writes the script of a well-formed call list whose marks stand, if the text has room.
fn write_fitting(
    calls: &[u32],
    places: &[u32],
    gap: u32,
    sorts: &[u8],
    recent: &mut [u8],
    recorded: &[u8],
    text: &mut [u8],
) -> Result<usize, Fault>
    requires { HasTables gap calls.now places.now sorts.now }
    ensures { Scripted calls.now recorded.now text.old text.new result
        (room_for (length (script_of calls.now recorded.now)) (length text.old)) }
{
    let needed = script_length(calls, places, gap, sorts, recent, recorded);
    if text.len() < needed {
        return Err(Fault {
            number: 15,
            place: needed,
        });
    }
    Ok(put_script(text, calls, places, gap, sorts, recent, recorded))
}

// Writes the script of a well-formed call list, if its marks stand and the text has room.
fn write_marked(
    calls: &[u32],
    places: &[u32],
    gap: u32,
    sorts: &[u8],
    recent: &mut [u8],
    names: &[u8],
    recorded: &[u8],
    text: &mut [u8],
) -> Result<usize, Fault>
    requires { HasTables gap calls.now places.now sorts.now × HasNames calls.now names.now }
    ensures { Scripted calls.now recorded.now text.old text.new result
        (marked calls.now recorded.now (length text.old)) }
{
    if let Some(slot) = asked::bad_mark(calls, names, recorded) {
        return Err(Fault {
            number: 2,
            place: slot,
        });
    }
    write_fitting(calls, places, gap, sorts, recent, recorded, text)
}

// How many terms a call list makes.
fn terms_in(calls: &[u32]) -> usize
    ensures { result ≡ length (made (decode calls.now)) }
{
    let mut seen = Cursor {
        at: 0,
        terms: 0,
        declared: 0,
    };
    while seen.at < calls.len() {
        seen = call_list::next(calls, seen);
    }
    seen.terms
}

// How many terms to leave out between two whose places are noted: none where a table has room for the places of all.
fn gap_for(calls: &[u32], places: usize) -> u32
    ensures { result ≡ gap_for calls.now places }
{
    if terms_in(calls) <= places {
        0
    } else {
        term_places::gap_of(calls, places)
    }
}

// Writes the script of a call list and its recorded marks into a lent text (faults 19, 2 and 15), with tables for the
// places of every `gap + 1`th term, the sorts of the first terms and of the latest and the names of low indexes; what
// they hold afterwards is free.
#[tactic(auto, unfolding(crate::specs::Written::written))]
fn write_script_by(
    calls: &[u32],
    recorded: &[u8],
    text: &mut [u8],
    places: &mut [u32],
    gap: u32,
    sorts: &mut [u8],
    recent: &mut [u8],
    names: &mut [u8],
) -> Result<usize, Fault>
    ensures { Scripted calls.now recorded.now text.old text.new result
        (written calls.now recorded.now (length text.old)) }
{
    checker::check_by(calls, places, gap, sorts, recent, names).map_err(|place| Fault {
        number: 19,
        place,
    })?;
    write_marked(calls, places, gap, sorts, recent, names, recorded, text)
}

// Writes the script of a call list and its recorded marks into a lent text: 19 for a malformed list, then 2, then 15 at
// the room needed. The caller lends tables for the places of terms, the sorts of the first terms and the names of low
// indexes; what they hold afterwards is free.
pub fn write_script_with(
    calls: &[u32],
    recorded: &[u8],
    text: &mut [u8],
    places: &mut [u32],
    sorts: &mut [u8],
    names: &mut [u8],
) -> Result<usize, Fault>
    ensures { Scripted calls.now recorded.now text.old text.new result
        (written calls.now recorded.now (length text.old)) }
{
    let mut recent = [0u8; 256];
    let gap = gap_for(calls, places.len());
    write_script_by(
        calls,
        recorded,
        text,
        places,
        gap,
        sorts,
        &mut recent,
        names,
    )
}

// Writes the script of a call list and its recorded marks into a lent text: 19 for a malformed list, then 2, then 15 at
// the room needed.
pub fn write_script(calls: &[u32], recorded: &[u8], text: &mut [u8]) -> Result<usize, Fault>
    ensures { Scripted calls.now recorded.now text.old text.new result
        (written calls.now recorded.now (length text.old)) }
{
    let mut places = [0u32; 12288];
    let gap = gap_for(calls, 12288);
    let mut sorts = [0u8; 32768];
    let mut recent = [0u8; 4096];
    let mut names = [0u8; 36864];
    write_script_by(
        calls,
        recorded,
        text,
        &mut places,
        gap,
        &mut sorts,
        &mut recent,
        &mut names,
    )
}
