// What the recorded marks ask of a solver: whether the calls declare the names, and the text that asks for their
// values.
#![tactic(auto)]

ghost use Rattle.std.specs.Prelude.{◌≡◌, ◌++◌, map, ◌+◌, ◌<◌, length};
ghost use Rattle.engine.specs.Encode.{call_at, decode};
ghost use Rattle.engine.specs.Sorts as sorts;
ghost use Rattle.engine.specs.Sorts.{leaves};
ghost use Rattle.text.specs.Bytes.{ascii};
ghost use Rattle.text.specs.Names.{name_text, names_of_mark, spelling, asked_names};
ghost use Rattle.engine.specs.Emit.{Wrote};
ghost use Rattle.pieces.specs.Text.{spaced};
ghost use Rattle.asked.specs.Ending.{get_value, ending, checks, names_from, FirstAsked, values_text};
ghost use Rattle.asked.specs.Marks.{any, low_number, declares_name, declared_by, pair_by, stands_by, bad_by};

use pieces::Line;

// Whether the record at a place is a check.
fn checks_here(calls: &[u32], head: usize) -> bool
    ensures { result ≡ checks (call_at calls.now head) }
{
    matches!(
        pieces::line_of(call_list::operation_at(calls, head)),
        Line::Check
    )
}

// Whether a call list has a check.
fn has_check(calls: &[u32]) -> bool
    ensures { result ≡ (leaves sorts.start (decode calls.now)).checked }
{
    let mut head = 0;
    while head < calls.len() {
        if checks_here(calls, head) {
            return true;
        }
        head = call_list::next_record(calls, head);
    }
    false
}

// Writes the two names of a slot, x then y, with a space between them.
fn put_pair(text: &mut [u8], at: usize, letter: u8, slot: usize) -> usize
    ensures { Wrote text.old at
        (spelling letter slot 120 ++ (ascii " " ++ spelling letter slot 121)) text.new result }
{
    let space = text::put_name(text, at, letter, slot, b'x');
    put_second(text, space, letter, slot)
}

// Writes a space and a slot's y name.
fn put_second(text: &mut [u8], at: usize, letter: u8, slot: usize) -> usize
    ensures { Wrote text.old at (ascii " " ++ spelling letter slot 121) text.new result }
{
    let name = text::put_byte(text, at, b' ');
    text::put_name(text, name, letter, slot, b'y')
}

// Writes a space and the two names of a slot.
fn put_spaced_pair(text: &mut [u8], at: usize, letter: u8, slot: usize) -> usize
    ensures { Wrote text.old at
        (ascii " " ++ (spelling letter slot 120 ++ (ascii " " ++ spelling letter slot 121))) text.new result }
{
    let names = text::put_byte(text, at, b' ');
    put_pair(text, names, letter, slot)
}

// Writes the names that a slot's mark asks for, each after a space.
fn put_mark_names(text: &mut [u8], at: usize, slot: usize, mark: u8) -> usize
    ensures { Wrote text.old at
        (spaced (map name_text (names_of_mark slot mark))) text.new result }
{
    match mark {
        1 => put_spaced_pair(text, at, b'n', slot),
        2 => put_spaced_pair(text, at, b'p', slot),
        _ => at,
    }
}

// Writes the names that the marks from a slot on ask for, each after a space.
fn put_names(text: &mut [u8], start: usize, recorded: &[u8], first: usize) -> usize
    ensures { Wrote text.old start (names_from recorded.now first) text.new result }
{
    let mut at = start;
    for slot in first..recorded.len() {
        at = put_mark_names(text, at, slot, recorded[slot]);
    }
    at
}

// The first slot whose mark asks for names, or the number of marks.
fn first_asked(recorded: &[u8]) -> usize
    ensures { FirstAsked recorded.now result }
{
    for (slot, mark) in recorded.iter().enumerate() {
        if *mark == 1 || *mark == 2 {
            return slot;
        }
    }
    recorded.len()
}

// Writes the line that asks for values, from the first slot that is asked for.
fn put_values(text: &mut [u8], at: usize, letter: u8, recorded: &[u8], slot: usize) -> usize
    requires { slot < length recorded.now }
    ensures { Wrote text.old at
        (values_text letter slot (names_from recorded.now (slot + 1))) text.new result }
{
    let names = text::put_bytes(text, at, b"(get-value (");
    let rest = put_pair(text, names, letter, slot);
    let closing = put_names(text, rest, recorded, slot + 1);
    text::put_bytes(text, closing, b"))\n")
}

// Writes the line that asks for the values of the names asked, if there are any.
fn put_get_value(text: &mut [u8], at: usize, recorded: &[u8]) -> usize
    ensures { Wrote text.old at (get_value (asked_names recorded.now))
        text.new result }
{
    let slot = first_asked(recorded);
    if slot < recorded.len() {
        if recorded[slot] == 1 {
            return put_values(text, at, b'n', recorded, slot);
        }
        return put_values(text, at, b'p', recorded, slot);
    }
    at
}

// Writes what follows the calls' lines.
pub fn put_ending(text: &mut [u8], at: usize, calls: &[u32], recorded: &[u8]) -> usize
    ensures { Wrote text.old at
        (ending (leaves sorts.start (decode calls.now)).checked (asked_names recorded.now))
        text.new result }
{
    if has_check(calls) {
        return put_get_value(text, at, recorded);
    }
    text::put_bytes(text, at, b"; nothing asked\n")
}

// The number of a letter or a suffix, as a word has it.
fn low_number(number: u32) -> u32
    ensures { result ≡ low_number number }
{
    match number {
        1 => 1,
        2 => 2,
        _ => 0,
    }
}

// Whether the record at a place declares a name, by the numbers of its letter and suffix.
fn declares_here(calls: &[u32], head: usize, letter: u32, index: usize, suffix: u32) -> bool
    ensures { result ≡ declares_name letter index suffix (call_at calls.now head) }
{
    call_list::is_declare(call_list::operation_at(calls, head))
        && letter == low_number(call_list::argument_at(calls, head, 0))
        && index == call_list::argument_at(calls, head, 1) as usize
        && suffix == low_number(call_list::argument_at(calls, head, 2))
}

// Whether a call list declares a name, by its records.
fn is_declared(calls: &[u32], letter: u32, index: usize, suffix: u32) -> bool
    ensures { result ≡ any (declares_name letter index suffix) (decode calls.now) }
{
    let mut head = 0;
    while head < calls.len() {
        if declares_here(calls, head, letter, index, suffix) {
            return true;
        }
        head = call_list::next_record(calls, head);
    }
    false
}

// Whether a call list declares a name: by the table of its names, beyond it by its records.
fn is_known(calls: &[u32], names: &[u8], letter: u32, index: usize, suffix: u32) -> bool
    ensures { result ≡ declared_by names.now (decode calls.now) letter index suffix }
{
    let noted = name_table::name_entry(names, letter, index, suffix);
    if noted == 2 {
        is_declared(calls, letter, index, suffix)
    } else {
        noted == 1
    }
}

// Whether a call list declares both names of a slot.
fn is_pair_declared(calls: &[u32], names: &[u8], letter: u32, slot: usize) -> bool
    ensures { result ≡ pair_by (declared_by names.now (decode calls.now)) letter slot }
{
    is_known(calls, names, letter, slot, 1) && is_known(calls, names, letter, slot, 2)
}

// Whether a mark is none, or asks for names that the calls declare.
fn mark_stands(calls: &[u32], names: &[u8], slot: usize, mark: u8) -> bool
    ensures { result ≡ stands_by (declared_by names.now (decode calls.now)) slot mark }
{
    match mark {
        0 => true,
        1 => is_pair_declared(calls, names, 0, slot),
        2 => is_pair_declared(calls, names, 1, slot),
        _ => false,
    }
}

// The first mark that does not stand, with a table of the names that the calls declare.
pub fn bad_mark(calls: &[u32], names: &[u8], recorded: &[u8]) -> Option<usize>
    ensures { result ≡ bad_by (stands_by (declared_by names.now (decode calls.now))) 0 recorded.now }
{
    for (slot, mark) in recorded.iter().enumerate() {
        if !mark_stands(calls, names, slot, *mark) {
            return Some(slot);
        }
    }
    None
}
