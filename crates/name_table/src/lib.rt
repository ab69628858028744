// The names that a call list declares: a table with a byte for each name of a low index, past which the records
// themselves are searched.
#![tactic(auto)]

ghost use Rattle.std.specs.Prelude.{◌≡◌, ◌&&◌, ℕ, min, length, get_or, set};
ghost use Rattle.engine.specs.WellFormed.{is_number};
ghost use Rattle.engine.specs.Structure.{declares_at, declared_before};
ghost use Rattle.name_table.specs.Names.{at_most, slot_of, name_entry, top_of, search_below, known_by, note_name};
ghost use Rattle.name_table.specs.Names.{note_top};

// Whether the record at a place declares the name that three words spell.
fn declares_at(calls: &[u32], at: usize, letter: u32, index: u32, suffix: u32) -> bool
    ensures { result ≡ declares_at calls.now at letter index suffix }
{
    call_list::is_declare(call_list::operation_at(calls, at))
        && call_list::argument_word(calls, at, 0) == letter
        && call_list::argument_word(calls, at, 1) == index
        && call_list::argument_word(calls, at, 2) == suffix
}

// Whether a record that begins before a place declares that name.
pub fn declared_before(calls: &[u32], end: usize, letter: u32, index: u32, suffix: u32) -> bool
    ensures { result ≡ declared_before calls.now (min end (length calls.now)) letter index suffix }
{
    let mut at = 0;
    while at < calls.len() {
        if end <= at {
            return false;
        }
        if declares_at(calls, at, letter, index, suffix) {
            return true;
        }
        at = call_list::next_record(calls, at);
    }
    false
}

// Where a name stands in the table of names, by the numbers of its letter, index and suffix.
pub fn name_slot(letter: u32, index: u32, suffix: u32) -> usize
    ensures { result ≡ slot_of letter index suffix }
{
    9 * index as usize + 3 * letter as usize + suffix as usize
}

// What the table has of a name: 1 where it was declared, 0 where it was not, 2 beyond the table.
pub fn name_entry(names: &[u8], letter: u32, index: usize, suffix: u32) -> u32
    ensures { result ≡ name_entry names.now letter index suffix }
{
    if index < 4294967296 {
        let slot = name_slot(letter, index as u32, suffix);
        if slot < names.len() {
            return names[slot] as u32;
        }
        return 2;
    }
    2
}

// Whether three words can spell a name.
fn spells_name(letter: u32, index: u32, suffix: u32) -> bool
    ensures { result ≡ (at_most letter 2 && at_most suffix 2 && is_number index) }
{
    arguments::number_at_most(letter, 2)
        && arguments::number_at_most(suffix, 2)
        && logic::kind(index) == 3
}

// One more than the highest index declared so far of a letter and suffix.
fn top_of(tops: &[u32], letter: u32, suffix: u32) -> u32
    ensures { result ≡ top_of tops.now letter suffix }
{
    logic::word_at(tops, 3 * letter as usize + suffix as usize)
}

// Whether a record before a place declares that name, which only one of an index below the highest can be.
fn is_searched(calls: &[u32], tops: &[u32], at: usize, letter: u32, index: u32, suffix: u32) -> bool
    ensures { result ≡ search_below tops.now calls.now at letter index suffix }
{
    logic::payload(index) < top_of(tops, logic::payload(letter), logic::payload(suffix))
        && declared_before(calls, at, letter, index, suffix)
}

// Whether three words spell a name that a record before a place declares: from the table, beyond it by the records.
pub fn name_known(
    calls: &[u32],
    names: &[u8],
    tops: &[u32],
    at: usize,
    letter: u32,
    index: u32,
    suffix: u32,
) -> bool
    ensures { result ≡ known_by names.now tops.now calls.now
        at letter index suffix }
{
    if spells_name(letter, index, suffix) {
        let noted = name_entry(
            names,
            logic::payload(letter),
            logic::payload(index) as usize,
            logic::payload(suffix),
        );
        if noted == 2 {
            return is_searched(calls, tops, at, letter, index, suffix);
        }
        return noted == 1;
    }
    false
}

// A byte stored at a place of a table; past its end nothing changes.
fn put_byte(table: &mut [u8], at: usize, byte: u8)
    ensures { table.new ≡ set table.old at byte }
{
    if at < table.len() {
        table[at] = byte;
    }
}

// The name that a record declares goes into the table.
pub fn note_name(calls: &[u32], names: &mut [u8], at: usize)
    ensures { names.new ≡ note_name names.old calls.now at }
{
    if call_list::is_declare(call_list::operation_at(calls, at)) {
        let slot = name_slot(
            call_list::argument_at(calls, at, 0),
            call_list::argument_at(calls, at, 1),
            call_list::argument_at(calls, at, 2),
        );
        put_byte(names, slot, 1);
    }
}

// Clears the table: no name is declared.
pub fn clear_names(names: &mut [u8])
    ensures { (k : ℕ) → get_or names.new k 0 ≡ 0 }
{
    names.fill(0);
}

// The highest index of a letter and suffix goes up with the name that a record declares.
pub fn note_top(calls: &[u32], tops: &mut [u32], at: usize)
    ensures { tops.new ≡ note_top tops.old calls.now at }
{
    if call_list::is_declare(call_list::operation_at(calls, at)) {
        let letter = call_list::argument_at(calls, at, 0);
        let top = call_list::argument_at(calls, at, 1) + 1;
        let suffix = call_list::argument_at(calls, at, 2);
        if top_of(tops, letter, suffix) < top {
            logic::put(tops, 3 * letter as usize + suffix as usize, top);
        }
    }
}
