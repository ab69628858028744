// The places of a call list's terms: a table has that of the record of every `gap + 1`th term, from which the record of
// a term after it is counted on.
#![tactic(auto)]

ghost use Rattle.std.specs.Prelude.{◌≡◌, length};
ghost use Rattle.term_places.specs.Places.{place_near, gap_of, note_place};

use logic::Term;

// The place of the record that makes a term: from the table of places, which has that of every `gap + 1`th term, or
// counted on from the one before it. A table of words has the places of a list of at most 2^32 words.
pub fn near_place(calls: &[u32], places: &[u32], gap: u32, k: u32) -> usize
    ensures { result ≡ place_near places.now gap calls.now k }
{
    let step = gap as usize + 1;
    let slot = k as usize / step;
    if calls.len() <= 4294967296 && slot < places.len() {
        let from = logic::word_at(places, slot) as usize;
        let left = (k as usize % step) as u32;
        if left == 0 {
            return from;
        }
        return call_list::place_from(calls, from, left);
    }
    call_list::place_of_term(calls, Term(k))
}

// How many terms to leave out between two whose places are noted, with room for so many places. A record that makes a
// term has at least two words, so that the table reaches to the end of the list.
pub fn gap_of(calls: &[u32], places: usize) -> u32
    ensures { result ≡ gap_of (length calls.now) places }
{
    if places == 0 {
        return 0;
    }
    (calls.len() / places / 2 % 4294967296) as u32
}

// The place of the record that makes a term goes into the table of places, if it is the term's turn: of every `gap +
// 1`th.
pub fn note_place(calls: &[u32], places: &mut [u32], gap: u32, at: usize, terms: usize)
    ensures { places.new ≡ note_place places.old gap calls.now at terms }
{
    if call_list::makes_term(call_list::operation_at(calls, at)) {
        let step = gap as usize + 1;
        if terms % step == 0 {
            logic::put(places, terms / step, (at % 4294967296) as u32);
        }
    }
}
