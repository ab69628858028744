// Replays the stored lists of the oracle, and those of docs/DIVISIONS.md, through `verify` (tests/verify_lists.py). An
// accepted list is a word 0, the mode, its lengths D, C and M, then D words of the list, and of the oracle or that page
// C call words and M marks; a refused one is a word 1, the mode, D, the fault's number and place, then D words. Each
// lent slice is filled first, and compared whole. The last line counts the lists that are answered as stored.
#![tactic(auto)]

use logic::Fault;
use requirement::Verified;

// The file descriptor of standard output.
const STDOUT_FILENO: i32 = 1;

// Stands in a slice before `verify` writes there.
const UNTOUCHED_WORD: u32 = 2779096485;

const UNTOUCHED_MARK: u8 = 165;

// The head of a check record.
const CHECK: u32 = 1073741847;

// Whether a slice has the n stored words and is untouched past them.
fn holds_words(slice: &[u32], stored: &[u32], n: usize) -> bool {
    for (at, word) in slice.iter().enumerate() {
        let expected = if at < n {
            logic::word_at(stored, at)
        } else {
            UNTOUCHED_WORD
        };
        if *word != expected {
            return false;
        }
    }
    true
}

// Whether a recorded slice has the n stored marks and is untouched past them.
fn holds_marks(slice: &[u8], stored: &[u32], n: usize) -> bool {
    for (at, mark) in slice.iter().enumerate() {
        let expected = if at < n {
            logic::word_at(stored, at)
        } else {
            u32::from(UNTOUCHED_MARK)
        };
        if u32::from(*mark) != expected {
            return false;
        }
    }
    true
}

// Whether a stored call list ends in a check.
fn ends_in_check(stored: &[u32], n: usize) -> bool {
    0 < n && logic::word_at(stored, n - 1) == CHECK
}

// Whether an answer says that something is asked just where it should, and counts n words.
fn tells(answer: Result<Verified, Fault>, asked: bool, n: usize) -> bool {
    match answer {
        Err(_) => false,
        Ok(Verified::NothingAsked(c)) => !asked && c.words == n,
        Ok(Verified::Asked(c)) => asked && c.words == n,
    }
}

// Whether a list is accepted with the stored call words and marks.
fn accepted_as_stored(
    mode: u32,
    list: &[u32],
    stored: &[u32],
    words: usize,
    stored_marks: &[u32],
    slots: usize,
) -> bool {
    let mut calls = [UNTOUCHED_WORD; 4096];
    let mut recorded = [UNTOUCHED_MARK; 4096];
    let answer = design::verify(mode, list, &mut calls, &mut recorded);
    tells(answer, ends_in_check(stored, words), words)
        && holds_words(&calls, stored, words)
        && holds_marks(&recorded, stored_marks, slots)
}

// Whether a list is refused with the stored number and place, and both slices are untouched.
fn refused_as_stored(mode: u32, list: &[u32], number: u32, place: u32) -> bool {
    let mut calls = [UNTOUCHED_WORD; 4096];
    let mut recorded = [UNTOUCHED_MARK; 4096];
    match design::verify(mode, list, &mut calls, &mut recorded) {
        Err(f) => {
            f.number == number
                && f.place == place as usize
                && holds_words(&calls, list, 0)
                && holds_marks(&recorded, list, 0)
        }
        Ok(_) => false,
    }
}

// Replays an accepted list.
fn replay_accepted(mode: u32) -> bool {
    let d = word_input::word_or_zero() as usize;
    let words = word_input::word_or_zero() as usize;
    let slots = word_input::word_or_zero() as usize;
    let mut list = [0u32; 4096];
    let mut stored = [0u32; 4096];
    let mut marks = [0u32; 4096];
    word_input::load(&mut list, d);
    word_input::load(&mut stored, words);
    word_input::load(&mut marks, slots);
    if d <= 4096 {
        return accepted_as_stored(mode, &list[..d], &stored, words, &marks, slots);
    }
    false
}

// Replays a refused list.
fn replay_refused(mode: u32) -> bool {
    let d = word_input::word_or_zero() as usize;
    let number = word_input::word_or_zero();
    let place = word_input::word_or_zero();
    let mut list = [0u32; 4096];
    word_input::load(&mut list, d);
    if d <= 4096 {
        return refused_as_stored(mode, &list[..d], number, place);
    }
    false
}

// Replays the next list of a kind.
fn replay(kind: u32) -> bool {
    let mode = word_input::word_or_zero();
    if kind == 0 {
        return replay_accepted(mode);
    }
    replay_refused(mode)
}

// The line of a list that is not answered as stored.
fn show_difference(number: u32) {
    io::write_all(STDOUT_FILENO, b"list ");
    io::print_decimal(STDOUT_FILENO, number as u64);
    io::write_all(STDOUT_FILENO, b" differs\n");
}

// How many of the lists of the input are answered as stored.
fn replay_all() -> u32 {
    let mut same: u32 = 0;
    for number in 0..1000 {
        match word_input::next_word() {
            None => {
                return same;
            }
            Some(kind) => {
                if replay(kind) {
                    same += 1;
                } else {
                    show_difference(number);
                }
            }
        }
    }
    same
}

fn main() {
    let same = replay_all();
    io::print_decimal(STDOUT_FILENO, same as u64);
    io::write_all(STDOUT_FILENO, b" lists as stored\n");
}
