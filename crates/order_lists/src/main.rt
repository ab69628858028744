// Orders the lists of standard input (tests/order_lists.py): each is the length of the slice that is lent, its own
// length and its words, little-endian. A line for each: `ordered N: SLOTS`, `looped N: SLOTS` or `refused N at P`, and
// `rest kept` where the slice stays past the slots, or whole after a refusal; else `rest changed`.
#![tactic(auto)]

use logic::Fault;
use ordering::Ordering;

// The file descriptor of standard output.
const STDOUT_FILENO: i32 = 1;

// Stands in a slice before `order` writes there.
const UNTOUCHED: u32 = 2779096485;

// Room for the longest list that is read.
fn room() -> [u32; 16400] {
    [0u32; 16400]
}

// Whether a slice is untouched from a place on.
fn untouched(slice: &[u32], start: usize) -> bool {
    slice.iter().skip(start).all(|word| *word == UNTOUCHED)
}

// The end of a line: whether the slice is untouched from a place on.
fn show_rest(slice: &[u32], start: usize) {
    if untouched(slice, start) {
        io::write_all(STDOUT_FILENO, b" rest kept\n");
    } else {
        io::write_all(STDOUT_FILENO, b" rest changed\n");
    }
}

// The number of slots and the slots.
fn show_slots(slice: &[u32], n: usize) {
    io::print_decimal(STDOUT_FILENO, n as u64);
    io::write_all(STDOUT_FILENO, b":");
    for slot in slice.iter().take(n) {
        io::write_all(STDOUT_FILENO, b" ");
        io::print_decimal(STDOUT_FILENO, *slot as u64);
    }
    show_rest(slice, n);
}

// The line for an answer, with the slice that was lent.
fn show(answer: Result<Ordering, Fault>, slice: &[u32]) {
    match answer {
        Ok(Ordering::Ordered(n)) => {
            io::write_all(STDOUT_FILENO, b"ordered ");
            show_slots(slice, n);
        }
        Ok(Ordering::Looped(n)) => {
            io::write_all(STDOUT_FILENO, b"looped ");
            show_slots(slice, n);
        }
        Err(f) => {
            io::write_all(STDOUT_FILENO, b"refused ");
            io::print_decimal(STDOUT_FILENO, f.number as u64);
            io::write_all(STDOUT_FILENO, b" at ");
            io::print_decimal(STDOUT_FILENO, f.place as u64);
            show_rest(slice, 0);
        }
    }
}

// A list, ordered in the first words of a slice, as many as are lent.
fn order_in(list: &[u32], slice: &mut [u32], lent: usize) -> Result<Ordering, Fault> {
    if lent < slice.len() {
        return ordering::order(list, &mut slice[..lent]);
    }
    ordering::order(list, slice)
}

// A list of n words, ordered and answered.
fn order_list(words: &[u32], n: usize, lent: usize) {
    let mut slice = [UNTOUCHED; 4100];
    if n <= words.len() {
        let answer = order_in(&words[..n], &mut slice, lent);
        show(answer, &slice);
    }
}

// One list, if the input has one.
fn turn() -> bool {
    match word_input::next_word() {
        None => false,
        Some(lent) => {
            let n = word_input::word_or_zero() as usize;
            let mut words = room();
            word_input::load(&mut words, n);
            order_list(&words, n, lent as usize);
            true
        }
    }
}

fn main() {
    for _ in 0..1000 {
        if !turn() {
            return;
        }
    }
}
