// Reads call lists from standard input, each as its length and its words, little-endian, then the number of its bits
// and each as two words, low first, and the room for values. Writes a line for each: `well formed TERMS NAMES` or
// `malformed at PLACE`, then `evaluated FALSE` or `refused FAULT at PLACE`, then what the values are after, which were
// all 7777; of more than 64 a digest.
#![tactic(auto)]

use checker::Counts;
use logic::Fault;

// The file descriptor of standard output.
const STDOUT_FILENO: i32 = 1;

// Room for the longest list that is read.
fn room() -> [u32; 16400] {
    [0u32; 16400]
}

// The number of two words, stored at a place, if there is such a place.
fn store(numbers: &mut [u64], at: usize, low: u32, high: u32) {
    if at < numbers.len() {
        numbers[at] = low as u64 + high as u64 * 4294967296;
    }
}

// The next n numbers of the input, stored from the start on.
fn load_numbers(numbers: &mut [u64], n: usize) {
    for at in 0..n {
        let low = word_input::word_or_zero();
        let high = word_input::word_or_zero();
        store(numbers, at, low, high);
    }
}

// What the checker says.
fn show_check(list: &[u32]) {
    match checker::check(list) {
        Ok(Counts { terms, declared }) => {
            io::write_all(STDOUT_FILENO, b"well formed ");
            io::print_decimal(STDOUT_FILENO, terms as u64);
            io::write_all(STDOUT_FILENO, b" ");
            io::print_decimal(STDOUT_FILENO, declared as u64);
        }
        Err(place) => {
            io::write_all(STDOUT_FILENO, b"malformed at ");
            io::print_decimal(STDOUT_FILENO, place as u64);
        }
    }
}

// What the evaluator answers.
fn show_evaluation(evaluation: Result<usize, Fault>) {
    match evaluation {
        Ok(n) => {
            io::write_all(STDOUT_FILENO, b"; evaluated ");
            io::print_decimal(STDOUT_FILENO, n as u64);
        }
        Err(fault) => {
            io::write_all(STDOUT_FILENO, b"; refused ");
            io::print_decimal(STDOUT_FILENO, fault.number as u64);
            io::write_all(STDOUT_FILENO, b" at ");
            io::print_decimal(STDOUT_FILENO, fault.place as u64);
        }
    }
}

// One number of many: three times the digest so far and the next value.
fn digest(values: &[u64]) -> u64 {
    let mut sum: u64 = 0;
    for value in values {
        sum = sum.wrapping_mul(3).wrapping_add(*value);
    }
    sum
}

// The values, or their digest.
fn show_values(values: &[u64]) {
    if 64 < values.len() {
        io::write_all(STDOUT_FILENO, b"; digest ");
        io::print_decimal(STDOUT_FILENO, digest(values));
        return;
    }
    io::write_all(STDOUT_FILENO, b";");
    for value in values {
        io::write_all(STDOUT_FILENO, b" ");
        io::print_decimal(STDOUT_FILENO, *value);
    }
}

// Whether two refusals are the same.
fn same_fault(a: Fault, b: Fault) -> bool {
    a.number == b.number && a.place == b.place
}

// Whether two answers are the same.
fn same(a: Result<usize, Fault>, b: Result<usize, Fault>) -> bool {
    match (a, b) {
        (Ok(n), Ok(m)) => n == m,
        (Err(fault), Err(other)) => same_fault(fault, other),
        _ => false,
    }
}

// Evaluates once more, with tables of three terms and two indexes, past which the records are searched, and tells where
// anything differs.
fn show_small(list: &[u32], bits: &[u64], values: &mut [u64], answer: Result<usize, Fault>) {
    let mut sorts = [0u8; 3];
    let mut names = [0u8; 18];
    let before = digest(values);
    let small = eval::evaluate_with(list, bits, values, &mut sorts, &mut names);
    if same(answer, small) && digest(values) == before {
        return;
    }
    io::write_all(STDOUT_FILENO, b"; another answer with small tables");
}

// The line for a list.
fn show(list: &[u32], bits: &[u64], values: &mut [u64]) {
    show_check(list);
    let answer = eval::evaluate(list, bits, values);
    show_evaluation(answer);
    show_values(values);
    show_small(list, bits, values, answer);
    io::write_all(STDOUT_FILENO, b"\n");
}

// A list of n words, read with its bits and room, and answered.
fn read_list(n: usize) {
    let mut words = room();
    let mut bits = [0u64; 16400];
    let mut values = [7777u64; 16400];
    word_input::load(&mut words, n);
    let m = word_input::word_or_zero() as usize;
    load_numbers(&mut bits, m);
    let v = word_input::word_or_zero() as usize;
    if n <= 16400 && m <= 16400 && v <= 16400 {
        show(&words[..n], &bits[..m], &mut values[..v]);
    }
}

// One list, if the input has one.
fn turn() -> bool {
    match word_input::next_word() {
        None => false,
        Some(length) => {
            read_list(length as usize);
            true
        }
    }
}

fn main() {
    for _ in 0..2000 {
        if !turn() {
            return;
        }
    }
}
