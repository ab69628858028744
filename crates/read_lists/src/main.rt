// Reads design lists from standard input, each as its length and its words, little-endian, and writes a line for each:
// `accepted SLOTS` or `refused N at P`.
#![tactic(auto)]

// The file descriptor of standard output.
const STDOUT_FILENO: i32 = 1;

// Room for the longest list that is read.
fn room() -> [u32; 16400] {
    [0u32; 16400]
}

// The line for a list.
fn show(list: &[u32]) {
    match design_list::read_design(list) {
        Ok(x) => {
            io::write_all(STDOUT_FILENO, b"accepted ");
            io::print_decimal(STDOUT_FILENO, x.base as u64);
            io::write_all(STDOUT_FILENO, b" + ");
            io::print_decimal(STDOUT_FILENO, x.added as u64);
        }
        Err(f) => {
            io::write_all(STDOUT_FILENO, b"refused ");
            io::print_decimal(STDOUT_FILENO, f.number as u64);
            io::write_all(STDOUT_FILENO, b" at ");
            io::print_decimal(STDOUT_FILENO, f.place as u64);
        }
    }
    io::write_all(STDOUT_FILENO, b"\n");
}

// A list of n words, read and answered.
fn read_list(words: &mut [u32], n: usize) {
    word_input::load(words, n);
    if n <= words.len() {
        show(&words[..n]);
    }
}

// One list, if the input has one.
fn turn() -> bool {
    match word_input::next_word() {
        None => false,
        Some(length) => {
            let n = length as usize;
            let mut words = room();
            read_list(&mut words, n);
            true
        }
    }
}

fn main() {
    for _ in 0..1000 {
        if !turn() {
            return;
        }
    }
}
