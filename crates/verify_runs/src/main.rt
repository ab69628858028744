// Runs the program's function on stored inputs, and writes for each a line with its name and what the program writes. A
// case is its name and its input, each after its length in a little-endian word.
#![tactic(auto)]

// The file descriptors of standard input and standard output.
const STDIN_FILENO: i32 = 0;

const STDOUT_FILENO: i32 = 1;

// Reads n bytes into a buffer, if it has room for them; how many there were.
fn read_part(buffer: &mut [u8], n: usize) -> usize {
    if n <= buffer.len() {
        return io::read_full(STDIN_FILENO, &mut buffer[..n]);
    }
    0
}

// Writes the first n bytes of a text.
fn write_part(text: &[u8], n: usize) {
    if n <= text.len() {
        io::write_all(STDOUT_FILENO, &text[..n]);
    }
}

// Copies a name of n bytes to a line of the output.
fn show_name(n: usize) {
    let mut name = [0u8; 64];
    let got = read_part(&mut name, n);
    io::write_all(STDOUT_FILENO, b"; ");
    write_part(&name, got);
    io::write_all(STDOUT_FILENO, b"\n");
}

// Writes what the program writes for the first n bytes of an input.
fn answer(input: &[u8], n: usize) {
    let mut line = [0u8; 24583];
    let mut text = io::large_buffer();
    if n <= input.len() {
        let written = program::output(&input[..n], &mut line, &mut text);
        write_part(&line, written.line);
        write_part(&text, written.text);
    }
}

// Reads an input of n bytes and answers it.
fn run_case(n: usize) {
    let mut input = [0u8; 65540];
    let got = read_part(&mut input, n);
    answer(&input, got);
}

// One case, if the input has one.
fn turn() -> bool {
    match word_input::next_word() {
        None => false,
        Some(length) => {
            show_name(length as usize);
            run_case(word_input::word_or_zero() as usize);
            true
        }
    }
}

fn main() {
    for _ in 0..1000 {
        if !turn() {
            return;
        }
    }
}
