// The program of document 01: the words of a design list on standard input, its script or its refusal on standard
// output, before a script the line that names a loop.
#![tactic(auto)]

// The file descriptors of standard input and standard output.
const STDIN_FILENO: i32 = 0;

const STDOUT_FILENO: i32 = 1;

fn main() {
    // A byte more than 16,384 words, by which a longer input shows itself.
    let mut input = [0u8; 65537];
    let n = io::read_full(STDIN_FILENO, &mut input);
    // A loop has at most 4,096 slots, each named in at most six bytes.
    let mut line = [0u8; 24583];
    let mut text = io::large_buffer();
    let written = program::output(&input[..n], &mut line, &mut text);
    if written.line <= 24583 {
        io::write_all(STDOUT_FILENO, &line[..written.line]);
    }
    if written.text <= 65536 {
        io::write_all(STDOUT_FILENO, &text[..written.text]);
    }
}
