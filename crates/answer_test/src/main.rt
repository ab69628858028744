// Reads answers from standard input and prints what `answer` makes of each. A case is a line of marks, one digit each,
// and the solver's text, and ends at a percent sign. After sat the line has the table and the two entries after it,
// which were 9 before; a case of more marks than the table has entries meets fault 15.
#![tactic(auto)]

ghost use Rattle.std.specs.Prelude.{◌≤◌, length};

use answer::Answer;
use logic::Fault;

// The first place from `start` on where a byte stands, or the end.
fn find(input: &[u8], start: usize, byte: u8) -> usize
    requires { start ≤ length input.now }
    ensures { (start ≤ result) × (result ≤ length input.now) }
{
    for at in start..input.len() {
        if input[at] == byte {
            return at;
        }
    }
    input.len()
}

fn print_entries(trits: &[u8]) {
    for entry in trits {
        io::print_decimal(1, *entry as u64);
    }
}

fn print_answer(given: Result<Answer, Fault>, trits: &[u8]) {
    match given {
        Ok(Answer::Unsat) => {
            io::write_all(1, b"unsat ");
        }
        Ok(Answer::Sat) => {
            io::write_all(1, b"sat ");
        }
        Err(fault) => {
            io::write_all(1, b"refused ");
            io::print_decimal(1, fault.number as u64);
            io::write_all(1, b" at ");
            io::print_decimal(1, fault.place as u64);
            io::write_all(1, b" ");
        }
    }
    print_entries(trits);
    io::write_all(1, b"\n");
}

// A digit's number; 255 for any other byte.
fn digit(byte: u8) -> u8 {
    if byte < 48 { 255 } else { byte - 48 }
}

fn read(text: &[u8], marks: &[u8]) {
    let mut trits = [9u8; 8];
    let given = answer::read_answer(text, marks, &mut trits);
    print_answer(given, &trits);
}

// A case whose marks end at a place.
fn case(input: &[u8], end: usize)
    requires { end ≤ length input.now }
{
    let mut marks = [0u8; 16];
    for (slot, byte) in input[..end].iter().enumerate() {
        text::set_byte(&mut marks, slot, digit(*byte));
    }
    if end <= 16 {
        read(&input[end..], &marks[..end]);
    }
}

fn cases(input: &[u8]) {
    let mut start = 0;
    while start < input.len() {
        let end = find(input, start, b'%');
        let one = &input[start..end];
        case(one, find(one, 0, b'\n'));
        start = end + 1;
    }
}

fn main() {
    let mut buf = io::large_buffer();
    let n = io::read_full(0, &mut buf);
    if n <= 65536 {
        cases(&buf[..n]);
    }
}
