// Reads call lists from standard input and writes the script of each, or its refusal. A case is three little-endian
// words, how many call words, marks and bytes of room follow or are lent, then the call words and the marks, one byte
// each.
#![tactic(auto)]

ghost use Rattle.std.specs.Prelude.{◌≤◌, length};

use logic::Fault;

// The word whose lowest byte stands at a place; 0 past the end.
fn word(input: &[u8], at: usize) -> u32
    requires { at ≤ length input.now }
{
    let low = text::byte_at(input, at) as u32 + 256 * (text::byte_at(input, at + 1) as u32);
    let high = text::byte_at(input, at + 2) as u32 + 256 * (text::byte_at(input, at + 3) as u32);
    low + 65536 * high
}

fn print_refusal(number: u32, place: usize) {
    io::write_all(1, b"refused ");
    io::print_decimal(1, number as u64);
    io::write_all(1, b" at ");
    io::print_decimal(1, place as u64);
    io::write_all(1, b"\n");
}

fn print_script(given: Result<usize, Fault>, text: &[u8]) {
    match given {
        Err(fault) => print_refusal(fault.number, fault.place),
        Ok(n) => {
            if n <= text.len() {
                io::write_all(1, &text[..n]);
            }
        }
    }
}

fn write(calls: &[u32], marks: &[u8], room: usize) {
    let mut text = io::large_buffer();
    if room <= 65536 {
        let given = script::write_script(calls, marks, &mut text[..room]);
        print_script(given, &text);
    }
}

// A case of n call words from a place on, with its marks after them.
fn case(input: &[u8], start: usize, n: usize, marks: usize, room: usize)
    requires { start ≤ length input.now }
{
    let mut calls = [0u32; 4096];
    let mut at = start;
    for i in 0..n {
        if input.len() - at < 4 {
            return;
        }
        logic::put(&mut calls, i, word(input, at));
        at += 4;
    }
    if n <= 4096 && marks <= input.len() - at {
        write(&calls[..n], &input[at..at + marks], room);
    }
}

fn main() {
    let mut buf = io::large_buffer();
    let n = io::read_full(0, &mut buf);
    let mut at = 0;
    while at < n {
        if n - at < 12 {
            return;
        }
        let calls = word(&buf, at) as usize;
        let marks = word(&buf, at + 4) as usize;
        let room = word(&buf, at + 8) as usize;
        case(&buf, at + 12, calls, marks, room);
        at += 12 + 4 * calls + marks;
    }
}
