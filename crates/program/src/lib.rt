// The program below its input and output: the bytes of a design list to the bytes of its script, or of its refusal, and
// of the line that names its loop.
#![tactic(auto)]

ghost use Rattle.std.specs.Prelude.{◌≡◌, ◌≤◌, length, take};
ghost use Rattle.engine.specs.Emit.{Wrote};
ghost use Rattle.requirement.specs.Verified.{read_in};
ghost use Rattle.program.specs.Output.{refusal_line, refusal, loop_text, script_texts, list_output, output_in};
ghost use Rattle.program.specs.Output.{slots_in, Leaves};

use logic::Fault;
use ordering::Ordering;
use requirement::Verified;

// How many bytes are written: of the line that names a loop, and of the text.
#[derive(Clone, Copy)]
pub struct Lengths {
    pub line: usize,
    pub text: usize,
}

// Writes `refused N at P` and a line feed.
fn put_refusal(text: &mut [u8], fault: Fault) -> usize
    ensures { Wrote text.old 0 (refusal_line fault) text.new result }
{
    let number = text::put_bytes(text, 0, b"refused ");
    let between = text::put_number(text, number, fault.number as usize);
    let place = text::put_bytes(text, between, b" at ");
    let end = text::put_number(text, place, fault.place);
    text::put_byte(text, end, 10)
}

// Writes a refusal alone.
fn refuse(line: &mut [u8], text: &mut [u8], fault: Fault) -> Lengths
    ensures { Leaves (refusal fault) line.old text.old line.new
        text.new result }
{
    Lengths {
        line: 0,
        text: put_refusal(text, fault),
    }
}

// Writes the line that names the loop of an accepted list, if it has one.
fn put_loop(line: &mut [u8], list: &[u32]) -> usize
    ensures { Wrote line.old 0 (loop_text (read_in 0 list.now)) line.new result }
{
    let mut slots = [0u32; 4096];
    match ordering::order(list, &mut slots) {
        Ok(Ordering::Looped(n)) => loop_line::put_loop(line, &slots[..n]),
        Ok(Ordering::Ordered(_)) => 0,
        Err(_) => 0,
    }
}

// Writes the script of the first call words and marks and the line of the list's loop, or the writer's refusal.
fn put_script(
    line: &mut [u8],
    text: &mut [u8],
    list: &[u32],
    calls: &[u32],
    words: usize,
    recorded: &[u8],
    slots: usize,
) -> Lengths
    requires { (words ≤ length calls.now) × (slots ≤ length recorded.now) }
    ensures { Leaves
        (script_texts (loop_text (read_in 0 list.now)) (take words calls.now)
        (take slots recorded.now) (length text.old))
        line.old text.old line.new text.new result }
{
    match script::write_script(&calls[..words], &recorded[..slots], text) {
        Ok(n) => Lengths {
            line: put_loop(line, list),
            text: n,
        },
        Err(f) => refuse(line, text, f),
    }
}

// The slots of an accepted list.
fn slots_of(list: &[u32]) -> usize
    ensures { result ≡ slots_in (read_in 0 list.now) }
{
    match design_list::read_design(list) {
        Ok(x) => x.base + x.added,
        Err(_) => 0,
    }
}

// Writes the script of a list of words in the ported mode and the line of its loop, or its refusal, with 16,384 call
// words and 4,096 marks of its own.
fn put_list(line: &mut [u8], text: &mut [u8], list: &[u32]) -> Lengths
    ensures { Leaves (list_output list.now (length text.old)) line.old
        text.old line.new text.new result }
{
    let mut calls = [0u32; 16384];
    let mut recorded = [0u8; 4096];
    let slots = slots_of(list);
    match design::verify(0, list, &mut calls, &mut recorded) {
        Ok(Verified::NothingAsked(c)) => put_script(
            line, text, list, &calls, c.words, &recorded, slots,
        ),
        Ok(Verified::Asked(c)) => put_script(line, text, list, &calls, c.words, &recorded, slots),
        Err(f) => refuse(line, text, f),
    }
}

// What the program writes for the bytes of its input, from the start of a line and of a text on, and how many bytes
// they are; past the end of either it is only counted.
pub fn output(input: &[u8], line: &mut [u8], text: &mut [u8]) -> Lengths
    ensures { Leaves (output_in input.now (length text.old)) line.old
        text.old line.new text.new result }
{
    let mut words = [0u32; 16384];
    match little_endian::words(input, &mut words) {
        Ok(n) => put_list(line, text, &words[..n]),
        Err(f) => refuse(line, text, f),
    }
}
