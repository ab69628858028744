// The line that names a loop, `; loop s1 s4`, in a lent text.
#![tactic(auto)]

ghost use Rattle.std.specs.Prelude.{◌++◌};
ghost use Rattle.engine.specs.Emit.{Wrote};
ghost use Rattle.text.specs.Bytes.{ascii, decimal};
ghost use Rattle.loop_line.specs.Line.{slot_names, loop_line};

// Writes a slot's name after a space.
fn put_slot(line: &mut [u8], at: usize, slot: u32) -> usize
    ensures { Wrote line.old at (ascii " s" ++ decimal slot) line.new result }
{
    let number = text::put_bytes(line, at, b" s");
    text::put_number(line, number, slot as usize)
}

// Writes the names of slots, each after a space.
fn put_slots(line: &mut [u8], start: usize, slots: &[u32]) -> usize
    ensures { Wrote line.old start (slot_names slots.now) line.new result }
{
    let mut at = start;
    for slot in slots {
        at = put_slot(line, at, *slot);
    }
    at
}

// Writes the line of a loop and a line feed, from the start of a text on; how many bytes it is.
pub fn put_loop(line: &mut [u8], slots: &[u32]) -> usize
    ensures { Wrote line.old 0 (loop_line slots.now) line.new result }
{
    let names = text::put_bytes(line, 0, b"; loop");
    let end = put_slots(line, names, slots);
    text::put_byte(line, end, 10)
}
