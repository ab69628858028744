// Reads design lists without replacements from standard input, each as its length and its words, little-endian, makes
// the calls of every cell, and writes a line for each: the number of call words and of marks, and FNV-1a (64 bits) of
// both. The file stdout, to which the lines are compared, has the answers of the Rust, for a division those that
// docs/DIVISIONS.md makes of its answers for a Mul (tests/cell_lists.py).
#![tactic(auto)]

use builder::Counts;
use design_list::Extent;
use logic::Slot;

// The file descriptor of standard output.
const STDOUT_FILENO: i32 = 1;

// ---- the digest

// The digest with one byte more.
fn add_byte(digest: u64, byte: u32) -> u64 {
    bitvec::bvmul(64, bitvec::bvxor(64, digest, byte as u64), 0x100000001b3)
}

// The digest with the four bytes of a word more, lowest first.
fn add_word(digest: u64, word: u32) -> u64 {
    let low = add_byte(add_byte(digest, word % 256), word / 256 % 256);
    add_byte(add_byte(low, word / 65536 % 256), word / 16777216)
}

// The digest with the first n words more.
fn add_words(digest: u64, words: &[u32], n: usize) -> u64 {
    let mut all = digest;
    for i in 0..n {
        all = add_word(all, logic::word_at(words, i));
    }
    all
}

// The mark at a slot, 0 past the end.
fn mark_at(marks: &[u8], at: usize) -> u32 {
    if at < marks.len() {
        u32::from(marks[at])
    } else {
        0
    }
}

// The digest with the first n marks more.
fn add_marks(digest: u64, marks: &[u8], n: usize) -> u64 {
    let mut all = digest;
    for i in 0..n {
        all = add_word(all, mark_at(marks, i));
    }
    all
}

// ---- the calls

// The calls of the cell at a place of the list, which begins at a slot.
fn emit_cell(
    list: &[u32],
    at: usize,
    table: &[u32],
    calls: &mut [u32],
    names: &mut [u32],
    marks: &mut [u8],
    c: Counts,
    slot: Slot,
) -> Counts {
    let width = slots::width_at(table, slot);
    if width == 0 {
        return c;
    }
    if list.len() <= at {
        return c;
    }
    match cell::operation_of(logic::payload(list[at]) % 32) {
        Some(op) => {
            let first = at + 1;
            steps::add_cell(
                op,
                &list[first..],
                table,
                calls,
                names,
                marks,
                c,
                slot,
                width,
            )
        }
        None => c,
    }
}

// The place after the record at a place.
fn next_at(list: &[u32], at: usize) -> usize {
    if list.len() <= at {
        return at;
    }
    at + 1 + (logic::payload(list[at]) / 32) as usize
}

// The slot after the cell that begins at a slot.
fn next_slot(table: &[u32], slot: u32) -> u32 {
    let width = slots::width_at(table, Slot(slot));
    if slot < 4096 {
        if 0 < width {
            if width < 128 {
                return slot + width;
            }
        }
        return slot + 1;
    }
    slot
}

// The calls of every cell; past the last slot the table has no width.
fn emit_cells(
    list: &[u32],
    table: &[u32],
    calls: &mut [u32],
    names: &mut [u32],
    marks: &mut [u8],
) -> Counts {
    let mut c = Counts {
        terms: 0,
        temporaries: 0,
        words: 0,
    };
    let mut at: usize = 4;
    let mut slot: u32 = 0;
    for _ in 0..4096 {
        c = emit_cell(list, at, table, calls, names, marks, c, Slot(slot));
        at = next_at(list, at);
        slot = next_slot(table, slot);
    }
    c
}

// ---- the answer

fn show(words: usize, marks: usize, digest: u64) {
    io::print_decimal(STDOUT_FILENO, words as u64);
    io::write_all(STDOUT_FILENO, b" ");
    io::print_decimal(STDOUT_FILENO, marks as u64);
    io::write_all(STDOUT_FILENO, b" ");
    io::print_hex(STDOUT_FILENO, digest, 16);
    io::write_all(STDOUT_FILENO, b"\n");
}

// The line for an accepted list of so many slots.
fn answer(list: &[u32], table: &[u32], total: usize) {
    let mut calls = [0u32; 131072];
    let mut names = [0u32; 16384];
    let mut marks = [0u8; 4096];
    let c = emit_cells(list, table, &mut calls, &mut names, &mut marks);
    let words = add_words(0xcbf29ce484222325, &calls, c.words);
    show(c.words, total, add_marks(words, &marks, total));
}

// The line for a list.
fn answer_list(list: &[u32]) {
    let mut table = [0u32; 4096];
    match design_list::slot_table(list, &mut table) {
        Ok(x) => answer(list, &table, slots_of(x)),
        Err(_) => {
            io::write_all(STDOUT_FILENO, b"refused\n");
        }
    }
}

// base + added, at most 4,096 of an accepted list.
fn slots_of(x: Extent) -> usize {
    if x.base <= 4096 {
        if x.added <= 4096 {
            return x.base + x.added;
        }
    }
    0
}

// A list of n words, read and answered.
fn read_list(words: &mut [u32], n: usize) {
    word_input::load(words, n);
    if n <= words.len() {
        answer_list(&words[..n]);
    }
}

// Room for the longest list that is read.
fn room() -> [u32; 16400] {
    [0u32; 16400]
}

// One list, if the input has one.
fn turn() -> bool {
    match word_input::next_word() {
        None => false,
        Some(length) => {
            let n = length as usize;
            let mut words = room();
            read_list(&mut words, n);
            true
        }
    }
}

fn main() {
    for _ in 0..1000 {
        if !turn() {
            return;
        }
    }
}
