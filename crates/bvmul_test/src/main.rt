// Prints what `bitvec::bvmul` gives at every width from 1 to 64 on edge operands: a line for each width and first
// operand, with the product by each of the second operands. The file stdout, to which the lines are compared, was
// written by tests/bvmul_table.py, which multiplies with Python's integers.
#![tactic(auto)]

// Edge operand k, where the width's vector of ones is given; the last three have bits above most widths.
fn operand(k: u32, ones: u64) -> u64 {
    match k {
        0 => 0,
        1 => 1,
        2 => ones / 2,
        3 => ones / 2 + 1,
        4 => ones,
        5 => 0x8123456789abcdef,
        6 => 0x4123456789abcdee,
        _ => 0xffffffffffffffff,
    }
}

fn row(width: u32, ones: u64, s: u64) {
    io::print_decimal(1, width as u64);
    io::write_all(1, b" ");
    io::print_hex(1, s, 1);
    io::write_all(1, b" =");
    for k in 0..8 {
        io::write_all(1, b" ");
        io::print_hex(1, bitvec::bvmul(width, s, operand(k, ones)), 1);
    }
    io::write_all(1, b"\n");
}

fn rows(width: u32, ones: u64) {
    for k in 0..8 {
        row(width, ones, operand(k, ones));
    }
}

fn main() {
    for width in 1..65 {
        rows(width, bitvec::reduce(width, 0xffffffffffffffff));
    }
}
