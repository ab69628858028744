// Prints what `bitvec` gives for bvudiv, bvurem, bvsdiv and bvsrem: a line for each operation, width and first operand,
// with the result by each of the second operands. At widths 1 to 4 the operands are all numbers; then they are edge
// operands, at widths 1, 2, 17, 63 and 64, and at two that are no widths. The file stdout, to which the lines are
// compared, was written by tests/division_table.py, which divides Python's integers.
#![tactic(auto)]

// Edge operand k, where the width's vector of ones is given: three small ones, the least signed number between its
// neighbours, the last two, and an odd one, which has bits above most widths.
fn operand(k: u32, ones: u64) -> u64 {
    match k {
        0 => 0,
        1 => 1,
        2 => 2,
        3 => ones / 2,
        4 => ones / 2 + 1,
        5 => ones / 2 + 2,
        6 => ones & 0xfffffffffffffffe,
        7 => ones,
        _ => 0x8123456789abcdef,
    }
}

fn name(op: u32) {
    match op {
        0 => io::write_all(1, b"bvudiv "),
        1 => io::write_all(1, b"bvurem "),
        2 => io::write_all(1, b"bvsdiv "),
        _ => io::write_all(1, b"bvsrem "),
    };
}

fn result(op: u32, width: u32, s: u64, t: u64) -> u64 {
    match op {
        0 => bitvec::bvudiv(width, s, t),
        1 => bitvec::bvurem(width, s, t),
        2 => bitvec::bvsdiv(width, s, t),
        _ => bitvec::bvsrem(width, s, t),
    }
}

// The start of a line.
fn begins(op: u32, width: u32, s: u64) {
    name(op);
    io::print_decimal(1, width as u64);
    io::write_all(1, b" ");
    io::print_hex(1, s, 1);
    io::write_all(1, b" =");
}

fn shows(res: u64) {
    io::write_all(1, b" ");
    io::print_hex(1, res, 1);
}

fn row_of_all(op: u32, width: u32, numbers: u64, s: u64) {
    begins(op, width, s);
    for t in 0..numbers {
        shows(result(op, width, s, t));
    }
    io::write_all(1, b"\n");
}

// Every pair of the numbers of a width, which are so many.
fn all(op: u32, width: u32, numbers: u64) {
    for s in 0..numbers {
        row_of_all(op, width, numbers, s);
    }
}

fn row_of_edges(op: u32, width: u32, ones: u64, s: u64) {
    begins(op, width, s);
    for k in 0..9 {
        shows(result(op, width, s, operand(k, ones)));
    }
    io::write_all(1, b"\n");
}

fn edges(op: u32, width: u32) {
    let ones = bitvec::reduce(width, 0xffffffffffffffff);
    for k in 0..9 {
        row_of_edges(op, width, ones, operand(k, ones));
    }
}

fn widths(op: u32) {
    all(op, 1, 2);
    all(op, 2, 4);
    all(op, 3, 8);
    all(op, 4, 16);
    edges(op, 1);
    edges(op, 2);
    edges(op, 17);
    edges(op, 63);
    edges(op, 64);
    row_of_edges(op, 0, 0xffffffffffffffff, 0xffffffffffffffff);
    row_of_edges(op, 65, 0xffffffffffffffff, 0xffffffffffffffff);
}

fn main() {
    for op in 0..4 {
        widths(op);
    }
}
