// Prints what each operation of `bitvec` gives on a table of edge cases, a line for each: the operation, the widths in
// decimal, the operands and the result in hexadecimal. The file stdout, to which the lines are compared, was written by
// tests/bitvec_table.py, which computes each result with Python's integers.
#![tactic(auto)]

// The operands of case k. The first of 8123456789abcdef and 4123456789abcdee is negative at width 64, the second at 63.
const LEFT: [u64; 25] = [
    0x0,
    0xffffffffffffffff,
    0x1,
    0xffffffffffffffff,
    0x0,
    0x8000000000000000,
    0x7fffffffffffffff,
    0x4000000000000000,
    0x4000000000000000,
    0x8000000000000000,
    0x8123456789abcdef,
    0x4123456789abcdee,
    0xffffffff,
    0x8123456789abcdef,
    0x8123456789abcdef,
    0x8123456789abcdef,
    0x8123456789abcdef,
    0x8123456789abcdef,
    0x8123456789abcdef,
    0x4123456789abcdee,
    0x4123456789abcdee,
    0x4123456789abcdee,
    0x4123456789abcdee,
    0x4123456789abcdee,
    0x4123456789abcdee,
];

const RIGHT: [u64; 25] = [
    0x0,
    0x1,
    0xffffffffffffffff,
    0xffffffffffffffff,
    0xffffffffffffffff,
    0x7fffffffffffffff,
    0x8000000000000000,
    0x3fffffffffffffff,
    0x4000000000000000,
    0x4000000000000000,
    0x4123456789abcdee,
    0x8123456789abcdef,
    0x100000001,
    0,
    1,
    62,
    63,
    64,
    0xffffffffffffffff,
    0,
    1,
    62,
    63,
    0x8000000000000001,
    0xffffffffffffffff,
];

fn number(holds: bool) -> u64 {
    if holds { 1 } else { 0 }
}

fn name(op: u32) {
    match op {
        0 => io::write_all(1, b"reduce "),
        1 => io::write_all(1, b"msb "),
        2 => io::write_all(1, b"equal "),
        3 => io::write_all(1, b"ite-true "),
        4 => io::write_all(1, b"ite-false "),
        5 => io::write_all(1, b"bvnot "),
        6 => io::write_all(1, b"bvand "),
        7 => io::write_all(1, b"bvor "),
        8 => io::write_all(1, b"bvxor "),
        9 => io::write_all(1, b"bvadd "),
        10 => io::write_all(1, b"bvcomp "),
        11 => io::write_all(1, b"bvult "),
        12 => io::write_all(1, b"bvslt "),
        13 => io::write_all(1, b"bvshl "),
        14 => io::write_all(1, b"bvlshr "),
        15 => io::write_all(1, b"bvashr "),
        _ => io::write_all(1, b"bvmul "),
    };
}

fn result(op: u32, width: u32, s: u64, t: u64) -> u64 {
    match op {
        0 => bitvec::reduce(width, s),
        1 => number(bitvec::msb(width, s)),
        2 => number(bitvec::equal(width, s, t)),
        3 => bitvec::ite(width, true, s, t),
        4 => bitvec::ite(width, false, s, t),
        5 => bitvec::bvnot(width, s),
        6 => bitvec::bvand(width, s, t),
        7 => bitvec::bvor(width, s, t),
        8 => bitvec::bvxor(width, s, t),
        9 => bitvec::bvadd(width, s, t),
        10 => bitvec::bvcomp(width, s, t),
        11 => number(bitvec::bvult(width, s, t)),
        12 => number(bitvec::bvslt(width, s, t)),
        13 => bitvec::bvshl(width, s, t),
        14 => bitvec::bvlshr(width, s, t),
        15 => bitvec::bvashr(width, s, t),
        _ => bitvec::bvmul(width, s, t),
    }
}

// A number and a space.
fn decimal(n: u32) {
    io::print_decimal(1, n as u64);
    io::write_all(1, b" ");
}

fn hex(n: u64) {
    io::print_hex(1, n, 1);
    io::write_all(1, b" ");
}

fn ends(res: u64) {
    io::write_all(1, b"= ");
    io::print_hex(1, res, 1);
    io::write_all(1, b"\n");
}

fn line(op: u32, width: u32, s: u64, t: u64) {
    name(op);
    decimal(width);
    hex(s);
    hex(t);
    ends(result(op, width, s, t));
}

fn cases(op: u32, width: u32) {
    for k in 0..25 {
        line(op, width, LEFT[k], RIGHT[k]);
    }
}

fn widths(op: u32) {
    cases(op, 1);
    cases(op, 63);
    cases(op, 64);
    line(op, 0, 0xffffffffffffffff, 0xffffffffffffffff);
    line(op, 65, 0xffffffffffffffff, 0xffffffffffffffff);
    line(op, 4294967295, 0xffffffffffffffff, 0xffffffffffffffff);
}

fn concat(m: u32, n: u32) {
    io::write_all(1, b"concat ");
    decimal(m);
    hex(0x8123456789abcdef);
    decimal(n);
    hex(0x4123456789abcdee);
    ends(bitvec::concat(m, 0x8123456789abcdef, n, 0x4123456789abcdee));
}

fn extract(width: u32, i: u32, j: u32) {
    io::write_all(1, b"extract ");
    decimal(width);
    decimal(i);
    decimal(j);
    hex(0x8123456789abcdef);
    ends(bitvec::extract(width, i, j, 0x8123456789abcdef));
}

fn parts_inside() {
    concat(1, 63);
    concat(63, 1);
    concat(32, 32);
    concat(1, 1);
    extract(64, 63, 0);
    extract(64, 63, 63);
    extract(64, 0, 0);
    extract(64, 62, 1);
    extract(63, 62, 0);
    extract(63, 62, 62);
    extract(1, 0, 0);
}

fn parts_outside() {
    concat(63, 2);
    concat(64, 1);
    concat(0, 64);
    concat(64, 0);
    concat(4294967295, 2);
    extract(64, 64, 0);
    extract(63, 63, 0);
    extract(1, 1, 1);
    extract(64, 3, 4);
    extract(65, 0, 0);
    extract(0, 0, 0);
}

fn main() {
    for op in 0..17 {
        widths(op);
    }
    parts_inside();
    parts_outside();
}
