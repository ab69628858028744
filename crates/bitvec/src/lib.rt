// The operations of SMT-LIB's QF_BV on bit vectors of width 1 to 64, each vector held as its number in a u64.
// Each function is defined for every argument: an operand counts modulo 2^width, and at a width outside 1 to 64 the
// answer is 0, or false. Each takes constant time, bvmul a turn for each bit of the width.
#![tactic(auto)]

ghost use Rattle.std.specs.Prelude.{◌≡◌, ◌%◌, ◌^◌, ◌≤◌, if◌then◌else◌};
ghost use Rattle.bitvec.specs.Bits.{nat2bv};
ghost use Rattle.bitvec.specs.Ops as bv;
ghost use Rattle.bitvec.specs.Partial.{partial};
ghost use Rattle.bitvec.specs.Words.{at_width, holds_at, concat_at, extract_at};

// A number modulo 2^width: the vector that `nat2bv` makes of it.
pub fn reduce(width: u32, x: u64) -> u64
    ensures { result ≡ at_width width (nat2bv width x) }
{
    if width < 64 {
        return x % (1 << width);
    }
    if width == 64 {
        return x;
    }
    0
}

// The top bit, the sign.
pub fn msb(width: u32, s: u64) -> bool
    ensures { result ≡ holds_at width (bv.msb (nat2bv width s)) }
{
    if width < 1 {
        return false;
    }
    if 64 < width {
        return false;
    }
    (s >> (width - 1)) % 2 == 1
}

// SMT-LIB's = on bit vectors.
pub fn equal(width: u32, s: u64, t: u64) -> bool
    ensures { result ≡ holds_at width (bv.equal (nat2bv width s) (nat2bv width t)) }
{
    if width < 1 {
        return false;
    }
    if 64 < width {
        return false;
    }
    reduce(width, s) == reduce(width, t)
}

pub fn ite(width: u32, c: bool, s: u64, t: u64) -> u64
    ensures { result ≡ at_width width (if c then nat2bv width s else nat2bv width t) }
{
    if c {
        reduce(width, s)
    } else {
        reduce(width, t)
    }
}

// The m bits of s above the n bits of t.
pub fn concat(m: u32, s: u64, n: u32, t: u64) -> u64
    ensures { result ≡ concat_at m s n t }
{
    if m < 1 {
        return 0;
    }
    if n < 1 {
        return 0;
    }
    if 64 < m as u64 + n as u64 {
        return 0;
    }
    (reduce(m, s) << n) | reduce(n, t)
}

// Bits j to i.
pub fn extract(width: u32, i: u32, j: u32, s: u64) -> u64
    ensures { result ≡ extract_at width i j s }
{
    if 64 < width {
        return 0;
    }
    if width <= i {
        return 0;
    }
    if i < j {
        return 0;
    }
    reduce(i - j + 1, s >> j)
}

pub fn bvnot(width: u32, s: u64) -> u64
    ensures { result ≡ at_width width (bv.bvnot (nat2bv width s)) }
{
    reduce(width, !s)
}

pub fn bvand(width: u32, s: u64, t: u64) -> u64
    ensures { result ≡ at_width width (bv.bvand (nat2bv width s) (nat2bv width t)) }
{
    reduce(width, s & t)
}

pub fn bvor(width: u32, s: u64, t: u64) -> u64
    ensures { result ≡ at_width width (bv.bvor (nat2bv width s) (nat2bv width t)) }
{
    reduce(width, s | t)
}

pub fn bvxor(width: u32, s: u64, t: u64) -> u64
    ensures { result ≡ at_width width (bv.bvxor (nat2bv width s) (nat2bv width t)) }
{
    reduce(width, s ^ t)
}

pub fn bvadd(width: u32, s: u64, t: u64) -> u64
    ensures { result ≡ at_width width (bv.bvadd (nat2bv width s) (nat2bv width t)) }
{
    reduce(width, std::num::wrapping_add_u64(s, t))
}

// One bit, 1 where the two are equal.
pub fn bvcomp(width: u32, s: u64, t: u64) -> u64
    ensures { result ≡ at_width width (bv.bvcomp (nat2bv width s) (nat2bv width t)) }
{
    if equal(width, s, t) { 1 } else { 0 }
}

pub fn bvult(width: u32, s: u64, t: u64) -> bool
    ensures { result ≡ holds_at width (bv.bvult (nat2bv width s) (nat2bv width t)) }
{
    reduce(width, s) < reduce(width, t)
}

// Under one sign as the numbers; under two the negative one is less.
pub fn bvslt(width: u32, s: u64, t: u64) -> bool
    ensures { result ≡ holds_at width (bv.bvslt (nat2bv width s) (nat2bv width t)) }
{
    let negative = msb(width, s);
    if negative == msb(width, t) {
        bvult(width, s, t)
    } else {
        negative
    }
}

pub fn bvshl(width: u32, s: u64, t: u64) -> u64
    ensures { result ≡ at_width width (bv.bvshl (nat2bv width s) (nat2bv width t)) }
{
    let amount = reduce(width, t);
    if amount < 64 {
        reduce(width, s << amount)
    } else {
        0
    }
}

pub fn bvlshr(width: u32, s: u64, t: u64) -> u64
    ensures { result ≡ at_width width (bv.bvlshr (nat2bv width s) (nat2bv width t)) }
{
    let amount = reduce(width, t);
    if amount < 64 {
        reduce(width, s) >> amount
    } else {
        0
    }
}

// A negative vector is shifted as its complement, and complemented again: the sign comes in.
pub fn bvashr(width: u32, s: u64, t: u64) -> u64
    ensures { result ≡ at_width width (bv.bvashr (nat2bv width s) (nat2bv width t)) }
{
    if msb(width, s) {
        bvnot(width, bvlshr(width, bvnot(width, s), t))
    } else {
        bvlshr(width, s, t)
    }
}

// s times the low `width` bits of t, from the highest bit down: each bit doubles the sum and, where it is 1, adds s.
// What passes 2^64 does not count at any width.
fn wrapping_mul(width: u32, s: u64, t: u64) -> u64
    requires { width ≤ 64 }
    ensures { result % 2 ^ width ≡ partial s t width width }
{
    let mut sum: u64 = 0;
    for j in 0..width {
        sum = std::num::wrapping_add_u64(sum, sum);
        if (t >> (width - 1 - j)) % 2 == 1 {
            sum = std::num::wrapping_add_u64(sum, s);
        }
    }
    sum
}

pub fn bvmul(width: u32, s: u64, t: u64) -> u64
    ensures { result ≡ at_width width (bv.bvmul (nat2bv width s) (nat2bv width t)) }
{
    if 64 < width {
        return 0;
    }
    reduce(width, wrapping_mul(width, s, t))
}

// By zero every bit is 1.
pub fn bvudiv(width: u32, s: u64, t: u64) -> u64
    ensures { result ≡ at_width width (bv.bvudiv (nat2bv width s) (nat2bv width t)) }
{
    let divisor = reduce(width, t);
    if divisor == 0 {
        return bvnot(width, 0);
    }
    reduce(width, s) / divisor
}

// By zero the first operand is left.
pub fn bvurem(width: u32, s: u64, t: u64) -> u64
    ensures { result ≡ at_width width (bv.bvurem (nat2bv width s) (nat2bv width t)) }
{
    let divisor = reduce(width, t);
    if divisor == 0 {
        return reduce(width, s);
    }
    reduce(width, s) % divisor
}

pub fn bvneg(width: u32, s: u64) -> u64
    ensures { result ≡ at_width width (bv.bvneg (nat2bv width s)) }
{
    reduce(width, std::num::wrapping_add_u64(!s, 1))
}

// The size of a signed number.
fn size(width: u32, s: u64) -> u64
    ensures { result ≡ at_width width (if bv.msb (nat2bv width s) then bv.bvneg (nat2bv width s) else nat2bv width s) }
{
    ite(width, msb(width, s), bvneg(width, s), s)
}

// Truncated towards zero: the sizes are divided, and the quotient is negative where one operand alone is.
pub fn bvsdiv(width: u32, s: u64, t: u64) -> u64
    ensures { result ≡ at_width width (bv.bvsdiv (nat2bv width s) (nat2bv width t)) }
{
    let dividend = size(width, s);
    let divisor = size(width, t);
    let quotient = bvudiv(width, dividend, divisor);
    let agree = msb(width, s) == msb(width, t);
    ite(width, agree, quotient, bvneg(width, quotient))
}

// The remainder has the sign of the first operand.
pub fn bvsrem(width: u32, s: u64, t: u64) -> u64
    ensures { result ≡ at_width width (bv.bvsrem (nat2bv width s) (nat2bv width t)) }
{
    let dividend = size(width, s);
    let divisor = size(width, t);
    let remainder = bvurem(width, dividend, divisor);
    ite(width, msb(width, s), bvneg(width, remainder), remainder)
}
