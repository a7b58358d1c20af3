// The arithmetic unit, from the bytes that CA and CB chose to the result and its latches.
#![tactic(auto)]

ghost use Rattle.std.specs.Prelude.{◌≡◌};
ghost use Rattle.adder.specs.Gates.{gated_a, gated_b};
ghost use Rattle.adder.specs.Adder.{is_complement, is_decimal, is_invalid, turned, sixes, entering, summed, result_of, finished, uncarried, carry_into, operated, entering_b, sum_of, work_of};

// What is to be done: four fields of the word, and the bits of S that CV and CC may ask.
#[derive(Clone, Copy)]
pub struct Controls {
    pub cf: u8,
    pub cg: u8,
    pub cv: u8,
    pub cc: u8,
    pub s0: bool,
    pub s3: bool,
}

// The sum before correction: its byte, its carries, and whether it is to be corrected.
#[derive(Clone, Copy)]
struct Uncorrected {
    byte: u8,
    ac: bool,
    one_bc: bool,
    digit_carry: bool,
    decimal: bool,
}

// The result and its latches, the sum before correction, and two lamps: the carry out of the low digit, and a digit over 9 on an input.
#[derive(Clone, Copy)]
pub struct Sum {
    pub result: u8,
    pub ac: bool,
    pub one_bc: bool,
    pub z0: bool,
    pub uncorrected: u8,
    pub digit_carry: bool,
    pub invalid: bool,
}

// What the unit did on the way to its answer, for the lamps between the registers and the adder.
#[derive(Clone, Copy)]
pub struct Work {
    pub a_chosen: u8,
    pub a_gated: u8,
    pub b_chosen: u8,
    pub b_gated: u8,
    pub b_entering: u8,
    pub carry_in: bool,
    pub before: u8,
    pub after: u8,
}

// CF, row by row. Crossed, a byte has its high digit low and its low digit high.
fn gated_a(cf: u8, a: u8) -> u8
    ensures { result ≡ gated_a cf a }
{
    let low = a % 16;
    let high = a / 16;
    let low_up = low * 16;
    let high_up = high * 16;
    let crossed = low_up + high;
    let gates = [0, low, high_up, a, 0, high, low_up, crossed];
    gates.get(cf as usize).copied().unwrap_or(0)
}

fn gated_b(cg: u8, b: u8) -> u8
    ensures { result ≡ gated_b cg b }
{
    let high_up = b / 16 * 16;
    let gates = [0, b % 16, high_up, b];
    gates.get(cg as usize).copied().unwrap_or(0)
}

// Worked out with no jump, here, for the carry and for what is decimal: by `match` of code and bit the tour is slower
// (docs/BENCHMARK.md).
fn is_complement(cv: u8, s0: bool) -> bool
    ensures { result ≡ is_complement cv s0 }
{
    (cv == 1) | (matches!(cv, 2 | 3) & s0)
}

fn turned(complemented: bool, b: u8) -> u8
    ensures { result ≡ turned complemented b }
{
    if complemented { 255 - b } else { b }
}

fn sixes(b: u8) -> u8
    ensures { result ≡ sixes b }
{
    (b / 16 + 6) % 16 * 16 + (b % 16 + 6) % 16
}

fn entering(decimal: bool, complemented: bool, b: u8) -> u8
    ensures { result ≡ entering decimal complemented b }
{
    if decimal & !complemented {
        sixes(b)
    } else {
        turned(complemented, b)
    }
}

fn summed(decimal: bool, a: u8, b: u8, carry: u8) -> Uncorrected
    ensures { result ≡ summed decimal a b carry }
{
    let a = a as u16;
    let b = b as u16;
    let carry = carry as u16;
    let sum = a + b + carry;
    let low_seven = a % 128 + b % 128 + carry;
    let low_digit = a % 16 + b % 16 + carry;
    let byte = (sum % 256) as u8;
    Uncorrected {
        byte,
        ac: 256 <= sum,
        one_bc: 128 <= low_seven,
        digit_carry: 16 <= low_digit,
        decimal,
    }
}

fn uncarried(byte: u8) -> Uncorrected
    ensures { result ≡ uncarried byte }
{
    Uncorrected {
        byte,
        ac: false,
        one_bc: false,
        digit_carry: false,
        decimal: false,
    }
}

// A sum with decimal: no logical operation.
fn is_decimal(cv: u8, cc: u8) -> bool
    ensures { result ≡ is_decimal cv cc }
{
    (cv == 3) & !matches!(cc, 2 | 3 | 7)
}

// A digit over 9 on either input, as gated.
fn is_invalid(decimal: bool, a: u8, b: u8) -> bool
    ensures { result ≡ is_invalid decimal a b }
{
    decimal & !(digits::both_decimal(a) & digits::both_decimal(b))
}

// B as it enters, from B as gated.
fn entering_b(b: u8, c: Controls) -> u8
    ensures { result ≡ entering_b b c }
{
    entering(is_decimal(c.cv, c.cc), is_complement(c.cv, c.s0), b)
}

fn carry_in(cc: u8, s3: bool) -> bool
    ensures { result ≡ carry_into cc s3 }
{
    matches!(cc, 1 | 5) | ((cc == 6) & s3)
}

// By CC. That 4 to 6 save the carry is the cycle's to do.
fn operated(cc: u8, decimal: bool, a: u8, b: u8, carry: bool) -> Uncorrected
    ensures { result ≡ operated cc decimal a b carry }
{
    match cc {
        2 => uncarried(a & b),
        3 => uncarried(a | b),
        7 => uncarried(a ^ b),
        _ => summed(decimal, a, b, digits::one(carry)),
    }
}

fn result(u: Uncorrected) -> u8
    ensures { result ≡ result_of u }
{
    if u.decimal {
        correction::corrected(u.digit_carry, u.ac, u.byte)
    } else {
        u.byte
    }
}

fn finished(invalid: bool, u: Uncorrected) -> Sum
    ensures { result ≡ finished invalid u }
{
    let result = result(u);
    Sum {
        result,
        ac: u.ac,
        one_bc: u.one_bc,
        z0: result == 0,
        uncorrected: u.byte,
        digit_carry: u.digit_carry,
        invalid,
    }
}

// The result and its latches. The inputs are judged before the sum: behind it the compiler makes jumps of that (docs/BENCHMARK.md).
pub fn add(a: u8, b: u8, c: Controls) -> Sum
    ensures { result ≡ sum_of a b c }
{
    let decimal = is_decimal(c.cv, c.cc);
    let a_gated = gated_a(c.cf, a);
    let b_gated = gated_b(c.cg, b);
    let b_entering = entering_b(b_gated, c);
    let invalid = is_invalid(decimal, a_gated, b_gated);
    let carry = carry_in(c.cc, c.s3);
    finished(invalid, operated(c.cc, decimal, a_gated, b_entering, carry))
}

// What the unit does with the bytes that CA and CB chose, step by step. It corrects by itself: with two callers a large correction
// stays a call, and only decimal cycles make it.
pub fn work_of(a: u8, b: u8, c: Controls) -> Work
    ensures { result ≡ work_of a b c }
{
    let a_gated = gated_a(c.cf, a);
    let b_gated = gated_b(c.cg, b);
    let b_entering = entering_b(b_gated, c);
    let carry = carry_in(c.cc, c.s3);
    let sum = operated(c.cc, is_decimal(c.cv, c.cc), a_gated, b_entering, carry);
    let corrected = correction::corrected(sum.digit_carry, sum.ac, sum.byte);
    Work {
        a_chosen: a,
        a_gated,
        b_chosen: b,
        b_gated,
        b_entering,
        carry_in: carry,
        before: sum.byte,
        after: digits::first_of(sum.decimal, corrected, sum.byte),
    }
}
