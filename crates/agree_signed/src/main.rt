// The signed read-out against tests/second: numbers of every size written and fields of every sign digit read, bad digits
// in every place, and fields of other lengths.
#![tactic(auto)]

use agree::{Counts, Going};

// 3, the powers of ten, and the greatest i64.
const NEAR: [u64; 20] = [
    3,
    10,
    100,
    1000,
    10_000,
    100_000,
    1_000_000,
    10_000_000,
    100_000_000,
    1_000_000_000,
    10_000_000_000,
    100_000_000_000,
    1_000_000_000_000,
    10_000_000_000_000,
    100_000_000_000_000,
    1_000_000_000_000_000,
    10_000_000_000_000_000,
    100_000_000_000_000_000,
    1_000_000_000_000_000_000,
    9_223_372_036_854_775_807,
];

// A size at or just below one of these, or any.
fn drawn_size(a: u64, b: u64) -> u64 {
    if b % 2 == 0 {
        return NEAR[(b / 2 % 20) as usize].wrapping_sub(a % 4);
    }
    a >> (b / 2 % 64)
}

// The low 63 bits of a size, or -1 less them, which is every bit turned: every i64 is one of these.
fn number(size: u64, minus: bool) -> i64 {
    let n = (size % 0x8000_0000_0000_0000) as i64;
    if minus {
        return !n;
    }
    n
}

// The size again.
fn size_of(n: i64) -> u64 {
    (if n < 0 { !n } else { n }) as u64
}

// 8 bytes, or one time in 16 any length up to 20.
fn drawn_length(x: u64) -> usize {
    if x % 16 == 0 {
        return (x / 16 % 21) as usize;
    }
    8
}

// One time in two a good digit and any sign in the eighth byte, then any byte in one of the twenty.
fn spoil(field: &mut [u8; 20], x: u64) {
    let last = (x / 2 % 10 * 16 + x / 32 % 16) as u8;
    if x % 2 == 0 {
        field[7] = last;
    }
    field[(x / 512 % 20) as usize] = (x / 0x1_0000 % 256) as u8;
}

// A write to the first bytes of the field, counted at its refusal's number, or at 0; and all of the field after it.
fn write(number: i64, length: usize, g: &mut Going, field: &mut [u8; 20], counts: &mut Counts) {
    let answer = signed::write_signed(number, agree::part(field, length));
    let number = agree::number_of(&answer);
    counts.tally(usize::from(number));
    g.mix(u64::from(number));
    g.mix_bytes(field);
}

// Where what reading answers is counted: a refusal at its number and 64 more, or minus at 64 and plus at 65.
const MINUS: u8 = 64;

const PLUS: u8 = 65;

fn read(length: usize, g: &mut Going, field: &[u8; 20], counts: &mut Counts) {
    match signed::read_signed(&field[..length.min(20)]) {
        Ok(n) => {
            let which = if n < 0 { MINUS } else { PLUS };
            counts.tally(usize::from(which));
            g.mix(u64::from(which));
            g.mix(size_of(n));
        }
        Err(refusal) => {
            counts.tally(64 + usize::from(refusal.number()));
            g.mix(u64::from(refusal.number()));
        }
    }
    g.mix_bytes(field);
}

fn case(g: &mut Going, field: &mut [u8; 20], counts: &mut Counts) {
    let a = g.draw();
    let b = g.draw();
    let c = g.draw();
    let length = drawn_length(c / 0x100_0000);
    let n = number(drawn_size(a, b / 2), b % 2 == 0);
    write(n, length, g, field, counts);
    spoil(field, c);
    read(length, g, field, counts);
}

fn report(counts: &Counts) {
    counts.print(b"written", 0);
    counts.print(b"write refused 27", 27);
    counts.print(b"write refused 33", 33);
    counts.print(b"read minus", 64);
    counts.print(b"read plus", 65);
    counts.print(b"read refused 25", 89);
    counts.print(b"read refused 26", 90);
    counts.print(b"read refused 33", 97);
}

fn main() {
    let mut field = [0u8; 20];
    let mut counts = Counts::new();
    Going { x: 71, digest: 0 }.fill(&mut field);
    let mut g = Going { x: 67, digest: 10 };
    for k in 0..20000 {
        case(&mut g, &mut field, &mut counts);
        g.print_every(2000, k + 1);
    }
    report(&counts);
}
