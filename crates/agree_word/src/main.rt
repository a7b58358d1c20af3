// Taking apart and packing against tests/second: drawn words, fields and addresses, within their limits and beyond.
#![tactic(auto)]

use agree::{Counts, Going};
use digits::Refusal;
use word::Fields;

// An address of the store, or one time in 16 any number.
fn drawn_address(x: u64) -> u32 {
    if x % 16 == 0 {
        return (x / 16 % 0x1_0000_0000) as u32;
    }
    (x / 16 % 4097) as u32
}

fn mix_fields(g: &mut Going, f: Fields) {
    g.mix(u64::from_be_bytes([f.cn, f.ch, f.cl, f.cm, f.cu, f.ca, f.aa, f.cb]));
    g.mix(u64::from_be_bytes([f.ck, f.ak, f.pk, f.cd, f.cf, f.cg, f.cv, f.cc]));
    g.mix(u64::from_be_bytes([0, 0, 0, 0, 0, 0, f.cs, f.asb]));
}

// The word that stands for the case: of the kinds of a cycle, or any 64 bits.
fn drawn_word(a: u64, b: u64, x: u64, address: u32) -> u64 {
    if x % 16 == 0 {
        return a;
    }
    let reading = agree::reading_of(b / 0x100_0000_0000);
    agree::word_for(reading, a, b, x / 16, address % 4096)
}

// The digest after what taking apart answers, and where that is counted: at its number, or at 0.
fn mix_apart(g: &mut Going, word: u64, address: u32) -> usize {
    match word::take_apart(word, address) {
        Ok(f) => {
            mix_fields(g, f);
            0
        }
        Err(refusal) => {
            g.mix(u64::from(refusal.number()));
            usize::from(refusal.number())
        }
    }
}

// A word taken apart, and its fault at an address of any size.
fn apart(g: &mut Going, counts: &mut Counts) {
    let a = g.draw();
    let b = g.draw();
    let c = g.draw();
    let address = drawn_address(g.draw());
    let word = drawn_word(a, b, c, address);
    counts.tally(mix_apart(g, word, address));
    let fault = word::fault(word, address);
    g.mix(u64::from(fault.map_or(0, Refusal::number)));
}

// The fields with one of them any byte.
fn widened(f: Fields, which: u64, byte: u8) -> Fields {
    let mut f = f;
    match which {
        0 => f.cn = byte,
        1 => f.ch = byte,
        2 => f.cl = byte,
        3 => f.cm = byte,
        4 => f.cu = byte,
        5 => f.ca = byte,
        6 => f.aa = byte,
        7 => f.cb = byte,
        8 => f.ck = byte,
        9 => f.ak = byte,
        10 => f.pk = byte,
        11 => f.cd = byte,
        12 => f.cf = byte,
        13 => f.cg = byte,
        14 => f.cv = byte,
        15 => f.cc = byte,
        16 => f.cs = byte,
        _ => f.asb = byte,
    }
    f
}

// Fields with PK right, with one of them near its width or any byte, or with PK as it comes.
fn drawn_fields(a: u64, b: u64, x: u64) -> Fields {
    let f = agree::raw(a, b);
    match x % 8 {
        0..4 => f,
        4 | 5 => widened(f, x / 8 % 18, (x / 0x1_0000 % 256) as u8),
        6 => widened(f, x / 8 % 18, (x / 0x1_0000 % 72) as u8),
        _ => Fields {
            pk: (x / 8 % 2) as u8,
            ..f
        },
    }
}

// Fields packed, and what they packed to taken apart again.
fn pack(g: &mut Going, counts: &mut Counts) {
    let a = g.draw();
    let b = g.draw();
    let c = g.draw();
    let address = drawn_address(g.draw());
    let f = drawn_fields(a, b, c);
    let answer = word::pack(f, address);
    counts.tally(usize::from(agree::number_of(&answer)));
    g.mix(agree::packed(f, address));
    mix_apart(g, agree::packed(f, address), address);
}

fn report(counts: &Counts) {
    counts.print(b"answered", 0);
    counts.print_each(b"refused ", 3, 10);
    counts.print(b"refused 20", 20);
}

fn aparts() {
    agree::print_name(b"taken apart");
    let mut counts = Counts::new();
    let mut g = Going { x: 37, digest: 6 };
    for k in 0..100000 {
        apart(&mut g, &mut counts);
        g.print_every(10000, k + 1);
    }
    report(&counts);
}

fn packs() {
    agree::print_name(b"packed");
    let mut counts = Counts::new();
    let mut g = Going { x: 41, digest: 7 };
    for k in 0..100000 {
        pack(&mut g, &mut counts);
        g.print_every(10000, k + 1);
    }
    report(&counts);
}

fn main() {
    aparts();
    packs();
}
