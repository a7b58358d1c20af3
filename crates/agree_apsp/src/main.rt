// AP and SP against tests/second: every length, operation and sign, sizes that are equal or nearly so, bad digits and signs
// in every place, one field twice, the ends of storage, and each refusal.
#![tactic(auto)]

ghost use Rattle.std.specs.Prelude.{◌≤◌};

use agree::{Counts, Going, Trial};
use decimal::Added;

// No words are drawn.
type Storages = agree::Storages<0, 65537, 257>;

// Where a difference that was complemented again is counted.
const AGAIN: usize = 3;

// The six signs, C and D most often.
const SIGNS: [u8; 8] = [12, 13, 12, 13, 10, 11, 14, 15];

// Good digits in every byte: one time in eight all nines, in eight all zeros, in four one byte over and over.
fn fill_digits(g: &mut Going, style: u64, bytes: &mut [u8]) {
    for byte in bytes {
        let x = g.draw();
        *byte = match style % 8 {
            0 => 0x99,
            1 => 0,
            2 | 3 => agree::two_digits(style / 8),
            _ => agree::two_digits(x / 256),
        };
    }
}

// The last place of a field; a length that no field has is taken as 1 or 16.
fn last_place(length: usize) -> usize
    ensures { result ≤ 15 }
{
    length.saturating_sub(1).min(15)
}

// A byte at a place of a field, the last one most often, where storage has that place.
fn put_in(main: &mut [u8], start: usize, length: usize, x: u64, byte: u8) {
    let place = last_place(length).min((x % 16) as usize);
    agree::put_byte(main, start.saturating_add(place), byte);
}

// A sign at the last place of a field.
fn put_sign(main: &mut [u8], start: usize, length: usize, x: u64) {
    if let Some(byte) = main.get_mut(start.saturating_add(last_place(length))) {
        *byte = *byte / 16 * 16 + SIGNS[(x % 8) as usize] % 16;
    }
}

// One time in two, one byte of the first field drawn anew.
fn put_digits(main: &mut [u8], t: Trial, e: u64) {
    if e % 2 == 0 {
        put_in(main, t.first, t.length, e / 2, agree::two_digits(e / 0x100));
    }
}

// One time in six, any byte in a field.
fn spoil(main: &mut [u8], start: usize, length: usize, x: u64) {
    if x % 6 == 0 {
        put_in(main, start, length, x / 8, (x / 256 % 256) as u8);
    }
}

fn lay_out(main: &mut [u8], t: Trial, e: u64) {
    put_digits(main, t, e);
    put_sign(main, t.first, t.length, e / 0x1_0000);
    put_sign(main, t.second, t.length, e / 0x10_0000);
    spoil(main, t.first, t.length, e / 0x100_0000);
    spoil(main, t.second, t.length, e / 0x100_0000_0000);
}

// A difference was complemented again: more than 14 cycles a byte and 16 more.
fn again(length: usize, count: u32) -> bool {
    length.min(16) * 14 + 16 < count as usize
}

// Both ends of main storage are drawn anew.
fn case(g: &mut Going, s: &mut Storages, counts: &mut Counts) {
    let a = g.draw();
    let b = g.draw();
    let c = g.draw();
    let t = agree::drawn_fields(a, b);
    fill_digits(g, c / 0x100, agree::part(&mut s.main, 300));
    fill_digits(g, c / 0x1_0000_0000, agree::high(&mut s.main));
    lay_out(&mut s.main, t, g.draw());
    let lent = agree::part(&mut s.main, t.main);
    let answer = apsp::add(
        lent,
        agree::part(&mut s.local, t.local),
        t.first,
        t.second,
        t.length,
        t.on,
    );
    g.mix_added(answer, counts);
    if let Added::Summed(_, count) = answer {
        counts.tally_if(again(t.length, count), AGAIN);
    }
    g.mix_ends(&s.main, &s.local);
}

fn report(counts: &Counts) {
    counts.print(b"done", 0);
    counts.print(b"done with overflow", 1);
    counts.print(b"complemented again", AGAIN);
    counts.print(b"bad", 2);
    counts.print(b"refused 1", 17);
    counts.print(b"refused 12", 28);
    counts.print(b"refused 13", 29);
    counts.print(b"refused 14", 30);
}

fn main() {
    let mut s = Storages::new();
    s.drawn(79, 83);
    let mut counts = Counts::new();
    let mut g = Going { x: 73, digest: 11 };
    for k in 0..40000 {
        case(&mut g, &mut s, &mut counts);
        if k % 4000 == 3999 {
            g.print_with(&s.main, k + 1);
        }
    }
    report(&counts);
}
