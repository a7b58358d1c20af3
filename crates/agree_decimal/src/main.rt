// Decimal adds against tests/second, in all main storage and in fences: every length and carry, bad digits in every place, one field
// twice, the ends of storage and of a fence, and each refusal.
#![tactic(auto)]

use agree::{Counts, Going, Trial};
use decimal::Added;
use storage::Fence;

// No words are drawn.
type Storages = agree::Storages<0, 65537, 257>;

// Good digits in every byte, which one time in four are all nines and one time in four all zeros.
fn fill_digits(g: &mut Going, style: u64, bytes: &mut [u8]) {
    for byte in bytes {
        let x = g.draw();
        *byte = match style % 4 {
            1 => 0x99,
            2 => 0,
            _ => agree::two_digits(x / 256),
        };
    }
}

// A bad digit in one byte of storage, near the start of a field.
fn spoil(main: &mut [u8], start: usize, x: u64) {
    let at = start.saturating_add((x / 0x100 % 18) as usize);
    agree::put_byte(main, at, (x / 0x1_0000 % 256) as u8);
}

// The sum, or the first of two that are as large as numbers go.
fn plus(n: usize, m: usize) -> usize {
    if n < 70000 && m < 70000 { n + m } else { n }
}

fn fence_start(low: usize, high: usize, y: u64) -> usize {
    match y % 8 {
        0 => low,
        1 => plus(low, 1),
        2 => low.saturating_sub(1),
        3 => high,
        _ => 0,
    }
}

fn fence_end(last: usize, main: usize, y: u64) -> usize {
    match y % 8 {
        0 => last,
        1 => last.saturating_sub(1),
        2 => plus(last, 1),
        3 => plus(main, 1),
        _ => main,
    }
}

// A fence round both fields, or one byte narrower or wider, or up to an end of main storage.
fn fence_for(t: Trial, y: u64) -> Fence {
    let high = t.first.max(t.second);
    Fence {
        start: fence_start(t.first.min(t.second), high, y),
        end: fence_end(plus(high, t.length), t.main, y / 8),
    }
}

// One add in two is in a fence.
fn added(t: Trial, y: u64, s: &mut Storages) -> Added {
    let main = agree::part(&mut s.main, t.main);
    let local = agree::part(&mut s.local, t.local);
    if y / 64 % 2 == 1 {
        let fence = fence_for(t, y);
        return session::add(fence, main, local, t.first, t.second, t.length, t.on);
    }
    decimal::add(main, local, t.first, t.second, t.length, t.on)
}

// One time in four a digit of either field is bad.
fn spoil_some(main: &mut [u8], t: Trial, c: u64) {
    match c % 8 {
        0 => spoil(main, t.first, c / 8),
        1 => spoil(main, t.second, c / 8),
        _ => (),
    }
}

// Both ends of main storage are drawn anew.
fn case(g: &mut Going, s: &mut Storages, counts: &mut Counts) {
    let a = g.draw();
    let b = g.draw();
    let c = g.draw();
    let y = g.draw();
    let t = agree::drawn_fields(a, b);
    fill_digits(g, c / 0x100, agree::part(&mut s.main, 300));
    fill_digits(g, c / 0x400, agree::high(&mut s.main));
    spoil_some(&mut s.main, t, c);
    g.mix_added(added(t, y, s), counts);
    g.mix_ends(&s.main, &s.local);
}

fn report(counts: &Counts) {
    counts.print(b"summed with no carry", 0);
    counts.print(b"summed with a carry", 1);
    counts.print(b"bad digit", 2);
    counts.print(b"refused 1", 17);
    counts.print(b"refused 12", 28);
    counts.print(b"refused 13", 29);
    counts.print(b"refused 14", 30);
    counts.print(b"refused 32", 48);
}

fn main() {
    let mut s = Storages::new();
    s.drawn(59, 61);
    let mut counts = Counts::new();
    let mut g = Going { x: 53, digest: 9 };
    for k in 0..40000 {
        case(&mut g, &mut s, &mut counts);
        if k % 4000 == 3999 {
            g.print_with(&s.main, k + 1);
        }
    }
    report(&counts);
}
