// Decks against tests/second: written, damaged in each part, read with rooms too small, exact and larger, and listed.
#![tactic(auto)]

ghost use Rattle.std.specs.Prelude.{◌≤◌};

use agree::{Counts, Going};
use digits::Refusal;

fn words_of(k: u32, x: u64) -> usize {
    if k % 64 == 7 {
        return 0;
    }
    if k % 64 == 15 {
        return 4097;
    }
    if k % 8 == 7 {
        return (x % 4098) as usize;
    }
    [1, 61, 62, 63, 124, 4092, 4096, 0][(k % 8) as usize]
}

// The bytes of a deck of so many words.
fn bytes_of(words: usize) -> usize {
    if words < 5000 {
        return (words + 61) / 62 * 512;
    }
    0
}

// A room for `n`: exact, one too small, none, one more, or the largest.
fn room_for(n: usize, most: usize, x: u64) -> usize {
    match x % 16 {
        0..10 => n,
        10 | 11 => n.saturating_sub(1),
        12 => 0,
        13 | 14 => n.saturating_add(1),
        _ => most,
    }
}

// Good words in all of the store, and where `bad` is below 4,096 one at that place of any kind.
fn fill_words(g: &mut Going, bad: usize, store: &mut [u64]) {
    for (k, word) in store.iter_mut().enumerate() {
        let a = g.draw();
        let b = g.draw();
        let x = g.draw();
        *word = store_word(a, b, x, k == bad, (k % 4096) as u32);
    }
}

fn store_word(a: u64, b: u64, x: u64, bad: bool, address: u32) -> u64 {
    let reading = agree::reading_of(b / 0x100_0000_0000);
    if bad {
        let kind = x / 0x1_0000 * 64 + 44 + x / 256 % 20;
        return agree::word_for(reading, a, b, kind, address);
    }
    agree::packed(agree::modelled(reading, a, b), address)
}

fn turn(deck: &mut [u8], at: usize, mask: u8) {
    if let Some(byte) = deck.get_mut(at) {
        *byte ^= mask;
    }
}

// The group of eight bytes at `at`, high byte first, where the deck has it.
fn group(deck: &[u8], at: usize) -> u64 {
    match deck.get(at..).and_then(|rest| rest.first_chunk()) {
        Some(bytes) => u64::from_be_bytes(*bytes),
        None => 0,
    }
}

fn put_group(deck: &mut [u8], at: usize, v: u64) {
    if let Some(bytes) = deck.get_mut(at..).and_then(|rest| rest.first_chunk_mut()) {
        *bytes = v.to_be_bytes();
    }
}

// `v` more in the group at `at`, wrapping.
fn raise(deck: &mut [u8], at: usize, v: u64) {
    put_group(deck, at, group(deck, at).wrapping_add(v));
}

// The group at `at` with the bits of the mask turned, and the check at `check` made to hold again.
fn exchange(deck: &mut [u8], at: usize, check: usize, mask: u64) {
    let old = group(deck, at);
    let new = old ^ mask;
    put_group(deck, at, new);
    raise(deck, check, new.wrapping_sub(old));
}

// Where a byte is turned, in a block: anywhere, in the number, the count, the reserved bytes or the check.
fn turned(kind: u64, place: usize) -> usize
    ensures { result ≤ 511 }
{
    match kind {
        3 => place % 2,
        4 => 2 + place % 2,
        5 => 4 + place % 4,
        6 => 504 + place % 8,
        _ => place % 512,
    }
}

// What is done to a block that starts at `at`: nothing, a byte turned anywhere or in the number, the count, the reserved
// bytes or the check, or groups changed so that the check holds.
fn damage(deck: &mut [u8], at: usize, x: u64) {
    if 100000 < at {
        return;
    }
    let kind = x % 16;
    let place = (x / 0x100 % 512) as usize;
    let mask = (x / 0x10_0000 % 255 + 1) as u8;
    let power = 1u64 << (x / 0x1000_0000 % 64);
    let first = (x / 0x100 % 62 + 1) as usize;
    let second = (x / 0x1_0000 % 62 + 1) as usize;
    if kind < 7 {
        turn(deck, at + turned(kind, place), mask);
        return;
    }
    match kind {
        7 | 8 | 9 => {
            raise(deck, at + first * 8, power);
            raise(deck, at + second * 8, power.wrapping_neg());
        }
        10 | 11 => {
            raise(deck, at, power);
            raise(deck, at + 504, power);
        }
        12 => {
            raise(deck, at, 0x1_0000_0000);
            raise(deck, at + 504, 0x1_0000_0000);
        }
        13 => exchange(deck, at + first * 8, at + 504, 0x30_0000),
        14 => exchange(deck, at + first * 8, at + 504, 0x8_0010_0000),
        _ => turn(deck, at, 0),
    }
}

// The block that is damaged: any, or one time in four the last.
fn block_of(words: usize, x: u64) -> usize {
    let blocks = bytes_of(words) / 512;
    if blocks == 0 {
        return 0;
    }
    if x % 4 == 0 {
        return blocks - 1;
    }
    (x / 4 % blocks as u64) as usize
}

// How much of the deck is read: all of it, or a byte or a block less or more, or none.
fn length_of(bytes: usize, x: u64) -> usize {
    match x % 32 {
        0 => bytes.saturating_sub(1),
        1 => bytes.saturating_add(1),
        2 => bytes.saturating_sub(512),
        3 => bytes.saturating_add(512),
        4 => 0,
        _ => bytes,
    }
}

// After what reading or writing answers, which is counted at its refusal's number, or at 0.
fn mix_answer(g: &mut Going, answer: Result<usize, Refusal>, counts: &mut Counts) {
    let number = usize::from(agree::number_of(&answer));
    counts.tally(number);
    g.mix(answer.unwrap_or(number) as u64);
}

// Words, the deck that they are written to, where it is read again, and how decks were written and read so far.
#[derive(Drop)]
struct Decks {
    store: [u64; 4097],
    deck: [u8; 34816],
    again: [u64; 4097],
    written: Counts,
    read: Counts,
}

fn write(g: &mut Going, words: usize, x: u64, d: &mut Decks) {
    let room = room_for(bytes_of(words), 34816, x);
    let answer = deck::write(&d.store[..words.min(4097)], agree::part(&mut d.deck, room));
    mix_answer(g, answer, &mut d.written);
    g.mix_bytes(&d.deck);
}

// The answer, the words, and what the lister prints of the deck.
fn read(g: &mut Going, words: usize, x: u64, d: &mut Decks) {
    let n = length_of(bytes_of(words), x / 0x100).min(34816);
    let room = room_for(words, 4097, x);
    let answer = deck::read(&d.deck[..n], agree::part(&mut d.again, room));
    mix_answer(g, answer, &mut d.read);
    g.mix_words(&d.again);
    let mut text = [0u8; 77824];
    if let Ok(size) = listing::print(&d.deck[..n], &mut text) {
        g.mix_bytes(&text[..size.min(77824)]);
    }
}

fn case(g: &mut Going, k: u32, d: &mut Decks) {
    let a = g.draw();
    let b = g.draw();
    let c = g.draw();
    let e = g.draw();
    let words = words_of(k, a / 0x1_0000);
    let bad = (b / 0x1_0000 % 8 * 4096 + a / 0x100 % 4096) as usize;
    fill_words(g, bad, &mut d.store);
    write(g, words, b, d);
    damage(&mut d.deck, block_of(words, c / 0x1_0000) % 100 * 512, e);
    read(g, words, c, d);
}

fn main() {
    let mut d = Decks {
        store: [0; 4097],
        deck: [0; 34816],
        again: [0; 4097],
        written: Counts::new(),
        read: Counts::new(),
    };
    Going { x: 47, digest: 0 }.fill(&mut d.deck);
    let mut g = Going { x: 43, digest: 8 };
    for k in 0..2400 {
        case(&mut g, k, &mut d);
        g.print_every(100, k + 1);
    }
    agree::print_name(b"written");
    d.written.print_each(b"answer ", 0, 22);
    agree::print_name(b"read");
    d.read.print_each(b"answer ", 0, 22);
}
