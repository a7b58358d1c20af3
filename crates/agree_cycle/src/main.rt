// Single cycles against tests/second, and the work that would be done in each: drawn words, readings, states and storage sizes.
#![tactic(auto)]

use adder::Work;
use agree::{Answer, Counts, Going, Lent};
use codes::Reading;
use machine::State;
use word::Fields;

type Storages = agree::Storages<4097, 65537, 257>;

// A case: the reading, the word that stands at WX, the state, and how much of each storage is lent.
#[derive(Clone, Copy)]
struct Trial {
    reading: Reading,
    word: u64,
    state: State,
    lent: Lent,
}

// Where what a cycle that ran shows is counted, and from where on the fields that 10 names, by their places, and the seven codes.
const DIGIT_CARRY: usize = 110;

const INVALID: usize = 111;

const KEPT_OUT: usize = 112;

const CODES: usize = 120;

const FIELDS: usize = 256;

fn main_size(x: u64) -> usize {
    [65536, 65536, 65536, 65536, 1, 255, 256, 257][(x % 8) as usize]
}

fn store_size(x: u64) -> usize {
    [4096, 4096, 4096, 4095, 1, 2, 256, 1000][(x % 8) as usize]
}

// One WX of 32 is any number, and the others lie in the store.
fn drawn_wx(words: usize, x: u64) -> u16 {
    if words == 0 {
        return 0;
    }
    if x % 32 == 0 {
        return (x / 32 % 65536) as u16;
    }
    (x / 32 % words as u64 % 65536) as u16
}

fn drawn(a: u64, b: u64, c: u64, e: u64, f: u64, g: u64) -> Trial {
    let reading = agree::reading_of(g / 0x100_0000_0000);
    let words = store_size(f / 0x100);
    let main = main_size(f / 0x800);
    let wx = drawn_wx(words, g);
    let state = agree::drawn_state(c, e, wx);
    let close = main < 65536 && f / 0x4000 % 4 != 0;
    let lent = Lent {
        words,
        main,
        local: 256,
    };
    Trial {
        reading,
        word: agree::word_for(reading, a, b, f / 0x1_0000, u32::from(wx) % 4096),
        state: if close { agree::near(state) } else { state },
        lent: lent.seldom_wrong(f % 256),
    }
}

// After an answer, and after the bytes of storage that the state before it addresses.
fn mix_answer(g: &mut Going, answer: Answer, main: &[u8], local: &[u8], before: State) {
    let at = usize::from(before.m) * 256 + usize::from(before.n);
    let main = digits::byte_at(main, at);
    let local = digits::byte_at(local, usize::from(before.n));
    g.mix(answer.code(0));
    g.mix_state(answer.state);
    g.mix(u64::from(main) * 256 + u64::from(local));
}

// After the work of the next word, or after 0 where it would make no sum.
fn mix_work(g: &mut Going, sum: Option<Work>) {
    let Some(w) = sum else {
        g.mix(0);
        return;
    };
    g.mix(1);
    g.mix(u64::from_be_bytes([
        w.a_chosen,
        w.a_gated,
        w.b_chosen,
        w.b_gated,
        w.b_entering,
        u8::from(w.carry_in),
        w.before,
        w.after,
    ]));
}

fn is_decimal(f: Fields) -> bool {
    f.cv == 3 && !matches!(f.cc, 2 | 3 | 7)
}

// A digit over 9 was chosen, and no gate let one in.
fn is_kept_out(w: Work) -> bool {
    let chosen = digits::both_decimal(w.a_chosen) & digits::both_decimal(w.b_chosen);
    let gated = digits::both_decimal(w.a_gated) & digits::both_decimal(w.b_gated);
    !chosen & gated
}

// A digit over 9 kept out of a decimal sum counts beside the two lamps.
fn count_lamps(f: Fields, sum: Option<Work>, s: State, counts: &mut Counts) {
    let kept_out = is_decimal(f) && sum.is_some_and(is_kept_out);
    counts.tally_if(s.digit_carry, DIGIT_CARRY);
    counts.tally_if(s.invalid, INVALID);
    counts.tally_if(kept_out, KEPT_OUT);
}

// The seven codes on which the readings differ. Their names stand apart: these are asked at each word, those are printed once.
fn seven(f: Fields) -> [bool; 7] {
    [
        f.ch == 3,
        f.ch == 8,
        f.cl == 4,
        f.cl == 6,
        f.cl == 12,
        f.cs == 5,
        f.cs == 15,
    ]
}

const NAMES: [&[u8]; 14] = [
    b"CH 3 basic",
    b"CH 3 compatibility",
    b"CH 8 basic",
    b"CH 8 compatibility",
    b"CL 4 basic",
    b"CL 4 compatibility",
    b"CL 6 basic",
    b"CL 6 compatibility",
    b"CL 12 basic",
    b"CL 12 compatibility",
    b"CS 5 basic",
    b"CS 5 compatibility",
    b"CS 15 basic",
    b"CS 15 compatibility",
];

// By reading, each code.
fn count_codes(reading: Reading, f: Fields, counts: &mut Counts) {
    let column = usize::from(matches!(reading, Reading::Compatibility));
    for (k, has) in seven(f).into_iter().enumerate() {
        counts.tally_if(has, CODES + 2 * k + column);
    }
}

// The case with what is lent of each storage; its word is put first.
fn lend(t: Trial, g: &mut Going, s: &mut Storages, counts: &mut Counts) {
    s.put(t.state.wx, t.word);
    let store = &s.store[..t.lent.words.min(4097)];
    let main = agree::part(&mut s.main, t.lent.main);
    let local = agree::part(&mut s.local, t.lent.local);
    let sum = machine::next_sum(store, t.state);
    let answer = Answer::of(machine::cycle(t.reading, store, main, local, t.state));
    counts.tally(usize::from(answer.number));
    counts.tally(FIELDS + usize::from(answer.field));
    if answer.ran() {
        let f = word::fields_of(t.word);
        count_lamps(f, sum, answer.state, counts);
        count_codes(t.reading, f, counts);
    }
    mix_work(g, sum);
    mix_answer(g, answer, main, local, t.state);
}

fn case(g: &mut Going, s: &mut Storages, counts: &mut Counts) {
    let a = g.draw();
    let b = g.draw();
    let c = g.draw();
    let e = g.draw();
    let f = g.draw();
    let last = g.draw();
    lend(drawn(a, b, c, e, f, last), g, s, counts);
}

fn report(counts: &Counts) {
    counts.print(b"ran", 100);
    counts.print(b"stopped", 101);
    counts.print_each(b"refused ", 1, 12);
    counts.print(b"CH", FIELDS + 4);
    counts.print(b"CL", FIELDS + 5);
    counts.print(b"CM", FIELDS + 6);
    counts.print(b"CU", FIELDS + 7);
    counts.print(b"CA", FIELDS + 8);
    counts.print(b"AA", FIELDS + 9);
    counts.print(b"AK", FIELDS + 12);
    counts.print(b"CD", FIELDS + 15);
    counts.print(b"CS", FIELDS + 20);
    counts.print(b"AS", FIELDS + 21);
    counts.print(b"digit carry", DIGIT_CARRY);
    counts.print(b"invalid", INVALID);
    counts.print(b"kept out", KEPT_OUT);
    for (k, name) in NAMES.into_iter().enumerate() {
        counts.print(name, CODES + k);
    }
}

// After every 10,000 cases, all that is stored.
fn main() {
    let mut s = Storages::new();
    s.drawn(17, 19);
    let mut counts = Counts::new();
    let mut g = Going { x: 13, digest: 4 };
    for k in 0..240000 {
        case(&mut g, &mut s, &mut counts);
        if k % 10000 == 9999 {
            s.mix(&mut g);
            g.print(k + 1);
        }
    }
    report(&counts);
}
