// Runs against tests/second: drawn stores, readings, states, sizes and budgets.
#![tactic(auto)]

use agree::{Counts, Going, Lent};
use codes::Reading;
use machine::State;
use run::Ending;

type Storages = agree::Storages<4097, 65537, 257>;

// A run: the reading that its words were drawn for and its own, the state that it starts from, how much of each storage is lent,
// its budget, and the rate of words that seldom run.
#[derive(Clone, Copy)]
struct Trial {
    filled: Reading,
    reading: Reading,
    state: State,
    lent: Lent,
    budget: u32,
    rate: u64,
}

// Where an answer is counted that has no number of its own.
const STOPPED: usize = 101;

const SPENT: usize = 102;

const COMPATIBILITY: usize = 103;

fn main_size(x: u64) -> usize {
    [65536, 65536, 65536, 65536, 65536, 1, 256, 257][(x % 8) as usize]
}

fn store_size(x: u64) -> usize {
    [4096, 4096, 4096, 4096, 1, 256, 257, 4000][(x % 8) as usize]
}

// The largest budget is drawn seldom: a run may spend it.
fn drawn_budget(x: u64, seldom: u64) -> u32 {
    if x % 16 == 0 && seldom % 4 == 0 {
        return 1000000;
    }
    [
        1000, 0, 1, 2, 3, 10, 100, 500, 999, 1000, 1000, 1000, 1000, 1000, 1000, 1000001,
    ][(x % 16) as usize]
}

// One run of 8 is under the reading that its words were not drawn for.
fn drawn(a: u64, c: u64, e: u64) -> Trial {
    let which = a / 0x1000_0000_0000;
    let crossed = u64::from(a / 0x2000_0000_0000 % 8 == 0);
    let lent = Lent {
        words: store_size(a / 0x100),
        main: main_size(a / 0x800),
        local: 256,
    };
    Trial {
        filled: agree::reading_of(which),
        reading: agree::reading_of(which + crossed),
        state: agree::drawn_state(c, e, (a / 0x1_0000_0000 % 256) as u16),
        lent: lent.seldom_wrong(a % 256),
        budget: drawn_budget(a / 0x4000, a / 0x100_0000_0000),
        rate: agree::drawn_rate(a / 0x4_0000),
    }
}

// Where an ending is counted.
fn ending_at(e: Ending) -> usize {
    match e {
        Ending::Stopped => STOPPED,
        Ending::Refused(refusal) => usize::from(refusal.number()),
        Ending::Spent => SPENT,
    }
}

// A run with what is lent of each storage, and how many cycles ran.
fn case(g: &mut Going, s: &mut Storages, counts: &mut Counts) -> u32 {
    let a = g.draw();
    let c = g.draw();
    let e = g.draw();
    let t = drawn(a, c, e);
    agree::fill_store(g, t.filled, t.rate, &mut s.store);
    let words = t.lent.words.min(4097);
    let main = agree::part(&mut s.main, t.lent.main);
    let local = agree::part(&mut s.local, t.lent.local);
    let f = run::run(t.reading, &s.store[..words], main, local, t.state, t.budget);
    counts.tally(ending_at(f.ending));
    counts.tally_if(matches!(t.reading, Reading::Compatibility), COMPATIBILITY);
    g.mix_finished(f);
    g.mix_bytes(main);
    g.mix_bytes(local);
    f.count
}

fn report(counts: &Counts, cycles: u64) {
    counts.print(b"stopped", STOPPED);
    counts.print(b"spent", SPENT);
    counts.print_each(b"refused ", 1, 12);
    counts.print(b"refused 22", 22);
    agree::print_count(b"cycles", cycles);
    counts.print(b"compatibility", COMPATIBILITY);
}

fn main() {
    let mut s = Storages::new();
    s.drawn(29, 31);
    let mut counts = Counts::new();
    let mut cycles: u64 = 0;
    let mut g = Going { x: 23, digest: 5 };
    for k in 0..1000 {
        cycles = cycles.wrapping_add(u64::from(case(&mut g, &mut s, &mut counts)));
        g.print_every(100, k + 1);
    }
    report(&counts, cycles);
}
