// Traps and returns against tests/second: calls alone, return words beside every CM, CH and CL, and runs that traps break into.
#![tactic(auto)]

use agree::{Answer, Counts, Going};
use codes::Reading;
use machine::State;
use run::Ending;
use word::Fields;

type Storages = agree::Storages<4096, 65536, 256>;

// Where an answer is counted that has no number of its own.
const CLOSED: usize = 103;

const CYCLES: usize = 104;

// 0 for a trap that is taken, else its refusal's number; and the state after it.
fn trapped(state: State, address: u32) -> (u8, State) {
    match trap::trap(state, address) {
        Ok(taken) => (0, taken),
        Err(refusal) => (refusal.number(), state),
    }
}

// Taken at 0, a refusal at its number.
fn report_traps(counts: &Counts) {
    counts.print(b"taken", 0);
    counts.print(b"refused 29", 29);
    counts.print(b"refused 30", 30);
}

// The last address and the one past it, any number, one too high, or, one time in two, any that is taken.
fn drawn_address(x: u64) -> u32 {
    match x % 8 {
        0 => 4095,
        1 => 4096,
        2 => (x / 8 % 0x1_0000_0000) as u32,
        3 => (4096 + x / 8 % 4096) as u32,
        _ => (x / 8 % 4096) as u32,
    }
}

// ---- calls

fn call(g: &mut Going, counts: &mut Counts) {
    let c = g.draw();
    let e = g.draw();
    let f = g.draw();
    let state = agree::drawn_state(c, e, (f % 65536) as u16);
    let (number, after) = trapped(state, drawn_address(f / 65536));
    counts.tally(usize::from(number));
    g.mix(u64::from(number));
    g.mix_state(after);
}

fn calls(g: &mut Going) {
    let mut counts = Counts::new();
    for k in 0..20000 {
        call(g, &mut counts);
        g.print_every(5000, k + 1);
    }
    report_traps(&counts);
}

// ---- return words

// A return word of these codes. Where CL = 2 packing would refuse it, so CU is turned afterwards.
fn return_word(f: Fields, cm: u8, ch: u8, cl: u8, address: u32) -> u64 {
    let (cu, turned) = if cl == 2 { (0, 0xC_0000_0000) } else { (3, 0) };
    let back = agree::with_right_pk(Fields {
        cm,
        ch,
        cl,
        cu,
        ..f
    });
    agree::packed(back, address) ^ turned
}

// The word of CM, CH, CL and the latch that `k` counts through, the latch fastest, and the reading slowest.
fn return_case(g: &mut Going, k: u32, s: &mut Storages, counts: &mut Counts) {
    let a = g.draw();
    let b = g.draw();
    let c = g.draw();
    let e = g.draw();
    let wx = (g.draw() % 4096) as u16;
    let cm = (k / 512 % 3) as u8;
    let ch = (k / 32 % 16) as u8;
    let cl = (k / 2 % 16) as u8;
    let reading = agree::reading_of(u64::from(k / 1536));
    let f = agree::modelled(reading, a, b);
    s.put(wx, return_word(f, cm, ch, cl, u32::from(wx)));
    let state = State {
        owed: k % 2 == 1,
        ..agree::drawn_state(c, e, wx)
    };
    let cycled = machine::cycle(reading, &s.store, &mut s.main, &mut s.local, state);
    let answer = Answer::of(cycled);
    counts.tally(usize::from(answer.number));
    g.mix(answer.code(0));
    g.mix_state(answer.state);
}

fn report_returns(counts: &Counts) {
    counts.print(b"ran", 100);
    counts.print(b"refused 8", 8);
    counts.print(b"refused 10", 10);
    counts.print(b"refused 11", 11);
}

fn returns(g: &mut Going, s: &mut Storages) {
    let mut counts = Counts::new();
    for k in 0..12288 {
        return_case(g, k, s, &mut counts);
        if k % 1536 == 1535 {
            s.mix(g);
            g.print(k + 1);
        }
    }
    report_returns(&counts);
}

// ---- runs broken into

// Where an ending is counted: any refusal at 100, stopped at 101 and spent at 102.
fn ending_at(e: Ending) -> usize {
    match e {
        Ending::Refused(_) => 100,
        Ending::Stopped => 101,
        Ending::Spent => 102,
    }
}

fn trap_address(y: u64) -> u32 {
    if y % 16 == 0 {
        return (4096 + y / 16 % 4096) as u32;
    }
    (y / 16 % 4096) as u32
}

// A run of fewer than 64 cycles, and a trap. A run that found a return owed, and left none, is counted as closed.
fn piece(
    g: &mut Going,
    reading: Reading,
    state: State,
    s: &mut Storages,
    counts: &mut Counts,
) -> State {
    let x = g.draw();
    let budget = (x % 64) as u32;
    let f = run::run(reading, &s.store, &mut s.main, &mut s.local, state, budget);
    counts.tally(ending_at(f.ending));
    counts.tally_if(state.owed & !f.state.owed, CLOSED);
    counts.add(CYCLES, f.count);
    g.mix_finished(f);
    let (number, after) = trapped(f.state, trap_address(x / 64));
    counts.tally(usize::from(number));
    g.mix(u64::from(number));
    after
}

fn broken_run(g: &mut Going, s: &mut Storages, counts: &mut Counts) {
    let a = g.draw();
    let c = g.draw();
    let e = g.draw();
    let reading = agree::reading_of(a / 0x1000_0000_0000);
    agree::fill_store(g, reading, agree::drawn_rate(a / 0x4_0000), &mut s.store);
    let mut state = State {
        owed: false,
        ..agree::drawn_state(c, e, (a / 0x1_0000_0000 % 256) as u16)
    };
    for _ in 0..6 {
        state = piece(g, reading, state, s, counts);
    }
    s.mix(g);
}

fn report_runs(counts: &Counts) {
    counts.print(b"stopped", 101);
    counts.print(b"spent", 102);
    counts.print(b"refused", 100);
    report_traps(counts);
    counts.print(b"closed", CLOSED);
    counts.print(b"cycles", CYCLES);
}

fn runs(g: &mut Going, s: &mut Storages) {
    let mut counts = Counts::new();
    for k in 0..200 {
        broken_run(g, s, &mut counts);
        g.print_every(50, k + 1);
    }
    report_runs(&counts);
}

fn main() {
    let mut s = Storages::new();
    s.drawn(41, 43);
    let mut g = Going { x: 37, digest: 6 };
    calls(&mut g);
    returns(&mut g, &mut s);
    runs(&mut g, &mut s);
}
