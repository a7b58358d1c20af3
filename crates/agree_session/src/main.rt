// Sessions of two boards against tests/second: openings, single turns at and beside the edges of each fence, and sessions in drawn
// orders.
#![tactic(auto)]

use agree::{Answer, Counts, Going, Lent};
use codes::Reading;
use machine::State;
use session::Board;
use storage::Fence;

type Storages = agree::Storages<4097, 65537, 257>;

// ---- fences

fn main_size(x: u64) -> usize {
    [64, 256, 257, 300, 512, 1000, 4096, 65536][(x % 8) as usize]
}

// `x` below `n`, or 0 where nothing is.
fn below(x: u64, n: usize) -> usize {
    if n == 0 {
        return 0;
    }
    (x % n as u64) as usize
}

// Near the start of main storage or its end, past it, or anywhere.
fn edge(size: usize, x: u64) -> usize {
    let rest = x / 4;
    match x % 4 {
        0 => below(rest, 8),
        1 => size.saturating_sub(below(rest, 8)),
        2 => size.wrapping_add(below(rest, 4)),
        _ => below(rest, size.wrapping_add(1)),
    }
}

fn drawn_fence(size: usize, x: u64) -> Fence {
    Fence {
        start: edge(size, x % 0x1_0000_0000),
        end: edge(size, x / 0x1_0000_0000),
    }
}

// A fence in main storage of `m` bytes, changed against another: touching it, sharing a byte with it, without an end, empty, the other
// itself, or up to the end of main storage and one byte further.
fn moved(which: u64, m: usize, near: Fence, f: Fence) -> Fence {
    let Fence { start, end } = f;
    match which % 16 {
        0 => Fence {
            start: near.end,
            end,
        },
        1 => Fence {
            start: near.end.saturating_sub(1),
            end,
        },
        2 => Fence {
            start,
            end: near.start,
        },
        3 => Fence {
            start,
            end: near.start.wrapping_add(1),
        },
        4 => Fence {
            start,
            end: usize::MAX,
        },
        5 => Fence {
            start: usize::MAX,
            end,
        },
        6 => Fence { start, end: start },
        7 => near,
        8 => Fence {
            start,
            end: m.wrapping_add(1),
        },
        9 => Fence { start, end: m },
        _ => f,
    }
}

// One of 16 is changed.
fn seldom_moved(z: u64, m: usize, near: Fence, f: Fence) -> Fence {
    if z % 16 == 0 {
        return moved(z / 16, m, near, f);
    }
    f
}

// A board's own fence, and the other board's.
#[derive(Clone, Copy)]
struct Fences {
    own: Fence,
    other: Fence,
}

fn after(at: usize, x: u64, n: usize) -> usize {
    at.wrapping_add(1).wrapping_add(below(x, n))
}

fn gap(x: u64) -> usize {
    [0, 0, 1, 5][(x % 4) as usize]
}

// Two fences that are apart in main storage of `m` bytes, the first below the second or above it.
fn apart(m: usize, y: u64) -> Fences {
    let quarter = m / 4;
    let start = below(y, quarter);
    let end = after(start, y / 0x1_0000, quarter);
    let next = end.wrapping_add(gap(y / 0x1_0000_0000));
    let lower = Fence { start, end };
    let upper = Fence {
        start: next,
        end: after(next, y / 0x4_0000_0000, quarter),
    };
    let turned = y / 0x4000_0000_0000_0000 % 2 == 1;
    let (own, other) = if turned {
        (upper, lower)
    } else {
        (lower, upper)
    };
    Fences { own, other }
}

// ---- openings

// Two fences that are apart, or two of any kind.
fn drawn_fences(any: bool, size: usize, b: u64, c: u64) -> Fences {
    if any {
        return Fences {
            own: drawn_fence(size, b),
            other: drawn_fence(size, c),
        };
    }
    apart(size, b)
}

fn opening(g: &mut Going, counts: &mut Counts) {
    let a = g.draw();
    let b = g.draw();
    let c = g.draw();
    let size = main_size(a);
    let Fences { own, other } = drawn_fences(a / 256 % 2 == 0, size, b, c);
    let other = moved(a / 8, size, own, other);
    let opened = if a / 128 % 2 == 1 {
        session::open(size, other, own)
    } else {
        session::open(size, own, other)
    };
    let number = agree::number_of(&opened);
    counts.tally(usize::from(number));
    g.mix(u64::from(number));
}

fn openings(g: &mut Going) {
    let mut counts = Counts::new();
    for k in 0..20000 {
        opening(g, &mut counts);
        g.print_every(5000, k + 1);
    }
    counts.print(b"opened", 0);
    counts.print(b"refused 32", 32);
}

// ---- states at the edges of a fence

// As the high and the low byte of an address.
fn edge_address(f: Fences, k: u64) -> [u8; 2] {
    let Fences { own, other } = f;
    let at = match k % 8 {
        0 => own.start,
        1 => own.start.saturating_sub(1),
        2 => own.end,
        3 => own.end.saturating_sub(1),
        4 => other.start,
        5 => other.end.saturating_sub(1),
        6 => own.start.wrapping_add(below(k / 8, 32)),
        _ => below(k, 65536),
    };
    ((at % 65536) as u16).to_be_bytes()
}

// The state with every pair that addresses storage at or beside an edge.
fn at_edges(s: State, fences: Fences, g: u64) -> State {
    let [i, j] = edge_address(fences, g % 65536);
    let [u, v] = edge_address(fences, g / 0x1_0000 % 65536);
    let [l, t] = edge_address(fences, g / 0x1_0000_0000 % 65536);
    let [m, n] = edge_address(fences, g / 0x1_0000_0000_0000);
    State {
        i,
        j,
        u,
        v,
        l,
        t,
        m,
        n,
        ..s
    }
}

// ---- turns

fn mix_answer(g: &mut Going, answer: Answer, whose: u64) {
    g.mix(answer.code(whose));
    g.mix_state(answer.state);
}

// The board's own fence, and the other's, which one of 16 times is not as it should be.
fn fences_for(m: usize, y: u64, z: u64) -> Fences {
    let Fences { own, other } = apart(m, y);
    Fences {
        own,
        other: seldom_moved(z, m, own, other),
    }
}

fn turn(g: &mut Going, s: &mut Storages, counts: &mut Counts) {
    let a = g.draw();
    let b = g.draw();
    let x = g.draw();
    let c = g.draw();
    let e = g.draw();
    let y = g.draw();
    let edges = g.draw();
    let f = g.draw();
    let wx = (f % 4096) as u16;
    let m = main_size(f / 0x1000);
    let reading = agree::reading_of(f / 0x8000);
    let fences = fences_for(m, y, f / 0x100_0000 % 256);
    s.put(wx, agree::word_for(reading, a, b, x, u32::from(wx)));
    let state = at_edges(agree::drawn_state(c, e, wx), fences, edges);
    let lent = Lent {
        words: 4096,
        main: m,
        local: 256,
    };
    let lent = lent.seldom_wrong(f / 0x1_0000 % 256);
    let answer = Answer::of(session::turn(
        fences.own,
        fences.other,
        reading,
        &s.store[..lent.words.min(4097)],
        agree::part(&mut s.main, lent.main),
        agree::part(&mut s.local, lent.local),
        state,
    ));
    counts.tally(usize::from(answer.number));
    mix_answer(g, answer, 0);
}

fn report_turns(counts: &Counts) {
    counts.print(b"ran", 100);
    counts.print(b"stopped", 101);
    counts.print(b"refused 1", 1);
    counts.print(b"refused 10", 10);
    counts.print(b"refused 11", 11);
    counts.print(b"refused 32", 32);
}

fn turns(g: &mut Going, s: &mut Storages) {
    let mut counts = Counts::new();
    for k in 0..40000 {
        turn(g, s, &mut counts);
        if k % 2000 == 1999 {
            s.mix(g);
            g.print(k + 1);
        }
    }
    report_turns(&counts);
}

// ---- sessions

// How much main storage is lent, both boards' fences, the reading, in which style turns are drawn, and both boards' states.
#[derive(Clone, Copy)]
struct Session {
    main: usize,
    fences: Fences,
    reading: Reading,
    style: u64,
    state_a: State,
    state_b: State,
}

fn is_a(style: u64, k: u32, x: u64) -> bool {
    match style % 4 {
        0 => k % 2 == 0,
        1 => x % 2 == 0,
        2 => x % 8 != 0,
        _ => k / 7 % 2 == 0,
    }
}

// Where an answer is counted: a refusal by another number than 11 and 32 at 99.
fn place_of(number: u8) -> usize {
    match number {
        11 | 32 | 100 | 101 => usize::from(number),
        _ => 99,
    }
}

// A board that did not run is put at another word, and at edges again.
fn placed(s: State, fences: Fences, x: u64) -> State {
    let elsewhere = State {
        wx: (x / 0x1_0000 % 4096) as u16,
        ..s
    };
    at_edges(elsewhere, fences, x)
}

// A turn of board A, or of board B: where it did not run, one number more is drawn, and the board is put elsewhere.
fn session_turn(
    g: &mut Going,
    k: u32,
    session: &mut Session,
    s: &mut Storages,
    local_b: &mut [u8; 257],
    counts: &mut Counts,
) {
    let Fences { own: a, other: b } = session.fences;
    let of_a = is_a(session.style, k, g.draw());
    let turned = session::turn_of(
        if of_a { Board::A } else { Board::B },
        a,
        b,
        session.reading,
        &s.store[..4096],
        agree::part(&mut s.main, session.main),
        agree::part(&mut s.local, 256),
        agree::part(local_b, 256),
        session.state_a,
        session.state_b,
    );
    let answer = Answer::of(turned.answer);
    counts.tally(place_of(answer.number));
    session.state_a = turned.a;
    session.state_b = turned.b;
    if !answer.ran() {
        let x = g.draw();
        if of_a {
            session.state_a = placed(turned.a, session.fences, x);
        } else {
            session.state_b = placed(turned.b, Fences { own: b, other: a }, x);
        }
    }
    mix_answer(g, answer, u64::from(!of_a));
}

// A session, with words in all of the store.
fn begun(g: &mut Going, s: &mut Storages) -> Session {
    let a = g.draw();
    let c = g.draw();
    let e = g.draw();
    let y = g.draw();
    let h = g.draw();
    let main = main_size(a);
    let fences = fences_for(main, y, a / 0x100 % 256);
    let Fences { own, other } = fences;
    let reading = agree::reading_of(a / 0x1000_0000_0000);
    let rate = agree::drawn_rate(a / 0x4_0000);
    agree::fill_store(g, reading, rate, agree::part(&mut s.store, 4096));
    let state_a = agree::drawn_state(c, e, (a / 0x1_0000_0000 % 256) as u16);
    let state_b = agree::drawn_state(e, c, (a / 0x20_0000 % 256) as u16);
    Session {
        main,
        fences,
        reading,
        style: a / 0x1_0000 % 4,
        state_a: at_edges(state_a, fences, h),
        state_b: at_edges(
            state_b,
            Fences {
                own: other,
                other: own,
            },
            c,
        ),
    }
}

fn one_session(g: &mut Going, s: &mut Storages, local_b: &mut [u8; 257], counts: &mut Counts) {
    let mut session = begun(g, s);
    for k in 0..300 {
        session_turn(g, k, &mut session, s, local_b, counts);
    }
    g.mix_bytes(&s.main[..session.main.min(65537)]);
    g.mix_bytes(&s.local[..256]);
    g.mix_bytes(&local_b[..256]);
}

fn report_sessions(counts: &Counts) {
    counts.print(b"ran", 100);
    counts.print(b"stopped", 101);
    counts.print(b"refused 11", 11);
    counts.print(b"refused 32", 32);
    counts.print(b"refused otherwise", 99);
}

fn sessions(g: &mut Going, s: &mut Storages, local_b: &mut [u8; 257]) {
    let mut counts = Counts::new();
    for k in 0..100 {
        one_session(g, s, local_b, &mut counts);
        g.print_every(20, k + 1);
    }
    report_sessions(&counts);
}

fn main() {
    let mut s = Storages::new();
    s.drawn(71, 73);
    let mut local_b = [0u8; 257];
    Going { x: 79, digest: 0 }.fill(&mut local_b);
    let mut g = Going { x: 67, digest: 11 };
    openings(&mut g);
    turns(&mut g, &mut s);
    sessions(&mut g, &mut s, &mut local_b);
}
