// board two: a deck, an image, a number of cycles, two fences, an order, and options.
ghost use Rattle.std.specs.Prelude.{◌<◌, ◌≤◌, length, IfSome};

use crate::options::{self, Options, Takes};
use crate::screen::Screen;
use crate::tell;
use crate::turns::{self, Rules, Seat};
use run::Ending;
use session::Board;
use std::rt::Env;
use storage::Fence;

// The fence that an argument gives.
fn fence(rt: &impl Env, at: usize) -> Option<Fence> {
    let mut text = [0u8; 24];
    let n = input::arg(rt, at, &mut text);
    let Some((start, end)) = arguments::bounds_of(&text[..n]) else {
        tell::wrong(
            at,
            b"is not a fence START:END of two addresses of 1 to 5 hexadecimal digits",
        );
        return None;
    };
    Some(Fence {
        start: start as usize,
        end: end as usize,
    })
}

// How many letters an order has.
fn order(rt: &impl Env, at: usize, text: &mut [u8]) -> Option<usize>
    ensures { IfSome result (λ n. (0 < n) × (n ≤ length text.new)) }
{
    let n = input::arg(rt, at, text);
    if (1..=64).contains(&n) && text[..n].iter().all(|letter| options::names(*letter)) {
        return Some(n);
    }
    tell::wrong(at, b"is not an order of 1 to 64 letters A and B");
    None
}

// The headings, and both boards' states.
fn begin(screen: &mut Screen<'_>, o: Options) {
    screen.page.text(b"  ");
    screen.heading();
    screen.start(turns::mark(Board::A), o.a);
    screen.start(turns::mark(Board::B), o.b);
}

fn refused(board: Board) {
    match board {
        Board::A => tell::line(b"board A was refused"),
        Board::B => tell::line(b"board B was refused"),
    }
}

// A board that goes on has spent its turns; one that was refused is told on standard error too.
fn end(screen: &mut Screen<'_>, board: Board, seat: Seat) {
    match seat.ending {
        Ending::Stopped => (),
        Ending::Spent => screen.ending(turns::mark(board), Ending::Spent, seat.state.wx),
        Ending::Refused(_) => refused(board),
    }
}

fn play(words: &[u64], main: &mut [u8], rules: Rules, order: &[u8], o: Options)
    requires { 0 < length order.now }
{
    let mut local_a = [0u8; 256];
    let mut local_b = [0u8; 256];
    let mut room = [0u8; 65536];
    let mut screen = Screen::new(o.view(false), &mut room);
    begin(&mut screen, o);
    let p = turns::turns(
        &mut screen,
        rules,
        order,
        words,
        main,
        &mut local_a,
        &mut local_b,
        o.a,
        o.b,
    );
    end(&mut screen, Board::A, p.a);
    end(&mut screen, Board::B, p.b);
    screen.page.flush();
}

// The fences are there: the order and the options, from `first` on.
fn with_fences(
    rt: &impl Env,
    words: &[u64],
    main: &mut [u8],
    turns: u32,
    first: usize,
    a: Fence,
    b: Fence,
)
    requires { first ≤ 8 }
{
    let mut text = [0u8; 72];
    let Some(n) = order(rt, first, &mut text) else {
        return;
    };
    let Some(o) = options::read(rt, first + 1, Takes::Two) else {
        return;
    };
    if let Err(refusal) = session::open(main.len(), a, b) {
        tell::refused_fences(refusal);
        return;
    }
    let rules = Rules {
        reading: o.reading,
        a,
        b,
        turns,
    };
    play(words, main, rules, &text[..n], o);
}

// All that turns ask is there: the words, the image and the budget.
pub(crate) fn over(rt: &impl Env, words: &[u64], main: &mut [u8], budget: u32, first: usize)
    requires { first ≤ 6 }
{
    let Some(a) = fence(rt, first) else {
        return;
    };
    let Some(b) = fence(rt, first + 1) else {
        return;
    };
    with_fences(rt, words, main, budget, first + 2, a, b);
}
