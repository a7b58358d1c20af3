// Two boards take turns over one deck and one storage image, in an order that is repeated, and each turn is shown.
ghost use Rattle.std.specs.Prelude.{◌≡◌, ◌<◌, length};
ghost use Rattle.session.specs.Boards.{own, session, other, after_turns};
ghost use Rattle.run.specs.declared.Ending.TheVariants.{Spent};
ghost use Rattle.board.specs.Two.{board_at, turns_of, turn_ending, endings, session_of, Fresh, Plays};

use crate::screen::Screen;
use crate::{options, traps};
use codes::Reading;
use machine::{Cycled, State};
use run::Ending;
use session::{Board, BothAfter};
use storage::Fence;

// A board after its turns: its state, how many it took, and how the last of them ended: spent while the board goes on.
#[derive(Clone, Copy)]
pub struct Seat {
    pub state: State,
    pub turns: u32,
    pub ending: Ending,
}

#[derive(Clone, Copy)]
pub struct Played {
    pub a: Seat,
    pub b: Seat,
}

// What is asked of the turns.
#[derive(Clone, Copy)]
pub struct Rules {
    pub reading: Reading,
    pub a: Fence,
    pub b: Fence,
    pub turns: u32,
}

fn seated(state: State) -> Seat
    ensures { (result.state ≡ state) × (result.ending ≡ Spent) }
{
    Seat {
        state,
        turns: 0,
        ending: Ending::Spent,
    }
}

// Before the first turn.
fn fresh(a: State, b: State) -> Played
    ensures { Fresh a b result }
{
    Played {
        a: seated(a),
        b: seated(b),
    }
}

// What a board's lines begin with.
pub(crate) fn mark(board: Board) -> &'static [u8] {
    match board {
        Board::A => b"A ",
        Board::B => b"B ",
    }
}

// A board's turn, which began in this state.
fn show_turn(
    screen: &mut Screen<'_>,
    board: Board,
    turn: u32,
    before: State,
    answer: Cycled,
    store: &[u64],
) {
    let mark = mark(board);
    let at = before.wx;
    match answer {
        Cycled::Ran(s) => {
            let work = screen.work(turn, store, before);
            screen.cycle(mark, turn, at, s, work);
        }
        Cycled::Stopped(_) => screen.ending(mark, Ending::Stopped, at),
        Cycled::Refused(_, refusal) => screen.ending(mark, Ending::Refused(refusal), at),
    }
}

fn seat_of(board: Board, p: Played) -> Seat
    ensures { result.ending ≡ endings p board }
{
    match board {
        Board::A => p.a,
        Board::B => p.b,
    }
}

// How a turn ended.
fn ending_of(answer: Cycled) -> Ending
    ensures { result ≡ turn_ending answer }
{
    match answer {
        Cycled::Ran(_) => Ending::Spent,
        Cycled::Stopped(_) => Ending::Stopped,
        Cycled::Refused(_, refusal) => Ending::Refused(refusal),
    }
}

fn with_turn(board: Board, turns: u32, t: BothAfter, p: Played) -> Played
    ensures { (result.a.state ≡ t.a) × (result.b.state ≡ t.b) × (endings result board ≡ turn_ending t.answer) × (endings result (other board) ≡ endings p (other board)) }
{
    let ending = ending_of(t.answer);
    match board {
        Board::A => Played {
            a: Seat {
                state: t.a,
                turns,
                ending,
            },
            b: Seat { state: t.b, ..p.b },
        },
        Board::B => Played {
            a: Seat { state: t.a, ..p.a },
            b: Seat {
                state: t.b,
                turns,
                ending,
            },
        },
    }
}

// One turn, shown. A board that stopped or was refused lets its turn pass: it would end as the last did.
fn take(
    screen: &mut Screen<'_>,
    rules: Rules,
    board: Board,
    store: &[u64],
    main: &mut [u8],
    local_a: &mut [u8],
    local_b: &mut [u8],
    p: Played,
) -> Played
    ensures { Plays board rules.a rules.b rules.reading store.now (session_of p local_a.old local_b.old main.old) (session_of result local_a.new local_b.new main.new) (endings p) (endings result) }
{
    let seat = seat_of(board, p);
    if !traps::spent(seat.ending) {
        return p;
    }
    let t = session::turn_of(
        board,
        rules.a,
        rules.b,
        rules.reading,
        store,
        main,
        local_a,
        local_b,
        p.a.state,
        p.b.state,
    );
    let turn = seat.turns.wrapping_add(1);
    show_turn(screen, board, turn, seat.state, t.answer, store);
    with_turn(board, turn, t, p)
}

// Whose turn it is after so many.
fn board_at(order: &[u8], done: u32) -> Board
    requires { 0 < length order.now }
    ensures { result ≡ board_at order.now done }
{
    options::board_of(order[done as usize % order.len()])
}

// So many turns.
pub fn turns(
    screen: &mut Screen<'_>,
    rules: Rules,
    order: &[u8],
    store: &[u64],
    main: &mut [u8],
    local_a: &mut [u8],
    local_b: &mut [u8],
    a: State,
    b: State,
) -> Played
    requires { 0 < length order.now }
    ensures { session_of result local_a.new local_b.new main.new ≡ after_turns (turns_of rules.turns order.now) rules.a rules.b rules.reading store.now (session (own a local_a.old) (own b local_b.old) main.old) }
{
    let mut p = fresh(a, b);
    for done in 0..rules.turns {
        let board = board_at(order, done);
        p = take(screen, rules, board, store, main, local_a, local_b, p);
    }
    p
}
