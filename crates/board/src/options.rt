// What may follow a command's own arguments: registers, traps, a reading, and which cycles are shown.
ghost use Rattle.std.specs.Prelude.{◌≡◌, ◌≤◌};
ghost use Rattle.board.specs.Two.{is_a, board_of};

use crate::screen::View;
use crate::tell;
use arguments::Given;
use codes::Reading;
use machine::State;
use session::Board;
use std::rt::Env;

// The state of the board that runs alone, or of A; and that of B.
#[derive(Clone, Copy)]
pub struct Options {
    pub a: State,
    pub b: State,
    pub reading: Reading,
    pub from: u32,
    pub to: u32,
}

// What a command takes beside the cycles to show: registers, traps and a reading; registers of either board and a reading; a carry
// before them; or nothing.
#[derive(Clone, Copy)]
pub enum Takes {
    Run,
    Two,
    Carry,
    Cycles,
}

// What an argument gives, and to which board, where a letter and a dot stand before it.
#[derive(Clone, Copy)]
pub struct Named {
    pub board: Option<Board>,
    pub given: Given,
}

// The place of a command's first argument.
pub(crate) fn first_at(lamps: bool) -> usize
    ensures { result ≤ 3 }
{
    if lamps { 3 } else { 2 }
}

fn is_a(letter: u8) -> bool
    ensures { result ≡ is_a letter }
{
    letter.to_ascii_uppercase() == b'A'
}

// A letter names a board. `board_of` answers any letter, as its definition does.
pub(crate) fn names(letter: u8) -> bool {
    matches!(letter, b'A' | b'a' | b'B' | b'b')
}

// The board of a letter that names one.
pub(crate) fn board_of(letter: u8) -> Board
    ensures { result ≡ board_of letter }
{
    if is_a(letter) { Board::A } else { Board::B }
}

// What an argument gives. It is read into a room, here and where else one is: that must outlive the call, and there is no heap.
pub(crate) fn argument(rt: &impl Env, at: usize) -> Option<Named> {
    let mut text = [0u8; 24];
    let n = input::arg(rt, at, &mut text);
    match &text[..n] {
        [letter, b'.', rest @ ..] if names(*letter) => Some(Named {
            board: Some(board_of(*letter)),
            given: arguments::given_of(rest)?,
        }),
        text => Some(Named {
            board: None,
            given: arguments::given_of(text)?,
        }),
    }
}

impl Named {
    // Both give a value to one thing, so that the second is one too many.
    fn repeats(self, other: Named) -> bool {
        match (self.given, other.given) {
            (Given::Register(one, _), Given::Register(two, _)) => {
                (one == two) & (is_b(self.board) == is_b(other.board))
            }
            (Given::Trap(one, _), Given::Trap(two, _)) => one == two,
            (Given::From(_), Given::From(_)) => true,
            (Given::To(_), Given::To(_)) => true,
            (Given::Reading(_), Given::Reading(_)) => true,
            _ => false,
        }
    }
}

// No board counts as A, so a derived equality would not do.
fn is_b(board: Option<Board>) -> bool {
    matches!(board, Some(Board::B))
}

impl Takes {
    fn accepts(self, named: &Named) -> bool {
        match (self, named.board, named.given) {
            (_, None, Given::From(_) | Given::To(_)) => true,
            (Takes::Run, None, _) => true,
            (Takes::Two, None, Given::Reading(_)) => true,
            (Takes::Two, Some(_), Given::Register(_, _)) => true,
            _ => false,
        }
    }

    // What an argument is not.
    fn wrong(self) -> &'static [u8] {
        match self {
            Takes::Run => {
                b"is neither a register and its value, as I=HH or WX=HHH, nor TRAP=CYCLE:HHH, nor READING=B or READING=C, nor FROM=n nor TO=n"
            }
            Takes::Two => {
                b"is neither a register of a board and its value, as A.I=HH or B.WX=HHH, nor READING=B or READING=C, nor FROM=n nor TO=n"
            }
            Takes::Carry => b"is neither FROM=n nor TO=n, nor 0 or 1 for a carry before them",
            Takes::Cycles => b"is neither FROM=n nor TO=n",
        }
    }
}

impl Options {
    // All registers 0, all latches off, the basic reading, and every cycle shown.
    fn none() -> Options {
        let zero = channels::loaded(&[0]);
        Options {
            a: zero,
            b: zero,
            reading: Reading::Basic,
            from: 0,
            to: 1_000_000,
        }
    }

    // With what an argument gives. A trap is looked up again when its cycle comes.
    fn with(self, named: Named) -> Options {
        match named.given {
            Given::Register(place, value) => match named.board {
                Some(Board::B) => Options {
                    b: arguments::with_register(self.b, place, value),
                    ..self
                },
                _ => Options {
                    a: arguments::with_register(self.a, place, value),
                    ..self
                },
            },
            Given::From(from) => Options { from, ..self },
            Given::To(to) => Options { to, ..self },
            Given::Reading(reading) => Options { reading, ..self },
            Given::Trap(_, _) => self,
        }
    }

    pub(crate) fn view(&self, lamps: bool) -> View {
        View {
            lamps,
            from: self.from,
            to: self.to,
        }
    }
}

// An argument from `first` on gave the same before.
fn before(rt: &impl Env, first: usize, at: usize, named: Named) -> bool {
    (first..at).any(|earlier| named_again(rt, earlier, named))
}

fn named_again(rt: &impl Env, at: usize, later: Named) -> bool {
    argument(rt, at).is_some_and(|earlier| earlier.repeats(later))
}

// All arguments from `first` on; a wrong one is told.
pub fn read(rt: &impl Env, first: usize, takes: Takes) -> Option<Options> {
    let mut o = Options::none();
    for at in first..input::arg_count(rt) {
        let Some(named) = argument(rt, at).filter(|named| takes.accepts(named)) else {
            tell::wrong(at, takes.wrong());
            return None;
        };
        if before(rt, first, at, named) {
            tell::wrong(at, b"was given before");
            return None;
        }
        o = o.with(named);
    }
    if tell::crossed(o.from, o.to) {
        return None;
    }
    Some(o)
}
