// What stands on the board's command line: numbers, registers with their values, traps, a reading, fences, and the cycles to show.
#![tactic(auto)]

mod fields;
mod forms;
mod numbers;
mod registers;
mod wholes;

use codes::Reading;
pub use fields::lay;
pub use forms::{bounds_of, given_of};
pub use numbers::{is_number, number_of};
pub use registers::with_register;
pub use wholes::whole_of;

// A register by its place with its value, the first or the last cycle to show, a trap's cycle and address, or how the deck is read.
// The place is a number, since `with_register` answers any.
#[derive(Clone, Copy)]
pub enum Given {
    Register(u8, u16),
    From(u32),
    To(u32),
    Trap(u32, u32),
    Reading(Reading),
}

// Why a text is no whole number: it has more than fifteen digits, or is none at all.
#[derive(Clone, Copy)]
pub enum WholeError {
    Long,
    Wrong,
}
