// What the compared programs share with tests/second: the generator, the digest, and the lines they print.
#![tactic(auto)]

mod draw;
mod fields;
mod going;
mod state;
mod storages;

pub use draw::{
    drawn_rate, fill_store, modelled, packed, raw, reading_of, with_right_pk, word_for,
};
pub use fields::{Trial, drawn_fields, high, put_byte, two_digits};
pub use going::{Answer, Counts, Going, number_of};
pub use state::{drawn_state, near};
pub use storages::{Lent, Storages, part};

// The descriptor of standard output.
pub const STDOUT_FILENO: i32 = 1;

// A line: a name, and how often it was the answer.
pub fn print_count(name: &[u8], count: u64) {
    io::write_all(STDOUT_FILENO, name);
    io::write_all(STDOUT_FILENO, b" ");
    io::print_decimal(STDOUT_FILENO, count);
    io::write_all(STDOUT_FILENO, b"\n");
}

// A line of its own.
pub fn print_name(name: &[u8]) {
    io::write_all(STDOUT_FILENO, name);
    io::write_all(STDOUT_FILENO, b"\n");
}
