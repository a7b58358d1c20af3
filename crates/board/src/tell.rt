// What is told on standard error. The program ends with 0 all the same: the root command gives 1 where anything stands there.
use digits::Refusal;
use std::rt::Env;

// The descriptor of standard error.
const STDERR_FILENO: i32 = 2;

pub fn line(text: &[u8]) {
    io::write_all(STDERR_FILENO, b"board: ");
    io::write_all(STDERR_FILENO, text);
    io::write_all(STDERR_FILENO, b"\n");
}

fn argument(at: usize) {
    io::write_all(STDERR_FILENO, b"board: argument ");
    io::print_decimal(STDERR_FILENO, at as u64);
    io::write_all(STDERR_FILENO, b" ");
}

// Which argument is wrong, and how.
pub fn wrong(at: usize, how: &[u8]) {
    argument(at);
    io::write_all(STDERR_FILENO, how);
    io::write_all(STDERR_FILENO, b"\n");
}

// By which number something is refused, and why, in words; none takes more than 64 bytes.
fn by_number(refusal: Refusal) {
    let number = refusal.number();
    io::write_all(STDERR_FILENO, b" refused by ");
    io::print_decimal(STDERR_FILENO, number as u64);
    io::write_all(STDERR_FILENO, b": ");
    let mut words = [0u8; 64];
    let size = text::words(number, &mut words).unwrap_or(0);
    io::write_all(STDERR_FILENO, &words[..size.min(64)]);
}

fn reason(at: usize, what: &[u8], refusal: Refusal) {
    argument(at);
    io::write_all(STDERR_FILENO, b"is ");
    io::write_all(STDERR_FILENO, what);
    by_number(refusal);
}

pub fn refused_fences(refusal: Refusal) {
    io::write_all(STDERR_FILENO, b"board: the fences are");
    by_number(refusal);
    io::write_all(STDERR_FILENO, b"\n");
}

// FROM is over TO, and nothing would be shown.
pub(crate) fn crossed(from: u32, to: u32) -> bool {
    if to < from {
        line(b"FROM is over TO");
    }
    to < from
}

// What is refused, as "a deck".
pub fn refused(at: usize, what: &[u8], refusal: Refusal) {
    reason(at, what, refusal);
    io::write_all(STDERR_FILENO, b"\n");
}

// A field, with the digit for which it is refused, as it was typed, and its place.
pub fn refused_field(at: usize, refusal: Refusal, digit: u8, place: u64) {
    reason(at, b"a field", refusal);
    io::write_all(STDERR_FILENO, b": ");
    io::write_all(STDERR_FILENO, &[digit]);
    io::write_all(STDERR_FILENO, b" in place ");
    io::print_decimal(STDERR_FILENO, place);
    io::write_all(STDERR_FILENO, b"\n");
}

// The run ended before the cycle of a trap.
pub fn missed(cycle: u64) {
    io::write_all(
        STDERR_FILENO,
        b"board: the run ended before the trap of cycle ",
    );
    io::print_decimal(STDERR_FILENO, cycle);
    io::write_all(STDERR_FILENO, b"\n");
}

// There are as many arguments as a command asks, the command among them.
pub fn enough(rt: &impl Env, asked: usize) -> bool {
    let count = input::arg_count(rt);
    if asked < count {
        return true;
    }
    wrong(count, b"is missing; board help shows what is asked");
    false
}

// And no more.
pub fn no_more(rt: &impl Env, asked: usize) -> bool {
    if input::arg_count(rt) <= asked {
        return true;
    }
    wrong(asked, b"is one too many");
    false
}
