// board add, board ap and board sp: two numbers, added or subtracted by a shipped program one cycle at a time.
ghost use Rattle.std.specs.Prelude.{◌≡◌, ◌≤◌, true, length, take, IfSome};
ghost use Rattle.machine.specs.Cycle.{outcome};
ghost use Rattle.codes.specs.declared.Reading.TheVariants.{Basic};
ghost use Rattle.run.specs.Run.{run_of};
ghost use Rattle.arguments.specs.Arguments.{digits_fit};
ghost use Rattle.decimal.specs.Entry.{bound, from_run};
ghost use Rattle.text.specs.Text.{put_of, room_after};
ghost use Rattle.board.specs.Adds.{field_length, laid_out, has_signs, answer_of, said_of};

use crate::options::{self, Takes};
use crate::out::Page;
use crate::screen::Screen;
use crate::{go, tell};
use codes::Reading;
use decimal::Added;
use digits::Refusal;
use machine::State;
use std::rt::Env;

// Add with a carry; or add or subtract with signs, AP or SP.
#[derive(Clone, Copy)]
pub enum Operation {
    Add(bool),
    Signed(bool),
}

fn has_signs(operation: Operation) -> bool
    ensures { result ≡ has_signs operation }
{
    matches!(operation, Operation::Signed(_))
}

// How many bytes the longer of two numbers takes.
fn field_length(first: usize, second: usize) -> usize
    requires { (first ≤ 32) × (second ≤ 32) }
    ensures { result ≡ field_length first second }
{
    first.max(second).div_ceil(2)
}

// The two numbers in main storage, zeros round them.
fn lay_out(first: &[u8], second: &[u8], size: usize, main: &mut [u8])
    requires main_len { length main.old ≡ 1024 }
    requires size_bound { size ≤ 16 }
    ensures { main.new ≡ laid_out size first.now second.now main.old }
{
    let first_end = 0x100 + size;
    arguments::lay(first, &mut main[0x100..first_end]);
    let second_end = 0x200 + size;
    arguments::lay(second, &mut main[0x200..second_end]);
}

// A program's words over the two fields, each cycle shown: an entry's own run and answer.
fn answered(
    screen: &mut Screen<'_>,
    store: &[u64],
    start: State,
    done: u16,
    size: usize,
    main: &mut [u8],
    local: &mut [u8],
) -> Added
    requires { size ≤ 16 }
    ensures { outcome result main.new local.new ≡ from_run done (run_of (bound size) Basic store.now main.old local.old start) }
{
    let budget = 40 * (size as u32) + 40;
    screen.begin(start);
    let finished = go::go(screen, 0, Reading::Basic, store, main, local, start, budget);
    screen.end(finished);
    decimal::answered_at(finished, done)
}

// By the operation's own words.
fn summed(
    screen: &mut Screen<'_>,
    operation: Operation,
    size: usize,
    main: &mut [u8],
    local: &mut [u8],
) -> Added
    requires le_size { (1 ≤ size) × (size ≤ 16) }
    requires main_len { (length main.old ≡ 1024) × (length local.old ≡ 256) }
    ensures { outcome result main.new local.new ≡ answer_of operation main.old local.old size }
{
    match operation {
        Operation::Add(carry) => answered(
            screen,
            &decimal::words(),
            decimal::start(0x100, 0x200, size as u8, carry),
            decimal::SUMMED,
            size,
            main,
            local,
        ),
        Operation::Signed(subtract) => answered(
            screen,
            &apsp::words(),
            apsp::start(0x100, 0x200, size as u8, subtract),
            apsp::DONE,
            size,
            main,
            local,
        ),
    }
}

// Two numbers laid out and added, and what that came to, in the line lent.
// That both numbers are digits is asked by `requires`, here and in the two functions that call this: a struct of two lent texts with
// that invariant would be no plainer.
fn say(
    screen: &mut Screen<'_>,
    operation: Operation,
    first: &[u8],
    second: &[u8],
    line: &mut [u8],
) -> Result<usize, Refusal>
    requires { (digits_fit 16 32 first.now ≡ true) × (digits_fit 16 32 second.now ≡ true) }
    ensures { (result ≡ put_of (said_of operation first.now second.now) (length line.old)) × (line.new ≡ room_after (said_of operation first.now second.now) line.old) }
{
    let size = field_length(first.len(), second.len());
    let mut main = [0u8; 1024];
    let mut local = [0u8; 256];
    lay_out(first, second, size, &mut main);
    let added = summed(screen, operation, size, &mut main, &mut local);
    let end = 0x100 + size;
    results::result(has_signs(operation), &main[0x100..end], added, line)
}

// A number as it was typed.
fn typed(rt: &impl Env, page: &mut Page<'_>, at: usize) {
    let mut text = [0u8; 40];
    let n = input::arg(rt, at, &mut text);
    page.text(&text[..n]);
}

// What stands between the two numbers.
fn name(operation: Operation) -> &'static [u8] {
    match operation {
        Operation::Add(_) => b" + ",
        Operation::Signed(false) => b" AP ",
        Operation::Signed(true) => b" SP ",
    }
}

// The numbers as they were typed, from that argument on, and the result after them.
fn added(
    rt: &impl Env,
    screen: &mut Screen<'_>,
    operation: Operation,
    at: usize,
    first: &[u8],
    second: &[u8],
)
    requires at_bound { at ≤ 3 }
    requires first_value { (digits_fit 16 32 first.now ≡ true) × (digits_fit 16 32 second.now ≡ true) }
{
    let mut line = [0u8; 128];
    let said = say(screen, operation, first, second, &mut line);
    typed(rt, &mut screen.page, at);
    screen.page.text(name(operation));
    typed(rt, &mut screen.page, at + 1);
    let Ok(size) = said else {
        tell::line(b"the result was not made");
        return;
    };
    screen.page.text(&line[..size]);
    screen.page.flush();
}

// An operation, what it takes beside its numbers, and the place of that.
#[derive(Clone, Copy)]
struct Task {
    operation: Operation,
    takes: Takes,
    at: usize,
}

// A carry of 0 or 1 after the numbers, where there is one.
fn with_carry(rt: &impl Env, at: usize) -> Task
    requires { at ≤ 5 }
{
    let mut text = [0u8; 2];
    let n = input::arg(rt, at, &mut text);
    let (carry, at) = match &text[..n] {
        b"0" => (false, at + 1),
        b"1" => (true, at + 1),
        _ => (false, at),
    };
    Task {
        operation: Operation::Add(carry),
        takes: Takes::Carry,
        at,
    }
}

fn task_of(rt: &impl Env, operation: Operation, at: usize) -> Task
    requires { at ≤ 5 }
{
    match operation {
        Operation::Add(_) => with_carry(rt, at),
        Operation::Signed(_) => Task {
            operation,
            takes: Takes::Cycles,
            at,
        },
    }
}

fn with_numbers(
    rt: &impl Env,
    lamps: bool,
    operation: Operation,
    at: usize,
    first: &[u8],
    second: &[u8],
)
    requires at_bound { at ≤ 3 }
    requires first_value { (digits_fit 16 32 first.now ≡ true) × (digits_fit 16 32 second.now ≡ true) }
{
    let task = task_of(rt, operation, at + 2);
    let Some(o) = options::read(rt, task.at, task.takes) else {
        return;
    };
    let mut room = [0u8; 65536];
    let mut screen = Screen::new(o.view(lamps), &mut room);
    added(rt, &mut screen, task.operation, at, first, second);
}

fn put_digits(signs: bool, text: &[u8], room: &mut [u8]) -> Result<usize, Refusal> {
    if signs {
        figures::put_typed(text, room)
    } else {
        text::put(text, room)
    }
}

// Reads a number, its sign as the last digit, and answers how many digits that is.
fn number_in(text: &[u8], signs: bool, room: &mut [u8]) -> Option<usize>
    ensures { IfSome result (λ n. (n ≤ length room.new) × (digits_fit 16 32 (take n room.new) ≡ true)) }
{
    let size = put_digits(signs, text, room).ok()?;
    let digits = room.get(..size)?;
    if (signs & (size < 2)) | !arguments::is_number(digits, 32) {
        return None;
    }
    Some(size)
}

// The same of an argument; where it is wrong, that is told.
fn number_at(rt: &impl Env, at: usize, signs: bool, room: &mut [u8]) -> Option<usize>
    ensures { IfSome result (λ n. (n ≤ length room.new) × (digits_fit 16 32 (take n room.new) ≡ true)) }
{
    let mut text = [0u8; 40];
    let n = input::arg(rt, at, &mut text);
    let size = number_in(&text[..n], signs, room);
    if size.is_none() {
        let how: &[u8] = if signs {
            b"is not a number of 1 to 31 digits, with + or - before or after them, or : and a sign digit"
        } else {
            b"is not a number of 1 to 32 digits"
        };
        tell::wrong(at, how);
    }
    size
}

// Two numbers, perhaps a carry, and options.
pub fn add(rt: &impl Env, lamps: bool, operation: Operation) {
    let at = options::first_at(lamps);
    if !tell::enough(rt, at + 1) {
        return;
    }
    let signs = has_signs(operation);
    let mut first = [0u8; 40];
    let Some(n) = number_at(rt, at, signs, &mut first) else {
        return;
    };
    let mut second = [0u8; 40];
    let Some(m) = number_at(rt, at + 1, signs, &mut second) else {
        return;
    };
    with_numbers(rt, lamps, operation, at, &first[..n], &second[..m]);
}
