// board run and board two: a deck over a storage image, from registers, under a reading and with traps that the command line gives.
ghost use Rattle.std.specs.Prelude.{◌≤◌, length, IfSome};

use crate::options::{self, Takes};
use crate::screen::Screen;
use crate::{tell, traps, two};
use std::fs::File;
use std::rt::{Env, Files};

// How many bytes the file of that path has, which is open while it is read. std takes a path as text, so one that is not UTF-8 is not
// opened.
fn read_from(rt: &impl Files, path: &[u8], room: &mut [u8]) -> Option<usize>
    ensures { IfSome result (λ n. n ≤ length room.new) }
{
    let path = str::from_utf8(path).ok()?;
    let mut file = File::open(rt, path).ok()?;
    input::read(&mut file, room).ok()
}

// Reads the file that an argument names into the room, or tells that it cannot be read.
fn read_file(rt: &(impl Env + Files), at: usize, room: &mut [u8]) -> Option<usize>
    ensures { IfSome result (λ n. n ≤ length room.new) }
{
    let mut path = io::buffer();
    let n = input::arg(rt, at, &mut path);
    let read = read_from(rt, &path[..n], room);
    if read.is_none() {
        tell::wrong(at, b"cannot be read");
    }
    read
}

// All that a run asks is there: the words, the image and the budget.
fn over(rt: &impl Env, lamps: bool, words: &[u64], main: &mut [u8], budget: u32, first: usize) {
    let Some(o) = options::read(rt, first, Takes::Run) else {
        return;
    };
    let mut local = [0u8; 256];
    let mut room = [0u8; 65536];
    let mut screen = Screen::new(o.view(lamps), &mut room);
    screen.begin(o.a);
    let finished = traps::broken_run(
        rt,
        &mut screen,
        o.reading,
        words,
        main,
        &mut local,
        o.a,
        budget,
        first,
    );
    screen.end(finished);
    screen.page.flush();
}

fn budget(rt: &impl Env, at: usize) -> Option<u32> {
    let mut text = [0u8; 16];
    let n = input::arg(rt, at, &mut text);
    let number = arguments::number_of(&text[..n]);
    if number.is_none() {
        tell::wrong(at, b"is not a number of cycles up to 1000000");
    }
    number
}

// An image and a number of cycles, and then what is to be done with them.
fn with_words<F: FnOnce(&[u64], &mut [u8], u32)>(
    rt: &(impl Env + Files),
    at: usize,
    words: &[u64],
    then: F,
)
    requires at_bound { at ≤ 4 }
    requires callable { F.IsAlwaysCallable then }
{
    let mut main = [0u8; 65537];
    let Some(size) = read_file(rt, at, &mut main) else {
        return;
    };
    if !(1..=65536).contains(&size) {
        tell::wrong(at, b"is not an image of 1 to 65536 bytes");
        return;
    }
    let Some(cycles) = budget(rt, at + 1) else {
        return;
    };
    then(words, &mut main[..size], cycles);
}

// A deck, an image and a number of cycles, from an argument on. A longer deck fills the room, and is refused.
fn from_files<F: FnOnce(&[u64], &mut [u8], u32)>(rt: &(impl Env + Files), at: usize, then: F)
    requires at_bound { at ≤ 3 }
    requires callable { F.IsAlwaysCallable then }
{
    let mut bytes = [0u8; 34305];
    let mut words = [0u64; 4096];
    let Some(n) = read_file(rt, at, &mut bytes) else {
        return;
    };
    match deck::read(&bytes[..n], &mut words) {
        Err(refusal) => tell::refused(at, b"a deck", refusal),
        Ok(count) => with_words(rt, at + 1, &words[..count], then),
    }
}

#[inline(never)]
pub fn run(rt: &(impl Env + Files), lamps: bool) {
    let at = options::first_at(lamps);
    if tell::enough(rt, at + 2) {
        from_files(rt, at, |words, image, cycles| {
            over(rt, lamps, words, image, cycles, at + 3);
        });
    }
}

// Two boards: two fences and an order more.
#[inline(never)]
pub fn two(rt: &(impl Env + Files)) {
    if tell::enough(rt, 7) {
        from_files(rt, 2, |words, image, cycles| {
            two::over(rt, words, image, cycles, 5);
        });
    }
}
