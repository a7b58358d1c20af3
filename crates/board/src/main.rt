// The host program, for a person at a bench or in front of a class.
#![tactic(auto)]

mod add;
mod go;
mod options;
mod out;
mod readout;
mod runs;
mod screen;
mod tell;
mod traps;
mod turns;
mod two;

use add::Operation;
use out::{Page, STDOUT_FILENO};
use std::rt::{Env, Files};

fn usage() {
    let written = io::write_all(
        STDOUT_FILENO,
        b"board add FIRST SECOND [0|1] [FROM=n] [TO=n]
    adds two numbers of 1 to 32 digits, and a carry of 0 or 1; the digits A to F are allowed, and show the bad-digit ending
board ap FIRST SECOND [FROM=n] [TO=n]
board sp FIRST SECOND [FROM=n] [TO=n]
    adds or subtracts two numbers of 1 to 31 digits with signs, by the program of AP and SP: + or - before or after the digits, or : and a sign digit after them, as 190:F
board run DECK MAIN CYCLES [I=HH ..] [TRAP=n:HHH ..] [READING=B|C] [FROM=n] [TO=n]
    runs a deck over a storage image for at most so many cycles, from the registers given: I J U V L T D R S G H M N=HH, WX=HHH
    TRAP=n:HHH traps to that address before cycle n
board two DECK MAIN CYCLES FENCE FENCE ORDER [A.I=HH ..] [B.I=HH ..] [READING=B|C] [FROM=n] [TO=n]
    two boards take turns over one deck and one image, a cycle a turn and so many turns in all, each in its fence START:END, as 100:180, an end not in it
    ORDER says whose turn it is, as AAB, over and over; A.I=HH and B.WX=HHH give a board its registers; a cycle's number is its board's own
board lamps add .. | board lamps ap .. | board lamps sp .. | board lamps run ..
    the same, each register as eight lamps
board walk
    lights one lamp after the other
board signed FIELD | board signed NUMBER
    the number of a field of 16 digits, the last of them its sign; or the field of a number of at most fifteen digits
FROM=n and TO=n show only those cycles; cycle 0 is the state before the first. Letters may be small.
READING=C reads the deck as the compatibility store: CH 8 is R2, CL 4 G1, CL 6 R1, CL 12 R3, CS 5 turns S1 on, CS 15 turns S1 off, CH 3 is not modelled; READING=B is basic, and so is a run without it
",
    );
    if !written {
        tell::line(b"the output was not written");
    }
}

fn help(rt: &impl Env) {
    if tell::no_more(rt, 2) {
        usage();
    }
}

// Not inlined, nor are the commands of runs.rt: else every command would have their rooms on its stack.
#[inline(never)]
fn walk(rt: &impl Env) {
    if !tell::no_more(rt, 2) {
        return;
    }
    let mut room = [0u8; 65536];
    let mut page = Page::new(&mut room);
    page.write(|room| lamps::walk(room));
    page.flush();
}

// A command that shows cycles, as lamps or as lines; whether it is one.
fn shows(rt: &(impl Env + Files), name: &[u8], lamps: bool) -> bool {
    match name {
        b"add" => add::add(rt, lamps, Operation::Add(false)),
        b"ap" => add::add(rt, lamps, Operation::Signed(false)),
        b"sp" => add::add(rt, lamps, Operation::Signed(true)),
        b"run" => runs::run(rt, lamps),
        _ => return false,
    }
    true
}

fn as_lamps(rt: &(impl Env + Files)) {
    if !tell::enough(rt, 2) {
        return;
    }
    let mut word = [0u8; 16];
    let n = input::arg(rt, 2, &mut word);
    if !shows(rt, &word[..n], true) {
        tell::wrong(2, b"is neither add, ap, sp nor run");
    }
}

fn main(rt: HostRuntime) {
    if input::arg_count(&rt) < 2 {
        usage();
        return;
    }
    let mut word = [0u8; 16];
    let n = input::arg(&rt, 1, &mut word);
    if shows(&rt, &word[..n], false) {
        return;
    }
    match &word[..n] {
        b"two" => runs::two(&rt),
        b"lamps" => as_lamps(&rt),
        b"walk" => walk(&rt),
        b"signed" => readout::signed(&rt),
        b"help" | b"-h" | b"--help" => help(&rt),
        _ => tell::wrong(
            1,
            b"is neither add, ap, sp, run, two, lamps, walk, signed nor help",
        ),
    }
}
