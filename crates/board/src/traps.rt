// Traps that the command line asks for, and the run that they break into.
ghost use Rattle.std.specs.Prelude.{◌≡◌, ◌≤◌, IfSome};
ghost use Rattle.machine.specs.Cycle.{outcome};
ghost use Rattle.trap.specs.Trap.{trap_of, state_after};
ghost use Rattle.board.specs.Broken.{is_spent, BrokenInto};

use crate::options::{self, Named};
use crate::screen::Screen;
use crate::{go, tell};
use arguments::Given;
use codes::Reading;
use digits::Refusal;
use machine::State;
use run::{Ending, Finished};
use std::rt::Env;

// A trap after so many cycles.
#[derive(Clone, Copy)]
pub struct Trap {
    pub after: u32,
    pub address: u32,
}

// The trap that an argument asks for.
pub fn asked(rt: &impl Env, at: usize) -> Option<Trap> {
    match options::argument(rt, at) {
        Some(
            Named {
                board: None,
                given: Given::Trap(cycle, address),
            },
        ) => Some(Trap {
            after: cycle.checked_sub(1)?,
            address,
        }),
        _ => None,
    }
}

// The next trap after that many cycles or more, of those that the arguments ask for from `first` up to `end`.
pub fn next(rt: &impl Env, first: usize, end: usize, from: u32) -> Option<Trap>
    ensures { IfSome result (λ trap. from ≤ trap.after) }
{
    (first..end)
        .filter_map(|at| asked(rt, at))
        .filter(|trap| from <= trap.after)
        .min_by_key(|trap| trap.after)
}

// The trap that the run did not reach, where there is one.
fn missed(trap: Option<Trap>) {
    if let Some(trap) = trap {
        tell::missed(trap.after as u64 + 1);
    }
}

// The run may go on.
pub(crate) fn spent(ending: Ending) -> bool
    ensures { result ≡ is_spent ending }
{
    matches!(ending, Ending::Spent)
}

// The state from which the run goes on: a trap that is refused, which is told, leaves it as it was.
fn state_of(answer: Result<State, Refusal>, before: State) -> State
    ensures { result ≡ state_after before answer }
{
    if answer.is_err() {
        tell::line(b"a trap was refused");
    }
    answer.unwrap_or(before)
}

// Makes a trap and shows what came of it: the state from which the run goes on.
fn trapped(screen: &mut Screen<'_>, before: State, address: u32) -> State
    ensures { result ≡ state_after before (trap_of address before) }
{
    let answer = trap::trap(before, address);
    screen.trap(before, answer);
    state_of(answer, before)
}

// Runs up to each trap, and after the last until stop, refusal or budget, and shows each cycle and each trap.
pub fn broken_run(
    rt: &impl Env,
    screen: &mut Screen<'_>,
    reading: Reading,
    store: &[u64],
    main: &mut [u8],
    local: &mut [u8],
    state: State,
    budget: u32,
    first: usize,
) -> Finished
    ensures { BrokenInto budget reading store.now main.old local.old state (outcome result main.new local.new) }
{
    let end = input::arg_count(rt);
    let mut now = state;
    let mut done: u32 = 0;
    let mut from: u32 = 0;
    while let Some(trap) = next(rt, first, end, from)
        && trap.after < budget
    {
        let leg = trap.after - done;
        let finished = go::go(screen, done, reading, store, main, local, now, leg);
        if !spent(finished.ending) {
            missed(Some(trap));
            return finished;
        }
        now = trapped(screen, finished.state, trap.address);
        done = trap.after;
        from = done + 1;
    }
    let leg = budget - done;
    let finished = go::go(screen, done, reading, store, main, local, now, leg);
    missed(next(rt, first, end, from));
    finished
}
