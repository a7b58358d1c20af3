// A run: cycles until stop, refusal or budget.
#![tactic(auto)]

ghost use Rattle.std.specs.Prelude.{◌≡◌};
ghost use Rattle.run.specs.Run.{cycles_of, run_checks, run_in, run_of, cycle_by};
ghost use Rattle.digits.specs.Refusal.{first};
ghost use Rattle.machine.specs.Cycle.{outcome, cycle_in};

use codes::Reading;
use digits::Refusal;
use machine::{Cycled, State};
use storage::Fence;

// A run stops, is refused, or has spent its budget: three ways, so no Result.
#[derive(Clone, Copy)]
pub enum Ending {
    Stopped,
    Refused(Refusal),
    Spent,
}

// How a run ended, the state then, and how many cycles ran.
#[derive(Clone, Copy)]
pub struct Finished {
    pub ending: Ending,
    pub state: State,
    pub count: u32,
}

fn ended(ending: Ending, state: State, count: u32) -> Finished
    ensures { result ≡ record { ending = ending; state = state; count = count } }
{
    Finished {
        ending,
        state,
        count,
    }
}

// So many cycles, and how they end. The loop counts by itself: that it yields by `break` is a rule of the project (docs/DECISIONS.md,
// "Language forms by place"), and a `for` yields nothing.
fn cycles(
    fence: Fence,
    reading: Reading,
    store: &[u64],
    main: &mut [u8],
    local: &mut [u8],
    state: State,
    budget: u32,
) -> Finished
    ensures { outcome result main.new local.new ≡ cycles_of budget (cycle_in fence reading store.now) main.old local.old state 0 }
{
    let mut now = state;
    let mut done: u32 = 0;
    loop {
        if done == budget {
            break ended(Ending::Spent, now, done);
        }
        match machine::cycle_in(fence, reading, store, main, local, now) {
            Cycled::Ran(next) => {
                now = next;
                done += 1;
            }
            Cycled::Stopped(last) => {
                break ended(Ending::Stopped, last, done);
            }
            Cycled::Refused(last, refusal) => {
                break ended(Ending::Refused(refusal), last, done);
            }
        }
    }
}

// 1 or 22.
pub fn refusal(store: usize, main: usize, local: usize, budget: u32) -> Option<Refusal>
    ensures { result ≡ first (run_checks store main local budget) }
{
    let wrong = digits::sizes_wrong(store, main, local);
    let long = digits::first_of(1000000 < budget, Some(Refusal::Budget), None);
    digits::first_of(wrong, Some(Refusal::Size), long)
}

// A run of a store in a fence and under a reading. Its arguments stay as they are, and those of the others here: what a public function
// takes may not change.
#[tactic(auto, unfolding(crate::specs::Run::run_over))]
pub fn run_in(
    fence: Fence,
    reading: Reading,
    store: &[u64],
    main: &mut [u8],
    local: &mut [u8],
    state: State,
    budget: u32,
) -> Finished
    ensures { outcome result main.new local.new ≡ run_in budget fence reading store.now main.old local.old state }
{
    if let Some(refusal) = refusal(store.len(), main.len(), local.len(), budget) {
        return ended(Ending::Refused(refusal), state, 0);
    }
    cycles(fence, reading, store, main, local, state, budget)
}

// A run, all main storage in the fence.
pub fn run(
    reading: Reading,
    store: &[u64],
    main: &mut [u8],
    local: &mut [u8],
    state: State,
    budget: u32,
) -> Finished
    ensures { outcome result main.new local.new ≡ run_of budget reading store.now main.old local.old state }
{
    run_in(Fence::whole(), reading, store, main, local, state, budget)
}

// What a run of one answered, as a cycle.
fn as_cycle(f: Finished) -> Cycled
    ensures { result ≡ cycle_by f.ending f.state }
{
    let Finished { ending, state, .. } = f;
    match ending {
        Ending::Stopped => Cycled::Stopped(state),
        Ending::Refused(refusal) => Cycled::Refused(state, refusal),
        Ending::Spent => Cycled::Ran(state),
    }
}

// One cycle, as a run of one, so that a cycle has one caller.
pub fn one(
    fence: Fence,
    reading: Reading,
    store: &[u64],
    main: &mut [u8],
    local: &mut [u8],
    state: State,
) -> Cycled
    ensures { outcome result main.new local.new ≡ cycle_in fence reading store.now main.old local.old state }
{
    as_cycle(run_in(fence, reading, store, main, local, state, 1))
}
