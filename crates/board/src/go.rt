// Cycles one at a time, each shown: they are the run.
ghost use Rattle.std.specs.Prelude.{◌≡◌, ◌+◌, ◌^◌, ◌<◌};
ghost use Rattle.machine.specs.Cycle.{outcome, cycle_of};
ghost use Rattle.run.specs.Run.{cycles_of, run_of};

use crate::screen::Screen;
use codes::Reading;
use machine::{Cycled, State};
use run::{Ending, Finished};

fn cycles(
    screen: &mut Screen<'_>,
    before: u32,
    reading: Reading,
    store: &[u64],
    main: &mut [u8],
    local: &mut [u8],
    state: State,
    budget: u32,
) -> Finished
    requires { before + budget < 2 ^ 32 }
    ensures { outcome result main.new local.new ≡ cycles_of budget (cycle_of reading store.now) main.old local.old state 0 }
{
    let mut now = state;
    for count in 0..budget {
        let cycle = before + count + 1;
        let work = screen.work(cycle, store, now);
        match machine::cycle(reading, store, main, local, now) {
            Cycled::Ran(next) => {
                screen.cycle(b"", cycle, now.wx, next, work);
                now = next;
            }
            Cycled::Stopped(state) => {
                return Finished {
                    ending: Ending::Stopped,
                    state,
                    count,
                };
            }
            Cycled::Refused(state, refusal) => {
                return Finished {
                    ending: Ending::Refused(refusal),
                    state,
                    count,
                };
            }
        }
    }
    Finished {
        ending: Ending::Spent,
        state: now,
        count: budget,
    }
}

// Runs until stop, refusal or budget, and shows each cycle; their numbers go on from those that ran before. Reading, store and storages
// stay parameters, here and where it is called, as `machine::cycle` takes them and as each contract says what stands in them.
pub fn go(
    screen: &mut Screen<'_>,
    before: u32,
    reading: Reading,
    store: &[u64],
    main: &mut [u8],
    local: &mut [u8],
    state: State,
    budget: u32,
) -> Finished
    requires { before + budget < 2 ^ 32 }
    ensures { outcome result main.new local.new ≡ run_of budget reading store.now main.old local.old state }
{
    if let Some(refusal) = run::refusal(store.len(), main.len(), local.len(), budget) {
        return Finished {
            ending: Ending::Refused(refusal),
            state,
            count: 0,
        };
    }
    cycles(screen, before, reading, store, main, local, state, budget)
}
