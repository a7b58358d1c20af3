// Two boards on one word store and one main storage, each in its own fence.
#![tactic(auto)]

ghost use Rattle.std.specs.Prelude.{◌≡◌};
ghost use Rattle.machine.specs.Cycle.{outcome};
ghost use Rattle.session.specs.Opening.{fence_wrong, fences_wrong, open_of};
ghost use Rattle.session.specs.Turn.{turn_of, state_in};
ghost use Rattle.session.specs.Boards.{own, session, turned_to, turned_of};
ghost use Rattle.session.specs.Adding.{fenced_add, PromiseIn};

use codes::Reading;
use decimal::Added;
use digits::Refusal;
use machine::{Cycled, State};
use storage::Fence;

// The boards of a session.
#[derive(Clone, Copy)]
pub enum Board {
    A,
    B,
}

// What a turn answered, and both boards' states after it.
#[derive(Clone, Copy)]
pub struct BothAfter {
    pub answer: Cycled,
    pub a: State,
    pub b: State,
}

// 32, of one fence.
fn fence_wrong(main: usize, fence: Fence) -> bool
    ensures { result ≡ fence_wrong main fence }
{
    fence.end <= fence.start || main < fence.end
}

// 32, of two.
fn fences_wrong(main: usize, a: Fence, b: Fence) -> bool
    ensures { result ≡ fences_wrong main a b }
{
    let meet = a.start < b.end && b.start < a.end;
    fence_wrong(main, a) || fence_wrong(main, b) || meet
}

// Opens a session of two fences, in main storage of so many bytes, or refuses by 32.
pub fn open(main: usize, a: Fence, b: Fence) -> Result<(), Refusal>
    ensures { result ≡ open_of main a b }
{
    if fences_wrong(main, a, b) {
        return Err(Refusal::Fence);
    }
    Ok(())
}

// One turn of the board whose fence, local storage and state these are, beside a board with the other fence. The storages stay
// parameters, here and below, as include/panel.h has them and as the promises speak of each.
#[tactic(auto, unfolding(crate::specs::Turn::turn_of, machine::specs::Cycle::cycle_in))]
pub fn turn(
    own: Fence,
    other: Fence,
    reading: Reading,
    store: &[u64],
    main: &mut [u8],
    local: &mut [u8],
    state: State,
) -> Cycled
    ensures { outcome result main.new local.new ≡ turn_of own other reading store.now main.old local.old state }
{
    if digits::sizes_wrong(store.len(), main.len(), local.len()) {
        return Cycled::Refused(state, Refusal::Size);
    }
    if fences_wrong(main.len(), own, other) {
        return Cycled::Refused(state, Refusal::Fence);
    }
    run::one(own, reading, store, main, local, state)
}

fn state_in(answer: Cycled) -> State
    ensures { result ≡ state_in answer }
{
    match answer {
        Cycled::Ran(state) | Cycled::Stopped(state) | Cycled::Refused(state, _) => state,
    }
}

// The turn of the board that is named, with both boards' storage lent: the other's is not touched.
#[tactic(auto, unfolding(crate::specs::Boards::turned_of))]
pub fn turn_of(
    board: Board,
    a: Fence,
    b: Fence,
    reading: Reading,
    store: &[u64],
    main: &mut [u8],
    local_a: &mut [u8],
    local_b: &mut [u8],
    state_a: State,
    state_b: State,
) -> BothAfter
    ensures { turned_to result.answer (session (own result.a local_a.new) (own result.b local_b.new) main.new) ≡ turned_of board a b reading store.now (session (own state_a local_a.old) (own state_b local_b.old) main.old) }
{
    // The arms stay two: the borrow checker does not cover a `&mut` that one match chooses beside the rest, and a match for each is no plainer.
    match board {
        Board::A => {
            let answer = turn(a, b, reading, store, main, local_a, state_a);
            BothAfter {
                answer,
                a: state_in(answer),
                b: state_b,
            }
        }
        Board::B => {
            let answer = turn(b, a, reading, store, main, local_b, state_b);
            BothAfter {
                answer,
                a: state_a,
                b: state_in(answer),
            }
        }
    }
}

// The decimal add in a fence.
pub fn add(
    fence: Fence,
    main: &mut [u8],
    local: &mut [u8],
    first: usize,
    second: usize,
    length: usize,
    carry: bool,
) -> Added
    ensures run { outcome result main.new local.new ≡ fenced_add fence main.old local.old first second length carry }
    ensures promise { PromiseIn fence main.old local.old first second length carry result main.new local.new }
{
    if digits::storage_wrong(main.len(), local.len()) {
        return Added::Refused(Refusal::Size);
    }
    if fence_wrong(main.len(), fence) {
        return Added::Refused(Refusal::Fence);
    }
    decimal::add_in(fence, main, local, first, second, length, carry)
}
