// The machine: its state, and one cycle of it.
#![tactic(auto)]

mod access;
mod branch;
mod sources;
mod status;

ghost use Rattle.std.specs.Prelude.{◌≡◌, ◌<◌, length};
ghost use Rattle.machine.specs.Cycle.{outcome, after, step_of, cycle_in, cycle_of, sum_by, next_sum_of};

use adder::{Sum, Work};
use codes::Reading;
use digits::Refusal;
use storage::{Access, Fence};
use word::Fields;

// What the lamps show. With nothing arriving the arriving byte means nothing. FWX is the WX that a trap broke into, and a return is owed
// until a return word has run.
#[derive(Clone, Copy)]
pub struct State {
    pub i: u8,
    pub j: u8,
    pub u: u8,
    pub v: u8,
    pub l: u8,
    pub t: u8,
    pub d: u8,
    pub r: u8,
    pub s: u8,
    pub g: u8,
    pub h: u8,
    pub m: u8,
    pub n: u8,
    pub wx: u16,
    pub ac: bool,
    pub one_bc: bool,
    pub z0: bool,
    pub allow_write: bool,
    pub local_selected: bool,
    pub arriving: bool,
    pub arriving_byte: u8,
    pub digit_carry: bool,
    pub invalid: bool,
    pub fwx: u16,
    pub owed: bool,
}

// What a cycle answers, with the state after it. Three cases that hold the state, so no Result: a rule of the project
// (docs/DECISIONS.md, "Language forms by place").
#[derive(Clone, Copy)]
pub enum Cycled {
    Ran(State),
    Stopped(State),
    Refused(State, Refusal),
}

// e. The state after the word. `s` has the arriving byte in R.
fn after(reading: Reading, f: Fields, z: Sum, a: Access, fetched: u8, s: State) -> State
    requires { f.cn < 64 }
    ensures { result ≡ after reading f z a fetched s }
{
    State {
        i: status::into(15, f.cd, z.result, s.i),
        j: status::into(14, f.cd, z.result, s.j),
        u: status::into(13, f.cd, z.result, s.u),
        v: status::into(12, f.cd, z.result, s.v),
        l: status::into(9, f.cd, z.result, s.l),
        t: status::into(11, f.cd, z.result, s.t),
        d: status::into(8, f.cd, z.result, s.d),
        r: status::into(7, f.cd, z.result, s.r),
        s: status::status(reading, f, z, status::into(6, f.cd, z.result, s.s)),
        g: status::into(10, f.cd, z.result, s.g),
        h: status::into(5, f.cd, z.result, s.h),
        m: a.m,
        n: a.n,
        wx: branch::next_of(reading, f, s),
        ac: z.ac,
        one_bc: z.one_bc,
        z0: z.z0,
        allow_write: a.latch,
        local_selected: a.local,
        arriving: a.fetches,
        arriving_byte: fetched,
        digit_carry: z.digit_carry,
        invalid: z.invalid,
        fwx: s.fwx,
        owed: !branch::is_return(f) & s.owed,
    }
}

// What the fields of a word do: decide everything, then make at most one store. One expression, since a return from its middle
// costs a cycle a copy of its answer.
// That CN and CK are in their widths and local storage has its 256 bytes is asked by `requires`, here and below it: `word::Fields` may
// hold any values, 20 being given for some, and a struct round it, or round the storage, would stand between each part and its name.
#[tactic(auto, unfolding(crate::specs::Cycle::ran_of))]
fn step(
    fence: Fence,
    reading: Reading,
    f: Fields,
    main: &mut [u8],
    local: &mut [u8],
    s: State,
) -> Cycled
    requires { (f.cn < 64) × ((f.ck < 16) × (length local.old ≡ 256)) }
    ensures { outcome result main.new local.new ≡ step_of fence reading f main.old local.old s }
{
    let entered = sources::enter(f, s);
    let z = sources::sum_in(f, entered);
    let access = access::asked(f, entered);
    if f.cf == 4 {
        Cycled::Stopped(s)
    } else if let Some(place) = codes::unmodelled(reading, f) {
        Cycled::Refused(s, Refusal::NotModelled(place))
    } else if storage::is_outside(fence, main.len(), access) {
        Cycled::Refused(s, Refusal::MainAddress)
    } else {
        let fetched = access::fetched(main, local, access);
        access::put(main, local, access, entered.r);
        Cycled::Ran(after(reading, f, z, access, fetched, entered))
    }
}

// One cycle in a fence, of the store's word at WX under a reading. Main and local storage stay two arguments, here, in `cycle` and in
// `step`: what a public function takes may not change.
#[tactic(auto, using(crate::proofs::Cycles::on_1, crate::proofs::Cycles::on_2, crate::proofs::Cycles::on_fault))]
pub fn cycle_in(
    fence: Fence,
    reading: Reading,
    store: &[u64],
    main: &mut [u8],
    local: &mut [u8],
    state: State,
) -> Cycled
    ensures { outcome result main.new local.new ≡ cycle_in fence reading store.now main.old local.old state }
{
    if digits::sizes_wrong(store.len(), main.len(), local.len()) {
        return Cycled::Refused(state, Refusal::Size);
    }
    let Some(&word) = store.get(state.wx as usize) else {
        return Cycled::Refused(state, Refusal::NoWord);
    };
    if let Some(refusal) = word::fault(word, state.wx as u32) {
        return Cycled::Refused(state, refusal);
    }
    step(fence, reading, word::fields_of(word), main, local, state)
}

// One cycle, all main storage in the fence.
pub fn cycle(
    reading: Reading,
    store: &[u64],
    main: &mut [u8],
    local: &mut [u8],
    state: State,
) -> Cycled
    ensures { outcome result main.new local.new ≡ cycle_of reading store.now main.old local.old state }
{
    cycle_in(Fence::whole(), reading, store, main, local, state)
}

// The work of the word that would run next: what is chosen, gated and summed, step by step; none where no sum would be made.
#[tactic(auto, unfolding(crate::specs::Cycle::next_sum_of))]
pub fn next_sum(store: &[u64], state: State) -> Option<Work>
    ensures { result ≡ next_sum_of store.now state }
{
    let word = *store.get(state.wx as usize)?;
    let f = word::take_apart(word, state.wx as u32).ok()?;
    sum_of(f, state)
}

// The work of a word that has its fields and does not stop.
fn sum_of(f: Fields, s: State) -> Option<Work>
    requires { f.ck < 16 }
    ensures { result ≡ sum_by f s }
{
    if f.cf == 4 {
        return None;
    }
    let entered = sources::enter(f, s);
    Some(sources::work_in(f, entered))
}
