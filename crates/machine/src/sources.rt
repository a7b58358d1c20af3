// What a word finds: the arriving byte in R, and the adder's two sources.
ghost use Rattle.std.specs.Prelude.{◌≡◌, ◌<◌};
ghost use Rattle.machine.specs.Sources.{entered, a_source, b_source, controls_of, sum_in, work_in};

use crate::State;
use adder::{Controls, Sum, Work};
use digits::bit;
use word::Fields;

// a. An arriving byte enters R, unless CM is Store.
#[tactic(auto, unfolding(crate::specs::Sources::entered))]
pub(crate) fn enter(f: Fields, s: State) -> State
    ensures { result ≡ entered f s }
{
    let r = if s.arriving & (f.cm != 2) {
        s.arriving_byte
    } else {
        s.r
    };
    State {
        r,
        arriving: false,
        arriving_byte: 0,
        ..s
    }
}

// The byte that CA names, or zero where CA is a module number.
fn a_source(f: Fields, s: State) -> u8
    ensures { result ≡ a_source f s }
{
    if f.cl == 2 {
        return 0;
    }
    let sources = [
        0, 0, 0, 0, s.s, s.h, 0, s.r, s.d, s.l, s.g, s.t, s.v, s.u, s.j, s.i,
    ];
    sources.get(f.ca as usize).copied().unwrap_or(0)
}

// The byte that CB names.
fn b_source(f: Fields, s: State) -> u8
    requires { f.ck < 16 }
    ensures { result ≡ b_source f s }
{
    let k_twice = f.ck * 16 + f.ck;
    let sources = [s.r, s.l, s.d, k_twice];
    sources.get(f.cb as usize).copied().unwrap_or(0)
}

// What CF, CG, CV and CC ask, and the bits of S that they may read.
fn controls(f: Fields, s: State) -> Controls
    ensures { result ≡ controls_of f s }
{
    Controls {
        cf: f.cf,
        cg: f.cg,
        cv: f.cv,
        cc: f.cc,
        s0: bit(s.s, 0),
        s3: bit(s.s, 3),
    }
}

// c. The adder's whole answer.
#[tactic(auto, unfolding(crate::specs::Sources::sum_in))]
pub(crate) fn sum_in(f: Fields, s: State) -> Sum
    requires { f.ck < 16 }
    ensures { result ≡ sum_in f s }
{
    adder::add(a_source(f, s), b_source(f, s), controls(f, s))
}

// What the adder does on the way to its answer.
#[tactic(auto, unfolding(crate::specs::Sources::work_in))]
pub(crate) fn work_in(f: Fields, s: State) -> Work
    requires { f.ck < 16 }
    ensures { result ≡ work_in f s }
{
    adder::work_of(a_source(f, s), b_source(f, s), controls(f, s))
}
