// The address of the next word.
ghost use Rattle.std.specs.Prelude.{◌≡◌, ◌<◌};
ghost use Rattle.word.specs.Parity.{is_return};
ghost use Rattle.machine.specs.Branch.{tested_of, w_of, next_of};

use crate::State;
use codes::{Reading, Tested};
use word::Fields;

// What a branch may test of a state. A `From` would be one more public function, for one call.
fn tested(s: State) -> Tested
    ensures { result ≡ tested_of s }
{
    Tested {
        r: s.r,
        v: s.v,
        s: s.s,
        g: s.g,
        ac: s.ac,
        one_bc: s.one_bc,
        z0: s.z0,
    }
}

// W: CA, or CK, or as it was.
fn w_of(f: Fields, wx: u16) -> u8
    ensures { result ≡ w_of f wx }
{
    if f.cl == 2 {
        return f.ca;
    }
    if (f.cm < 3) & (f.cu == 2) {
        return f.ck;
    }
    (wx / 256) as u8
}

// The word returns from a trap.
pub(crate) fn is_return(f: Fields) -> bool
    ensures { result ≡ is_return f }
{
    (f.cm < 3) & (f.cu == 3)
}

// The address of the next word: FWX, or what W, CN, CH and CL give.
#[tactic(auto, unfolding(crate::specs::Branch::next_of))]
pub(crate) fn next_of(reading: Reading, f: Fields, s: State) -> u16
    requires { f.cn < 64 }
    ensures { result ≡ next_of reading f s }
{
    let t = tested(s);
    let x6 = digits::one(codes::high_branch(reading, f.ch, t));
    let x7 = digits::one(codes::low_branch(reading, f.cl, t));
    let formed = w_of(f, s.wx) as u16 * 256 + (f.cn * 4 + x6 * 2 + x7) as u16;
    if is_return(f) { s.fwx } else { formed }
}
