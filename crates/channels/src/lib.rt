// The lamp channels: a state, and the work of a cycle, as the bytes that feed the lamps.
#![tactic(auto)]

ghost use Rattle.std.specs.Prelude.{◌≡◌};
ghost use Rattle.channels.specs.Channels.{saved, loaded, worked};

use adder::Work;
use digits::{byte_at, one};
use machine::State;

// The state that a record shows; a byte that it lacks is 0.
#[tactic(auto, unfolding(crate::specs::Channels::loaded))]
pub fn loaded(bytes: &[u8]) -> State
    ensures { result ≡ loaded bytes.now }
{
    State {
        i: byte_at(bytes, 0),
        j: byte_at(bytes, 1),
        u: byte_at(bytes, 2),
        v: byte_at(bytes, 3),
        l: byte_at(bytes, 4),
        t: byte_at(bytes, 5),
        d: byte_at(bytes, 6),
        r: byte_at(bytes, 7),
        s: byte_at(bytes, 8),
        g: byte_at(bytes, 9),
        h: byte_at(bytes, 10),
        m: byte_at(bytes, 11),
        n: byte_at(bytes, 12),
        wx: u16::from_be_bytes([byte_at(bytes, 13), byte_at(bytes, 14)]),
        ac: byte_at(bytes, 15) != 0,
        one_bc: byte_at(bytes, 16) != 0,
        z0: byte_at(bytes, 17) != 0,
        allow_write: byte_at(bytes, 18) != 0,
        local_selected: byte_at(bytes, 19) != 0,
        arriving: byte_at(bytes, 20) != 0,
        arriving_byte: byte_at(bytes, 21),
        digit_carry: byte_at(bytes, 22) != 0,
        invalid: byte_at(bytes, 23) != 0,
        fwx: u16::from_be_bytes([byte_at(bytes, 24), byte_at(bytes, 25)]),
        owed: byte_at(bytes, 26) != 0,
    }
}

// The record of a state.
#[tactic(auto, unfolding(crate::specs::Channels::saved))]
pub fn saved(s: State) -> [u8; 27]
    ensures { result ≡ saved s }
{
    let [w, x] = s.wx.to_be_bytes();
    let [fw, fx] = s.fwx.to_be_bytes();
    [
        s.i,
        s.j,
        s.u,
        s.v,
        s.l,
        s.t,
        s.d,
        s.r,
        s.s,
        s.g,
        s.h,
        s.m,
        s.n,
        w,
        x,
        one(s.ac),
        one(s.one_bc),
        one(s.z0),
        one(s.allow_write),
        one(s.local_selected),
        one(s.arriving),
        s.arriving_byte,
        one(s.digit_carry),
        one(s.invalid),
        fw,
        fx,
        one(s.owed),
    ]
}

// The record of a cycle's work.
#[tactic(auto, unfolding(crate::specs::Channels::worked))]
pub fn worked(w: Work) -> [u8; 8]
    ensures { result ≡ worked w }
{
    [
        w.a_chosen,
        w.a_gated,
        w.b_chosen,
        w.b_gated,
        w.b_entering,
        one(w.carry_in),
        w.before,
        w.after,
    ]
}
