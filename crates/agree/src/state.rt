// Drawn states.
use digits::bit;
use machine::State;

// One FWX of 16 is any number, and the others have 12 bits.
fn drawn_fwx(c: u64, e: u64) -> u16 {
    let x = ((c / 0x1000) ^ (e / 0x100)) % 65536;
    if e / 0x2_0000_0000_0000 % 16 == 0 {
        return x as u16;
    }
    (x % 4096) as u16
}

pub fn drawn_state(c: u64, e: u64, wx: u16) -> State {
    let [i, j, u, v, l, t, d, r] = c.to_le_bytes();
    let [s, g, h, m, n, latches, owed, arriving_byte] = e.to_le_bytes();
    State {
        i,
        j,
        u,
        v,
        l,
        t,
        d,
        r,
        s,
        g,
        h,
        m,
        n,
        wx,
        ac: bit(latches, 7),
        one_bc: bit(latches, 6),
        z0: bit(latches, 5),
        allow_write: bit(latches, 4),
        local_selected: bit(latches, 3),
        arriving: bit(latches, 2),
        arriving_byte,
        digit_carry: bit(latches, 1),
        invalid: bit(latches, 0),
        fwx: drawn_fwx(c, e),
        owed: bit(owed, 7),
    }
}

fn near_high(v: u8) -> u8 {
    u8::from(v % 4 == 3)
}

fn near_low(v: u8) -> u8 {
    [0, 1, 254, 255][(v % 4) as usize]
}

// The state with every pair that addresses storage near 0, 255 or 511.
pub fn near(s: State) -> State {
    State {
        i: near_high(s.i),
        j: near_low(s.j),
        u: near_high(s.u),
        v: near_low(s.v),
        l: near_high(s.l),
        t: near_low(s.t),
        m: near_high(s.m),
        n: near_low(s.n),
        ..s
    }
}
