// Storage: what a word asks of it, and whether that is inside.
#![tactic(auto)]

ghost use Rattle.std.specs.Prelude.{◌≡◌};
ghost use Rattle.storage.specs.Storage.{reads_local, reads_at, writing, idle, access_of, whole, outside};

use digits::bit;
use word::Fields;

// What storage sees of a state.
#[derive(Clone, Copy)]
pub struct Seen {
    pub i: u8,
    pub j: u8,
    pub u: u8,
    pub v: u8,
    pub l: u8,
    pub t: u8,
    pub g: u8,
    pub m: u8,
    pub n: u8,
    pub allow_write: bool,
    pub local_selected: bool,
}

// The address, the kind and the latch after the word, and what storage is to do.
#[derive(Clone, Copy)]
pub struct Access {
    pub m: u8,
    pub n: u8,
    pub local: bool,
    pub latch: bool,
    pub fetches: bool,
    pub puts: bool,
}

// The part of main storage that a board may use: a start, and an end that is not in it.
#[derive(Clone, Copy)]
pub struct Fence {
    pub start: usize,
    pub end: usize,
}

impl Fence {
    // All main storage is in it.
    pub fn whole() -> Fence
        ensures { result ≡ whole }
    {
        Fence {
            start: 0,
            end: 65536,
        }
    }
}

// A read is of local storage, by CU.
fn reads_local(cu: u8, s: Seen) -> bool
    ensures { result ≡ reads_local cu s }
{
    match cu {
        0 => false,
        1 => true,
        2 => false,
        3 => !bit(s.g, 0) & !bit(s.g, 1),
        _ => false,
    }
}

fn reads_at(m: u8, n: u8, local: bool, s: Seen) -> Access
    ensures { result ≡ reads_at m n local s }
{
    Access {
        m,
        n,
        local,
        latch: true,
        fetches: !s.allow_write,
        puts: false,
    }
}

fn writing(s: Seen) -> Access
    ensures { result ≡ writing s }
{
    Access {
        latch: false,
        puts: s.allow_write,
        ..idle(s)
    }
}

fn idle(s: Seen) -> Access
    ensures { result ≡ idle s }
{
    Access {
        m: s.m,
        n: s.n,
        local: s.local_selected,
        latch: s.allow_write,
        fetches: false,
        puts: false,
    }
}

// What a word asks of storage, by CM and CU.
#[tactic(auto, unfolding(crate::specs::Storage::access_of))]
pub fn access_of(f: Fields, s: Seen) -> Access
    ensures { result ≡ access_of f s }
{
    let local = reads_local(f.cu, s);
    let m = digits::first_of(local, s.m, s.l);
    match f.cm {
        0 => writing(s),
        1 => idle(s),
        2 => writing(s),
        3 => reads_at(s.i, s.j, local, s),
        4 => reads_at(s.u, s.v, local, s),
        5 => reads_at(m, s.t, local, s),
        _ => idle(s),
    }
}

// 11: a byte would be fetched from, or put to, main storage outside it, or outside the fence.
pub fn is_outside(fence: Fence, main: usize, a: Access) -> bool
    ensures { result ≡ outside fence main a }
{
    let at = a.m as usize * 256 + a.n as usize;
    let beyond = (at < fence.start) | (fence.end <= at);
    (a.fetches | a.puts) & (!a.local & ((main <= at) | beyond))
}
