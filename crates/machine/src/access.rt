// What a word does with storage.
ghost use Rattle.std.specs.Prelude.{◌≡◌, true, false, ◌<◌, length};
ghost use Rattle.storage.specs.Storage.{access_of, main_address, fetched_of, main_after, local_after};
ghost use Rattle.machine.specs.Cycle.{seen_of};

use crate::State;
use storage::{Access, Seen};
use word::Fields;

// What storage sees of a state. A `From` would be one more public function, for one call.
fn seen(s: State) -> Seen
    ensures { result ≡ seen_of s }
{
    Seen {
        i: s.i,
        j: s.j,
        u: s.u,
        v: s.v,
        l: s.l,
        t: s.t,
        g: s.g,
        m: s.m,
        n: s.n,
        allow_write: s.allow_write,
        local_selected: s.local_selected,
    }
}

// d. What a word asks of storage, from the state that has the arriving byte in R.
pub(crate) fn asked(f: Fields, s: State) -> Access
    ensures { result ≡ access_of f (seen_of s) }
{
    storage::access_of(f, seen(s))
}

// Where M and N stand in main storage.
fn at(a: Access) -> usize
    ensures { result ≡ main_address a }
{
    a.m as usize * 256 + a.n as usize
}

// The byte that a fetch finds, 0 where none is made.
pub(crate) fn fetched(main: &[u8], local: &[u8], a: Access) -> u8
    requires { (length local.now ≡ 256) × (a.fetches ≡ true → a.local ≡ false → main_address a < length main.now) }
    ensures { result ≡ fetched_of main.now local.now a }
{
    if !a.fetches {
        return 0;
    }
    if a.local {
        return local[a.n as usize];
    }
    main[at(a)]
}

// Puts R where a put is made.
pub(crate) fn put(main: &mut [u8], local: &mut [u8], a: Access, r: u8)
    requires { (length local.old ≡ 256) × (a.puts ≡ true → a.local ≡ false → main_address a < length main.old) }
    ensures { (main.new ≡ main_after main.old a r) × (local.new ≡ local_after local.old a r) }
{
    if !a.puts {
        return;
    }
    if a.local {
        local[a.n as usize] = r;
        return;
    }
    main[at(a)] = r;
}
