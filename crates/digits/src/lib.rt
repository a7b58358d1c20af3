// What everything stands on: a byte by its bits and its digits, a refusal before others, the sizes that 1 asks for, and a copy.
#![tactic(auto)]

mod refusal;

ghost use Rattle.std.specs.Prelude.{◌≡◌, cond, ◌-◌, ◌^◌, ◌<◌, get_or};
ghost use Rattle.digits.specs.Bits.{one, bit, with_bit};
ghost use Rattle.digits.specs.Digits.{both_decimal};
ghost use Rattle.digits.specs.Sizes.{storage_wrong, sizes_wrong};
ghost use Rattle.digits.specs.Lent.{copied};

pub use refusal::Refusal;

// A bit that is on is 1: std's, under the name that docs/PROMISES.md has.
pub fn one(on: bool) -> u8
    ensures { (result ≡ one on) × (result < 2) }
{
    u8::from(on)
}

// How many bits of a byte stand below its bit `n`.
fn below(n: u8) -> u8
    ensures { result ≡ 7 - n }
{
    7u8.saturating_sub(n)
}

// Bit `n` of a byte is on, bit 0 being the high one.
pub fn bit(byte: u8, n: u8) -> bool
    ensures { result ≡ bit byte n }
{
    (byte >> below(n)) % 2 == 1
}

// What bit `n` of a byte is worth.
fn place(n: u8) -> u8
    ensures { result ≡ 2 ^ (7 - n) }
{
    1 << below(n)
}

// The byte with its bit `n` on or off.
pub fn with_bit(byte: u8, n: u8, on: bool) -> u8
    ensures { result ≡ with_bit byte n on }
{
    let worth = place(n);
    if bit(byte, n) {
        if on {
            return byte;
        }
        return byte - worth;
    }
    if on { byte + worth } else { byte }
}

// Both digits are at most 9.
pub fn both_decimal(byte: u8) -> bool
    ensures { result ≡ both_decimal byte }
{
    (byte / 16 <= 9) & (byte % 16 <= 9)
}

// The answer where its test holds, else what the later tests gave.
pub fn first_of<T: Copy>(test: bool, answer: T, later: T) -> T
    ensures { result ≡ cond test answer later }
{
    if test { answer } else { later }
}

// 1, of main and local storage.
pub fn storage_wrong(main: usize, local: usize) -> bool
    ensures { result ≡ storage_wrong main local }
{
    (main == 0) | ((65536 < main) | (local != 256))
}

// 1, of the word store too.
pub fn sizes_wrong(store: usize, main: usize, local: usize) -> bool
    ensures { result ≡ sizes_wrong store main local }
{
    (store == 0) | ((4096 < store) | storage_wrong(main, local))
}

// The byte at a place, or 0 past the end: std's, under the name that docs/PROMISES.md has.
pub fn byte_at(bytes: &[u8], place: usize) -> u8
    ensures { result ≡ get_or bytes.now place 0 }
{
    bytes.get(place).copied().unwrap_or(0)
}

// Puts `from` at the front of `to`, as far as there is room.
pub fn copy<T: Copy>(from: &[T], to: &mut [T])
    ensures { to.new ≡ copied from.now to.old }
{
    let n = from.len().min(to.len());
    to[..n].copy_from_slice(&from[..n]);
}
