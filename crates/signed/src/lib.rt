// Signed read-out: a packed field of 8 bytes, fifteen digits and a sign, as a number, and back.
#![tactic(auto)]

ghost use Rattle.std.specs.Prelude.{◌≡◌, ◌<◌, ◌≤◌, min, nat_abs, length, get_or};
ghost use Rattle.digits.specs.Tens.{tens};
ghost use Rattle.digits.specs.Packed.{digits_in, preferred, signed};
ghost use Rattle.signed.specs.Signed.{greatest, fifteen, bad_place, read_signed, signed_field, write_signed, field_after};

use digits::{Refusal, byte_at};

// The digit at a place, two to a byte.
#[tactic(auto, using(crate::proofs::Fields::even, crate::proofs::Fields::odd))]
fn digit_at(field: &[u8], place: usize) -> u8
    ensures { (result ≡ get_or (digits_in field.now) place 0) × (result < 16) }
{
    let byte = byte_at(field, place / 2);
    if place % 2 == 0 { byte / 16 } else { byte % 16 }
}

// How many of the first fifteen places a field has.
#[tactic(auto, using(crate::proofs::Fields::places))]
fn places(field: &[u8]) -> usize
    ensures { (result ≡ length (fifteen field.now)) × (result ≤ 15) }
{
    (2 * field.len()).min(15)
}

// The place of the first digit over 9 among the first fifteen, or the place past them.
pub fn bad_place(field: &[u8]) -> usize
    ensures { result ≡ bad_place field.now }
{
    let end = places(field);
    for place in 0..end {
        if 9 < digit_at(field, place) {
            return place;
        }
    }
    end
}

// The number that the first fifteen digits write.
fn size_in(field: &[u8]) -> u64
    ensures { (result ≡ tens (fifteen field.now)) × (result < 2000000000000000) }
{
    let mut size: u64 = 0;
    for place in 0..places(field) {
        size = size * 10 + u64::from(digit_at(field, place));
    }
    size
}

// The number of a size, below zero or not; a size over the greatest number's counts as that.
pub fn with_sign(minus: bool, size: u64) -> i64
    ensures { result ≡ signed minus (min size greatest) }
{
    let number = size.min(i64::MAX as u64) as i64;
    if minus { -number } else { number }
}

// The number of a field.
#[tactic(auto, unfolding(crate::specs::Signed::read_signed))]
pub fn read_signed(field: &[u8]) -> Result<i64, Refusal>
    ensures { result ≡ read_signed field.now }
{
    if field.len() != 8 {
        return Err(Refusal::SignedLength);
    }
    if bad_place(field) < 15 {
        return Err(Refusal::Digit);
    }
    let sign = digit_at(field, 15);
    if sign < 0xA {
        return Err(Refusal::Sign);
    }
    Ok(with_sign(matches!(sign, 0xB | 0xD), size_in(field)))
}

// The size of any number, the least included: std's, under the name that docs/PROMISES.md has.
pub fn size(number: i64) -> u64
    ensures { result ≡ nat_abs number }
{
    number.unsigned_abs()
}

// C, or D where the number is below zero.
fn sign_for(minus: bool) -> u8
    ensures { result ≡ preferred minus }
{
    if minus { 0xD } else { 0xC }
}

// Puts fifteen digits and a sign, from the last byte on.
fn put(size: u64, sign: u8, field: &mut [u8])
    requires { (length field.old ≡ 8) × (sign < 16) }
    ensures { field.new ≡ signed_field size sign }
{
    let mut rest = size;
    let mut low = sign;
    // By its place: over `iter_mut().rev()` the proof does not close, since it leaves nothing of the bytes.
    for i in (0..field.len()).rev() {
        field[i] = (rest % 10) as u8 * 16 + low;
        low = (rest / 10 % 10) as u8;
        rest /= 100;
    }
}

// Puts the field of a number.
#[tactic(auto, unfolding(crate::specs::Signed::write_signed, crate::specs::Signed::field_after))]
pub fn write_signed(number: i64, field: &mut [u8]) -> Result<(), Refusal>
    ensures { (result ≡ write_signed number field.old) × (field.new ≡ field_after number field.old) }
{
    if field.len() != 8 {
        return Err(Refusal::SignedLength);
    }
    let size = size(number);
    if 999_999_999_999_999 < size {
        return Err(Refusal::TooLong);
    }
    put(size, sign_for(number < 0), field);
    Ok(())
}
