// Text: digits as characters, numbers in columns, refusals in words, and a text in the room lent.
#![tactic(auto)]

mod refusals;

ghost use Rattle.std.specs.Prelude.{◌≡◌, ◌++◌, ◌<◌, ◌≤◌, length, replicate};
ghost use Rattle.text.specs.Text.{capital, hexadecimal, field_digits, three_digits, zeros_in_front, place, in_columns, put_of, room_after};

use digits::Refusal;
pub use refusals::words;

fn capital(digit: u8) -> u8
    requires { digit < 16 }
    ensures { result ≡ capital digit }
{
    if digit < 10 {
        b'0' + digit
    } else {
        b'A' - 10 + digit
    }
}

// Puts the lowest hexadecimal digits of a number: as many as there is room for.
pub fn put_hexadecimal(number: u64, out: &mut [u8])
    ensures { out.new ≡ hexadecimal (length out.old) number }
{
    let mut rest = number;
    // By its place: over `iter_mut().rev()` the proof does not close, since it leaves nothing of the bytes.
    for i in (0..out.len()).rev() {
        out[i] = capital((rest % 16) as u8);
        rest /= 16;
    }
}

// Puts spaces in all of the room.
pub fn put_spaces(out: &mut [u8])
    ensures { out.new ≡ replicate (length out.old) 32 }
{
    out.fill(b' ');
}

// The three decimal digits of a byte.
pub fn three_digits(number: u8) -> [u8; 3]
    ensures { result ≡ three_digits number }
{
    [
        b'0' + number / 100,
        b'0' + number / 10 % 10,
        b'0' + number % 10,
    ]
}

// How many of them are zeros in front.
pub fn zeros_in_front(number: u8) -> usize
    ensures { (result ≡ zeros_in_front number) × (result ≤ 2) }
{
    match number {
        0..=9 => 2,
        10..=99 => 1,
        _ => 0,
    }
}

// The character of a number's last digit, or a space where nothing is left and it is not the last place.
fn place(last: bool, number: u32) -> u8
    ensures { result ≡ place last number }
{
    if !last && number == 0 {
        b' '
    } else {
        b'0' + (number % 10) as u8
    }
}

// Puts a number in decimal at the right end of all the columns, with spaces before it.
pub fn put_decimal(number: u32, out: &mut [u8])
    ensures { out.new ≡ in_columns (length out.old) number }
{
    let mut rest = number;
    let mut last = true;
    // By its place: over `iter_mut().rev()` the proof does not close, since it leaves nothing of the bytes.
    for i in (0..out.len()).rev() {
        out[i] = place(last, rest);
        rest /= 10;
        last = false;
    }
}

// Puts a text, or gives 19.
pub fn put(text: &[u8], room: &mut [u8]) -> Result<usize, Refusal>
    ensures { (result ≡ put_of text.now (length room.old)) × (room.new ≡ room_after text.now room.old) }
{
    if room.len() < text.len() {
        return Err(Refusal::Room);
    }
    room[..text.len()].copy_from_slice(text);
    Ok(text.len())
}

// Puts the digits of some bytes, or gives 19.
pub fn put_digits(field: &[u8], room: &mut [u8]) -> Result<usize, Refusal>
    ensures { (result ≡ put_of (field_digits field.now) (length room.old)) × (room.new ≡ room_after (field_digits field.now) room.old) }
{
    // half, as twice a length may pass 64 bits
    if room.len() / 2 < field.len() {
        return Err(Refusal::Room);
    }
    // By its place: std says nothing of a slice after `chunks_exact_mut`.
    for (i, byte) in field.iter().enumerate() {
        let at = 2 * i;
        put_hexadecimal(u64::from(*byte), &mut room[at..at + 2]);
    }
    Ok(2 * field.len())
}

// Puts two texts one after the other, or gives 19.
pub fn put_both(first: &[u8], second: &[u8], room: &mut [u8]) -> Result<usize, Refusal>
    ensures { (result ≡ put_of (first.now ++ second.now) (length room.old)) × (room.new ≡ room_after (first.now ++ second.now) room.old) }
{
    let at = first.len();
    let end = at + second.len();
    if room.len() < end {
        return Err(Refusal::Room);
    }
    room[..at].copy_from_slice(first);
    room[at..end].copy_from_slice(second);
    Ok(end)
}
