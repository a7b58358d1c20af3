// board signed: a signed field as a number, or a number as its field.
use crate::out::Page;
use crate::tell;
use arguments::WholeError;
use digits::Refusal;
use std::rt::Env;

// A text and a line feed.
fn line<F: FnOnce(&mut [u8]) -> Result<usize, Refusal>>(make: F)
    requires { F.IsAlwaysCallable make }
{
    let mut room = [0u8; 32];
    let mut page = Page::new(&mut room);
    page.write(make);
    page.text(b"\n");
    page.flush();
}

// A place counted from 1.
fn from_one(place: usize) -> u64 {
    place.min(15) as u64 + 1
}

// The number of a field that is typed. Where no digit is over 9 the place past them is the sign's.
fn read(typed: &[u8]) {
    let mut field = [0u8; 8];
    arguments::lay(typed, &mut field);
    match signed::read_signed(&field) {
        Ok(number) => line(|room| figures::put_number(number, room)),
        Err(refusal) => {
            let place = signed::bad_place(&field);
            let digit = digits::byte_at(typed, place);
            tell::refused_field(2, refusal, digit, from_one(place));
        }
    }
}

// The field of a number.
fn write(number: i64) {
    let mut field = [0u8; 8];
    match signed::write_signed(number, &mut field) {
        Ok(()) => line(|room| text::put_digits(&field, room)),
        Err(refusal) => tell::refused(2, b"a number", refusal),
    }
}

// Sixteen hexadecimal digits are a field, and all else is a number.
pub fn signed(rt: &impl Env) {
    if !tell::enough(rt, 2) | !tell::no_more(rt, 3) {
        return;
    }
    let mut typed = [0u8; 64];
    let n = input::arg(rt, 2, &mut typed);
    if (n == 16) & arguments::is_number(&typed[..n], 16) {
        read(&typed[..n]);
        return;
    }
    match arguments::whole_of(&typed[..n]) {
        Ok(number) => write(number),
        Err(WholeError::Long) => tell::refused(2, b"a number", Refusal::TooLong),
        Err(WholeError::Wrong) => {
            tell::wrong(2, b"is neither a field of 16 digits nor a number");
        }
    }
}
