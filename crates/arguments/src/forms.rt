// An argument of the command line.
ghost use Rattle.std.specs.Prelude.{◌≡◌, ◌≤◌, length, drop};
ghost use Rattle.arguments.specs.Arguments.{names, place_in, place_of, byte_form, address_form, limit_form, cycle_fits, before_colon, after_colon, trap_cycle, trap_address, trap_form, reading_form, reading_given, given_of, bounds_of};

use crate::Given;
use crate::numbers::{digits_fit, number_fits, short_value, value};
use codes::Reading;
use digits::byte_at;

// What stands from a place on.
pub(crate) fn after(text: &[u8], at: usize) -> &[u8]
    ensures { result.now ≡ drop at text.now }
{
    text.get(at..).unwrap_or(&[])
}

// The text begins with the name, and '=' stands right after it.
fn names(name: &[u8], text: &[u8]) -> bool
    ensures { result ≡ names name.now text.now }
{
    for (i, letter) in name.iter().enumerate() {
        if byte_at(text, i).to_ascii_uppercase() != *letter {
            return false;
        }
    }
    byte_at(text, name.len()) == b'='
}

// The place of a character among some, or their number.
fn place_in(c: u8, list: &[u8]) -> usize
    ensures value { result ≡ place_in c list.now }
    ensures bound { result ≤ length list.now }
{
    list.iter().position(|x| c == *x).unwrap_or(list.len())
}

// The place of the register of one byte that the first letter names, or 13.
#[tactic(auto, unfolding(crate::specs::Arguments::place_of))]
fn place_of(text: &[u8]) -> u8
    ensures { result ≡ place_of text.now }
{
    place_in(byte_at(text, 0).to_ascii_uppercase(), b"IJUVLTDRSGHMN") as u8
}

#[tactic(auto, unfolding(crate::specs::Arguments::byte_form))]
fn byte_form(text: &[u8]) -> bool
    ensures { result ≡ byte_form text.now }
{
    place_of(text) < 13 && byte_at(text, 1) == b'=' && digits_fit(16, 2, after(text, 2))
}

#[tactic(auto, unfolding(crate::specs::Arguments::address_form))]
fn address_form(text: &[u8]) -> bool
    ensures { result ≡ address_form text.now }
{
    names(b"WX", text) && digits_fit(16, 3, after(text, 3))
}

#[tactic(auto, unfolding(crate::specs::Arguments::limit_form))]
fn limit_form(name: &[u8], text: &[u8]) -> bool
    ensures { result ≡ limit_form name.now text.now }
{
    names(name, text) && number_fits(after(text, name.len() + 1))
}

fn cycle_fits(text: &[u8]) -> bool
    ensures { result ≡ cycle_fits text.now }
{
    number_fits(text) && 0 < value(10, text)
}

// What stands before the first ':', and after it.
fn before_colon(text: &[u8]) -> &[u8]
    ensures { result.now ≡ before_colon text.now }
{
    let end = place_in(b':', text);
    &text[0..end]
}

fn after_colon(text: &[u8]) -> &[u8]
    ensures { result.now ≡ after_colon text.now }
{
    after(text, place_in(b':', text) + 1)
}

// The same after "TRAP=".
fn trap_cycle(text: &[u8]) -> &[u8]
    ensures { result.now ≡ trap_cycle text.now }
{
    before_colon(after(text, 5))
}

fn trap_address(text: &[u8]) -> &[u8]
    ensures { result.now ≡ trap_address text.now }
{
    after_colon(after(text, 5))
}

#[tactic(auto, unfolding(crate::specs::Arguments::trap_form))]
fn trap_form(text: &[u8]) -> bool
    ensures { result ≡ trap_form text.now }
{
    names(b"TRAP", text) && cycle_fits(trap_cycle(text)) && digits_fit(16, 4, trap_address(text))
}

#[tactic(auto, unfolding(crate::specs::Arguments::reading_form))]
fn reading_form(letter: u8, text: &[u8]) -> bool
    ensures { result ≡ reading_form letter text.now }
{
    names(b"READING", text) && text.len() == 9 && byte_at(text, 8).to_ascii_uppercase() == letter
}

// How the deck is read, or none of the forms.
#[tactic(auto, unfolding(crate::specs::Arguments::reading_given))]
fn reading_given(text: &[u8]) -> Option<Given>
    ensures { result ≡ reading_given text.now }
{
    if reading_form(b'B', text) {
        return Some(Given::Reading(Reading::Basic));
    }
    if reading_form(b'C', text) {
        return Some(Given::Reading(Reading::Compatibility));
    }
    None
}

// What an argument gives.
#[tactic(auto, unfolding(crate::specs::Arguments::given_of), using(crate::proofs::Laws::byte_short, crate::proofs::Laws::trap_short))]
pub fn given_of(text: &[u8]) -> Option<Given>
    ensures { result ≡ given_of text.now }
{
    if byte_form(text) {
        return Some(Given::Register(place_of(text), short_value(after(text, 2))));
    }
    if address_form(text) {
        return Some(Given::Register(13, short_value(after(text, 3))));
    }
    if limit_form(b"FROM", text) {
        return Some(Given::From(value(10, after(text, 5))));
    }
    if limit_form(b"TO", text) {
        return Some(Given::To(value(10, after(text, 3))));
    }
    if trap_form(text) {
        return Some(Given::Trap(value(10, trap_cycle(text)), value(16, trap_address(text))));
    }
    reading_given(text)
}

// A fence, as START:END.
#[tactic(auto, unfolding(crate::specs::Arguments::bounds_of))]
pub fn bounds_of(text: &[u8]) -> Option<(u32, u32)>
    ensures { result ≡ bounds_of text.now }
{
    let start = before_colon(text);
    let end = after_colon(text);
    if digits_fit(16, 5, start) && digits_fit(16, 5, end) {
        return Some((value(16, start), value(16, end)));
    }
    None
}
