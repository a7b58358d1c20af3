// How a run ended, and what came of a trap.
ghost use Rattle.std.specs.Prelude.{◌≡◌, ◌++◌, ◌+◌, ◌≤◌, length};
ghost use Rattle.digits.specs.Lent.{over, over_at};
ghost use Rattle.text.specs.Text.{decimal, put_of, room_after};
ghost use Rattle.text.specs.Words.{words_of};
ghost use Rattle.lamps.specs.Ending.{field_of, place_of, standing, refused_of, ending_of, taken_of, trapped_of};

use crate::columns::after;
use digits::Refusal;
use machine::State;
use run::Ending;

// A number in decimal.
fn put_number(number: u8, room: &mut [u8], at: usize) -> usize
    requires { at + 3 ≤ length room.old }
    ensures upper_bound { result ≤ at + 3 }
    ensures value { (result ≡ at + length (decimal number)) × (room.new ≡ over_at at (decimal number) room.old) }
{
    let digits = text::three_digits(number);
    let from = text::zeros_in_front(number);
    after(&digits[from..], room, at)
}

// The fields of a word in their order, each after a space.
const FIELDS: [&str; 23] = [
    "", " CN", " PN", " PA", " CH", " CL", " CM", " CU", " CA", " AA", " CB", " CK", " AK", " PK",
    " PS", " CD", " CF", " CG", " CV", " CC", " CS", " AS", " PC",
];

// The name of a field by its place in the word; none for 0.
fn field_name(place: u8) -> &'static str
    ensures { result.now ≡ field_of place }
{
    FIELDS.get(place as usize).copied().unwrap_or("")
}

// A field by name.
fn put_field(field: u8, room: &mut [u8], at: usize) -> usize
    requires { at + 3 ≤ length room.old }
    ensures upper_bound { result ≤ at + 3 }
    ensures value { (result ≡ at + length (field_of field)) × (room.new ≡ over_at at (field_of field) room.old) }
{
    after(field_name(field).as_bytes(), room, at)
}

// An address, with what stands round it.
fn place(address: u16) -> [u8; 9]
    ensures { result ≡ place_of address }
{
    let mut text = *b" AT    : ";
    text::put_hexadecimal(address as u64, &mut text[4..7]);
    text
}

// A refusal in words.
fn put_words(number: u8, room: &mut [u8], at: usize) -> usize
    requires { at + 64 ≤ length room.old }
    ensures upper_bound { result ≤ at + 64 }
    ensures value { (result ≡ at + length (words_of number)) × (room.new ≡ over_at at (words_of number) room.old) }
{
    at + text::words(number, &mut room[at..]).unwrap_or(0)
}

// All of a refusal; no refusal takes more than 96 bytes.
fn put_refused(number: u8, field: u8, address: u16, room: &mut [u8]) -> usize
    requires { length room.old ≡ 96 }
    ensures upper_bound { result ≤ 96 }
    ensures value { (result ≡ length (refused_of number field address)) × (room.new ≡ over (refused_of number field address) room.old) }
{
    let next = after(b"REFUSED ", room, 0);
    let next = put_number(number, room, next);
    let next = put_field(field, room, next);
    let next = after(&place(address), room, next);
    let next = put_words(number, room, next);
    after(b"\n", room, next)
}

// A refusal, after the words that say of what.
pub fn refused(
    words: &[u8],
    number: u8,
    field: u8,
    address: u16,
    room: &mut [u8],
) -> Result<usize, Refusal>
    ensures { (result ≡ put_of (words.now ++ refused_of number field address) (length room.old)) × (room.new ≡ room_after (words.now ++ refused_of number field address) room.old) }
{
    let mut line = [0u8; 96];
    let end = put_refused(number, field, address, &mut line);
    text::put_both(words, &line[..end], room)
}

fn standing(words: &[u8], address: u16, room: &mut [u8]) -> Result<usize, Refusal>
    ensures { (result ≡ put_of (standing words.now address) (length room.old)) × (room.new ≡ room_after (standing words.now address) room.old) }
{
    let mut tail = [b'\n'; 4];
    text::put_hexadecimal(address as u64, &mut tail[0..3]);
    text::put_both(words, &tail, room)
}

// An ending, and the address of the word at which the run stands.
pub fn ending(how: Ending, address: u16, room: &mut [u8]) -> Result<usize, Refusal>
    ensures { (result ≡ put_of (ending_of how address) (length room.old)) × (room.new ≡ room_after (ending_of how address) room.old) }
{
    match how {
        Ending::Stopped => standing(b"STOPPED AT ", address, room),
        Ending::Refused(r) => refused(b"", r.number(), r.field(), address, room),
        Ending::Spent => standing(b"SPENT AT ", address, room),
    }
}

// To where a trap went, and from where.
fn taken(to: u16, from: u16) -> [u8; 22]
    ensures { result ≡ taken_of to from }
{
    let mut text = *b"TRAP TO    , FROM    \n";
    text::put_hexadecimal(to as u64, &mut text[8..11]);
    text::put_hexadecimal(from as u64, &mut text[18..21]);
    text
}

// What came of a trap that broke into the state; a refused one stands where that does.
pub fn trapped(
    before: State,
    answer: Result<State, Refusal>,
    room: &mut [u8],
) -> Result<usize, Refusal>
    ensures { (result ≡ put_of (trapped_of before answer) (length room.old)) × (room.new ≡ room_after (trapped_of before answer) room.old) }
{
    match answer {
        Ok(s) => text::put(&taken(s.wx, s.fwx), room),
        Err(r) => refused(b"TRAP ", r.number(), 0, before.wx, room),
    }
}
