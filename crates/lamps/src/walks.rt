// The walk: one record after the other with exactly one lamp lit, each with the lamp's name.
ghost use Rattle.std.specs.Prelude.{◌≡◌, ◌+◌, ◌*◌, ◌<◌, ◌≤◌, length};
ghost use Rattle.digits.specs.Lent.{over_at};
ghost use Rattle.channels.specs.Channels.{record_length};
ghost use Rattle.text.specs.Text.{put_of, room_after};
ghost use Rattle.lamps.specs.Walk.{hex_bytes, walk_line, lines_of, walk_row, walk_of};

use crate::columns::{ROWS, after, put_cell};
use digits::Refusal;

// Puts a record in hexadecimal.
fn put_record(bytes: &[u8], room: &mut [u8], at: usize) -> usize
    requires { at + 3 * length bytes.now ≤ length room.old }
    ensures { (result ≡ at + length (hex_bytes bytes.now)) × (room.new ≡ over_at at (hex_bytes bytes.now) room.old) }
{
    let mut next = at;
    for &byte in bytes {
        next = put_cell(1, 2, byte, room, next);
    }
    next
}

// Puts a lamp: its row's name, its number in the row, and the record that lights it alone.
fn put_lamp(row: usize, number: u8, byte: u8, room: &mut [u8], at: usize) -> usize
    requires { (row < record_length) × (at + 92 ≤ length room.old) }
    ensures { (result ≡ at + length (walk_line row (number, byte))) × (room.new ≡ over_at at (walk_line row (number, byte)) room.old) }
{
    let mut lit = [0; 27];
    lit[row] = byte;
    let next = after(&ROWS[row].name, room, at);
    let next = after(&[number], room, next);
    let next = put_record(&lit, room, next);
    after(b"\n", room, next)
}

// Puts some lamps of a row, by their numbers and the bytes that light them.
fn put_lamps(row: usize, lamps: &[(u8, u8)], room: &mut [u8], at: usize) -> usize
    requires { (row < record_length) × (at + 92 * length lamps.now ≤ length room.old) }
    ensures { (result ≡ at + length (lines_of row lamps.now)) × (room.new ≡ over_at at (lines_of row lamps.now) room.old) }
{
    let mut next = at;
    for lamp in lamps {
        next = put_lamp(row, lamp.0, lamp.1, room, next);
    }
    next
}

// The lamps of a byte.
const EIGHT: [(u8, u8); 8] = [
    (b'0', 128),
    (b'1', 64),
    (b'2', 32),
    (b'3', 16),
    (b'4', 8),
    (b'5', 4),
    (b'6', 2),
    (b'7', 1),
];

// Puts all lamps of a row: the one of a latch, or the eight of a byte.
fn put_row(row: usize, digits: u8, room: &mut [u8], at: usize) -> usize
    requires { (row < record_length) × (at + length (walk_row row digits) ≤ length room.old) }
    ensures { (result ≡ at + length (walk_row row digits)) × (room.new ≡ over_at at (walk_row row digits) room.old) }
{
    if digits == 1 {
        return put_lamps(row, &[(b' ', 1)], room, at);
    }
    put_lamps(row, &EIGHT, room, at)
}

// All rows, in the order of the channels.
pub fn walk(room: &mut [u8]) -> Result<usize, Refusal>
    ensures { (result ≡ put_of walk_of (length room.old)) × (room.new ≡ room_after walk_of room.old) }
{
    if room.len() < 14076 {
        return Err(Refusal::Room);
    }
    let mut next = 0;
    for (i, row) in ROWS.iter().enumerate() {
        next = put_row(i, row.digits, room, next);
    }
    Ok(next)
}
