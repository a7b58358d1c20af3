// A cycle as lamps, eight rows side by side under their names.
ghost use Rattle.std.specs.Prelude.{◌≡◌, ◌+◌, ◌≤◌, length};
ghost use Rattle.digits.specs.Bits.{bit};
ghost use Rattle.digits.specs.Lent.{over_at};
ghost use Rattle.text.specs.Text.{put_of, room_after};
ghost use Rattle.channels.specs.Channels.{channels, work_channels};
ghost use Rattle.lamps.specs.Picture.{lamp, in_place, blocks_of, title_of, picture_of, start_picture_of};
ghost use Rattle.lamps.specs.Rows.{row_at, names_in, rows_in, block_bytes, blocks_bytes};

use crate::columns::{ROWS, Row, WORK_ROWS, after};
use adder::Work;
use digits::Refusal;
use machine::State;

fn lamp(on: bool) -> u8
    ensures { result ≡ lamp on }
{
    if on { b'*' } else { b'.' }
}

// Bit `n` of a byte as a lamp.
fn lamp_at(byte: u8, n: u8) -> u8
    ensures { result ≡ lamp (bit byte n) }
{
    lamp(digits::bit(byte, n))
}

// The row of a byte: eight lamps, bit 0 first, or the one of a latch.
fn lamps_of(digits: u8, byte: u8) -> [u8; 9]
    ensures { result ≡ in_place (row_at digits byte) }
{
    if digits == 1 {
        return [
            b' ',
            b' ',
            b' ',
            b' ',
            b' ',
            b' ',
            b' ',
            b' ',
            lamp(byte != 0),
        ];
    }
    [
        b' ',
        lamp_at(byte, 0),
        lamp_at(byte, 1),
        lamp_at(byte, 2),
        lamp_at(byte, 3),
        lamp_at(byte, 4),
        lamp_at(byte, 5),
        lamp_at(byte, 6),
        lamp_at(byte, 7),
    ]
}

// Puts the names of some rows side by side.
fn put_names(rows: &[Row], room: &mut [u8], at: usize) -> usize
    requires { at + length (names_in rows.now) ≤ length room.old }
    ensures { (result ≡ at + length (names_in rows.now)) × (room.new ≡ over_at at (names_in rows.now) room.old) }
{
    let mut next = at;
    for row in rows {
        next = after(&row.name, room, next);
    }
    next
}

// Puts the rows of a record's bytes side by side.
fn put_rows(rows: &[Row], bytes: &[u8], room: &mut [u8], at: usize) -> usize
    requires { at + length (rows_in rows.now bytes.now) ≤ length room.old }
    ensures { (result ≡ at + length (rows_in rows.now bytes.now)) × (room.new ≡ over_at at (rows_in rows.now bytes.now) room.old) }
{
    let mut next = at;
    for (row, &byte) in rows.iter().zip(bytes) {
        next = after(&lamps_of(row.digits, byte), room, next);
    }
    next
}

// Puts a line of names, and the rows below them.
fn put_block(rows: &[Row], bytes: &[u8], room: &mut [u8], at: usize) -> usize
    requires { at + (length (names_in rows.now) + (length (rows_in rows.now bytes.now) + 2)) ≤ length room.old }
    ensures { (result ≡ at + length (block_bytes rows.now bytes.now)) × (room.new ≡ over_at at (block_bytes rows.now bytes.now) room.old) }
{
    let next = put_names(rows, room, at);
    let next = after(b"\n", room, next);
    let next = put_rows(rows, bytes, room, next);
    after(b"\n", room, next)
}

// Puts the rows of a record under their names, eight side by side.
fn put_blocks(rows: &[Row], bytes: &[u8], room: &mut [u8], at: usize) -> usize
    requires bytes_len { length rows.now ≡ length bytes.now }
    requires room_len { at + length (blocks_bytes rows.now bytes.now) ≤ length room.old }
    ensures { (result ≡ at + length (blocks_bytes rows.now bytes.now)) × (room.new ≡ over_at at (blocks_bytes rows.now bytes.now) room.old) }
{
    let mut next = at;
    for (block, part) in rows.chunks(8).zip(bytes.chunks(8)) {
        next = put_block(block, part, room, next);
    }
    next
}

fn put_state(s: State, room: &mut [u8], at: usize) -> usize
    requires { at + length (blocks_of channels s) ≤ length room.old }
    ensures { (result ≡ at + length (blocks_of channels s)) × (room.new ≡ over_at at (blocks_of channels s) room.old) }
{
    put_blocks(&ROWS, &channels::saved(s), room, at)
}

fn put_work(w: Work, room: &mut [u8], at: usize) -> usize
    requires { at + length (blocks_of work_channels w) ≤ length room.old }
    ensures { (result ≡ at + length (blocks_of work_channels w)) × (room.new ≡ over_at at (blocks_of work_channels w) room.old) }
{
    put_blocks(&WORK_ROWS, &channels::worked(w), room, at)
}

fn title(cycle: u32, at: u16) -> [u8; 20]
    ensures { result ≡ title_of cycle at }
{
    let mut text = *b"CYCLE        AT    \n";
    text::put_decimal(cycle, &mut text[5..12]);
    text::put_hexadecimal(at as u64, &mut text[16..19]);
    text
}

// A cycle: its number and its word's address, the state after it, and its work.
pub fn picture(cycle: u32, at: u16, s: State, w: Work, room: &mut [u8]) -> Result<usize, Refusal>
    ensures { (result ≡ put_of (picture_of cycle at s w) (length room.old)) × (room.new ≡ room_after (picture_of cycle at s w) room.old) }
{
    if room.len() < 661 {
        return Err(Refusal::Room);
    }
    let next = after(&title(cycle, at), room, 0);
    let next = put_state(s, room, next);
    let next = put_work(w, room, next);
    Ok(after(b"\n", room, next))
}

// The state before the first cycle.
pub fn start_picture(s: State, room: &mut [u8]) -> Result<usize, Refusal>
    ensures { (result ≡ put_of (start_picture_of s) (length room.old)) × (room.new ≡ room_after (start_picture_of s) room.old) }
{
    if room.len() < 508 {
        return Err(Refusal::Room);
    }
    let next = after(b"CYCLE      0\n", room, 0);
    let next = put_state(s, room, next);
    Ok(after(b"\n", room, next))
}
