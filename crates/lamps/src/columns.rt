// A record in columns, and pieces of text one after the other.
ghost use Rattle.std.specs.Prelude.{◌≡◌, ◌+◌, ◌≤◌, length};
ghost use Rattle.digits.specs.Lent.{over_at};
ghost use Rattle.channels.specs.Channels.{channels, work_channels};
ghost use Rattle.lamps.specs.Columns.{cell, cells};
ghost use Rattle.lamps.specs.Rows.{byte_cells};

use adder::Work;
use machine::State;

// A row of lamps, which is a byte of a record: its name at the right end of nine columns, and in a line the spaces before the byte
// and how many digits it has.
#[derive(Clone, Copy)]
pub(crate) struct Row {
    pub name: [u8; 9],
    pub before: u8,
    pub digits: u8,
}

// The rows of a state.
#[rattlefmt::skip]
pub(crate) const ROWS: [Row; 27] = [
    Row { name: *b"        I", before: 1, digits: 2 },
    Row { name: *b"        J", before: 1, digits: 2 },
    Row { name: *b"        U", before: 1, digits: 2 },
    Row { name: *b"        V", before: 1, digits: 2 },
    Row { name: *b"        L", before: 1, digits: 2 },
    Row { name: *b"        T", before: 1, digits: 2 },
    Row { name: *b"        D", before: 1, digits: 2 },
    Row { name: *b"        R", before: 1, digits: 2 },
    Row { name: *b"        S", before: 1, digits: 2 },
    Row { name: *b"        G", before: 1, digits: 2 },
    Row { name: *b"        H", before: 1, digits: 2 },
    Row { name: *b"        M", before: 1, digits: 2 },
    Row { name: *b"        N", before: 1, digits: 2 },
    Row { name: *b"        W", before: 1, digits: 2 },
    Row { name: *b"        X", before: 0, digits: 2 },
    Row { name: *b"       AC", before: 2, digits: 1 },
    Row { name: *b"      1BC", before: 3, digits: 1 },
    Row { name: *b"       Z0", before: 2, digits: 1 },
    Row { name: *b"    ALLOW", before: 2, digits: 1 },
    Row { name: *b"    LOCAL", before: 2, digits: 1 },
    Row { name: *b" ARRIVING", before: 2, digits: 1 },
    Row { name: *b"     BYTE", before: 1, digits: 2 },
    Row { name: *b" DIGIT-CY", before: 2, digits: 1 },
    Row { name: *b"  INVALID", before: 3, digits: 1 },
    Row { name: *b"       FW", before: 1, digits: 2 },
    Row { name: *b"       FX", before: 0, digits: 2 },
    Row { name: *b"     OWED", before: 2, digits: 1 },
];

// The rows of a cycle's work.
#[rattlefmt::skip]
pub(crate) const WORK_ROWS: [Row; 8] = [
    Row { name: *b"        A", before: 1, digits: 2 },
    Row { name: *b"  GATED-A", before: 1, digits: 2 },
    Row { name: *b"        B", before: 1, digits: 2 },
    Row { name: *b"  GATED-B", before: 1, digits: 2 },
    Row { name: *b" ENTERS-B", before: 1, digits: 2 },
    Row { name: *b" CARRY-IN", before: 2, digits: 1 },
    Row { name: *b"   BEFORE", before: 5, digits: 2 },
    Row { name: *b"    AFTER", before: 4, digits: 2 },
];

// Puts a text at a place, and gives the place after it. Room and place stay two arguments here and where this is called, as a struct
// of both is no plainer: each contract would say of its two fields what it says of the two names. (`board` has such a struct, of whose
// bytes nothing is promised.)
pub(crate) fn after(text: &[u8], room: &mut [u8], at: usize) -> usize
    requires { at + length text.now ≤ length room.old }
    ensures { (result ≡ at + length text.now) × (room.new ≡ over_at at text.now room.old) }
{
    let end = at + text.len();
    digits::copy(text, &mut room[at..end]);
    end
}

// Puts a byte after its spaces, with its number of digits.
pub(crate) fn put_cell(before: u8, digits: u8, byte: u8, room: &mut [u8], at: usize) -> usize
    requires { at + (before + digits) ≤ length room.old }
    ensures { (result ≡ at + length (cell before digits byte)) × (room.new ≡ over_at at (cell before digits byte) room.old) }
{
    let from = at + before as usize;
    let end = from + digits as usize;
    text::put_spaces(&mut room[at..from]);
    text::put_hexadecimal(byte as u64, &mut room[from..end]);
    end
}

// Puts each byte of a record so.
fn put_cells(rows: &[Row], bytes: &[u8], room: &mut [u8], at: usize) -> usize
    requires { at + length (byte_cells rows.now bytes.now) ≤ length room.old }
    ensures { (result ≡ at + length (byte_cells rows.now bytes.now)) × (room.new ≡ over_at at (byte_cells rows.now bytes.now) room.old) }
{
    let mut next = at;
    for (row, &byte) in rows.iter().zip(bytes) {
        next = put_cell(row.before, row.digits, byte, room, next);
    }
    next
}

// The columns of a state.
pub(crate) fn state_cells(s: State, room: &mut [u8], at: usize) -> usize
    requires { at + length (cells channels s) ≤ length room.old }
    ensures { (result ≡ at + length (cells channels s)) × (room.new ≡ over_at at (cells channels s) room.old) }
{
    put_cells(&ROWS, &channels::saved(s), room, at)
}

// The columns of a cycle's work: one line, as those of a state, of other rows.
pub(crate) fn work_cells(w: Work, room: &mut [u8], at: usize) -> usize
    requires { at + length (cells work_channels w) ≤ length room.old }
    ensures { (result ≡ at + length (cells work_channels w)) × (room.new ≡ over_at at (cells work_channels w) room.old) }
{
    put_cells(&WORK_ROWS, &channels::worked(w), room, at)
}
