// A line for each cycle.
ghost use Rattle.std.specs.Prelude.{◌≡◌, length};
ghost use Rattle.text.specs.Text.{put_of, room_after};
ghost use Rattle.lamps.specs.Line.{header_of, front_of, line_of, start_of};

use crate::columns::{after, state_cells, work_cells};
use adder::Work;
use digits::Refusal;
use machine::State;

// The names above the columns.
pub fn header(room: &mut [u8]) -> Result<usize, Refusal>
    ensures { (result ≡ put_of header_of (length room.old)) × (room.new ≡ room_after header_of room.old) }
{
    text::put(
        b"  CYCLE  AT  I  J  U  V  L  T  D  R  S  G  H  M  N   WX AC 1BC Z0 AW LS AR AB DC INV  FWX OW  A GA  B GB EB CI BEFORE AFTER\n",
        room,
    )
}

// The cycle's number and the address of its word.
fn front(cycle: u32, at: u16) -> [u8; 11]
    ensures { result ≡ front_of cycle at }
{
    let mut text = [b' '; 11];
    text::put_decimal(cycle, &mut text[0..7]);
    text::put_hexadecimal(at as u64, &mut text[8..11]);
    text
}

// A cycle: its number, its word's address, the state after it, and its work.
pub fn line(cycle: u32, at: u16, s: State, w: Work, room: &mut [u8]) -> Result<usize, Refusal>
    ensures { (result ≡ put_of (line_of cycle at s w) (length room.old)) × (room.new ≡ room_after (line_of cycle at s w) room.old) }
{
    if room.len() < 124 {
        return Err(Refusal::Room);
    }
    let next = after(&front(cycle, at), room, 0);
    let next = state_cells(s, room, next);
    let next = work_cells(w, room, next);
    Ok(after(b"\n", room, next))
}

// The state before the first cycle.
pub fn start(s: State, room: &mut [u8]) -> Result<usize, Refusal>
    ensures { (result ≡ put_of (start_of s) (length room.old)) × (room.new ≡ room_after (start_of s) room.old) }
{
    if room.len() < 93 {
        return Err(Refusal::Room);
    }
    let next = after(b"      0 ---", room, 0);
    let next = state_cells(s, room, next);
    Ok(after(b"\n", room, next))
}
