// A whole number in figures, and a number as a person types it.
#![tactic(auto)]

mod typed;

ghost use Rattle.std.specs.Prelude.{◌≡◌, map, ◌≤◌, length};
ghost use Rattle.digits.specs.Tens.{last_digits};
ghost use Rattle.text.specs.Text.{put_of, room_after};
ghost use Rattle.figures.specs.Figures.{figure, digit_count, number_text};

use digits::Refusal;
pub use typed::put_typed;

// How many digits a number has.
fn digit_count(number: u64) -> usize
    ensures { (result ≡ digit_count 19 number) × (result ≤ 20) }
{
    number.checked_ilog10().unwrap_or(0) as usize + 1
}

// Puts the last digits of a number: as many as there is room for. `text::put_hexadecimal` goes by the
// bits of base 16; one function of both bases would be no plainer.
fn put_figures(number: u64, out: &mut [u8])
    ensures { out.new ≡ map figure (last_digits (length out.old) number) }
{
    let mut rest = number;
    // By its place: over `iter_mut().rev()` the proof does not close, since it leaves nothing of the bytes.
    for i in (0..out.len()).rev() {
        out[i] = b'0' + (rest % 10) as u8;
        rest /= 10;
    }
}

// Puts a number, or gives 19. A minus stands before the digits, and is put where the number is below zero.
pub fn put_number(number: i64, room: &mut [u8]) -> Result<usize, Refusal>
    ensures { (result ≡ put_of (number_text number) (length room.old)) × (room.new ≡ room_after (number_text number) room.old) }
{
    let mut text = [b'-'; 21];
    let size = number.unsigned_abs();
    let end = digit_count(size) + 1;
    put_figures(size, &mut text[1..end]);
    let from = if number.is_negative() { 0 } else { 1 };
    text::put(&text[from..end], room)
}
