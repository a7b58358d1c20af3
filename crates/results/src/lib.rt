// What an addition came to, as text.
#![tactic(auto)]

ghost use Rattle.std.specs.Prelude.{◌≡◌, true, cond, ◌-◌, ◌≤◌, length, take};
ghost use Rattle.text.specs.Text.{put_of, room_after};
ghost use Rattle.results.specs.Results.{told_of, carry_end, sign_mark, signed_end, sum_of, bad_of, refusal_of, result_of};

use decimal::Added;
use digits::Refusal;

// The digits of some bytes, and how the line ends.
fn told(field: &[u8], end: &[u8], room: &mut [u8]) -> Result<usize, Refusal>
    requires { length end.now ≤ 12 }
    ensures { (result ≡ put_of (told_of field.now end.now) (length room.old)) × (room.new ≡ room_after (told_of field.now end.now) room.old) }
{
    let others = 3 + end.len();
    if room.len() < others {
        return Err(Refusal::Room);
    }
    // half, as twice a length may pass 64 bits
    if (room.len() - others) / 2 < field.len() {
        return Err(Refusal::Room);
    }
    let at = 3 + 2 * field.len();
    let size = at + end.len();
    digits::copy(b" = ", room);
    let _ = text::put_digits(field, &mut room[3..at]);
    digits::copy(end, &mut room[at..size]);
    Ok(size)
}

fn carry_end(carry: bool) -> [u8; 9]
    ensures { result ≡ carry_end carry }
{
    let mut text = *b" CARRY 0\n";
    text[7] = b'0' + digits::one(carry);
    text
}

fn sign_mark(digit: u8) -> u8
    ensures { result ≡ sign_mark digit }
{
    if matches!(digit, 11 | 13) { b'-' } else { b'+' }
}

// How many bytes the end of a signed sum takes.
fn end_size(overflow: bool) -> usize
    ensures { (result ≡ cond overflow 12 3) × (result ≤ 12) }
{
    if overflow { 12 } else { 3 }
}

// The last byte as a digit and the sign's mark, and how the line ends.
fn signed_end(byte: u8, overflow: bool) -> [u8; 12]
    ensures { take (cond overflow 12 3) result ≡ signed_end byte overflow }
{
    let mut end = *b"0+ OVERFLOW\n";
    text::put_hexadecimal((byte / 16) as u64, &mut end[..1]);
    end[1] = sign_mark(byte % 16);
    if overflow {
        return end;
    }
    end[2] = b'\n';
    end
}

// With signs, the last byte ends the line.
fn signed_sum(field: &[u8], overflow: bool, room: &mut [u8]) -> Result<usize, Refusal>
    ensures { (result ≡ put_of (sum_of true field.now overflow) (length room.old)) × (room.new ≡ room_after (sum_of true field.now overflow) room.old) }
{
    let last = field.len().saturating_sub(1);
    let end = signed_end(digits::byte_at(field, last), overflow);
    let size = end_size(overflow);
    told(&field[..last], &end[..size], room)
}

// The sum, as it stands in the first field, and the carry or the overflow.
fn summed(signs: bool, field: &[u8], mark: bool, room: &mut [u8]) -> Result<usize, Refusal>
    ensures { (result ≡ put_of (sum_of signs field.now mark) (length room.old)) × (room.new ≡ room_after (sum_of signs field.now mark) room.old) }
{
    if signs {
        signed_sum(field, mark, room)
    } else {
        told(field, &carry_end(mark), room)
    }
}

fn bad(signs: bool, room: &mut [u8]) -> Result<usize, Refusal>
    ensures { (result ≡ put_of (bad_of signs) (length room.old)) × (room.new ≡ room_after (bad_of signs) room.old) }
{
    if signs {
        text::put(b": BAD DIGIT OR SIGN\n", room)
    } else {
        text::put(b": BAD DIGIT\n", room)
    }
}

// How a refusal is told, or 19. By number, since docs/PROMISES.md answers any. What `listing:refusal` prints is another text by
// another definition; one function of both would be no plainer.
pub fn refusal(number: u8, room: &mut [u8]) -> Result<usize, Refusal>
    ensures { (result ≡ put_of (refusal_of number) (length room.old)) × (room.new ≡ room_after (refusal_of number) room.old) }
{
    let mut end = [b'\n'; 4];
    digits::copy(&text::three_digits(number), &mut end);
    let from = text::zeros_in_front(number);
    text::put_both(b": REFUSED ", &end[from..], room)
}

// What two fields came to, without signs or with them: the sum with its carry or overflow, a bad digit or a refusal; or 19.
pub fn result(signs: bool, field: &[u8], added: Added, room: &mut [u8]) -> Result<usize, Refusal>
    ensures { (result ≡ put_of (result_of signs field.now added) (length room.old)) × (room.new ≡ room_after (result_of signs field.now added) room.old) }
{
    match added {
        Added::Summed(mark, _) => summed(signs, field, mark, room),
        Added::BadDigit(_) => bad(signs, room),
        Added::Refused(reason) => refusal(reason.number(), room),
    }
}
