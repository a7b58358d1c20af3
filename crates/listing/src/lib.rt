// The lister's text: a line for each word of a deck, or a refusal.
#![tactic(auto)]

ghost use Rattle.std.specs.Prelude.{◌≡◌, ◌*◌, ◌≤◌, length};
ghost use Rattle.digits.specs.Lent.{over};
ghost use Rattle.listing.specs.Listing.{text_line, lines_of, refusal_of, text_of};
ghost use Rattle.text.specs.Text.{put_of, room_after};

use digits::Refusal;
use text::put_hexadecimal;

// The line of a word at its address.
fn line(address: u64, word: u64) -> [u8; 19]
    ensures { result ≡ text_line address word }
{
    let mut text = [b' '; 19];
    put_hexadecimal(address, &mut text[0..3]);
    put_hexadecimal(word, &mut text[4..18]);
    text[18] = b'\n';
    text
}

fn put_lines(words: &[u64], text: &mut [u8])
    requires { 19 * length words.now ≤ length text.old }
    ensures { text.new ≡ over (lines_of words.now) text.old }
{
    // By its place: std says nothing of a slice after `chunks_exact_mut`.
    for (i, word) in words.iter().enumerate() {
        let at = 19 * i;
        text[at..at + 19].copy_from_slice(&line(i as u64, *word));
    }
}

// A line for each word, the first at address 0, or 19.
pub fn list(words: &[u64], room: &mut [u8]) -> Result<usize, Refusal>
    ensures { (result ≡ put_of (lines_of words.now) (length room.old)) × (room.new ≡ room_after (lines_of words.now) room.old) }
{
    if room.len() / 19 < words.len() {
        return Err(Refusal::Room);
    }
    put_lines(words, room);
    Ok(19 * words.len())
}

// `REFUSED `, the number in decimal and a line feed, or 19. By number, since docs/PROMISES.md answers any.
pub fn refusal(number: u8, room: &mut [u8]) -> Result<usize, Refusal>
    ensures { (result ≡ put_of (refusal_of number) (length room.old)) × (room.new ≡ room_after (refusal_of number) room.old) }
{
    let [hundreds, tens, ones] = text::three_digits(number);
    let tail = [hundreds, tens, ones, b'\n'];
    let from = text::zeros_in_front(number);
    text::put_both(b"REFUSED ", &tail[from..], room)
}

// What is printed of a deck, or 19.
pub fn print(deck: &[u8], room: &mut [u8]) -> Result<usize, Refusal>
    ensures { (result ≡ put_of (text_of deck.now) (length room.old)) × (room.new ≡ room_after (text_of deck.now) room.old) }
{
    let mut words = [0u64; 4096];
    match deck::read(deck, &mut words) {
        Ok(count) => list(&words[..count], room),
        Err(why) => refusal(why.number(), room),
    }
}
