// The refusals in words.
ghost use Rattle.std.specs.Prelude.{◌≡◌, length};
ghost use Rattle.text.specs.Text.{put_of, room_after};
ghost use Rattle.text.specs.Words.{words_of};

use digits::Refusal;

// By number, a number that nothing gives yet with the words of 0.
const WORDS: [&str; 34] = [
    "no such refusal",
    "a size is wrong: of the word store, of main or of local storage",
    "WX is not in the word store",
    "one of the word's top nine bits is set",
    "PN is wrong",
    "PA is wrong",
    "PS is wrong",
    "PC is wrong",
    "CL = 2 and K to W, or a return, in one word",
    "PK is wrong",
    "a code is not modelled",
    "the main address is not in main storage, or not in the fence",
    "the decimal length is not 1 to 16",
    "a decimal field does not lie in main storage, or in the fence",
    "the decimal fields overlap and do not start together",
    "the deck's length is 0, no multiple of 512, or over 34304",
    "a block's number is not its place",
    "a count, reserved bytes or unused bytes are wrong",
    "a block's check is wrong",
    "the room lent is too small",
    "a field or the address is beyond its width",
    "there are no words, or over 4096",
    "the budget is over 1000000",
    "no such refusal",
    "no such refusal",
    "a digit is over 9 in the first fifteen places",
    "the sign digit is below A",
    "the number has more than fifteen digits",
    "no such refusal",
    "a trap is open, and its return is owed",
    "the trap address is over 4095",
    "no such refusal",
    "a fence is empty or outside main storage, or the two overlap",
    "the signed field is not of 8 bytes",
];

// The words of a refusal.
fn words_of(number: u8) -> &'static str
    ensures { result.now ≡ words_of number }
{
    WORDS
        .get(usize::from(number))
        .copied()
        .unwrap_or("no such refusal")
}

// The words of a refusal, or 19. By number, since docs/PROMISES.md answers any.
pub fn words(number: u8, room: &mut [u8]) -> Result<usize, Refusal>
    ensures { (result ≡ put_of (words_of number) (length room.old)) × (room.new ≡ room_after (words_of number) room.old) }
{
    crate::put(words_of(number).as_bytes(), room)
}
