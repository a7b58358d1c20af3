// A number as a person types it, as the digits of a field.
ghost use Rattle.std.specs.Prelude.{◌≡◌, [], ◌∷◌, ◌++◌, length};
ghost use Rattle.text.specs.Text.{put_of, room_after};
ghost use Rattle.figures.specs.Typed.{is_mark, sign_for, typed_digits};

use digits::Refusal;

fn is_mark(c: u8) -> bool
    ensures { result ≡ is_mark c }
{
    matches!(c, b'+' | b'-')
}

// The sign digit for a mark.
fn sign_for(mark: u8) -> u8
    ensures { result ≡ sign_for mark }
{
    if mark == b'-' { b'D' } else { b'C' }
}

// The digits that a typed number gives, and the sign digit after them.
fn parts(text: &[u8]) -> (&[u8], u8)
    ensures { result.0.now ++ (result.1 ∷ []) ≡ typed_digits text.now }
{
    match text {
        [first, digits @ ..] if is_mark(*first) => (digits, sign_for(*first)),
        [digits @ .., last] if is_mark(*last) => (digits, sign_for(*last)),
        [digits @ .., b':', sign] => (digits, *sign),
        _ => (text, b'C'),
    }
}

// Puts the digits and the sign digit after them, or gives 19.
pub fn put_typed(text: &[u8], room: &mut [u8]) -> Result<usize, Refusal>
    ensures { (result ≡ put_of (typed_digits text.now) (length room.old)) × (room.new ≡ room_after (typed_digits text.now) room.old) }
{
    let (digits, sign) = parts(text);
    text::put_both(digits, &[sign], room)
}
