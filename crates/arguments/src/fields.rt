// Digits in a field, two to a byte.
ghost use Rattle.std.specs.Prelude.{◌≡◌, ◌<◌, length};
ghost use Rattle.arguments.specs.Arguments.{digit_from_last, laid};

use crate::numbers::digit_value;

// The digit `k` places before the last, or 0.
#[tactic(auto, unfolding(crate::specs::Arguments::digit_from_last))]
fn digit_from_last(text: &[u8], k: usize) -> u8
    ensures value { result ≡ digit_from_last text.now k }
    ensures bound { result < 16 }
{
    if k < text.len() {
        digit_value(text[text.len() - 1 - k]) % 16
    } else {
        0
    }
}

// Puts the digits at the right end of the field, with zeros in front; those that do not fit are left out.
pub fn lay(text: &[u8], field: &mut [u8])
    ensures { field.new ≡ laid (length field.old) text.now }
{
    let end = field.len();
    // By its place: over `iter_mut().rev()` the proof does not close, since it leaves nothing of the bytes.
    for k in 0..end {
        let high = digit_from_last(text, 2 * k + 1);
        field[end - 1 - k] = high * 16 + digit_from_last(text, 2 * k);
    }
}
