// A whole number, with or without a sign.
ghost use Rattle.std.specs.Prelude.{◌≡◌};
ghost use Rattle.arguments.specs.Arguments.{whole_in, whole_of};

use crate::WholeError;
use crate::numbers::{digits_fit, long_value};

// The number that digits write, below zero or not.
#[tactic(auto, unfolding(crate::specs::Arguments::whole_in))]
fn whole(minus: bool, text: &[u8]) -> Result<i64, WholeError>
    ensures { result ≡ whole_in minus text.now }
{
    if digits_fit(10, 15, text) {
        return Ok(signed::with_sign(minus, long_value(10, text)));
    }
    if digits_fit(10, text.len(), text) {
        return Err(WholeError::Long);
    }
    Err(WholeError::Wrong)
}

// The number that a text writes.
#[tactic(auto, unfolding(crate::specs::Arguments::whole_of))]
pub fn whole_of(text: &[u8]) -> Result<i64, WholeError>
    ensures { result ≡ whole_of text.now }
{
    match text {
        [b'+', digits @ ..] => whole(false, digits),
        [b'-', digits @ ..] => whole(true, digits),
        _ => whole(false, text),
    }
}
