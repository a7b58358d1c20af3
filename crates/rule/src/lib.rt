// The correction by the two digit rules, for a board that has no room for the table.
#![tactic(auto)]

ghost use Rattle.std.specs.Prelude.{◌≡◌, ◌<◌};
ghost use Rattle.rule.specs.Correction.{lowered, corrected};

// A digit that no carry left is lowered by six.
fn lowered(carried: bool, digit: u8) -> u8
    requires { digit < 16 }
    ensures { result ≡ lowered carried digit }
{
    if carried { digit } else { (digit + 10) % 16 }
}

// The byte of a sum, corrected by the carries out of its low and its high digit.
pub fn corrected(low: bool, high: bool, byte: u8) -> u8
    ensures { result ≡ corrected low high byte }
{
    lowered(high, byte / 16) * 16 + lowered(low, byte % 16)
}
