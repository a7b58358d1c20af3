// The correction that every sum takes: by the rule, here and in the small board's library. The large board's library has `table`
// where this says `rule`, and nothing else differs (tools/large): all that stands above goes by the promise, which both keep.
#![tactic(auto)]

ghost use Rattle.std.specs.Prelude.{◌≡◌};
ghost use Rattle.rule.specs.Correction.{corrected};

// The byte of a sum, corrected by the carries out of its low and its high digit.
pub fn corrected(low: bool, high: bool, byte: u8) -> u8
    ensures { result ≡ corrected low high byte }
{
    rule::corrected(low, high, byte)
}
