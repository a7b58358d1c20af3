// Where the result goes, and what changes S.
ghost use Rattle.std.specs.Prelude.{◌≡◌};
ghost use Rattle.machine.specs.Status.{into, status_of};

use adder::Sum;
use codes::Reading;
use digits::with_bit;
use word::Fields;

// The register of a code takes the result.
pub(crate) fn into(code: u8, cd: u8, res: u8, old: u8) -> u8
    ensures { result ≡ into code cd res old }
{
    if cd == code { res } else { old }
}

// S after CS, and then after CC.
#[tactic(auto, unfolding(crate::specs::Status::status_of))]
pub(crate) fn status(reading: Reading, f: Fields, z: Sum, s: u8) -> u8
    ensures { result ≡ status_of reading f z s }
{
    let by_cs = codes::changed(reading, f.cs, z.result, s);
    if matches!(f.cc, 4..=6) {
        return with_bit(by_cs, 3, z.ac);
    }
    by_cs
}
