// What CS does to S.
ghost use Rattle.std.specs.Prelude.{◌≡◌, get_or};
ghost use Rattle.codes.specs.Status.{statuses};

use crate::Reading;
use digits::{first_of, with_bit};

// S after CS.
pub fn changed(reading: Reading, cs: u8, res: u8, s: u8) -> u8
    ensures { result ≡ get_or (statuses reading res s) cs s }
{
    let basic = reading.is_basic();
    let s5 = res % 16 == 0;
    let s4 = res / 16 == 0;
    match cs {
        0 => s,
        1 => with_bit(s, 5, s5),
        2 => with_bit(s, 4, s4),
        3 => with_bit(with_bit(s, 4, s4), 5, s5),
        4 => with_bit(with_bit(s, 4, false), 5, false),
        5 => first_of(basic, s, with_bit(s, 1, true)),
        6 => with_bit(s, 0, false),
        7 => with_bit(s, 0, true),
        8 => with_bit(s, 2, false),
        9 => first_of(res == 0, s, with_bit(s, 2, true)),
        10 => with_bit(s, 6, false),
        11 => with_bit(s, 6, true),
        12 => with_bit(s, 7, false),
        13 => with_bit(s, 7, true),
        14 => s,
        15 => first_of(basic, s, with_bit(s, 1, false)),
        _ => s,
    }
}
