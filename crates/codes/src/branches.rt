// What X6 and X7 are, by CH and CL.
ghost use Rattle.std.specs.Prelude.{◌≡◌, false, get_or};
ghost use Rattle.codes.specs.Branches.{high_branches, low_branches};

use crate::{Reading, Tested};
use digits::{bit, first_of};

// A table of the paper, read at a code; past its end it says no.
fn flag_at(table: [bool; 16], code: u8) -> bool
    ensures { result ≡ get_or table code false }
{
    table.get(code as usize).copied().unwrap_or(false)
}

// X6 by CH. All sixteen are worked out and one is taken, here and for CL: by `match` the tour is slower (docs/BENCHMARK.md).
pub fn high_branch(reading: Reading, ch: u8, t: Tested) -> bool
    ensures { result ≡ get_or (high_branches reading t) ch false }
{
    let basic = reading.is_basic();
    flag_at(
        [
            false,
            true,
            bit(t.r, 0),
            first_of(basic, !bit(t.v, 6) & !bit(t.v, 7), false),
            false,
            false,
            t.ac,
            bit(t.s, 0),
            first_of(basic, bit(t.s, 1), bit(t.r, 2)),
            bit(t.s, 2),
            bit(t.s, 4),
            bit(t.s, 6),
            bit(t.g, 0),
            bit(t.g, 2),
            bit(t.g, 4),
            bit(t.g, 6),
        ],
        ch,
    )
}

// X7 by CL.
pub fn low_branch(reading: Reading, cl: u8, t: Tested) -> bool
    ensures { result ≡ get_or (low_branches reading t) cl false }
{
    let basic = reading.is_basic();
    flag_at(
        [
            false,
            true,
            true,
            false,
            first_of(basic, false, bit(t.g, 1)),
            digits::both_decimal(t.r),
            first_of(basic, t.one_bc, bit(t.r, 1)),
            t.z0,
            bit(t.g, 7),
            bit(t.s, 3),
            bit(t.s, 5),
            bit(t.s, 7),
            first_of(basic, false, bit(t.r, 3)),
            bit(t.g, 3),
            bit(t.g, 5),
            false,
        ],
        cl,
    )
}
