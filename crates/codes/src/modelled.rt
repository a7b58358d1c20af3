// The codes that are not modelled.
ghost use Rattle.std.specs.Prelude.{◌≡◌};
ghost use Rattle.codes.specs.Modelled.{unmodelled_of};

use crate::Reading;
use word::Fields;

// The place of the first field whose code is not modelled, if any.
pub fn unmodelled(reading: Reading, f: Fields) -> Option<u8>
    ensures { result ≡ unmodelled_of reading f }
{
    let basic = reading.is_basic();
    // A field's place in the word, whether the row speaks of this word, the field's code, and the codes that are not modelled, the
    // last repeated where there are fewer.
    let rows = [
        (4, true, f.ch, [4, 5, 5, 5, 5]),
        (4, !basic, f.ch, [3; 5]),
        (5, true, f.cl, [3, 15, 15, 15, 15]),
        (5, basic, f.cl, [4, 12, 12, 12, 12]),
        (6, true, f.cm, [6, 7, 7, 7, 7]),
        (7, f.cm < 3, f.cu, [1; 5]),
        (7, 3 <= f.cm, f.cu, [2; 5]),
        (8, f.cl != 2, f.ca, [0, 1, 2, 3, 6]),
        (9, true, f.aa, [1; 5]),
        (12, true, f.ak, [1; 5]),
        (15, true, f.cd, [1, 2, 3, 4, 4]),
        (20, true, f.cs, [14; 5]),
        (20, basic, f.cs, [5, 15, 15, 15, 15]),
        (21, true, f.asb, [1; 5]),
    ];
    // Left by its label: a rule of the project (docs/DECISIONS.md, "Language forms by place").
    'scan: {
        for (place, applies, code, codes) in rows {
            for listed in codes {
                if applies & (code == listed) {
                    break 'scan Some(place);
                }
            }
        }
        None
    }
}
