// The shipped decimal add: its words, and the entry that runs them.
#![tactic(auto)]

ghost use Rattle.std.specs.Prelude.{◌≡◌, ◌+◌, ◌-◌, ◌<◌, length};
ghost use Rattle.digits.specs.Refusal.{first};
ghost use Rattle.machine.specs.Cycle.{outcome};
ghost use Rattle.decimal.specs.Program.{shipped};
ghost use Rattle.run.specs.Run.{run_in};
ghost use Rattle.codes.specs.declared.Reading.TheVariants.{Basic};
ghost use Rattle.decimal.specs.Entry.{past_end, not_within, overlap, add_checks, start_with, start, bound, answered_at, entry_of, add_in, add_of};
ghost use Rattle.decimal.specs.Promise.{PromiseOf, Promise};

use codes::Reading;
use digits::Refusal;
use machine::State;
use run::Finished;
use storage::Fence;

// Summed has the carry and the count of cycles, a bad digit the count, a refusal why. Not a Result: a bad digit is an end of the run beside the sum, and no refusal.
#[derive(Clone, Copy)]
pub enum Added {
    Summed(bool, u32),
    BadDigit(u32),
    Refused(Refusal),
}

// The shipped words' stop for summed.
pub const SUMMED: u16 = 0x14;

// The words as packed. What each is for stands in specs/Program.antt.
const WORDS: [u64; 21] = [
    0x01809100150181, // 00
    0x010812401B6000, // 01
    0x020043000C6141, // 02
    0x048812400B6000, // 03
    0x020A83401D6180, // 04
    0x048282DF9B7800, // 05
    0x01801100008000, // 06
    0x0200B3801E6140, // 07
    0x01001100108000, // 08
    0x018B93C01F6181, // 09
    0x0780131F9C7900, // 0A
    0x0B00115F807900, // 0B
    0x0780935F9D7980, // 0C
    0x0708439F8E7901, // 0D
    0x070881C0086000, // 0E
    0x088013DF9F7981, // 0F
    0x0800B15F807900, // 10
    0x088811D0077F80, // 11
    0x088882DF9B7800, // 12
    0x040B9100150181, // 13
    0x01801100008000, // 14
];

// The shipped words, from address 0 on.
pub fn words() -> [u64; 21]
    ensures { result ≡ shipped }
{
    WORDS
}

// A field ends past a place: on any numbers, so the sum is not formed.
fn past_end(main: usize, start: usize, length: usize) -> bool
    ensures { result ≡ past_end main start length }
{
    main < length || main - length < start
}

// 13, of one field: it is not wholly in main storage and in the fence.
fn not_within(fence: Fence, main: usize, start: usize, length: usize) -> bool
    ensures { result ≡ not_within fence main start length }
{
    past_end(main, start, length) || start < fence.start || past_end(fence.end, start, length)
}

// 14: the fields overlap and do not start together.
fn overlap(a: usize, b: usize, length: usize) -> bool
    ensures { result ≡ overlap a b length }
{
    a != b && a.abs_diff(b) < length
}

// 1, 12, 13, 14, or none.
fn refusal(
    fence: Fence,
    main: usize,
    local: usize,
    a: usize,
    b: usize,
    length: usize,
) -> Option<Refusal>
    ensures { result ≡ first (add_checks fence main local a b length) }
{
    if digits::storage_wrong(main, local) {
        return Some(Refusal::Size);
    }
    if length < 1 || 16 < length {
        return Some(Refusal::DecimalLength);
    }
    if not_within(fence, main, a, length) || not_within(fence, main, b, length) {
        return Some(Refusal::DecimalField);
    }
    if overlap(a, b, length) {
        return Some(Refusal::Overlap);
    }
    None
}

// The state in which a program over two fields begins.
pub fn start_with(a: u16, b: u16, length: u8, status: u8) -> State
    ensures { result ≡ start_with a b length status }
{
    let [i, j] = a.to_be_bytes();
    let [u, v] = b.to_be_bytes();
    State {
        i,
        j,
        u,
        v,
        l: length,
        t: 0,
        d: 0,
        r: 0,
        s: status,
        g: 0,
        h: 0,
        m: 0,
        n: 0,
        wx: 0,
        ac: false,
        one_bc: false,
        z0: false,
        allow_write: false,
        local_selected: false,
        arriving: false,
        arriving_byte: 0,
        digit_carry: false,
        invalid: false,
        fwx: 0,
        owed: false,
    }
}

// That of the shipped words: the carry in S3.
pub fn start(a: u16, b: u16, length: u8, carry: bool) -> State
    ensures { result ≡ start a b length carry }
{
    start_with(a, b, length, digits::with_bit(0, 3, carry))
}

// What a run of a program's words answers: summed where it stopped at this one, else a bad digit.
pub fn answered_at(f: Finished, done: u16) -> Added
    ensures { result ≡ answered_at done f }
{
    if f.state.wx == done {
        Added::Summed(digits::bit(f.state.s, 3), f.count)
    } else {
        Added::BadDigit(f.count)
    }
}

// An entry in a fence: the checks, then the run of a program's words over the two fields, with this in S.
// The storages and the fields' numbers stay parameters, here and in the adds, as include/panel.h has them and as the promises speak of each.
pub fn entry(
    fence: Fence,
    store: &[u64],
    main: &mut [u8],
    local: &mut [u8],
    first: usize,
    second: usize,
    length: usize,
    status: u8,
    done: u16,
) -> Added
    ensures { outcome result main.new local.new ≡ entry_of done fence (run_in (bound length) fence Basic store.now main.old local.old (start_with first second length status)) main.old local.old first second length }
{
    if let Some(why) = refusal(fence, main.len(), local.len(), first, second, length) {
        return Added::Refused(why);
    }
    let state = start_with(first as u16, second as u16, length as u8, status);
    let budget = 40 * (length as u32) + 40;
    let finished = run::run_in(fence, Reading::Basic, store, main, local, state, budget);
    answered_at(finished, done)
}

// In a fence the first field becomes the sum of both, with the carry. Storage and count are those of the run of the shipped words.
pub fn add_in(
    fence: Fence,
    main: &mut [u8],
    local: &mut [u8],
    first: usize,
    second: usize,
    length: usize,
    carry: bool,
) -> Added
    ensures run { outcome result main.new local.new ≡ add_in fence main.old local.old first second length carry }
    ensures promise { PromiseOf fence main.old local.old first second length carry result main.new local.new }
{
    let status = digits::with_bit(0, 3, carry);
    entry(
        fence,
        &words(),
        main,
        local,
        first,
        second,
        length,
        status,
        SUMMED,
    )
}

// The same with all main storage in the fence.
pub fn add(
    main: &mut [u8],
    local: &mut [u8],
    first: usize,
    second: usize,
    length: usize,
    carry: bool,
) -> Added
    ensures run { outcome result main.new local.new ≡ add_of main.old local.old first second length carry }
    ensures promise { Promise main.old local.old first second length carry result main.new local.new }
{
    add_in(Fence::whole(), main, local, first, second, length, carry)
}
