// The panel's C interface, include/panel.h: bytes in, bytes out, over the libraries.
#![tactic(auto)]

mod fields;

ghost use Rattle.std.specs.Prelude.{◌≡◌, ◌<◌, ◌≤◌, length, IfOk};
ghost use Rattle.machine.specs.Cycle.{outcome};
ghost use Rattle.session.specs.Opening.{open_of};
ghost use Rattle.panel.specs.Answers.{coded, counted, answered, take_apart_call, pack_call, called, status, count_of, refused, reading_of, answer_cycle, cycle_call, turn_call, ending_code, record_after, run_call, placed, trap_call, next_sum_call, started, start_call, start_signed_call, handed, shipped_call, shipped_signed_call, added_code, add_decimal_call, add_decimal_in_call, add_signed_call, sub_signed_call, read_deck_call, write_deck_call, read_signed_call, write_signed_call};
ghost use Rattle.digits.specs.Lent.{over};
ghost use Rattle.digits.specs.Refusal.{refusal_number};
ghost use Rattle.channels.specs.Channels.{record_length, saved, worked};

use adder::Work;
use codes::Reading;
use decimal::Added;
use digits::Refusal;
use machine::{Cycled, State};
use run::Ending;
use storage::Fence;

// enum panel_kind: numbers, as the C interface has them.
const RAN: u8 = 0;

const STOPPED: u8 = 1;

const REFUSED: u8 = 2;

const SPENT: u8 = 3;

const SUMMED: u8 = 4;

const BAD_DIGIT: u8 = 5;

// PANEL_STATE and PANEL_WORK, the records' lengths, and how many fields a word is taken apart into.
const STATE: usize = 27;

const WORK: usize = 8;

const FIELDS: usize = 18;

// kind + 256 * refusal number + 65536 * field.
fn coded(kind: u8, number: u8, field: u8) -> u32
    ensures { result ≡ coded kind number field }
{
    kind as u32 + 256 * number as u32 + 65536 * field as u32
}

// With 2^32 * the cycles that ran.
fn counted(code: u32, count: u32) -> u64
    ensures { result ≡ counted code count }
{
    code as u64 + 0x1_0000_0000 * count as u64
}

// The number of a refusal, alone. Its table stands once in the library: laid out at each call it takes more than a small board's room
// for constants (tests/size/run).
#[inline(never)]
fn number_of(refusal: Refusal) -> u32
    ensures { (result ≡ refusal_number refusal) × (result < 256) }
{
    refusal.number() as u32
}

// 0, or the refusal's number.
fn status(answer: Result<(), Refusal>) -> u32
    ensures { result ≡ status answer }
{
    match answer {
        Ok(()) => 0,
        Err(refusal) => number_of(refusal),
    }
}

// The count, or 65536 * the refusal's number.
fn count_of(answer: Result<usize, Refusal>) -> u32
    requires { IfOk answer (λ n. n < 4294967296) }
    ensures { result ≡ count_of answer }
{
    match answer {
        Ok(count) => count as u32,
        Err(refusal) => 65536 * number_of(refusal),
    }
}

// How a cycle or a run is refused, with 10's field.
fn refused(refusal: Refusal) -> u32
    ensures { result ≡ refused refusal }
{
    coded(REFUSED, number_of(refusal) as u8, refusal.field())
}

// 0 and the 18 fields, or the refusal's number.
#[unsafe(no_mangle)]
pub extern "C" fn panel_take_apart(word: u64, address: u32, fields: &mut [u8]) -> u32
    ensures { answered result fields.new ≡ take_apart_call word address fields.old }
{
    if fields.len() < FIELDS {
        return number_of(Refusal::Room);
    }
    match word::take_apart(word, address) {
        Ok(f) => {
            fields::put_fields(f, fields);
            0
        }
        Err(refusal) => number_of(refusal),
    }
}

// 0 and the word, or the refusal's number.
#[unsafe(no_mangle)]
pub extern "C" fn panel_pack(fields: &[u8], address: u32, word: &mut [u64]) -> u32
    ensures { answered result word.new ≡ pack_call fields.now address word.old }
{
    if (fields.len() < FIELDS) | (word.len() < 1) {
        return number_of(Refusal::Room);
    }
    match word::pack(fields::fields_in(fields), address) {
        Ok(w) => {
            word[0] = w;
            0
        }
        Err(refusal) => number_of(refusal),
    }
}

// Puts the record of a state, which stays a slice of at least its length: through C a longer record may be lent.
fn save(s: State, state: &mut [u8])
    requires { record_length ≤ length state.old }
    ensures { state.new ≡ over (saved s) state.old }
{
    digits::copy(&channels::saved(s), state);
}

// What a cycle answered. The record is written by a cycle that ran, and by nothing else.
fn tell(answer: Cycled, state: &mut [u8]) -> u32
    requires { record_length ≤ length state.old }
    ensures { answered result state.new ≡ answer_cycle answer state.old }
{
    match answer {
        Cycled::Ran(s) => {
            save(s, state);
            coded(RAN, 0, 0)
        }
        Cycled::Stopped(_) => coded(STOPPED, 0, 0),
        Cycled::Refused(_, refusal) => refused(refusal),
    }
}

// How a store is read: 0 is basic, any other number compatibility.
fn reading_of(number: u8) -> Reading
    ensures { result ≡ reading_of number }
{
    if number == 0 {
        Reading::Basic
    } else {
        Reading::Compatibility
    }
}

// One cycle.
#[unsafe(no_mangle)]
pub extern "C" fn panel_cycle(
    reading: u8,
    store: &[u64],
    main: &mut [u8],
    local: &mut [u8],
    state: &mut [u8],
) -> u32
    ensures { called result main.new local.new state.new ≡ cycle_call (reading_of reading) store.now main.old local.old state.old }
{
    if state.len() < STATE {
        return refused(Refusal::Room);
    }
    let now = channels::loaded(state);
    let answer = run::one(Fence::whole(), reading_of(reading), store, main, local, now);
    tell(answer, state)
}

fn ending_code(ending: Ending) -> u32
    ensures { result ≡ ending_code ending }
{
    match ending {
        Ending::Stopped => coded(STOPPED, 0, 0),
        Ending::Refused(refusal) => refused(refusal),
        Ending::Spent => coded(SPENT, 0, 0),
    }
}

// The record after so many cycles: where none ran, nothing is written.
fn save_after(count: u32, s: State, state: &mut [u8])
    requires { record_length ≤ length state.old }
    ensures { state.new ≡ record_after count s state.old }
{
    if count == 0 {
        return;
    }
    save(s, state);
}

// A run.
#[unsafe(no_mangle)]
pub extern "C" fn panel_run(
    reading: u8,
    store: &[u64],
    main: &mut [u8],
    local: &mut [u8],
    state: &mut [u8],
    budget: u32,
) -> u64
    ensures { called result main.new local.new state.new ≡ run_call (reading_of reading) store.now main.old local.old state.old budget }
{
    if state.len() < STATE {
        return counted(refused(Refusal::Room), 0);
    }
    let finished = run::run(
        reading_of(reading),
        store,
        main,
        local,
        channels::loaded(state),
        budget,
    );
    save_after(finished.count, finished.state, state);
    counted(ending_code(finished.ending), finished.count)
}

// Puts the record of a cycle's work: one line, as that of a state, of another length.
fn save_work(w: Work, work: &mut [u8])
    requires { 8 ≤ length work.old }
    ensures { work.new ≡ over (worked w) work.old }
{
    digits::copy(&channels::worked(w), work);
}

// The work of the word that would run next.
#[unsafe(no_mangle)]
pub extern "C" fn panel_next_sum(store: &[u64], state: &[u8], work: &mut [u8]) -> u32
    ensures { answered result work.new ≡ next_sum_call store.now state.now work.old }
{
    if (state.len() < STATE) | (work.len() < WORK) {
        return number_of(Refusal::Room);
    }
    match machine::next_sum(store, channels::loaded(state)) {
        Some(w) => {
            save_work(w, work);
            0
        }
        None => 1,
    }
}

// Puts the record of a start, where there is room for it.
fn started(s: State, state: &mut [u8]) -> u32
    ensures { answered result state.new ≡ started s state.old }
{
    if state.len() < STATE {
        return number_of(Refusal::Room);
    }
    save(s, state);
    0
}

// The state from which the decimal entry runs the shipped words.
#[unsafe(no_mangle)]
pub extern "C" fn panel_start(
    first: u16,
    second: u16,
    length: u8,
    carry: u8,
    state: &mut [u8],
) -> u32
    ensures { answered result state.new ≡ start_call first second length carry state.old }
{
    started(decimal::start(first, second, length, carry != 0), state)
}

// Puts a program's words, where there is room for them.
fn handed(program: &[u64], words: &mut [u64]) -> u32
    requires { length program.now ≤ 4096 }
    ensures { answered result words.new ≡ handed program.now words.old }
{
    if words.len() < program.len() {
        return count_of(Err(Refusal::Room));
    }
    digits::copy(program, words);
    count_of(Ok(program.len()))
}

// The shipped words.
#[unsafe(no_mangle)]
pub extern "C" fn panel_shipped(words: &mut [u64]) -> u32
    ensures { answered result words.new ≡ shipped_call words.old }
{
    handed(&decimal::words(), words)
}

// The state from which the entry of AP and SP runs theirs.
#[unsafe(no_mangle)]
pub extern "C" fn panel_start_signed(
    first: u16,
    second: u16,
    length: u8,
    subtract: u8,
    state: &mut [u8],
) -> u32
    ensures { answered result state.new ≡ start_signed_call first second length subtract state.old }
{
    started(apsp::start(first, second, length, subtract != 0), state)
}

// The words of AP and SP.
#[unsafe(no_mangle)]
pub extern "C" fn panel_shipped_signed(words: &mut [u64]) -> u32
    ensures { answered result words.new ≡ shipped_signed_call words.old }
{
    handed(&apsp::words(), words)
}

// Puts WX, FWX and the latch of a state in its record, each by its place, and no other byte.
fn place(t: State, state: &mut [u8])
    requires { record_length ≤ length state.old }
    ensures { state.new ≡ placed t state.old }
{
    let bytes = channels::saved(t);
    state[13] = bytes[13];
    state[14] = bytes[14];
    state[24] = bytes[24];
    state[25] = bytes[25];
    state[26] = bytes[26];
}

// A trap between two cycles: 0, or the refusal's number.
#[unsafe(no_mangle)]
pub extern "C" fn panel_trap(address: u32, state: &mut [u8]) -> u32
    ensures { answered result state.new ≡ trap_call address state.old }
{
    if state.len() < STATE {
        return number_of(Refusal::Room);
    }
    match trap::trap(channels::loaded(state), address) {
        Ok(t) => {
            place(t, state);
            0
        }
        Err(refusal) => number_of(refusal),
    }
}

// Opens a session of two fences: 0, or 32.
#[unsafe(no_mangle)]
pub extern "C" fn panel_open(
    main_len: usize,
    a_start: usize,
    a_end: usize,
    b_start: usize,
    b_end: usize,
) -> u32
    ensures { result ≡ status (open_of main_len (record { start = a_start; end = a_end }) (record { start = b_start; end = b_end })) }
{
    let a = Fence {
        start: a_start,
        end: a_end,
    };
    let b = Fence {
        start: b_start,
        end: b_end,
    };
    status(session::open(main_len, a, b))
}

// One turn of a board.
#[unsafe(no_mangle)]
pub extern "C" fn panel_turn(
    reading: u8,
    store: &[u64],
    main: &mut [u8],
    local: &mut [u8],
    state: &mut [u8],
    start: usize,
    end: usize,
    other_start: usize,
    other_end: usize,
) -> u32
    ensures { called result main.new local.new state.new ≡ turn_call (record { start = start; end = end }) (record { start = other_start; end = other_end }) (reading_of reading) store.now main.old local.old state.old }
{
    if state.len() < STATE {
        return refused(Refusal::Room);
    }
    let own = Fence { start, end };
    let other = Fence {
        start: other_start,
        end: other_end,
    };
    let now = channels::loaded(state);
    let answer = session::turn(own, other, reading_of(reading), store, main, local, now);
    tell(answer, state)
}

// The carry out, or the overflow, stands where a refusal's field stands.
fn added_code(added: Added) -> u64
    ensures { result ≡ added_code added }
{
    match added {
        Added::Summed(carry, count) => counted(coded(SUMMED, 0, digits::one(carry)), count),
        Added::BadDigit(count) => counted(coded(BAD_DIGIT, 0, 0), count),
        Added::Refused(refusal) => counted(coded(REFUSED, number_of(refusal) as u8, 0), 0),
    }
}

// Decimal add: first field += second field.
#[unsafe(no_mangle)]
pub extern "C" fn panel_add_decimal(
    main: &mut [u8],
    local: &mut [u8],
    first: usize,
    second: usize,
    length: usize,
    carry: u8,
) -> u64
    ensures { outcome result main.new local.new ≡ add_decimal_call main.old local.old first second length carry }
{
    added_code(decimal::add(main, local, first, second, length, carry != 0))
}

// The same inside a fence.
#[unsafe(no_mangle)]
pub extern "C" fn panel_add_decimal_in(
    main: &mut [u8],
    local: &mut [u8],
    first: usize,
    second: usize,
    length: usize,
    carry: u8,
    start: usize,
    end: usize,
) -> u64
    ensures { outcome result main.new local.new ≡ add_decimal_in_call (record { start = start; end = end }) main.old local.old first second length carry }
{
    let fence = Fence { start, end };
    added_code(session::add(fence, main, local, first, second, length, carry != 0))
}

// AP: first field += second field, both with their signs. The overflow stands where the carry out stands.
#[unsafe(no_mangle)]
pub extern "C" fn panel_add_signed(
    main: &mut [u8],
    local: &mut [u8],
    first: usize,
    second: usize,
    length: usize,
) -> u64
    ensures { outcome result main.new local.new ≡ add_signed_call main.old local.old first second length }
{
    added_code(apsp::add(main, local, first, second, length, false))
}

// SP: first field -= second field.
#[unsafe(no_mangle)]
pub extern "C" fn panel_sub_signed(
    main: &mut [u8],
    local: &mut [u8],
    first: usize,
    second: usize,
    length: usize,
) -> u64
    ensures { outcome result main.new local.new ≡ sub_signed_call main.old local.old first second length }
{
    added_code(apsp::add(main, local, first, second, length, true))
}

// Deck to words: the count of words, or 65536 * refusal number.
#[unsafe(no_mangle)]
pub extern "C" fn panel_read_deck(deck: &[u8], words: &mut [u64]) -> u32
    ensures { answered result words.new ≡ read_deck_call deck.now words.old }
{
    count_of(deck::read(deck, words))
}

// Words to deck: the count of bytes, or 65536 * refusal number.
#[unsafe(no_mangle)]
pub extern "C" fn panel_write_deck(words: &[u64], deck: &mut [u8]) -> u32
    ensures { answered result deck.new ≡ write_deck_call words.now deck.old }
{
    count_of(deck::write(words, deck))
}

// The number of a signed field: 0 and the number, or the refusal's number.
#[unsafe(no_mangle)]
pub extern "C" fn panel_read_signed(field: &[u8], number: &mut [i64]) -> u32
    ensures { answered result number.new ≡ read_signed_call field.now number.old }
{
    match signed::read_signed(field) {
        Ok(z) => {
            if number.len() < 1 {
                return number_of(Refusal::Room);
            }
            number[0] = z;
            0
        }
        Err(refusal) => number_of(refusal),
    }
}

// The signed field of a number: 0, or the refusal's number.
#[unsafe(no_mangle)]
pub extern "C" fn panel_write_signed(number: i64, field: &mut [u8]) -> u32
    ensures { answered result field.new ≡ write_signed_call number field.old }
{
    status(signed::write_signed(number, field))
}
