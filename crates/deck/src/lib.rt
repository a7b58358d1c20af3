// A deck of words: blocks of 512 bytes, each 64 groups of 8, high byte first.
#![tactic(auto)]

ghost use Rattle.std.specs.Prelude.{◌≡◌, ◌+◌, ◌*◌, ◌/◌, ◌<◌, ◌≤◌, ◌++◌, length, take, drop, None};
ghost use Rattle.std.specs.Result.{result_err};
ghost use Rattle.digits.specs.Refusal.{first};
ghost use Rattle.digits.specs.Lent.{over};
ghost use Rattle.digits.specs.Lists.{pieces, in_turn};
ghost use Rattle.digits.specs.Number.{digits_of, number_of};
ghost use Rattle.deck.specs.Deck.{groups_of, bytes_of, number_in, count_in, words_in, check_of, count_wrong, unused_wrong, length_wrong, shape_wrong, word_checks, block_checks, deck_checks, words_of, read_of, words_after, block_of, block_count, deck_of, write_of, deck_after};

use digits::Refusal;

// The groups of a block.
// The groups stay an array by themselves: the definitions speak of the list of 64, and a struct round it would stand between.
fn groups_of(block: &[u8]) -> [u64; 64]
    requires { length block.now ≡ 512 }
    ensures { result ≡ groups_of block.now }
{
    let mut gs = [0u64; 64];
    let (groups, _) = block.as_chunks::<8>();
    // `gs.iter_mut().zip(groups)` was tried; the proof did not close: after it std says nothing of `gs`.
    for (i, bytes) in groups.iter().enumerate() {
        gs[i] = u64::from_be_bytes(*bytes);
    }
    gs
}

// The blocks of a deck.
fn blocks_in(deck: &[u8]) -> &[[u8; 512]]
    ensures { (result.now ≡ pieces 512 (length deck.now / 512) deck.now) × (length result.now ≡ length deck.now / 512) }
{
    deck.as_chunks::<512>().0
}

// The block check: the sum of groups 0 to 62, wrapping. Another may come to stand beside it.
fn block_check(gs: [u64; 64]) -> u64
    ensures { result ≡ check_of gs }
{
    let mut sum: u64 = 0;
    for g in &gs[0..63] {
        sum = sum.wrapping_add(*g);
    }
    sum
}

fn number_in(gs: [u64; 64]) -> usize
    ensures { result ≡ number_in gs }
{
    (gs[0] / 0x1_0000_0000_0000 % 0x1_0000) as usize
}

fn count_in(gs: [u64; 64]) -> usize
    ensures { (result ≡ count_in gs) × (result < 0x1_0000) }
{
    (gs[0] / 0x1_0000_0000 % 0x1_0000) as usize
}

fn count_wrong(last: bool, count: usize) -> bool
    ensures { result ≡ count_wrong last count }
{
    if last {
        (count == 0) | (62 < count)
    } else {
        count != 62
    }
}

// A group after the words and before the check is not zero.
fn unused_wrong(gs: [u64; 64]) -> bool
    ensures { result ≡ unused_wrong gs }
{
    let unused = (1 + count_in(gs)).min(63);
    gs[unused..63].iter().any(|g| *g != 0)
}

// 17, of block `b` of `n`: the count, the words in all, the reserved bytes, the unused groups.
fn shape_wrong(gs: [u64; 64], b: usize, n: usize) -> bool
    requires { b < 67 }
    ensures { result ≡ shape_wrong n b gs }
{
    let count = count_in(gs);
    let reserved = gs[0] % 0x1_0000_0000;
    count_wrong(b + 1 == n, count)
        | ((4096 < 62 * b + count) | ((reserved != 0) | unused_wrong(gs)))
}

// The first refusal of a word, 3 to 9. The first word's address is `start`.
fn words_fault(words: &[u64], start: usize) -> Result<(), Refusal>
    requires { start + length words.now ≤ 4096 }
    ensures { result_err result ≡ first (in_turn word_checks start words.now) }
{
    for (i, &word) in words.iter().enumerate() {
        if let Some(refusal) = word::fault(word, (start + i) as u32) {
            return Err(refusal);
        }
    }
    Ok(())
}

// The first refusal of block `b` of `n`.
fn block_fault(gs: [u64; 64], b: usize, n: usize) -> Result<(), Refusal>
    requires { (b < n) × (n ≤ 67) }
    ensures { result_err result ≡ first (block_checks n b gs) }
{
    if number_in(gs) != b {
        return Err(Refusal::BlockNumber);
    }
    if shape_wrong(gs, b, n) {
        return Err(Refusal::BlockShape);
    }
    if block_check(gs) != gs[63] {
        return Err(Refusal::BlockCheck);
    }
    let end = 1 + count_in(gs);
    words_fault(&gs[1..end], 62 * b)
}

// The first refusal of a block.
// `requires` asks the bound on a deck's length in three functions, since a judged deck is read again without being copied.
fn deck_fault(deck: &[u8]) -> Result<(), Refusal>
    requires { length deck.now ≤ 34304 }
    ensures { result_err result ≡ first (deck_checks deck.now) }
{
    let blocks = blocks_in(deck);
    for (b, block) in blocks.iter().enumerate() {
        block_fault(groups_of(block), b, blocks.len())?;
    }
    Ok(())
}

// The number of words of a deck whose blocks are not refused.
fn count_words(deck: &[u8]) -> usize
    requires { (length deck.now ≤ 34304) × (first (deck_checks deck.now) ≡ None) }
    ensures { result ≡ length (words_of deck.now) }
{
    let mut total = 0;
    for block in blocks_in(deck) {
        total += count_in(groups_of(block));
    }
    total
}

// Puts the words of a block at `at`, and gives the place after them.
fn put_words(gs: [u64; 64], words: &mut [u64], at: usize) -> usize
    requires { (count_in gs ≤ 62) × (at + count_in gs ≤ length words.old) }
    ensures { (result ≡ at + count_in gs) × (words.new ≡ take at words.old ++ (words_in gs ++ drop (count_in gs) (drop at words.old))) }
{
    let count = count_in(gs);
    let end = 1 + count;
    let next = at + count;
    digits::copy(&gs[1..end], &mut words[at..next]);
    next
}

// Puts the words of a deck whose blocks are not refused.
fn put_all(deck: &[u8], words: &mut [u64])
    requires deck_len_bound { (length deck.now ≤ 34304) × (first (deck_checks deck.now) ≡ None) }
    requires deck_in_bounds { length (words_of deck.now) ≤ length words.old }
    ensures { words.new ≡ over (words_of deck.now) words.old }
{
    let mut done = 0;
    for block in blocks_in(deck) {
        done = put_words(groups_of(block), words, done);
    }
}

fn length_wrong(length: usize) -> bool
    ensures { result ≡ length_wrong length }
{
    (length == 0) | ((length % 512 != 0) | (34304 < length))
}

// The number of words, which then stand at the front of `words`; or 15, then block by block 16, 17,
// 18 and 3 to 9, then 19.
pub fn read(deck: &[u8], words: &mut [u64]) -> Result<usize, Refusal>
    ensures { (result ≡ read_of deck.now (length words.old)) × (words.new ≡ words_after deck.now words.old) }
{
    if length_wrong(deck.len()) {
        return Err(Refusal::DeckLength);
    }
    deck_fault(deck)?;
    let count = count_words(deck);
    if words.len() < count {
        return Err(Refusal::Room);
    }
    put_all(deck, words);
    Ok(count)
}

// The block of at most 62 words, at the place `b`.
fn block_of(words: &[u64], b: usize) -> [u64; 64]
    requires { (length words.now ≤ 62) × (b < 67) }
    ensures { result ≡ block_of b words.now }
{
    let mut gs = [0u64; 64];
    gs[0] = b as u64 * 0x1_0000_0000_0000 + words.len() as u64 * 0x1_0000_0000;
    digits::copy(words, &mut gs[1..63]);
    gs[63] = block_check(gs);
    gs
}

// Puts the bytes of a block's groups.
fn put_block(gs: [u64; 64], out: &mut [u8])
    requires { length out.old ≡ 512 }
    ensures { out.new ≡ bytes_of gs }
{
    // By its place: std says nothing of a slice after `as_chunks_mut`.
    for (i, g) in gs.iter().enumerate() {
        let at = i * 8;
        let end = at + 8;
        out[at..end].copy_from_slice(&g.to_be_bytes());
    }
}

// Puts the deck of at most 4,096 words.
fn put_deck(words: &[u64], deck: &mut [u8])
    requires { (length words.now ≤ 4096) × (512 * block_count (length words.now) ≤ length deck.old) }
    ensures { deck.new ≡ over (deck_of words.now) deck.old }
{
    for (b, block) in words.chunks(62).enumerate() {
        let at = b * 512;
        put_block(block_of(block, b), &mut deck[at..at + 512]);
    }
}

// The number of bytes, which then stand at the front of `deck`; or 21, then 3 to 9, then 19.
pub fn write(words: &[u64], deck: &mut [u8]) -> Result<usize, Refusal>
    ensures { (result ≡ write_of words.now (length deck.old)) × (deck.new ≡ deck_after words.now deck.old) }
{
    let count = words.len();
    if (count == 0) | (4096 < count) {
        return Err(Refusal::WordCount);
    }
    words_fault(words, 0)?;
    let bytes = 512 * ((count + 61) / 62);
    if deck.len() < bytes {
        return Err(Refusal::Room);
    }
    put_deck(words, deck);
    Ok(bytes)
}
