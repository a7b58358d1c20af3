// Numbers in decimal and in hexadecimal.
ghost use Rattle.std.specs.Prelude.{◌≡◌, ◌+◌, ◌*◌, ◌^◌, ◌≤◌, length};
ghost use Rattle.arguments.specs.Arguments.{digit_value, all_digits, digits_fit, value_from, number_fits, number_of};

// The value of a hexadecimal digit, or 16.
#[tactic(auto, unfolding(crate::specs::Arguments::digit_value))]
pub(crate) fn digit_value(c: u8) -> u8
    ensures value { result ≡ digit_value c }
    ensures bound { result ≤ 16 }
{
    match c {
        b'0'..=b'9' => c - b'0',
        b'A'..=b'F' => c - b'A' + 10,
        b'a'..=b'f' => c - b'a' + 10,
        _ => 16,
    }
}

fn all_digits(base: u8, text: &[u8]) -> bool
    ensures { result ≡ all_digits base text.now }
{
    text.iter().all(|c| digit_value(*c) < base)
}

pub(crate) fn digits_fit(base: u8, most: usize, text: &[u8]) -> bool
    ensures { result ≡ digits_fit base most text.now }
{
    (1..=most).contains(&text.len()) && all_digits(base, text)
}

// The number that digits write.
pub(crate) fn long_value(base: u64, text: &[u8]) -> u64
    requires base { base ≤ 16 }
    requires short { length text.now ≤ 15 }
    ensures value { result ≡ value_from base 0 text.now }
    ensures bound { result + 2 ≤ 2 ^ (4 * length text.now + 1) }
{
    let mut n: u64 = 0;
    for c in text {
        n = n * base + digit_value(*c) as u64;
    }
    n
}

// That of a few digits.
pub(crate) fn value(base: u64, text: &[u8]) -> u32
    requires base { base ≤ 16 }
    requires short { length text.now ≤ 7 }
    ensures value { result ≡ value_from base 0 text.now }
    ensures bound { result + 2 ≤ 2 ^ (4 * length text.now + 1) }
{
    long_value(base, text) as u32
}

// That of up to three hexadecimal digits.
#[tactic(auto, using(crate::proofs::Laws::short_value))]
pub(crate) fn short_value(text: &[u8]) -> u16
    requires { length text.now ≤ 3 }
    ensures { result ≡ value_from 16 0 text.now }
{
    value(16, text) as u16
}

pub(crate) fn number_fits(text: &[u8]) -> bool
    ensures { result ≡ number_fits text.now }
{
    digits_fit(10, 7, text) && value(10, text) <= 1_000_000
}

// The number that a text writes in decimal, up to a million.
#[tactic(auto, unfolding(crate::specs::Arguments::number_of))]
pub fn number_of(text: &[u8]) -> Option<u32>
    ensures { result ≡ number_of text.now }
{
    if !number_fits(text) {
        return None;
    }
    Some(value(10, text))
}

// There are 1 to `most` characters, and every one is a hexadecimal digit.
pub fn is_number(text: &[u8], most: usize) -> bool
    ensures { result ≡ digits_fit 16 most text.now }
{
    digits_fit(16, most, text)
}
