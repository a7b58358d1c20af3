// Two fields in storage: the ends of storage, one field twice, and each refusal.

// How much storage is lent, the two starts, the length, and the carry in or whether to subtract.
#[derive(Clone, Copy)]
pub struct Trial {
    pub main: usize,
    pub local: usize,
    pub first: usize,
    pub second: usize,
    pub length: usize,
    pub on: bool,
}

// Two digits, each at most 9.
pub fn two_digits(x: u64) -> u8 {
    (x / 16 % 10 * 16 + x % 10) as u8
}

// Puts a byte where storage has that place.
pub fn put_byte(bytes: &mut [u8], at: usize, byte: u8) {
    if let Some(place) = bytes.get_mut(at) {
        *place = byte;
    }
}

// Storage of 48 bytes, or, for the ends of a large one, of 300 or 65,536.
fn main_size(x: u64) -> usize {
    [48, 48, 48, 48, 48, 48, 300, 65536][(x % 8) as usize]
}

// Where a field starts: near the start of storage, or near its end so that it ends there or runs over.
fn field_start(main: usize, x: u64) -> usize {
    let place = (x / 4 % 34) as usize;
    if x % 4 == 0 {
        return main.saturating_sub(place);
    }
    place
}

fn drawn_length(x: u64) -> usize {
    if x % 16 == 0 {
        return (x / 16 % 20) as usize;
    }
    (x / 16 % 16 + 1) as usize
}

// Sizes that are wrong in one of four ways, lengths and starts as large as numbers go, or one field twice.
fn altered(which: u64, t: Trial) -> Trial {
    match which {
        0 => Trial { main: 0, ..t },
        1 => Trial { main: 65537, ..t },
        2 => Trial { local: 255, ..t },
        3 => Trial { local: 257, ..t },
        4 => Trial {
            length: usize::MAX,
            ..t
        },
        5 => Trial {
            first: usize::MAX,
            ..t
        },
        6 => Trial {
            second: usize::MAX - 7,
            ..t
        },
        7..15 => Trial {
            second: t.first,
            ..t
        },
        _ => t,
    }
}

pub fn drawn_fields(a: u64, b: u64) -> Trial {
    let main = main_size(a / 0x100);
    altered(
        a % 64,
        Trial {
            main,
            local: 256,
            first: field_start(main, b),
            second: field_start(main, b / 0x1_0000),
            length: drawn_length(a / 0x1_0000),
            on: a / 0x1000 % 2 == 1,
        },
    )
}

// The last 64 bytes of main storage.
pub fn high(main: &mut [u8]) -> &mut [u8] {
    let from = main.len().saturating_sub(64);
    &mut main[from..]
}
