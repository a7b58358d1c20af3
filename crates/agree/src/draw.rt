// Words drawn from the generator's numbers: most are modelled and run, some are damaged or refused.
use crate::Going;
use codes::Reading;
use word::Fields;

// The codes of a field that are modelled in basic, some of them more than once.
const CH: [u8; 16] = [0, 1, 2, 3, 6, 7, 8, 9, 10, 11, 12, 13, 14, 15, 0, 1];

const CL: [u8; 16] = [0, 1, 2, 5, 6, 7, 8, 9, 10, 11, 13, 14, 2, 1, 0, 5];

const CM: [u8; 16] = [0, 1, 2, 3, 4, 5, 0, 2, 3, 4, 5, 3, 4, 5, 1, 2];

const CA: [u8; 16] = [4, 5, 7, 8, 9, 10, 11, 12, 13, 14, 15, 4, 5, 7, 8, 9];

const CD: [u8; 16] = [0, 5, 6, 7, 8, 9, 10, 11, 12, 13, 14, 15, 0, 7, 6, 5];

const CF: [u8; 16] = [0, 1, 2, 3, 5, 6, 7, 3, 3, 3, 3, 3, 5, 6, 7, 3];

const CS: [u8; 16] = [0, 1, 2, 3, 4, 6, 7, 8, 9, 10, 11, 12, 13, 0, 3, 9];

// One of sixteen. One of any number would ask of its callers that there is one, and no public function asks anything.
fn pick(codes: [u8; 16], x: u64) -> u8 {
    codes[(x % 16) as usize]
}

// A modelled CU beside these two, with which CA and K do not both go to W: one of 8 that may is a return.
fn drawn_cu(cl: u8, cm: u8, x: u64) -> u8 {
    if cm < 3 {
        if cl == 2 {
            return 0;
        }
        return [0, 0, 0, 0, 2, 2, 2, 3][(x % 8) as usize];
    }
    if x % 4 == 2 {
        return 0;
    }
    (x % 4) as u8
}

// The bit that makes a number of ones odd.
fn odd_bit(ones: u32) -> u8 {
    u8::from(ones % 2 == 0)
}

// PK, right where it covers something, and as it is elsewhere.
fn right_pk(f: Fields) -> u8 {
    if f.cl == 2 {
        return odd_bit(f.ca.count_ones() ^ f.aa.count_ones());
    }
    if f.cm < 3 && f.cu == 2 {
        return odd_bit(f.ck.count_ones());
    }
    f.pk
}

pub fn with_right_pk(f: Fields) -> Fields {
    Fields {
        pk: right_pk(f),
        ..f
    }
}

// Basic or compatibility.
pub fn reading_of(x: u64) -> Reading {
    if x % 2 == 0 {
        Reading::Basic
    } else {
        Reading::Compatibility
    }
}

// Which of the seven codes a word is to have, by the numbers that tests/second draws: in compatibility each in one word of 16 that it is modelled in, in basic none by this.
fn wanted(reading: Reading, a: u64) -> u64 {
    match reading {
        Reading::Basic => 0,
        Reading::Compatibility => a / 0x20_0000_0000 % 16,
    }
}

// CH 3 is not modelled in compatibility.
fn drawn_ch(reading: Reading, seven: u64, ch: u8) -> u8 {
    if seven == 1 {
        return 8;
    }
    match (reading, ch) {
        (Reading::Compatibility, 3) => 2,
        _ => ch,
    }
}

fn drawn_cl(seven: u64, cl: u8) -> u8 {
    match seven {
        2 => 4,
        3 => 6,
        4 => 12,
        _ => cl,
    }
}

fn drawn_cs(seven: u64, cs: u8) -> u8 {
    match seven {
        5 => 5,
        6 => 15,
        _ => cs,
    }
}

// Fields that are modelled under the reading and do not stop. Where CL = 2 any CA is modelled.
pub fn modelled(reading: Reading, a: u64, b: u64) -> Fields {
    let seven = wanted(reading, a);
    let cl = drawn_cl(seven, pick(CL, a / 0x1000));
    let cm = pick(CM, a / 0x1_0000);
    let ca = if cl == 2 {
        (a / 0x100_0000 % 16) as u8
    } else {
        pick(CA, a / 0x100_0000)
    };
    with_right_pk(Fields {
        cn: (a % 64) as u8,
        ch: drawn_ch(reading, seven, pick(CH, a / 0x100)),
        cl,
        cm,
        cu: drawn_cu(cl, cm, a / 0x10_0000),
        ca,
        aa: 0,
        cb: (a / 0x1000_0000 % 4) as u8,
        ck: (a / 0x1_0000_0000 % 16) as u8,
        ak: 0,
        pk: (a / 0x10_0000_0000 % 2) as u8,
        cd: pick(CD, b),
        cf: pick(CF, b / 0x10),
        cg: (b / 0x100 % 4) as u8,
        cv: (b / 0x400 % 4) as u8,
        cc: (b / 0x1000 % 8) as u8,
        cs: drawn_cs(seven, pick(CS, b / 0x8000)),
        asb: 0,
    })
}

// Fields of any codes within their widths, with PK right.
pub fn raw(a: u64, b: u64) -> Fields {
    with_right_pk(Fields {
        cn: (a % 64) as u8,
        ch: (a / 0x100 % 16) as u8,
        cl: (a / 0x1000 % 16) as u8,
        cm: (a / 0x1_0000 % 8) as u8,
        cu: (a / 0x10_0000 % 4) as u8,
        ca: (a / 0x100_0000 % 16) as u8,
        aa: (a / 0x2_0000_0000 % 2) as u8,
        cb: (a / 0x1000_0000 % 4) as u8,
        ck: (a / 0x4_0000_0000 % 16) as u8,
        ak: (a / 0x40_0000_0000 % 2) as u8,
        pk: (a / 0x80_0000_0000 % 2) as u8,
        cd: (b % 16) as u8,
        cf: (b / 0x10 % 8) as u8,
        cg: (b / 0x100 % 4) as u8,
        cv: (b / 0x400 % 4) as u8,
        cc: (b / 0x1000 % 8) as u8,
        cs: (b / 0x8000 % 16) as u8,
        asb: (b / 0x8_0000 % 2) as u8,
    })
}

// The fields with one of them any code of its width: field `which` of those that may stop or be refused.
fn replaced(f: Fields, which: u64, x: u64) -> Fields {
    let four = (x % 16) as u8;
    let one = (x % 2) as u8;
    let mut f = f;
    match which {
        0 => f.ch = four,
        1 => f.cl = four,
        2 => f.cm = four % 8,
        3 => f.cu = four % 4,
        4 => f.ca = four,
        5 => f.aa = one,
        6 => f.ak = one,
        7 => f.cd = four,
        8 => f.cs = four,
        9 => f.asb = one,
        _ => f.cf = four % 8,
    }
    f
}

// The fields with one of the seven codes on which the readings differ.
fn with_code(f: Fields, which: u64) -> Fields {
    let mut f = f;
    match which {
        0 => f.ch = 3,
        1 => f.ch = 8,
        2 => f.cl = 4,
        3 => f.cl = 6,
        4 => f.cl = 12,
        5 => f.cs = 5,
        6 => f.cs = 15,
        _ => (),
    }
    f
}

// The fields of a word that sends CA to W and touches CU no more.
fn to_w(f: Fields) -> Fields {
    with_right_pk(Fields {
        cl: 2,
        cm: f.cm % 3,
        cu: 0,
        ..f
    })
}

// The word of the fields, or the number that refuses them, which is no good word.
pub fn packed(f: Fields, address: u32) -> u64 {
    match word::pack(f, address) {
        Ok(word) => word,
        Err(refusal) => u64::from(refusal.number()),
    }
}

// What turns CU of a word that sends CA to W: to 2, with PS, so that K goes there too; or to 3, the return.
fn twice(x: u64) -> u64 {
    if x % 2 == 0 {
        0x8_0010_0000
    } else {
        0xC_0000_0000
    }
}

// A word for the address, which by 64 kinds of `x` is modelled under the reading, has one of the seven codes, one field of any code, has all of any code, is
// damaged in one bit, stands at another address, sends CA to W beside K or a return, has PK turned, or is any 55 bits.
pub fn word_for(reading: Reading, a: u64, b: u64, x: u64, address: u32) -> u64 {
    let rest = x / 64;
    let f = modelled(reading, a, b);
    match x % 64 {
        0..44 => packed(f, address),
        44..47 => packed(with_right_pk(with_code(f, rest % 7)), address),
        47..50 => packed(with_right_pk(replaced(f, rest % 11, rest / 16)), address),
        50..54 => packed(raw(a, b), address),
        54..60 => packed(f, address) ^ (1u64 << (rest % 64)),
        60 => packed(f, (rest % 4096) as u32),
        61 => packed(to_w(f), address) ^ twice(rest),
        62 => packed(f, address) ^ 0x30_0000,
        _ => a / 512,
    }
}

// Of 256 words how many are of any kind, as many again being stops.
pub fn drawn_rate(x: u64) -> u64 {
    [0, 0, 1, 1, 1, 2, 8, 32][(x % 8) as usize]
}

// A word of a run's store.
fn store_word(reading: Reading, a: u64, b: u64, x: u64, rate: u64, address: u32) -> u64 {
    let roll = x % 256;
    if roll < rate {
        // A kind that is seldom a word that runs.
        return word_for(
            reading,
            a,
            b,
            x / 0x1_0000 * 64 + 44 + x / 256 % 20,
            address,
        );
    }
    let f = modelled(reading, a, b);
    if roll / 2 < rate {
        return packed(Fields { cf: 4, ..f }, address);
    }
    packed(f, address)
}

// Words in all of the store.
pub fn fill_store(g: &mut Going, reading: Reading, rate: u64, store: &mut [u64]) {
    for (k, word) in store.iter_mut().enumerate() {
        let a = g.draw();
        let b = g.draw();
        let x = g.draw();
        *word = store_word(reading, a, b, x, rate, (k % 4096) as u32);
    }
}
