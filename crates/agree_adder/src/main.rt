// The adder against tests/second: every pair of bytes with either carry, every gate and operation, and the worked sums;
// and both corrections, the rule and the table, of every sum.
#![tactic(auto)]

use adder::{Controls, Sum};
use agree::{Going, STDOUT_FILENO};

// All that the adder hands back, as one number.
fn value(z: Sum) -> u64 {
    let latches = u8::from(z.ac) * 16
        + u8::from(z.one_bc) * 8
        + u8::from(z.z0) * 4
        + u8::from(z.digit_carry) * 2
        + u8::from(z.invalid);
    u64::from(z.result) * 65536 + u64::from(z.uncorrected) * 256 + u64::from(latches)
}

// The digest after a case.
fn summed(g: &mut Going, a: u8, b: u8, c: Controls) {
    g.mix(value(adder::add(a, b, c)));
}

// Case `k` of all pairs with either carry, whole bytes, the carry in from S3.
fn pair(g: &mut Going, k: u32, cv: u8, s0: bool) {
    let c = controls(3, cv, s0, k % 2 == 1);
    summed(g, (k / 512 % 256) as u8, (k / 2 % 256) as u8, c);
}

// All 2^17 of them, a digest for every 16,384.
fn pairs(name: &[u8], cv: u8, s0: bool) {
    agree::print_name(name);
    let mut g = Going { x: 0, digest: 1 };
    for k in 0..131072 {
        pair(&mut g, k, cv, s0);
        g.print_every(16384, k + 1);
    }
}

// A drawn case: two bytes, and controls within their widths.
fn gated(g: &mut Going, k: u32) {
    let x = g.draw();
    let c = Controls {
        cf: (k % 8) as u8,
        cg: (k / 8 % 4) as u8,
        cv: (k / 32 % 4) as u8,
        cc: (k / 128 % 8) as u8,
        s0: k / 1024 % 2 == 1,
        s3: k / 2048 % 2 == 1,
    };
    summed(g, (x / 256 % 256) as u8, (x / 65536 % 256) as u8, c);
}

// Every gate and operation, on 64 drawn pairs each.
fn gates() {
    agree::print_name(b"gates and operations");
    let mut g = Going { x: 7, digest: 2 };
    for k in 0..262144 {
        gated(&mut g, k);
        g.print_every(16384, k + 1);
    }
}

// A drawn case whose codes may be beyond their widths.
fn wide(g: &mut Going) {
    let x = g.draw();
    let [b, a, flags, cc, cv, cg, cf, _] = x.to_be_bytes();
    let c = Controls {
        cf,
        cg,
        cv,
        cc,
        s0: flags % 2 == 1,
        s3: flags / 2 % 2 == 1,
    };
    summed(g, a, b, c);
}

fn beyond() {
    agree::print_name(b"codes of any size");
    let mut g = Going { x: 11, digest: 3 };
    for k in 0..32768 {
        wide(&mut g);
        g.print_every(16384, k + 1);
    }
}

// The digest after a sum is corrected by the rule and by the table: 512 for the low digit's carry, and nine bits.
fn corrected(g: &mut Going, k: u32) {
    let low_carry = k / 512 % 2 == 1;
    let high_carry = k / 256 % 2 == 1;
    let byte = (k % 256) as u8;
    g.mix(u64::from(rule::corrected(low_carry, high_carry, byte)));
    g.mix(u64::from(table::corrected(low_carry, high_carry, byte)));
}

// All 1,024 of them.
fn corrections() {
    agree::print_name(b"corrections by rule and by table");
    let mut g = Going { x: 0, digest: 6 };
    for k in 0..1024 {
        corrected(&mut g, k);
    }
    g.print(1024);
}

// A worked sum by its name: result, sum before correction, AC, 1BC, Z0, the digit carry and whether a digit is invalid.
fn worked(name: &[u8], a: u8, b: u8, c: Controls) {
    io::write_all(STDOUT_FILENO, name);
    io::write_all(STDOUT_FILENO, b" ");
    io::print_hex(STDOUT_FILENO, value(adder::add(a, b, c)), 6);
    io::write_all(STDOUT_FILENO, b"\n");
}

fn controls(gate: u8, cv: u8, s0: bool, s3: bool) -> Controls {
    Controls {
        cf: gate,
        cg: gate,
        cv,
        cc: 6,
        s0,
        s3,
    }
}

// Document 001's sums. A low byte holds the sign in its low digit, so its high digit alone is gated.
fn worked_true() {
    worked(b"5D + 99", 0x5D, 0x99, controls(3, 0, false, false));
    worked(b"18 + 16 decimal", 0x18, 0x16, controls(3, 3, false, false));
    worked(
        b"117 + 138 decimal, low byte",
        0x7C,
        0x8C,
        controls(2, 3, false, false),
    );
    worked(
        b"117 + 138 decimal, high byte",
        0x11,
        0x13,
        controls(3, 3, false, true),
    );
}

fn worked_complement() {
    worked(b"18 - 16 decimal", 0x18, 0x16, controls(3, 3, true, true));
    worked(
        b"190 - 200 decimal, low byte",
        0x0C,
        0x0C,
        controls(2, 3, true, true),
    );
    worked(
        b"190 - 200 decimal, high byte",
        0x19,
        0x20,
        controls(3, 3, true, true),
    );
    worked(
        b"190 - 200 decimal, low byte again",
        0x00,
        0x00,
        controls(2, 3, true, true),
    );
    worked(
        b"190 - 200 decimal, high byte again",
        0x00,
        0x99,
        controls(3, 3, true, true),
    );
}

fn main() {
    worked_true();
    worked_complement();
    pairs(b"CV 0", 0, false);
    pairs(b"CV 1", 1, false);
    pairs(b"CV 2, S0 off", 2, false);
    pairs(b"CV 2, S0 on", 2, true);
    pairs(b"CV 3, S0 off", 3, false);
    pairs(b"CV 3, S0 on", 3, true);
    gates();
    beyond();
    corrections();
}
