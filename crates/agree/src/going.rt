// A comparison as it goes on: the generator, the digest, and how often each answer came.
use decimal::Added;
use digits::Refusal;
use machine::{Cycled, State};
use run::{Ending, Finished};

// The generator's last number, and the digest.
#[derive(Clone, Copy)]
pub struct Going {
    pub x: u64,
    pub digest: u64,
}

impl Going {
    // xorshift64: the next number. None is 0 unless the first is.
    pub fn draw(&mut self) -> u64 {
        self.x ^= self.x << 13;
        self.x ^= self.x >> 7;
        self.x ^= self.x << 17;
        self.x
    }

    // The digest after a number.
    pub fn mix(&mut self, value: u64) {
        let x = self.digest.rotate_left(7).wrapping_add(value);
        let x = x ^ (x >> 29);
        self.digest = x ^ (x << 17);
    }

    // After all the bytes.
    pub fn mix_bytes(&mut self, bytes: &[u8]) {
        for &byte in bytes {
            self.mix(u64::from(byte));
        }
    }

    // After all the words.
    pub fn mix_words(&mut self, words: &[u64]) {
        for &word in words {
            self.mix(word);
        }
    }

    // After all of a state.
    pub fn mix_state(&mut self, s: State) {
        let [w, x] = s.wx.to_be_bytes();
        self.mix(u64::from_be_bytes([s.i, s.j, s.u, s.v, s.l, s.t, s.d, s.r]));
        self.mix(u64::from_be_bytes([s.s, s.g, s.h, s.m, s.n, 0, w, x]));
        self.mix(latches(s));
        self.mix(u64::from(s.owed) * 65536 + u64::from(s.fwx));
    }

    // After a run: its ending by number and field, stopped by 101 and spent by 102, its count, and its state.
    pub fn mix_finished(&mut self, f: Finished) {
        let code = match f.ending {
            Ending::Stopped => 101 * 256,
            Ending::Refused(refusal) => {
                u64::from(refusal.number()) * 256 + u64::from(refusal.field())
            }
            Ending::Spent => 102 * 256,
        };
        self.mix(code);
        self.mix(u64::from(f.count));
        self.mix_state(f.state);
    }

    // After an addition, and its count of cycles. It is counted at 0 with no carry or overflow and at 1 with one, a bad digit at 2, a
    // refusal at its number and 16 more.
    pub fn mix_added(&mut self, answer: Added, counts: &mut Counts) {
        let (number, count) = match answer {
            Added::Summed(carry, count) => (u64::from(carry), Some(count)),
            Added::BadDigit(count) => (2, Some(count)),
            Added::Refused(refusal) => (u64::from(refusal.number()) + 16, None),
        };
        counts.tally(number as usize);
        self.mix(number);
        if let Some(count) = count {
            self.mix(u64::from(count));
        }
    }

    // After the first 300 bytes of main storage, its last 64, and local storage.
    pub fn mix_ends(&mut self, main: &[u8], local: &[u8]) {
        self.mix_bytes(&main[..main.len().min(300)]);
        self.mix_bytes(&main[main.len().saturating_sub(64)..]);
        self.mix_bytes(local);
    }

    // Drawn bytes in all of the room.
    pub fn fill(&mut self, bytes: &mut [u8]) {
        for byte in bytes {
            *byte = (self.draw() / 256 % 256) as u8;
        }
    }

    // A line: a count of cases, and the digest after them.
    pub fn print(self, count: u32) {
        io::print_decimal(crate::STDOUT_FILENO, u64::from(count));
        io::write_all(crate::STDOUT_FILENO, b" ");
        io::print_hex(crate::STDOUT_FILENO, self.digest, 16);
        io::write_all(crate::STDOUT_FILENO, b"\n");
    }

    // That line with all of main storage in the digest, which goes on without it.
    pub fn print_with(mut self, main: &[u8], count: u32) {
        self.mix_bytes(main);
        self.print(count);
    }

    // That line where as many cases are done, or twice as many, and so on.
    pub fn print_every(self, cases: u32, done: u32) {
        if done.checked_rem(cases) == Some(0) {
            self.print(done);
        }
    }
}

// The latches and the arriving byte as one number.
fn latches(s: State) -> u64 {
    let high = u8::from(s.digit_carry) * 0x80
        + u8::from(s.invalid) * 0x40
        + u8::from(s.ac) * 0x20
        + u8::from(s.one_bc) * 0x10
        + u8::from(s.z0) * 0x8
        + u8::from(s.allow_write) * 0x4
        + u8::from(s.local_selected) * 0x2
        + u8::from(s.arriving);
    u64::from(high) * 0x100 + u64::from(s.arriving_byte)
}

// The number of a refusal, or 0 where there is none.
pub fn number_of<T>(answer: &Result<T, Refusal>) -> u8 {
    match answer {
        Ok(_) => 0,
        Err(refusal) => refusal.number(),
    }
}

// A cycle's answer by number, a refusal by its own, ran by 100 and stopped by 101; its field; and its state. They are numbers since the
// digest of tests/second has them so.
#[derive(Clone, Copy)]
pub struct Answer {
    pub number: u8,
    pub field: u8,
    pub state: State,
}

impl Answer {
    pub fn of(answer: Cycled) -> Answer {
        match answer {
            Cycled::Ran(state) => Answer {
                number: 100,
                field: 0,
                state,
            },
            Cycled::Stopped(state) => Answer {
                number: 101,
                field: 0,
                state,
            },
            Cycled::Refused(state, refusal) => Answer {
                number: refusal.number(),
                field: refusal.field(),
                state,
            },
        }
    }

    pub fn ran(self) -> bool {
        self.number == 100
    }

    // The number, the field and what is given beside them as one number.
    pub fn code(self, beside: u64) -> u64 {
        u64::from(self.number) * 256 + u64::from(self.field) + beside % 2 * 65536
    }
}

// How often each answer came, by its place.
#[derive(Clone, Copy)]
pub struct Counts {
    counts: [u32; 512],
}

impl Counts {
    pub fn new() -> Counts {
        Counts { counts: [0; 512] }
    }

    // So many more at a place.
    pub fn add(&mut self, at: usize, more: u32) {
        if let Some(count) = self.counts.get_mut(at) {
            *count = count.wrapping_add(more);
        }
    }

    // One more, where it is to be counted.
    pub fn tally_if(&mut self, counted: bool, at: usize) {
        self.add(at, u32::from(counted));
    }

    pub fn tally(&mut self, at: usize) {
        self.add(at, 1);
    }

    // A line: a name, and the count at a place.
    pub fn print(&self, name: &[u8], at: usize) {
        crate::print_count(name, self.at(at));
    }

    // A line for each place from one to another: a name, the place, and the count there.
    pub fn print_each(&self, name: &[u8], from: usize, to: usize) {
        for k in from..to {
            io::write_all(crate::STDOUT_FILENO, name);
            io::print_decimal(crate::STDOUT_FILENO, k as u64);
            self.print(b"", k);
        }
    }

    fn at(&self, at: usize) -> u64 {
        u64::from(self.counts.get(at).copied().unwrap_or(0))
    }
}
