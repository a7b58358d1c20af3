// Standard output, by way of a buffer.
ghost use Rattle.std.specs.Prelude.{◌≤◌, length};

use crate::tell;
use digits::Refusal;

// The descriptor of standard output.
pub(crate) const STDOUT_FILENO: i32 = 1;

// A buffer, how many of its bytes wait, and whether a write failed: that is told once, and nothing more is written.
#[derive(Drop)]
pub struct Page<'a> {
    pub room: &'a mut [u8],
    pub waiting: usize,
    pub failed: bool,
}

fn written(bytes: &[u8]) -> bool {
    let fine = io::write_all(STDOUT_FILENO, bytes);
    if !fine {
        tell::line(b"the output was not written");
    }
    fine
}

impl<'a> Page<'a> {
    pub(crate) fn new(room: &'a mut [u8]) -> Page<'a> {
        Page {
            room,
            waiting: 0,
            failed: false,
        }
    }

    // Writes what waits.
    pub fn flush(&mut self)
        ensures { self.new.waiting ≤ length self.new.room.now }
    {
        let end = self.waiting;
        self.waiting = 0;
        if self.failed {
            return;
        }
        let Some(bytes) = self.room.get(..end) else {
            tell::line(b"the output was not made");
            return;
        };
        self.failed = !written(bytes);
    }

    // With room for the next text: the longest, the walk, takes less than half.
    pub fn ready(&mut self)
        ensures { self.new.waiting ≤ length self.new.room.now }
    {
        if self.room.len() / 2 < self.waiting {
            self.flush();
        }
    }

    // After a text was put where the next is to wait.
    pub fn put(&mut self, text: Result<usize, Refusal>) {
        let left = self.room.len().saturating_sub(self.waiting);
        match text {
            Ok(size) if size <= left => self.waiting += size,
            _ => tell::line(b"the output was not made"),
        }
    }

    // A text that is made where the next is to wait.
    pub(crate) fn write<F: FnOnce(&mut [u8]) -> Result<usize, Refusal>>(&mut self, make: F)
        requires { F.IsAlwaysCallable make }
    {
        self.ready();
        let from = self.waiting;
        let text = make(&mut self.room[from..]);
        self.put(text);
    }

    // Any text of a few bytes.
    pub fn text(&mut self, text: &[u8]) {
        self.write(|room| text::put(text, room));
    }
}
