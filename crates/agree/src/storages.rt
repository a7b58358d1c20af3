// The storages of a comparison, and how much of each a case is lent.
ghost use Rattle.std.specs.Prelude.{◌≡◌, take};

use crate::Going;

// Words, main storage and local storage.
#[derive(Clone, Copy)]
pub struct Storages<const WORDS: usize, const MAIN: usize, const LOCAL: usize> {
    pub store: [u64; WORDS],
    pub main: [u8; MAIN],
    pub local: [u8; LOCAL],
}

impl<const WORDS: usize, const MAIN: usize, const LOCAL: usize> Storages<WORDS, MAIN, LOCAL> {
    // No words, and both storages empty.
    #[inline(always)]
    pub fn new() -> Storages<WORDS, MAIN, LOCAL> {
        Storages {
            store: [0; WORDS],
            main: [0; MAIN],
            local: [0; LOCAL],
        }
    }

    // Both storages drawn, from a number each: in place, as a value that is handed back stands on the stack three times.
    pub fn drawn(&mut self, main: u64, local: u64) {
        Going { x: main, digest: 0 }.fill(&mut self.main);
        Going {
            x: local,
            digest: 0,
        }
        .fill(&mut self.local);
    }

    // Puts a word where the store has that place.
    pub fn put(&mut self, at: u16, word: u64) {
        if let Some(place) = self.store.get_mut(usize::from(at)) {
            *place = word;
        }
    }

    // The digest after all of both storages.
    pub fn mix(&self, g: &mut Going) {
        g.mix_bytes(&self.main);
        g.mix_bytes(&self.local);
    }
}

// As much of a storage as is to be lent, or all of it.
pub fn part<T>(all: &mut [T], size: usize) -> &mut [T]
    ensures { result.now ≡ take size all.old }
{
    let end = all.len().min(size);
    &mut all[..end]
}

// How much of each storage is lent.
#[derive(Clone, Copy)]
pub struct Lent {
    pub words: usize,
    pub main: usize,
    pub local: usize,
}

impl Lent {
    // The sizes of one case of 43 are wrong, each in one of six ways.
    pub fn seldom_wrong(self, which: u64) -> Lent {
        match which {
            0 => Lent { words: 0, ..self },
            1 => Lent {
                words: 4097,
                ..self
            },
            2 => Lent { main: 0, ..self },
            3 => Lent {
                main: 65537,
                ..self
            },
            4 => Lent { local: 255, ..self },
            5 => Lent { local: 257, ..self },
            _ => self,
        }
    }
}
