// Writes the deck of a shipped program to standard output: of the decimal add, of AP and SP, or of a lesson, on a trap or on the two
// readings.
#![tactic(auto)]

ghost use Rattle.std.specs.Prelude.{◌≡◌};
ghost use Rattle.deck.specs.Deck.{deck_of};
ghost use Rattle.ship.specs.Block.{OneBlock};
ghost use Rattle.ship.specs.Lesson.{lesson};
ghost use Rattle.ship.specs.Readings.{readings};
ghost use Rattle.ship.specs.Words.{words_of};

use std::io::Print;

// One block, since the words are at most 62. None of them is refused.
fn deck_of(words: &[u64]) -> [u8; 512]
    requires { OneBlock words.now }
    ensures { result ≡ deck_of words.now }
{
    let mut deck = [0u8; 512];
    let _ = deck::write(words, &mut deck);
    deck
}

// The shipped words, and the routine behind them: what each word is for stands in specs/Lesson.antt.
fn lesson() -> [u64; 23]
    ensures { result ≡ lesson }
{
    let mut words = [0u64; 23];
    digits::copy(&decimal::words(), &mut words);
    words[21] = 0x0B0812801A6040; // 15
    words[22] = 0x01001D00100001; // 16
    words
}

// The lesson of the two readings: what each word is for stands in specs/Readings.antt.
fn readings() -> [u64; 15]
    ensures { result ≡ readings }
{
    [
        0x018B1100100001, // 00
        0x01001100108000, // 01
        0x01001100108000, // 02
        0x02C01100100001, // 03
        0x01001100108000, // 04
        0x01801100008000, // 05
        0x04821100100001, // 06
        0x01001100108000, // 07
        0x01001100108000, // 08
        0x048E1100100001, // 09
        0x01801100008000, // 0A
        0x07001100100015, // 0B
        0x0780910010003D, // 0C
        0x07181100100001, // 0D
        0x01001100108000, // 0E
    ]
}

// What is shipped: a program, or a lesson.
#[derive(Clone, Copy)]
enum Deck {
    Add,
    Apsp,
    Trap,
    Readings,
}

impl Deck {
    // By its name.
    fn named(word: &[u8]) -> Option<Deck> {
        match word {
            b"add" => Some(Deck::Add),
            b"apsp" => Some(Deck::Apsp),
            b"trap" => Some(Deck::Trap),
            b"readings" => Some(Deck::Readings),
            _ => None,
        }
    }

    // Its bytes, of its own words.
    fn bytes(self) -> [u8; 512]
        ensures { result ≡ deck_of (words_of self) }
    {
        match self {
            Deck::Add => deck_of(&decimal::words()),
            Deck::Apsp => deck_of(&apsp::words()),
            Deck::Trap => deck_of(&lesson()),
            Deck::Readings => deck_of(&readings()),
        }
    }
}

// The decimal add where no program is named. A failure is told on standard error, and what cannot be told there is let be.
fn main(rt: HostRuntime) {
    let count = input::arg_count(&rt);
    if 2 < count {
        let _ = eprintln!(rt; "ship: argument 2 is one too many");
        return;
    }
    let mut word = [0u8; 16];
    let deck = if count < 2 {
        Some(Deck::Add)
    } else {
        let n = input::arg(&rt, 1, &mut word);
        Deck::named(&word[..n])
    };
    let Some(deck) = deck else {
        let _ = eprintln!(rt; "ship: argument 1 is neither add, apsp, trap nor readings");
        return;
    };
    if rt.write_all(&deck.bytes()).is_err() {
        let _ = eprintln!(rt; "ship: the deck was not written");
    }
}
