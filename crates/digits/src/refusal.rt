// The refusals, and the numbers by which C and the texts know them.
ghost use Rattle.std.specs.Prelude.{◌≡◌};
ghost use Rattle.digits.specs.Refusal.{refusal_number, refusal_field};

// Why something is refused. A code that is not modelled comes with its field's place in the word.
#[derive(Clone, Copy)]
pub enum Refusal {
    Size,
    NoWord,
    TopBits,
    Pn,
    Pa,
    Ps,
    Pc,
    TwiceToW,
    Pk,
    NotModelled(u8),
    MainAddress,
    DecimalLength,
    DecimalField,
    Overlap,
    DeckLength,
    BlockNumber,
    BlockShape,
    BlockCheck,
    Room,
    Width,
    WordCount,
    Budget,
    Digit,
    Sign,
    TooLong,
    Owed,
    TrapAddress,
    Fence,
    SignedLength,
    // Any other number, with a field's place: no list of checks has it, and what tells a refusal tells it too.
    Other(u8, u8),
}

impl Refusal {
    // Its number.
    pub fn number(self) -> u8
        ensures { result ≡ refusal_number self }
    {
        match self {
            Refusal::Size => 1,
            Refusal::NoWord => 2,
            Refusal::TopBits => 3,
            Refusal::Pn => 4,
            Refusal::Pa => 5,
            Refusal::Ps => 6,
            Refusal::Pc => 7,
            Refusal::TwiceToW => 8,
            Refusal::Pk => 9,
            Refusal::NotModelled(_) => 10,
            Refusal::MainAddress => 11,
            Refusal::DecimalLength => 12,
            Refusal::DecimalField => 13,
            Refusal::Overlap => 14,
            Refusal::DeckLength => 15,
            Refusal::BlockNumber => 16,
            Refusal::BlockShape => 17,
            Refusal::BlockCheck => 18,
            Refusal::Room => 19,
            Refusal::Width => 20,
            Refusal::WordCount => 21,
            Refusal::Budget => 22,
            Refusal::Digit => 25,
            Refusal::Sign => 26,
            Refusal::TooLong => 27,
            Refusal::Owed => 29,
            Refusal::TrapAddress => 30,
            Refusal::Fence => 32,
            Refusal::SignedLength => 33,
            Refusal::Other(number, _) => number,
        }
    }

    // The place in the word of the field whose code is not modelled, or that another number comes with; else 0, as C has it.
    pub fn field(self) -> u8
        ensures { result ≡ refusal_field self }
    {
        match self {
            Refusal::NotModelled(place) => place,
            Refusal::Other(_, place) => place,
            _ => 0,
        }
    }
}
