// AP and SP, decimal add and subtract with signs: the words of one program for both, and the entry that runs them.
#![tactic(auto)]

ghost use Rattle.std.specs.Prelude.{◌≡◌};
ghost use Rattle.machine.specs.Cycle.{outcome};
ghost use Rattle.apsp.specs.Program.{signed_words};
ghost use Rattle.apsp.specs.Entry.{signed_start, signed_of};
ghost use Rattle.apsp.specs.Promise.{SignedPromise};

use decimal::Added;
use machine::State;
use storage::Fence;

// The stop for done.
pub const DONE: u16 = 0x33;

// The words as packed. What each is for stands in specs/Program.antt.
const WORDS: [u64; 55] = [
    0x0180925F8B7800, // 00
    0x010B925F897801, // 01
    0x020043000C6141, // 02
    0x0880C3000C6141, // 03
    0x020A83401D6180, // 04
    0x048282DF9B7800, // 05
    0x01801100008000, // 06
    0x0200B3801E6140, // 07
    0x01001100108000, // 08
    0x018B93C01F6181, // 09
    0x0780131F9C7900, // 0A
    0x0B00115F807900, // 0B
    0x0780935F9D7980, // 0C
    0x0708439F8E7901, // 0D
    0x070881C0086000, // 0E
    0x088013DF9F7981, // 0F
    0x1355B15F807911, // 10
    0x0B8083400D6180, // 11
    0x088882DF9B7800, // 12
    0x040B9100150181, // 13
    0x15BC93880E7901, // 14
    0x0B0811DB07F000, // 15
    0x0D3291DA0A7000, // 16
    0x0B8083C01F61B4, // 17
    0x01801100008000, // 18
    0x01001100108000, // 19
    0x01001100108000, // 1A
    0x0EE692400B6041, // 1B
    0x10059100000001, // 1C
    0x1085911C06702D, // 1D
    0x10859100100001, // 1E
    0x10059100000001, // 1F
    0x0B08B3800E6168, // 20
    0x0488111C05A888, // 21
    0x108893800C6031, // 22
    0x1A0093C01D6000, // 23
    0x088811D0071FA4, // 24
    0x080811D0177FA4, // 25
    0x080811D01717A5, // 26
    0x088811D00757A4, // 27
    0x16C813C01F6181, // 28
    0x160093C01F6181, // 29
    0x160D93C00F6181, // 2A
    0x16C813C01F6181, // 2B
    0x19003100000100, // 2C
    0x19D8311F801941, // 2D
    0x19D83100000100, // 2E
    0x1A5813800E6140, // 2F
    0x198091DE176801, // 30
    0x19088100000001, // 31
    0x190091DE976801, // 32
    0x01801100008000, // 33
    0x100813C01F61AC, // 34
    0x108092400B6041, // 35
    0x108813C00F61A9, // 36
];

// The words, from address 0 on. Beside decimal's function of this kind, since docs/PROMISES.md names both and their tables differ.
pub fn words() -> [u64; 55]
    ensures { result ≡ signed_words }
{
    WORDS
}

// The state in which the program begins: S0 tells subtract.
pub fn start(a: u16, b: u16, length: u8, subtract: bool) -> State
    ensures { result ≡ signed_start a b length subtract }
{
    decimal::start_with(a, b, length, digits::with_bit(0, 0, subtract))
}

// The first field becomes the sum of both, or the difference. Storage and count are those of the run of the words. Summed has the overflow.
// The storages and the fields' numbers stay parameters, as include/panel.h has them and as the promises speak of each.
pub fn add(
    main: &mut [u8],
    local: &mut [u8],
    first: usize,
    second: usize,
    length: usize,
    subtract: bool,
) -> Added
    ensures run { outcome result main.new local.new ≡ signed_of main.old local.old first second length subtract }
    ensures promise { SignedPromise main.old local.old first second length subtract result main.new local.new }
{
    let status = digits::with_bit(0, 0, subtract);
    decimal::entry(
        Fence::whole(),
        &words(),
        main,
        local,
        first,
        second,
        length,
        status,
        DONE,
    )
}
