// The microword: its fields, its parity, and the refusals 20 and 3 to 9.
#![tactic(auto)]

ghost use Rattle.std.specs.Prelude.{◌≡◌, ◌+◌, ◌-◌, ◌*◌, ◌%◌, ◌^◌, ◌<◌, eqb};
ghost use Rattle.std.specs.Int.Bits.{bit_and};
ghost use Rattle.std.specs.Int.Count.{ones};
ghost use Rattle.digits.specs.Line.{join};
ghost use Rattle.digits.specs.Refusal.{first};
ghost use Rattle.word.specs.Layout.{widths, line_of, fields_of, line};
ghost use Rattle.word.specs.Parity.{pa_wrong, pk_wrong, ca_to_w, k_to_w, is_return};
ghost use Rattle.word.specs.Word.{k_checks, fault_of, taken_apart, in_width, packed};

use digits::{Refusal, first_of};

// The 18 fields other than PN, PA, PS and PC. `asb` is AS, whose name is a word of the language.
#[derive(Clone, Copy)]
pub struct Fields {
    pub cn: u8,
    pub ch: u8,
    pub cl: u8,
    pub cm: u8,
    pub cu: u8,
    pub ca: u8,
    pub aa: u8,
    pub cb: u8,
    pub ck: u8,
    pub ak: u8,
    pub pk: u8,
    pub cd: u8,
    pub cf: u8,
    pub cg: u8,
    pub cv: u8,
    pub cc: u8,
    pub cs: u8,
    pub asb: u8,
}

// The bits that each parity bit covers, with the bit itself. PK covers CA and AA, or CK.
const PN: u64 = 0x7F_0000_0000_0000;

const PA: u64 = 0x8000_0000_0000;

const PS: u64 = 0xFFFF_DFB0_0000;

const PC: u64 = 0xF_FFFF;

const PK_OF_CA: u64 = 0x3_E020_0000;

const PK_OF_CK: u64 = 0x7A0_0000;

// The 18 fields of any word, refused or not.
pub fn fields_of(word: u64) -> Fields
    ensures { result ≡ fields_of word }
{
    Fields {
        cn: (word / 0x2_0000_0000_0000 % 64) as u8,
        ch: (word / 0x800_0000_0000 % 16) as u8,
        cl: (word / 0x80_0000_0000 % 16) as u8,
        cm: (word / 0x10_0000_0000 % 8) as u8,
        cu: (word / 0x4_0000_0000 % 4) as u8,
        ca: (word / 0x4000_0000 % 16) as u8,
        aa: (word / 0x2000_0000 % 2) as u8,
        cb: (word / 0x800_0000 % 4) as u8,
        ck: (word / 0x80_0000 % 16) as u8,
        ak: (word / 0x40_0000 % 2) as u8,
        pk: (word / 0x20_0000 % 2) as u8,
        cd: (word / 0x1_0000 % 16) as u8,
        cf: (word / 0x2000 % 8) as u8,
        cg: (word / 0x800 % 4) as u8,
        cv: (word / 0x200 % 4) as u8,
        cc: (word / 0x40 % 8) as u8,
        cs: (word / 0x4 % 16) as u8,
        asb: (word / 0x2 % 2) as u8,
    }
}

// An even number of ones stands under the mask: the parity is wrong.
fn even(word: u64, mask: u64) -> bool
    ensures { result ≡ eqb (ones (bit_and word mask) % 2) 0 }
{
    (word & mask).count_ones() % 2 == 0
}

#[tactic(auto, using(crate::proofs::Masks::pa_under))]
fn pa_wrong(word: u64, address: u32) -> bool
    ensures { result ≡ pa_wrong address (line_of word) }
{
    ((address % 4096).count_ones() + (word & PA).count_ones()) % 2 == 0
}

// CL = 2: CA is a module number, for W.
fn ca_to_w(word: u64) -> bool
    ensures { result ≡ ca_to_w (fields_of word) }
{
    word / 0x80_0000_0000 % 16 == 2
}

// The word sends K to W. This and the next are two rules of the machine by name; one function of the code 2 or 3 would be no plainer.
fn k_to_w(word: u64) -> bool
    ensures { result ≡ k_to_w (fields_of word) }
{
    (word / 0x10_0000_0000 % 8 < 3) & (word / 0x4_0000_0000 % 4 == 2)
}

// The word returns from a trap.
fn is_return(word: u64) -> bool
    ensures { result ≡ is_return (fields_of word) }
{
    (word / 0x10_0000_0000 % 8 < 3) & (word / 0x4_0000_0000 % 4 == 3)
}

#[tactic(auto, using(crate::proofs::Masks::ca_under, crate::proofs::Masks::ck_under))]
fn pk_wrong(word: u64) -> bool
    ensures { result ≡ pk_wrong (line_of word) }
{
    (ca_to_w(word) & even(word, PK_OF_CA)) | (k_to_w(word) & even(word, PK_OF_CK))
}

// 8 or 9, if either.
fn k_fault(word: u64) -> Option<Refusal>
    ensures { result ≡ first (k_checks (line_of word)) }
{
    first_of(
        ca_to_w(word) & (k_to_w(word) | is_return(word)),
        Some(Refusal::TwiceToW),
        first_of(pk_wrong(word), Some(Refusal::Pk), None),
    )
}

// 3 to 9, if any: how the word is refused at the address.
#[tactic(auto, using(crate::proofs::Masks::pn_under, crate::proofs::Masks::ps_under, crate::proofs::Masks::pc_under), unfolding(crate::specs::Word::fault_of))]
pub fn fault(word: u64, address: u32) -> Option<Refusal>
    ensures { result ≡ fault_of word address }
{
    let seven = first_of(even(word, PC), Some(Refusal::Pc), k_fault(word));
    let six = first_of(even(word, PS), Some(Refusal::Ps), seven);
    let five = first_of(pa_wrong(word, address), Some(Refusal::Pa), six);
    let four = first_of(even(word, PN), Some(Refusal::Pn), five);
    first_of(0x80_0000_0000_0000 <= word, Some(Refusal::TopBits), four)
}

// The 18 fields, or 20, or 3 to 9.
#[tactic(auto, unfolding(crate::specs::Word::taken_apart, crate::specs::Word::fault_of))]
pub fn take_apart(word: u64, address: u32) -> Result<Fields, Refusal>
    ensures { result ≡ taken_apart word address }
{
    match first_of(4095 < address, Some(Refusal::Width), fault(word, address)) {
        Some(refusal) => Err(refusal),
        None => Ok(fields_of(word)),
    }
}

// No field is beyond its width: from the low end up.
#[tactic(auto, unfolding(crate::specs::Word::in_width))]
fn in_width(f: Fields) -> bool
    ensures { result ≡ in_width f }
{
    let fits = f.asb < 2;
    let fits = (f.cs < 16) & fits;
    let fits = (f.cc < 8) & fits;
    let fits = (f.cv < 4) & fits;
    let fits = (f.cg < 4) & fits;
    let fits = (f.cf < 8) & fits;
    let fits = (f.cd < 16) & fits;
    let fits = (f.pk < 2) & fits;
    let fits = (f.ak < 2) & fits;
    let fits = (f.ck < 16) & fits;
    let fits = (f.cb < 4) & fits;
    let fits = (f.aa < 2) & fits;
    let fits = (f.ca < 16) & fits;
    let fits = (f.cu < 4) & fits;
    let fits = (f.cm < 8) & fits;
    let fits = (f.cl < 16) & fits;
    let fits = (f.ch < 16) & fits;
    (f.cn < 64) & fits
}

// The bits of CN to CK.
fn upper(f: Fields) -> u64
    ensures { result ≡ f.cn * 2 ^ 49 + f.ch * 2 ^ 43 + f.cl * 2 ^ 39 + f.cm * 2 ^ 36 + f.cu * 2 ^ 34 + f.ca * 2 ^ 30 + f.aa * 2 ^ 29 + f.cb * 2 ^ 27 + f.ck * 2 ^ 23 }
{
    f.cn as u64 * 0x2_0000_0000_0000
        + f.ch as u64 * 0x800_0000_0000
        + f.cl as u64 * 0x80_0000_0000
        + f.cm as u64 * 0x10_0000_0000
        + f.cu as u64 * 0x4_0000_0000
        + f.ca as u64 * 0x4000_0000
        + f.aa as u64 * 0x2000_0000
        + f.cb as u64 * 0x800_0000
        + f.ck as u64 * 0x80_0000
}

// The bits of AK to AS.
fn lower(f: Fields) -> u64
    ensures { result ≡ f.ak * 2 ^ 22 + f.pk * 2 ^ 21 + f.cd * 2 ^ 16 + f.cf * 2 ^ 13 + f.cg * 2 ^ 11 + f.cv * 2 ^ 9 + f.cc * 2 ^ 6 + f.cs * 2 ^ 2 + f.asb * 2 ^ 1 }
{
    f.ak as u64 * 0x40_0000
        + f.pk as u64 * 0x20_0000
        + f.cd as u64 * 0x1_0000
        + f.cf as u64 * 0x2000
        + f.cg as u64 * 0x800
        + f.cv as u64 * 0x200
        + f.cc as u64 * 0x40
        + f.cs as u64 * 0x4
        + f.asb as u64 * 0x2
}

// The word of the fields, with 0 for the four parity bits.
fn bare(f: Fields) -> u64
    ensures { result ≡ join widths (line f 0 0 0 0) }
{
    upper(f) + lower(f)
}

// The bit that makes the number of ones under the mask odd.
fn odd_bit(word: u64, mask: u64) -> u64
    ensures { result ≡ 1 - ones (bit_and word mask) % 2 }
{
    (1 - (word & mask).count_ones() % 2) as u64
}

// A word that has 0 for its four parity bits, with them.
fn with_parity(word: u64, address: u32) -> u64
    requires { word < 2 ^ 55 }
    ensures { result ≡ word + (1 - ones (bit_and word 0x7F_0000_0000_0000) % 2) * 2 ^ 48 + (1 - ones (address % 4096) % 2) * 2 ^ 47 + (1 - ones (bit_and (word + (1 - ones (address % 4096) % 2) * 2 ^ 47) 0xFFFF_DFB0_0000) % 2) * 2 ^ 20 + (1 - ones (bit_and word 0xF_FFFF) % 2) }
{
    let pn = odd_bit(word, PN);
    let pa = (1 - (address % 4096).count_ones() % 2) as u64;
    let ps = odd_bit(word + pa * 0x8000_0000_0000, PS);
    let pc = odd_bit(word, PC);
    word + pn * 0x1_0000_0000_0000 + pa * 0x8000_0000_0000 + ps * 0x10_0000 + pc
}

// The word of the fields, or 20, 8, 9.
pub fn pack(fields: Fields, address: u32) -> Result<u64, Refusal>
    ensures { result ≡ packed fields address }
{
    if (4095 < address) | !in_width(fields) {
        return Err(Refusal::Width);
    }
    let word = bare(fields);
    match k_fault(word) {
        Some(refusal) => Err(refusal),
        None => Ok(with_parity(word, address)),
    }
}
