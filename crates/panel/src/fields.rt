// Bytes to the fields of a word and back.
ghost use Rattle.std.specs.Prelude.{◌≡◌, ◌≤◌, length};
ghost use Rattle.digits.specs.Lent.{over};
ghost use Rattle.panel.specs.Fields.{field_bytes, fields_in};

use digits::byte_at;
use word::Fields;

// The fields that stand in word order, one to a byte.
pub(crate) fn fields_in(bytes: &[u8]) -> Fields
    ensures { result ≡ fields_in bytes.now }
{
    Fields {
        cn: byte_at(bytes, 0),
        ch: byte_at(bytes, 1),
        cl: byte_at(bytes, 2),
        cm: byte_at(bytes, 3),
        cu: byte_at(bytes, 4),
        ca: byte_at(bytes, 5),
        aa: byte_at(bytes, 6),
        cb: byte_at(bytes, 7),
        ck: byte_at(bytes, 8),
        ak: byte_at(bytes, 9),
        pk: byte_at(bytes, 10),
        cd: byte_at(bytes, 11),
        cf: byte_at(bytes, 12),
        cg: byte_at(bytes, 13),
        cv: byte_at(bytes, 14),
        cc: byte_at(bytes, 15),
        cs: byte_at(bytes, 16),
        asb: byte_at(bytes, 17),
    }
}

// The bytes of fields, in word order.
fn field_bytes(f: Fields) -> [u8; 18]
    ensures { result ≡ field_bytes f }
{
    [
        f.cn, f.ch, f.cl, f.cm, f.cu, f.ca, f.aa, f.cb, f.ck, f.ak, f.pk, f.cd, f.cf, f.cg, f.cv,
        f.cc, f.cs, f.asb,
    ]
}

// Puts fields in word order, one to a byte.
pub(crate) fn put_fields(f: Fields, bytes: &mut [u8])
    requires { 18 ≤ length bytes.old }
    ensures { bytes.new ≡ over (field_bytes f) bytes.old }
{
    digits::copy(&field_bytes(f), bytes);
}
