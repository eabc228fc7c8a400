// What opens a geometry: the order byte and the ISO code.
ghost use Rattle.std.specs.Prelude.{◌≡◌, ◌++◌, ◌≤◌, cond, length, drop};
ghost use Rattle.meaning.specs.declared.Kind.TheVariants.{Ring};
ghost use Rattle.meaning.specs.Code.{same_kind};
ghost use Rattle.meaning.specs.Grammar.{Header, header_bytes};
ghost use Rattle.meaning.specs.Writer.{iso_header};

use fields::code::iso_code;
use fields::number::write;
use meaning::{Dimension, Endianness, Kind, Offset};

// Answers how many bytes it wrote: none for a ring, which has neither and needs no room.
pub fn write_header(kind: Kind, dimension: Dimension, order: Endianness, out: &mut [u8]) -> usize
    requires { cond (same_kind kind Ring) 0 5 ≤ length out.old }
    ensures written { (h : Header) → h.kind ≡ kind → h.dimension ≡ dimension → out.new ≡ header_bytes (iso_header order h) ++ drop (length (header_bytes (iso_header order h))) out.old }
    ensures length { (h : Header) → h.kind ≡ kind → h.dimension ≡ dimension → result ≡ length (header_bytes (iso_header order h)) }
{
    if let Kind::Ring = kind {
        return 0;
    }
    out[0] = usize::from(order) as u8;
    write::<4>(out, Offset(1), order, u64::from(iso_code(kind, dimension)));
    5
}
