// A run of coordinates, in the order asked for. It is one run of 8-byte numbers, whatever the dimension.
ghost use Rattle.std.specs.Prelude.{ℕ, ◌≡◌, ◌++◌, ◌≤◌, ◌*◌, ◌/◌, ◌%◌, length, drop};
ghost use Rattle.meaning.specs.declared.Endianness.TheVariants.{BigEndian, LittleEndian};
ghost use Rattle.meaning.specs.Grammar.{ordinate_bytes};
ghost use Rattle.meaning.specs.Reading.{coordinates_in};
ghost use Rattle.writer.specs.Rewritten.{rewritten};

use fields::number::{read, write};
use meaning::{Endianness, Offset};

// The bytes of each number from the last to the first: from big to little is the same as from little to big. Taken as big and put as little,
// the loads of a number become one, and so do its stores; the other way they do not.
#[tactic(auto, using(crate::proofs::Running::rewritten_none, crate::proofs::Running::rewritten_next))]
fn swap(part: &[u8], out: &mut [u8])
    requires { (length part.now % 8 ≡ 0) × (length part.now ≤ length out.old) }
    ensures { out.new ≡ rewritten BigEndian LittleEndian (length part.now / 8) part.now ++ drop (length part.now) out.old }
{
    for n in 0..part.len() / 8 {
        let at = Offset(8 * n);
        write::<8>(
            out,
            at,
            Endianness::LittleEndian,
            read::<8>(part, at, Endianness::BigEndian),
        );
    }
}

// The part holds n coordinates of s numbers each, for any s and n whose product with 8 is its length.
pub fn write_coordinates(part: &[u8], from: Endianness, order: Endianness, out: &mut [u8])
    requires { (length part.now % 8 ≡ 0) × (length part.now ≤ length out.old) }
    ensures { (s n : ℕ) → length part.now ≡ 8 * s * n → out.new ≡ ordinate_bytes order (coordinates_in from s n part.now) ++ drop (length part.now) out.old }
{
    if from == order {
        out[..part.len()].copy_from_slice(part);
    } else {
        swap(part, out);
    }
}
