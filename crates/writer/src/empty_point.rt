// What stands for an empty point: the same NaN in each ordinate, whatever NaNs stood in the input.
ghost use Rattle.std.specs.Prelude.{◌≡◌, ◌∷◌, [], ◌++◌, ◌≤◌, ◌*◌, length, drop, replicate};
ghost use Rattle.meaning.specs.Code.{size};
ghost use Rattle.meaning.specs.Grammar.{ordinate_bytes};

use fields::code::size;
use fields::number::write;
use meaning::{Dimension, Endianness, Offset};

// The bits of Rust's `f64::NAN`.
const NAN_BITS: u64 = 0x7FF8_0000_0000_0000;

#[tactic(auto, using(crate::proofs::Running::repeated_next))]
pub fn write_empty_point(dimension: Dimension, order: Endianness, out: &mut [u8])
    requires { 8 * size dimension ≤ length out.old }
    ensures { out.new ≡ ordinate_bytes order (replicate (size dimension) 0x7FF8_0000_0000_0000 ∷ []) ++ drop (8 * size dimension) out.old }
{
    for n in 0..size(dimension) {
        write::<8>(out, Offset(8 * n), order, NAN_BITS);
    }
}
