// Bytes that may not be there.
ghost use Rattle.std.specs.Prelude.{◌≡◌, ◌+◌, ◌-◌, cond, leb, length, Ok, Err};
ghost use Rattle.meaning.specs.declared.Refusal.TheVariants.{PastEnd};
ghost use Rattle.meaning.specs.Answer.{meant};
ghost use Rattle.meaning.specs.Reading.{num};

use fields::number::read;
use meaning::{Endianness, Offset, Refusal};

// Whether a field or coordinate run of n bytes is there.
pub fn there(buf: &[u8], at: Offset, n: usize) -> Result<(), Refusal>
    ensures { result ≡ cond (leb n (length buf.now - at.0)) (Ok tt) (Err (PastEnd at)) }
{
    if buf.len().saturating_sub(at.0) < n {
        return Err(Refusal::PastEnd(at));
    }
    Ok(())
}

// The number in the four bytes at an offset.
pub fn read_u32(buf: &[u8], at: Offset, order: Endianness) -> Result<u32, Refusal>
    ensures { meant (λ n. (n, at.0 + 4)) result ≡ num buf.now order 4 at.0 }
{
    there(buf, at, 4)?;
    Ok(read::<4>(buf, at, order) as u32)
}
