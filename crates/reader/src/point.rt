// A Point: one coordinate, whose ordinates are looked at for NaN.
ghost use Rattle.std.specs.Prelude.{◌≡◌, cond, ◌+◌, ◌*◌, ◌≤◌, length};
ghost use Rattle.meaning.specs.Grammar.{is_nan};
ghost use Rattle.reader.specs.Body.{all_nan, body_meant, point_body};

use crate::body::Body;
use crate::geometry::Head;
use crate::util::there;
use fields::code::size;
use fields::number::read;
use meaning::{Endianness, Offset, Refusal};

// An exponent of all ones and a fraction that is not all zero, of either sign. The library's way to a float makes this very test.
fn is_nan(bits: u64) -> bool
    ensures { result ≡ is_nan bits }
{
    0x7FF0_0000_0000_0000 < bits % 0x8000_0000_0000_0000
}

// How many coordinates a Point of n ordinates counts for: none if all of them are NaN.
fn point_count(buf: &[u8], at: Offset, n: usize, order: Endianness) -> usize
    requires { at.0 + 8 * n ≤ length buf.now }
    ensures { result ≡ cond (all_nan buf.now order n at.0) 0 1 }
{
    for i in 0..n {
        if !is_nan(read::<8>(buf, Offset(at.0 + 8 * i), order)) {
            return 1;
        }
    }
    0
}

pub fn point(buf: &[u8], head: Head) -> Result<Body, Refusal>
    ensures { body_meant result ≡ point_body buf.now head }
{
    let start = head.next;
    let ordinates = size(head.dimension);
    there(buf, start, 8 * ordinates)?;
    Ok(Body {
        count: point_count(buf, start, ordinates, head.order),
        start,
        end: Offset(start.0 + 8 * ordinates),
    })
}
