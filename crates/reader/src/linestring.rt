// A LineString or a ring: a count and that many coordinates, which are not looked at.
ghost use Rattle.std.specs.Prelude.{◌≡◌};
ghost use Rattle.reader.specs.Body.{body_meant, line_body};

use crate::body::Body;
use crate::geometry::Head;
use crate::util::{read_u32, there};
use fields::code::size;
use meaning::{Offset, Refusal};

pub fn line_string(buf: &[u8], head: Head) -> Result<Body, Refusal>
    ensures { body_meant result ≡ line_body buf.now head }
{
    let count = read_u32(buf, head.next, head.order)? as usize;
    let start = Offset(head.next.0 + 4);
    let bytes = 8 * size(head.dimension) * count;
    there(buf, start, bytes)?;
    Ok(Body {
        count,
        start,
        end: Offset(start.0 + bytes),
    })
}
