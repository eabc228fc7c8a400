// What stands behind a header.
ghost use Rattle.std.specs.Prelude.{◌≡◌};
ghost use Rattle.reader.specs.Body.{body_meant, coordinates_body};

use crate::geometry::Head;
use crate::linestring::line_string;
use crate::point::point;
use meaning::{Kind, Offset, Refusal};

// A body that was read: how many coordinates or children it counts, where they begin, and where they end.
#[derive(Clone, Copy, Debug, PartialEq, Eq)]
pub struct Body {
    pub count: usize,
    pub start: Offset,
    pub end: Offset,
}

// The body of a Point, a LineString or a ring. Inlined, so that the loop over rings, where the kind is known, has no test of it.
#[inline(always)]
pub fn coordinates(buf: &[u8], head: Head) -> Result<Body, Refusal>
    ensures { body_meant result ≡ coordinates_body buf.now head }
{
    match head.kind {
        Kind::Point => point(buf, head),
        _ => line_string(buf, head),
    }
}
