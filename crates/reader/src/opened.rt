// A geometry or ring that opened, and closes when its body was read.
ghost use Rattle.std.specs.Prelude.{◌≡◌, ◌≤◌, length, true};
ghost use Rattle.meaning.specs.Grammar.{Header, holds_coordinates};
ghost use Rattle.meaning.proofs.Siblings.{body_of};
ghost use Rattle.reader.specs.Asks.{Heads};
ghost use Rattle.reader.specs.Walk.{closed, Closable, walked, whole};

use crate::body::{Body, coordinates};
use crate::geometry::Head;
use crate::rows::Rows;
use crate::spot::Spot;
use meaning::{Refusal, Row, RowFields};

#[derive(Clone, Copy, Debug, PartialEq, Eq)]
pub struct Opened {
    pub head: Head,
    pub spot: Spot,
    pub level: usize,
}

// Lists its row. `next` is the row behind it and all below it.
pub fn close<R: Rows>(rows: &mut R, opened: Opened, body: Body, next: Row) -> Spot
    requires { Closable opened body next }
    ensures { (result.at ≡ body.end) × (result.row ≡ next) × (rows.new ≡ R.listed rows.old opened.spot.row.0 (closed opened body next)) }
{
    let fields = RowFields {
        kind: opened.head.kind,
        dimension: opened.head.dimension,
        order: opened.head.order,
        srid: opened.head.srid,
        level: opened.level,
        start: opened.spot.at,
        end: body.end,
        count: body.count,
        subtree: next.0 - opened.spot.row.0,
        body: body.start,
    };
    rows.list(opened.spot.row, fields);
    Spot {
        at: body.end,
        row: next,
    }
}

// A Point, a LineString or a ring: a body of coordinates, and no row but its own.
#[inline(always)]
pub fn leaf<R: Rows>(buf: &[u8], rows: &mut R, opened: Opened) -> Result<Spot, Refusal>
    requires { (length buf.now ≤ 1048575) × (opened.spot.at.0 ≤ opened.head.next.0) × (opened.level ≤ 18) × (holds_coordinates opened.head.kind ≡ true) }
    ensures { (h : Header) → Heads h opened.spot.at.0 opened.head → walked result rows.new ≡ whole R.listed opened.spot.row.0 opened.level opened.spot.at.0 rows.old (body_of buf.now 19 h opened.level opened.head.next.0) }
{
    let body = coordinates(buf, opened.head)?;
    Ok(close(rows, opened, body, Row(opened.spot.row.0 + 1)))
}
