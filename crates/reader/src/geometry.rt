// A geometry: its header, and then by its kind.
ghost use Rattle.std.specs.Prelude.{◌≡◌, ℕ, ◌+◌, ◌≤◌, length};
ghost use Rattle.meaning.specs.Grammar.{geometries};
ghost use Rattle.meaning.specs.Reading.{header, forest};
ghost use Rattle.reader.specs.Asks.{asks_of, place_meant, head_meant, viewed, opened};
ghost use Rattle.reader.specs.Walk.{walked, whole, Room};

use crate::body::Body;
use crate::geometry_collection::collection;
use crate::linearring::ring;
use crate::opened::{Opened, close, leaf};
use crate::place::{Parent, Place, Siblings, child_fits, inside, srid_fits, too_deep};
use crate::rows::Rows;
use crate::spot::Spot;
use crate::util::{read_u32, there};
use fields::code::{order_of, type_of};
use meaning::{Dimension, Endianness, Kind, Offset, Refusal, Row, WkbType};

// What of a header the walk needs.
#[derive(Clone, Copy, Debug, PartialEq, Eq)]
pub struct Head {
    pub kind: Kind,
    pub dimension: Dimension,
    pub order: Endianness,
    pub srid: bool,
    // the offset behind the code, or behind the SRID
    pub next: Offset,
}

// Inlined, so that the walk has the head in registers.
#[inline(always)]
pub fn header(buf: &[u8], at: Offset, level: usize, parent: Parent) -> Result<Head, Refusal>
    ensures { head_meant result ≡ viewed (header buf.now (geometries (asks_of parent)) level at.0) }
{
    there(buf, at, 1)?;
    let byte = buf[at.0];
    if 1 < byte {
        return Err(Refusal::ByteOrder(at));
    }
    let order = order_of(usize::from(byte));
    let code = Offset(at.0 + 1);
    let Some(t) = type_of(read_u32(buf, code, order)?) else {
        return Err(Refusal::TypeCode(code));
    };
    opened(buf, at, level, parent, order, t)
}

// What is tested once the code is known.
fn opened(
    buf: &[u8],
    at: Offset,
    level: usize,
    parent: Parent,
    order: Endianness,
    t: WkbType,
) -> Result<Head, Refusal>
    requires { at.0 + 5 ≤ length buf.now }
    ensures { (c : ℕ) → head_meant result ≡ viewed (opened buf.now (asks_of parent) level at.0 order c t (at.0 + 1 + 4)) }
{
    let code = Offset(at.0 + 1);
    if !child_fits(parent, t) {
        return Err(Refusal::WrongChild(code));
    }
    if !srid_fits(parent, t) {
        return Err(Refusal::ChildSrid(code));
    }
    if too_deep(level, t) {
        return Err(Refusal::TooDeep(at));
    }
    let mut next = Offset(at.0 + 5);
    if t.srid {
        read_u32(buf, next, order)?;
        next = Offset(at.0 + 9);
    }
    Ok(Head {
        kind: t.kind,
        dimension: t.dimension,
        order,
        srid: t.srid,
        next,
    })
}

// What opens a geometry or ring at a place.
#[tactic(auto, unfolding(meaning::specs::Reading::header))]
#[inline(always)]
fn open(buf: &[u8], at: Offset, place: Place) -> Result<Head, Refusal>
    ensures { head_meant result ≡ viewed (header buf.now (place_meant place.siblings) place.level at.0) }
{
    match place.siblings {
        Siblings::Rings(order, dimension) => Ok(ring(at, order, dimension)),
        Siblings::Geometries(parent) => header(buf, at, place.level, parent),
    }
}

#[cycle(geometry_collection)]
pub fn geometry<R: Rows>(
    buf: &[u8],
    rows: &mut R,
    spot: Spot,
    place: Place,
) -> Result<Spot, Refusal>
    requires { (length buf.now ≤ 1048575) × Room (place_meant place.siblings) place.level }
    ensures { walked result rows.new ≡ whole R.listed spot.row.0 place.level spot.at.0 rows.old (forest buf.now 19 1 (place_meant place.siblings) place.level spot.at.0) }
{
    let head = open(buf, spot.at, place)?;
    let opened = Opened {
        head,
        spot,
        level: place.level,
    };
    match head.kind {
        Kind::Ring | Kind::Point | Kind::LineString => leaf(buf, rows, opened),
        _ => {
            let count = read_u32(buf, head.next, head.order)? as usize;
            let start = Offset(head.next.0 + 4);
            let below = Place {
                siblings: inside(head),
                level: place.level + 1,
            };
            let first = Spot {
                at: start,
                row: Row(spot.row.0 + 1),
            };
            let behind = collection(buf, rows, first, below, count)?;
            let body = Body {
                count,
                start,
                end: behind.at,
            };
            Ok(close(rows, opened, body, behind.row))
        }
    }
}
