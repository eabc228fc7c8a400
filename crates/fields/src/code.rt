// Type codes and dimensions.
ghost use Rattle.std.specs.Prelude.{◌≡◌, ◌&&◌, cond, leb, Some, None};
ghost use Rattle.meaning.specs.Answer.{type_meant};
ghost use Rattle.meaning.specs.Reading.{order_of};
ghost use Rattle.meaning.specs.Code.{kind_of, dimension_of, flagged_type, iso_code, iso_type, size, type_of};

use meaning::{Dimension, Endianness, Kind, WkbType};

// The flags are the three highest bits of a code. So a code below the lowest has none, and the other 29 bits are what is left of a
// division by it.
const EWKB_FLAG_Z: u32 = 0x80000000;

const EWKB_FLAG_M: u32 = 0x40000000;

const EWKB_FLAG_SRID: u32 = 0x20000000;

// What a type code says. The codes with no flag are the common ones, and come first.
#[tactic(auto, unfolding(meaning::specs::Code::type_of))]
pub fn type_of(code: u32) -> Option<WkbType>
    ensures { type_meant result ≡ type_of code }
{
    if code < EWKB_FLAG_SRID {
        return iso_type(code);
    }
    flagged_type(code)
}

fn iso_type(code: u32) -> Option<WkbType>
    ensures { type_meant result ≡ iso_type code }
{
    let thousands = code / 1000;
    if 3 < thousands {
        return None;
    }
    Some(WkbType {
        kind: kind_in_code(code % 1000)?,
        dimension: dimension_of(thousands as usize),
        srid: false,
    })
}

fn flagged_type(code: u32) -> Option<WkbType>
    ensures { type_meant result ≡ flagged_type code }
{
    let z = code / EWKB_FLAG_Z % 2;
    let m = code / EWKB_FLAG_M % 2;
    Some(WkbType {
        kind: kind_in_code(code % EWKB_FLAG_SRID)?,
        dimension: dimension_of((z + 2 * m) as usize),
        srid: code / EWKB_FLAG_SRID % 2 == 1,
    })
}

// The kind of this number in a code: 1 to 7.
fn kind_in_code(t: u32) -> Option<Kind>
    ensures { result ≡ cond (leb 1 t && leb t 7) (Some (kind_of t)) None }
{
    if !(1..=7).contains(&t) {
        return None;
    }
    Some(kind_of(t as usize))
}

// How many ordinates a coordinate has: two, and one each for Z and M. It stands in each question, where a match would be a table in memory.
pub fn size(d: Dimension) -> usize
    ensures { result ≡ size d }
{
    2 + (usize::from(d) + 1) / 2
}

// The code of a kind and dimension, with no flag.
pub fn iso_code(kind: Kind, d: Dimension) -> u32
    ensures { result ≡ iso_code kind d }
{
    (1000 * usize::from(d) + usize::from(kind)) as u32
}

// This and the two below answer every number, as their definitions do, so they are no `TryFrom`, and no `From` either: that says that nothing
// is lost.
pub fn kind_of(k: usize) -> Kind
    ensures { result ≡ kind_of k }
{
    match k {
        0 => Kind::Ring,
        1 => Kind::Point,
        2 => Kind::LineString,
        3 => Kind::Polygon,
        4 => Kind::MultiPoint,
        5 => Kind::MultiLineString,
        6 => Kind::MultiPolygon,
        _ => Kind::GeometryCollection,
    }
}

pub fn dimension_of(k: usize) -> Dimension
    ensures { result ≡ dimension_of k }
{
    match k {
        0 => Dimension::Xy,
        1 => Dimension::Xyz,
        2 => Dimension::Xym,
        _ => Dimension::Xyzm,
    }
}

pub fn order_of(x: usize) -> Endianness
    ensures { result ≡ order_of x }
{
    match x {
        0 => Endianness::BigEndian,
        _ => Endianness::LittleEndian,
    }
}
