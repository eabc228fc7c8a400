// The types that callers see. What each answer means in the paper's numbers is given in specs/Answer.antt.
#![tactic(auto)]

use std::error::Error;
use std::fmt;

// The byte that opens a geometry: 0 big, 1 little.
#[derive(Clone, Copy, Debug, PartialEq, Eq, Hash)]
pub enum Endianness {
    BigEndian,
    LittleEndian,
}

// 0 big, 1 little. The bound is there for callers that compute with it.
impl From<Endianness> for usize {
    ghost use Rattle.std.specs.Prelude.{◌≡◌, ◌≤◌};
    ghost use Rattle.meaning.specs.Number.{order_byte};

    ghost from_gives = { λ o n. (n ≡ order_byte o) × (n ≤ 1) };

    fn from(order: Endianness) -> usize {
        order as usize
    }
}

#[derive(Clone, Copy, Debug, PartialEq, Eq, Hash)]
pub enum Dimension {
    Xy,
    Xyz,
    Xym,
    Xyzm,
}

// 0 to 3. The bound is there for callers that compute with it.
impl From<Dimension> for usize {
    ghost use Rattle.std.specs.Prelude.{◌≡◌, ◌≤◌};
    ghost use Rattle.meaning.specs.Code.{dimension_number};

    ghost from_gives = { λ d n. (n ≡ dimension_number d) × (n ≤ 3) };

    fn from(dimension: Dimension) -> usize {
        dimension as usize
    }
}

impl Dimension {
    ghost use Rattle.std.specs.Prelude.{◌≡◌, ◌≤◌, length};
    ghost use Rattle.meaning.specs.Printed.{dimension_name};

    // The bound is there for callers that have so much room.
    pub fn name(self) -> &'static str
        ensures value { result.now ≡ dimension_name self }
        ensures short { length result.now ≤ 4 }
    {
        match self {
            Dimension::Xy => "Xy",
            Dimension::Xyz => "Xyz",
            Dimension::Xym => "Xym",
            Dimension::Xyzm => "Xyzm",
        }
    }
}

impl fmt::Display for Dimension {
    ghost use Rattle.std.specs.Prelude.{Some};
    ghost use Rattle.meaning.specs.Printed.{dimension_name};

    ghost output = { λ d. Some (dimension_name d) };

    fn fmt<W: fmt::Write>(&self, f: &mut fmt::Formatter<W>) -> fmt::Result {
        f.write_str(self.name())
    }
}

// Kinds 0 to 7; a ring has no code of its own.
#[derive(Clone, Copy, Debug, PartialEq, Eq, Hash)]
pub enum Kind {
    Ring,
    Point,
    LineString,
    Polygon,
    MultiPoint,
    MultiLineString,
    MultiPolygon,
    GeometryCollection,
}

// 0 to 7. The bound is there for callers that compute with it.
impl From<Kind> for usize {
    ghost use Rattle.std.specs.Prelude.{◌≡◌, ◌≤◌};
    ghost use Rattle.meaning.specs.Code.{kind_number};

    ghost from_gives = { λ k n. (n ≡ kind_number k) × (n ≤ 7) };

    fn from(kind: Kind) -> usize {
        kind as usize
    }
}

impl Kind {
    ghost use Rattle.std.specs.Prelude.{◌≡◌, ◌≤◌, length};
    ghost use Rattle.meaning.specs.Printed.{kind_name};

    // The bound is there for callers that have so much room.
    pub fn name(self) -> &'static str
        ensures value { result.now ≡ kind_name self }
        ensures short { length result.now ≤ 18 }
    {
        match self {
            Kind::Ring => "Ring",
            Kind::Point => "Point",
            Kind::LineString => "LineString",
            Kind::Polygon => "Polygon",
            Kind::MultiPoint => "MultiPoint",
            Kind::MultiLineString => "MultiLineString",
            Kind::MultiPolygon => "MultiPolygon",
            Kind::GeometryCollection => "GeometryCollection",
        }
    }
}

impl fmt::Display for Kind {
    ghost use Rattle.std.specs.Prelude.{Some};
    ghost use Rattle.meaning.specs.Printed.{kind_name};

    ghost output = { λ k. Some (kind_name k) };

    fn fmt<W: fmt::Write>(&self, f: &mut fmt::Formatter<W>) -> fmt::Result {
        f.write_str(self.name())
    }
}

// What a type code says: a kind, which is no ring, a dimension, and whether an SRID follows.
#[derive(Clone, Copy, Debug, PartialEq, Eq, Hash)]
pub struct WkbType {
    pub kind: Kind,
    pub dimension: Dimension,
    pub srid: bool,
}

// The number of a row of the table. Not an offset: each has its own type, so that neither is taken for the other.
#[derive(Clone, Copy, Debug, PartialEq, Eq, PartialOrd, Ord, Hash)]
pub struct Row(pub usize);

// The place of a byte in the buffer.
#[derive(Clone, Copy, Debug, PartialEq, Eq, PartialOrd, Ord, Hash)]
pub struct Offset(pub usize);

// The fields of one row of the table, out of its two words.
#[derive(Clone, Copy, Debug, PartialEq, Eq, Hash)]
pub struct RowFields {
    pub kind: Kind,
    pub dimension: Dimension,
    pub order: Endianness,
    pub srid: bool,
    pub level: usize,
    pub start: Offset,
    pub end: Offset,
    pub count: usize,
    pub subtree: usize,
    pub body: Offset,
}

// Why a call was refused, and where.
#[derive(Clone, Copy, Debug, PartialEq, Eq, Hash)]
pub enum Refusal {
    // 1: the buffer is longer than 1,048,575 bytes
    TooLong,
    // 2: a field or coordinate run goes past the buffer
    PastEnd(Offset),
    // 3: the order byte is above 1
    ByteOrder(Offset),
    // 4: the type code is not allowed
    TypeCode(Offset),
    // 5: the child's kind or dimension does not fit its parent
    WrongChild(Offset),
    // 6: a child carries an SRID
    ChildSrid(Offset),
    // 7: a collection stands too deep
    TooDeep(Offset),
    // 8: the table has too few rows; how many are needed
    TooFewRows(usize),
    // 9: the table does not bear this question
    Unsound(Row),
    // 10: there is no such index or axis
    NotThere(usize),
    // 11: the output is too short; how many bytes are needed
    OutputTooShort(usize),
}

impl Refusal {
    ghost use Rattle.std.specs.Prelude.{◌≡◌};
    ghost use Rattle.meaning.specs.Answer.{numbered};

    // Number and place.
    pub fn numbered(self) -> (usize, usize)
        ensures { result ≡ numbered self }
    {
        match self {
            Refusal::TooLong => (1, 0),
            Refusal::PastEnd(at) => (2, at.0),
            Refusal::ByteOrder(at) => (3, at.0),
            Refusal::TypeCode(at) => (4, at.0),
            Refusal::WrongChild(at) => (5, at.0),
            Refusal::ChildSrid(at) => (6, at.0),
            Refusal::TooDeep(at) => (7, at.0),
            Refusal::TooFewRows(rows) => (8, rows),
            Refusal::Unsound(row) => (9, row.0),
            Refusal::NotThere(number) => (10, number),
            Refusal::OutputTooShort(bytes) => (11, bytes),
        }
    }
}

impl fmt::Display for Refusal {
    ghost use Rattle.std.specs.Prelude.{Some};
    ghost use Rattle.meaning.specs.Printed.{refusal_text};

    ghost output = { λ x. Some (refusal_text x) };

    fn fmt<W: fmt::Write>(&self, f: &mut fmt::Formatter<W>) -> fmt::Result {
        let (number, place) = self.numbered();
        write!(f, "refused {number} {place}")
    }
}

impl Error for Refusal {}

// The prefix that the reader accepted: its length, and how many rows list it.
#[derive(Clone, Copy, Debug, PartialEq, Eq, Hash)]
pub struct Prefix {
    pub length: usize,
    pub rows: usize,
}

// A coordinate's floats together; what the dimension does not carry is positive zero.
#[derive(Clone, Copy, Debug, PartialEq)]
pub struct Coordinate {
    pub dimension: Dimension,
    pub x: f64,
    pub y: f64,
    pub z: f64,
    pub m: f64,
}

// How to read a coordinate part: its byte order and how many coordinates it holds.
#[derive(Clone, Copy, Debug, PartialEq, Eq, Hash)]
pub struct Form {
    pub order: Endianness,
    pub count: usize,
}
