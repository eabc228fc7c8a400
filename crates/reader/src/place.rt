// Where siblings stand, and what that asks of each: made from their parent in one place, and tested in one place.
ghost use Rattle.std.specs.Prelude.{◌≡◌};
ghost use Rattle.meaning.specs.Grammar.{Header, inside, fits, srid_fits, too_deep};
ghost use Rattle.reader.specs.Asks.{asks_of, head_of, place_meant};

use crate::geometry::Head;
use meaning::{Dimension, Endianness, Kind, WkbType};

#[derive(Clone, Copy, Debug, PartialEq, Eq)]
pub enum Parent {
    NoParent,
    // kinds 4 to 6: the kind and dimension of each child
    Multi(Kind, Dimension),
    Collection,
}

#[derive(Clone, Copy, Debug, PartialEq, Eq)]
pub enum Siblings {
    // rings have their polygon's order and dimension
    Rings(Endianness, Dimension),
    Geometries(Parent),
}

// What siblings stand at a place, and its level.
#[derive(Clone, Copy, Debug, PartialEq, Eq)]
pub struct Place {
    pub siblings: Siblings,
    pub level: usize,
}

impl Place {
    pub const OUTERMOST: Place = Place {
        siblings: Siblings::Geometries(Parent::NoParent),
        level: 0,
    };
}

// The children of a geometry of kind 3 to 7.
#[tactic(auto, unfolding(meaning::specs::Grammar::inside))]
pub fn inside(head: Head) -> Siblings
    ensures { (h : Header) → head_of h head.next.0 ≡ head → inside h ≡ place_meant result }
{
    match head.kind {
        Kind::Polygon => Siblings::Rings(head.order, head.dimension),
        Kind::MultiPoint => Siblings::Geometries(Parent::Multi(Kind::Point, head.dimension)),
        Kind::MultiLineString => Siblings::Geometries(Parent::Multi(
            Kind::LineString,
            head.dimension,
        )),
        Kind::MultiPolygon => Siblings::Geometries(Parent::Multi(Kind::Polygon, head.dimension)),
        _ => Siblings::Geometries(Parent::Collection),
    }
}

// Whether the kind and dimension fit.
pub fn child_fits(parent: Parent, t: WkbType) -> bool
    ensures { result ≡ fits (asks_of parent) t }
{
    match parent {
        Parent::Multi(kind, dimension) => t.kind == kind && t.dimension == dimension,
        Parent::NoParent | Parent::Collection => true,
    }
}

// Whether an SRID may stand there, if there is one.
pub fn srid_fits(parent: Parent, t: WkbType) -> bool
    ensures { result ≡ srid_fits (asks_of parent) t }
{
    parent == Parent::NoParent || !t.srid
}

// A collection stands at most at level 15.
pub fn too_deep(level: usize, t: WkbType) -> bool
    ensures { result ≡ too_deep level t }
{
    t.kind == Kind::GeometryCollection && 16 <= level
}
