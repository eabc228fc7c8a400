// Where a walk stands.
ghost use Rattle.std.specs.Prelude.{◌≤◌};

use meaning::{Offset, Row};

// Where a geometry or ring begins, or where a walk over some of them ended: the offset, and the number of the row.
#[derive(Clone, Copy, Debug, PartialEq, Eq)]
pub struct Spot {
    pub at: Offset,
    pub row: Row,
    // each row has bytes of its own
    ghost rows: { row.0 ≤ at.0 },
}
