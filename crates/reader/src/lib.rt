// Bytes to table.
#![tactic(auto)]

pub mod body;
pub mod geometry;
pub mod geometry_collection;
pub mod linearring;
pub mod linestring;
pub mod opened;
pub mod place;
pub mod point;
pub mod rows;
pub mod spot;
pub mod util;

ghost use Rattle.std.specs.Prelude.{◌≡◌};
ghost use Rattle.meaning.specs.Answer.{read_meant};
ghost use Rattle.meaning.specs.Reading.{reading};
ghost use Rattle.meaning.specs.Table.{read_wkb};
ghost use Rattle.reader.specs.Walk.{walked, whole};

use geometry::geometry;
use meaning::{Offset, Prefix, Refusal, Row};
use place::Place;
use rows::{Count, Fill, Rows};
use spot::Spot;

// The longest buffer that is read.
pub const LONGEST: usize = 1048575;

// Walks over the geometry that begins the buffer.
pub fn walk_outermost<R: Rows>(buf: &[u8], rows: &mut R) -> Result<Spot, Refusal>
    ensures { walked result rows.new ≡ whole R.listed 0 0 0 rows.old (reading buf.now) }
{
    if LONGEST < buf.len() {
        return Err(Refusal::TooLong);
    }
    let start = Spot {
        at: Offset(0),
        row: Row(0),
    };
    geometry(buf, rows, start, Place::OUTERMOST)
}

// Reads the geometry that begins the buffer, and lists it in the table. A refusal leaves the table as it was, so the walk goes twice: once
// to see that all is good and how many rows there are, and once to fill the rows.
pub fn read_wkb(buf: &[u8], table: &mut [u64]) -> Result<Prefix, Refusal>
    ensures { (read_meant result, table.new) ≡ read_wkb buf.now table.old }
{
    let end = walk_outermost(buf, &mut Count)?;
    let rows = end.row.0;
    if table.len() / 2 < rows {
        return Err(Refusal::TooFewRows(rows));
    }
    let mut filled = Fill { table };
    walk_outermost(buf, &mut filled)?;
    Ok(Prefix {
        length: end.at.0,
        rows,
    })
}
