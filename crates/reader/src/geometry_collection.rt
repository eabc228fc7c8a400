// Siblings one after the other: rings, or the full geometries below kinds 4 to 7. Calls, and is called by, the dispatch over kinds; the
// bytes left fall.
ghost use Rattle.std.specs.Prelude.{◌≡◌, ◌≤◌, length};
ghost use Rattle.meaning.specs.Reading.{forest};
ghost use Rattle.reader.specs.Asks.{place_meant};
ghost use Rattle.reader.specs.Walk.{walked, whole, Room};

use crate::geometry::geometry;
use crate::linearring::rings;
use crate::place::{Place, Siblings};
use crate::rows::Rows;
use crate::spot::Spot;
use meaning::Refusal;

#[cycle(geometry_collection)]
pub fn collection<R: Rows>(
    buf: &[u8],
    rows: &mut R,
    first: Spot,
    place: Place,
    count: usize,
) -> Result<Spot, Refusal>
    requires { (length buf.now ≤ 1048575) × Room (place_meant place.siblings) place.level }
    ensures { walked result rows.new ≡ whole R.listed first.row.0 place.level first.at.0 rows.old (forest buf.now 19 count (place_meant place.siblings) place.level first.at.0) }
{
    if let Siblings::Rings(order, dimension) = place.siblings {
        return rings(buf, rows, first, place.level, order, dimension, count);
    }
    let mut spot = first;
    for _ in 0..count {
        spot = geometry(buf, rows, spot, place)?;
    }
    Ok(spot)
}
