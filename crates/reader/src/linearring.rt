// The rings of a polygon, one after the other. A ring has its polygon's order and dimension, and no header.
ghost use Rattle.std.specs.Prelude.{◌≡◌, ◌≤◌, length};
ghost use Rattle.meaning.specs.Grammar.{ring_header, rings};
ghost use Rattle.meaning.specs.Reading.{forest};
ghost use Rattle.reader.specs.Asks.{head_of};
ghost use Rattle.reader.specs.Walk.{walked, whole, Room};

use crate::geometry::Head;
use crate::opened::{Opened, leaf};
use crate::rows::Rows;
use crate::spot::Spot;
use meaning::{Dimension, Endianness, Kind, Offset, Refusal};

pub fn ring(at: Offset, order: Endianness, dimension: Dimension) -> Head
    ensures { result ≡ head_of (ring_header order dimension) at.0 }
{
    Head {
        kind: Kind::Ring,
        dimension,
        order,
        srid: false,
        next: at,
    }
}

pub fn rings<R: Rows>(
    buf: &[u8],
    rows: &mut R,
    first: Spot,
    level: usize,
    order: Endianness,
    dimension: Dimension,
    count: usize,
) -> Result<Spot, Refusal>
    requires { (length buf.now ≤ 1048575) × Room (rings order dimension) level }
    ensures { walked result rows.new ≡ whole R.listed first.row.0 level first.at.0 rows.old (forest buf.now 19 count (rings order dimension) level first.at.0) }
{
    let mut spot = first;
    for _ in 0..count {
        let head = ring(spot.at, order, dimension);
        spot = leaf(buf, rows, Opened { head, spot, level })?;
    }
    Ok(spot)
}
