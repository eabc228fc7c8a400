// One row: its header, its count, and its coordinates. Its children are rows of their own, which stand behind it.
ghost use Rattle.std.specs.Prelude.{◌≡◌, ◌++◌, ◌≤◌, length, drop};
ghost use Rattle.writer.specs.Rows.{row_count, row_ordinates, row_bytes, Within};

use crate::coords::write_coordinates;
use crate::empty_point::write_empty_point;
use crate::header::write_header;
use fields::code::size;
use fields::number::write;
use meaning::{Endianness, Kind, Offset, RowFields};

// Each function answers how many bytes it wrote. A Point has no count.
fn write_count(kind: Kind, count: usize, order: Endianness, out: &mut [u8]) -> usize
    requires { length (row_count order kind count) ≤ length out.old }
    ensures { (out.new ≡ row_count order kind count ++ drop (length (row_count order kind count)) out.old) × (result ≡ length (row_count order kind count)) }
{
    if let Kind::Point = kind {
        return 0;
    }
    write::<4>(out, Offset(0), order, count as u64);
    4
}

fn write_ordinates(buf: &[u8], row: RowFields, order: Endianness, out: &mut [u8]) -> usize
    requires { Within buf.now row × (length (row_ordinates buf.now order row) ≤ length out.old) }
    ensures { (out.new ≡ row_ordinates buf.now order row ++ drop (length (row_ordinates buf.now order row)) out.old) × (result ≡ length (row_ordinates buf.now order row)) }
{
    if 2 < usize::from(row.kind) {
        return 0;
    }
    if row.count == 0 {
        if let Kind::Point = row.kind {
            write_empty_point(row.dimension, order, out);
            return 8 * size(row.dimension);
        }
    }
    let length = 8 * size(row.dimension) * row.count;
    write_coordinates(&buf[row.body.0..][..length], row.order, order, out);
    length
}

pub fn write_row(buf: &[u8], row: RowFields, order: Endianness, out: &mut [u8]) -> usize
    requires { Within buf.now row × (length (row_bytes buf.now order row) ≤ length out.old) }
    ensures { (out.new ≡ row_bytes buf.now order row ++ drop (length (row_bytes buf.now order row)) out.old) × (result ≡ length (row_bytes buf.now order row)) }
{
    let counted = write_header(row.kind, row.dimension, order, out);
    let body = counted + write_count(row.kind, row.count, order, &mut out[counted..]);
    body + write_ordinates(buf, row, order, &mut out[body..])
}
