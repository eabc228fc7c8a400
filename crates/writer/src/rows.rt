// The first rows of a table, one behind the other: in reading order, as a geometry's bytes stand.
ghost use Rattle.std.specs.Prelude.{◌≡◌, ◌++◌, length, drop};
ghost use Rattle.meaning.specs.Table.{fetch};
ghost use Rattle.writer.specs.Rows.{rows_bytes, Writable};

use crate::row::write_row;
use fields::words::fetch;
use meaning::{Endianness, Row};

// Answers how many bytes it wrote.
pub fn write_rows(
    buf: &[u8],
    table: &[u64],
    rows: usize,
    order: Endianness,
    out: &mut [u8],
) -> usize
    requires { Writable buf.now table.now order rows (length out.old) }
    ensures { (out.new ≡ rows_bytes buf.now (fetch table.now) order rows ++ drop (length (rows_bytes buf.now (fetch table.now) order rows)) out.old) × (result ≡ length (rows_bytes buf.now (fetch table.now) order rows)) }
{
    let mut at = 0;
    for n in 0..rows {
        at += write_row(buf, fetch(table, Row(n)), order, &mut out[at..]);
    }
    at
}
