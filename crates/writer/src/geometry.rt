// The writer: whatever the buffer and the table hold, it checks them first.
ghost use Rattle.std.specs.Prelude.{◌≡◌};
ghost use Rattle.meaning.specs.Answer.{write_meant};
ghost use Rattle.meaning.specs.Writer.{write_geometry};

use crate::rows::write_rows;
use fields::words::fetch;
use meaning::{Endianness, Refusal, Row};
use questions::check::check_table;

pub fn write_geometry(
    buf: &[u8],
    table: &[u64],
    order: Endianness,
    out: &mut [u8],
) -> Result<usize, Refusal>
    ensures { (write_meant result, out.new) ≡ write_geometry buf.now table.now order out.old }
{
    if !check_table(buf, table) {
        return Err(Refusal::Unsound(Row(0)));
    }
    let outermost = fetch(table, Row(0));
    // the ISO form has no SRID
    let needed = outermost.end.0 - 4 * usize::from(outermost.srid);
    if out.len() < needed {
        return Err(Refusal::OutputTooShort(needed));
    }
    write_rows(buf, table, outermost.subtree, order, out);
    Ok(needed)
}
