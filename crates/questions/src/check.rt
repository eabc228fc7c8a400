// Whether a table lists the geometry that begins a buffer. It takes the reader's own walk, which compares each row with the table's.
ghost use Rattle.std.specs.Prelude.{◌≡◌};
ghost use Rattle.meaning.specs.Questions.{check};

use reader::rows::Compare;
use reader::walk_outermost;

pub fn check_table(buf: &[u8], table: &[u64]) -> bool
    ensures { result ≡ check buf.now table.now }
{
    let mut compared = Compare { table, same: true };
    match walk_outermost(buf, &mut compared) {
        Ok(end) => end.row.0 <= table.len() / 2 && compared.same,
        Err(_) => false,
    }
}
