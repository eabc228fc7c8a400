// The SRID of the outermost geometry, which row 0 lists.
ghost use Rattle.std.specs.Prelude.{◌≡◌};
ghost use Rattle.meaning.specs.Answer.{srid_meant};
ghost use Rattle.meaning.specs.Questions.{srid};

use fields::number::read;
use fields::words::fetch;
use meaning::{Offset, Refusal, Row};

#[tactic(auto, using(crate::proofs::Narrow::start_below))]
pub fn srid(buf: &[u8], table: &[u64]) -> Result<Option<u32>, Refusal>
    ensures { srid_meant result ≡ srid buf.now table.now }
{
    let outermost = Row(0);
    if table.len() / 2 == 0 {
        return Err(Refusal::Unsound(outermost));
    }
    let f = fetch(table, outermost);
    if !f.srid {
        return Ok(None);
    }
    if buf.len() < f.start.0 + 9 {
        return Err(Refusal::Unsound(outermost));
    }
    Ok(Some(read::<4>(buf, Offset(f.start.0 + 5), f.order) as u32))
}
