// A child's row: from the first child, sibling by sibling. The table may be any, so each row is tested before it is fetched.
ghost use Rattle.std.specs.Prelude.{◌≡◌};
ghost use Rattle.meaning.specs.Answer.{child_meant};
ghost use Rattle.meaning.specs.Questions.{child};

use fields::words::fetch;
use meaning::{Refusal, Row};

#[tactic(auto, using(crate::proofs::Stepping::stepping))]
pub fn child(table: &[u64], row: Row, index: usize) -> Result<Row, Refusal>
    ensures { child_meant result ≡ child table.now row.0 index }
{
    let rows = table.len() / 2;
    if rows <= row.0 {
        return Err(Refusal::Unsound(row));
    }
    let f = fetch(table, row);
    if usize::from(f.kind) < 3 {
        return Err(Refusal::Unsound(row));
    }
    if f.count <= index {
        return Err(Refusal::NotThere(index));
    }
    // each row reached is below the table's rows and below the end of this row's subtree
    let bound = rows.min(row.0 + f.subtree);
    let mut reached = Row(row.0 + 1);
    for _ in 0..index {
        if bound <= reached.0 {
            return Err(Refusal::Unsound(row));
        }
        let subtree = fetch(table, reached).subtree;
        if subtree == 0 {
            return Err(Refusal::Unsound(row));
        }
        reached = Row(reached.0 + subtree);
    }
    if bound <= reached.0 {
        return Err(Refusal::Unsound(row));
    }
    Ok(reached)
}
