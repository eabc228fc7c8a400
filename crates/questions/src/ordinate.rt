// One number of a coordinate.
ghost use Rattle.std.specs.Prelude.{◌≡◌, ◌<◌, ℕ, cond, Ok, Err, Some, OnOk};
ghost use Rattle.meaning.specs.declared.Refusal.TheVariants.{Unsound};
ghost use Rattle.meaning.specs.Code.{axes, size};
ghost use Rattle.meaning.specs.Answer.{option_meant, ordinate_meant};
ghost use Rattle.meaning.specs.Table.{fetch};
ghost use Rattle.meaning.specs.Questions.{ordinate, position, sound};
ghost use Rattle.questions.specs.InRow.{Within, ordinate_of_row};

use fields::code::size;
use fields::number::read;
use fields::words::fetch;
use meaning::{Dimension, Offset, Refusal, Row, RowFields};

// The fields of a row that passes the first test of each question about coordinates.
#[tactic(auto, using(crate::proofs::Narrow::run_fits))]
pub fn sound(buf: &[u8], table: &[u64], row: Row) -> Result<RowFields, Refusal>
    ensures is { result ≡ cond (sound buf.now table.now row.0) (Ok (fetch table.now row.0)) (Err (Unsound row)) }
    ensures within { OnOk result (Within buf.now (fetch table.now row.0)) }
{
    if row.0 < table.len() / 2 {
        let f = fetch(table, row);
        if usize::from(f.kind) <= 2
            && f.body.0 + 8 * size(f.dimension) * f.count <= f.end.0
            && f.end.0 <= buf.len()
        {
            return Ok(f);
        }
    }
    Err(Refusal::Unsound(row))
}

// Where an axis stands in a coordinate. Tests and not one match of both, which would be a jump through a table at each question.
#[tactic(auto, unfolding(meaning::specs::Questions::position))]
fn position(dimension: Dimension, axis: usize) -> Option<usize>
    ensures is { option_meant result ≡ position axis (axes dimension) }
    ensures below { (j : ℕ) → result ≡ Some j → j < size dimension }
{
    if let Dimension::Xyzm = dimension {
        return if axis < 4 { Some(axis) } else { None };
    }
    if axis < 2 {
        return Some(axis);
    }
    if let Dimension::Xym = dimension {
        return if axis == 3 { Some(2) } else { None };
    }
    if axis < size(dimension) {
        Some(axis)
    } else {
        None
    }
}

// One number of a coordinate, where the row passed the first test.
pub(crate) fn ordinate_of_row(
    buf: &[u8],
    f: RowFields,
    index: usize,
    axis: usize,
) -> Result<u64, Refusal>
    requires { Within buf.now f }
    ensures { ordinate_meant result ≡ ordinate_of_row buf.now f index axis }
{
    if f.count <= index {
        return Err(Refusal::NotThere(index));
    }
    let j = position(f.dimension, axis).ok_or(Refusal::NotThere(axis))?;
    let at = f.body.0 + 8 * (size(f.dimension) * index + j);
    Ok(read::<8>(buf, Offset(at), f.order))
}

// The 64 bits of a coordinate's number on an axis: X 0, Y 1, Z 2, M 3. Any axis, index and row may be asked for.
#[tactic(auto, unfolding(meaning::specs::Questions::ordinate))]
#[inline]
pub fn ordinate(
    buf: &[u8],
    table: &[u64],
    row: Row,
    index: usize,
    axis: usize,
) -> Result<u64, Refusal>
    ensures { ordinate_meant result ≡ ordinate buf.now table.now row.0 index axis }
{
    ordinate_of_row(buf, sound(buf, table, row)?, index, axis)
}
