// A coordinate's floats together.
ghost use Rattle.std.specs.Prelude.{◌≡◌};
ghost use Rattle.meaning.specs.Answer.{coordinate_meant};
ghost use Rattle.meaning.specs.Questions.{coordinate, float_of};
ghost use Rattle.questions.specs.InRow.{Within, ordinate_of_row};

use crate::ordinate::{ordinate_of_row, sound};
use meaning::{Coordinate, Refusal, Row, RowFields};
use std::num::f64_from_bits_with_nan;

// One of its floats. What the dimension does not carry is positive zero, whose bits are 0.
fn float_in(buf: &[u8], f: RowFields, index: usize, axis: usize) -> f64
    requires { Within buf.now f }
    ensures { result ≡ float_of (ordinate_of_row buf.now f index axis) }
{
    f64_from_bits_with_nan(ordinate_of_row(buf, f, index, axis).unwrap_or(0))
}

// X decides whether it is refused: each dimension carries X, and the other axes can only be absent.
#[tactic(auto, unfolding(meaning::specs::Questions::ordinate))]
pub fn coordinate(buf: &[u8], table: &[u64], row: Row, index: usize) -> Result<Coordinate, Refusal>
    ensures { coordinate_meant result ≡ coordinate buf.now table.now row.0 index }
{
    let f = sound(buf, table, row)?;
    let x = ordinate_of_row(buf, f, index, 0)?;
    Ok(Coordinate {
        dimension: f.dimension,
        x: f64_from_bits_with_nan(x),
        y: float_in(buf, f, index, 1),
        z: float_in(buf, f, index, 2),
        m: float_in(buf, f, index, 3),
    })
}
