// The part of the buffer that holds a row's coordinates, and how to read it.
ghost use Rattle.std.specs.Prelude.{◌≡◌};
ghost use Rattle.meaning.specs.Answer.{form_meant};
ghost use Rattle.meaning.specs.Questions.{coords_form, coords_slice};

use crate::ordinate::sound;
use fields::code::size;
use meaning::{Form, Refusal, Row};

// The part itself, of any buffer and table; the empty part where the first test fails.
pub fn coords_slice<'a>(buf: &'a [u8], table: &[u64], row: Row) -> &'a [u8]
    ensures { result.now ≡ coords_slice buf.now table.now row.0 }
{
    match sound(buf, table, row) {
        Ok(f) => {
            let bytes = 8 * size(f.dimension) * f.count;
            &buf[f.body.0..][..bytes]
        }
        Err(_) => &buf[..0],
    }
}

// Its order and count.
pub fn coords_form(buf: &[u8], table: &[u64], row: Row) -> Result<Form, Refusal>
    ensures { form_meant result ≡ coords_form buf.now table.now row.0 }
{
    let f = sound(buf, table, row)?;
    Ok(Form {
        order: f.order,
        count: f.count,
    })
}
