// The table that a line spells.
ghost use Rattle.std.specs.Prelude.{◌≤◌, length, IfOk, IfSome};

use crate::error::QuestionError;
use meaning::Prefix;
use reader::read_wkb;

// Words joined by commas, `-` for none, `=` for the rows that reading the buffer gives; there is no buffer in a line that has no bytes.
// The words are put at the start of `table`; the result is how many there are.
pub fn table_of(text: &[u8], buf: Option<&[u8]>, table: &mut [u64]) -> Result<usize, QuestionError>
    ensures { IfOk result (λ n. n ≤ length table.old) }
{
    let Some(after) = text.strip_prefix(b"=") else {
        return words_of(text, table).ok_or(QuestionError::NoTable);
    };
    let buf = buf.ok_or(QuestionError::NoTable)?;
    let Prefix { rows, .. } = read_wkb(buf, table).map_err(QuestionError::NotRead)?;
    // As in a reading, that the table has as many words is not counted on.
    let used = rows.saturating_mul(2).min(table.len());
    if after.is_empty() {
        return Ok(used);
    }
    let more = after
        .strip_prefix(b",")
        .and_then(|text| words_of(text, &mut table[used..]))
        .ok_or(QuestionError::NoTable)?;
    Ok(used + more)
}

fn words_of(text: &[u8], table: &mut [u64]) -> Option<usize>
    ensures { IfSome result (λ n. n ≤ length table.old) }
{
    if text == b"-".as_slice() {
        return Some(0);
    }
    let n = text.split(|&b| b == b',').count();
    let places = table.get_mut(..n)?;
    for (place, word) in places.iter_mut().zip(text.split(|&b| b == b',')) {
        *place = word_of(word)?;
    }
    Some(n)
}

// 16 hex digits.
fn word_of(text: &[u8]) -> Option<u64> {
    let mut bytes = [0; 8];
    hex::decode_to_slice(text, &mut bytes).ok()?;
    Some(u64::from_be_bytes(bytes))
}
