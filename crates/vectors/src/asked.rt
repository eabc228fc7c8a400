// A line of the input that asks a question of a buffer and a table, which it spells: a letter, and fields as docs/VECTORS.md lists them.
ghost use Rattle.std.specs.Prelude.{◌≤◌, length, IfOk};
ghost use Rattle.vectors.specs.Room.{PartFits};

use crate::error::QuestionError;
use crate::question::{Question, question_of};
use crate::table::table_of;
use std::array;
use text::spelt::bytes_of;

// The most bytes of a buffer whose coordinate part is asked for: the part, which is no longer, is written in one line.
pub const MOST_FOR_PART: usize = 5_000;

// The question, of a buffer of so many bytes and a table of so many words, which stay with the caller that lent them.
#[derive(Clone, Copy, Debug, PartialEq, Eq)]
pub struct Asked {
    pub question: Question,
    pub length: usize,
    pub words: usize,
}

// The bytes are put into `buf`, and then the words, which may come from them, into `table`.
pub fn asked_of(line: &[u8], buf: &mut [u8], table: &mut [u64]) -> Result<Asked, QuestionError>
    ensures length { IfOk result (λ a. a.length ≤ length buf.old) }
    ensures words { IfOk result (λ a. a.words ≤ length table.old) }
    ensures part { IfOk result (λ a. PartFits a.question a.length) }
{
    let [letter, b' ', rest @ ..] = line else {
        return Err(QuestionError::NoLetter);
    };
    let mut parts = rest.split(|&b| b == b' ');
    let text = parts.next().ok_or(QuestionError::Fields)?;
    // four at most, and one more shows that there are too many
    let fields: [Option<&[u8]>; 5] = array::from_fn(|_| parts.next());
    let (question, hex) = question_of(*letter, fields)?;
    let length = match hex {
        Some(hex) => bytes_of(hex, buf).ok_or(QuestionError::NoBytes)?,
        None => 0,
    };
    if matches!(question, Question::Part(_)) && MOST_FOR_PART < length {
        return Err(QuestionError::LongForPart);
    }
    let words = table_of(text, hex.map(|_| &buf[..length]), table)?;
    Ok(Asked {
        question,
        length,
        words,
    })
}
