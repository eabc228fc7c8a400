// What a line of the input asks: `R WORDS HEX`.
ghost use Rattle.std.specs.Prelude.{◌≤◌, length, IfOk};

use std::error::Error;
use std::fmt;
use text::spelt::{bytes_of, number_of};

// The most words that a table may have, and the most bytes that a record may.
pub const MOST_WORDS: usize = 600;

pub const MOST_BYTES: usize = 1_048_576;

// A table of so many words, and a buffer of so many bytes. The bytes stay with the caller that lent them: no struct holds bytes.
#[derive(Clone, Copy, Debug, PartialEq, Eq)]
pub struct Record {
    pub words: usize,
    pub length: usize,
}

// The first part of the line that is not as it should be.
#[derive(Clone, Copy, Debug, PartialEq, Eq)]
pub enum RecordError {
    NoLetter,
    NoWords,
    NoBytes,
}

impl RecordError {
    // The bound is there for callers that have so much room.
    pub fn text(self) -> &'static str
        ensures { length result.now ≤ 80 }
    {
        match self {
            RecordError::NoLetter => "it does not start with R and a space",
            RecordError::NoWords => "after R there is no number of words from 0 to 600",
            RecordError::NoBytes =>
                "after the words there are no bytes in hex, or more than 1048576",
        }
    }
}

impl fmt::Display for RecordError {
    fn fmt<W: fmt::Write>(&self, f: &mut fmt::Formatter<W>) -> fmt::Result {
        f.write_str(self.text())
    }
}

impl Error for RecordError {}

// The bytes are put into `buf`.
pub fn record_of(line: &[u8], buf: &mut [u8]) -> Result<Record, RecordError>
    ensures words { IfOk result (λ r. r.words ≤ MOST_WORDS) }
    ensures length { IfOk result (λ r. r.length ≤ length buf.old) }
{
    let rest = line.strip_prefix(b"R ").ok_or(RecordError::NoLetter)?;
    let mut parts = rest.splitn(2, |&b| b == b' ');
    let words = parts
        .next()
        .and_then(number_of)
        .filter(|&words| words <= MOST_WORDS)
        .ok_or(RecordError::NoWords)?;
    let length = parts
        .next()
        .and_then(|hex| bytes_of(hex, buf))
        .ok_or(RecordError::NoBytes)?;
    Ok(Record { words, length })
}
