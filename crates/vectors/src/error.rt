// What is wrong with a line that asks a question.
ghost use Rattle.std.specs.Prelude.{◌≤◌, length};

use meaning::Refusal;
use std::error::Error;
use std::fmt;

// The first thing that is wrong with the line: its letter, how many fields there are, the numbers, the bytes, the table.
#[derive(Clone, Copy, Debug, PartialEq, Eq)]
pub enum QuestionError {
    NoLetter,
    Fields,
    NoRow,
    NoIndex,
    NoAxis,
    NoBytes,
    LongForPart,
    NoTable,
    // the table is to come from reading the bytes, which are refused
    NotRead(Refusal),
}

impl QuestionError {
    // The bound is there for callers that have so much room. A refusal has a text of its own.
    pub fn text(self) -> &'static str
        ensures { length result.now ≤ 80 }
    {
        match self {
            QuestionError::NoLetter => {
                "it does not start with one of R, C, O, K, P, F, D, S and a space"
            }
            QuestionError::Fields => "it has too few fields, or too many",
            QuestionError::NoRow => "ROW is no number below 2^64",
            QuestionError::NoIndex => "INDEX is no number below 2^64",
            QuestionError::NoAxis => "AXIS is no number below 2^64",
            QuestionError::NoBytes => "HEX is no bytes in hex, or more than 1048576",
            QuestionError::LongForPart => "HEX is more than 5000 bytes, too many for P",
            QuestionError::NoTable => "TABLE is no words of 16 hex digits, or more than 600",
            QuestionError::NotRead(_) => "HEX is refused",
        }
    }
}

impl fmt::Display for QuestionError {
    fn fmt<W: fmt::Write>(&self, f: &mut fmt::Formatter<W>) -> fmt::Result {
        match self {
            QuestionError::NotRead(refusal) => write!(f, "{refusal}"),
            _ => f.write_str(self.text()),
        }
    }
}

impl Error for QuestionError {}
