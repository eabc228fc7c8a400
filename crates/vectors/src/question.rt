// What a line asks: a letter, and numbers that say of what.
use crate::error::QuestionError;
use meaning::Row;
use text::spelt::number_of;

#[derive(Clone, Copy, Debug, PartialEq, Eq)]
pub enum Question {
    Check,
    Ordinate { row: Row, index: usize, axis: usize },
    Coordinate { row: Row, index: usize },
    Part(Row),
    Form(Row),
    Child { row: Row, index: usize },
    Srid,
}

// The question by its letter and the fields behind the table, and which of them holds the bytes, if any does.
pub fn question_of(
    letter: u8,
    fields: [Option<&[u8]>; 5],
) -> Result<(Question, Option<&[u8]>), QuestionError> {
    Ok(match (letter, fields) {
        (b'C', [Some(hex), None, ..]) => (Question::Check, Some(hex)),
        (b'O', [Some(row), Some(index), Some(axis), Some(hex), None]) => {
            let row = row_of(row)?;
            let index = index_of(index)?;
            let axis = number_of(axis).ok_or(QuestionError::NoAxis)?;
            (Question::Ordinate { row, index, axis }, Some(hex))
        }
        (b'K', [Some(row), Some(index), Some(hex), None, ..]) => {
            let row = row_of(row)?;
            let index = index_of(index)?;
            (Question::Coordinate { row, index }, Some(hex))
        }
        (b'P', [Some(row), Some(hex), None, ..]) => (Question::Part(row_of(row)?), Some(hex)),
        (b'F', [Some(row), Some(hex), None, ..]) => (Question::Form(row_of(row)?), Some(hex)),
        (b'D', [Some(row), Some(index), None, ..]) => {
            let row = row_of(row)?;
            let index = index_of(index)?;
            (Question::Child { row, index }, None)
        }
        (b'S', [Some(hex), None, ..]) => (Question::Srid, Some(hex)),
        (b'C' | b'O' | b'K' | b'P' | b'F' | b'D' | b'S', _) => return Err(QuestionError::Fields),
        _ => return Err(QuestionError::NoLetter),
    })
}

fn row_of(text: &[u8]) -> Result<Row, QuestionError> {
    number_of(text).map(Row).ok_or(QuestionError::NoRow)
}

fn index_of(text: &[u8]) -> Result<usize, QuestionError> {
    number_of(text).ok_or(QuestionError::NoIndex)
}
