// The fields of geometries and rows: numbers in either byte order, type codes, and the two words of a row.
#![tactic(auto)]

pub mod code;
pub mod number;
pub mod words;
