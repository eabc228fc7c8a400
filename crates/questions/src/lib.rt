// Questions on a buffer and a table.
#![tactic(auto)]

pub mod check;
pub mod child;
pub mod coordinate;
pub mod coords;
pub mod ordinate;
pub mod srid;
