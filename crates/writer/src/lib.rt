// The ISO form of a geometry, written in one of the two byte orders.
#![tactic(auto)]

pub mod coords;
pub mod empty_point;
pub mod geometry;
pub mod header;
pub mod row;
pub mod rows;
