//! The words of the subject and its leaves: points, price rows, planes, packed points, refusals.
#![tactic(auto)]

pub mod classes;
pub mod packed;
pub mod packed_rows;
pub mod points;
pub mod prices;
pub mod refusals;
