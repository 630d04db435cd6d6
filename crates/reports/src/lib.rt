//! What the programs print alike: a row of marks, why a program ends early, and how it then ends.
#![tactic(auto)]

pub mod ending;
pub mod failures;
pub mod marks;
