//! Commands in bytes: one letter, and an operand whose width the letter decides. A reader, a writer, and that each undoes the other.
#![tactic(auto)]

pub mod command;
pub mod numbers;
pub mod reader;
pub mod writer;
