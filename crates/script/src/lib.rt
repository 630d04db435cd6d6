//! Scripts: a run of commands checked and turned into the problem that it describes.
#![tactic(auto)]

mod adding;
mod draft;
pub mod parsing;
pub mod problem;
