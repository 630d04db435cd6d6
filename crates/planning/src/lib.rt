//! From the bytes of a script to the bytes of its answer: a plan, or one refusal.
#![tactic(auto)]

pub mod answer;
pub mod answering;
