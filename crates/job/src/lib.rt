//! The job: a point improved plane by plane under a price row, until no member is cheaper.
#![tactic(auto)]

pub mod calls;
pub mod job;
pub mod parts;
pub mod reads;
pub mod tickets;
pub mod tries;
