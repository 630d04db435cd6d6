//! Worked cases that need several crates, run as tests.
#![tactic(auto)]

#[cfg(test)]
mod jobs;
#[cfg(test)]
mod listed_sets;
#[cfg(test)]
mod price_rows;
#[cfg(test)]
mod tickets;

#[cfg(test)]
use listed::Listed;
#[cfg(test)]
use rows::packed::{Packed, pack};
#[cfg(test)]
use rows::refusals::Refusal;

/// The two rows of the pair.
#[cfg(test)]
fn two() -> [Packed; 2] {
    [pack(&[1, 0]), pack(&[0, 1])]
}

/// The listed set of two rows that most cases plan over.
#[cfg(test)]
fn pair() -> Result<Listed, Refusal> {
    Listed::new(2, 8, &two())
}

/// The number and the place of a refusal, if there is one.
#[cfg(test)]
fn refused<T: Drop>(r: Result<T, Refusal>) -> Option<(u8, usize)> {
    r.err()
        .map(|refusal| (u8::from(refusal.fault), refusal.place))
}
