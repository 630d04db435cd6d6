ghost use Rattle.std.specs.Prelude.{◌≡◌, ℕ, ◌<◌};
ghost use Rattle.job.specs.declared.parts.State.TheVariants.{Open};

use crate::parts::{Ledger, State, Ticketing, Totals};
use augmenter::Augmenter;
use rows::points::Padded;

/// A job over an augmenter.
///
/// That it is sound stands in clauses and is no ghost field: tried, but a field's fact must be a proposition, which membership of a set need not be.
#[derive(Drop)]
pub struct Job<A: Augmenter> {
    pub(crate) below: A,
    pub(crate) number: u32,
    pub(crate) state: State,
    /// point and prices are rows of the dimension below, in fixed memory since nothing allocates
    pub(crate) point: Padded<u8>,
    pub(crate) prices: Padded<i64>,
    pub(crate) totals: Totals,
    pub(crate) ledger: Ledger,
    pub(crate) ticketing: Ticketing,
    ghost plane_low: { (k j : ℕ) → state ≡ Open k j → k < 40 },
}
