//! The augmenter: asked for a member cheaper than a point, it writes one or says that there is none.
#![tactic(auto)]

ghost use Rattle.std.specs.Prelude.{◌≡◌, ℕ, ◌^◌, ◌<◌, ◌≤◌, List, Decides};
ghost use Rattle.rows.specs.Points.{Point};
ghost use Rattle.augmenter.specs.Questions.{Better, Screened, shared_checks, row_checks};

pub mod answers;

use answers::Answer;
use rows::points::{bad_mark, first_above};
use rows::prices::weight;
use rows::refusals::{Fault, Refusal};

/// A set of points of one dimension, its members, with a reach that bounds the weight of the price rows it takes.
///
/// Dimension, reach and set never alter; the kind letter belongs to the make.
pub trait Augmenter {
    /// The kind letter of the make. A byte and no enum: a make elsewhere has a letter of its own.
    const KIND: u8;

    ghost KIND: { ℕ };

    ghost dim: { Self → ℕ };

    ghost reaches: { Self → ℕ };

    ghost Member: { Self → List ℕ → Type 0 };

    fn dimension(&self) -> usize
        ensures { result ≡ dim self.now };

    /// The largest weight of a price row that is not refused.
    fn reach(&self) -> u64
        ensures { result ≡ reaches self.now };

    /// Whether a row is a member. One of another length, or with a byte above 1, is not.
    fn belongs(&self, row: &[u8]) -> bool
        ensures { Decides result (Member self.now row.now) };

    /// Writes a member cheaper than the point to the output row, or says that there is none.
    fn better(&self, prices: &[i64], point: &[u8], out: &mut [u8]) -> Result<Answer, Refusal>
        ensures { Better (dim self.now) (reaches self.now) (Member self.now) prices.now point.now out.old out.new result };

    ghost dim_fits: { (a : Self) → dim a ≤ 128 };

    ghost reach_fits: { (a : Self) → reaches a < 2 ^ 40 };

    ghost member_is_point: { (a : Self) (x : List ℕ) → Member a x → Point (dim a) x };
}

/// The checks of a question that are the same for every set: lengths, marks, weight, in this order.
/// `room` is the length of the output row.
pub fn shared_checks(
    n: usize,
    reach: u64,
    prices: &[i64],
    point: &[u8],
    room: usize,
) -> Result<(), Refusal>
    ensures { Screened (shared_checks n reach prices.now point.now room) result }
{
    if prices.len() != n || point.len() != n || room != n {
        return Err(Fault::Length.at(0));
    }
    if let Some(place) = bad_mark(point) {
        return Err(Fault::Mark.at(place));
    }
    if weight(prices) > u128::from(reach) {
        return Err(Fault::Weight.at(0));
    }
    Ok(())
}

/// The checks of a row that a layer is made with: its length, and that no byte is above `most`.
pub fn check_row(n: usize, row: &[u8], most: u8) -> Result<(), Refusal>
    ensures { Screened (row_checks n most row.now) result }
{
    if row.len() != n {
        return Err(Fault::Length.at(0));
    }
    match first_above(row, most) {
        Some(place) => Err(Fault::Mark.at(place)),
        None => Ok(()),
    }
}
