//! Listed sets, kind letter L: the members are the listed packed points.
#![tactic(auto)]

ghost use Rattle.std.specs.Prelude.{◌≡◌, ℕ, ◌^◌, ◌<◌, ◌≤◌, [], length, take, ◌≤ℤ◌, ◌<ℤ◌, Decides, MatchOption, MatchResult, slice_index_or};
ghost use Rattle.rows.specs.Packed.{bit_at, unpacked};
ghost use Rattle.rows.specs.Prices.{price};
ghost use Rattle.rows.specs.Refusals.{Passes, RefusedBy};
ghost use Rattle.augmenter.specs.Questions.{Answered};
ghost use Rattle.listed.specs.Lists.{ListedIn, ClearRows, StrayRow, making_checks};
ghost use Rattle.std.proofs.Common.{rules};

use augmenter::answers::Answer;
use augmenter::{Augmenter, shared_checks};
use rows::packed::{Packed, pack, stray_bit, unpack};
use rows::packed_rows::PackedRows;
use rows::points::{LARGEST_DIMENSION, is_point};
use rows::prices::price;
use rows::refusals::{Fault, Refusal};

/// The largest reach.
pub const LARGEST_REACH: u64 = 0xff_ffff_ffff;

/// A set of points by a list of them, packed. Equal rows count as one.
#[derive(Clone, Copy)]
pub struct Listed {
    n: usize,
    limit: u64,
    rows: PackedRows,
    ghost small: { n ≤ 128 },
    ghost near: { limit < 2 ^ 40 },
    ghost clear: { ClearRows n (take rows.count rows.slots) },
}

/// The index of the first row with a bit from coordinate `n` on, if there is one.
fn stray_row(rows: &[Packed], n: usize) -> Option<usize>
    ensures { MatchOption result (ClearRows n rows.now) (λ k. StrayRow n rows.now k) }
{
    rows.iter().position(|row| stray_bit(row, n).is_some())
}

impl Listed {
    /// The set of the listed points of dimension `n`, for price rows of weight up to `reach`.
    pub fn new(n: usize, reach: u64, rows: &[Packed]) -> Result<Listed, Refusal>
        ensures { MatchResult result (λ l. Passes (making_checks n reach rows.now) × (l.n ≡ n) × (l.limit ≡ reach) × (take l.rows.count l.rows.slots ≡ rows.now)) (λ e. RefusedBy (making_checks n reach rows.now) e) }
    {
        if n > LARGEST_DIMENSION {
            return Err(Fault::Dimension.at(0));
        }
        let kept = PackedRows::of(rows).ok_or(Fault::TooMany.at(0))?;
        if reach > LARGEST_REACH {
            return Err(Fault::Reach.at(0));
        }
        if let Some(place) = stray_row(rows, n) {
            return Err(Fault::OutOfRange.at(place));
        }
        Ok(Listed {
            n,
            limit: reach,
            rows: kept,
        })
    }
}

/// The price of a packed point of the price row's dimension.
fn packed_price(row: &Packed, prices: &[i64]) -> i128
    requires { length prices.now ≤ 128 }
    ensures { result ≡ price prices.now (unpacked (length prices.now) row.now) }
{
    let mut scratch = [0u8; LARGEST_DIMENSION];
    let marks = &mut scratch[0..prices.len()];
    unpack(row, marks);
    price(prices, marks)
}

/// The first row that costs less than `limit`, if there is one.
fn first_cheaper<'a>(rows: &'a [Packed], prices: &[i64], limit: i128) -> Option<&'a Packed>
    requires { length prices.now ≤ 128 }
    ensures { MatchOption result ((k : ℕ) → k < length rows.now → limit ≤ℤ price prices.now (unpacked (length prices.now) (slice_index_or rows.now k []))) (λ row. ((k : ℕ) × (k < length rows.now) × (row.now ≡ slice_index_or rows.now k [])) × (price prices.now (unpacked (length prices.now) row.now) <ℤ limit)) }
{
    rows.iter().find(|row| packed_price(row, prices) < limit)
}

/// Writes the first row that is cheaper than the point to the output row, if there is one.
fn write_cheaper(rows: &[Packed], prices: &[i64], point: &[u8], out: &mut [u8]) -> Answer
    requires small { length prices.now ≤ 128 }
    requires room { length out.old ≡ length prices.now }
    requires clear { ClearRows (length prices.now) rows.now }
    ensures { Answered (ListedIn (length prices.now) rows.now) prices.now point.now out.old out.new result }
{
    match first_cheaper(rows, prices, price(prices, point)) {
        Some(row) => {
            unpack(row, out);
            Answer::Found
        }
        None => Answer::Nothing,
    }
}

impl Augmenter for Listed {
    const KIND: u8 = b'L';

    ghost KIND = { 76 };

    ghost dim = { λ a. a.n };

    ghost reaches = { λ a. a.limit };

    ghost Member = { λ a x. ListedIn a.n (take a.rows.count a.rows.slots) x };

    ghost dim_fits = { Prim.search rules };

    ghost reach_fits = { Prim.search rules };

    ghost member_is_point = { Prim.search rules };

    fn dimension(&self) -> usize {
        self.n
    }

    fn reach(&self) -> u64 {
        self.limit
    }

    fn belongs(&self, row: &[u8]) -> bool {
        is_point(row, self.n) && self.rows.as_slice().contains(&pack(row))
    }

    fn better(&self, prices: &[i64], point: &[u8], out: &mut [u8]) -> Result<Answer, Refusal> {
        // not in a function over every set: tried, and such a call from an impl of the trait gets no proof
        shared_checks(self.n, self.limit, prices, point, out.len())?;
        if !self.belongs(point) {
            return Err(Fault::NotMember.at(0));
        }
        Ok(write_cheaper(self.rows.as_slice(), prices, point, out))
    }
}
