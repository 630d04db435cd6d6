ghost use Rattle.std.specs.Prelude.{◌≡◌, ℕ, ◌^◌, ◌<◌, slice_index_or};
ghost use Rattle.augmenter.specs.Questions.{Cheapest};
ghost use Rattle.job.specs.declared.parts.State.TheVariants.{Open, Finished};
ghost use Rattle.job.specs.Views.{IsBegun, blank_line, margin_at, left_at};
ghost use Rattle.job.specs.Soundness.{Near, left};
ghost use Rattle.job.specs.Jobs.{view, SoundJob};

use crate::job::Job;
use crate::parts::{Line, State, Totals};
use augmenter::Augmenter;
use rows::prices::{ones_below, remainders};

/// The line of a plane, one with nothing on it beyond the last.
fn line_at(lines: &[Line], plane: usize) -> Line
    ensures { result ≡ slice_index_or lines.now plane blank_line }
{
    lines.get(plane).copied().unwrap_or_default()
}

fn power(plane: u32) -> u64
    requires { plane < 40 }
    ensures { result ≡ 2 ^ plane }
{
    1 << plane
}

/// The margin with a plane open, after this many improvements.
fn open_margin(prices: &[i64], plane: u32, improved: u32) -> u128
    requires { plane < 40 }
    ensures { result ≡ margin_at prices.now (Open plane improved) }
{
    let gained = u128::from(improved) * u128::from(power(plane));
    remainders(prices, plane + 1).saturating_sub(gained)
}

/// The most questions still to come with a plane open, after this many improvements.
fn open_left(prices: &[i64], plane: u32, improved: u32) -> u128
    requires { plane < 40 }
    ensures { result ≡ left_at prices.now (Open plane improved) }
{
    let most = ones_below(prices, plane + 1) + u128::from(plane + 1);
    most.saturating_sub(u128::from(improved))
}

impl<A: Augmenter> Job<A> {
    pub fn number(&self) -> u32
        ensures { result ≡ self.now.number }
    {
        self.number
    }

    /// Whether the job has begun, which plane is open, whether it is finished.
    pub fn state(&self) -> State
        ensures { result ≡ self.now.state }
    {
        self.state
    }

    pub fn totals(&self) -> Totals
        ensures { result ≡ self.now.totals }
    {
        self.totals
    }

    /// What was counted at a plane of the present row; planes above 39 read as zeros.
    pub fn line(&self, plane: u32) -> Line
        ensures { result ≡ slice_index_or (view self.now).ledger plane blank_line }
    {
        line_at(&self.ledger.lines, plane as usize)
    }

    /// The job's point, a row of zeros before it has begun.
    pub fn point(&self) -> &[u8]
        ensures is { result.now ≡ (view self.now).point }
        ensures member { SoundJob self.now → IsBegun self.now.state → A.Member self.now.below result.now }
        ensures cheapest { SoundJob self.now → self.now.state ≡ Finished → Cheapest (A.Member self.now.below) (view self.now).prices result.now }
    {
        let n = self.below.dimension();
        &self.point[..n]
    }

    /// The present price row, a row of zeros before the job has begun.
    pub fn prices(&self) -> &[i64]
        ensures { result.now ≡ (view self.now).prices }
    {
        let n = self.below.dimension();
        &self.prices[..n]
    }

    /// By how much a member can be cheaper than the job's point at most, 0 unless a plane is open.
    pub fn margin(&self) -> u128
        ensures is { result ≡ margin_at (view self.now).prices self.now.state }
        ensures near { SoundJob self.now → IsBegun self.now.state → Near (A.Member self.now.below) (view self.now) result }
    {
        match self.state {
            State::Open { plane, improved } => open_margin(self.prices(), plane, improved),
            State::NotBegun | State::Finished => 0,
        }
    }

    /// The most questions still to come for the present row, 0 unless a plane is open.
    pub fn questions_left(&self) -> u128
        ensures { result ≡ left (view self.now) }
    {
        match self.state {
            State::Open { plane, improved } => open_left(self.prices(), plane, improved),
            State::Finished | State::NotBegun => 0,
        }
    }
}
