//! Pinned sets: a layer over any set, by a row of pins.
//!
//! A point is a member if it is one below and agrees with every 0 and 1 of the row; 2 leaves a coordinate free.
#![tactic(auto)]

ghost use Rattle.std.specs.Prelude.{◌≡◌, ◌^◌, ◌<◌, ◌≤◌, length, take, Decides, MatchOption, MatchResult};
ghost use Rattle.rows.specs.Prices.{weight};
ghost use Rattle.rows.specs.Refusals.{Passes, RefusedBy};
ghost use Rattle.augmenter.specs.Questions.{Screened};
ghost use Rattle.pinned.specs.Pins.{Keeps, PinnedIn, is_pin, pin_count, reach_over, asked, asked_prices, prices_below, making_checks};
ghost use Rattle.std.proofs.Common.{rules};

use augmenter::answers::Answer;
use augmenter::{Augmenter, check_row, shared_checks};
use rows::points::{LARGEST_DIMENSION, Padded, padded};
use rows::prices::weight;
use rows::refusals::{Fault, Refusal};

/// A set below, pinned by a row of 0, 1 or 2. Dimension and kind are those below.
#[derive(Drop)]
pub struct Pinned<A> {
    below: A,
    /// a row of the dimension below, in fixed memory since nothing allocates
    pins: Padded<u8>,
}

/// One for a pin, nothing for a free coordinate.
fn one_pin(entry: u8) -> u64
    ensures is { result ≡ is_pin entry }
    ensures one { result ≤ 1 }
{
    u64::from(entry <= 1)
}

/// The number of pins of a row.
fn count_pins(row: &[u8]) -> u64
    ensures is { result ≡ pin_count row.now }
    ensures few { result ≤ length row.now }
{
    // not a sum of a chain: tried, and its bound, which a clause states, was not proved
    let mut count: u64 = 0;
    for entry in row {
        count += one_pin(*entry);
    }
    count
}

/// The checks of a making over a set of dimension `n` and a reach: length, entries and number of pins, in this order.
fn check_pins(n: usize, reach: u64, pins: &[u8]) -> Result<(), Refusal>
    ensures { Screened (making_checks n reach pins.now) result }
{
    check_row(n, pins, 2)?;
    if reach < count_pins(pins) {
        return Err(Fault::Pins.at(0));
    }
    Ok(())
}

impl<A: Augmenter + Drop> Pinned<A> {
    /// The members below that agree with the pins.
    pub fn new(below: A, pins: &[u8]) -> Result<Pinned<A>, Refusal>
        ensures { MatchResult result (λ t. Passes (making_checks (A.dim below) (A.reaches below) pins.now) × (t.below ≡ below) × (take (A.dim below) t.pins ≡ pins.now)) (λ e. RefusedBy (making_checks (A.dim below) (A.reaches below) pins.now) e) }
    {
        check_pins(below.dimension(), below.reach(), pins)?;
        Ok(Pinned {
            below,
            pins: padded(pins, 2),
        })
    }
}

/// Whether a mark agrees with an entry of the row of pins.
fn keeps_pin(pin: u8, mark: u8) -> bool
    ensures { Decides result (pin ≤ 1 → mark ≡ pin) }
{
    pin > 1 || mark == pin
}

/// Whether a row agrees with every pin.
fn keeps(pins: &[u8], row: &[u8]) -> bool
    requires { length row.now ≡ length pins.now }
    ensures { Decides result (Keeps pins.now row.now) }
{
    pins.iter()
        .zip(row)
        .all(|(pin, mark)| keeps_pin(*pin, *mark))
}

/// The reach over a reach below: the weight of a question with its penalties stays within that.
fn pinned_reach(reach: u64, pins: u64) -> u64
    requires { pins ≤ 128 }
    ensures { result ≡ reach_over reach pins }
{
    reach.saturating_sub(pins) / (pins + 1)
}

/// The price asked below for a coordinate.
fn ask_price(price: i64, pin: u8, penalty: u64) -> i64
    requires { penalty ≤ 2 ^ 40 }
    ensures { result ≡ asked penalty price pin }
{
    match pin {
        0 => penalty as i64,
        1 => -(penalty as i64),
        _ => price,
    }
}

/// Writes the prices asked below, for a penalty. A loop of its own, as in turned sets: with a closure it is no plainer.
fn ask_prices(prices: &[i64], pins: &[u8], penalty: u64, out: &mut [i64])
    requires pins { length pins.now ≡ length prices.now }
    requires room { length out.old ≡ length prices.now }
    requires light { penalty ≤ 2 ^ 40 }
    ensures { out.new ≡ asked_prices penalty prices.now pins.now }
{
    // an index for the rows that are read: of an `iter_mut` that is zipped nothing is known after the loop
    for (i, asked) in out.iter_mut().enumerate() {
        *asked = ask_price(prices[i], pins[i], penalty);
    }
}

/// Writes the prices of the question to put below. To break a pin costs more than all prices together, so nothing cheaper breaks one.
fn write_question(prices: &[i64], pins: &[u8], out: &mut [i64])
    requires pins { length pins.now ≡ length prices.now }
    requires room { length out.old ≡ length prices.now }
    requires light { weight prices.now < 2 ^ 40 }
    ensures { out.new ≡ prices_below prices.now pins.now }
{
    ask_prices(prices, pins, weight(prices) as u64 + 1, out);
}

impl<A: Augmenter> Augmenter for Pinned<A> {
    const KIND: u8 = A::KIND;

    ghost KIND = { A.KIND };

    ghost dim = { λ t. A.dim t.below };

    ghost reaches = { λ t. reach_over (A.reaches t.below) (pin_count (take (A.dim t.below) t.pins)) };

    ghost Member = { λ t x. PinnedIn (A.Member t.below) (take (A.dim t.below) t.pins) x };

    ghost dim_fits = { Prim.search rules };

    ghost reach_fits = { Prim.search rules };

    ghost member_is_point = { λ a x m. A.member_is_point a.below x m.0 };

    // Each layer passes on what it does not alter: a default body in the trait would have no set below to ask.
    fn dimension(&self) -> usize {
        self.below.dimension()
    }

    fn reach(&self) -> u64 {
        let n = self.below.dimension();
        pinned_reach(self.below.reach(), count_pins(&self.pins[..n]))
    }

    fn belongs(&self, row: &[u8]) -> bool {
        let n = self.below.dimension();
        row.len() == n && keeps(&self.pins[..n], row) && self.below.belongs(row)
    }

    fn better(&self, prices: &[i64], point: &[u8], out: &mut [u8]) -> Result<Answer, Refusal> {
        let n = self.below.dimension();
        // not in a function over every set: tried, and such a call from an impl of the trait gets no proof
        shared_checks(n, self.reach(), prices, point, out.len())?;
        if !self.belongs(point) {
            return Err(Fault::NotMember.at(0));
        }
        // no member is cheaper at prices of 0, and the reach below may be too small for a penalty
        if weight(prices) == 0 {
            return Ok(Answer::Nothing);
        }
        let mut scratch = [0i64; LARGEST_DIMENSION];
        let question = &mut scratch[..n];
        write_question(prices, &self.pins[..n], question);
        self.below.better(question, point, out)
    }
}
