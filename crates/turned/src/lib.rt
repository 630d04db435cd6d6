//! Turned sets: a layer over any set, by a row of marks.
//!
//! A point is a member if, combined with the marks by exclusive or, it is a member below.
#![tactic(auto)]

ghost use Rattle.std.specs.Prelude.{◌≡◌, ◌^◌, ◌<◌, length, take, MatchResult, unsigned_abs};
ghost use Rattle.rows.specs.Points.{Marks};
ghost use Rattle.rows.specs.Prices.{weight};
ghost use Rattle.rows.specs.Refusals.{Passes, RefusedBy};
ghost use Rattle.turned.specs.Turns.{TurnedIn, TurnedBack, xor, turn, turned_prices, making_checks};
ghost use Rattle.std.proofs.Common.{rules};

use augmenter::answers::Answer;
use augmenter::{Augmenter, check_row, shared_checks};
use rows::points::{LARGEST_DIMENSION, Padded, is_point, padded};
use rows::refusals::{Fault, Refusal};

/// A set below, turned by a row of marks. Dimension, kind and reach are those below.
#[derive(Drop)]
pub struct Turned<A> {
    below: A,
    /// a row of the dimension below, in fixed memory since nothing allocates
    marks: Padded<u8>,
    ghost bits: { Marks marks },
}

impl<A: Augmenter + Drop> Turned<A> {
    /// The set below, turned by the marks.
    pub fn new(below: A, marks: &[u8]) -> Result<Turned<A>, Refusal>
        ensures { MatchResult result (λ t. Passes (making_checks (A.dim below) marks.now) × (t.below ≡ below) × (take (A.dim below) t.marks ≡ marks.now)) (λ e. RefusedBy (making_checks (A.dim below) marks.now) e) }
    {
        check_row(below.dimension(), marks, 1)?;
        Ok(Turned {
            below,
            marks: padded(marks, 0),
        })
    }
}

/// Writes a row combined with the marks by exclusive or.
///
/// A loop of its own beside `turn_prices`: one loop for both, with a closure, is no plainer, since it would state what it asks of the closure at every coordinate.
fn turn_row(row: &[u8], marks: &[u8], out: &mut [u8])
    requires marks { length marks.now ≡ length row.now }
    requires room { length out.old ≡ length row.now }
    ensures { out.new ≡ xor row.now marks.now }
{
    // an index for the rows that are read: of an `iter_mut` that is zipped nothing is known after the loop
    for (i, turned) in out.iter_mut().enumerate() {
        *turned = row[i] ^ marks[i];
    }
}

/// A price where a coordinate is turned by a mark.
fn turn_price(price: i64, mark: u8) -> i64
    requires { unsigned_abs price < 2 ^ 63 }
    ensures { result ≡ turn price mark }
{
    if mark == 0 { price } else { -price }
}

/// Writes the prices negated where the marks are 1. They are light enough that each negation fits.
fn turn_prices(prices: &[i64], marks: &[u8], out: &mut [i64])
    requires marks { length marks.now ≡ length prices.now }
    requires room { length out.old ≡ length prices.now }
    requires light { weight prices.now < 2 ^ 40 }
    ensures { out.new ≡ turned_prices prices.now marks.now }
{
    // an index for the rows that are read: of an `iter_mut` that is zipped nothing is known after the loop
    for (i, turned) in out.iter_mut().enumerate() {
        *turned = turn_price(prices[i], marks[i]);
    }
}

/// Writes the question to put below: prices and point, turned.
fn turn_question(
    prices: &[i64],
    point: &[u8],
    marks: &[u8],
    prices_below: &mut [i64],
    point_below: &mut [u8],
)
    requires question { (length prices.now ≡ length marks.now) × (length point.now ≡ length marks.now) }
    requires room { (length prices_below.old ≡ length marks.now) × (length point_below.old ≡ length marks.now) }
    requires light { weight prices.now < 2 ^ 40 }
    ensures prices { prices_below.new ≡ turned_prices prices.now marks.now }
    ensures point { point_below.new ≡ xor point.now marks.now }
{
    turn_prices(prices, marks, prices_below);
    turn_row(point, marks, point_below);
}

/// Writes what was found below to the output row, turned back.
fn turn_back(answer: Answer, found: &[u8], marks: &[u8], out: &mut [u8])
    requires found { length found.now ≡ length marks.now }
    requires room { length out.old ≡ length marks.now }
    ensures { TurnedBack marks.now found.now out.old out.new answer }
{
    match answer {
        Answer::Found => turn_row(found, marks, out),
        Answer::Nothing => {}
    }
}

impl<A: Augmenter> Augmenter for Turned<A> {
    const KIND: u8 = A::KIND;

    ghost KIND = { A.KIND };

    ghost dim = { λ t. A.dim t.below };

    ghost reaches = { λ t. A.reaches t.below };

    ghost Member = { λ t x. TurnedIn (A.dim t.below) (A.Member t.below) (take (A.dim t.below) t.marks) x };

    ghost dim_fits = { Prim.search rules };

    ghost reach_fits = { Prim.search rules };

    ghost member_is_point = { Prim.search rules };

    // Each layer passes on what it does not alter: a default body in the trait would have no set below to ask.
    fn dimension(&self) -> usize {
        self.below.dimension()
    }

    fn reach(&self) -> u64 {
        self.below.reach()
    }

    fn belongs(&self, row: &[u8]) -> bool {
        let n = self.below.dimension();
        if !is_point(row, n) {
            return false;
        }
        let mut scratch = [0u8; LARGEST_DIMENSION];
        let turned = &mut scratch[..n];
        turn_row(row, &self.marks[..n], turned);
        self.below.belongs(turned)
    }

    fn better(&self, prices: &[i64], point: &[u8], out: &mut [u8]) -> Result<Answer, Refusal> {
        let n = self.below.dimension();
        shared_checks(n, self.below.reach(), prices, point, out.len())?;
        let marks = &self.marks[..n];
        let mut price_scratch = [0i64; LARGEST_DIMENSION];
        let mut point_scratch = [0u8; LARGEST_DIMENSION];
        let mut found_scratch = [0u8; LARGEST_DIMENSION];
        let prices_below = &mut price_scratch[..n];
        let point_below = &mut point_scratch[..n];
        let found = &mut found_scratch[..n];
        turn_question(prices, point, marks, prices_below, point_below);
        let answer = self.below.better(prices_below, point_below, found)?;
        turn_back(answer, found, marks, out);
        Ok(answer)
    }
}
