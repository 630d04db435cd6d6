//! Renumbered sets, a layer: the set below with its coordinates in another order.
#![tactic(auto)]

ghost use Rattle.std.specs.Prelude.{◌≡◌, ℕ, ◌<◌, ◌≤◌, length, take, Decides, MatchOption, MatchResult, ◌≢◌, slice_index};
ghost use Rattle.rows.specs.Refusals.{Passes, RefusedBy};
ghost use Rattle.augmenter.specs.Questions.{Better, Screened, shared_checks};
ghost use Rattle.renumbered.specs.Renumberings.{NewEntry, AllNew, BadEntry, Renumbers, Moves, MemberAbove, BroughtBack, making_checks};
ghost use Rattle.std.proofs.Common.{rules};

use augmenter::answers::Answer;
use augmenter::{Augmenter, shared_checks};
use rows::points::{LARGEST_DIMENSION, Padded, padded};
use rows::refusals::{Fault, Refusal};

/// A set in other numbers: coordinate i stands for coordinate `numbers[i]` below.
#[derive(Drop)]
pub struct Renumbered<A: Augmenter> {
    below: A,
    /// a row of the dimension below, in fixed memory since nothing allocates
    numbers: Padded<u8>,
    ghost order: { Renumbers (A.dim below) (take (A.dim below) numbers) },
}

/// Whether an entry is below `n` and equals no earlier one.
fn is_new(numbers: &[u8], i: usize, n: usize) -> bool
    requires { i < length numbers.now }
    ensures { Decides result (NewEntry n numbers.now i) }
{
    !numbers[..i].contains(&numbers[i]) && usize::from(numbers[i]) < n
}

/// The index of the first entry that is not below `n` or equals an earlier one, if there is one.
fn bad_entry(numbers: &[u8], n: usize) -> Option<usize>
    ensures { MatchOption result (AllNew n numbers.now) (λ i. BadEntry n numbers.now i) }
{
    (0..numbers.len()).find(|i| !is_new(numbers, *i, n))
}

/// The checks of a making, in their order.
fn making_checks(n: usize, numbers: &[u8]) -> Result<(), Refusal>
    ensures { Screened (making_checks n numbers.now) result }
{
    if numbers.len() != n {
        return Err(Fault::Length.at(0));
    }
    if let Some(place) = bad_entry(numbers, n) {
        return Err(Fault::Numbering.at(place));
    }
    Ok(())
}

impl<A: Augmenter + Drop> Renumbered<A> {
    /// The set below, with coordinate i for its coordinate `numbers[i]`.
    pub fn new(below: A, numbers: &[u8]) -> Result<Renumbered<A>, Refusal>
        ensures { MatchResult result (λ l. Passes (making_checks (A.dim below) numbers.now) × (l.below ≡ below) × (take (A.dim below) l.numbers ≡ numbers.now)) (λ e. RefusedBy (making_checks (A.dim below) numbers.now) e) }
    {
        let n = below.dimension();
        making_checks(n, numbers)?;
        Ok(Renumbered {
            below,
            numbers: padded(numbers, 0),
        })
    }
}

/// Writes a row in the numbers below.
fn moved<T: Copy>(numbers: &[u8], from: &[T], to: &mut [T])
    requires order { Renumbers (length to.old) numbers.now }
    requires source { length from.now ≡ length to.old }
    ensures { Moves numbers.now from.now to.new }
{
    // an index for the row that is read: zipped it is no plainer, since what the loop keeps is said by index
    for (i, number) in numbers.iter().enumerate() {
        to[usize::from(*number)] = from[i];
    }
}

/// Writes a row of the numbers below in the numbers above.
fn moved_back<T: Copy>(numbers: &[u8], from: &[T], to: &mut [T])
    requires order { Renumbers (length to.old) numbers.now }
    requires source { length from.now ≡ length to.old }
    ensures { Moves numbers.now to.new from.now }
{
    // an index for the rows that are read: of an `iter_mut` that is zipped nothing is known after the loop
    for (i, entry) in to.iter_mut().enumerate() {
        *entry = from[usize::from(numbers[i])];
    }
}

/// Whether the row, moved, is a member below.
fn moved_belongs<A: Augmenter>(below: &A, numbers: &[u8], row: &[u8]) -> bool
    requires order { Renumbers (A.dim below.now) numbers.now }
    requires long { length row.now ≡ A.dim below.now }
    ensures { Decides result (MemberAbove (A.dim below.now) (A.Member below.now) numbers.now row.now) }
{
    let mut scratch = [0u8; LARGEST_DIMENSION];
    let marks = &mut scratch[..row.len()];
    moved(numbers, row, marks);
    below.belongs(marks)
}

/// Writes prices and point of a question in the numbers below.
fn move_question(numbers: &[u8], prices: &[i64], point: &[u8], costs: &mut [i64], marks: &mut [u8])
    requires prices { (Renumbers (length costs.old) numbers.now) × (length prices.now ≡ length costs.old) }
    requires point { (Renumbers (length marks.old) numbers.now) × (length point.now ≡ length marks.old) }
    ensures prices { Moves numbers.now prices.now costs.new }
    ensures point { Moves numbers.now point.now marks.new }
{
    moved(numbers, prices, costs);
    moved(numbers, point, marks);
}

/// Writes what is found below in the numbers above.
fn bring_back(numbers: &[u8], found: &[u8], answer: Answer, out: &mut [u8])
    requires order { Renumbers (length out.old) numbers.now }
    requires source { length found.now ≡ length out.old }
    ensures { BroughtBack numbers.now found.now out.old out.new answer }
{
    match answer {
        Answer::Found => moved_back(numbers, found, out),
        Answer::Nothing => {}
    }
}

/// A question that passed the checks that all sets share, put in the numbers below.
fn put<A: Augmenter>(
    below: &A,
    numbers: &[u8],
    prices: &[i64],
    point: &[u8],
    out: &mut [u8],
) -> Result<Answer, Refusal>
    requires order { Renumbers (A.dim below.now) numbers.now }
    requires passed { Passes (shared_checks (A.dim below.now) (A.reaches below.now) prices.now point.now (length out.old)) }
    ensures { Better (A.dim below.now) (A.reaches below.now) (MemberAbove (A.dim below.now) (A.Member below.now) numbers.now) prices.now point.now out.old out.new result }
{
    let mut price_row = [0i64; LARGEST_DIMENSION];
    let mut mark_row = [0u8; LARGEST_DIMENSION];
    let mut found_row = [0u8; LARGEST_DIMENSION];
    let costs = &mut price_row[..prices.len()];
    let marks = &mut mark_row[..point.len()];
    let found = &mut found_row[..out.len()];
    move_question(numbers, prices, point, costs, marks);
    match below.better(costs, marks, found) {
        Ok(answer) => {
            bring_back(numbers, found, answer, out);
            Ok(answer)
        }
        // The other refusals are ruled out: a row and its moved row have the same marks and weight.
        Err(_) => Err(Fault::NotMember.at(0)),
    }
}

impl<A: Augmenter> Augmenter for Renumbered<A> {
    const KIND: u8 = A::KIND;

    ghost KIND = { A.KIND };

    ghost dim = { λ s. A.dim s.below };

    ghost reaches = { λ s. A.reaches s.below };

    ghost Member = { λ s x. MemberAbove (A.dim s.below) (A.Member s.below) (take (A.dim s.below) s.numbers) x };

    ghost dim_fits = { Prim.search rules };

    ghost reach_fits = { Prim.search rules };

    ghost member_is_point = { Prim.search rules };

    // Each layer passes on what it does not alter: a default body in the trait would have no set below to ask.
    fn dimension(&self) -> usize {
        self.below.dimension()
    }

    fn reach(&self) -> u64 {
        self.below.reach()
    }

    fn belongs(&self, row: &[u8]) -> bool {
        let n = self.below.dimension();
        row.len() == n && moved_belongs(&self.below, &self.numbers[..n], row)
    }

    fn better(&self, prices: &[i64], point: &[u8], out: &mut [u8]) -> Result<Answer, Refusal> {
        let n = self.below.dimension();
        shared_checks(n, self.below.reach(), prices, point, out.len())?;
        put(&self.below, &self.numbers[..n], prices, point, out)
    }
}
