ghost use Rattle.std.specs.Prelude.{◌≡◌, ℕ, ◌^◌, ◌<◌, ◌≤◌, length, take, replicate};
ghost use Rattle.rows.specs.Prices.{row_at, weight};
ghost use Rattle.job.specs.declared.parts.State.TheVariants.{NotBegun, Open};
ghost use Rattle.job.specs.Views.{blank, blank_ledger, opened, counted, placed, priced, accepted};
ghost use Rattle.job.specs.Calls.{Opens, Put};
ghost use Rattle.job.specs.Jobs.{view, SoundJob, BeganBy, BeginKeepsBy, AdvancedBy, AdvanceKeepsBy, RepricedBy};

use crate::job::Job;
use crate::parts::{Ledger, Line, State, Step, Ticketing, Totals};
use augmenter::answers::Answer;
use augmenter::{Augmenter, shared_checks};
use rows::points::{LARGEST_DIMENSION, Padded, padded};
use rows::prices::{planes, row_at_plane, weight};
use rows::refusals::{Fault, Refusal};

/// One question, put with the row at a plane; what was found comes at the start of an array.
fn put<A: Augmenter>(
    below: &A,
    prices: &Padded<i64>,
    point: &Padded<u8>,
    plane: u32,
) -> Result<Option<Padded<u8>>, Refusal>
    ensures { Put (A.dim below.now) (A.reaches below.now) (A.Member below.now) (row_at plane (take (A.dim below.now) prices.now)) (take (A.dim below.now) point.now) result }
{
    let n = below.dimension();
    let row = row_at_plane(prices, plane);
    let mut next = [0u8; LARGEST_DIMENSION];
    match below.better(&row[..n], &point[..n], &mut next[..n])? {
        Answer::Found => Ok(Some(next)),
        Answer::Nothing => Ok(None),
    }
}

/// An array of zeros, to keep a row in.
fn zeros<T: Copy>(zero: T) -> Padded<T>
    ensures { (n : ℕ) → n ≤ 128 → take n result ≡ replicate n zero }
{
    [zero; LARGEST_DIMENSION]
}

/// A ledger with nothing on its lines.
fn blank_ledger() -> Ledger
    ensures { result.lines ≡ blank_ledger }
{
    Ledger {
        lines: [Line::default(); 40],
    }
}

/// The state with this many planes to go.
fn opening(count: u32) -> State
    requires { count ≤ 40 }
    ensures is { result ≡ opened count }
    ensures low { (k j : ℕ) → result ≡ Open k j → k < 40 }
{
    if count == 0 {
        State::Finished
    } else {
        State::Open {
            plane: count - 1,
            improved: 0,
        }
    }
}

/// Counts one question more on a line, and one improvement more where it found something.
fn count(line: &mut Line, found: bool)
    ensures { line.new ≡ counted found line.old }
{
    line.asked = line.asked.saturating_add(1);
    if found {
        line.improved = line.improved.saturating_add(1);
    }
}

impl<A: Augmenter> Job<A> {
    /// A job over an augmenter, with a number of the maker's; it has not begun.
    pub fn new(below: A, number: u32) -> Job<A>
        ensures fresh { view result ≡ blank number (A.dim below) }
        ensures below { result.below ≡ below }
        ensures sound { SoundJob result }
    {
        Job {
            below,
            number,
            state: State::NotBegun,
            point: zeros(0),
            prices: zeros(0),
            totals: Totals::default(),
            ledger: blank_ledger(),
            ticketing: Ticketing::Unissued,
        }
    }

    /// Makes a row of marks the job's point.
    fn place(&mut self, point: &[u8])
        requires { length point.now ≡ A.dim self.old.below }
        ensures below { self.new.below ≡ self.old.below }
        ensures after { view self.new ≡ placed (view self.old) point.now }
    {
        self.point = padded(point, 0);
    }

    /// Keeps a price row.
    fn keep(&mut self, prices: &[i64])
        requires { length prices.now ≡ A.dim self.old.below }
        ensures below { self.new.below ≡ self.old.below }
        ensures after { view self.new ≡ priced (view self.old) prices.now }
    {
        self.prices = padded(prices, 0);
    }

    /// Makes the prices the present row: the top plane opens, or the job is finished where the row has none.
    fn accept(&mut self, prices: &[i64])
        requires long { length prices.now ≡ A.dim self.old.below }
        requires light { weight prices.now < 2 ^ 40 }
        ensures below { self.new.below ≡ self.old.below }
        ensures after { view self.new ≡ accepted (view self.old) (view self.old).point prices.now }
    {
        self.keep(prices);
        self.totals.rows = self.totals.rows.saturating_add(1);
        self.state = opening(planes(prices));
        self.ledger = blank_ledger();
        self.ticketing = Ticketing::Unissued;
    }

    /// Begins with a start, which must be a member, and a price row.
    pub fn begin(&mut self, start: &[u8], prices: &[i64]) -> Result<(), Refusal>
        ensures below { self.new.below ≡ self.old.below }
        ensures moves { BeganBy self.old start.now prices.now result self.new }
        ensures keeps { BeginKeepsBy self.old prices.now result self.new }
    {
        let State::NotBegun = self.state else {
            return Err(Fault::Begun.at(0));
        };
        self.start(start, prices)
    }

    /// Begins, where the job has not begun.
    fn start(&mut self, start: &[u8], prices: &[i64]) -> Result<(), Refusal>
        requires { self.old.state ≡ NotBegun }
        ensures below { self.new.below ≡ self.old.below }
        ensures moves { BeganBy self.old start.now prices.now result self.new }
    {
        let n = self.below.dimension();
        shared_checks(n, self.below.reach(), prices, start, n)?;
        if !self.below.belongs(start) {
            return Err(Fault::NotMember.at(0));
        }
        self.place(start);
        self.accept(prices);
        Ok(())
    }

    /// Puts one question with the row at the open plane: the point is improved, or the plane is closed.
    pub fn advance(&mut self) -> Result<Step, Refusal>
        ensures below { self.new.below ≡ self.old.below }
        ensures moves { AdvancedBy self.old result self.new }
        ensures keeps { AdvanceKeepsBy self.old result self.new }
    {
        match self.state {
            State::NotBegun => Err(Fault::NotBegun.at(0)),
            State::Open { plane, .. } => self.ask(plane),
            State::Finished => Ok(Step::Done),
        }
    }

    /// Takes a new price row, with the point kept; a ticket still out is out no longer.
    pub fn reprice(&mut self, prices: &[i64]) -> Result<(), Refusal>
        ensures below { self.new.below ≡ self.old.below }
        ensures moves { RepricedBy self.old prices.now result self.new }
    {
        if let State::NotBegun = self.state {
            return Err(Fault::NotBegun.at(0));
        }
        if self.totals.rows >= 1000 {
            return Err(Fault::RowLimit.at(0));
        }
        if prices.len() != self.below.dimension() {
            return Err(Fault::Length.at(0));
        }
        if weight(prices) > u128::from(self.below.reach()) {
            return Err(Fault::Weight.at(0));
        }
        self.accept(prices);
        Ok(())
    }

    /// Puts the question of the open plane, counts it, and takes over what it found or closes the plane.
    fn ask(&mut self, at: u32) -> Result<Step, Refusal>
        requires { Opens self.old.state at }
        ensures below { self.new.below ≡ self.old.below }
        ensures moves { AdvancedBy self.old result self.new }
    {
        let answer = put(&self.below, &self.prices, &self.point, at)?;
        self.totals.asked = self.totals.asked.saturating_add(1);
        // state and answer in one match, so that each case says all that it changes in place
        match (self.state, answer) {
            (State::Open { plane, improved }, Some(next)) => {
                self.point = next;
                self.state = State::Open {
                    plane,
                    improved: improved.saturating_add(1),
                };
                self.totals.improved = self.totals.improved.saturating_add(1);
                count(&mut self.ledger.lines[at as usize], true);
                Ok(Step::Improved)
            }
            (State::Open { plane, .. }, None) => {
                self.state = opening(plane);
                self.totals.closed = self.totals.closed.saturating_add(1);
                count(&mut self.ledger.lines[at as usize], false);
                Ok(Step::Closed)
            }
            _ => unreachable(),
        }
    }
}
