ghost use Rattle.std.specs.Prelude.{Some};
ghost use Rattle.std.specs.Fmt.{styled_text};
ghost use Rattle.job.specs.Steps.{step_name};

use std::fmt;

/// How far a job is.
#[derive(Clone, Copy, PartialEq, Eq, Debug)]
pub enum State {
    NotBegun,
    /// a plane is open, with the improvements made since it opened
    Open { plane: u32, improved: u32 },
    Finished,
}

/// What an advance that is not refused did.
#[derive(Clone, Copy, PartialEq, Eq, Debug)]
pub enum Step {
    /// the point is replaced by a cheaper member at the open plane
    Improved,
    /// no member is cheaper at the open plane, which is closed
    Closed,
    /// nothing: the job is finished
    Done,
}

impl fmt::Display for Step {
    ghost output = { λ s. Some (step_name s) };

    ghost styled_output = { λ s o. Some (styled_text o (step_name s)) };

    fn fmt<W: fmt::Write>(&self, f: &mut fmt::Formatter<W>) -> fmt::Result {
        f.pad(match self {
            Step::Improved => "improved",
            Step::Closed => "closed",
            Step::Done => "finished",
        })
    }
}

/// What a job counts since its making.
#[derive(Clone, Copy, PartialEq, Eq, Debug, Default)]
pub struct Totals {
    /// questions put to the augmenter
    pub asked: u32,
    /// improvements
    pub improved: u32,
    /// planes closed
    pub closed: u32,
    /// price rows accepted
    pub rows: u32,
}

/// What a job counts at one plane of its present row.
#[derive(Clone, Copy, PartialEq, Eq, Debug, Default)]
pub struct Line {
    pub asked: u32,
    pub improved: u32,
}

/// A line for each plane that a row within the largest reach can have.
#[derive(Clone, Copy, PartialEq, Eq, Debug)]
pub struct Ledger {
    pub lines: [Line; 40],
}

/// What became of the ticket for the present row.
#[derive(Clone, Copy, PartialEq, Eq, Debug)]
pub enum Ticketing {
    /// no ticket is out, and the row's plan is not written
    Unissued,
    /// a ticket is out
    Out,
    /// the row's plan is written
    Written,
}

/// A right to one writing of a plan, for a job and the row that it had as its last: a pair of job number and row count.
/// It is neither `Copy` nor `Drop`, so it is written or withdrawn, and once only.
pub struct Ticket {
    pub(crate) number: u32,
    pub(crate) row: u32,
}
