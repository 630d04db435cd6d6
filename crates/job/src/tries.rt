ghost use Rattle.std.specs.Prelude.{◌≡◌};
ghost use Rattle.job.specs.Jobs.{TriedBy, TriedWriteBy};

use crate::job::Job;
use crate::parts::{Step, Ticket};
use augmenter::Augmenter;
use plans::LENGTH;
use rows::refusals::Refusal;

/// A call to be tried on a job. A ticket cannot stand in a list of calls, so a pair of numbers stands for it: that of a real, a stale, a
/// foreign or an invented ticket.
#[derive(Clone, Copy)]
pub enum Call<'a> {
    Begin { start: &'a [u8], prices: &'a [i64] },
    Advance,
    Reprice { prices: &'a [i64] },
    Issue,
    /// write into a buffer of this many bytes
    Write { number: u32, row: u32, room: usize },
    Withdraw { number: u32, row: u32 },
}

/// What came of a call that is not refused.
#[derive(Clone, Copy, PartialEq, Eq, Debug)]
pub enum Outcome {
    /// begin or reprice took the row
    Accepted,
    Advanced(Step),
    Issued { number: u32, row: u32 },
    /// the plan, as it was written
    Written([u8; LENGTH]),
    Withdrawn,
}

impl<A: Augmenter> Job<A> {
    /// Writes with the ticket of a pair into a buffer of `room` bytes, of which a plan takes 46.
    fn try_write(&mut self, number: u32, row: u32, room: usize) -> Result<[u8; LENGTH], Refusal>
        ensures below { self.new.below ≡ self.old.below }
        ensures moves { TriedWriteBy self.old number row room result self.new }
    {
        let mut bytes = [0u8; LENGTH];
        // the ticket that comes back is let go, as it is one of the list's numbers: a case each
        match self.write(Ticket { number, row }, &mut bytes[0..room.min(LENGTH)]) {
            Ok(()) => Ok(bytes),
            Err((ticket, e)) => {
                let Ticket { number: _, row: _ } = ticket;
                Err(e)
            }
        }
    }

    /// Tries one call.
    pub fn try_call(&mut self, call: &Call<'_>) -> Result<Outcome, Refusal>
        ensures below { self.new.below ≡ self.old.below }
        ensures moves { TriedBy self.old call.now result self.new }
    {
        // calls are data and not closures, so that promises can speak of every list of them
        match call {
            Call::Begin { start, prices } => {
                self.begin(start, prices)?;
                Ok(Outcome::Accepted)
            }
            Call::Advance => Ok(Outcome::Advanced(self.advance()?)),
            Call::Reprice { prices } => {
                self.reprice(prices)?;
                Ok(Outcome::Accepted)
            }
            Call::Issue => {
                let Ticket { number, row } = self.issue()?;
                Ok(Outcome::Issued { number, row })
            }
            Call::Write { number, row, room } => {
                Ok(Outcome::Written(self.try_write(*number, *row, *room)?))
            }
            Call::Withdraw { number, row } => {
                self.withdraw(Ticket {
                    number: *number,
                    row: *row,
                });
                Ok(Outcome::Withdrawn)
            }
        }
    }
}
