ghost use Rattle.std.specs.Prelude.{◌≡◌, Decides};
ghost use Rattle.job.specs.Jobs.{IssuedBy, ValidBy, WroteBy, WithdrewBy, WrotePlanBy, plan_by};

use crate::job::Job;
use crate::parts::{State, Ticket, Ticketing};
use augmenter::Augmenter;
use plans::Plan;
use rows::packed::pack;
use rows::prices::price;
use rows::refusals::{Fault, Refusal};

impl<A: Augmenter> Job<A> {
    /// Gives the ticket for the present row of a finished job.
    pub fn issue(&mut self) -> Result<Ticket, Refusal>
        ensures below { self.new.below ≡ self.old.below }
        ensures moves { IssuedBy self.old result self.new }
    {
        match self.state {
            State::NotBegun => return Err(Fault::NotBegun.at(0)),
            State::Open { .. } => return Err(Fault::NotFinished.at(0)),
            State::Finished => {}
        }
        match self.ticketing {
            Ticketing::Unissued => {}
            Ticketing::Out | Ticketing::Written => return Err(Fault::Ticketed.at(0)),
        }
        self.ticketing = Ticketing::Out;
        Ok(Ticket {
            number: self.number,
            row: self.totals.rows,
        })
    }

    /// What the job's plan says.
    fn plan(&self) -> Plan
        ensures { result ≡ plan_by self.now }
    {
        Plan {
            kind: A::KIND,
            dimension: self.below.dimension() as u8,
            number: self.number,
            point: pack(self.point()),
            price: price(self.prices(), self.point()),
            asked: self.totals.asked,
            improved: self.totals.improved,
        }
    }

    /// Whether a ticket is the one that the job has out.
    fn has_out(&self, number: u32, row: u32) -> bool
        ensures { Decides result (ValidBy self.now number row) }
    {
        match self.ticketing {
            Ticketing::Out => number == self.number && row == self.totals.rows,
            Ticketing::Unissued | Ticketing::Written => false,
        }
    }

    /// Writes the plan to a buffer's start, for the ticket; the rest of the buffer keeps its bytes.
    pub fn write(&mut self, ticket: Ticket, buffer: &mut [u8]) -> Result<(), (Ticket, Refusal)>
        ensures below { self.new.below ≡ self.old.below }
        ensures moves { WroteBy self.old ticket.number ticket.row buffer.old result self.new buffer.new }
    {
        if !self.has_out(ticket.number, ticket.row) {
            return Err((ticket, Fault::WrongTicket.at(0)));
        }
        // the ticket goes back with the refusal, or is used up: a case each
        match self.plan().write(buffer) {
            Ok(()) => {
                let Ticket { number: _, row: _ } = ticket;
                self.ticketing = Ticketing::Written;
                Ok(())
            }
            Err(refusal) => Err((ticket, refusal)),
        }
    }

    /// Gives a ticket back unwritten.
    pub fn withdraw(&mut self, ticket: Ticket)
        ensures below { self.new.below ≡ self.old.below }
        ensures moves { WithdrewBy self.old ticket.number ticket.row self.new }
    {
        let Ticket { number, row } = ticket;
        if self.has_out(number, row) {
            self.ticketing = Ticketing::Unissued;
        }
    }

    /// Issues the ticket for the present row and writes its plan with it; where the buffer is too short, the ticket is withdrawn.
    pub fn write_plan(&mut self, buffer: &mut [u8]) -> Result<(), Refusal>
        ensures below { self.new.below ≡ self.old.below }
        ensures moves { WrotePlanBy self.old buffer.old result self.new buffer.new }
    {
        let ticket = self.issue()?;
        // no `map_err`: tried, and after it nothing is known of the job that its closure changes
        match self.write(ticket, buffer) {
            Ok(()) => Ok(()),
            Err((back, refusal)) => {
                self.withdraw(back);
                Err(refusal)
            }
        }
    }
}
