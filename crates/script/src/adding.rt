ghost use Rattle.std.specs.Prelude.{◌≡◌, ◌<◌, ◌≤◌, length, slice_set, MatchResult};
ghost use Rattle.rows.specs.Packed.{ClearFrom};
ghost use Rattle.rows.specs.declared.refusals.Fault.TheVariants.{OutOfRange};
ghost use Rattle.commands.specs.Commands.{Whole, said};
ghost use Rattle.script.specs.Stages.{Adds};

use crate::problem::Problem;
use commands::command::Command;
use commands::numbers::number;
use rows::classes::Class;
use rows::packed::{Packed, stray_bit};
use rows::points::LARGEST_DIMENSION;
use rows::refusals::Fault;

/// Each command adds its operand to the problem, or is refused.
///
/// The width of the operand stands in each clause: as a type it would ask more of those who hand a writer an operand of another width, and get a refusal.
impl Problem {
    /// Adds what a command that may come next says.
    #[tactic(auto, using(crate::proofs::Taking::added))]
    pub(crate) fn add(&mut self, command: &Command<'_>) -> Result<(), Fault>
        requires { Whole (said command.now) }
        ensures { Adds self.old (said command.now) result self.new }
    {
        match *command {
            Command::Dimension(operand) => self.add_dimension(operand),
            Command::Reach(operand) => self.add_reach(operand),
            Command::ListedRow(operand) => self.add_row(operand),
            Command::Price(operand) => self.add_price(operand),
            Command::Units(operand) => self.add_units(operand),
            Command::Start(operand) => self.add_start(operand),
            Command::End => Ok(()),
            // never met, as no stage is followed by another letter
            _ => Err(Fault::Order),
        }
    }

    fn add_dimension(&mut self, operand: &[u8]) -> Result<(), Fault>
        requires { length operand.now ≡ 1 }
        ensures { Adds self.old (78, operand.now) result self.new }
    {
        let n = number(operand);
        if n > LARGEST_DIMENSION as u64 {
            return Err(Fault::Dimension);
        }
        self.dimension = n as u8;
        Ok(())
    }

    fn add_reach(&mut self, operand: &[u8]) -> Result<(), Fault>
        requires { length operand.now ≡ 8 }
        ensures { Adds self.old (76, operand.now) result self.new }
    {
        let reach = number(operand);
        if reach >= 1 << 40 {
            return Err(Fault::Reach);
        }
        self.reach = reach;
        Ok(())
    }

    fn add_row(&mut self, operand: &[u8]) -> Result<(), Fault>
        requires { length operand.now ≡ 16 }
        ensures { Adds self.old (80, operand.now) result self.new }
    {
        let row = point(operand, self.dimension)?;
        self.rows.push(row)
    }

    fn add_price(&mut self, operand: &[u8]) -> Result<(), Fault>
        requires { length operand.now ≡ 9 }
        ensures { Adds self.old (67, operand.now) result self.new }
    {
        let price = number(&operand[1..]).cast_signed();
        self.set_price(operand[0], price)
    }

    fn add_units(&mut self, operand: &[u8]) -> Result<(), Fault>
        requires { length operand.now ≡ 6 }
        ensures { Adds self.old (89, operand.now) result self.new }
    {
        let class = Class::try_from(char::from(operand[1]))?;
        let units = number(&operand[2..]) as u32;
        self.set_price(operand[0], class.price(units))
    }

    fn add_start(&mut self, operand: &[u8]) -> Result<(), Fault>
        requires { length operand.now ≡ 16 }
        ensures { Adds self.old (83, operand.now) result self.new }
    {
        self.start = point(operand, self.dimension)?;
        Ok(())
    }

    /// Sets the price of a coordinate, if it is below the dimension.
    fn set_price(&mut self, i: u8, price: i64) -> Result<(), Fault>
        ensures { MatchResult result (λ _. (i < self.old.dimension) × (self.new ≡ record self.old { prices = slice_set self.old.prices i price })) (λ f. (f ≡ OutOfRange) × (self.old.dimension ≤ i)) }
    {
        if i >= self.dimension {
            return Err(Fault::OutOfRange);
        }
        self.prices[usize::from(i)] = price;
        Ok(())
    }
}

/// The packed point of an operand, if it has no bit from coordinate `n` on.
fn point(operand: &[u8], n: u8) -> Result<Packed, Fault>
    requires { length operand.now ≡ 16 }
    ensures { MatchResult result (λ p. (p ≡ operand.now) × ClearFrom n operand.now) (λ f. (f ≡ OutOfRange) × (ClearFrom n operand.now → ⊥)) }
{
    let point = Packed::try_from(operand).unwrap();
    match stray_bit(&point, usize::from(n)) {
        Some(_) => Err(Fault::OutOfRange),
        None => Ok(point),
    }
}
