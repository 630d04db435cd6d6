ghost use Rattle.std.specs.Prelude.{◌≡◌, []};
ghost use Rattle.commands.specs.Commands.{Whole, said};
ghost use Rattle.script.specs.Stages.{Holds, Takes, next};

use crate::problem::Problem;
use commands::command::Command;
use rows::packed_rows::PackedRows;
use rows::points::LARGEST_DIMENSION;
use rows::refusals::Fault;

/// How far a script is: which commands may come next.
#[derive(Clone, Copy, PartialEq, Eq, Debug)]
pub enum Stage {
    /// the dimension
    Dimension,
    /// the kind of the set
    Kind,
    /// members of the set, or prices, or the start
    Members,
    /// prices, or the start
    Prices,
    /// the end
    Ending,
    /// nothing
    Done,
}

impl Stage {
    /// The stage after a letter, if it may come.
    fn after(self, letter: char) -> Option<Stage>
        ensures { result ≡ next self letter }
    {
        match (self, letter) {
            (Stage::Dimension, 'N') => Some(Stage::Kind),
            (Stage::Kind, 'L') => Some(Stage::Members),
            (Stage::Members, 'P') => Some(Stage::Members),
            (Stage::Members | Stage::Prices, 'C' | 'Y') => Some(Stage::Prices),
            (Stage::Members | Stage::Prices, 'S') => Some(Stage::Ending),
            (Stage::Ending, 'Z') => Some(Stage::Done),
            _ => None,
        }
    }
}

/// What the commands so far say.
#[derive(Drop)]
pub struct Draft {
    pub(crate) stage: Stage,
    pub(crate) problem: Problem,
}

impl Draft {
    pub(crate) fn new() -> Draft
        ensures { Holds [] result }
    {
        Draft {
            stage: Stage::Dimension,
            problem: Problem {
                dimension: 0,
                reach: 0,
                rows: PackedRows::new(),
                prices: [0; LARGEST_DIMENSION],
                start: [0; 16],
            },
        }
    }

    /// Takes one command, or says what refuses it.
    pub(crate) fn take(&mut self, command: &Command<'_>) -> Result<(), Fault>
        requires { Whole (said command.now) }
        ensures { Takes self.old (said command.now) result self.new }
    {
        let (letter, _) = command.parts();
        let stage = self.stage.after(char::from(letter)).ok_or(Fault::Order)?;
        self.problem.add(command)?;
        self.stage = stage;
        Ok(())
    }
}
