ghost use Rattle.std.specs.Prelude.{◌≡◌, ℕ};
ghost use Rattle.script.specs.Scripts.{Parsed, Settled};

use crate::draft::Draft;
use crate::problem::Problem;
use commands::command::Command;
use commands::reader::Reader;
use rows::refusals::{Fault, Refusal};

/// The largest length of a script.
pub const LARGEST_SCRIPT: usize = 65_536;

/// The problem that a script describes, or the first refusal.
#[tactic(auto, using(crate::proofs::Once::settled))]
pub fn parse(script: &[u8]) -> Result<Problem, Refusal>
    ensures gives { Parsed script.now result }
    ensures settled { Settled script.now }
{
    if script.len() > LARGEST_SCRIPT {
        return Err(Fault::Width.at(LARGEST_SCRIPT));
    }
    let mut reader = Reader::new(script);
    let mut draft = Draft::new();
    while let Some((place, command)) = reader.next()? {
        draft.take(&command).map_err(|fault| fault.at(place))?;
        if let Command::End = command {
            let end = reader.place();
            if end < script.len() {
                return Err(Fault::Order.at(end));
            }
            return Ok(draft.problem);
        }
    }
    Err(Fault::Order.at(script.len()))
}
