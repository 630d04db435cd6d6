ghost use Rattle.std.specs.Prelude.{◌≡◌};
ghost use Rattle.script.specs.Scripts.{Settled};
ghost use Rattle.planning.specs.Bytes.{refusal_bytes};
ghost use Rattle.planning.specs.Answers.{Answers, Solves, Solved};

use crate::answer::Answer;
use commands::command::Command;
use listed::Listed;
use rows::packed::unpack;
use rows::points::LARGEST_DIMENSION;
use rows::refusals::Refusal;
use runs::planning::plan;
use script::parsing::parse;
use script::problem::Problem;

/// The job that plans a script.
const JOB: u32 = 1;

/// The command E of a refusal; of the place the low 32 bits are written.
pub fn refusal_bytes(refusal: Refusal) -> [u8; 6]
    ensures { result ≡ refusal_bytes refusal }
{
    // the low bytes by a pattern, as `as u32` would ask that the place fits
    let [_, _, _, _, a, b, c, d] = (refusal.place as u64).to_be_bytes();
    let operand = [u8::from(refusal.fault), a, b, c, d];
    let mut bytes = [0; 6];
    Command::Refused(&operand).write(&mut bytes).unwrap();
    bytes
}

/// Plans a problem: the set is made, and then job 1 over it.
pub fn solve(problem: &Problem) -> Result<[u8; plans::LENGTH], Refusal>
    ensures { Solves problem.now result }
{
    let n = usize::from(problem.dimension);
    let listed = Listed::new(n, problem.reach, problem.rows.as_slice())?;
    let mut start = [0; LARGEST_DIMENSION];
    let start = &mut start[..n];
    unpack(&problem.start, start);
    plan(listed, JOB, start, &problem.prices[..n])
}

/// The plan of what a script describes, or the first refusal.
fn plan_script(script: &[u8]) -> Result<[u8; plans::LENGTH], Refusal>
    ensures gives { Solved script.now result }
    ensures settled { Settled script.now }
{
    let problem = parse(script)?;
    solve(&problem)
}

/// The answer to a script: the plan of the cheapest row that it lists, or one refusal.
pub fn answer(script: &[u8]) -> Answer
    ensures gives { Answers script.now result }
    ensures settled { Settled script.now }
{
    plan_script(script).map_err(refusal_bytes)
}
