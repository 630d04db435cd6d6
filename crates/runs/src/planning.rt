ghost use Rattle.runs.specs.Planning.{JustBegunBy, ConcludedBy, PlanOf};

use crate::finishing::finish;
use augmenter::Augmenter;
use job::job::Job;
use plans::LENGTH;
use rows::refusals::Refusal;

/// Runs a job that has just begun to its finish and writes its plan, neither of which is refused.
fn conclude<A: Augmenter>(job: &mut Job<A>) -> Result<[u8; LENGTH], Refusal>
    requires { JustBegunBy job.old }
    ensures { ConcludedBy job.old result }
{
    finish(job)?;
    let mut bytes = [0; LENGTH];
    job.write_plan(&mut bytes)?;
    Ok(bytes)
}

/// Plans one problem whole: makes job `number` over the augmenter, begins at the start with the prices, runs it to its finish and writes its plan.
pub fn plan<A: Augmenter + Drop>(
    augmenter: A,
    number: u32,
    start: &[u8],
    prices: &[i64],
) -> Result<[u8; LENGTH], Refusal>
    ensures { PlanOf A.KIND (A.dim augmenter) (A.reaches augmenter) number (A.Member augmenter) start.now prices.now result }
{
    let mut job = Job::new(augmenter, number);
    job.begin(start, prices)?;
    conclude(&mut job)
}
