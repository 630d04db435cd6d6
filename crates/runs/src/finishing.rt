ghost use Rattle.std.specs.Prelude.{◌≡◌, ℕ};
ghost use Rattle.runs.specs.Finishing.{FinishBy};

use augmenter::Augmenter;
use job::job::Job;
use rows::refusals::Refusal;

/// Runs a begun job to its finish. No more questions are put than may still come; advances beyond the finish ask nothing.
pub fn finish<A: Augmenter>(job: &mut Job<A>) -> Result<(), Refusal>
    ensures below { job.new.below ≡ job.old.below }
    ensures ends { FinishBy job.old result job.new }
    ensures number { job.new.number ≡ job.old.number }
    ensures ticketing { job.new.ticketing ≡ job.old.ticketing }
{
    for _ in 0..job.questions_left() {
        job.advance()?;
    }
    job.advance()?;
    Ok(())
}
