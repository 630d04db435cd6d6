//! Lists of calls tried on a job, and the promise over every such list.
#![tactic(auto)]

ghost use Rattle.std.specs.Prelude.{◌≡◌, ℕ, min, length, take, drop};
ghost use Rattle.job.specs.Views.{blank};
ghost use Rattle.job.specs.Jobs.{view};
ghost use Rattle.runs.specs.Promise.{Runs, Tried};

pub mod finishing;
pub mod planning;

use augmenter::Augmenter;
use job::job::Job;
use job::tries::{Call, Outcome};
use rows::refusals::Refusal;

/// Tries each call on a job in turn; what came of it goes into the caller's memory, as far as that reaches, since nothing allocates.
fn try_on<A: Augmenter>(
    job: &mut Job<A>,
    calls: &[Call<'_>],
    outcomes: &mut [Result<Outcome, Refusal>],
) -> usize
    requires { view job.old ≡ blank job.old.number (A.dim job.old.below) }
    ensures below { job.new.below ≡ job.old.below }
    ensures count { result ≡ min (length calls.now) (length outcomes.old) }
    ensures rest { drop result outcomes.new ≡ drop result outcomes.old }
    ensures promise { Tried A.KIND (A.dim job.old.below) (A.reaches job.old.below) job.old.number (A.Member job.old.below) (take result calls.now) (take result outcomes.new) (view job.new) }
{
    let n = calls.len().min(outcomes.len());
    // an index for the rows that are read: of an `iter_mut` that is zipped nothing is known after the loop
    for (i, outcome) in outcomes[..n].iter_mut().enumerate() {
        *outcome = job.try_call(&calls[i]);
    }
    n
}

/// Makes a job over an augmenter and tries each call on it in turn; what came of it goes into the caller's memory, as far as that reaches, since nothing allocates.
pub fn try_calls<A: Augmenter>(
    augmenter: A,
    number: u32,
    calls: &[Call<'_>],
    outcomes: &mut [Result<Outcome, Refusal>],
) -> (Job<A>, usize)
    ensures below { result.0.below ≡ augmenter }
    ensures count { result.1 ≡ min (length calls.now) (length outcomes.old) }
    ensures rest { drop result.1 outcomes.new ≡ drop result.1 outcomes.old }
    ensures promise { Tried A.KIND (A.dim augmenter) (A.reaches augmenter) number (A.Member augmenter) (take result.1 calls.now) (take result.1 outcomes.new) (view result.0) }
{
    let mut job = Job::new(augmenter, number);
    let count = try_on(&mut job, calls, outcomes);
    (job, count)
}
