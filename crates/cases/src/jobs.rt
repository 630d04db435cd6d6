use crate::{pair, refused};
use job::job::Job;
use job::parts::{Line, State, Step, Totals};
use listed::Listed;
use rows::packed::pack;
use rows::refusals::Refusal;
use std::test::Fail;

fn job_of_pair() -> Result<Job<Listed>, Refusal> {
    Ok(Job::new(pair()?, 7))
}

/// What an advance answered, and the margin after it.
fn advanced(job: &mut Job<Listed>) -> Result<(Step, u128), Refusal> {
    Ok((job.advance()?, job.margin()))
}

#[test]
fn five_and_minus_three(rt: HostRuntime) -> Result<(), Fail> {
    let mut job = job_of_pair()?;
    job.begin(&[1, 0], &[5, -3])?;
    assert_eq!(rt; (job.margin(), job.questions_left()), (8, 7));
    assert_eq!(rt;
        job.state(),
        State::Open {
            plane: 2,
            improved: 0,
        }
    );
    assert_eq!(rt; advanced(&mut job)?, (Step::Improved, 4));
    assert_eq!(rt;
        job.state(),
        State::Open {
            plane: 2,
            improved: 1,
        }
    );
    assert_eq!(rt; advanced(&mut job)?, (Step::Closed, 4));
    assert_eq!(rt; advanced(&mut job)?, (Step::Closed, 2));
    assert_eq!(rt; advanced(&mut job)?, (Step::Closed, 0));
    assert_eq!(rt; job.state(), State::Finished);
    assert_eq!(rt;
        job.totals(),
        Totals {
            asked: 4,
            improved: 1,
            closed: 3,
            rows: 1,
        }
    );
    assert_eq!(rt; job.point(), [0, 1].as_slice());
    Ok(())
}

#[test]
fn one_against_three(rt: HostRuntime) -> Result<(), Fail> {
    let rows = [pack(&[1, 0, 0, 0]), pack(&[0, 1, 1, 1])];
    let mut job = Job::new(Listed::new(4, 1000, &rows)?, 1);
    job.begin(&[1, 0, 0, 0], &[2, 1, 1, 1])?;
    assert_eq!(rt; job.margin(), 5);
    assert_eq!(rt; advanced(&mut job)?, (Step::Improved, 3));
    assert_eq!(rt; advanced(&mut job)?, (Step::Closed, 3));
    assert_eq!(rt; advanced(&mut job)?, (Step::Improved, 2));
    assert_eq!(rt; advanced(&mut job)?, (Step::Closed, 0));
    assert_eq!(rt; job.point(), [1, 0, 0, 0].as_slice());
    Ok(())
}

#[test]
fn refusals(rt: HostRuntime) -> Result<(), Fail> {
    let mut job = job_of_pair()?;
    assert_eq!(rt; refused(job.advance()), Some((12, 0)));
    assert_eq!(rt; refused(job.begin(&[1], &[5, -4])), Some((1, 0)));
    assert_eq!(rt; refused(job.begin(&[0, 2], &[5, -4])), Some((2, 1)));
    assert_eq!(rt; refused(job.begin(&[1, 1], &[5, -4])), Some((3, 0)));
    assert_eq!(rt; refused(job.begin(&[1, 1], &[5, -3])), Some((4, 0)));
    assert_eq!(rt; job.state(), State::NotBegun);
    assert_eq!(rt; refused(job.begin(&[1, 0], &[5, -3])), None);
    assert_eq!(rt; refused(job.begin(&[1], &[5, -4])), Some((11, 0)));
    assert_eq!(rt; job.totals().rows, 1);
    Ok(())
}

#[test]
fn ledger(rt: HostRuntime) -> Result<(), Fail> {
    let mut job = job_of_pair()?;
    job.begin(&[1, 0], &[5, -3])?;
    for _ in 0..5 {
        job.advance()?;
    }
    for (plane, asked, improved) in [(2, 2, 1), (1, 1, 0), (0, 1, 0), (3, 0, 0), (40, 0, 0)] {
        assert_eq!(rt; job.line(plane), Line { asked, improved });
    }
    assert_eq!(rt; job.advance()?, Step::Done);
    assert_eq!(rt; (job.number(), job.totals().asked), (7, 4));
    Ok(())
}

#[test]
fn no_plane(rt: HostRuntime) -> Result<(), Fail> {
    let mut job = job_of_pair()?;
    assert_eq!(rt; job.point(), [0, 0].as_slice());
    job.begin(&[1, 0], &[0, 0])?;
    assert_eq!(rt; job.state(), State::Finished);
    assert_eq!(rt; (job.questions_left(), job.margin()), (0, 0));
    assert_eq!(rt; job.prices(), [0, 0].as_slice());
    assert_eq!(rt; job.point(), [1, 0].as_slice());
    Ok(())
}
