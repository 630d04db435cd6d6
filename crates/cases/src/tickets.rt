use crate::{pair, refused};
use job::job::Job;
use job::parts::{State, Step};
use job::tries::{Call, Outcome};
use listed::Listed;
use rows::refusals::{Fault, Refusal};
use runs::finishing::finish;
use runs::planning::plan;
use runs::try_calls;
use std::test::Fail;

fn finished() -> Result<Job<Listed>, Refusal> {
    let mut job = Job::new(pair()?, 1);
    job.begin(&[1, 0], &[5, -3])?;
    finish(&mut job)?;
    Ok(job)
}

#[test]
fn plan_of_the_pair(rt: HostRuntime) -> Result<(), Fail> {
    let mut job = finished()?;
    let mut plan = [7u8; 48];
    job.write_plan(&mut plan)?;
    assert_eq!(rt; &plan[0..4], [0x4B, 0x4C, 0x4E, 2].as_slice());
    assert_eq!(rt; &plan[4..9], [0x4A, 0, 0, 0, 1].as_slice());
    assert_eq!(rt; &plan[9..12], [0x58, 2, 0].as_slice());
    assert_eq!(rt; &plan[12..26], [0; 14].as_slice());
    assert_eq!(rt; &plan[26..30], [0x4D, 0xFF, 0xFF, 0xFF].as_slice());
    assert_eq!(rt; &plan[30..35], [0xFF, 0xFF, 0xFF, 0xFF, 0xFD].as_slice());
    assert_eq!(rt; &plan[35..40], [0x51, 0, 0, 0, 4].as_slice());
    assert_eq!(rt; &plan[40..45], [0x49, 0, 0, 0, 1].as_slice());
    assert_eq!(rt; &plan[45..48], [0x5A, 7, 7].as_slice());
    Ok(())
}

#[test]
fn tickets_refused(rt: HostRuntime) -> Result<(), Fail> {
    let mut job = finished()?;
    let mut plan = [0; plans::LENGTH];
    assert_eq!(rt; refused(job.write_plan(&mut plan[0..45])), Some((17, 0)));
    assert_eq!(rt; plan[0], 0);
    assert_eq!(rt; refused(job.write_plan(&mut plan)), None);
    assert_eq!(rt; refused(job.write_plan(&mut plan)), Some((15, 0)));
    assert_eq!(rt; refused(job.reprice(&[1])), Some((1, 0)));
    assert_eq!(rt; refused(job.reprice(&[5, 4])), Some((3, 0)));
    assert_eq!(rt; refused(job.reprice(&[4, 3])), None);
    assert_eq!(rt; refused(job.write_plan(&mut plan)), Some((14, 0)));
    let mut fresh = Job::new(pair()?, 1);
    assert_eq!(rt; refused(fresh.write_plan(&mut plan)), Some((12, 0)));
    assert_eq!(rt; refused(fresh.reprice(&[1, 1])), Some((12, 0)));
    assert_eq!(rt; refused(finish(&mut fresh)), Some((12, 0)));
    Ok(())
}

#[test]
fn repriced(rt: HostRuntime) -> Result<(), Fail> {
    let mut job = finished()?;
    job.reprice(&[-3, 5])?;
    assert_eq!(rt; job.line(2).asked, 0);
    assert_eq!(rt; (job.margin(), job.questions_left()), (8, 7));
    finish(&mut job)?;
    assert_eq!(rt; job.state(), State::Finished);
    assert_eq!(rt; job.point(), [1, 0].as_slice());
    assert_eq!(rt;
        (job.totals().rows, job.totals().asked, job.totals().improved),
        (2, 8, 2)
    );
    Ok(())
}

#[test]
fn a_thousand_rows(rt: HostRuntime) -> Result<(), Fail> {
    let mut job = Job::new(pair()?, 1);
    job.begin(&[1, 0], &[0, 0])?;
    for _ in 1..1000 {
        job.reprice(&[0, 0])?;
    }
    assert_eq!(rt; refused(job.reprice(&[0])), Some((13, 0)));
    assert_eq!(rt; job.totals().rows, 1000);
    Ok(())
}

/// Calls, and what should come of each, with the plan that is written. Stale, foreign and invented tickets are among them.
fn calls_with_outcomes(
    plan: [u8; plans::LENGTH],
) -> [(Call<'static>, Result<Outcome, Refusal>); 14] {
    let begin = Call::Begin {
        start: &[1, 0],
        prices: &[1, 0],
    };
    let write = |number, room| Call::Write {
        number,
        row: 1,
        room,
    };
    let issued = |row| Ok(Outcome::Issued { number: 7, row });
    [
        (Call::Advance, Err(Fault::NotBegun.at(0))),
        (begin, Ok(Outcome::Accepted)),
        (Call::Issue, Err(Fault::NotFinished.at(0))),
        (Call::Advance, Ok(Outcome::Advanced(Step::Improved))),
        (Call::Advance, Ok(Outcome::Advanced(Step::Closed))),
        (Call::Advance, Ok(Outcome::Advanced(Step::Done))),
        (Call::Issue, issued(1)),
        (write(8, 46), Err(Fault::WrongTicket.at(0))),
        (write(7, 45), Err(Fault::ShortBuffer.at(0))),
        (Call::Withdraw { number: 7, row: 2 }, Ok(Outcome::Withdrawn)),
        (write(7, 99), Ok(Outcome::Written(plan))),
        (write(7, 46), Err(Fault::WrongTicket.at(0))),
        (Call::Reprice { prices: &[0, 0] }, Ok(Outcome::Accepted)),
        (Call::Issue, issued(2)),
    ]
}

#[test]
fn lists_of_calls(rt: HostRuntime) -> Result<(), Fail> {
    let tried = calls_with_outcomes(plan(pair()?, 7, &[1, 0], &[1, 0])?);
    let mut outcomes = [Ok(Outcome::Withdrawn); 16];
    let (job, count) = try_calls(pair()?, 7, &tried.map(|(call, _)| call), &mut outcomes);
    assert_eq!(rt; count, 14);
    for (outcome, (_, expected)) in outcomes.iter().zip(&tried) {
        assert_eq!(rt; outcome, expected);
    }
    assert_eq!(rt; (job.totals().rows, job.totals().asked), (2, 2));
    Ok(())
}
