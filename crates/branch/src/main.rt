//! One branch planned from beginning to end, printed for a person to read.
#![tactic(auto)]

mod layouts;

use augmenter::Augmenter;
use job::job::Job;
use job::parts::State;
use layouts::{LAYOUTS, PARTS, START};
use listed::Listed;
use reports::ending::report;
use reports::failures::Failure;
use reports::marks::Marks;
use rows::packed::pack;
use rows::prices::{ones, planes, price};
use runs::finishing::finish;
use std::io;

/// The reach that the branch's price rows keep to.
const REACH: u64 = 1_000_000;

fn main(rt: HostRuntime) -> io::Result<()> {
    report(&rt, plan_branch(&rt))
}

/// Plans the branch at its prices, and then at those of a new contract.
fn plan_branch(rt: &HostRuntime) -> Result<(), Failure> {
    let prices = PARTS.map(|part| part.charge.price());
    println!(rt;
        "Branch Harbour Street: {} lines and stores, {} legal layouts\n",
        PARTS.len(),
        LAYOUTS.len()
    )?;
    show_parts(rt, &prices)?;
    show_layouts(rt, &prices)?;
    let layouts = LAYOUTS.map(|row| pack(&row));
    let mut job = Job::new(Listed::new(PARTS.len(), REACH, &layouts)?, 1);
    plan(rt, &mut job, &prices)?;
    show_plan(rt, &mut job)?;
    plan_again(rt, &mut job, &prices)?;
    show_plan(rt, &mut job)
}

fn show_parts(rt: &HostRuntime, prices: &[i64]) -> io::Result<()> {
    println!(rt; "coordinate    price  line or store")?;
    for (i, (part, price)) in PARTS.iter().zip(prices).enumerate() {
        println!(rt; "{i:>10} {price:>8}  {}", part.name)?;
    }
    Ok(())
}

fn show_layouts(rt: &HostRuntime, prices: &[i64]) -> io::Result<()> {
    println!(rt; "\nlegal layout    price")?;
    for row in &LAYOUTS {
        println!(rt; "    {} {:>8}", Marks(row), price(prices, row))?;
    }
    Ok(())
}

/// Plans from the start to the finish, and shows each advance.
fn plan<A: Augmenter>(rt: &HostRuntime, job: &mut Job<A>, prices: &[i64]) -> Result<(), Failure> {
    job.begin(&START, prices)?;
    let bound = job.questions_left();
    let before = price(prices, &START);
    println!(rt; "\nStart {} at price {before}.", Marks(&START))?;
    println!(rt;
        "Quoted beforehand: at most {bound} questions ({} ones plus {} planes).\n",
        ones(prices),
        planes(prices)
    )?;
    println!(rt; "plane  answer   point      margin")?;
    // by the bound, since a job's end is said of sound jobs and is no measure of a `while let`
    for _ in 0..bound {
        let State::Open { plane, .. } = job.state() else {
            break;
        };
        show_advance(rt, job, plane)?;
    }
    show_result(rt, job, before, bound)?;
    Ok(())
}

/// Takes over the prices of a new contract, in which vault line B costs three times as much, and plans on from the chosen layout.
fn plan_again<A: Augmenter>(
    rt: &HostRuntime,
    job: &mut Job<A>,
    prices: &[i64; 8],
) -> Result<(), Failure> {
    let mut dearer = *prices;
    dearer[1] = dearer[1].saturating_mul(3);
    job.reprice(&dearer)?;
    let before = price(job.prices(), job.point());
    let bound = job.questions_left();
    println!(rt;
        "\nA new contract: {} now costs {}.",
        PARTS[1].name, dearer[1]
    )?;
    println!(rt;
        "The chosen layout then costs {before}. Quoted beforehand: at most {bound} questions."
    )?;
    finish(job)?;
    show_result(rt, job, before, bound)?;
    Ok(())
}

/// Writes the plan of a finished job and shows its bytes.
fn show_plan<A: Augmenter>(rt: &HostRuntime, job: &mut Job<A>) -> Result<(), Failure> {
    let mut plan = [0; plans::LENGTH];
    job.write_plan(&mut plan)?;
    println!(rt; "Plan: {}", hex::encode_upper(rt.alloc(), &plan)?)?;
    Ok(())
}

/// One advance, with the plane it asks at and how things stand after it.
fn show_advance<A: Augmenter>(
    rt: &HostRuntime,
    job: &mut Job<A>,
    plane: u32,
) -> Result<(), Failure> {
    let step = job.advance()?;
    println!(rt;
        "{plane:>5}  {step:<8} {} {:>8}",
        Marks(job.point()),
        job.margin()
    )?;
    Ok(())
}

fn show_result<A: Augmenter>(
    rt: &HostRuntime,
    job: &Job<A>,
    before: i128,
    bound: u128,
) -> io::Result<()> {
    let totals = job.totals();
    let after = price(job.prices(), job.point());
    println!(rt; "\nChosen layout {} at price {after}.", Marks(job.point()))?;
    println!(rt;
        "Saved against the layout before: {}.",
        before.saturating_sub(after)
    )?;
    println!(rt;
        "Asked in all: {} questions, {} improvements; quoted for this row: at most {bound} questions.",
        totals.asked, totals.improved
    )
}
