//! Piles of three layers in each order over one listed set: planned, and compared with a listed set of the translated rows.
#![tactic(auto)]

mod orders;
mod through;

use augmenter::Augmenter;
use job::tries::{Call, Outcome};
use orders::{Expected, PRICES, bottom, listed, pinned, renumbered, turned};
use reports::ending::report;
use reports::failures::Failure;
use reports::marks::Marks;
use rows::packed::{Packed, unpack};
use rows::prices::price;
use rows::refusals::Refusal;
use runs::planning::plan;
use runs::try_calls;
use std::io;
use through::plan_through;

fn main(rt: HostRuntime) -> io::Result<()> {
    report(&rt, show_piles(&rt))
}

fn show_piles(rt: &HostRuntime) -> Result<(), Failure> {
    println!(rt; "pile                                  reach  start  chosen  price  listed")?;
    show_turned(rt)?;
    show_pinned(rt)?;
    show_renumbered(rt)?;
    show_calls(rt)?;
    show_letter(rt)
}

/// The piles with a turned set on top. A function for each top layer, as the sets of one function all have their place on its stack.
fn show_turned(rt: &HostRuntime) -> Result<(), Failure> {
    let pile = turned(pinned(renumbered(bottom()?)?)?)?;
    show(rt, pile, &orders::TURNED_PINNED_RENUMBERED)?;
    let pile = turned(renumbered(pinned(bottom()?)?)?)?;
    show(rt, pile, &orders::TURNED_RENUMBERED_PINNED)
}

/// The piles with a pinned set on top.
fn show_pinned(rt: &HostRuntime) -> Result<(), Failure> {
    let pile = pinned(turned(renumbered(bottom()?)?)?)?;
    show(rt, pile, &orders::PINNED_TURNED_RENUMBERED)?;
    let pile = pinned(renumbered(turned(bottom()?)?)?)?;
    show(rt, pile, &orders::PINNED_RENUMBERED_TURNED)
}

/// The piles with a renumbered set on top.
fn show_renumbered(rt: &HostRuntime) -> Result<(), Failure> {
    let pile = renumbered(turned(pinned(bottom()?)?)?)?;
    show(rt, pile, &orders::RENUMBERED_TURNED_PINNED)?;
    let pile = renumbered(pinned(turned(bottom()?)?)?)?;
    show(rt, pile, &orders::RENUMBERED_PINNED_TURNED)
}

/// Plans a pile, and a listed set of its members, and shows what each chose.
fn show<A: Augmenter + Drop>(
    rt: &HostRuntime,
    pile: A,
    expected: &Expected,
) -> Result<(), Failure> {
    let start = &expected.start;
    let reach = pile.reach();
    let above = chosen(&plan(pile, 1, start, &PRICES)?);
    let beside = chosen(&plan(listed(expected)?, 1, start, &PRICES)?);
    println!(rt;
        "{:<36} {reach:>6}   {}    {} {:>6}    {}",
        expected.layers,
        Marks(start),
        Marks(&above),
        price(&PRICES, &above),
        Marks(&beside)
    )?;
    Ok(())
}

/// The point of a plan.
fn chosen(plan: &[u8; plans::LENGTH]) -> [u8; 4] {
    let packed = Packed::try_from(&plan[10..26]).unwrap();
    let mut row = [0; 4];
    unpack(&packed, &mut row);
    row
}

/// A list of calls tried on a job over a pile.
fn show_calls(rt: &HostRuntime) -> Result<(), Failure> {
    let begin = Call::Begin {
        start: &orders::RENUMBERED_PINNED_TURNED.start,
        prices: &PRICES,
    };
    let write = Call::Write {
        number: 1,
        row: 1,
        room: plans::LENGTH,
    };
    let calls = [
        begin,
        Call::Advance,
        Call::Advance,
        Call::Advance,
        Call::Advance,
        Call::Advance,
        Call::Advance,
        Call::Advance,
        Call::Issue,
        write,
    ];
    let pile = renumbered(pinned(turned(bottom()?)?)?)?;
    let mut outcomes = [Ok(Outcome::Withdrawn); 10];
    let (job, _) = try_calls(pile, 1, &calls, &mut outcomes);
    println!(rt; "\nCalls tried on job {} over the last pile:", job.number())?;
    for outcome in &outcomes {
        show_outcome(rt, outcome)?;
    }
    Ok(())
}

fn show_outcome(rt: &HostRuntime, outcome: &Result<Outcome, Refusal>) -> io::Result<()> {
    match outcome {
        Ok(Outcome::Accepted) => println!(rt; "  accepted"),
        Ok(Outcome::Advanced(step)) => println!(rt; "  {step}"),
        Ok(Outcome::Issued { .. }) => println!(rt; "  ticket issued"),
        Ok(Outcome::Written(_)) => println!(rt; "  plan written"),
        Ok(Outcome::Withdrawn) => println!(rt; "  withdrawn"),
        Err(_) => println!(rt; "  refused"),
    }
}

/// The kind letter of a plan through three layers.
fn show_letter(rt: &HostRuntime) -> Result<(), Failure> {
    let pile = turned(pinned(renumbered(bottom()?)?)?)?;
    let start = &orders::TURNED_PINNED_RENUMBERED.start;
    let plan = plan_through(pile, 1, start, &PRICES)?;
    println!(rt;
        "\nKind letter through turned, pinned and renumbered: {}",
        char::from(plan[1])
    )?;
    Ok(())
}
