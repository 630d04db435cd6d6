//! Shows runs of commands, such as a script, a plan or a refusal, with a line of text for each command.
//! A run is read from each file that is named, `-` being standard input, or from standard input where none is named.
#![tactic(auto)]

mod lines;
mod operands;
mod points;
mod words;

use commands::command::Command;
use commands::reader::Reader;
use lines::{Line, Stop};
use operands::dimension;
use reports::failures::Failure;
use rows::refusals::Refusal;
use std::io::Read;
use std::{env, fs, io};

/// The most bytes of a run that are shown.
const MOST: usize = 1024 * 1024;

fn main(rt: HostRuntime) -> io::Result<()> {
    let mut names = env::args(&rt)?.skip(1).peekable();
    if names.peek().is_none() {
        return show_input(&rt);
    }
    for name in names {
        println!(rt; "{name}:")?;
        show_named(&rt, name.as_str())?;
    }
    Ok(())
}

fn show_named(rt: &HostRuntime, name: &str) -> io::Result<()> {
    if name == "-" {
        return show_input(rt);
    }
    let run = fs::read(rt, name)?;
    show(rt, run.as_slice())
}

fn show_input(rt: &HostRuntime) -> io::Result<()> {
    let mut run = Vec::new(rt.alloc());
    rt.stdin().take(MOST as u64 + 1).read_to_end(&mut run)?;
    show(rt, run.as_slice())
}

/// Prints the commands of a run, unless it is empty or too long.
fn show(rt: &HostRuntime, run: &[u8]) -> io::Result<()> {
    if run.is_empty() {
        return rt.println("There is nothing to show: the input is empty.");
    }
    if run.len() > MOST {
        return println!(rt; "The input is too long to show: it has more than {MOST} bytes.");
    }
    show_commands(rt, run)
}

/// Prints the commands of a run, and where it breaks off if it does.
fn show_commands(rt: &HostRuntime, run: &[u8]) -> io::Result<()> {
    match show_readable(rt, run) {
        Ok(()) => Ok(()),
        Err(Failure::Refused(Refusal { place, .. })) => {
            println!(rt; "{place:>6}     {}", Stop { run, place })
        }
        Err(Failure::Io(error)) => Err(error),
    }
}

/// Prints the commands of a run, up to the first that the reader refuses.
fn show_readable(rt: &HostRuntime, run: &[u8]) -> Result<(), Failure> {
    let mut reader = Reader::new(run);
    let mut known = None;
    while let Some((place, command)) = reader.next()? {
        known = dimension_after(command, known);
        let (letter, _) = command.parts();
        println!(rt;
            "{place:>6}  {}  {}",
            char::from(letter),
            Line { command, known }
        )?;
    }
    Ok(())
}

/// The dimension that is known once a command is read.
fn dimension_after(command: Command<'_>, before: Option<usize>) -> Option<usize> {
    match command {
        Command::Dimension(operand) => dimension(operand),
        _ => before,
    }
}
