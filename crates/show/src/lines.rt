//! What a command says, in words.

use crate::operands::{dimension, number_from, packed, signed_byte, signed_from, units_from};
use crate::points::Point;
use crate::words::{Count, Letter, kind_name};
use commands::command::{Command, operand_width};
use rows::classes::Class;
use rows::points::mark_at as byte;
use rows::refusals::Fault;
use std::fmt;

/// What a command says, with the dimension that is known so far.
#[derive(Clone, Copy)]
pub struct Line<'a> {
    pub command: Command<'a>,
    pub known: Option<usize>,
}

impl Line<'_> {
    fn point(&self, operand: &[u8]) -> Point {
        Point {
            bytes: packed(operand),
            known: self.known,
        }
    }
}

impl fmt::Display for Line<'_> {
    fn fmt<W: fmt::Write>(&self, f: &mut fmt::Formatter<W>) -> fmt::Result {
        match self.command {
            Command::Dimension(o) => write_dimension(f, o),
            Command::Reach(o) => write!(f, "listed set with reach {}", number_from(o, 0)),
            Command::ListedRow(o) => write!(f, "listed row {}", self.point(o)),
            Command::FlowNodes(o) => write!(f, "unit flows over {}", nodes(o)),
            Command::GraphNodes(o) => write!(f, "bases of a graph with {}", nodes(o)),
            Command::Arc(o) => write!(
                f,
                "arc or edge from node {} to node {}",
                byte(o, 0),
                byte(o, 1)
            ),
            Command::Balance(o) => write!(
                f,
                "node {} has balance {}",
                byte(o, 0),
                signed_byte(o, 1)
            ),
            Command::Classes(o) => write!(
                f,
                "bases by class with {}",
                count(o, "class", "classes")
            ),
            Command::Class(o) => write!(f, "next coordinate is of class {}", byte(o, 0)),
            Command::Capacity(o) => write!(f, "class {} has capacity {}", byte(o, 0), byte(o, 1)),
            Command::Price(o) => write!(f, "coordinate {} costs {}", byte(o, 0), signed_from(o, 1)),
            Command::Units(o) => write_units(f, byte(o, 0), byte(o, 1), units_from(o, 2)),
            Command::Start(o) => write!(f, "start {}", self.point(o)),
            Command::End => f.write_str("end"),
            Command::Kind(o) => write_kind(f, byte(o, 0)),
            Command::JobNumber(o) => write!(f, "job number {}", number_from(o, 0)),
            Command::Point(o) => write!(f, "chosen point {}", self.point(o)),
            Command::Cost(o) => write!(f, "chosen point costs {}", signed_from(o, 0)),
            Command::Asked(o) => write!(f, "asked {}", count(o, "question", "questions")),
            Command::Improved(o) => write!(f, "made {}", count(o, "improvement", "improvements")),
            Command::Refused(o) => write_refusal(f, byte(o, 0), number_from(o, 1)),
        }
    }
}

fn nodes(operand: &[u8]) -> Count {
    count(operand, "node", "nodes")
}

fn count(operand: &[u8], one: &'static str, many: &'static str) -> Count {
    Count(number_from(operand, 0), one, many)
}

fn write_dimension<W: fmt::Write>(f: &mut fmt::Formatter<W>, operand: &[u8]) -> fmt::Result {
    let n = byte(operand, 0);
    match dimension(operand) {
        Some(_) => write!(f, "dimension {n}"),
        None => write!(f, "dimension {n}, which is above 128"),
    }
}

fn write_units<W: fmt::Write>(
    f: &mut fmt::Formatter<W>,
    coordinate: u8,
    letter: u8,
    units: u32,
) -> fmt::Result {
    let count = Count(u64::from(units), "unit", "units");
    match Class::try_from(char::from(letter)) {
        Ok(class) => write!(
            f,
            "coordinate {coordinate}: {count} of {class}, {} days each, costs {}",
            class.days(),
            class.price(units)
        ),
        Err(_) => write!(
            f,
            "coordinate {coordinate}: {count} of an unknown class, letter {}",
            Letter(letter)
        ),
    }
}

fn write_kind<W: fmt::Write>(f: &mut fmt::Formatter<W>, letter: u8) -> fmt::Result {
    match kind_name(char::from(letter)) {
        Some(name) => write!(f, "kind {}, {name}", char::from(letter)),
        None => write!(f, "unknown kind, letter {}", Letter(letter)),
    }
}

fn write_refusal<W: fmt::Write>(f: &mut fmt::Formatter<W>, number: u8, place: u64) -> fmt::Result {
    write!(f, "refused by {number} at place {place}: ")?;
    match Fault::try_from(number) {
        Ok(fault) => write!(f, "{fault}"),
        Err(_) => f.write_str("no refusal has this number"),
    }
}

/// Why a run cannot be read on at a place.
#[derive(Clone, Copy)]
pub struct Stop<'a> {
    pub run: &'a [u8],
    pub place: usize,
}

impl fmt::Display for Stop<'_> {
    fn fmt<W: fmt::Write>(&self, f: &mut fmt::Formatter<W>) -> fmt::Result {
        let letter = byte(self.run, self.place);
        match operand_width(char::from(letter)) {
            None => write!(
                f,
                "stops here: no command has the letter {}",
                Letter(letter)
            ),
            Some(width) => write!(
                f,
                "stops here: the operand of {} is cut short, it has {} of {}",
                char::from(letter),
                self.run.len().saturating_sub(self.place).saturating_sub(1),
                Count(width as u64, "byte", "bytes")
            ),
        }
    }
}
