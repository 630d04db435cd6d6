ghost use Rattle.std.specs.Prelude.{◌≡◌, ◌≤◌, length};
ghost use Rattle.commands.specs.Reading.{Next, ReadingLaws, WritesBack};

use crate::command::{Command, operand_width, with_operand};
use rows::refusals::{Fault, Refusal};

/// Hands out the commands of a script, one after the other. It keeps the whole script, since places are counted from its start.
#[derive(Drop)]
pub struct Reader<'a> {
    script: &'a [u8],
    at: usize,
    ghost within: { at ≤ length script.now },
}

impl<'a> Reader<'a> {
    /// A reader at the start of a script.
    pub fn new(script: &'a [u8]) -> Reader<'a>
        ensures script { result.script.now ≡ script.now }
        ensures start { result.at ≡ 0 }
        ensures laws { ReadingLaws script.now }
    {
        Reader { script, at: 0 }
    }

    /// The place of the next command, the script's length at its end.
    pub fn place(&self) -> usize
        ensures is { result ≡ self.now.at }
        ensures within { result ≤ length self.now.script.now }
    {
        self.at
    }

    /// The next command with its place, or none at the end. A refused reader stays where it is.
    pub fn next(&mut self) -> Result<Option<(usize, Command<'a>)>, Refusal>
        ensures same { self.new.script.now ≡ self.old.script.now }
        ensures reads { Next self.old.script.now self.old.at result self.new.at }
        ensures writes_back { WritesBack self.old.script.now self.old.at result self.new.at }
    {
        let Reader { script, at } = *self;
        let Some((first, rest)) = script[at..].split_first() else {
            return Ok(None);
        };
        let letter = char::from(*first);
        let width = operand_width(letter).ok_or(Fault::UnknownLetter.at(at))?;
        let operand = rest.get(..width).ok_or(Fault::Width.at(at))?;
        *self = Reader {
            script,
            at: at + 1 + width,
        };
        Ok(Some((at, with_operand(letter, operand))))
    }
}
