ghost use Rattle.std.specs.Prelude.{◌≡◌, ℕ, ◌+◌, ◌≤◌, ◌++◌, map, length, drop, Decides};
ghost use Rattle.std.specs.List.{flat_map, AllByRecursion};
ghost use Rattle.commands.specs.Commands.{Whole, bytes as command_bytes, said};
ghost use Rattle.commands.specs.Reading.{Put, PutRun};

use crate::command::{Command, operand_width};
use rows::refusals::{Fault, Refusal};

impl Command<'_> {
    /// Whether the operand has the width that the letter asks for.
    fn is_whole(&self) -> bool
        ensures { Decides result (Whole (said self.now)) }
    {
        let (letter, operand) = self.parts();
        operand_width(char::from(letter)) == Some(operand.len())
    }

    /// Writes the command to a buffer's start and gives its length; the rest keeps its bytes.
    pub fn write(&self, buffer: &mut [u8]) -> Result<usize, Refusal>
        ensures { Put (said self.now) buffer.old result buffer.new }
    {
        if !self.is_whole() {
            return Err(Fault::Width.at(0));
        }
        let (letter, operand) = self.parts();
        let width = operand.len();
        if buffer.len() <= width {
            return Err(Fault::ShortBuffer.at(0));
        }
        buffer[0] = letter;
        buffer[1..1 + width].copy_from_slice(operand);
        Ok(1 + width)
    }
}

/// Whether every command has the width that its letter asks for.
fn all_whole(commands: &[Command<'_>]) -> bool
    ensures { Decides result (AllByRecursion Whole (map said commands.now)) }
{
    // each command is copied out, here and below: behind a reference the same loops take nearly twice the time
    commands.iter().all(|&command| command.is_whole())
}

/// Whether the commands, one after the other, take at most so many bytes.
fn fit(commands: &[Command<'_>], room: usize) -> bool
    ensures { Decides result (length (flat_map command_bytes (map said commands.now)) ≤ room) }
{
    // taken from the room one by one, as a sum of the lengths could overflow
    let mut rest = room;
    for &command in commands {
        let (_, operand) = command.parts();
        if rest <= operand.len() {
            return false;
        }
        rest -= 1 + operand.len();
    }
    true
}

/// Writes a command that fits to a buffer's start and gives its length; the rest keeps its bytes.
fn put(command: &Command<'_>, buffer: &mut [u8]) -> usize
    requires whole { Whole (said command.now) }
    requires room { length (command_bytes (said command.now)) ≤ length buffer.old }
    ensures long { result ≡ length (command_bytes (said command.now)) }
    ensures writes { buffer.new ≡ command_bytes (said command.now) ++ drop result buffer.old }
{
    command.write(buffer).unwrap()
}

/// Writes commands that fit, one after the other, and gives their length.
fn put_all(commands: &[Command<'_>], buffer: &mut [u8]) -> usize
    requires whole { AllByRecursion Whole (map said commands.now) }
    requires room { length (flat_map command_bytes (map said commands.now)) ≤ length buffer.old }
    ensures long { result ≡ length (flat_map command_bytes (map said commands.now)) }
    ensures writes { buffer.new ≡ flat_map command_bytes (map said commands.now) ++ drop result buffer.old }
{
    let mut at = 0;
    for &command in commands {
        at += put(&command, &mut buffer[at..]);
    }
    at
}

/// Writes commands to a buffer's start, one after the other, all of them or none, and gives their length; the rest keeps its bytes.
pub fn write_run(commands: &[Command<'_>], buffer: &mut [u8]) -> Result<usize, Refusal>
    ensures { PutRun (map said commands.now) buffer.old result buffer.new }
{
    if !all_whole(commands) {
        return Err(Fault::Width.at(0));
    }
    if !fit(commands, buffer.len()) {
        return Err(Fault::ShortBuffer.at(0));
    }
    Ok(put_all(commands, buffer))
}
