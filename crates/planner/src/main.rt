//! The planner: a script on standard input, its plan or one refusal on standard output.
#![tactic(auto)]

use planning::answer::bytes;
use planning::answering::answer;
use script::parsing::LARGEST_SCRIPT;
use std::io;
use std::io::{Read, Write};

/// One byte more than the longest script, so that a longer one is seen to be too long.
const MOST: u64 = LARGEST_SCRIPT as u64 + 1;

fn main(rt: HostRuntime) -> io::Result<()> {
    let mut script = Vec::new(rt.alloc());
    rt.stdin().take(MOST).read_to_end(&mut script)?;
    rt.stdout().write_all(bytes(&answer(script.as_slice())))
}
