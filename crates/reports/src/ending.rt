ghost use Rattle.std.specs.Prelude.{◌≡◌, Ok, Err};
ghost use Rattle.reports.specs.declared.failures.Failure.TheVariants.{Io};

use crate::failures::Failure;
use std::io;

/// Ends a program: a refusal is printed as a line on standard output, and an input or output error is handed on.
pub fn report(rt: &impl Print, ended: Result<(), Failure>) -> io::Result<()>
    ensures fine { ended ≡ Ok tt → result ≡ Ok tt }
    ensures handed_on { (error : _) → ended ≡ Err (Io error) → result ≡ Err error }
{
    match ended {
        Ok(()) => Ok(()),
        Err(Failure::Refused(refusal)) => println!(rt; "{refusal}"),
        Err(Failure::Io(error)) => Err(error),
    }
}
