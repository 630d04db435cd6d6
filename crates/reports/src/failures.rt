ghost use Rattle.std.specs.Prelude.{◌≡◌};
ghost use Rattle.std.specs.IoError.{error_kind};
ghost use Rattle.std.specs.declared.io.ErrorKind.TheVariants.{OutOfMemory};
ghost use Rattle.reports.specs.declared.failures.Failure.TheVariants.{Refused, Io};

use rows::refusals::Refusal;
use std::alloc::AllocError;
use std::io;

/// Why a program ends early.
#[derive(Debug, Drop)]
pub enum Failure {
    /// a call is refused
    Refused(Refusal),
    /// printing fails, or there is no memory
    Io(io::Error),
}

impl From<Refusal> for Failure {
    ghost from_gives = { λ refusal failure. failure ≡ Refused refusal };

    fn from(refusal: Refusal) -> Failure {
        Failure::Refused(refusal)
    }
}

impl From<io::Error> for Failure {
    ghost from_gives = { λ error failure. failure ≡ Io error };

    fn from(error: io::Error) -> Failure {
        Failure::Io(error)
    }
}

impl From<AllocError> for Failure {
    ghost from_gives = { λ _ failure. (error : _) × (error_kind error ≡ OutOfMemory) × (failure ≡ Io error) };

    fn from(error: AllocError) -> Failure {
        Failure::Io(error.into())
    }
}
