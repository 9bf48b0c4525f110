ghost use Rattle.std.specs.Prelude.{◌≡◌};
ghost use Rattle.inspect.specs.declared.failure.Failure.TheVariants.{NoMemory};

use std::alloc::{AllocError, AllocFailed};
use std::error::Error;
use std::fmt;

// Why there is no report.
#[derive(Debug, Drop)]
pub enum Failure {
    NoMemory,
    // too few items on the stack, or items of the wrong kind; a file that reads well has none of that
    Items,
}

impl From<AllocError> for Failure {
    ghost from_gives = { λ e r. r ≡ NoMemory };

    fn from(_error: AllocError) -> Failure {
        Failure::NoMemory
    }
}

impl<T: Drop> From<AllocFailed<T>> for Failure {
    ghost from_gives = { λ e r. r ≡ NoMemory };

    fn from(_refused: AllocFailed<T>) -> Failure {
        Failure::NoMemory
    }
}

impl fmt::Display for Failure {
    fn fmt<W: fmt::Write>(&self, f: &mut fmt::Formatter<W>) -> fmt::Result {
        match self {
            Failure::NoMemory => f.write_str("no memory"),
            Failure::Items => f.write_str("wrong items on the stack"),
        }
    }
}

impl Error for Failure {}
