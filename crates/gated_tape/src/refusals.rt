//! Why a mark was not put.
ghost use Rattle.std.specs.Prelude.{◌≡◌};
ghost use Rattle.gated_tape.specs.declared.refusals.PutNo.TheVariants.{NoMemory};

use std::alloc::{AllocError, AllocFailed};
use std::error::Error;
use std::fmt;

/// The tape is then as it was.
#[derive(Clone, Copy, Debug, Drop, PartialEq, Eq)]
pub enum PutNo {
    /// The tape has as many marks as its limit says.
    Full,
    /// Memory was short.
    NoMemory,
}

impl fmt::Display for PutNo {
    fn fmt<W: fmt::Write>(&self, f: &mut fmt::Formatter<W>) -> fmt::Result {
        match self {
            PutNo::Full => write!(f, "the tape is full"),
            PutNo::NoMemory => write!(f, "memory was short"),
        }
    }
}

impl Error for PutNo {}

impl From<AllocError> for PutNo {
    ghost from_gives = { λ _ no. no ≡ NoMemory };

    fn from(_: AllocError) -> PutNo {
        PutNo::NoMemory
    }
}

impl<T: Drop> From<AllocFailed<T>> for PutNo {
    ghost from_gives = { λ _ no. no ≡ NoMemory };

    fn from(_: AllocFailed<T>) -> PutNo {
        PutNo::NoMemory
    }
}
