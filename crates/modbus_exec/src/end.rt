//! Why a request was not executed.
ghost use Rattle.std.specs.Prelude.{◌≡◌};
ghost use Rattle.modbus_exec.specs.declared.end.ExecEnd.TheVariants.{NoMemory};

use std::alloc::AllocError;
use thiserror::Error;

/// Why a request was not executed.
#[derive(Clone, Copy, Debug, PartialEq, Eq, Error)]
pub enum ExecEnd {
    /// The code of the exception that is due: 2 where an address is outside the map, 1 for a
    /// statistics request, which is not asked of a map.
    #[error("exception {0} is due")]
    Exception(u8),
    #[error("out of memory")]
    NoMemory,
}

impl From<AllocError> for ExecEnd {
    ghost from_gives = { λ _ end. end ≡ NoMemory };

    fn from(_: AllocError) -> ExecEnd {
        ExecEnd::NoMemory
    }
}
