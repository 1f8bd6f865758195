//! Why a script isn't read to its end.

use std::alloc::AllocError;
use thiserror::Error;

/// Why a script isn't read to its end.
#[derive(Clone, Copy, Debug, Drop, PartialEq, Eq, Error)]
pub enum ScriptFault {
    /// The reader failed, or more follows 1,000,000 lines.
    #[error("96 Read")]
    Read,
    /// The line of this number, from 1, is none of a script's.
    #[error("98 BadLine {0}")]
    BadLine(u32),
    #[error("NoMemory")]
    NoMemory,
}

impl From<AllocError> for ScriptFault {
    ghost use Rattle.std.specs.Prelude.{◌≡◌};
    ghost use Rattle.scripts.specs.declared.reading_fault.ScriptFault.TheVariants as faults;

    ghost from_gives = { λ _ e. e ≡ faults.NoMemory };

    fn from(_error: AllocError) -> Self {
        ScriptFault::NoMemory
    }
}
