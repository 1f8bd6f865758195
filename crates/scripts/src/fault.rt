//! Why a script is not done to its end.

use sessions::FinishCause;
use std::alloc::AllocError;
use thiserror::Error;
use wb_text::Failed;

/// Why a script is not done to its end.
#[derive(Clone, Copy, Debug, Drop, PartialEq, Eq, Error)]
pub enum ServeFault {
    /// The reader failed, or more follows 1,000,000 lines.
    #[error("96 Read")]
    Read,
    /// The writer failed.
    #[error("97 Write")]
    Write,
    /// The line of this number, from 1, is none of a script's.
    #[error("98 BadLine {0}")]
    BadLine(u32),
    /// The receipts of the passes are not the journal.
    #[error("99 Finish {0}")]
    Finish(FinishCause),
    #[error("NoMemory")]
    NoMemory,
}

impl From<AllocError> for ServeFault {
    ghost use Rattle.std.specs.Prelude.{◌≡◌};
    ghost use Rattle.scripts.specs.declared.fault.ServeFault.TheVariants as faults;

    ghost from_gives = { λ _ e. e ≡ faults.NoMemory };

    fn from(_error: AllocError) -> Self {
        ServeFault::NoMemory
    }
}

/// Of a writer: a reader that fails is met where it is read.
impl From<Failed> for ServeFault {
    ghost use Rattle.std.specs.Prelude.{◌≡◌};
    ghost use Rattle.scripts.specs.declared.fault.ServeFault.TheVariants as faults;

    ghost from_gives = { λ _ e. e ≡ faults.Write };

    fn from(_error: Failed) -> Self {
        ServeFault::Write
    }
}
