//! Why there are no runs.

ghost use Rattle.std.specs.Prelude.{◌≡◌};
ghost use Rattle.c11_threads.specs.Labels.{run_label};

use std::alloc::{AllocError, AllocFailed};
use thiserror::Error;

/// The most runs of a thread.
pub const MOST_RUNS: usize = 4096;

/// Why a thread's runs aren't listed. The numbers are those of the printed refusals.
#[derive(Clone, Copy, Debug, Drop, PartialEq, Eq, Error)]
#[error("{}", self.label())]
pub enum RunFault {
    /// The thread has more than 4,096 runs.
    #[error("{label} {0}", label = self.label())]
    TooManyRuns(usize),
    NoMemory,
}

impl RunFault {
    /// The number and the name that a printed refusal has for this fault.
    pub fn label(self) -> &'static str
        ensures { result.now ≡ run_label self }
    {
        match self {
            RunFault::TooManyRuns(_) => "31 TooManyRuns",
            RunFault::NoMemory => "NoMemory",
        }
    }
}

impl From<AllocError> for RunFault {
    ghost use Rattle.std.specs.Prelude.{◌≡◌};
    ghost use Rattle.c11_threads.specs.declared.fault.RunFault.TheVariants.{NoMemory};

    ghost from_gives = { λ _ e. e ≡ NoMemory };

    fn from(_error: AllocError) -> RunFault {
        RunFault::NoMemory
    }
}

impl<T: Drop> From<AllocFailed<T>> for RunFault {
    ghost use Rattle.std.specs.Prelude.{◌≡◌};
    ghost use Rattle.c11_threads.specs.declared.fault.RunFault.TheVariants.{NoMemory};

    ghost from_gives = { λ _ e. e ≡ NoMemory };

    fn from(_error: AllocFailed<T>) -> RunFault {
        RunFault::NoMemory
    }
}
