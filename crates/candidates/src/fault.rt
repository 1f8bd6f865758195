//! Why there is no space.

ghost use Rattle.std.specs.Prelude.{◌≡◌};
ghost use Rattle.candidates.specs.Labels.{space_label};

use c11_threads::RunFault;
use std::alloc::{AllocError, AllocFailed};
use thiserror::Error;

/// The most candidates of a test.
pub const MOST_CANDIDATES: u64 = 1 << 32;

/// Why a test's candidates aren't numbered.
#[derive(Clone, Copy, Debug, Drop, PartialEq, Eq, Error)]
#[error("{}", self.label())]
pub enum SpaceFault {
    /// The thread has more than 4,096 runs.
    #[error("{label} {0}", label = self.label())]
    TooManyRuns(usize),
    /// There are more than 2^32 candidates.
    TooManyCandidates,
    NoMemory,
}

impl SpaceFault {
    /// The number and the name that a printed refusal has for this fault.
    pub fn label(self) -> &'static str
        ensures { result.now ≡ space_label self }
    {
        match self {
            SpaceFault::TooManyRuns(thread) => RunFault::TooManyRuns(thread).label(),
            SpaceFault::TooManyCandidates => "41 TooManyCandidates",
            SpaceFault::NoMemory => "NoMemory",
        }
    }
}

impl From<AllocError> for SpaceFault {
    ghost use Rattle.std.specs.Prelude.{◌≡◌};
    ghost use Rattle.candidates.specs.declared.fault.SpaceFault.TheVariants.{NoMemory};

    ghost from_gives = { λ _ e. e ≡ NoMemory };

    fn from(_error: AllocError) -> SpaceFault {
        SpaceFault::NoMemory
    }
}

impl<T: Drop> From<AllocFailed<T>> for SpaceFault {
    ghost use Rattle.std.specs.Prelude.{◌≡◌};
    ghost use Rattle.candidates.specs.declared.fault.SpaceFault.TheVariants.{NoMemory};

    ghost from_gives = { λ _ e. e ≡ NoMemory };

    fn from(_error: AllocFailed<T>) -> SpaceFault {
        SpaceFault::NoMemory
    }
}

impl From<RunFault> for SpaceFault {
    ghost use Rattle.std.specs.Prelude.{◌≡◌};
    ghost use Rattle.candidates.specs.Faults.{space_fault_of};

    ghost from_gives = { λ r e. e ≡ space_fault_of r };

    fn from(fault: RunFault) -> SpaceFault {
        match fault {
            RunFault::TooManyRuns(thread) => SpaceFault::TooManyRuns(thread),
            RunFault::NoMemory => SpaceFault::NoMemory,
        }
    }
}
