//! Why a run ends early.

use outcome::Status;
use std::alloc::{AllocError, AllocFailed};
use std::io;
use thiserror::Error;

/// Why a run ends early.
#[derive(Debug, Drop, Error)]
pub enum Trouble {
    #[error("standard output: {0}")]
    Write(io::Error),
    /// What was wrong has been told already, and the run ends so.
    #[error("what was wrong has been told")]
    Told(Status),
    #[error("memory ran out")]
    NoMemory,
}

impl From<io::Error> for Trouble {
    fn from(error: io::Error) -> Self {
        Trouble::Write(error)
    }
}

impl From<AllocError> for Trouble {
    fn from(_error: AllocError) -> Self {
        Trouble::NoMemory
    }
}

impl<T: Drop> From<AllocFailed<T>> for Trouble {
    fn from(_error: AllocFailed<T>) -> Self {
        Trouble::NoMemory
    }
}

/// What was wrong and has been told, if it could be. The run ends so.
pub(crate) fn told(status: Status, printed: io::Result<()>) -> Trouble {
    match printed {
        Ok(()) => Trouble::Told(status),
        Err(error) => Trouble::Write(error),
    }
}

/// Tells on standard error that a file can't be read or written.
pub(crate) fn unreadable<R: Eprint>(rt: &R, path: &str, error: &io::Error) -> Trouble {
    told(Status::Failed, eprintln!(rt; "{path}: {error}"))
}
