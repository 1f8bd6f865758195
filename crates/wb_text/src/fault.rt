//! Why a text or a name is refused, and why bytes did not move.

ghost use Rattle.std.specs.Prelude.{◌≡◌};
ghost use Rattle.wb_text.specs.Labels.{text_label};

use std::alloc::{AllocError, AllocFailed};
use thiserror::Error;

/// Why a text has no token list.
#[derive(Clone, Copy, Debug, Drop, PartialEq, Eq, Error)]
#[error("{}", self.label())]
pub enum TextFault {
    /// A byte above 127 outside comments and a test's information.
    NotAscii,
    /// A byte that begins no token.
    BadByte,
    /// A comment that is never closed.
    OpenComment,
    /// A quoted text that is never closed.
    OpenString,
    /// A number above 2,147,483,647.
    NumberTooBig,
    /// A text of more than 65,536 bytes.
    TooLong,
    NoMemory,
}

impl TextFault {
    /// The number and the name that a printed refusal has for this fault.
    pub fn label(self) -> &'static str
        ensures { result.now ≡ text_label self }
    {
        match self {
            TextFault::NotAscii => "1 NotAscii",
            TextFault::BadByte => "2 BadByte",
            TextFault::OpenComment => "3 OpenComment",
            TextFault::OpenString => "4 OpenString",
            TextFault::NumberTooBig => "5 NumberTooBig",
            TextFault::TooLong => "6 TooLong",
            TextFault::NoMemory => "NoMemory",
        }
    }
}

/// Why bytes are no name.
#[derive(Clone, Copy, Debug, Drop, PartialEq, Eq, Error)]
pub enum NameFault {
    /// Not 1 to 64 bytes of 33 to 126.
    #[error("7 BadName")]
    BadName,
    #[error("NoMemory")]
    NoMemory,
}

/// A source or a sink that fails. It keeps its mark of failure from then on.
#[derive(Clone, Copy, Debug, Drop, PartialEq, Eq, Error)]
#[error("failed")]
pub struct Failed;

/// Why bytes were not read to their end or limit.
#[derive(Clone, Copy, Debug, Drop, PartialEq, Eq, Error)]
pub enum ReadFault {
    #[error("failed")]
    Failed,
    #[error("NoMemory")]
    NoMemory,
}

impl From<AllocError> for TextFault {
    ghost use Rattle.wb_text.specs.declared.fault.TextFault.TheVariants.{NoMemory};

    ghost from_gives = { λ _ e. e ≡ NoMemory };

    fn from(_error: AllocError) -> Self {
        TextFault::NoMemory
    }
}

impl<T: Drop> From<AllocFailed<T>> for TextFault {
    ghost use Rattle.wb_text.specs.declared.fault.TextFault.TheVariants.{NoMemory};

    ghost from_gives = { λ _ e. e ≡ NoMemory };

    fn from(_error: AllocFailed<T>) -> Self {
        TextFault::NoMemory
    }
}

impl From<AllocError> for NameFault {
    ghost use Rattle.wb_text.specs.declared.fault.NameFault.TheVariants.{NoMemory};

    ghost from_gives = { λ _ e. e ≡ NoMemory };

    fn from(_error: AllocError) -> Self {
        NameFault::NoMemory
    }
}

impl From<AllocError> for ReadFault {
    ghost use Rattle.wb_text.specs.declared.fault.ReadFault.TheVariants.{NoMemory};

    ghost from_gives = { λ _ e. e ≡ NoMemory };

    fn from(_error: AllocError) -> Self {
        ReadFault::NoMemory
    }
}

impl From<Failed> for ReadFault {
    ghost use Rattle.wb_text.specs.declared.fault.ReadFault.TheVariants.{Failed};

    ghost from_gives = { λ _ e. e ≡ Failed };

    fn from(_error: Failed) -> Self {
        ReadFault::Failed
    }
}
