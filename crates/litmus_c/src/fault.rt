//! Why a test is refused.

ghost use Rattle.std.specs.Prelude.{◌≡◌};
ghost use Rattle.litmus_c.specs.Labels.{test_label};

use std::alloc::{AllocError, AllocFailed};
use thiserror::Error;
use wb_text::{Name, TextFault};

/// Why a text is no test. The numbers are those of the printed refusals.
#[derive(Debug, Drop, PartialEq, Eq, Error)]
#[error("{}", self.label())]
pub enum TestFault {
    #[error("{label} {0}", label = self.label())]
    Text(TextFault),
    #[error("{label} {0}", label = self.label())]
    Syntax(usize),
    /// A call with an order that it doesn't take.
    BadOrder,
    /// A name, a thread or a location that isn't there, or a parameter in a register's place.
    UnknownName,
    /// A plain access to a location that is a parameter of type `atomic_int*`.
    PlainOnAtomic,
    /// A call on a location that is a parameter of type `int*`.
    AtomicOnPlain,
    /// A word of C or of the kernel that the language leaves out.
    #[error("{label} {0}", label = self.label())]
    Unsupported(Name),
    /// More than 32 levels of nesting.
    TooDeep,
    /// More than 8 threads.
    TooManyThreads,
    /// More than 8 locations.
    TooManyLocations,
    /// More than 64 events, one initial write of each location among them.
    TooManyEvents,
    /// More than 16 values.
    TooManyValues,
    /// A value above 2,147,483,647.
    ValueTooBig,
    NoMemory,
}

impl TestFault {
    /// The number and the name that a printed refusal has for this fault.
    pub fn label(&self) -> &'static str
        ensures { result.now ≡ test_label self.now }
    {
        match self {
            TestFault::Text(_) => "11 Text",
            TestFault::Syntax(_) => "12 Syntax",
            TestFault::BadOrder => "13 BadOrder",
            TestFault::UnknownName => "14 UnknownName",
            TestFault::PlainOnAtomic => "15 PlainOnAtomic",
            TestFault::AtomicOnPlain => "16 AtomicOnPlain",
            TestFault::Unsupported(_) => "17 Unsupported",
            TestFault::TooDeep => "18 TooDeep",
            TestFault::TooManyThreads => "19 TooManyThreads",
            TestFault::TooManyLocations => "20 TooManyLocations",
            TestFault::TooManyEvents => "21 TooManyEvents",
            TestFault::TooManyValues => "22 TooManyValues",
            TestFault::ValueTooBig => "23 ValueTooBig",
            TestFault::NoMemory => "NoMemory",
        }
    }
}

impl From<AllocError> for TestFault {
    ghost use Rattle.litmus_c.specs.declared.fault.TestFault.TheVariants.{NoMemory};

    ghost from_gives = { λ _ e. e ≡ NoMemory };

    fn from(_error: AllocError) -> Self {
        TestFault::NoMemory
    }
}

impl<T: Drop> From<AllocFailed<T>> for TestFault {
    ghost use Rattle.litmus_c.specs.declared.fault.TestFault.TheVariants.{NoMemory};

    ghost from_gives = { λ _ e. e ≡ NoMemory };

    fn from(_error: AllocFailed<T>) -> Self {
        TestFault::NoMemory
    }
}

impl From<TextFault> for TestFault {
    ghost use Rattle.litmus_c.specs.Reads.{text_refusal};

    ghost from_gives = { λ f e. e ≡ text_refusal f };

    fn from(fault: TextFault) -> Self {
        match fault {
            TextFault::NoMemory => TestFault::NoMemory,
            _ => TestFault::Text(fault),
        }
    }
}
