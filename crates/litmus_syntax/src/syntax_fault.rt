//! Why symbols are no test.

ghost use Rattle.std.specs.Prelude.{◌≡◌};

use std::alloc::{AllocError, AllocFailed};

/// Why the grammar has no test of these symbols.
#[derive(Clone, Copy, Debug, Drop, PartialEq, Eq)]
pub enum SyntaxFault {
    /// How many symbols are left, from the first that the grammar doesn't take on: none where more is wanted.
    Syntax(usize),
    /// A call with an order that it doesn't take.
    BadOrder,
    /// Something nests more than `MOST_NESTED` deep.
    TooDeep,
    NoMemory,
}

impl From<AllocError> for SyntaxFault {
    ghost use Rattle.litmus_syntax.specs.declared.syntax_fault.SyntaxFault.TheVariants.{NoMemory};

    ghost from_gives = { λ _ e. e ≡ NoMemory };

    fn from(_error: AllocError) -> Self {
        SyntaxFault::NoMemory
    }
}

impl<T: Drop> From<AllocFailed<T>> for SyntaxFault {
    ghost use Rattle.litmus_syntax.specs.declared.syntax_fault.SyntaxFault.TheVariants.{NoMemory};

    ghost from_gives = { λ _ e. e ≡ NoMemory };

    fn from(_error: AllocFailed<T>) -> Self {
        SyntaxFault::NoMemory
    }
}
