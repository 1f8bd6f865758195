//! Why symbols are no model.

ghost use Rattle.std.specs.Prelude.{◌≡◌};

use std::alloc::{AllocError, AllocFailed};

/// Why symbols are no model, at the symbol before which the reader stopped.
#[derive(Clone, Copy, Drop, PartialEq, Eq)]
pub enum SyntaxFault {
    /// Nothing takes the symbol, or the end where more is wanted.
    Unexpected,
    /// The symbol is a name that its group binds already, or its list of parameters has.
    BoundTwice,
    /// The symbol is the name of a function that a `let rec` group binds.
    RecursiveFunction,
    /// Parentheses, brackets and complements nest more than 64 deep.
    TooDeep,
    NoMemory,
}

impl From<AllocError> for SyntaxFault {
    ghost use Rattle.cat_syntax.specs.declared.syntax_fault.SyntaxFault.TheVariants.{NoMemory};

    ghost from_gives = { λ _ e. e ≡ NoMemory };

    fn from(_error: AllocError) -> Self {
        SyntaxFault::NoMemory
    }
}

impl<T: Drop> From<AllocFailed<T>> for SyntaxFault {
    ghost use Rattle.cat_syntax.specs.declared.syntax_fault.SyntaxFault.TheVariants.{NoMemory};

    ghost from_gives = { λ _ e. e ≡ NoMemory };

    fn from(_error: AllocFailed<T>) -> Self {
        SyntaxFault::NoMemory
    }
}
