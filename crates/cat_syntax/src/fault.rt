//! Why a text is no model.

ghost use Rattle.std.specs.Prelude.{◌≡◌};
ghost use Rattle.cat_syntax.specs.Labels.{cat_label};

use std::alloc::{AllocError, AllocFailed};
use thiserror::Error;
use wb_text::{Name, TextFault};

/// Why a text is no model. The numbers are those of the printed refusals.
#[derive(Debug, Drop, PartialEq, Eq, Error)]
#[error("{}", self.label())]
pub enum CatFault {
    /// The text has no tokens.
    #[error("{label} {0}", label = self.label())]
    Text(TextFault),
    /// The first token that no continuation takes, by its offset; the text's length at its end.
    #[error("{label} {0}", label = self.label())]
    Syntax(usize),
    /// A word of herd7's language that this one leaves out.
    #[error("{label} {0}", label = self.label())]
    Unsupported(Name),
    /// Parentheses, brackets and complements nest more than 64 deep.
    TooDeep,
    /// More than 4,096 nodes.
    TooLarge,
    NoMemory,
}

impl CatFault {
    /// The number and the name that a printed refusal has for this fault.
    pub fn label(&self) -> &'static str
        ensures { result.now ≡ cat_label self.now }
    {
        match self {
            CatFault::Text(_) => "51 Text",
            CatFault::Syntax(_) => "52 Syntax",
            CatFault::Unsupported(_) => "53 Unsupported",
            CatFault::TooDeep => "54 TooDeep",
            CatFault::TooLarge => "55 TooLarge",
            CatFault::NoMemory => "NoMemory",
        }
    }
}

impl From<AllocError> for CatFault {
    ghost use Rattle.cat_syntax.specs.declared.fault.CatFault.TheVariants.{NoMemory};

    ghost from_gives = { λ _ e. e ≡ NoMemory };

    fn from(_error: AllocError) -> Self {
        CatFault::NoMemory
    }
}

impl<T: Drop> From<AllocFailed<T>> for CatFault {
    ghost use Rattle.cat_syntax.specs.declared.fault.CatFault.TheVariants.{NoMemory};

    ghost from_gives = { λ _ e. e ≡ NoMemory };

    fn from(_error: AllocFailed<T>) -> Self {
        CatFault::NoMemory
    }
}

impl From<TextFault> for CatFault {
    ghost use Rattle.cat_syntax.specs.Faults.{cause_of};

    ghost from_gives = { λ f e. e ≡ cause_of f };

    fn from(fault: TextFault) -> Self {
        match fault {
            TextFault::NoMemory => CatFault::NoMemory,
            fault => CatFault::Text(fault),
        }
    }
}
