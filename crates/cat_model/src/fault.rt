//! Why files give no model.

ghost use Rattle.std.specs.Prelude.{◌≡◌};
ghost use Rattle.cat_model.specs.Labels.{model_label};

use std::alloc::{AllocError, AllocFailed};
use thiserror::Error;
use wb_text::Name;

/// Why files give no model. The numbers are those of the printed refusals.
#[derive(Debug, Drop, PartialEq, Eq, Error)]
#[error("{}", self.label())]
pub enum ModelFault {
    /// The root is no file.
    #[error("{label} {0}", label = self.label())]
    NoCat(Name),
    /// An included name is no file.
    #[error("{label} {0}", label = self.label())]
    NoInclude(Name),
    /// A file that is included on its own path.
    #[error("{label} {0}", label = self.label())]
    IncludeCycle(Name),
    /// A name that is neither bound earlier nor beforehand.
    #[error("{label} {0}", label = self.label())]
    Unbound(Name),
    /// What is bound to this name, or what this check tests, is of the wrong sort.
    #[error("{label} {0}", label = self.label())]
    WrongSort(Name),
    /// A name of a recursive group that stands in the group under a complement or right of a difference.
    #[error("{label} {0}", label = self.label())]
    NotMonotone(Name),
    FlagWithoutName,
    /// More than 4,096 items, or more than 16 files on a path.
    ModelTooLarge,
    /// With each call replaced by its body, the expressions up to that of this name, or of this check, have more than 65,536 nodes in
    /// all, or bodies stand inside one another more than 64 deep.
    #[error("{label} {0}", label = self.label())]
    CallsTooLarge(Name),
    NoMemory,
}

impl ModelFault {
    /// The number and the name that a printed refusal has for this fault.
    pub fn label(&self) -> &'static str
        ensures { result.now ≡ model_label self.now }
    {
        match self {
            ModelFault::NoCat(_) => "61 NoCat",
            ModelFault::NoInclude(_) => "62 NoInclude",
            ModelFault::IncludeCycle(_) => "63 IncludeCycle",
            ModelFault::Unbound(_) => "64 Unbound",
            ModelFault::WrongSort(_) => "65 WrongSort",
            ModelFault::NotMonotone(_) => "66 NotMonotone",
            ModelFault::FlagWithoutName => "67 FlagWithoutName",
            ModelFault::ModelTooLarge => "68 ModelTooLarge",
            ModelFault::CallsTooLarge(_) => "69 CallsTooLarge",
            ModelFault::NoMemory => "NoMemory",
        }
    }
}

impl From<AllocError> for ModelFault {
    ghost use Rattle.cat_model.specs.declared.fault.ModelFault.TheVariants.{NoMemory};

    ghost from_gives = { λ _ e. e ≡ NoMemory };

    fn from(_error: AllocError) -> Self {
        ModelFault::NoMemory
    }
}

impl<T: Drop> From<AllocFailed<T>> for ModelFault {
    ghost use Rattle.cat_model.specs.declared.fault.ModelFault.TheVariants.{NoMemory};

    ghost from_gives = { λ _ e. e ≡ NoMemory };

    fn from(_error: AllocFailed<T>) -> Self {
        ModelFault::NoMemory
    }
}
