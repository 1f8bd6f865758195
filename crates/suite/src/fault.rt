//! Why a text isn't judged.

ghost use Rattle.std.specs.Prelude.{◌≡◌};
ghost use Rattle.suite.specs.Troubles.{text_trouble, files_trouble, test_trouble, space_trouble};

use candidates::SpaceFault;
use cat_model::ModelFault;
use cat_syntax::CatFault;
use litmus_c::TestFault;
use std::alloc::{AllocError, AllocFailed};

/// Why cat texts give no model.
#[derive(Debug, PartialEq, Eq)]
pub enum ModelTrouble {
    /// The text at this place is no cat file.
    Text(usize, CatFault),
    /// The text at this place has the name of an earlier one.
    Twice(usize),
    /// The files give no model.
    Model(ModelFault),
    NoMemory,
}

// A function of its own, as below: whoever holds one drops it by a call.
impl Drop for ModelTrouble {
    fn drop(self) {
        match self {
            ModelTrouble::Text(_, _) => {}
            ModelTrouble::Twice(_) => {}
            ModelTrouble::Model(_) => {}
            ModelTrouble::NoMemory => {}
        }
    }
}

/// Why a text has no verdict.
#[derive(Debug, PartialEq, Eq)]
pub enum TestTrouble {
    /// The text is no test.
    Test(TestFault),
    /// The test has too many runs or candidates.
    Space(SpaceFault),
    /// It took longer than whoever asked would wait.
    Late,
    NoMemory,
}

impl Drop for TestTrouble {
    fn drop(self) {
        match self {
            TestTrouble::Test(_) => {}
            TestTrouble::Space(_) => {}
            TestTrouble::Late => {}
            TestTrouble::NoMemory => {}
        }
    }
}

impl ModelTrouble {
    /// What is wrong with the text at a place.
    pub(crate) fn of_text(place: usize, fault: CatFault) -> Self
        ensures { result ≡ text_trouble place fault }
    {
        match fault {
            CatFault::NoMemory => ModelTrouble::NoMemory,
            fault => ModelTrouble::Text(place, fault),
        }
    }

    /// What is wrong with the files.
    pub(crate) fn of_files(fault: ModelFault) -> Self
        ensures { result ≡ files_trouble fault }
    {
        match fault {
            ModelFault::NoMemory => ModelTrouble::NoMemory,
            fault => ModelTrouble::Model(fault),
        }
    }
}

impl TestTrouble {
    /// What is wrong with a text.
    pub(crate) fn of_test(fault: TestFault) -> Self
        ensures { result ≡ test_trouble fault }
    {
        match fault {
            TestFault::NoMemory => TestTrouble::NoMemory,
            fault => TestTrouble::Test(fault),
        }
    }

    /// What is wrong with a test.
    pub(crate) fn of_space(fault: SpaceFault) -> Self
        ensures { result ≡ space_trouble fault }
    {
        match fault {
            SpaceFault::NoMemory => TestTrouble::NoMemory,
            fault => TestTrouble::Space(fault),
        }
    }
}

impl From<AllocError> for ModelTrouble {
    ghost use Rattle.std.specs.Prelude.{◌≡◌};
    ghost use Rattle.suite.specs.declared.fault.ModelTrouble.TheVariants.{NoMemory};

    ghost from_gives = { λ _ e. e ≡ NoMemory };

    fn from(_error: AllocError) -> Self {
        ModelTrouble::NoMemory
    }
}

impl From<AllocError> for TestTrouble {
    ghost use Rattle.std.specs.Prelude.{◌≡◌};
    ghost use Rattle.suite.specs.declared.fault.TestTrouble.TheVariants.{NoMemory};

    ghost from_gives = { λ _ e. e ≡ NoMemory };

    fn from(_error: AllocError) -> Self {
        TestTrouble::NoMemory
    }
}

impl<T: Drop> From<AllocFailed<T>> for TestTrouble {
    ghost use Rattle.std.specs.Prelude.{◌≡◌};
    ghost use Rattle.suite.specs.declared.fault.TestTrouble.TheVariants.{NoMemory};

    ghost from_gives = { λ _ e. e ≡ NoMemory };

    fn from(_error: AllocFailed<T>) -> Self {
        TestTrouble::NoMemory
    }
}
