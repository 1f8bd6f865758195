//! From the bytes of a test and of a model to a summary.

ghost use Rattle.std.specs.Prelude.{◌≡◌, ◌≤◌, ◌↔◌, true, Err, IfSome, IfOk, IfErr, OnOk};
ghost use Rattle.std.specs.Io.KnownBytes.{Keeps};
ghost use Rattle.wb_text.specs.Memory.{LosesAtMost};
ghost use Rattle.program.specs.Refusals.{one_label};
ghost use Rattle.program.specs.Inputs.{text_of, HasFinding, Summarizes, SummarizesPartly, IsRefusal, IsFaultOf, IsOfTexts};

use crate::main_file::model_of;
use candidates::SpaceFault;
use cat_model::ModelFault;
use cat_syntax::{CatFault, read_cat};
use litmus_c::{TestFault, read_test};
use report::{WriteFault, write_summary};
use slices::{Verdict, Work, WorkRef};
use std::alloc::{AllocError, Global};
use thiserror::Error;
use wb_text::{ReadFault, Sink, Source, read_up_to};

/// The most bytes of an input that are read.
const MOST_BYTES: usize = 65_537;

/// Why there is no summary, or not all of it.
#[derive(Debug, Drop, PartialEq, Eq, Error)]
#[error("{}", self.label())]
pub enum OneFault {
    /// The reader failed.
    Read,
    /// The input is no test.
    #[error("{0}")]
    Test(TestFault),
    /// The cat text is no file.
    #[error("{0}")]
    Cat(CatFault),
    /// The file gives no model.
    #[error("{0}")]
    Model(ModelFault),
    /// The test has too many runs or candidates.
    #[error("{0}")]
    Space(SpaceFault),
    /// The writer failed.
    Write,
    NoMemory,
}

/// Reads the whole input as one test and writes the summary of its executions that the cat text's model allows. They are
/// evaluated in `total` slices, which the summary doesn't show. The cat text is the file `main.cat`, at version 1, beside the built-in files.
///
/// The faults are tried in the order of `OneFault`.
pub fn one<R: Source, W: Sink>(
    alloc: Global,
    reader: &mut R,
    cat: &[u8],
    total: u16,
    writer: &mut W,
) -> Result<(), OneFault>
    requires slices { (1 ≤ total) × (total ≤ 256) }

    // The input reads as a test and the cat text gives a model, and the writer got the summary of a right verdict on them.
    ensures summary { OnOk result (IfSome (R.left reader.old) (λ input.
        Summarizes (text_of input) cat.now (W.held writer.old) (W.held writer.new))) }
    // Where the writer fails, it got a prefix of that summary.
    ensures part { result ≡ Err OneFault.Write → IfSome (R.left reader.old) (λ input.
        SummarizesPartly (text_of input) cat.now (W.held writer.old) (W.held writer.new)) }
    // At every other fault it got nothing.
    ensures nothing { IfErr result (λ e.
        ¬ (e ≡ OneFault.Write) → Keeps (W.held writer.old) (W.held writer.new)) }

    // The faults of the test, the cat text, the model and the space come only where they hold, and no earlier one does.
    ensures refusal { IfErr result (λ e.
        IfSome (R.left reader.old) (λ input. IsFaultOf (text_of input) cat.now e)) }
    ensures read { result ≡ Err OneFault.Read → R.has_failed reader.new ≡ true }
    ensures write { result ≡ Err OneFault.Write → W.has_failed writer.new ≡ true }
    ensures taken { LosesAtMost 65537 (R.left reader.old) (R.left reader.new) }
{
    let text = read_up_to(alloc, reader, MOST_BYTES)?;
    let verdict = judge(alloc, &text, cat, total)?;
    Ok(write_summary(&verdict, writer)?)
}

/// The verdict on the test that a text is, under the model that a cat text gives.
fn judge(alloc: Global, text: &[u8], cat: &[u8], total: u16) -> Result<Verdict, OneFault>
    requires slices { (1 ≤ total) × (total ≤ 256) }
    ensures found { IfOk result (λ v. HasFinding text.now cat.now v.finding) }
    ensures refusal { IfErr result (IsRefusal text.now cat.now) }
{
    let test = read_test(alloc, text)?;
    let file = read_cat(alloc, cat)?;
    let model = model_of(alloc, file)?;
    let work = Work::new(alloc, test, model)?;
    Ok(Verdict::judge(alloc, WorkRef::new(alloc, work)?, total, 1)?)
}

impl OneFault {
    /// The number and the name of this fault.
    pub fn label(&self) -> &'static str
        ensures { result.now ≡ one_label self.now }
    {
        match self {
            OneFault::Read => "96 Read",
            OneFault::Test(fault) => fault.label(),
            OneFault::Cat(fault) => fault.label(),
            OneFault::Model(fault) => fault.label(),
            OneFault::Space(fault) => fault.label(),
            OneFault::Write => "97 Write",
            OneFault::NoMemory => "NoMemory",
        }
    }

    /// Whether the input or the cat text is refused: as a test, as a model, or by the space of the candidates.
    pub fn is_refusal(&self) -> bool
        ensures { (result ≡ true) ↔ IsOfTexts self.now }
    {
        matches!(
            self,
            OneFault::Test(_) | OneFault::Cat(_) | OneFault::Model(_) | OneFault::Space(_)
        )
    }
}

impl From<AllocError> for OneFault {
    ghost use Rattle.std.specs.Prelude.{◌≡◌};
    ghost use Rattle.program.specs.declared.summary.OneFault.TheVariants as faults;

    ghost from_gives = { λ _ e. e ≡ faults.NoMemory };

    fn from(_error: AllocError) -> Self {
        OneFault::NoMemory
    }
}

impl From<ReadFault> for OneFault {
    ghost use Rattle.std.specs.Prelude.{◌≡◌};
    ghost use Rattle.program.specs.Faults.{read_fault};

    ghost from_gives = { λ f e. e ≡ read_fault f };

    fn from(fault: ReadFault) -> Self {
        match fault {
            ReadFault::Failed => OneFault::Read,
            ReadFault::NoMemory => OneFault::NoMemory,
        }
    }
}

impl From<TestFault> for OneFault {
    ghost use Rattle.std.specs.Prelude.{◌≡◌};
    ghost use Rattle.program.specs.Faults.{test_fault};

    ghost from_gives = { λ f e. e ≡ test_fault f };

    fn from(fault: TestFault) -> Self {
        match fault {
            TestFault::NoMemory => OneFault::NoMemory,
            fault => OneFault::Test(fault),
        }
    }
}

impl From<CatFault> for OneFault {
    ghost use Rattle.std.specs.Prelude.{◌≡◌};
    ghost use Rattle.program.specs.Faults.{cat_fault};

    ghost from_gives = { λ f e. e ≡ cat_fault f };

    fn from(fault: CatFault) -> Self {
        match fault {
            CatFault::NoMemory => OneFault::NoMemory,
            fault => OneFault::Cat(fault),
        }
    }
}

impl From<ModelFault> for OneFault {
    ghost use Rattle.std.specs.Prelude.{◌≡◌};
    ghost use Rattle.program.specs.Faults.{model_fault};

    ghost from_gives = { λ f e. e ≡ model_fault f };

    fn from(fault: ModelFault) -> Self {
        match fault {
            ModelFault::NoMemory => OneFault::NoMemory,
            fault => OneFault::Model(fault),
        }
    }
}

impl From<SpaceFault> for OneFault {
    ghost use Rattle.std.specs.Prelude.{◌≡◌};
    ghost use Rattle.program.specs.Faults.{space_fault};

    ghost from_gives = { λ f e. e ≡ space_fault f };

    fn from(fault: SpaceFault) -> Self {
        match fault {
            SpaceFault::NoMemory => OneFault::NoMemory,
            fault => OneFault::Space(fault),
        }
    }
}

impl From<WriteFault> for OneFault {
    ghost use Rattle.std.specs.Prelude.{◌≡◌};
    ghost use Rattle.program.specs.declared.summary.OneFault.TheVariants as faults;

    ghost from_gives = { λ _ e. e ≡ faults.Write };

    fn from(_fault: WriteFault) -> Self {
        OneFault::Write
    }
}
