//! Verdicts.

ghost use Rattle.std.specs.Prelude.{◌≡◌, IfOk};
ghost use Rattle.slices.specs.Findings.{is_ok};
ghost use Rattle.slices.specs.Findings.{word};
ghost use Rattle.slices.specs.Verdicts.{IsVerdict};

use crate::finding::{Finding, FindingRef};
use crate::row::Row;
use crate::work::WorkRef;
use cat_model::FileVersion;
use std::alloc::{AllocError, Global};
use std::collections::BTreeSet;
use std::marker::Model;
use std::sync::Arc;
use wb_text::Name;

/// The verdict on a work: it is right for the work's test under its model.
pub struct Verdict {
    work: WorkRef,
    version: u32,
    found: FindingRef,
}

// A function of its own: whoever holds one drops it by a call.
impl Drop for Verdict {
    fn drop(self) {
        let Verdict {
            work: _,
            version: _,
            found: _,
        } = self;
    }
}

impl Model for Verdict {
    ghost use Rattle.slices.specs.Codes.{coded_verdict};
    ghost use Rattle.slices.specs.VerdictValues.{VerdictValue};
    ghost use Rattle.slices.specs.Verdicts.{IsVerdict};

    ghost Value = { VerdictValue };

    ghost coded = { coded_verdict };

    ghost view = { λ v. record { work = v.work; version = v.version; finding = v.found } };

    ghost invariant = { λ v. IsVerdict v.work.test v.work.model.items v.found };
}

/// A verdict that is kept more than once. Contracts see the verdict.
pub struct VerdictRef {
    verdict: Arc<Verdict>,
}

// A function of its own: whoever holds one drops it by a call.
impl Drop for VerdictRef {
    fn drop(self) {
        let VerdictRef { verdict: _ } = self;
    }
}

impl Model for VerdictRef {
    ghost use Rattle.std.specs.Arc.{arc_value};
    ghost use Rattle.slices.specs.Codes.{coded_verdict};
    ghost use Rattle.slices.specs.VerdictValues.{VerdictValue};

    ghost Value = { VerdictValue };

    ghost coded = { coded_verdict };

    ghost view = { λ v. arc_value v.verdict };
}

impl VerdictRef {
    /// Keeps a verdict.
    pub fn new(alloc: Global, verdict: Verdict) -> Result<Self, AllocError>
        ensures value { IfOk result (λ v. v ≡ verdict) }
    {
        Ok(VerdictRef {
            verdict: Arc::new(alloc, verdict)?,
        })
    }

    /// The verdict.
    pub fn verdict(&self) -> &Verdict
        ensures { result.now ≡ self.now }
    {
        &self.verdict
    }

    /// The same verdict, kept once more.
    pub fn share(&self) -> Result<Self, AllocError>
        ensures { IfOk result (λ v. v ≡ self.now) }
    {
        Ok(VerdictRef {
            verdict: Arc::try_clone(&self.verdict)?,
        })
    }
}

impl Verdict {
    pub(crate) fn new(work: WorkRef, version: u32, found: FindingRef) -> Self
        requires { IsVerdict work.test work.model.items found }
        ensures { result ≡ record { work = work; version = version; finding = found } }
    {
        Verdict {
            work,
            version,
            found,
        }
    }

    /// The name of the test.
    pub fn name(&self) -> &Name
        ensures name { result.now ≡ self.now.finding.name }
        ensures test { result.now ≡ self.now.work.test.name }
    {
        self.work.work().test().name()
    }

    /// The work that was judged.
    pub fn work(&self) -> &WorkRef
        ensures { result.now ≡ self.now.work }
    {
        &self.work
    }

    /// The version of the test.
    pub fn version(&self) -> u32
        ensures { result ≡ self.now.version }
    {
        self.version
    }

    /// The files of the model with their versions, the root first.
    pub fn versions(&self) -> &[FileVersion]
        ensures { result.now ≡ self.now.work.model.files }
    {
        self.work.work().model().files()
    }

    /// What is found over all allowed executions, each counted once.
    pub fn finding(&self) -> &Finding
        ensures finding { result.now ≡ self.now.finding }
        ensures right { IsVerdict self.now.work.test self.now.work.model.items self.now.finding }
    {
        self.found.finding()
    }

    /// How many executions have the proposition.
    pub fn positive(&self) -> u64
        ensures { result ≡ self.now.finding.positive }
    {
        self.found.finding().positive()
    }

    /// How many executions don't have it.
    pub fn negative(&self) -> u64
        ensures { result ≡ self.now.finding.negative }
    {
        self.found.finding().negative()
    }

    /// The final states, once each, in order.
    pub fn states(&self) -> &BTreeSet<Row>
        ensures { result.now.keys ≡ self.now.finding.states }
    {
        self.found.finding().states()
    }

    /// The names of the flags that were raised, once each, in order of their bytes.
    pub fn flags(&self) -> &[Name]
        ensures { result.now ≡ self.now.finding.flags }
    {
        self.found.finding().flags()
    }

    /// Whether the answer to the test's question is yes.
    pub fn ok(&self) -> bool
        ensures { result ≡ is_ok self.now.finding }
    {
        self.found.finding().ok()
    }

    /// How often the proposition was seen: `Never`, `Always` or `Sometimes`.
    pub fn word(&self) -> &str
        ensures { result.now ≡ word self.now.finding }
    {
        self.found.finding().word()
    }
}
