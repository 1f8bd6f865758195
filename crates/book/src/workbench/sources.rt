//! What puts and drops of tests and cat files do.

ghost use Rattle.std.specs.Prelude.{◌≡◌, true, false, IfOk};
ghost use Rattle.book.specs.Changes.{changed, IsReady};
ghost use Rattle.book.specs.Step.{Step};
ghost use Rattle.journal.specs.Lines.{answers};
ghost use Rattle.journal.specs.declared.records.Said.{Said};

use crate::names::TestSlot;
use crate::plan::{Change, Plan};
use crate::reading::{is_cat_memory, is_memory, read_file, read_litmus};
use crate::workbench::Bench;
use cat_model::ModelFault;
use journal::{Refusal, Reply, Text};
use std::alloc::{AllocError, Global};
use wb_text::Name;

impl Bench {
    #[tactic(auto, using(crate::proofs::Steps::cat_unread, crate::proofs::Steps::cat_spent, crate::proofs::Steps::cat_put))]
    pub(crate) fn decide_put_cat(
        &self,
        alloc: Global,
        name: &Name,
        text: &Text,
    ) -> Result<Plan, AllocError>
        requires { self.now.closed ≡ false }
        ensures step { IfOk result (λ p. Step self.now 0 (Said.PutCat name.now text.now) p.reply (changed self.now p.change)) }
        ensures kind { IfOk result (λ p. answers (Said.PutCat name.now text.now) p.reply ≡ true) }
        ensures ready { IfOk result (λ p. IsReady self.now p.change) }
    {
        let told = name.copy()?;
        let stored = name.copy()?;
        let file = match read_file(alloc, text.bytes()) {
            Ok(file) => file,
            Err(fault) => {
                if is_cat_memory(&fault) {
                    return Err(AllocError);
                }
                return Ok(Plan::refuse(Refusal::ReadingCat(fault)));
            }
        };
        let version = self.cats.version(name);
        if version >= self.limits.versions {
            return Ok(Plan::refuse(Refusal::VersionsSpent(told)));
        }
        Ok(Plan {
            reply: Reply::Version(told, version + 1),
            change: Change::PutCat(stored, version + 1, file),
        })
    }

    #[tactic(auto)]
    pub(crate) fn decide_put_test(&self, alloc: Global, text: &Text) -> Result<Plan, AllocError>
        requires { self.now.closed ≡ false }
        ensures step { IfOk result (λ p. Step self.now 0 (Said.PutTest text.now) p.reply (changed self.now p.change)) }
        ensures kind { IfOk result (λ p. answers (Said.PutTest text.now) p.reply ≡ true) }
        ensures ready { IfOk result (λ p. IsReady self.now p.change) }
    {
        let test = match read_litmus(alloc, text.bytes()) {
            Ok(test) => test,
            Err(fault) => {
                if is_memory(&fault) {
                    return Err(AllocError);
                }
                return Ok(Plan::refuse(Refusal::ReadingTest(fault)));
            }
        };
        let name = test.name().copy()?;
        let version = self.tests.version(&name);
        if version >= self.limits.versions {
            return Ok(Plan::refuse(Refusal::VersionsSpent(name)));
        }
        let slot = TestSlot {
            version: version + 1,
            tree: Some(test),
        };
        Ok(Plan {
            reply: Reply::Version(name.copy()?, version + 1),
            change: Change::SetTest(name, slot),
        })
    }

    #[tactic(auto, using(crate::proofs::Drops::cat_away, crate::proofs::Drops::cat_drop_spent, crate::proofs::Drops::cat_dropped))]
    pub(crate) fn decide_drop_cat(&self, name: &Name) -> Result<Plan, AllocError>
        requires { self.now.closed ≡ false }
        ensures step { IfOk result (λ p. Step self.now 0 (Said.DropCat name.now) p.reply (changed self.now p.change)) }
        ensures kind { IfOk result (λ p. answers (Said.DropCat name.now) p.reply ≡ true) }
        ensures ready { IfOk result (λ p. IsReady self.now p.change) }
    {
        if !self.cats.is_loaded(name) {
            let fault = ModelFault::NoCat(name.copy()?);
            return Ok(Plan::refuse(Refusal::Model(fault)));
        }
        let version = self.cats.version(name);
        if version >= self.limits.versions {
            return Ok(Plan::refuse(Refusal::VersionsSpent(name.copy()?)));
        }
        Ok(Plan {
            reply: Reply::Version(name.copy()?, version + 1),
            change: Change::DropCat(name.copy()?, version + 1),
        })
    }

    #[tactic(auto, using(crate::proofs::Drops::test_away, crate::proofs::Drops::test_drop_spent, crate::proofs::Drops::test_dropped))]
    pub(crate) fn decide_drop_test(&self, name: &Name) -> Result<Plan, AllocError>
        requires { self.now.closed ≡ false }
        ensures step { IfOk result (λ p. Step self.now 0 (Said.DropTest name.now) p.reply (changed self.now p.change)) }
        ensures kind { IfOk result (λ p. answers (Said.DropTest name.now) p.reply ≡ true) }
        ensures ready { IfOk result (λ p. IsReady self.now p.change) }
    {
        if !self.tests.is_there(name) {
            return Ok(Plan::refuse(Refusal::NoTest(name.copy()?)));
        }
        let version = self.tests.version(name);
        if version >= self.limits.versions {
            return Ok(Plan::refuse(Refusal::VersionsSpent(name.copy()?)));
        }
        let slot = TestSlot {
            version: version + 1,
            tree: None,
        };
        Ok(Plan {
            reply: Reply::Version(name.copy()?, version + 1),
            change: Change::SetTest(name.copy()?, slot),
        })
    }
}
