//! What is done with jobs: they are asked, polled, released, forgotten and listed.

ghost use Rattle.std.specs.Prelude.{◌≡◌, ◌↔◌, ◌<◌, ◌+◌, ◌^◌, Some, true, false, IfOk, IfErr, IfSome, IsTrue};
ghost use Rattle.candidates.specs.Faults.{IsSpaceFault};
ghost use Rattle.slices.specs.Parts.{IsAdmitted};
ghost use Rattle.book.specs.Changes.{changed, IsReady};
ghost use Rattle.book.specs.Step.{Step};
ghost use Rattle.book.specs.Workbench.{test_of};
ghost use Rattle.journal.specs.Lines.{answers};
ghost use Rattle.journal.specs.declared.records.Said.{Said};
ghost use Rattle.slices.specs.Works.{IsModelOf};

use crate::jobs::Job;
use crate::plan::{Change, Plan};
use crate::reading::{is_model_memory, model_of};
use crate::workbench::{Bench, MOST_JOBS};
use candidates::SpaceFault;
use cat_model::Model;
use journal::{Refusal, Reply};
use litmus_c::Test;
use slices::{Work, WorkRef};
use std::alloc::{AllocError, Global};
use wb_text::Name;

impl Bench {
    #[tactic(auto, using(crate::proofs::Steps::no_test, crate::proofs::Steps::no_model))]
    pub(crate) fn decide_ask(
        &self,
        alloc: Global,
        test: &Name,
        cat: &Name,
    ) -> Result<Plan, AllocError>
        requires open { self.now.closed ≡ false }
        requires room { self.now.last_job + 1 < 2 ^ 32 }
        ensures step { IfOk result (λ p. Step self.now 0 (Said.Ask test.now cat.now) p.reply (changed self.now p.change)) }
        ensures kind { IfOk result (λ p. answers (Said.Ask test.now cat.now) p.reply ≡ true) }
        ensures ready { IfOk result (λ p. IsReady self.now p.change) }
    {
        let Some(tree) = self.tests.test(test) else {
            return Ok(Plan::refuse(Refusal::NoTest(test.copy()?)));
        };
        let model = match model_of(alloc, &self.cats, cat) {
            Ok(model) => model,
            Err(fault) => {
                if is_model_memory(&fault) {
                    return Err(AllocError);
                }
                return Ok(Plan::refuse(Refusal::Model(fault)));
            }
        };
        self.decide_work(alloc, test, cat, tree, model)
    }

    // The test of this name is there, and so is the model of this root.
    #[tactic(auto, using(crate::proofs::Steps::no_space, crate::proofs::Steps::jobs_full, crate::proofs::Steps::opened_job, crate::proofs::Steps::work_root))]
    fn decide_work(
        &self,
        alloc: Global,
        test: &Name,
        cat: &Name,
        tree: &Test,
        model: Model,
    ) -> Result<Plan, AllocError>
        requires open { self.now.closed ≡ false }
        requires room { self.now.last_job + 1 < 2 ^ 32 }
        requires there { test_of self.now.tests test.now ≡ Some tree.now }
        requires model { IsModelOf self.now.cats cat.now model }
        ensures step { IfOk result (λ p. Step self.now 0 (Said.Ask test.now cat.now) p.reply (changed self.now p.change)) }
        ensures kind { IfOk result (λ p. answers (Said.Ask test.now cat.now) p.reply ≡ true) }
        ensures ready { IfOk result (λ p. IsReady self.now p.change) }
    {
        let work = match self.work_of(alloc, tree, model) {
            Ok(work) => work,
            Err(SpaceFault::NoMemory) => return Err(AllocError),
            Err(SpaceFault::TooManyRuns(thread)) => {
                let fault = SpaceFault::TooManyRuns(thread);
                return Ok(Plan::refuse(Refusal::Space(fault)));
            }
            Err(SpaceFault::TooManyCandidates) => {
                let fault = SpaceFault::TooManyCandidates;
                return Ok(Plan::refuse(Refusal::Space(fault)));
            }
        };
        if self.jobs.len() >= MOST_JOBS {
            return Ok(Plan::refuse(Refusal::JobsFull));
        }
        let number = self.last_job + 1;
        let version = self.tests.version(test);
        let job = Job::new(alloc, number, version, work)?;
        Ok(Plan {
            reply: Reply::Job(number),
            change: Change::Open(job),
        })
    }

    /// The test under the model: as a job has it, if one has it, so that such jobs share it.
    fn work_of(&self, alloc: Global, tree: &Test, model: Model) -> Result<WorkRef, SpaceFault>
        ensures work { IfOk result (λ w. w ≡ record { test = tree.now; model = model }) }
        ensures admitted { IfOk result (λ w. IsAdmitted w.test) }
        ensures fault { IfErr result (IsSpaceFault tree.now) }
    {
        match known_work(&self.jobs, tree, &model) {
            Ok(Some(work)) => Ok(work),
            Ok(None) => match Work::new(alloc, tree.copy()?, model) {
                Ok(work) => Ok(WorkRef::new(alloc, work)?),
                Err(fault) => Err(fault),
            },
            Err(AllocError) => Err(SpaceFault::NoMemory),
        }
    }

    // A verdict is made once, and kept with the job for those who ask again.
    #[tactic(auto, using(crate::proofs::Steps::no_job, crate::proofs::Steps::judged_again, crate::proofs::Steps::verdict_fits, crate::proofs::Steps::poll_replaced, crate::proofs::Steps::pending))]
    pub(crate) fn decide_poll(&self, alloc: Global, number: u32) -> Result<Plan, AllocError>
        requires { self.now.closed ≡ false }
        ensures step { IfOk result (λ p. Step self.now 0 (Said.Poll number) p.reply (changed self.now p.change)) }
        ensures kind { IfOk result (λ p. answers (Said.Poll number) p.reply ≡ true) }
        ensures ready { IfOk result (λ p. IsReady self.now p.change) }
    {
        let Some(job) = self.job(number) else {
            return Ok(Plan::refuse(Refusal::NoJob(number)));
        };
        if job.is_done() {
            let verdict = job.verdict(alloc)?;
            return Ok(Plan {
                reply: Reply::Verdict(verdict.share()?),
                change: Change::Judge(number, verdict),
            });
        }
        match self.replaced(job)? {
            Some(replacement) => Ok(Plan::refuse(Refusal::Replaced(replacement))),
            None => Ok(Plan::keep(Reply::Pending(job.done(), job.total()))),
        }
    }

    #[tactic(auto, using(crate::proofs::Drops::forget_no_job, crate::proofs::Drops::forgot))]
    pub(crate) fn decide_forget(&self, number: u32) -> Plan
        requires { self.now.closed ≡ false }
        ensures step { Step self.now 0 (Said.Forget number) result.reply (changed self.now result.change) }
        ensures kind { answers (Said.Forget number) result.reply ≡ true }
        ensures ready { IsReady self.now result.change }
    {
        match self.job(number) {
            Some(_) => Plan {
                reply: Reply::Done,
                change: Change::Forget(number),
            },
            None => Plan::refuse(Refusal::NoJob(number)),
        }
    }

    #[tactic(auto, using(crate::proofs::Drops::release_no_job, crate::proofs::Drops::freed))]
    pub(crate) fn decide_release(&self, number: u32) -> Plan
        requires { self.now.closed ≡ false }
        ensures step { Step self.now 0 (Said.Release number) result.reply (changed self.now result.change) }
        ensures kind { answers (Said.Release number) result.reply ≡ true }
        ensures ready { IsReady self.now result.change }
    {
        match self.job(number) {
            Some(_) => Plan {
                reply: Reply::Freed(self.held(number)),
                change: Change::Release(number),
            },
            None => Plan::refuse(Refusal::NoJob(number)),
        }
    }

    #[tactic(auto, using(crate::proofs::Drops::listed))]
    pub(crate) fn decide_list(&self, alloc: Global) -> Result<Plan, AllocError>
        requires { self.now.closed ≡ false }
        ensures step { IfOk result (λ p. Step self.now 0 Said.List p.reply (changed self.now p.change)) }
        ensures kind { IfOk result (λ p. answers Said.List p.reply ≡ true) }
        ensures ready { IfOk result (λ p. IsReady self.now p.change) }
    {
        Ok(Plan::keep(Reply::Listed(self.listing(alloc)?)))
    }
}

/// The work of the first of the jobs that has this test under this model.
fn known_work(jobs: &[Job], tree: &Test, model: &Model) -> Result<Option<WorkRef>, AllocError>
    ensures work { IfOk result (λ o. IfSome o (λ w. w ≡ record { test = tree.now; model = model.now })) }
    ensures admitted { IfOk result (λ o. IfSome o (λ w. IsAdmitted w.test)) }
{
    for job in jobs {
        if is_work_of(job.work(), tree, model) {
            return Ok(Some(job.work().share()?));
        }
    }
    Ok(None)
}

/// Whether a work is this test under this model, of the same files and versions.
#[tactic(auto, using(litmus_tree::specs::Exact::litmus_exact, cat_model::specs::Equality::assembly_exact))]
fn is_work_of(work: &WorkRef, tree: &Test, model: &Model) -> bool
    ensures { IsTrue result ↔ (work.now ≡ record { test = tree.now; model = model.now }) }
{
    work.work().test() == tree && work.work().model() == model
}
