//! What calls change.

ghost use Rattle.std.specs.Prelude.{◌≡◌, ◌<◌, ◌+◌, ◌∷◌, ◌++◌, [], true, false, None, Some, is_some, OnOk, OnErr};
ghost use Rattle.std.specs.Str.{bytes_eq};
ghost use Rattle.indexmap.specs.IndexMap.{insert_entry};
ghost use Rattle.book.specs.Changes.{changed, IsReady, FitsJob, FitsVerdict, HoldsSlice};
ghost use Rattle.book.specs.Frees.{IsPassed};
ghost use Rattle.book.specs.Step.{ended, forgotten, released, taken, without};
ghost use Rattle.book.specs.Workbench.{is_claimed, claim_of, job_of, marked_in};
ghost use Rattle.cat_model.specs.Files.{version_of, loaded, store};

use crate::jobs::Job;
use crate::live::Live;
use crate::mark::Mark;
use crate::names::TestSlot;
use crate::plan::Change;
use crate::workbench::Bench;
use cat_model::Files;
use cat_syntax::CatFile;
use slices::{PieceResult, VerdictRef};
use std::alloc::AllocError;
use wb_text::Name;

/// Where the search for a free slice begins.
const START: Mark = Mark { job: 0, slice: 0 };

impl Bench {
    /// Does it, or nothing.
    pub fn commit(&mut self, change: Change) -> Result<(), AllocError>
        requires { IsReady self.old change }
        ensures ok { OnOk result (self.new ≡ changed self.old change) }
        ensures err { OnErr result (self.new ≡ self.old) }
    {
        match change {
            Change::Keep => {}
            Change::PutCat(name, version, file) => self.put_cat(name, version, file)?,
            Change::DropCat(name, version) => self.drop_cat(&name, version),
            Change::SetTest(name, slot) => self.set_test(name, slot)?,
            Change::Open(job) => self.open(job)?,
            Change::Forget(number) => self.forget(number),
            Change::Release(number) => self.release(number),
            Change::Hold(claim, mark) => self.hold(claim, mark)?,
            Change::End(number, seat) => self.end(number, seat),
            Change::Take(number, seat, job, part) => self.take(number, seat, job, part)?,
            Change::Judge(number, verdict) => self.judge(number, verdict),
            Change::Close => self.close(),
        }
        Ok(())
    }

    /// Stores a cat file, or changes nothing.
    #[tactic(auto, using(crate::proofs::Frees::passed_start))]
    fn put_cat(&mut self, name: Name, version: u32, file: CatFile) -> Result<(), AllocError>
        requires { version_of name self.old.cats < version }
        ensures ok { OnOk result (self.new ≡ record self.old { cats = store (record { name = name; version = version; file = Some file }) self.old.cats }) }
        ensures err { OnErr result (self.new ≡ self.old) }
    {
        self.mark = START;
        put_file(&mut self.cats, name, version, file)?;
        Ok(())
    }

    /// Takes a cat file away.
    #[tactic(auto, using(crate::proofs::Frees::passed_start))]
    fn drop_cat(&mut self, name: &Name, version: u32)
        requires loaded { is_some (loaded name.now self.old.cats) ≡ true }
        requires version { version_of name.now self.old.cats < version }
        ensures { self.new ≡ record self.old { cats = store (record { name = name.now; version = version; file = None }) self.old.cats } }
    {
        self.mark = START;
        self.cats.remove(name, version);
    }

    /// Puts or drops a test, or changes nothing.
    #[tactic(auto, using(crate::proofs::Frees::passed_start))]
    fn set_test(&mut self, name: Name, slot: TestSlot) -> Result<(), AllocError>
        ensures ok { OnOk result (self.new ≡ record self.old { tests = insert_entry bytes_eq self.old.tests name slot }) }
        ensures err { OnErr result (self.new ≡ self.old) }
    {
        self.mark = START;
        self.tests.put(name, slot)?;
        Ok(())
    }

    /// Adds a job, or changes nothing.
    fn open(&mut self, job: Job) -> Result<(), AllocError>
        requires { job.number ≡ self.old.last_job + 1 }
        ensures ok { OnOk result (self.new ≡ record self.old { last_job = job.number; jobs = self.old.jobs ++ job ∷ [] }) }
        ensures err { OnErr result (self.new ≡ self.old) }
    {
        let number = job.number();
        self.mark = START;
        self.jobs.push(job)?;
        self.last_job = number;
        Ok(())
    }

    /// Takes a job away, and ends its claims.
    fn forget(&mut self, number: u32)
        ensures { self.new ≡ forgotten self.old number }
    {
        self.mark = START;
        forget_job(&mut self.jobs, number);
        self.live.end_of_job(number);
    }

    /// Ends the claims of a job.
    #[tactic(auto, using(crate::proofs::Frees::passed_start))]
    fn release(&mut self, number: u32)
        ensures { self.new ≡ released self.old number }
    {
        self.mark = START;
        self.live.end_of_job(number);
    }

    /// Holds a slice under a claim, or changes nothing.
    fn hold(&mut self, claim: Live, mark: Mark) -> Result<(), AllocError>
        requires new { self.old.last_claim < claim.number }
        requires unclaimed { is_claimed self.old.live claim.job claim.slice ≡ false }
        requires passed { IsPassed self.old mark.job mark.slice }
        ensures ok { OnOk result (self.new ≡ record self.old { last_claim = claim.number; live = self.old.live ++ claim ∷ [] }) }
        ensures err { OnErr result (self.new ≡ self.old) }
    {
        self.live.hold(claim)?;
        self.mark = mark;
        Ok(())
    }

    /// Ends a claim.
    #[tactic(auto, using(crate::proofs::Frees::passed_start))]
    fn end(&mut self, number: u32, seat: u8)
        ensures { self.new ≡ ended self.old number seat }
    {
        self.mark = START;
        self.live.end(number, seat);
    }

    /// Takes a result of a job in and ends its claim, or changes nothing. No slice comes to be free.
    fn take(&mut self, number: u32, seat: u8, job: u32, part: PieceResult) -> Result<(), AllocError>
        requires fits { FitsJob (job_of self.old.jobs job) part }
        requires holds { HoldsSlice (claim_of self.old.live number seat) job part.piece.slice }
        ensures ok { OnOk result (self.new ≡ taken self.old number seat job part.piece.slice) }
        ensures err { OnErr result (self.new ≡ self.old) }
    {
        take_in(&mut self.jobs, job, part)?;
        self.live.end(number, seat);
        Ok(())
    }

    /// Keeps the verdict of a job for those who ask again.
    fn judge(&mut self, number: u32, verdict: VerdictRef)
        requires { FitsVerdict (job_of self.old.jobs number) verdict }
        ensures { self.new ≡ self.old }
    {
        keep_verdict(&mut self.jobs, number, verdict);
    }

    /// Closes the book.
    fn close(&mut self)
        ensures { self.new ≡ record self.old { closed = true } }
    {
        self.closed = true;
    }
}

/// Stores a file, or changes nothing.
fn put_file(files: &mut Files, name: Name, version: u32, file: CatFile) -> Result<(), AllocError>
    requires { version_of name files.old < version }
    ensures ok { OnOk result (files.new ≡ store (record { name = name; version = version; file = Some file }) files.old) }
    ensures err { OnErr result (files.new ≡ files.old) }
{
    match files.put(name, version, file) {
        Ok(()) => Ok(()),
        Err(_) => Err(AllocError),
    }
}

/// Takes a job away.
fn forget_job(jobs: &mut Vec<Job>, number: u32)
    ensures { jobs.new.items ≡ without number jobs.old.items }
{
    jobs.retain(|job| job.number() != number);
}

/// Hands a result to the job of a number, or changes nothing.
fn take_in(jobs: &mut Vec<Job>, number: u32, part: PieceResult) -> Result<(), AllocError>
    requires { FitsJob (job_of jobs.old.items number) part }
    ensures ok { OnOk result (jobs.new.items ≡ marked_in jobs.old.items number part.piece.slice) }
    ensures err { OnErr result (jobs.new.items ≡ jobs.old.items) }
{
    for i in 0..jobs.len() {
        let job = &mut jobs[i];
        if job.number() == number {
            return job.take(part);
        }
    }
    Ok(())
}

/// Hands a verdict to the job of a number, which keeps it.
fn keep_verdict(jobs: &mut Vec<Job>, number: u32, verdict: VerdictRef)
    requires { FitsVerdict (job_of jobs.old.items number) verdict }
    ensures { jobs.new.items ≡ jobs.old.items }
{
    for i in 0..jobs.len() {
        let job = &mut jobs[i];
        if job.number() == number {
            job.keep(verdict);
            return;
        }
    }
}
