//! The state of the book, and what each command does to it.

ghost use Rattle.std.specs.Prelude.{◌≡◌, ◌<◌, ◌+◌, ◌^◌, None, Some, true, false, IfOk, MatchOption, option_copied};
ghost use Rattle.book.specs.Changes.{changed, IsReady};
ghost use Rattle.book.specs.Step.{Step};
ghost use Rattle.book.specs.Workbench.{empty, job_of, claim_of};
ghost use Rattle.journal.specs.Lines.{answers, seen};

mod asking;
mod claims;
mod committing;
mod listed;
mod replacing;
mod sources;

use crate::given::GivenClaims;
use crate::jobs::Job;
use crate::limits::Limits;
use crate::live::Live;
use crate::mark::Mark;
use crate::names::Tests;
use crate::plan::Plan;
use cat_model::Files;
use journal::{Command, Refusal};
use std::alloc::{AllocError, Global};

/// The most jobs that are held.
pub(crate) const MOST_JOBS: usize = 256;

/// The state of the book. Contracts see the workbench, which has no results.
pub struct Bench {
    limits: Limits,
    tests: Tests,
    cats: Files,
    jobs: Vec<Job>,
    live: GivenClaims,
    /// Where the search for a free slice goes on.
    mark: Mark,
    last_job: u32,
    closed: bool,
}

// A function of its own: whoever holds one drops it by a call.
impl Drop for Bench {
    fn drop(self) {
        let Bench {
            limits: _,
            tests: _,
            cats: _,
            jobs: _,
            live: _,
            mark: _,
            last_job: _,
            closed: _,
        } = self;
    }
}

impl std::marker::Model for Bench {
    ghost use Rattle.book.specs.BenchCodes.{coded_workbench};
    ghost use Rattle.book.specs.Frees.{IsPassed};
    ghost use Rattle.book.specs.Numbers.{AreNumbered};
    ghost use Rattle.book.specs.Workbench.{Workbench};

    ghost Value = { Workbench };

    ghost coded = { coded_workbench };

    ghost view = { λ b. record { limits = b.limits; tests = b.tests; cats = b.cats; jobs = b.jobs.items; live = b.live.0; last_job = b.last_job; last_claim = b.live.1; closed = b.closed } };

    ghost invariant = { λ b. record { passed : IsPassed (record { limits = b.limits; tests = b.tests; cats = b.cats; jobs = b.jobs.items; live = b.live.0; last_job = b.last_job; last_claim = b.live.1; closed = b.closed }) b.mark.job b.mark.slice; numbered : AreNumbered b.jobs.items b.last_job } };
}

impl Bench {
    /// The empty workbench.
    pub fn new(alloc: Global, limits: Limits) -> Result<Self, AllocError>
        ensures { IfOk result (λ b. b ≡ empty limits) }
    {
        Ok(Bench {
            limits,
            tests: Tests::new(alloc),
            cats: Files::new(alloc)?,
            jobs: Vec::new(alloc),
            live: GivenClaims::new(alloc),
            mark: Mark { job: 0, slice: 0 },
            last_job: 0,
            closed: false,
        })
    }

    /// Chooses a reply, and changes nothing.
    pub fn decide(&self, alloc: Global, seat: u8, said: &Command) -> Result<Plan, AllocError>
        requires { self.now.last_job + 1 < 2 ^ 32 }
        ensures step { IfOk result (λ p. Step self.now seat (seen said.now) p.reply (changed self.now p.change)) }
        ensures kind { IfOk result (λ p. answers (seen said.now) p.reply ≡ true) }
        ensures ready { IfOk result (λ p. IsReady self.now p.change) }
    {
        if self.closed {
            return Ok(Plan::refuse(Refusal::Closed));
        }
        self.decide_open(alloc, seat, said)
    }

    /// Chooses a reply of a book that isn't closed.
    fn decide_open(&self, alloc: Global, seat: u8, said: &Command) -> Result<Plan, AllocError>
        requires open { self.now.closed ≡ false }
        requires room { self.now.last_job + 1 < 2 ^ 32 }
        ensures step { IfOk result (λ p. Step self.now seat (seen said.now) p.reply (changed self.now p.change)) }
        ensures kind { IfOk result (λ p. answers (seen said.now) p.reply ≡ true) }
        ensures ready { IfOk result (λ p. IsReady self.now p.change) }
    {
        match said {
            Command::PutCat(name, text) => self.decide_put_cat(alloc, name, text),
            Command::PutTest(text) => self.decide_put_test(alloc, text),
            Command::DropCat(name) => self.decide_drop_cat(name),
            Command::DropTest(name) => self.decide_drop_test(name),
            Command::Ask(test, cat) => self.decide_ask(alloc, test, cat),
            Command::Poll(job) => self.decide_poll(alloc, *job),
            Command::Forget(job) => Ok(self.decide_forget(*job)),
            Command::Release(job) => Ok(self.decide_release(*job)),
            Command::List => self.decide_list(alloc),
            Command::Claim => self.decide_claim(seat),
            Command::Return(part) => self.decide_return(seat, part),
            Command::GiveBack(claim) => Ok(self.decide_give_back(seat, *claim)),
            Command::Close => Ok(Plan::close()),
        }
    }

    /// Whether the book is closed.
    pub fn is_closed(&self) -> bool
        ensures { result ≡ self.now.closed }
    {
        self.closed
    }

    /// The job of a number.
    pub(crate) fn job(&self, number: u32) -> Option<&Job>
        ensures { MatchOption result (job_of self.now.jobs number ≡ None)
            (λ j. job_of self.now.jobs number ≡ Some j.now) }
    {
        self.find_job(number)
    }

    fn find_job(&self, number: u32) -> Option<&Job>
        ensures { option_copied result ≡ job_of self.now.jobs number }
    {
        self.jobs.iter().find(|job| job.number() == number)
    }

    /// The live claim of a number and seat.
    pub(crate) fn claim(&self, number: u32, seat: u8) -> Option<Live>
        ensures { MatchOption result (claim_of self.now.live number seat ≡ None)
            (λ c. claim_of self.now.live number seat ≡ Some c) }
    {
        self.live.find(number, seat)
    }
}
