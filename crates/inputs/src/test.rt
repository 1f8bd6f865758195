//! Judging one test of a run.

ghost use Rattle.std.specs.Prelude.{◌≡◌, ℕ, Bool, IfOk, IsTrue, OnOk};
ghost use Rattle.inputs.specs.Telling.{IsRead, IsSettled, IsTold, IsWanted, TellsRefusal, TellsVerdicts, stage_of};

use crate::models::Models;
use crate::text::{read_front, text_of};
use outcome::{Fate, Form, Tested, Told, Wanted};
use slices::Verdict;
use std::alloc::{AllocError, Global};
use std::io;
use std::rt::Files;
use std::thread::Threads;
use suite::{Patience, TestTrouble, judge_text};

/// Someone who waits for a test, and has a clock.
pub trait Timer: Patience {
    ghost is_last: { Self → Bool };

    /// What it may tell of how long it took.
    ghost may_tell: { Self → ℕ → Type 0 };

    /// How many milliseconds have passed.
    fn milliseconds(&self) -> u64
        ensures { may_tell self.now result };

    /// Whether a test that takes too long is given up. Else it waits on, for a later pass.
    fn gives_up(&self) -> bool
        ensures { result ≡ is_last self.now };
}

/// What is asked of the tests of a run.
#[derive(Clone, Copy)]
pub struct Asked<'a> {
    pub models: &'a Models,
    pub form: Form,
    /// How wide the paths of a table are.
    pub width: usize,
    /// Whether rows are kept, to be compared or stored.
    pub keeps_rows: bool,
    /// Whether it is told, and drawn, why the verdicts are what they are.
    pub explains: bool,
}

impl<'a> Asked<'a> {
    /// What is asked of each test, with the names of the models.
    pub fn wanted(&self) -> Wanted<'a>
        ensures { IsWanted self.now result }
    {
        Wanted {
            form: self.form,
            width: self.width,
            models: self.models.names(),
            keeps_rows: self.keeps_rows,
        }
    }
}

/// How far a test is.
#[derive(Clone, Copy)]
pub enum Stage {
    /// It is still to be judged.
    Waiting,
    Done(Fate),
    /// There was no memory to judge it.
    Lost,
}

/// A test, and what is told of it.
pub struct Test<'a> {
    pub path: &'a str,
    pub text: Vec<u8>,
    pub stage: Stage,
    pub told: Told,
}

// A function of its own: whoever holds one drops it by a call.
impl<'a> Drop for Test<'a> {
    fn drop(self) {
        let Test {
            path: _,
            text: _,
            stage: _,
            told: _,
        } = self;
    }
}

impl<'a> Test<'a> {
    /// The test of a path, which is read from standard input where the path is `-`. What is wrong with one that can't be read is told.
    pub fn read<R: Files + Input + AllocGlobal>(rt: &R, path: &'a str) -> Result<Self, AllocError>
        ensures path { IfOk result (λ t. t.path.now ≡ path.now) }
        ensures read { IfOk result (λ t. IsRead path.now t.stage t.told) }
    {
        let alloc = rt.alloc();
        let read = if path == "-" {
            read_front(alloc, rt.reader())
        } else {
            text_of(rt, path)
        };
        match read {
            Ok(text) => Ok(Test {
                path,
                text,
                stage: Stage::Waiting,
                told: Told::new(alloc),
            }),
            Err(error) => Test::unread(alloc, path, &error),
        }
    }

    /// A test that can't be read.
    fn unread(alloc: Global, path: &'a str, error: &io::Error) -> Result<Self, AllocError>
        ensures path { IfOk result (λ t. t.path.now ≡ path.now) }
        ensures read { IfOk result (λ t. IsRead path.now t.stage t.told) }
    {
        let why = format!(in alloc; "{error}")?;
        let why = why.as_str();
        let mut told = Told::new(alloc);
        told.message = format!(in alloc; "{path}: {why}\n")?;
        Ok(Test {
            path,
            text: Vec::new(alloc),
            stage: Stage::Done(Fate::Unread),
            told,
        })
    }

    /// Judges the test by so many threads, and adds what is told of it. It waits on where it takes too long, and isn't given up.
    pub fn judge<R: Threads + Sync, T: Timer>(
        &mut self,
        rt: &R,
        alloc: Global,
        asked: &Asked<'_>,
        threads: u16,
        timer: &mut T,
    )
        ensures path { self.new.path ≡ self.old.path }
        ensures text { self.new.text ≡ self.old.text }
        ensures told { IsTold (T.Timer.may_tell timer.new) asked.now self.old.path.now self.old.text.items self.new.stage self.old.told self.new.told }
        ensures settled { IsTrue (T.Timer.is_last timer.old) → IsSettled self.new.stage }
    {
        let gives_up = timer.gives_up();
        let judged = judge_text(rt, alloc, &self.text, asked.models.models(), threads, timer);
        self.stage = match &judged {
            Ok(verdicts) => {
                let told = self.tell(alloc, asked, timer.milliseconds(), verdicts);
                done(Fate::Judged, told)
            }
            Err(TestTrouble::Late) if !gives_up => Stage::Waiting,
            Err(trouble) => {
                let told = self.refuse(alloc, asked, timer.milliseconds(), trouble);
                done(Fate::Refused, told)
            }
        };
    }

    /// Adds what is told of the verdicts.
    fn tell(
        &mut self,
        alloc: Global,
        asked: &Asked<'_>,
        milliseconds: u64,
        verdicts: &[Verdict],
    ) -> Result<(), AllocError>
        ensures path { self.new.path ≡ self.old.path }
        ensures text { self.new.text ≡ self.old.text }
        ensures told { OnOk result (TellsVerdicts asked.now milliseconds self.old.path.now self.old.text.items verdicts.now self.old.told self.new.told) }
    {
        let cases = asked.models.cases(alloc, self.path)?;
        let test = Tested {
            path: self.path,
            text: &self.text,
            cases: &cases,
            milliseconds,
        };
        self.told.tell(alloc, &asked.wanted(), &test, verdicts)?;
        if asked.explains {
            self.told.explain(alloc, &test, verdicts)?;
            return Ok(());
        }
        Ok(())
    }

    /// Adds what is told of a test that has no verdict.
    fn refuse(
        &mut self,
        alloc: Global,
        asked: &Asked<'_>,
        milliseconds: u64,
        trouble: &TestTrouble,
    ) -> Result<(), AllocError>
        ensures path { self.new.path ≡ self.old.path }
        ensures text { self.new.text ≡ self.old.text }
        ensures told { OnOk result (TellsRefusal asked.now milliseconds self.old.path.now self.old.text.items trouble.now self.old.told self.new.told) }
    {
        let cases = asked.models.cases(alloc, self.path)?;
        let test = Tested {
            path: self.path,
            text: &self.text,
            cases: &cases,
            milliseconds,
        };
        self.told.refuse(alloc, &asked.wanted(), &test, trouble)?;
        Ok(())
    }
}

/// How far a test is of which this is told, if there was memory.
fn done(fate: Fate, told: Result<(), AllocError>) -> Stage
    ensures { result ≡ stage_of fate told }
{
    match told {
        Ok(()) => Stage::Done(fate),
        Err(AllocError) => Stage::Lost,
    }
}
