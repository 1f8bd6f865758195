//! A run of the program: models, tests, comparison, and the last line.

use crate::meter::Meter;
use crate::run::{Plan, judge_quickly, judge_wholly};
use crate::words::Words;
use inputs::{
    Asked, Models, Paths, Stage, Test, Trouble, read_rows, see_writable, store_rows, write_file,
};
use outcome::{Counts, Form, Status};
use std::alloc::{AllocError, Global};
use std::rt::Files;
use std::thread;
use std::thread::Threads;
use std::time::Clock;
use suite::{Row, differences, head_of};

/// How many tests each thread is given at once.
const BATCH: usize = 16;

/// What a run needs of its runtime.
pub trait Reach: Files
    + Input
    + Print
    + Eprint
    + AllocGlobal
    + Clone
    + Clock
    + Drop
    + Threads
    + Sync {}

impl<R: Files + Input + Print + Eprint + AllocGlobal + Clone + Clock + Drop + Threads + Sync> Reach
    for R {}

/// What is read before tests are judged: the models, the rows that are expected, and the paths of the tests.
struct Given {
    models: Models,
    expected: Vec<Row>,
    paths: Paths,
}

impl Drop for Given {
    fn drop(self) {
        let Given {
            models: _,
            expected: _,
            paths: _,
        } = self;
    }
}

/// What the run has come to: how many tests were judged, and how; what is compared or stored, and what is drawn.
struct Progress {
    counts: Counts,
    rows: Vec<Row>,
    dot: Vec<u8>,
    meter: Meter,
}

impl Drop for Progress {
    fn drop(self) {
        let Progress {
            counts: _,
            rows: _,
            dot: _,
            meter: _,
        } = self;
    }
}

/// Judges all tests that the words name, or compares what was found before, and answers how the run ends.
pub fn run_all<R: Reach>(rt: &R, words: &Words<'_>, shows: bool) -> Result<Status, Trouble> {
    match (words.expected, words.found) {
        (Some(expected), Some(found)) => compare_files(rt, expected, found),
        _ => judge_all(rt, words, shows),
    }
}

/// Compares rows that were found before with those that are expected, and answers how the run ends.
fn compare_files<R: Files + Print + Eprint + AllocGlobal>(
    rt: &R,
    expected: &str,
    found: &str,
) -> Result<Status, Trouble> {
    let expected = read_rows(rt, expected)?;
    let found = read_rows(rt, found)?;
    Ok(if compare(rt, Form::Line, &expected, &found)? {
        Status::Differs
    } else {
        Status::Done
    })
}

/// Judges all tests that the words name, and answers how the run ends.
fn judge_all<R: Reach>(rt: &R, words: &Words<'_>, shows: bool) -> Result<Status, Trouble> {
    let mut given = Given::new(rt.alloc());
    given.read(rt, words)?;
    let mut progress = Progress::new(rt, given.paths.tests.paths().len(), shows);
    progress.judge(rt, &given.paths, &given.plan(rt, words))?;
    progress.finish(rt, words, &given.expected)
}

/// How many threads judge: as many as the words say, or as there are processors, up to 8.
fn threads_of<R: Threads>(rt: &R, words: &Words<'_>) -> u16 {
    match words.threads {
        Some(threads) => u16::try_from(threads).unwrap_or(u16::MAX),
        None => match thread::available_parallelism(rt) {
            Ok(count) => u16::try_from(count.get().min(8)).unwrap_or(8),
            Err(_) => 1,
        },
    }
}

impl Given {
    /// Nothing yet.
    fn new(alloc: Global) -> Self {
        Given {
            models: Models::new(alloc),
            expected: Vec::new(alloc),
            paths: Paths::new(alloc),
        }
    }

    /// What all tests have in common.
    fn plan<'a, R: Threads>(&'a self, rt: &R, words: &Words<'_>) -> Plan<'a> {
        Plan {
            asked: self.asked(words),
            why: words.why,
            threads: threads_of(rt, words),
            limit: match words.timeout {
                Some(seconds) => u64::from(seconds).saturating_mul(1_000),
                None => u64::MAX,
            },
        }
    }

    /// What is asked of each test.
    fn asked<'a>(&'a self, words: &Words<'_>) -> Asked<'a> {
        Asked {
            models: &self.models,
            form: words.form,
            width: self.paths.tests.width(),
            keeps_rows: words.expected.is_some() || words.write_expected.is_some(),
            explains: words.why || words.dot.is_some(),
        }
    }

    /// Reads the models and the rows that are expected, sees that what the words ask for can be written, and looks for the tests.
    fn read<R: Files + Eprint + AllocGlobal + Clone + Drop>(
        &mut self,
        rt: &R,
        words: &Words<'_>,
    ) -> Result<(), Trouble> {
        for word in words.models {
            self.models.add(rt, word, words.folders)?;
        }
        if let Some(path) = words.expected {
            self.expected = read_rows(rt, path)?;
        }
        if let Some(path) = words.dot {
            see_writable(rt, path)?;
        }
        if let Some(path) = words.write_expected {
            see_writable(rt, path)?;
        }
        self.paths.find(rt, words.tests)?;
        Ok(())
    }
}

impl Progress {
    /// None of so many tests is done.
    fn new<R: Clock + AllocGlobal>(rt: &R, tests: usize, shows: bool) -> Self {
        Progress {
            counts: Counts::unread(0),
            rows: Vec::new(rt.alloc()),
            dot: Vec::new(rt.alloc()),
            meter: Meter::new(rt, tests, shows),
        }
    }

    /// Judges the tests, some at a time, and prints what is told of each in their order.
    fn judge<R: Reach>(&mut self, rt: &R, paths: &Paths, plan: &Plan<'_>) -> Result<(), Trouble> {
        self.begin(rt, &paths.unread, plan)?;
        let size = usize::from(plan.threads).saturating_mul(BATCH).max(1);
        for batch in paths.tests.paths().chunks(size) {
            self.judge_batch(rt, batch, plan)?;
        }
        self.meter.clear(rt)?;
        Ok(())
    }

    /// Prints the head of a table, where one is printed, and tells which paths couldn't be read on the way to the tests.
    fn begin<R: Print + Eprint + AllocGlobal>(
        &mut self,
        rt: &R,
        unread: &[String],
        plan: &Plan<'_>,
    ) -> Result<(), Trouble> {
        let wanted = plan.asked.wanted();
        if matches!(wanted.form, Form::Table) {
            rt.write_all(&head_of(rt.alloc(), wanted.width, wanted.models)?)?;
        }
        for message in unread {
            rt.eprint(message.as_str())?;
        }
        self.counts = Counts::unread(unread.len() as u64);
        self.meter.done = unread.len();
        Ok(())
    }

    /// Judges some tests, and prints what is told of each in their order.
    fn judge_batch<R: Reach>(
        &mut self,
        rt: &R,
        paths: &[String],
        plan: &Plan<'_>,
    ) -> Result<(), Trouble> {
        let mut tests = read_tests(rt, paths)?;
        judge_side_by_side(rt, &mut tests, plan);
        self.show_all(rt, &mut tests, plan)?;
        self.meter.tick(rt)?;
        Ok(())
    }

    /// Judges the tests that wait on, one after another, and prints what is told of each in their order.
    fn show_all<R: Print + Eprint + AllocGlobal + Clock + Threads + Sync>(
        &mut self,
        rt: &R,
        tests: &mut [Test<'_>],
        plan: &Plan<'_>,
    ) -> Result<(), Trouble> {
        for test in tests {
            if matches!(test.stage, Stage::Waiting) {
                judge_wholly(test, rt, plan, &mut self.meter);
            }
            self.show(rt, test, plan)?;
        }
        Ok(())
    }

    /// Prints what is told of a test, and why if that is asked for, counts it, and takes what is stored and drawn of it.
    fn show<R: Print + Eprint>(
        &mut self,
        rt: &R,
        test: &mut Test<'_>,
        plan: &Plan<'_>,
    ) -> Result<(), Trouble> {
        self.meter.clear(rt)?;
        let told = &mut test.told;
        match test.stage {
            Stage::Done(fate) => self.counts.count(fate, told.differs),
            Stage::Waiting | Stage::Lost => return Err(Trouble::NoMemory),
        }
        self.meter.done = self.meter.done.saturating_add(1);
        self.rows.append(&mut told.rows)?;
        self.dot.append(&mut told.dot)?;
        rt.write_all(&told.lines)?;
        if plan.why {
            print_words(rt, plan.asked.form, &told.why)?;
        }
        rt.eprint(told.message.as_str())?;
        Ok(())
    }

    /// Compares and stores what was found, prints the last line, and answers how the run ends.
    fn finish<R: Files + Print + Eprint + AllocGlobal>(
        &self,
        rt: &R,
        words: &Words<'_>,
        expected: &[Row],
    ) -> Result<Status, Trouble> {
        if let Some(path) = words.dot {
            write_file(rt, path, &self.dot)?;
        }
        if let Some(path) = words.write_expected {
            store_rows(rt, path, &self.rows)?;
        }
        let differ = words.expected.is_some() && compare(rt, words.form, expected, &self.rows)?;
        self.print_counts(rt, words.form)?;
        Ok(self.counts.status(differ))
    }

    /// Prints how many tests were judged, refused and not read.
    fn print_counts<R: Print + Eprint + AllocGlobal>(
        &self,
        rt: &R,
        form: Form,
    ) -> Result<(), Trouble> {
        print_words(rt, form, &self.counts.line(rt.alloc(), form)?)
    }
}

/// Prints how the rows differ from those that are expected, and answers whether they do.
fn compare<R: Print + Eprint + AllocGlobal>(
    rt: &R,
    form: Form,
    expected: &[Row],
    found: &[Row],
) -> Result<bool, Trouble> {
    let told = differences(rt.alloc(), expected, found)?;
    print_words(rt, form, &told)?;
    Ok(!told.is_empty())
}

/// Prints what is for people. It goes to standard error where programs read the output.
fn print_words<R: Print + Eprint>(rt: &R, form: Form, words: &[u8]) -> Result<(), Trouble> {
    let is_for_people = matches!(form, Form::Summary | Form::Line | Form::Table);
    match std::str::from_utf8(words) {
        Ok(text) if !is_for_people => rt.eprint(text)?,
        _ => rt.write_all(words)?,
    }
    Ok(())
}

/// Reads the tests of these paths, one after another.
fn read_tests<'a, R: Files + Input + AllocGlobal>(
    rt: &R,
    paths: &'a [String],
) -> Result<Vec<Test<'a>>, AllocError> {
    let mut tests = Vec::new(rt.alloc());
    for path in paths {
        tests.push(Test::read(rt, path.as_str())?)?;
    }
    Ok(tests)
}

/// Judges tests side by side. Those that take more than a while wait on.
fn judge_side_by_side<R: Eprint + AllocGlobal + Clock + Threads + Sync>(
    rt: &R,
    tests: &mut [Test<'_>],
    plan: &Plan<'_>,
) {
    let alloc = rt.alloc();
    let threads = usize::from(plan.threads).max(1);
    thread::for_each_mut(
        rt,
        tests,
        threads,
        &|_, test| { judge_quickly(test, rt, alloc, plan) },
    );
}
