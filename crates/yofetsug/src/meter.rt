//! How far the run is, on a terminal.

use std::io;
use std::time::{Clock, Instant};

/// After so many milliseconds it is told how far the run is, and then as often as so many have passed.
const QUIET: u64 = 2_000;

const PAUSE: u64 = 500;

/// How many milliseconds have passed, as far as the clock tells.
pub fn milliseconds_since<R: Clock>(rt: &R, began: Option<Instant>) -> u64 {
    match began {
        Some(began) => match began.elapsed(rt) {
            Ok(passed) => u64::try_from(passed.as_millis()).unwrap_or(u64::MAX),
            Err(_) => 0,
        },
        None => 0,
    }
}

/// A line on standard error that tells how many tests are done. It is written over, and taken away before anything else is printed.
#[derive(Clone, Copy)]
pub struct Meter {
    /// When the run began, if it is told how far it is.
    began: Option<Instant>,
    tests: usize,
    pub done: usize,
    /// How many milliseconds had passed when it was told last, if the line stands there.
    told: Option<u64>,
}

impl Meter {
    /// A meter of a run of so many tests, which tells something only where it is to.
    pub fn new<R: Clock>(rt: &R, tests: usize, shows: bool) -> Self {
        let began = if shows { Instant::now(rt).ok() } else { None };
        Meter {
            began,
            tests,
            done: 0,
            told: None,
        }
    }

    /// Tells how many tests are done, where it is time to.
    pub fn tick<R: Clock + Eprint>(&mut self, rt: &R) -> io::Result<()> {
        let passed = milliseconds_since(rt, self.began);
        let next = match self.told {
            Some(last) => last.saturating_add(PAUSE),
            None => QUIET,
        };
        if passed < next || self.done >= self.tests {
            return Ok(());
        }
        self.told = Some(passed);
        let (done, tests, seconds) = (self.done, self.tests, passed / 1_000);
        eprint!(rt; "\r{done} of {tests} tests, {seconds} s")
    }

    /// Takes the line away.
    pub fn clear<R: Eprint>(&mut self, rt: &R) -> io::Result<()> {
        if self.told.is_some() {
            self.told = None;
            eprint!(rt; "\r\x1b[K")?;
        }
        Ok(())
    }
}
