//! How long a test may take.

use crate::meter::{Meter, milliseconds_since};
use inputs::Timer;
use std::time::{Clock, Instant};
use suite::Patience;

/// Someone who waits for so many milliseconds, and tells on the way how far the run is.
pub struct Deadline<'a, R: Clock + Eprint> {
    rt: &'a R,
    began: Option<Instant>,
    limit: u64,
    gives_up: bool,
    pub meter: Meter,
}

impl<'a, R: Clock + Eprint> Drop for Deadline<'a, R> {
    fn drop(self) {
        let Deadline {
            rt: _,
            began: _,
            limit: _,
            gives_up: _,
            meter: _,
        } = self;
    }
}

impl<'a, R: Clock + Eprint> Deadline<'a, R> {
    /// A wait of so many milliseconds, which is the last where a test may take no longer.
    pub fn new(rt: &'a R, limit: u64, most: u64, meter: Meter) -> Self {
        Deadline {
            rt,
            began: Instant::now(rt).ok(),
            limit,
            gives_up: limit >= most,
            meter,
        }
    }
}

impl<'a, R: Clock + Eprint> Patience for Deadline<'a, R> {
    fn is_over(&mut self) -> bool {
        // The line only tells how far the run is; a terminal that is gone ends nothing.
        let _ = self.meter.tick(self.rt);
        self.milliseconds() >= self.limit
    }
}

impl<'a, R: Clock + Eprint> Timer for Deadline<'a, R> {
    ghost is_last = { λ d. d.gives_up };

    // A clock may tell anything.
    ghost may_tell = { λ d ms. Unit {0} };

    fn milliseconds(&self) -> u64 {
        milliseconds_since(self.rt, self.began)
    }

    fn gives_up(&self) -> bool {
        self.gives_up
    }
}
