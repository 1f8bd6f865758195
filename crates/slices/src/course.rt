//! The evaluation of a work, slice by slice.

ghost use Rattle.std.specs.Prelude.{◌≡◌, ◌<◌, ◌≤◌, ◌+◌, ◌↔◌, IfOk, OnOk, OnErr, IsTrue};
ghost use Rattle.slices.specs.Verdicts.{IsVerdict};

use crate::kept_space::KeptSpace;
use crate::tally::{Tally, slice_of};
use crate::verdict::Verdict;
use crate::work::WorkRef;
use std::alloc::{AllocError, Global};
use std::marker::Model;

/// An evaluation of a work in so many slices, of which the first are done. Whoever holds it may stop between two slices. Contracts see the work, how
/// many slices there are, and how many are done.
pub struct Course {
    work: WorkRef,
    total: u16,
    done: u16,
    kept: KeptSpace,
    tally: Tally,
}

// A function of its own: whoever holds one drops it by a call.
impl Drop for Course {
    fn drop(self) {
        let Course {
            work: _,
            total: _,
            done: _,
            kept: _,
            tally: _,
        } = self;
    }
}

impl Model for Course {
    ghost use Rattle.slices.specs.Courses.{CourseValue, IsCourse};
    ghost use Rattle.slices.specs.Codes.{coded_course};

    ghost Value = { CourseValue };

    ghost coded = { coded_course };

    ghost view = { λ c. record { work = c.work; total = c.total; done = c.done } };

    ghost invariant = { λ c. IsCourse (record { work = c.work; total = c.total; done = c.done }) c.tally };
}

impl Course {
    /// An evaluation of which no slice is done.
    pub fn new(alloc: Global, work: WorkRef, total: u16) -> Result<Self, AllocError>
        requires { 1 ≤ total }
        ensures { IfOk result (λ c. c ≡ record { work = work; total = total; done = 0 }) }
    {
        let tally = Tally::new(alloc, work.share()?)?;
        Ok(Course {
            work,
            total,
            done: 0,
            kept: KeptSpace::new(alloc),
            tally,
        })
    }

    /// Whether slices are left.
    pub fn goes_on(&self) -> bool
        ensures { IsTrue result ↔ (self.now.done < self.now.total) }
    {
        self.done < self.total
    }

    /// Evaluates the next slice. Where memory is refused, it is left for another try.
    pub fn step(&mut self) -> Result<(), AllocError>
        requires { self.old.done < self.old.total }
        ensures done { OnOk result (self.new ≡ record self.old { done = self.old.done + 1 }) }
        ensures same { OnErr result (self.new ≡ self.old) }
    {
        let piece = slice_of(&self.work, self.total, self.done)?;
        let part = self.kept.evaluate(&piece)?;
        match self.tally.merge(part) {
            Ok(()) => {
                self.done += 1;
                Ok(())
            }
            Err((_, AllocError)) => Err(AllocError),
        }
    }

    /// The verdict on the work, where all slices are done.
    pub fn verdict(&self, test_version: u32) -> Result<Verdict, AllocError>
        requires { self.now.done ≡ self.now.total }
        ensures work { IfOk result (λ v. v.work ≡ self.now.work) }
        ensures version { IfOk result (λ v. v.version ≡ test_version) }
        ensures right { IfOk result (λ v. IsVerdict v.work.test v.work.model.items v.finding) }
    {
        self.tally.verdict(test_version)
    }
}

impl Verdict {
    /// The verdict on a work, whose numbers are evaluated in so many slices, one after another.
    pub fn judge(
        alloc: Global,
        work: WorkRef,
        total: u16,
        test_version: u32,
    ) -> Result<Self, AllocError>
        requires { 1 ≤ total }
        ensures work { IfOk result (λ v. v.work ≡ work) }
        ensures version { IfOk result (λ v. v.version ≡ test_version) }
        ensures right { IfOk result (λ v. IsVerdict v.work.test v.work.model.items v.finding) }
    {
        let mut course = Course::new(alloc, work, total)?;
        while course.goes_on() {
            course.step()?;
        }
        course.verdict(test_version)
    }
}
