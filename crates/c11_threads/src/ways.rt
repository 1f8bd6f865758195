//! The ways on of a thread in the making.

ghost use Rattle.std.specs.Prelude.{◌≡◌, [], ◌∷◌, ◌+◌, ◌-◌, ◌<◌, ◌≤◌, map, length, Some, IfOk, IfErr, OnOk};
ghost use Rattle.litmus_tree.specs.Tree.{term_of};
ghost use Rattle.c11_threads.specs.declared.fault.RunFault.TheVariants.{TooManyRuns};
ghost use Rattle.c11_threads.specs.Unrolled.{giving, given_at};
ghost use Rattle.c11_threads.specs.Ways.{extended, led, IsFaultAt, Adds};

use crate::fault::{MOST_RUNS, RunFault};
use crate::progress::Progress;
use crate::setting::Setting;
use litmus_tree::Expression;
use std::alloc::{AllocError, Global};
use std::marker::Model;

/// Where the ways of a thread end so far, and how many others wait to be taken on. Together they are at most `MOST_RUNS`,
/// since each that waits has an end.
#[derive(Drop)]
pub(crate) struct Ways {
    ends: Vec<Progress>,
    waiting: usize,
    thread: usize,
}

impl Model for Ways {
    ghost use Rattle.std.specs.Prelude.{◌+◌, ◌≤◌, length};
    ghost use Rattle.c11_threads.specs.Ways.{Ways as Counted};

    ghost Value = { Counted };

    ghost view = { λ w. record { ends = w.ends.items; waiting = w.waiting; thread = w.thread } };

    ghost invariant = { λ w. length w.ends.items + w.waiting ≤ 4096 };
}

/// Gives a register the value of an expression on each of the ways.
fn give_each(
    setting: &Setting<'_>,
    starts: Vec<Progress>,
    register: usize,
    expression: &Expression,
) -> Vec<Progress>
    ensures { result.items ≡ map (λ p. giving (Some register) (given_at setting.now p (term_of expression.now)) p) starts.items }
{
    let mut ends = starts;
    for way in ends.iter_mut() {
        let content = setting.content(way, expression);
        way.give(Some(register), content);
    }
    ends
}

impl Ways {
    /// One way, at its start.
    pub(crate) fn new(alloc: Global, thread: usize, start: Progress) -> Result<Self, AllocError>
        ensures { IfOk result (λ w. w ≡ record { ends = start ∷ []; waiting = 0; thread = thread }) }
    {
        let mut ends = Vec::new(alloc);
        ends.push(start)?;
        Ok(Ways {
            ends,
            waiting: 0,
            thread,
        })
    }

    /// Where the ways end.
    pub(crate) fn into_ends(self) -> Vec<Progress>
        ensures ends { result.items ≡ self.ends }
        ensures within { length self.ends + self.waiting ≤ 4096 }
    {
        let Ways {
            ends,
            waiting: _,
            thread: _,
        } = self;
        ends
    }

    /// Looks whether there is room for one way more.
    pub(crate) fn look_for_room(&self) -> Result<(), RunFault>
        ensures room { OnOk result (length self.now.ends + self.now.waiting < 4096) }
        ensures full { IfErr result (λ fault. (fault ≡ TooManyRuns self.now.thread) × (4096 ≤ length self.now.ends + self.now.waiting)) }
    {
        if self.ends.len() + self.waiting < MOST_RUNS {
            Ok(())
        } else {
            Err(RunFault::TooManyRuns(self.thread))
        }
    }

    /// Adds a way on.
    pub(crate) fn add(&mut self, end: Progress) -> Result<(), RunFault>
        ensures { Adds (end ∷ []) self.old self.new result }
    {
        self.look_for_room()?;
        self.ends.push(end)?;
        Ok(())
    }

    /// One way by itself, while all of these wait.
    pub(crate) fn apart(&self, alloc: Global, start: Progress) -> Result<Self, RunFault>
        ensures one { IfOk result (λ w. w ≡ record { ends = start ∷ []; waiting = length self.now.ends + self.now.waiting; thread = self.now.thread }) }
        ensures fault { IfErr result (IsFaultAt (extended (start ∷ []) self.now)) }
    {
        self.look_for_room()?;
        let mut ends = Vec::new(alloc);
        ends.push(start)?;
        Ok(Ways {
            ends,
            waiting: self.ends.len() + self.waiting,
            thread: self.thread,
        })
    }

    /// Adds the ways on that were made while these waited.
    pub(crate) fn append(&mut self, more: Ways) -> Result<(), AllocError>
        requires { more.waiting ≡ length self.old.ends + self.old.waiting }
        ensures { OnOk result (self.new ≡ extended more.ends self.old) }
    {
        let mut more = more.into_ends();
        self.ends.append(&mut more)?;
        Ok(())
    }

    /// The ways, which now wait to be taken on, and where they end: nowhere so far.
    pub(crate) fn set_out(self, alloc: Global) -> Result<(Vec<Progress>, Ways), AllocError>
        ensures starts { IfOk result (λ r. r.0.items ≡ self.ends) }
        ensures ends { IfOk result (λ r. r.1 ≡ record { ends = []; waiting = length self.ends + self.waiting; thread = self.thread }) }
    {
        let Ways {
            ends: starts,
            waiting,
            thread,
        } = self;
        let ends = Ways {
            ends: Vec::with_capacity(alloc, starts.len())?,
            waiting: starts.len() + waiting,
            thread,
        };
        Ok((starts, ends))
    }

    /// Takes on one of the ways that wait.
    pub(crate) fn take_on(&mut self)
        requires { 0 < self.old.waiting }
        ensures { self.new ≡ record { ends = self.old.ends; waiting = self.old.waiting - 1; thread = self.old.thread } }
    {
        self.waiting -= 1;
    }

    /// The same ways, on each of which a register is given the value of an expression.
    pub(crate) fn giving(
        self,
        setting: &Setting<'_>,
        register: usize,
        expression: &Expression,
    ) -> Self
        ensures { result ≡ led (λ p. giving (Some register) (given_at setting.now p (term_of expression.now)) p ∷ []) self }
    {
        let Ways {
            ends: starts,
            waiting,
            thread,
        } = self;
        Ways {
            ends: give_each(setting, starts, register, expression),
            waiting,
            thread,
        }
    }
}
