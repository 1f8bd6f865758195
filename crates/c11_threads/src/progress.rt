//! A thread on its way.

ghost use Rattle.std.specs.Prelude.{◌≡◌, ◌∷◌, [], IfOk, OnOk, map};
ghost use Rattle.c11_threads.specs.Runs.{after, next_read, run_of};
ghost use Rattle.c11_threads.specs.Unrolled.{giving};

use crate::content::{Content, just};
use events::{Event, Run, copy_events};
use std::alloc::{AllocError, Global};
use std::marker::Model;

/// A thread on its way: its events so far, and what each of its registers holds.
pub(crate) struct Progress {
    events: Vec<Event>,
    registers: Vec<Content>,
}

// A function of its own: whoever holds one drops it by a call.
impl Drop for Progress {
    fn drop(self) {
        let Progress {
            events: _,
            registers: _,
        } = self;
    }
}

impl Model for Progress {
    ghost use Rattle.c11_threads.specs.Runs.{Progress as Way};

    ghost Value = { Way };

    ghost view = { λ p. record { events = p.events.items; registers = p.registers.items } };
}

/// The same contents once more.
fn copy_contents(alloc: Global, contents: &[Content]) -> Result<Vec<Content>, AllocError>
    ensures { IfOk result (λ v. v.items ≡ contents.now) }
{
    let mut copies = Vec::with_capacity(alloc, contents.len())?;
    for content in contents {
        copies.push(content.copy())?;
    }
    Ok(copies)
}

/// The values of contents.
fn values_of(alloc: Global, contents: &[Content]) -> Result<Vec<u32>, AllocError>
    ensures { IfOk result (λ v. v.items ≡ map (λ w. w.value) contents.now) }
{
    let mut values = Vec::with_capacity(alloc, contents.len())?;
    for content in contents {
        values.push(content.value)?;
    }
    Ok(values)
}

impl Progress {
    /// A thread that has no event yet.
    pub(crate) fn new(alloc: Global, registers: Vec<Content>) -> Self
        ensures { result ≡ record { events = []; registers = registers.items } }
    {
        Progress {
            events: Vec::new(alloc),
            registers,
        }
    }

    /// What each register holds.
    pub(crate) fn registers(&self) -> &[Content]
        ensures { result.now ≡ self.now.registers }
    {
        &self.registers
    }

    /// The same once more, with room for the two events of a call that reads and writes.
    pub(crate) fn copy(&self, alloc: Global) -> Result<Self, AllocError>
        ensures { IfOk result (λ p. p ≡ self.now) }
    {
        Ok(Progress {
            events: copy_events(alloc, &self.events, 2)?,
            registers: copy_contents(alloc, &self.registers)?,
        })
    }

    /// Adds an event at the end.
    pub(crate) fn push(&mut self, event: Event) -> Result<(), AllocError>
        ensures { OnOk result (self.new ≡ after self.old (event ∷ [])) }
    {
        self.events.push(event)?;
        Ok(())
    }

    /// What the next event reads, if it reads this value.
    pub(crate) fn next_read(&self, value: u32) -> Content
        ensures { result ≡ next_read self.now value }
    {
        Content {
            value,
            reads: just(self.events.len()),
        }
    }

    /// Gives the content to a register, if there is one to give it to. What the register held is gone.
    pub(crate) fn give(&mut self, register: Option<usize>, content: Content)
        ensures { self.new ≡ giving register content self.old }
    {
        if let Some(register) = register {
            if register < self.registers.len() {
                self.registers[register] = content;
            }
        }
    }

    /// The run that ends here. It takes over the events.
    pub(crate) fn run(self, alloc: Global) -> Result<Run, AllocError>
        ensures { IfOk result (λ r. r ≡ run_of self) }
    {
        let values = values_of(alloc, &self.registers)?;
        let Progress {
            events,
            registers: _,
        } = self;
        Ok(Run::new(events, values))
    }
}
