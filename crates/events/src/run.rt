//! Runs of a thread.

ghost use Rattle.std.specs.Prelude.{◌≡◌, ◌↔◌, length, map, IfOk, IsTrue, OnErr, OnOk};
ghost use Rattle.events.specs.Structures.{unvalued, unvalued_run};

use crate::event::Event;
use std::alloc::{AllocError, Global};
use std::marker::Model;

/// A run of a thread: its events in program order, and the values of its registers at the end.
pub struct Run {
    events: Vec<Event>,
    registers: Vec<u32>,
}

// A function of its own: whoever holds one drops it by a call.
impl Drop for Run {
    fn drop(self) {
        let Run {
            events: _,
            registers: _,
        } = self;
    }
}

impl Model for Run {
    ghost use Rattle.events.specs.Executions.{ThreadRun};

    ghost Value = { ThreadRun };

    ghost view = { λ r. record { events = r.events.items; registers = r.registers.items } };
}

/// The same events once more, in a vector with room for so many others.
pub fn copy_events(alloc: Global, events: &[Event], room: usize) -> Result<Vec<Event>, AllocError>
    ensures { IfOk result (λ v. v.items ≡ events.now) }
{
    let mut copies = Vec::with_capacity(alloc, events.len().saturating_add(room))?;
    for event in events {
        copies.push(event.copy())?;
    }
    Ok(copies)
}

/// Writes events over as many others.
fn overwrite(list: &mut Vec<Event>, events: &[Event])
    requires { length list.old.items ≡ length events.now }
    ensures { list.new.items ≡ events.now }
{
    for place in 0..events.len() {
        list[place] = events[place].copy();
    }
}

/// Whether the events are like the others.
fn are_same_events(first: &[Event], second: &[Event]) -> bool
    ensures { IsTrue result ↔ (first.now ≡ second.now) }
{
    if first.len() != second.len() {
        return false;
    }
    for place in 0..first.len() {
        if !first[place].is_same(&second[place]) {
            return false;
        }
    }
    true
}

/// Whether the values are like the others. There are few, so that a loop costs less than `==` of slices, which is a call.
fn are_same_values(first: &[u32], second: &[u32]) -> bool
    ensures { IsTrue result ↔ (first.now ≡ second.now) }
{
    if first.len() != second.len() {
        return false;
    }
    for place in 0..first.len() {
        if first[place] != second[place] {
            return false;
        }
    }
    true
}

/// Whether the events are like the others, whatever their values are.
fn are_like_events(first: &[Event], second: &[Event]) -> bool
    ensures { IsTrue result ↔ (map unvalued first.now ≡ map unvalued second.now) }
{
    if first.len() != second.len() {
        return false;
    }
    for place in 0..first.len() {
        if !first[place].is_like(&second[place]) {
            return false;
        }
    }
    true
}

/// Whether the runs are like the others, whatever their values are.
pub(crate) fn are_like_runs(first: &[Run], second: &[Run]) -> bool
    ensures { IsTrue result ↔ (map unvalued_run first.now ≡ map unvalued_run second.now) }
{
    if first.len() != second.len() {
        return false;
    }
    for thread in 0..first.len() {
        if !first[thread].is_like(&second[thread]) {
            return false;
        }
    }
    true
}

/// The same runs once more.
pub fn copy_runs(alloc: Global, runs: &[Run]) -> Result<Vec<Run>, AllocError>
    ensures { IfOk result (λ v. v.items ≡ runs.now) }
{
    let mut copies = Vec::with_capacity(alloc, runs.len())?;
    for run in runs {
        copies.push(run.copy()?)?;
    }
    Ok(copies)
}

impl Run {
    /// A run of these events that leaves these registers.
    pub fn new(events: Vec<Event>, registers: Vec<u32>) -> Self
        ensures { result ≡ record { events = events.items; registers = registers.items } }
    {
        Run { events, registers }
    }

    /// The events, in program order.
    pub fn events(&self) -> &[Event]
        ensures { result.now ≡ self.now.events }
    {
        &self.events
    }

    /// The values of the thread's registers at the end, in the order of its list of registers.
    pub fn registers(&self) -> &[u32]
        ensures { result.now ≡ self.now.registers }
    {
        &self.registers
    }

    /// Whether it is a run like the other.
    pub fn is_same(&self, other: &Self) -> bool
        ensures { IsTrue result ↔ (self.now ≡ other.now) }
    {
        are_same_values(&self.registers, &other.registers)
            && are_same_events(&self.events, &other.events)
    }

    /// Whether it is a run like the other, whatever the values of both are.
    fn is_like(&self, other: &Self) -> bool
        ensures { IsTrue result ↔ (unvalued_run self.now ≡ unvalued_run other.now) }
    {
        are_like_events(&self.events, &other.events)
    }

    /// A second run like this one.
    pub fn copy(&self) -> Result<Self, AllocError>
        ensures { IfOk result (λ r. r ≡ self.now) }
    {
        Ok(Run {
            events: copy_events(*self.events.allocator(), &self.events, 0)?,
            registers: self.registers.clone()?,
        })
    }

    /// Becomes a run like the other. It takes memory only if the other is longer or shorter.
    pub fn become_copy(&mut self, other: &Self) -> Result<(), AllocError>
        ensures done { OnOk result (self.new ≡ other.now) }
        ensures same { OnErr result (self.new ≡ self.old) }
    {
        if self.events.len() != other.events.len()
            || self.registers.len() != other.registers.len()
        {
            *self = other.copy()?;
            return Ok(());
        }
        overwrite(&mut self.events, &other.events);
        self.registers.copy_from_slice(&other.registers);
        Ok(())
    }
}
