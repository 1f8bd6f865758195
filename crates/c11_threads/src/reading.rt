//! Reads, and what stands behind them in the same step.

ghost use Rattle.std.specs.Prelude.{◌≡◌, IfOk, OnOk};
ghost use Rattle.c11_threads.specs.Runs.{after};
ghost use Rattle.c11_threads.specs.Serving.{IsComputable};
ghost use Rattle.c11_threads.specs.Unrolled.{reading, writing, events_behind, having_read};

use crate::content::{Content, modified};
use crate::progress::Progress;
use events::Event;
use litmus_tree::Computation;
use std::alloc::{AllocError, Global};

/// What stands behind a read in the same step.
#[derive(Drop)]
pub(crate) enum Behind {
    /// Nothing: a load, or a plain read.
    Nothing,
    /// A write whose value is known before: that of an exchange.
    Write(Event),
    /// A write of what is computed of the value read and a constant. The event has neither that value nor what it
    /// depends on.
    Modify(Computation, u32, Event),
}

/// A read that has no value yet.
#[derive(Drop)]
pub(crate) struct Reading {
    pub(crate) event: Event,
    pub(crate) behind: Behind,
    /// The register that is given the value, if there is one.
    pub(crate) register: Option<usize>,
}

/// The event with this value.
fn with_value(event: &Event, value: u32) -> Event
    ensures { result ≡ reading event.now value }
{
    let mut read = event.copy();
    read.value = value;
    read
}

/// The event with a value and what that depends on.
fn writing(event: &Event, content: Content) -> Event
    ensures { result ≡ writing event.now content }
{
    let mut write = event.copy();
    write.value = content.value;
    write.data_from = content.reads;
    write
}

impl Behind {
    /// Has the events that stand behind a read.
    fn follow(&self, way: &mut Progress, read: Content) -> Result<(), AllocError>
        requires { IsComputable self.now read.value }
        ensures { OnOk result (way.new ≡ after way.old (events_behind self.now read)) }
    {
        match self {
            Behind::Nothing => Ok(()),
            Behind::Write(event) => way.push(event.copy()),
            Behind::Modify(computation, constant, event) => {
                way.push(writing(event, modified(*computation, *constant, read)))
            }
        }
    }
}

impl Reading {
    /// The way on that reads this value, then has what stands behind the read, and gives the value to the register.
    pub(crate) fn way_on(
        &self,
        alloc: Global,
        from: &Progress,
        value: u32,
    ) -> Result<Progress, AllocError>
        requires { IsComputable self.now.behind value }
        ensures { IfOk result (λ end. end ≡ having_read self.now from.now value) }
    {
        let mut end = from.copy(alloc)?;
        end.push(with_value(&self.event, value))?;
        self.behind.follow(&mut end, from.next_read(value))?;
        end.give(self.register, from.next_read(value));
        Ok(end)
    }
}
