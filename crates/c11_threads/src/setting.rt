//! What the statements of a thread stand in.

ghost use Rattle.std.specs.Prelude.{◌≡◌};
ghost use Rattle.litmus_tree.specs.Tree.{term_of};
ghost use Rattle.events.specs.declared.event.Access.TheVariants.{ExWrite, Fence};
ghost use Rattle.c11_threads.specs.Contents.{place_of, nothing};
ghost use Rattle.c11_threads.specs.Serving.{IsComputable};
ghost use Rattle.c11_threads.specs.Unrolled.{event, accesses, loading, updating, given_at, in_arm, may_read};

use crate::content::{Content, content_of, joined, place_of};
use crate::progress::Progress;
use crate::reading::{Behind, Reading};
use events::{Access, Event, Order, no_places};
use litmus_tree::Expression;
use relations::Places;
use std::marker::Model;
use wb_text::Name;

/// What a statement of a thread stands in.
#[derive(Drop)]
pub(crate) struct Setting<'a> {
    pub(crate) thread: usize,
    pub(crate) locations: &'a [Name],
    pub(crate) registers: &'a [Name],
    pub(crate) values: &'a [u32],
    /// The reads that reached the tests of the arms around.
    pub(crate) ctrl: Places,
}

impl<'a> Model for Setting<'a> {
    ghost use Rattle.c11_threads.specs.Serving.{AreSmall};
    ghost use Rattle.c11_threads.specs.Unrolled.{Setting as InThread};

    ghost Value = { InThread };

    ghost view = { λ s. record { thread = s.thread; locations = s.locations.now; registers = s.registers.now; values = s.values.now; ctrl = s.ctrl } };

    ghost invariant = { λ s. AreSmall s.values.now };
}

impl<'a> Setting<'a> {
    /// The setting of an arm. The reads that reached its test come to those of the tests around.
    pub(crate) fn inside(&self, reads: &Places) -> Setting<'a>
        ensures { result ≡ in_arm self.now reads.now }
    {
        Setting {
            thread: self.thread,
            locations: self.locations,
            registers: self.registers,
            values: self.values,
            ctrl: joined(&self.ctrl, reads),
        }
    }

    /// The number of a register.
    pub(crate) fn register(&self, name: &Name) -> usize
        ensures { result ≡ place_of name.now self.now.registers }
    {
        place_of(self.registers, name)
    }

    /// What an expression gives.
    pub(crate) fn content(&self, from: &Progress, expression: &Expression) -> Content
        ensures { result ≡ given_at self.now from.now (term_of expression.now) }
    {
        content_of(self.registers, from.registers(), expression)
    }

    /// A fence.
    pub(crate) fn fence(&self, order: Order) -> Event
        ensures { result ≡ event self.now Fence 0 order nothing }
    {
        Event {
            thread: self.thread,
            access: Access::Fence,
            loc: 0,
            value: 0,
            order,
            data_from: no_places(),
            ctrl_from: self.ctrl.copy(),
        }
    }

    /// An access to a location.
    pub(crate) fn access(
        &self,
        access: Access,
        location: &Name,
        order: Order,
        content: Content,
    ) -> Event
        ensures { result ≡ accesses self.now access location.now order content }
    {
        Event {
            thread: self.thread,
            access,
            loc: place_of(self.locations, location),
            value: content.value,
            order,
            data_from: content.reads,
            ctrl_from: self.ctrl.copy(),
        }
    }

    /// The write of a call that modifies, which has no value yet.
    pub(crate) fn unwritten(&self, location: &Name, order: Order) -> Event
        ensures { result ≡ accesses self.now ExWrite location.now order nothing }
    {
        self.access(Access::ExWrite, location, order, Content::nothing())
    }

    /// The read of a load, or of a plain read.
    pub(crate) fn load(&self, location: &Name, order: Order, register: Option<usize>) -> Reading
        ensures { result ≡ loading self.now location.now order register }
    {
        Reading {
            event: self.access(Access::Read, location, order, Content::nothing()),
            behind: Behind::Nothing,
            register,
        }
    }

    /// The read of a call that writes, too.
    pub(crate) fn update(
        &self,
        location: &Name,
        order: Order,
        behind: Behind,
        register: Option<usize>,
    ) -> Reading
        ensures { result ≡ updating self.now location.now order behind register }
    {
        Reading {
            event: self.access(Access::ExRead, location, order, Content::nothing()),
            behind,
            register,
        }
    }

    /// Whether a read may read the value: what is then computed is one of the values.
    pub(crate) fn may_read(&self, behind: &Behind, value: u32) -> bool
        requires { IsComputable behind.now value }
        ensures { result ≡ may_read self.now.values behind.now value }
    {
        match behind {
            Behind::Nothing => true,
            Behind::Write(_) => true,
            Behind::Modify(computation, constant, _) => {
                self.values.contains(&computation.of(value, *constant))
            }
        }
    }
}
