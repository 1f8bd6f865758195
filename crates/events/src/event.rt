//! Events of a thread, and how an execution names them.

ghost use Rattle.std.specs.Prelude.{◌≡◌, ◌↔◌, ◌⊎◌, IsTrue};
ghost use Rattle.events.specs.Executions.{is_read, is_write, writes_to, no_places};
ghost use Rattle.events.specs.Named.{IsOfCall, IsInitial, IsNext};
ghost use Rattle.events.specs.Structures.{unvalued};
ghost use Rattle.events.specs.declared.event.Access.TheVariants.{ExRead, ExWrite};

use relations::Places;

/// A memory order, or none.
#[derive(Clone, Copy, Debug, PartialEq, Eq)]
pub enum Order {
    /// Of an initial write, which has no order.
    NoOrder,
    /// A plain access.
    Na,
    Rlx,
    Acq,
    Rel,
    AcqRel,
    Sc,
}

/// What an event does.
#[derive(Clone, Copy, Debug, PartialEq, Eq)]
pub enum Access {
    Read,
    Write,
    Fence,
    /// The read of a call that also writes: of an exchange or an addition.
    ExRead,
    /// The write of a call that also reads.
    ExWrite,
}

/// One event of a thread. A location is named by its place in the test's list of locations;
/// a fence has location 0 and value 0. What an event depends on is a set of places of its own thread's run.
/// An event takes 48 bytes at most, and no memory of its own.
#[derive(Drop)]
pub struct Event {
    pub thread: usize,
    pub access: Access,
    pub loc: usize,
    pub value: u32,
    pub order: Order,
    /// The reads whose values reached the value that a write writes.
    pub data_from: Places,
    /// The reads whose values reached the tests of the branches around.
    pub ctrl_from: Places,
}

/// The dependencies of an event that depends on nothing.
pub fn no_places() -> Places
    ensures { result ≡ no_places }
{
    Places::none()
}

/// An event's name in an execution: the initial write of a location, or a thread and a place in its run.
#[derive(Clone, Copy, Debug, PartialEq, Eq)]
pub enum EventId {
    Initial(usize),
    Own(usize, usize),
}

impl Order {
    /// Whether it is the order of an atomic call or a fence.
    pub fn is_of_call(self) -> bool
        ensures { IsTrue result ↔ IsOfCall self }
    {
        !matches!(self, Order::NoOrder | Order::Na)
    }
}

impl EventId {
    /// Whether it names an initial write.
    pub fn is_initial(self) -> bool
        ensures { IsTrue result ↔ IsInitial self }
    {
        matches!(self, EventId::Initial(_))
    }

    /// Whether the event comes directly before the other in program order.
    pub fn is_next(self, other: Self) -> bool
        ensures { IsTrue result ↔ IsNext self other }
    {
        match (self, other) {
            (EventId::Own(thread, place), EventId::Own(same, next)) => {
                thread == same && place < next && next - place == 1
            }
            _ => false,
        }
    }
}

impl Access {
    /// Whether it is of a call that reads and writes: an exchange or an addition.
    pub fn is_of_exchange(self) -> bool
        ensures { IsTrue result ↔ ((self ≡ ExRead) ⊎ (self ≡ ExWrite)) }
    {
        matches!(self, Access::ExRead | Access::ExWrite)
    }

    /// Whether it reads.
    pub fn is_read(self) -> bool
        ensures { result ≡ is_read self }
    {
        matches!(self, Access::Read | Access::ExRead)
    }

    /// Whether it writes.
    pub fn is_write(self) -> bool
        ensures { result ≡ is_write self }
    {
        matches!(self, Access::Write | Access::ExWrite)
    }
}

impl Event {
    /// The same event once more.
    pub fn copy(&self) -> Self
        ensures { result ≡ self.now }
    {
        Event {
            thread: self.thread,
            access: self.access,
            loc: self.loc,
            value: self.value,
            order: self.order,
            data_from: self.data_from.copy(),
            ctrl_from: self.ctrl_from.copy(),
        }
    }

    /// Whether it is an event like the other.
    pub fn is_same(&self, other: &Self) -> bool
        ensures { IsTrue result ↔ (self.now ≡ other.now) }
    {
        self.thread == other.thread
            && self.access == other.access
            && self.loc == other.loc
            && self.value == other.value
            && self.order == other.order
            && self.data_from.is_same(&other.data_from)
            && self.ctrl_from.is_same(&other.ctrl_from)
    }

    /// Whether it is an event like the other, whatever the values of both are.
    pub(crate) fn is_like(&self, that: &Self) -> bool
        ensures { IsTrue result ↔ (unvalued self.now ≡ unvalued that.now) }
    {
        self.loc == that.loc
            && self.thread == that.thread
            && self.access == that.access
            && self.order == that.order
            && self.data_from.is_same(&that.data_from)
            && self.ctrl_from.is_same(&that.ctrl_from)
    }

    /// Whether it reads.
    pub fn is_read(&self) -> bool
        ensures { result ≡ is_read self.now.access }
    {
        self.access.is_read()
    }

    /// Whether it writes to the location.
    pub fn writes_to(&self, location: usize) -> bool
        ensures { result ≡ writes_to location self.now }
    {
        self.access.is_write() && self.loc == location
    }
}
