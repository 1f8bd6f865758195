//! Groups of events that are drawn together.

ghost use Rattle.std.specs.Prelude.{◌≡◌};
ghost use Rattle.drawing.specs.Naming.{is_in, is_first, is_initial, is_of_thread};

use events::EventId;

/// Some of the events of an execution.
#[derive(Clone, Copy)]
pub(crate) enum Group {
    InitialWrites,
    /// Those of all threads.
    Threads,
    /// Those of one thread.
    Thread(usize),
    /// Those that come first in their threads.
    Firsts,
}

fn is_of_thread(thread: usize, event: EventId) -> bool
    ensures { result ≡ is_of_thread thread event }
{
    match event {
        EventId::Initial(_) => false,
        EventId::Own(own, _) => own == thread,
    }
}

fn is_first(event: EventId) -> bool
    ensures { result ≡ is_first event }
{
    match event {
        EventId::Initial(_) => false,
        EventId::Own(_, place) => place == 0,
    }
}

fn is_initial(event: EventId) -> bool
    ensures { result ≡ is_initial event }
{
    match event {
        EventId::Initial(_) => true,
        EventId::Own(_, _) => false,
    }
}

impl Group {
    /// Whether the event is one of them.
    pub(crate) fn has(self, event: EventId) -> bool
        ensures { result ≡ is_in self event }
    {
        match self {
            Group::InitialWrites => is_initial(event),
            Group::Threads => !is_initial(event),
            Group::Thread(thread) => is_of_thread(thread, event),
            Group::Firsts => is_first(event),
        }
    }
}
