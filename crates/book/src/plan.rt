//! Replies, and what they do to the state.

ghost use Rattle.std.specs.Prelude.{◌≡◌};

use crate::jobs::Job;
use crate::live::Live;
use crate::mark::Mark;
use crate::names::TestSlot;
use cat_syntax::CatFile;
use journal::{Refusal, Reply};
use slices::{PieceResult, VerdictRef};
use wb_text::Name;

/// What a call does to the state.
#[derive(Drop)]
pub enum Change {
    Keep,
    PutCat(Name, u32, CatFile),
    DropCat(Name, u32),
    /// Puts or drops a test.
    SetTest(Name, TestSlot),
    Open(Job),
    Forget(u32),
    Release(u32),
    /// Holds a slice, where no slice before the mark is free.
    Hold(Live, Mark),
    End(u32, u8),
    Take(u32, u8, u32, PieceResult),
    /// Keeps the verdict of a job for those who ask again.
    Judge(u32, VerdictRef),
    Close,
}

/// A reply, with what it does.
#[derive(Drop)]
pub struct Plan {
    pub reply: Reply,
    pub change: Change,
}

impl Plan {
    /// A reply that changes nothing.
    pub fn keep(reply: Reply) -> Plan
        ensures { result ≡ record { reply = reply; change = Change.Keep } }
    {
        Plan {
            reply,
            change: Change::Keep,
        }
    }

    /// A refusal that changes nothing.
    pub fn refuse(refusal: Refusal) -> Plan
        ensures { result ≡ record { reply = Reply.Refused refusal; change = Change.Keep } }
    {
        Plan::keep(Reply::Refused(refusal))
    }

    /// The book is closed.
    pub fn close() -> Plan
        ensures { result ≡ record { reply = Reply.Done; change = Change.Close } }
    {
        Plan {
            reply: Reply::Done,
            change: Change::Close,
        }
    }
}
