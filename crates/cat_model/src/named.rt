//! Names that are bound beforehand.

ghost use Rattle.std.specs.Prelude.{◌≡◌};
ghost use Rattle.cat_model.specs.Named.{spelling_of, written as written_so, named_of, sort_of_named};

use crate::sort::Sort;
use events::{RelName, SetName};
use wb_text::Name;

/// What a name stands for beforehand: a set or a relation of the execution.
#[derive(Clone, Copy, Debug, PartialEq, Eq)]
pub enum Named {
    Set(SetName),
    Rel(RelName),
}

const NAMED: [Named; 32] = [
    Named::Set(SetName::Writes),
    Named::Set(SetName::Reads),
    Named::Set(SetName::Fences),
    Named::Set(SetName::Memory),
    Named::Set(SetName::InitialWrites),
    Named::Set(SetName::Atomic),
    Named::Set(SetName::Plain),
    Named::Set(SetName::Relaxed),
    Named::Set(SetName::Acquire),
    Named::Set(SetName::Release),
    Named::Set(SetName::AcquireRelease),
    Named::Set(SetName::SeqCst),
    Named::Set(SetName::Exchanges),
    Named::Rel(RelName::Po),
    Named::Rel(RelName::Int),
    Named::Rel(RelName::Ext),
    Named::Rel(RelName::Loc),
    Named::Rel(RelName::PoLoc),
    Named::Rel(RelName::Rf),
    Named::Rel(RelName::Co),
    Named::Rel(RelName::Fr),
    Named::Rel(RelName::Rfi),
    Named::Rel(RelName::Coi),
    Named::Rel(RelName::Fri),
    Named::Rel(RelName::Rfe),
    Named::Rel(RelName::Coe),
    Named::Rel(RelName::Fre),
    Named::Rel(RelName::Rmw),
    Named::Rel(RelName::Data),
    Named::Rel(RelName::Ctrl),
    Named::Rel(RelName::Addr),
    Named::Rel(RelName::Id),
];

/// What is written so.
#[tactic(auto, unfolding(crate::specs::Named::written))]
fn written(bytes: &[u8]) -> Option<Named>
    ensures { result ≡ written_so bytes.now }
{
    NAMED
        .iter()
        .copied()
        .find(|named| named.spelling() == bytes)
}

impl Named {
    /// How it is written.
    #[tactic(auto, unfolding(crate::specs::Named::spelling_of))]
    fn spelling(self) -> &'static [u8]
        ensures { result.now ≡ spelling_of self }
    {
        match self {
            Named::Set(SetName::Writes) => b"W",
            Named::Set(SetName::Reads) => b"R",
            Named::Set(SetName::Fences) => b"F",
            Named::Set(SetName::Memory) => b"M",
            Named::Set(SetName::InitialWrites) => b"IW",
            Named::Set(SetName::Atomic) => b"A",
            Named::Set(SetName::Plain) => b"NA",
            Named::Set(SetName::Relaxed) => b"RLX",
            Named::Set(SetName::Acquire) => b"ACQ",
            Named::Set(SetName::Release) => b"REL",
            Named::Set(SetName::AcquireRelease) => b"ACQ_REL",
            Named::Set(SetName::SeqCst) => b"SC",
            Named::Set(SetName::Exchanges) => b"RMW",
            Named::Rel(RelName::Po) => b"po",
            Named::Rel(RelName::Int) => b"int",
            Named::Rel(RelName::Ext) => b"ext",
            Named::Rel(RelName::Loc) => b"loc",
            Named::Rel(RelName::PoLoc) => b"po-loc",
            Named::Rel(RelName::Rf) => b"rf",
            Named::Rel(RelName::Co) => b"co",
            Named::Rel(RelName::Fr) => b"fr",
            Named::Rel(RelName::Rfi) => b"rfi",
            Named::Rel(RelName::Coi) => b"coi",
            Named::Rel(RelName::Fri) => b"fri",
            Named::Rel(RelName::Rfe) => b"rfe",
            Named::Rel(RelName::Coe) => b"coe",
            Named::Rel(RelName::Fre) => b"fre",
            Named::Rel(RelName::Rmw) => b"rmw",
            Named::Rel(RelName::Data) => b"data",
            Named::Rel(RelName::Ctrl) => b"ctrl",
            Named::Rel(RelName::Addr) => b"addr",
            Named::Rel(RelName::Id) => b"id",
        }
    }

    /// What a name stands for beforehand, if it does. `I` is a second name of the initial writes.
    #[tactic(auto, unfolding(crate::specs::Named::named_of))]
    pub fn of(name: &Name) -> Option<Named>
        ensures { result ≡ named_of name.now }
    {
        let bytes = name.bytes();
        if bytes == b"I".as_slice() {
            return Some(Named::Set(SetName::InitialWrites));
        }
        written(bytes)
    }

    /// Whether it is a set or a relation.
    pub fn sort(self) -> Sort
        ensures { result ≡ sort_of_named self }
    {
        match self {
            Named::Set(_) => Sort::Set,
            Named::Rel(_) => Sort::Relation,
        }
    }
}
