//! Tests by name, in first-loaded order.

ghost use Rattle.std.specs.Prelude.{◌≡◌, [], None, Some, IfOk, OnOk, OnErr, MatchOption, option_map, slice_get};
ghost use Rattle.std.specs.Str.{bytes_eq};
ghost use Rattle.indexmap.specs.IndexMap.{insert_entry};
ghost use Rattle.book.specs.Listings.{is_test, listed_tests};
ghost use Rattle.book.specs.Workbench.{test_version, test_of};

use indexmap::IndexMap;
use journal::Loaded;
use litmus_c::Test;
use std::alloc::{AllocError, Global};
use std::marker::Model;
use wb_text::Name;

/// A name's version, and its test or nothing.
#[derive(Drop)]
pub struct TestSlot {
    pub version: u32,
    pub tree: Option<Test>,
}

/// The tests. Contracts see the names with their slots, in order.
pub struct Tests {
    slots: IndexMap<Name, TestSlot>,
}

// A function of its own: whoever holds one drops it by a call.
impl Drop for Tests {
    fn drop(self) {
        let Tests { slots: _ } = self;
    }
}

impl Model for Tests {
    ghost use Rattle.std.specs.Prelude.{List};
    ghost use Rattle.litmus_tree.specs.Tree.{Word};
    ghost use Rattle.book.specs.declared.names.TestSlot.{TestSlot};

    ghost Value = { List (Word × TestSlot) };

    ghost use Rattle.book.specs.NameCodes.{coded_tests};

    ghost coded = { coded_tests };

    ghost view = { λ t. t.slots.entries };
}

impl Tests {
    /// No tests.
    pub fn new(alloc: Global) -> Self
        ensures { result ≡ [] }
    {
        Tests {
            slots: IndexMap::new(alloc),
        }
    }

    /// The version of a name: 0 until its first put.
    pub fn version(&self, name: &Name) -> u32
        ensures { result ≡ test_version self.now name.now }
    {
        match self.slots.get(name) {
            Some(slot) => slot.version,
            None => 0,
        }
    }

    /// The test of a name.
    pub fn test(&self, name: &Name) -> Option<&Test>
        ensures { MatchOption result (test_of self.now name.now ≡ None) (λ t. test_of self.now name.now ≡ Some t.now) }
    {
        match self.slots.get(name) {
            Some(slot) => slot.tree.as_ref(),
            None => None,
        }
    }

    /// Gives a name this slot, or changes nothing.
    pub fn put(&mut self, name: Name, slot: TestSlot) -> Result<(), AllocError>
        ensures ok { OnOk result (self.new ≡ insert_entry bytes_eq self.old name slot) }
        ensures err { OnErr result (self.new ≡ self.old) }
    {
        self.slots.insert(name, slot)?;
        Ok(())
    }

    /// The name at a place among those ever put, in order of first put.
    fn name_at(&self, place: usize) -> Option<&Name>
        ensures { option_map (λ x. x.now) result ≡ option_map (λ e. e.0) (slice_get self.now place) }
    {
        match self.slots.get_index(place) {
            Some((name, _)) => Some(name),
            None => None,
        }
    }

    /// Whether a test was put under this name and not dropped.
    pub fn is_there(&self, name: &Name) -> bool
        ensures { result ≡ is_test self.now name.now }
    {
        match self.slots.get(name) {
            Some(slot) => slot.tree.is_some(),
            None => false,
        }
    }

    /// The loaded tests, in the order in which their names were first put.
    #[tactic(auto, using(crate::proofs::Listed::test_there, crate::proofs::Listed::test_away, crate::proofs::Listed::no_more))]
    pub fn listed(&self, alloc: Global) -> Result<Vec<Loaded>, AllocError>
        ensures { IfOk result (λ v. v.items ≡ listed_tests self.now) }
    {
        let mut listed = Vec::new(alloc);
        for place in 0..usize::MAX {
            let Some(name) = self.name_at(place) else {
                return Ok(listed);
            };
            if self.is_there(name) {
                listed.push(Loaded {
                    name: name.copy()?,
                    version: self.version(name),
                })?;
            }
        }
        // No memory holds so many names.
        Err(AllocError)
    }
}
