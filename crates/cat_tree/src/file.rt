//! A model as it is read.

ghost use Rattle.std.specs.Prelude.{◌≡◌, map, Option, None, Some, option_map, IfOk};
ghost use Rattle.cat_tree.specs.Tree.{clause_of};

use crate::copying::items_copy;
use crate::tree::Item;
use std::alloc::AllocError;
use std::marker::Model;
use wb_text::are_same;

/// The title of a model. Contracts see its bytes.
pub struct Title {
    bytes: Vec<u8>,
}

// A function of its own: whoever holds one drops it by a call.
impl Drop for Title {
    fn drop(self) {
        let Title { bytes: _ } = self;
    }
}

impl Model for Title {
    ghost use Rattle.std.specs.Prelude.{ℕ, List};

    ghost Value = { List ℕ };

    ghost view = { λ t. t.bytes.items };
}

impl Title {
    /// A title of these bytes.
    pub fn new(bytes: Vec<u8>) -> Self
        ensures { result ≡ bytes.items }
    {
        Title { bytes }
    }

    /// The bytes.
    pub fn bytes(&self) -> &[u8]
        ensures { result.now ≡ self.now }
    {
        self.bytes.as_slice()
    }

    /// A second title of the same bytes.
    pub fn copy(&self) -> Result<Title, AllocError>
        ensures { IfOk result (λ t. t ≡ self.now) }
    {
        Ok(Title {
            bytes: self.bytes.clone()?,
        })
    }
}

/// A model: its title and its items. Contracts see its tree.
pub struct CatFile {
    title: Option<Title>,
    items: Vec<Item>,
}

// A function of its own: whoever holds one drops it by a call.
impl Drop for CatFile {
    fn drop(self) {
        let CatFile { title: _, items: _ } = self;
    }
}

impl Model for CatFile {
    ghost use Rattle.cat_tree.specs.Tree.{File};
    ghost use Rattle.cat_tree.specs.Codes.{coded_file};

    ghost Value = { File };

    ghost coded = { coded_file };

    ghost use Rattle.std.specs.Prelude.{map};
    ghost use Rattle.cat_tree.specs.Tree.{clause_of};

    ghost view = { λ f. record { title = f.title; items = map clause_of f.items.items } };
}

impl PartialEq for Title {
    ghost use Rattle.std.proofs.Common.{rules};
    ghost use Rattle.std.specs.Prelude.{◌≡◌, ◌↔◌, IsTrue};
    ghost use Rattle.std.specs.Cmp.Rules.{comparing};
    ghost use Rattle.std.specs.Str.{bytes_eq};

    ghost eq = { bytes_eq };

    ghost laws = { Prim.search (comparing, rules) };

    fn eq(&self, other: &Title) -> bool
        ensures value { result ≡ bytes_eq self.now other.now }
        ensures exact { IsTrue result ↔ (self.now ≡ other.now) }
    {
        self.bytes == other.bytes
    }
}

impl Eq for Title {
    ghost use Rattle.std.proofs.Common.{rules};
    ghost use Rattle.std.specs.Cmp.Rules.{comparing};

    ghost laws = { Prim.search (comparing, rules) };
}

impl PartialEq for CatFile {
    ghost use Rattle.std.specs.Prelude.{◌≡◌, ◌↔◌, IsTrue};
    ghost use Rattle.std.specs.Cmp.{partial_equiv_from_equiv};
    ghost use Rattle.cat_tree.specs.Equality.{same_file};
    ghost use Rattle.cat_tree.specs.Exact.{file_equivalence};

    ghost eq = { same_file };

    ghost laws = { partial_equiv_from_equiv file_equivalence };

    #[tactic(auto, using(crate::proofs::Equal::clauses_told))]
    fn eq(&self, other: &CatFile) -> bool
        ensures value { result ≡ same_file self.now other.now }
        ensures exact { IsTrue result ↔ (self.now ≡ other.now) }
    {
        self.title == other.title && are_same(&self.items, &other.items)
    }
}

impl Eq for CatFile {
    ghost use Rattle.cat_tree.specs.Exact.{file_equivalence};

    ghost laws = { file_equivalence };
}

impl CatFile {
    /// A model of these parts.
    pub fn new(title: Option<Title>, items: Vec<Item>) -> Self
        ensures { result ≡ record { title = title; items = map clause_of items.items } }
    {
        CatFile { title, items }
    }

    /// The title, if there is one.
    pub fn title(&self) -> Option<&Title>
        ensures { option_map (λ t. t.now) result ≡ self.now.title }
    {
        self.title.as_ref()
    }

    /// The items, in order.
    pub fn items(&self) -> &[Item]
        ensures { map clause_of result.now ≡ self.now.items }
    {
        &self.items
    }

    /// A second model that is equal.
    pub fn copy(&self) -> Result<CatFile, AllocError>
        ensures { IfOk result (λ f. f ≡ self.now) }
    {
        let title = match &self.title {
            Some(title) => Some(title.copy()?),
            None => None,
        };
        Ok(CatFile::new(title, items_copy(&self.items)?))
    }
}
