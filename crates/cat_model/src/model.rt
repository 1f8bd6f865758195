//! A model that is ready to judge executions.

ghost use Rattle.std.specs.Prelude.{◌≡◌, map, IfOk, OnOk};
ghost use Rattle.cat_tree.specs.Tree.{clause_of, defined_of};
ghost use Rattle.cat_model.specs.Beforehand.{beforehand as functions_beforehand};
ghost use Rattle.cat_model.specs.Scopes.{IsModel};
ghost use Rattle.cat_model.specs.Spellings.{spelled_version, key_bytes};

use cat_tree::{Definition, Item};
use keys::{Key, Spell, spell_all};
use std::alloc::{AllocError, Global};
use std::sync::Arc;
use wb_text::Name;

/// A file that was read, with its version then.
#[derive(Drop)]
pub struct FileVersion {
    pub name: Name,
    pub version: u32,
}

impl Spell for FileVersion {
    ghost over = { spelled_version.over };

    fn spell(&self, key: &mut Key) -> Result<(), AllocError>
        ensures { OnOk result (key.new ≡ spelled_version.over self.now key.old) }
    {
        self.name.spell(key)?;
        key.push_number(u64::from(self.version))
    }
}

/// What a model is made of.
#[derive(Drop)]
struct Parts {
    beforehand: Vec<Definition>,
    items: Vec<Item>,
    files: Vec<FileVersion>,
    // What is written of the items and the files.
    key: Key,
}

/// The items of a model with all includes in place, and the files that they come from; beside them the functions that are bound
/// before any item. Its copies share it. Its type keeps that each item is well sorted in the scope of the earlier ones, that recursive
/// bindings are monotone, that flags have names, and that the expressions aren't too large once calls are replaced.
pub struct Model {
    parts: Arc<Parts>,
}

// A function of its own: whoever holds one drops it by a call.
impl Drop for Model {
    fn drop(self) {
        let Model { parts: _ } = self;
    }
}

impl std::marker::Model for Model {
    ghost use Rattle.std.specs.Arc.{arc_value};
    ghost use Rattle.cat_model.specs.Models.{Assembly, coded_assembly};

    ghost Value = { Assembly };

    ghost coded = { coded_assembly };

    ghost use Rattle.std.specs.Prelude.{◌≡◌, map};
    ghost use Rattle.cat_tree.specs.Tree.{clause_of, defined_of};
    ghost use Rattle.cat_model.specs.Beforehand.{beforehand as functions_beforehand};
    ghost use Rattle.cat_model.specs.Scopes.{IsModel};
    ghost use Rattle.cat_model.specs.Spellings.{key_bytes};

    ghost view = { λ m. let p = arc_value m.parts in record { items = map clause_of p.items.items; files = p.files.items } };

    ghost invariant = { λ m. let p = arc_value m.parts in (map defined_of p.beforehand.items ≡ functions_beforehand) × IsModel (map clause_of p.items.items) × (p.key ≡ key_bytes (record { items = map clause_of p.items.items; files = p.files.items })) };
}

impl PartialEq for Model {
    ghost use Rattle.std.specs.Prelude.{◌≡◌, ◌↔◌, IsTrue};
    ghost use Rattle.std.specs.Cmp.{partial_equiv_from_equiv};
    ghost use Rattle.cat_model.specs.Equality.{same_assembly, assembly_equivalence};

    ghost eq = { same_assembly };

    ghost laws = { partial_equiv_from_equiv assembly_equivalence };

    /// It compares their keys.
    fn eq(&self, other: &Model) -> bool
        ensures value { result ≡ same_assembly self.now other.now }
        ensures exact { IsTrue result ↔ (self.now ≡ other.now) }
    {
        *self.key() == *other.key()
    }
}

impl Eq for Model {
    ghost use Rattle.cat_model.specs.Equality.{assembly_equivalence};

    ghost laws = { assembly_equivalence };
}

/// What is written of these items and files.
#[tactic(auto, unfolding(crate::specs::Spellings::key_bytes))]
fn key_of(alloc: Global, items: &[Item], files: &[FileVersion]) -> Result<Key, AllocError>
    ensures { IfOk result (λ k. k ≡ key_bytes (record { items = map clause_of items.now; files = files.now })) }
{
    let mut key = Key::new(alloc);
    spell_all(items, &mut key)?;
    spell_all(files, &mut key)?;
    Ok(key.trimmed())
}

impl Model {
    /// The model of these items, which come from these files.
    pub(crate) fn new(
        alloc: Global,
        beforehand: Vec<Definition>,
        items: Vec<Item>,
        files: Vec<FileVersion>,
    ) -> Result<Self, AllocError>
        requires beforehand { map defined_of beforehand.items ≡ functions_beforehand }
        requires model { IsModel (map clause_of items.items) }
        ensures { IfOk result (λ m. m ≡ record { items = map clause_of items.items; files = files.items }) }
    {
        let key = key_of(alloc, &items, &files)?;
        let parts = Parts {
            beforehand,
            items,
            files,
            key,
        };
        Ok(Model {
            parts: Arc::new(alloc, parts)?,
        })
    }

    /// What is written of it.
    fn key(&self) -> &Key
        ensures { result.now ≡ key_bytes self.now }
    {
        &self.parts.key
    }

    /// The functions that are bound before any item.
    pub fn beforehand(&self) -> &[Definition]
        ensures { map defined_of result.now ≡ functions_beforehand }
    {
        &self.parts.beforehand
    }

    /// The items, in order.
    pub fn items(&self) -> &[Item]
        ensures value { map clause_of result.now ≡ self.now.items }
        ensures model { IsModel self.now.items }
    {
        &self.parts.items
    }

    /// The files that were read, in order of first reading, the root first.
    pub fn files(&self) -> &[FileVersion]
        ensures { result.now ≡ self.now.files }
    {
        &self.parts.files
    }

    /// The same model, kept once more.
    pub fn copy(&self) -> Result<Self, AllocError>
        ensures { IfOk result (λ m. m ≡ self.now) }
    {
        Ok(Model {
            parts: Arc::try_clone(&self.parts)?,
        })
    }
}
