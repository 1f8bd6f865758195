//! Files of the cat language, with their versions.

ghost use Rattle.std.specs.Prelude.{◌≡◌, ◌<◌, [], true, Some, None, IfOk, OnOk, IfErr, OnErr, option_map, slice_get, is_some};
ghost use Rattle.cat_model.specs.Files.{built_in, version_of, loaded, file_of, nothing, store};
ghost use Rattle.cat_model.specs.Rc11.{rc11 as rc11_tree};

use crate::rc11_text::rc11;
use cat_tree::CatFile;
use indexmap::IndexMap;
use std::alloc::{AllocError, Global};
use std::marker::Model;
use wb_text::Name;

/// What contracts see of a name that was put: the name with its version and its file, or none where the file was removed.
pub struct Entry {
    pub name: Name,
    pub version: u32,
    pub file: Option<CatFile>,
}

/// The version of a name and its file, or none where the file was removed.
#[derive(Drop)]
struct Slot {
    version: u32,
    file: Option<CatFile>,
}

/// The files that are there beforehand.
#[derive(Drop)]
struct BuiltIn {
    rc11: CatFile,
    /// Of `stdlib.cat`, `cos.cat` and `c11_cos.cat`, which have no items.
    empty: CatFile,
    ghost is_rc11: { rc11 ≡ rc11_tree },
    ghost is_empty: { empty ≡ nothing },
}

impl BuiltIn {
    fn new(alloc: Global) -> Result<Self, AllocError> {
        Ok(BuiltIn {
            rc11: rc11(alloc)?,
            empty: CatFile::new(None, Vec::new(alloc)),
        })
    }

    #[tactic(auto, unfolding(crate::specs::Files::built_in))]
    fn get(&self, name: &Name) -> Option<&CatFile>
        ensures { option_map (λ f. f.now) result ≡ built_in name.now }
    {
        let bytes = name.bytes();
        if bytes == b"rc11.cat".as_slice() {
            Some(&self.rc11)
        } else if bytes == b"stdlib.cat".as_slice()
            || bytes == b"cos.cat".as_slice()
            || bytes == b"c11_cos.cat".as_slice()
        {
            Some(&self.empty)
        } else {
            None
        }
    }
}

/// Names in order of first put, each with its version and its file or none, over the built-in files `rc11.cat`,
/// `stdlib.cat`, `cos.cat` and `c11_cos.cat`. A loaded file hides a built-in one of its name.
pub struct Files {
    slots: IndexMap<Name, Slot>,
    built_in: BuiltIn,
}

// A function of its own: whoever holds one drops it by a call.
impl Drop for Files {
    fn drop(self) {
        let Files {
            slots: _,
            built_in: _,
        } = self;
    }
}

impl Model for Files {
    ghost use Rattle.std.specs.Prelude.{List};
    ghost use Rattle.cat_model.specs.declared.files.Entry.{Entry};

    ghost Value = { List Entry };

    ghost use Rattle.cat_model.specs.FileCodes.{coded_entries};
    ghost use Rattle.cat_model.specs.Slots.{entries};

    ghost coded = { coded_entries };

    ghost view = { λ f. entries f.slots.entries };
}

impl Files {
    /// No name is put yet.
    pub fn new(alloc: Global) -> Result<Self, AllocError>
        ensures { IfOk result (λ f. f ≡ []) }
    {
        let built_in = BuiltIn::new(alloc)?;
        Ok(Files {
            slots: IndexMap::new(alloc),
            built_in,
        })
    }

    /// Stores a file under a name, at a version above its last. An `Err` changes nothing, and hands back what was given.
    #[tactic(auto, using(crate::proofs::Stored::inserted))]
    pub fn put(
        &mut self,
        name: Name,
        version: u32,
        file: CatFile,
    ) -> Result<(), (Name, CatFile, AllocError)>
        requires { version_of name self.old < version }
        ensures ok { OnOk result (self.new ≡ store (record { name = name; version = version; file = Some file }) self.old) }
        ensures err { OnErr result (self.new ≡ self.old) }
        ensures back { IfErr result (λ e. (e.0 ≡ name) × (e.1 ≡ file)) }
    {
        let slot = Slot {
            version,
            file: Some(file),
        };
        match self.slots.insert(name, slot) {
            Ok(_) => Ok(()),
            Err(refused) => {
                let (name, slot) = refused.value;
                match slot.file {
                    Some(file) => Err((name, file, AllocError)),
                    None => unreachable!(),
                }
            }
        }
    }

    /// Takes the file of a name away, at a version above its last. A built-in file of that name is seen again.
    #[tactic(auto, using(crate::proofs::Stored::rewritten, crate::proofs::Stored::not_loaded))]
    pub fn remove(&mut self, name: &Name, version: u32)
        requires loaded { is_some (loaded name.now self.old) ≡ true }
        requires version { version_of name.now self.old < version }
        ensures { self.new ≡ store (record { name = name.now; version = version; file = None }) self.old }
    {
        if let Some(slot) = self.slots.get_mut(name) {
            slot.version = version;
            slot.file = None;
        }
    }

    /// The version of a name: 0 if it was never put.
    #[tactic(auto, using(crate::proofs::Stored::entry_slot))]
    pub fn version(&self, name: &Name) -> u32
        ensures { result ≡ version_of name.now self.now }
    {
        match self.slots.get(name) {
            Some(slot) => slot.version,
            None => 0,
        }
    }

    /// Whether a file was put under this name and not removed.
    #[tactic(auto, using(crate::proofs::Stored::entry_slot))]
    pub fn is_loaded(&self, name: &Name) -> bool
        ensures { result ≡ is_some (loaded name.now self.now) }
    {
        match self.slots.get(name) {
            Some(slot) => slot.file.is_some(),
            None => false,
        }
    }

    /// The name at a place among those ever put, in order of first put.
    pub fn name_at(&self, place: usize) -> Option<&Name>
        ensures { option_map (λ x. x.now) result ≡ option_map (λ e. e.name) (slice_get self.now place) }
    {
        match self.slots.get_index(place) {
            Some((name, _)) => Some(name),
            None => None,
        }
    }

    /// The file of a name, loaded or built in.
    #[tactic(auto, using(crate::proofs::Stored::entry_slot))]
    pub fn get(&self, name: &Name) -> Option<&CatFile>
        ensures { option_map (λ f. f.now) result ≡ file_of name.now self.now }
    {
        if let Some(slot) = self.slots.get(name) {
            if let Some(file) = &slot.file {
                return Some(file);
            }
        }
        self.built_in.get(name)
    }
}
