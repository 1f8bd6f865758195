//! Putting includes in place.

ghost use Rattle.std.specs.Prelude.{◌≡◌, ◌≤◌, ◌+◌, [], ◌∷◌, ◌++◌, List, map, OnOk, IfErr, IfOk, All, ◌⊎◌};
ghost use Rattle.std.specs.List.{Contains, list_any};
ghost use Rattle.std.specs.Str.{bytes_eq};
ghost use Rattle.cat_tree.specs.Tree.{Clause, clause_of, include as include_clause};
ghost use Rattle.cat_model.specs.Closure.{IsOwn, IsClosure};
ghost use Rattle.cat_model.specs.Faults.{IsAstray};
ghost use Rattle.cat_model.specs.Walks.{Grows, Places, IsWalkFault, IsHere, counts_for};
ghost use Rattle.cat_model.specs.declared.fault.ModelFault.{ModelFault as Fault};
ghost use Rattle.cat_model.specs.declared.fault.ModelFault.TheVariants.{NoMemory, ModelTooLarge};

use crate::draft::Draft;
use crate::fault::ModelFault;
use crate::files::Files;
use crate::model::FileVersion;
use cat_tree::Item;
use std::alloc::{AllocError, Global};
use wb_text::Name;

/// The most items of a model, each include counted as one more.
const MOST_ITEMS: usize = 4096;

/// The most files on a path.
const MOST_FILES: usize = 16;

/// Whether a file was read.
fn is_read(files: &[FileVersion], name: &Name) -> bool
    ensures { result ≡ list_any (λ f. bytes_eq f.name name.now) files.now }
{
    files.iter().any(|file| file.name == *name)
}

impl Draft {
    pub fn new(alloc: Global) -> Self
        ensures items { result.items.items ≡ [] }
        ensures files { result.files.items ≡ [] }
        ensures count { result.count ≡ 0 }
    {
        Draft {
            items: Vec::new(alloc),
            files: Vec::new(alloc),
            count: 0,
        }
    }

    /// Counts one more item.
    pub fn count_one(&mut self) -> Result<(), ModelFault>
        ensures ok { OnOk result ((self.new.count ≡ self.old.count + 1) × (self.new.items ≡ self.old.items) × (self.new.files ≡ self.old.files)) }
        ensures err { IfErr result (λ e. (e ≡ ModelTooLarge) × (self.old.count ≡ 4096)) }
    {
        if self.count == MOST_ITEMS {
            return Err(ModelFault::ModelTooLarge);
        }
        self.count += 1;
        Ok(())
    }

    /// Notes a file that is read, with the version that it has now, unless it was read before.
    pub fn note(&mut self, files: &Files, name: &Name) -> Result<(), AllocError>
        ensures { OnOk result (Grows files.now self.old self.new [] (name.now ∷ []) 0) }
    {
        if !is_read(&self.files, name) {
            self.files.push(FileVersion {
                name: name.copy()?,
                version: files.version(name),
            })?;
        }
        Ok(())
    }

    /// Puts an item in place.
    pub fn add(&mut self, item: &Item) -> Result<(), AllocError>
        ensures items { OnOk result (map clause_of self.new.items.items ≡ map clause_of self.old.items.items ++ clause_of item.now ∷ []) }
        ensures files { self.new.files ≡ self.old.files }
        ensures count { self.new.count ≡ self.old.count }
    {
        self.items.push(item.copy()?)?;
        Ok(())
    }
}

/// Whether a file is on a path.
fn is_on_path(path: &[&Name], name: &Name) -> bool
    ensures { result ≡ list_any (λ y. bytes_eq name.now y.now) path.now }
{
    path.iter().any(|on| *name == **on)
}

/// A path with one more file, which stands first.
fn lengthened<'a>(
    alloc: Global,
    path: &[&'a Name],
    name: &'a Name,
) -> Result<Vec<&'a Name>, AllocError>
    ensures { IfOk result (λ v. map (λ x. x.now) v.items ≡ name.now ∷ map (λ x. x.now) path.now) }
{
    let mut longer = Vec::new(alloc);
    longer.push(name)?;
    longer.extend_from_slice(path)?;
    Ok(longer)
}

/// A root and the files that it is put together from.
#[derive(Clone, Copy)]
pub struct Walk<'a> {
    pub alloc: Global,
    pub files: &'a Files,
    pub root: &'a Name,
}

impl<'a> Walk<'a> {
    /// Puts the items of the file that the path ends in.
    #[cycle(walk)]
    fn items(
        &self,
        path: &[&'a Name],
        items: &'a [Item],
        draft: &mut Draft,
    ) -> Result<(), ModelFault>
        requires { IsHere self.now.files.now self.now.root.now (map (λ x. x.now) path.now) (map clause_of items.now) }
        ensures ok { OnOk result (Places self.now.files.now (map (λ x. x.now) path.now) (map clause_of items.now) draft.old draft.new) }
        ensures err { IfErr result (λ e. IsWalkFault e self.now.files.now self.now.root.now (draft.old.count + counts_for self.now.files.now (map (λ x. x.now) path.now) (map clause_of items.now))) }
    {
        for item in items {
            self.item(path, item, draft)?;
        }
        Ok(())
    }

    /// Puts an item of the file that the path ends in.
    #[cycle(walk)]
    fn item(&self, path: &[&'a Name], item: &'a Item, draft: &mut Draft) -> Result<(), ModelFault>
        requires { (is : List Clause) × IsHere self.now.files.now self.now.root.now (map (λ x. x.now) path.now) is × Contains is (clause_of item.now) }
        ensures ok { OnOk result (Places self.now.files.now (map (λ x. x.now) path.now) (clause_of item.now ∷ []) draft.old draft.new) }
        ensures err { IfErr result (λ e. IsWalkFault e self.now.files.now self.now.root.now (draft.old.count + counts_for self.now.files.now (map (λ x. x.now) path.now) (clause_of item.now ∷ []))) }
    {
        match item {
            Item::Include(name) => self.include(path, name, draft),
            _ => {
                draft.count_one()?;
                draft.add(item)?;
                Ok(())
            }
        }
    }

    /// Puts the items of an included file.
    #[cycle(walk)]
    fn include(
        &self,
        path: &[&'a Name],
        name: &'a Name,
        draft: &mut Draft,
    ) -> Result<(), ModelFault>
        requires { (is : List Clause) × IsHere self.now.files.now self.now.root.now (map (λ x. x.now) path.now) is × Contains is (include_clause name.now) }
        ensures ok { OnOk result (Places self.now.files.now (map (λ x. x.now) path.now) (include_clause name.now ∷ []) draft.old draft.new) }
        ensures err { IfErr result (λ e. IsWalkFault e self.now.files.now self.now.root.now (draft.old.count + counts_for self.now.files.now (map (λ x. x.now) path.now) (include_clause name.now ∷ []))) }
    {
        let Some(file) = self.files.get(name) else {
            return Err(ModelFault::NoInclude(name.copy()?));
        };
        if is_on_path(path, name) {
            return Err(ModelFault::IncludeCycle(name.copy()?));
        }
        if path.len() == MOST_FILES {
            return Err(ModelFault::ModelTooLarge);
        }
        draft.count_one()?;
        draft.note(self.files, name)?;
        let longer = lengthened(self.alloc, path, name)?;
        self.items(&longer, file.items(), draft)
    }

    /// The items of the root with all includes in place, and the files read.
    pub fn whole(&self) -> Result<Draft, ModelFault>
        ensures found { IfOk result (λ d. IsClosure self.now.files.now self.now.root.now (map clause_of d.items.items) d.files.items) }
        ensures own { IfOk result (λ d. All IsOwn (map clause_of d.items.items)) }
        ensures only { OnOk result ((e : Fault) → ¬ IsAstray e self.now.files.now self.now.root.now) }
        ensures err { IfErr result (λ e. (e ≡ NoMemory) ⊎ IsAstray e self.now.files.now self.now.root.now) }
    {
        let Some(file) = self.files.get(self.root) else {
            return Err(ModelFault::NoCat(self.root.copy()?));
        };
        let mut draft = Draft::new(self.alloc);
        draft.note(self.files, self.root)?;
        self.items(&[self.root], file.items(), &mut draft)?;
        Ok(draft)
    }
}
