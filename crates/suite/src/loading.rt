//! From cat texts to a model.

ghost use Rattle.std.specs.Prelude.{◌≡◌, ◌<◌, ◌++◌, ◌∷◌, [], take, Some, IfOk, IfErr, OnOk};
ghost use Rattle.cat_model.specs.Files.{version_of, store};
ghost use Rattle.cat_syntax.specs.Reads.{Reads};
ghost use Rattle.slices.specs.Works.{IsModelOf};
ghost use Rattle.suite.specs.Models.{AreFiles, AreUnread, GiveModel, GiveNoModel, IsNoFile};
ghost use Rattle.suite.specs.declared.fault.ModelTrouble.TheVariants.{NoMemory};

use crate::fault::ModelTrouble;
use cat_model::{Files, Model, resolve};
use cat_syntax::{CatFile, read_cat};
use std::alloc::{AllocError, Global};
use wb_text::Name;

/// A cat text under the name by which models include it.
#[derive(Clone, Copy)]
pub struct CatText<'a> {
    pub name: &'a Name,
    pub text: &'a [u8],
}

/// The model whose root has this name, which is that of one of the texts or of a built-in file. What is included is looked for among the
/// texts first, and then among the built-in files.
pub fn load_model(alloc: Global, root: &Name, texts: &[CatText<'_>]) -> Result<Model, ModelTrouble>
    // Each text reads as a file, no two have one name, and these files give this model.
    ensures model { IfOk result (GiveModel texts.now root.now) }
    // A text that reads as no file, a name that stands twice, or what is wrong with the model; each only where it holds.
    ensures cause { IfErr result (GiveNoModel texts.now root.now) }
{
    let files = read_files(alloc, texts)?;
    match resolve(alloc, &files, root) {
        Ok(model) => Ok(model),
        Err(fault) => Err(ModelTrouble::of_files(fault)),
    }
}

/// The files of the texts.
fn read_files(alloc: Global, texts: &[CatText<'_>]) -> Result<Files, ModelTrouble>
    ensures files { IfOk result (AreFiles texts.now) }
    ensures cause { IfErr result (AreUnread texts.now) }
{
    let mut files = Files::new(alloc)?;
    for (place, text) in texts.iter().enumerate() {
        let file = read_file(alloc, place, text.text)?;
        if files.version(text.name) > 0 {
            return Err(ModelTrouble::Twice(place));
        }
        put(&mut files, text.name.copy()?, file)?;
    }
    Ok(files)
}

/// The file that a text reads as. The text stands at this place.
fn read_file(alloc: Global, place: usize, text: &[u8]) -> Result<CatFile, ModelTrouble>
    ensures file { IfOk result (Reads text.now) }
    ensures cause { IfErr result (IsNoFile text.now place) }
{
    match read_cat(alloc, text) {
        Ok(file) => Ok(file),
        Err(fault) => Err(ModelTrouble::of_text(place, fault)),
    }
}

/// Puts a file under a name that has none yet.
fn put(files: &mut Files, name: Name, file: CatFile) -> Result<(), ModelTrouble>
    requires fresh { version_of name files.old ≡ 0 }
    ensures stored { OnOk result (files.new ≡ store (record { name = name; version = 1; file = Some file }) files.old) }
    ensures cause { IfErr result (λ e. e ≡ NoMemory) }
{
    match files.put(name, 1, file) {
        Ok(()) => Ok(()),
        Err(_) => Err(ModelTrouble::NoMemory),
    }
}
