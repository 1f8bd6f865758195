//! The model of one file beside the built-in files.

ghost use Rattle.std.specs.Prelude.{◌≡◌, ◌⊎◌, IfOk, IfErr};
ghost use Rattle.cat_model.specs.Faults.{IsCause};
ghost use Rattle.cat_model.specs.declared.fault.ModelFault.TheVariants as of_model;
ghost use Rattle.slices.specs.Works.{IsModelOf};
ghost use Rattle.program.specs.Inputs.{main_name, files_with};

use cat_model::{Files, Model, ModelFault, resolve};
use cat_syntax::CatFile;
use std::alloc::{AllocError, Global};
use wb_text::{Name, NameFault};

/// The model whose root is the file, as `main.cat`.
pub fn model_of(alloc: Global, file: CatFile) -> Result<Model, ModelFault>
    ensures model { IfOk result (IsModelOf (files_with file) main_name) }
    ensures cause { IfErr result (λ e. (e ≡ of_model.NoMemory) ⊎ IsCause e (files_with file) main_name) }
{
    let root = root_name(alloc)?;
    let files = files_of(alloc, root.copy()?, file)?;
    resolve(alloc, &files, &root)
}

/// The name of the root.
fn root_name(alloc: Global) -> Result<Name, AllocError>
    ensures { IfOk result (λ n. n ≡ main_name) }
{
    match Name::new(alloc, b"main.cat") {
        Ok(name) => Ok(name),
        Err(NameFault::NoMemory) => Err(AllocError),
        Err(NameFault::BadName) => unreachable!(),
    }
}

/// The file under the root's name, at version 1.
#[tactic(auto, unfolding(cat_model::specs::Files::entry_of, cat_model::specs::Files::place_of))]
fn files_of(alloc: Global, root: Name, file: CatFile) -> Result<Files, AllocError>
    requires { root ≡ main_name }
    ensures { IfOk result (λ fs. fs ≡ files_with file) }
{
    let mut files = Files::new(alloc)?;
    match files.put(root, 1, file) {
        Ok(()) => Ok(files),
        Err(_) => Err(AllocError),
    }
}
