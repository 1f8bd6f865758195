//! The reading of texts, and of the files of a model.

ghost use Rattle.std.specs.Prelude.{◌≡◌, ◌≢◌, IfOk, IfErr, MatchBool};
ghost use Rattle.litmus_c.specs.Reads.{Reads, IsRefused};
ghost use Rattle.litmus_tree.specs.Tree.{Litmus};
ghost use Rattle.litmus_c.specs.declared.fault.TestFault.TheVariants as of_test;
ghost use Rattle.cat_syntax.specs.Reads.{Reads as ReadsCat, IsRefused as IsRefusedCat};
ghost use Rattle.cat_tree.specs.Tree.{File};
ghost use Rattle.cat_syntax.specs.declared.fault.CatFault.TheVariants as of_cat;
ghost use Rattle.cat_model.specs.Faults.{IsCause};
ghost use Rattle.cat_model.specs.declared.fault.ModelFault.TheVariants as of_model;
ghost use Rattle.slices.specs.Works.{IsModelOf};

use cat_model::{Files, Model, ModelFault, resolve};
use cat_syntax::{CatFault, CatFile, read_cat};
use litmus_c::{Test, TestFault, read_test};
use std::alloc::Global;
use wb_text::Name;

/// Reads the text of a test.
pub fn read_litmus(alloc: Global, text: &[u8]) -> Result<Test, TestFault>
    ensures found { IfOk result (Reads text.now) }
    ensures only { IfErr result (λ e. (t : Litmus) → Reads text.now t → e ≡ of_test.NoMemory) }
    // Each refusal comes only where its cause holds.
    ensures cause { IfErr result (λ e. IsRefused text.now e) }
{
    read_test(alloc, text)
}

/// Reads the text of a cat file.
pub fn read_file(alloc: Global, text: &[u8]) -> Result<CatFile, CatFault>
    ensures found { IfOk result (ReadsCat text.now) }
    ensures only { IfErr result (λ e. (f : File) → ReadsCat text.now f → e ≡ of_cat.NoMemory) }
    // Each refusal comes only where its cause holds.
    ensures cause { IfErr result (λ e. IsRefusedCat text.now e) }
{
    read_cat(alloc, text)
}

/// The model whose root has this name.
pub fn model_of(alloc: Global, files: &Files, root: &Name) -> Result<Model, ModelFault>
    ensures model { IfOk result (IsModelOf files.now root.now) }
    ensures cause { IfErr result (λ e. e ≢ of_model.NoMemory → IsCause e files.now root.now) }
{
    resolve(alloc, files, root)
}

/// Whether memory ran out.
pub fn is_memory(fault: &TestFault) -> bool
    ensures { MatchBool result (fault.now ≡ of_test.NoMemory) (fault.now ≢ of_test.NoMemory) }
{
    matches!(fault, TestFault::NoMemory)
}

/// Whether memory ran out.
pub fn is_cat_memory(fault: &CatFault) -> bool
    ensures { MatchBool result (fault.now ≡ of_cat.NoMemory) (fault.now ≢ of_cat.NoMemory) }
{
    matches!(fault, CatFault::NoMemory)
}

/// Whether memory ran out.
pub fn is_model_memory(fault: &ModelFault) -> bool
    ensures { MatchBool result (fault.now ≡ of_model.NoMemory) (fault.now ≢ of_model.NoMemory) }
{
    matches!(fault, ModelFault::NoMemory)
}
