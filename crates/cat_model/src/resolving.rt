//! From files to a model.

ghost use Rattle.std.specs.Prelude.{◌≡◌, ◌⊎◌, OnOk, IfOk, IfErr};
ghost use Rattle.cat_model.specs.Closure.{IsClosure};
ghost use Rattle.cat_model.specs.Faults.{IsCause};
ghost use Rattle.cat_model.specs.Scopes.{IsModel};
ghost use Rattle.cat_model.specs.declared.fault.ModelFault.{ModelFault as Fault};
ghost use Rattle.cat_model.specs.declared.fault.ModelFault.TheVariants.{NoMemory};

use crate::beforehand::functions_beforehand;
use crate::checking::require_model;
use crate::fault::ModelFault;
use crate::files::Files;
use crate::model::Model;
use crate::walk::Walk;
use std::alloc::Global;
use wb_text::Name;

/// The model of a root file, with all includes in place. Of several faults the first in reading order is answered; at one include
/// 62, 63 and then 68, at one item 67, 64, 69, 65 and then 66.
///
/// It recurses where files include one another, at most 16 deep, and into no expression.
pub fn resolve(alloc: Global, files: &Files, root: &Name) -> Result<Model, ModelFault>
    ensures found { IfOk result (λ m. IsClosure files.now root.now m.items m.files × IsModel m.items) }
    // A model is given only where no cause stands.
    ensures only { OnOk result ((e : Fault) → ¬ IsCause e files.now root.now) }
    // A refusal comes only where its cause stands.
    ensures cause { IfErr result (λ e. (e ≡ NoMemory) ⊎ IsCause e files.now root.now) }
{
    let walk = Walk { alloc, files, root };
    let draft = walk.whole()?;
    let beforehand = functions_beforehand(alloc)?;
    require_model(alloc, &beforehand, &draft.items)?;
    Ok(Model::new(alloc, beforehand, draft.items, draft.files)?)
}
