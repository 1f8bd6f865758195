//! Laws of models. They have no effect.

ghost use Rattle.std.specs.Prelude.{◌≡◌, List};
ghost use Rattle.cat_tree.specs.Tree.{Word, Clause};
ghost use Rattle.cat_model.specs.Closure.{IsClosure};
ghost use Rattle.cat_model.specs.Faults.{IsFaulty};
ghost use Rattle.cat_model.specs.Scopes.{IsModel};
ghost use Rattle.cat_model.specs.declared.fault.ModelFault.{ModelFault};
ghost use Rattle.cat_model.specs.declared.files.Entry.{Entry};
ghost use Rattle.cat_model.specs.declared.model.FileVersion.{FileVersion};

/// A root gives at most one list of items and one list of files.
pub fn one_closure()
    ensures { (es : List Entry) (root : Word) (is js : List Clause) (fs gs : List FileVersion) → IsClosure es root is fs → IsClosure es root js gs → (is ≡ js) × (fs ≡ gs) }
{}

/// The items of a model have no fault.
pub fn no_fault()
    ensures { (e : ModelFault) (items : List Clause) → IsModel items → ¬ IsFaulty e items }
{}
