//! The functions that are bound before any item.

ghost use Rattle.std.specs.Prelude.{◌≡◌, map, IfOk};
ghost use Rattle.cat_tree.specs.Tree.{defined_of};
ghost use Rattle.cat_model.specs.Beforehand.{beforehand as functions_beforehand, fencerel as fencerel_tree};

use crate::sketch::Sketch::{Intersection, Name, Product, Sequence, Universe};
use crate::sketch::{Sketch, expression};
use crate::words::word;
use cat_tree::Definition;
use std::alloc::{AllocError, Global};

/// `(po & (_ * b)) ; po`
const BODY: Sketch = Sequence(
    &Intersection(&Name(b"po"), &Product(&Universe, &Name(b"b"))),
    &Name(b"po"),
);

/// `let fencerel(b) = (po & (_ * b)) ; po`
fn fencerel(alloc: Global) -> Result<Definition, AllocError>
    ensures { IfOk result (λ d. defined_of d ≡ fencerel_tree) }
{
    let mut parameters = Vec::new(alloc);
    parameters.push(word(alloc, b"b")?)?;
    let name = word(alloc, b"fencerel")?;
    let value = expression(alloc, &BODY)?;
    Ok(Definition {
        name,
        parameters,
        value,
    })
}

/// All of them.
pub fn functions_beforehand(alloc: Global) -> Result<Vec<Definition>, AllocError>
    ensures { IfOk result (λ v. map defined_of v.items ≡ functions_beforehand) }
{
    let mut functions = Vec::new(alloc);
    functions.push(fencerel(alloc)?)?;
    Ok(functions)
}
