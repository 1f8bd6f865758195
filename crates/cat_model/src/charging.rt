//! How many nodes expressions come to once calls are replaced, and how deep bodies stand in one another.

ghost use Rattle.std.specs.Prelude.{◌≡◌, ◌⊎◌, ◌≤◌, ℕ, List, [], ◌∷◌, ◌++◌, map, IfOk, IfErr, Some, None};
ghost use Rattle.cat_tree.specs.Tree.{Word, term_of, defined_of, bound_of, values_in};
ghost use Rattle.cat_model.specs.Behind.{World, Fit};
ghost use Rattle.cat_model.specs.Counts.{IsCharged, IsCount, IsOver};
ghost use Rattle.cat_model.specs.Scopes.{Charge, charge as charge_for, charges_for};
ghost use Rattle.cat_model.specs.declared.fault.ModelFault.TheVariants.{NoMemory, CallsTooLarge};

use crate::depths::depth;
use crate::fault::ModelFault;
use crate::scope::Scope;
use crate::sizes::size;
use cat_tree::{Binding, Definition, Expression};
use std::alloc::{AllocError, Global};
use wb_text::Name;

/// The most nodes of all checks and bound values.
const MOST_NODES: u32 = 65_536;

/// The most bodies that stand inside one another.
const MOST_BODIES: u32 = 64;

/// The total with one more expression, if it isn't too much.
pub fn charge<'a>(
    alloc: Global,
    scope: &Scope<'a>,
    total: u32,
    expression: &Expression,
) -> Result<Option<u32>, AllocError>
    ensures { IfOk result (λ o. (W : World) (x : Word) → Fit scope.now.names.items W → total ≤ 65536 → IsCharged o total (charge_for W.sizes W.depths x (term_of expression.now))) }
{
    let nodes = size(alloc, scope, expression)?;
    let depth = depth(alloc, scope, expression)?;
    let sum = nodes.saturating_add(1).saturating_add(total);
    if sum > MOST_NODES || depth > MOST_BODIES {
        return Ok(None);
    }
    Ok(Some(sum))
}

/// The total with what is bound to a name.
fn charge_value<'a>(
    alloc: Global,
    scope: &Scope<'a>,
    total: u32,
    name: &Name,
    value: &Expression,
) -> Result<u32, ModelFault>
    ensures ok { IfOk result (λ n. (W : World) (cs : List Charge) → Fit scope.now.names.items W → IsCount total cs → IsCount n (cs ++ charge_for W.sizes W.depths name.now (term_of value.now) ∷ [])) }
    ensures err { IfErr result (λ e. (e ≡ NoMemory) ⊎ ((W : World) (cs : List Charge) → Fit scope.now.names.items W → IsCount total cs → (w : Word) × (e ≡ CallsTooLarge w) × IsOver cs (charge_for W.sizes W.depths name.now (term_of value.now) ∷ []) w)) }
{
    match charge(alloc, scope, total, value)? {
        Some(sum) => Ok(sum),
        None => Err(ModelFault::CallsTooLarge(name.copy()?)),
    }
}

/// The total with a binding of a `let`, if it isn't a function.
fn charge_definition<'a>(
    alloc: Global,
    scope: &Scope<'a>,
    total: u32,
    definition: &Definition,
) -> Result<u32, ModelFault>
    ensures ok { IfOk result (λ n. (W : World) (cs : List Charge) → Fit scope.now.names.items W → IsCount total cs → IsCount n (cs ++ charges_for W.sizes W.depths (values_in (defined_of definition.now ∷ [])))) }
    ensures err { IfErr result (λ e. (e ≡ NoMemory) ⊎ ((W : World) (cs : List Charge) → Fit scope.now.names.items W → IsCount total cs → (w : Word) × (e ≡ CallsTooLarge w) × IsOver cs (charges_for W.sizes W.depths (values_in (defined_of definition.now ∷ []))) w)) }
{
    if definition.parameters.is_empty() {
        charge_value(alloc, scope, total, &definition.name, &definition.value)
    } else {
        Ok(total)
    }
}

/// The total with the bindings of a `let` that aren't functions.
pub fn charge_definitions<'a>(
    alloc: Global,
    scope: &Scope<'a>,
    total: u32,
    definitions: &[Definition],
) -> Result<u32, ModelFault>
    ensures ok { IfOk result (λ n. (W : World) (cs : List Charge) → Fit scope.now.names.items W → IsCount total cs → IsCount n (cs ++ charges_for W.sizes W.depths (values_in (map defined_of definitions.now)))) }
    ensures err { IfErr result (λ e. (e ≡ NoMemory) ⊎ ((W : World) (cs : List Charge) → Fit scope.now.names.items W → IsCount total cs → (w : Word) × (e ≡ CallsTooLarge w) × IsOver cs (charges_for W.sizes W.depths (values_in (map defined_of definitions.now))) w)) }
{
    let mut sum = total;
    for definition in definitions {
        sum = charge_definition(alloc, scope, sum, definition)?;
    }
    Ok(sum)
}

/// The total with the bindings of a recursive group.
pub fn charge_bindings<'a>(
    alloc: Global,
    scope: &Scope<'a>,
    total: u32,
    bindings: &[Binding],
) -> Result<u32, ModelFault>
    ensures ok { IfOk result (λ n. (W : World) (cs : List Charge) → Fit scope.now.names.items W → IsCount total cs → IsCount n (cs ++ charges_for W.sizes W.depths (map bound_of bindings.now))) }
    ensures err { IfErr result (λ e. (e ≡ NoMemory) ⊎ ((W : World) (cs : List Charge) → Fit scope.now.names.items W → IsCount total cs → (w : Word) × (e ≡ CallsTooLarge w) × IsOver cs (charges_for W.sizes W.depths (map bound_of bindings.now)) w)) }
{
    let mut sum = total;
    for binding in bindings {
        sum = charge_value(alloc, scope, sum, &binding.name, &binding.value)?;
    }
    Ok(sum)
}
