//! Names that are bound at an item.

ghost use Rattle.std.specs.Prelude.{◌≡◌, ◌≢◌, ◌⊎◌, ◌↔◌, List, [], ◌∷◌, ◌++◌, map, IfOk, OnOk, IfErr, IsSome, IsTrue, All, Some, None, MatchOption};
ghost use Rattle.std.specs.List.{Contains};
ghost use Rattle.cat_tree.specs.Tree.{Bound, term_of, defined_of, bound_of, values_in, functions_in};
ghost use Rattle.cat_model.specs.Behind.{World, Fit, IsSummary, values_above, functions_above, group_above};
ghost use Rattle.cat_model.specs.Denials.{marks as marks_in, grouped, denied_in};
ghost use Rattle.cat_model.specs.Scopes.{IsMonotone};
ghost use Rattle.cat_model.specs.Sorts.{sort as sort_in};
ghost use Rattle.cat_model.specs.declared.fault.ModelFault.TheVariants.{NoMemory, WrongSort};
ghost use Rattle.cat_model.specs.declared.sort.Sort.TheVariants.{Relation};

use crate::denials::{first_denied, make_marked};
use crate::depths::make_nesting;
use crate::fault::ModelFault;
use crate::schemes::{make_scheme, sort_of};
use crate::scope::{BoundName, Held, Scope, Summary};
use crate::sizes::make_sizing;
use crate::sort::Sort;
use cat_tree::{Binding, Definition, Expression};
use std::alloc::{AllocError, Global};
use wb_text::Name;

/// Binds a value above these names.
fn bind_value<'a>(
    alloc: Global,
    scope: &Scope<'a>,
    name: &'a Name,
    value: &Expression,
    above: &mut Vec<BoundName<'a>>,
) -> Result<(), ModelFault>
    ensures ok { OnOk result ((B W : World) → Fit scope.now.names.items B → Fit (scope.now.names.items ++ above.old.items) W → Fit (scope.now.names.items ++ above.new.items) (values_above B (record { name = name.now; value = term_of value.now } ∷ []) W)) }
    ensures sorted { OnOk result ((B : World) → Fit scope.now.names.items B → IsSome (sort_in B.sorts (term_of value.now))) }
    ensures err { IfErr result (λ e. (e ≡ NoMemory) ⊎ ((e ≡ WrongSort name.now) × ((B : World) → Fit scope.now.names.items B → sort_in B.sorts (term_of value.now) ≡ None))) }
{
    match sort_of(alloc, scope, value)? {
        Some(sort) => {
            above.push(BoundName {
                name,
                held: Held::Value(sort),
            })?;
            Ok(())
        }
        None => Err(ModelFault::WrongSort(name.copy()?)),
    }
}

/// Binds a value above these names, if the definition is one.
fn bind_if_value<'a>(
    alloc: Global,
    scope: &Scope<'a>,
    definition: &'a Definition,
    above: &mut Vec<BoundName<'a>>,
) -> Result<(), ModelFault>
    ensures ok { OnOk result ((B W : World) → Fit scope.now.names.items B → Fit (scope.now.names.items ++ above.old.items) W → Fit (scope.now.names.items ++ above.new.items) (values_above B (values_in (defined_of definition.now ∷ [])) W)) }
    ensures sorted { OnOk result ((B : World) → Fit scope.now.names.items B → All (λ b. IsSome (sort_in B.sorts b.value)) (values_in (defined_of definition.now ∷ []))) }
    ensures err { IfErr result (λ e. (e ≡ NoMemory) ⊎ ((b : Bound) × (e ≡ WrongSort b.name) × Contains (values_in (defined_of definition.now ∷ [])) b × ((B : World) → Fit scope.now.names.items B → sort_in B.sorts b.value ≡ None))) }
{
    if definition.parameters.is_empty() {
        bind_value(alloc, scope, &definition.name, &definition.value, above)
    } else {
        Ok(())
    }
}

/// Binds the values of a `let` above these names.
pub fn bind_values<'a>(
    alloc: Global,
    scope: &Scope<'a>,
    definitions: &'a [Definition],
    above: &mut Vec<BoundName<'a>>,
) -> Result<(), ModelFault>
    ensures ok { OnOk result ((B W : World) → Fit scope.now.names.items B → Fit (scope.now.names.items ++ above.old.items) W → Fit (scope.now.names.items ++ above.new.items) (values_above B (values_in (map defined_of definitions.now)) W)) }
    ensures sorted { OnOk result ((B : World) → Fit scope.now.names.items B → All (λ b. IsSome (sort_in B.sorts b.value)) (values_in (map defined_of definitions.now))) }
    ensures err { IfErr result (λ e. (e ≡ NoMemory) ⊎ ((b : Bound) × (e ≡ WrongSort b.name) × Contains (values_in (map defined_of definitions.now)) b × ((B : World) → Fit scope.now.names.items B → sort_in B.sorts b.value ≡ None))) }
{
    for definition in definitions {
        bind_if_value(alloc, scope, definition, above)?;
    }
    Ok(())
}

/// What is known of a function.
fn make_summary<'a>(
    alloc: Global,
    scope: &Scope<'a>,
    function: &Definition,
) -> Result<Summary, AllocError>
    ensures { IfOk result (λ s. (B : World) → Fit scope.now.names.items B → IsSummary s B (defined_of function.now)) }
{
    let sizing = make_sizing(alloc, scope, &function.parameters, &function.value)?;
    let nesting = make_nesting(alloc, scope, &function.parameters, &function.value)?;
    let marked = make_marked(alloc, scope, &function.parameters, &function.value)?;
    let scheme = make_scheme(alloc, scope, &function.parameters, &function.value)?;
    Ok(Summary {
        sizing,
        nesting,
        marked,
        scheme,
    })
}

/// Binds a function above these names.
fn bind_function<'a>(
    alloc: Global,
    scope: &Scope<'a>,
    function: &'a Definition,
    above: &mut Vec<BoundName<'a>>,
) -> Result<(), AllocError>
    ensures { OnOk result ((B W : World) → Fit scope.now.names.items B → Fit (scope.now.names.items ++ above.old.items) W → Fit (scope.now.names.items ++ above.new.items) (functions_above B (defined_of function.now ∷ []) W)) }
{
    let summary = make_summary(alloc, scope, function)?;
    above.push(BoundName {
        name: &function.name,
        held: Held::Function(summary),
    })?;
    Ok(())
}

/// Binds a function above these names, if the definition is one.
fn bind_if_function<'a>(
    alloc: Global,
    scope: &Scope<'a>,
    definition: &'a Definition,
    above: &mut Vec<BoundName<'a>>,
) -> Result<(), AllocError>
    ensures { OnOk result ((B W : World) → Fit scope.now.names.items B → Fit (scope.now.names.items ++ above.old.items) W → Fit (scope.now.names.items ++ above.new.items) (functions_above B (functions_in (defined_of definition.now ∷ [])) W)) }
{
    if definition.parameters.is_empty() {
        Ok(())
    } else {
        bind_function(alloc, scope, definition, above)
    }
}

/// Binds the functions of a `let` above these names.
pub fn bind_functions<'a>(
    alloc: Global,
    scope: &Scope<'a>,
    definitions: &'a [Definition],
    above: &mut Vec<BoundName<'a>>,
) -> Result<(), AllocError>
    ensures { OnOk result ((B W : World) → Fit scope.now.names.items B → Fit (scope.now.names.items ++ above.old.items) W → Fit (scope.now.names.items ++ above.new.items) (functions_above B (functions_in (map defined_of definitions.now)) W)) }
{
    for definition in definitions {
        bind_if_function(alloc, scope, definition, above)?;
    }
    Ok(())
}

/// Binds the names of a recursive group: they are relations.
pub fn bind_group<'a>(scope: &mut Scope<'a>, bindings: &'a [Binding]) -> Result<(), AllocError>
    ensures { OnOk result ((W : World) → Fit scope.old.names.items W → Fit scope.new.names.items (group_above (map bound_of bindings.now) W)) }
{
    for binding in bindings {
        scope.names.push(BoundName {
            name: &binding.name,
            held: Held::Value(Sort::Relation),
        })?;
    }
    Ok(())
}

/// Whether this is the sort of relations.
pub fn is_relation(sort: Option<Sort>) -> bool
    ensures { IsTrue result ↔ (sort ≡ Some Relation) }
{
    match sort {
        Some(Sort::Relation) => true,
        Some(Sort::Set) => false,
        None => false,
    }
}

/// Whether each expression of a recursive group is a relation, where the group's names are bound.
pub fn require_relations<'a>(
    alloc: Global,
    scope: &Scope<'a>,
    bindings: &[Binding],
) -> Result<(), ModelFault>
    ensures ok { OnOk result ((W : World) → Fit scope.now.names.items W → All (λ b. sort_in W.sorts b.value ≡ Some Relation) (map bound_of bindings.now)) }
    ensures err { IfErr result (λ e. (e ≡ NoMemory) ⊎ ((b : Bound) × (e ≡ WrongSort b.name) × Contains (map bound_of bindings.now) b × ((W : World) → Fit scope.now.names.items W → sort_in W.sorts b.value ≢ Some Relation))) }
{
    for binding in bindings {
        if !is_relation(sort_of(alloc, scope, &binding.value)?) {
            return Err(ModelFault::WrongSort(binding.name.copy()?));
        }
    }
    Ok(())
}

/// The first name of a recursive group that is denied in the group once calls are replaced, if there is one. The group's names aren't bound yet.
pub fn first_denied_in<'a, 'g>(
    alloc: Global,
    scope: &Scope<'a>,
    group: &'g [Binding],
) -> Result<Option<&'g Name>, AllocError>
    ensures { IfOk result (λ o. (W : World) → Fit scope.now.names.items W → MatchOption o (IsMonotone W.marks (map bound_of group.now)) (λ x. (b : Bound) × Contains (map bound_of group.now) b × Contains (denied_in (marks_in (grouped (map bound_of group.now) W.marks) b.value)) x.now)) }
{
    for binding in group {
        match first_denied(alloc, scope, group, &binding.value)? {
            Some(name) => return Ok(Some(name)),
            None => {}
        }
    }
    Ok(None)
}
