//! Items in order: names, sizes, sorts and recursion.

ghost use Rattle.std.specs.Prelude.{◌≡◌, ◌⊎◌, ◌↔◌, List, [], ◌∷◌, ◌++◌, map, OnOk, IfOk, IfErr, IsSome, IsTrue, true, None, All};
ghost use Rattle.cat_tree.specs.Tree.{Word, Clause, term_of, defined_of, bound_of, check_of, clause_of, bind as let_clause, bind_recursively};
ghost use Rattle.cat_model.specs.Beforehand.{beforehand as functions_beforehand};
ghost use Rattle.cat_model.specs.Behind.{World, Fit, first};
ghost use Rattle.cat_model.specs.Closure.{IsOwn};
ghost use Rattle.cat_model.specs.Counts.{IsCount, IsOver, Stands};
ghost use Rattle.cat_model.specs.Faults.{IsItemFault, IsFaulty};
ghost use Rattle.cat_model.specs.Scopes.{Charge, charge as charge_for, word_of, IsTestable, IsModel};
ghost use Rattle.cat_model.specs.declared.fault.ModelFault.TheVariants.{NoMemory, CallsTooLarge, WrongSort, FlagWithoutName};

use crate::binding::{
    bind_functions, bind_group, bind_values, first_denied_in, is_relation, require_relations,
};
use crate::charging::{charge, charge_bindings, charge_definitions};
use crate::fault::ModelFault;
use crate::naming::{require_bindings_bound, require_bound, require_definitions_bound};
use crate::schemes::sort_of;
use crate::scope::Scope;
use crate::words::word;
use cat_tree::{Binding, Check, CheckKind, Definition, Expression, Item};
use std::alloc::{AllocError, Global};

/// Whether a check can test an expression.
fn is_testable<'a>(
    alloc: Global,
    scope: &Scope<'a>,
    kind: CheckKind,
    expression: &Expression,
) -> Result<bool, AllocError>
    ensures { IfOk result (λ b. (W : World) → Fit scope.now.names.items W → IsTrue b ↔ IsTestable W.sorts kind (term_of expression.now)) }
{
    let sort = sort_of(alloc, scope, expression)?;
    match kind {
        CheckKind::Acyclic => Ok(is_relation(sort)),
        CheckKind::Irreflexive => Ok(is_relation(sort)),
        CheckKind::Empty => Ok(sort.is_some()),
    }
}

/// How a kind of check is written.
fn spelling(kind: CheckKind) -> &'static [u8]
    ensures { result.now ≡ word_of kind }
{
    match kind {
        CheckKind::Acyclic => b"acyclic",
        CheckKind::Irreflexive => b"irreflexive",
        CheckKind::Empty => b"empty",
    }
}

/// The total with what a check tests.
fn charge_check<'a>(
    alloc: Global,
    scope: &Scope<'a>,
    total: u32,
    check: &Check,
) -> Result<u32, ModelFault>
    ensures ok { IfOk result (λ n. (W : World) (cs : List Charge) → Fit scope.now.names.items W → IsCount total cs → IsCount n (cs ++ charge_for W.sizes W.depths (word_of check.now.kind) (term_of check.now.expression) ∷ [])) }
    ensures err { IfErr result (λ e. (e ≡ NoMemory) ⊎ ((W : World) (cs : List Charge) → Fit scope.now.names.items W → IsCount total cs → (w : Word) × (e ≡ CallsTooLarge w) × IsOver cs (charge_for W.sizes W.depths (word_of check.now.kind) (term_of check.now.expression) ∷ []) w)) }
{
    match charge(alloc, scope, total, &check.expression)? {
        Some(sum) => Ok(sum),
        None => Err(ModelFault::CallsTooLarge(word(alloc, spelling(check.kind))?)),
    }
}

/// Whether a check that is a flag has a name.
fn require_name(check: &Check) -> Result<(), ModelFault>
    ensures ok { OnOk result (check.now.flag ≡ true → IsSome check.now.name) }
    ensures err { IfErr result (λ e. (e ≡ FlagWithoutName) × (check.now.flag ≡ true) × (check.now.name ≡ None)) }
{
    if !check.flag {
        return Ok(());
    }
    match check.name {
        Some(_) => Ok(()),
        None => Err(ModelFault::FlagWithoutName),
    }
}

/// Whether a check can test its expression.
fn require_testable<'a>(alloc: Global, scope: &Scope<'a>, check: &Check) -> Result<(), ModelFault>
    ensures ok { OnOk result ((W : World) → Fit scope.now.names.items W → IsTestable W.sorts check.now.kind (term_of check.now.expression)) }
    ensures err { IfErr result (λ e. (e ≡ NoMemory) ⊎ ((e ≡ WrongSort (word_of check.now.kind)) × ((W : World) → Fit scope.now.names.items W → ¬ IsTestable W.sorts check.now.kind (term_of check.now.expression)))) }
{
    if !is_testable(alloc, scope, check.kind, &check.expression)? {
        return Err(ModelFault::WrongSort(word(alloc, spelling(check.kind))?));
    }
    Ok(())
}

/// The total behind a check, if it is in order.
fn follow_check<'a>(
    alloc: Global,
    scope: &Scope<'a>,
    total: u32,
    check: &Check,
) -> Result<u32, ModelFault>
    ensures ok { IfOk result (λ n. (front : List Clause) → Stands scope.now.names.items total front → Stands scope.now.names.items n (front ++ check_of check.now ∷ [])) }
    ensures err { IfErr result (λ e. (front : List Clause) → Stands scope.now.names.items total front → (e ≡ NoMemory) ⊎ IsItemFault e front (check_of check.now)) }
{
    require_name(check)?;
    require_bound(alloc, scope, &[], &check.expression)?;
    let sum = charge_check(alloc, scope, total, check)?;
    require_testable(alloc, scope, check)?;
    Ok(sum)
}

/// The total behind a `let`, whose names are bound.
fn follow_let<'a>(
    alloc: Global,
    scope: &mut Scope<'a>,
    total: u32,
    definitions: &'a [Definition],
) -> Result<u32, ModelFault>
    ensures ok { IfOk result (λ n. (front : List Clause) → Stands scope.old.names.items total front → Stands scope.new.names.items n (front ++ let_clause (map defined_of definitions.now) ∷ [])) }
    ensures err { IfErr result (λ e. (front : List Clause) → Stands scope.old.names.items total front → (e ≡ NoMemory) ⊎ IsItemFault e front (let_clause (map defined_of definitions.now))) }
{
    require_definitions_bound(alloc, scope, definitions)?;
    let sum = charge_definitions(alloc, scope, total, definitions)?;
    let mut above = Vec::new(alloc);
    bind_values(alloc, scope, definitions, &mut above)?;
    bind_functions(alloc, scope, definitions, &mut above)?;
    scope.names.append(&mut above)?;
    Ok(sum)
}

/// The total behind a `let rec`, whose names are bound.
fn follow_recursion<'a>(
    alloc: Global,
    scope: &mut Scope<'a>,
    total: u32,
    bindings: &'a [Binding],
) -> Result<u32, ModelFault>
    ensures ok { IfOk result (λ n. (front : List Clause) → Stands scope.old.names.items total front → Stands scope.new.names.items n (front ++ bind_recursively (map bound_of bindings.now) ∷ [])) }
    ensures err { IfErr result (λ e. (front : List Clause) → Stands scope.old.names.items total front → (e ≡ NoMemory) ⊎ IsItemFault e front (bind_recursively (map bound_of bindings.now))) }
{
    let denied = first_denied_in(alloc, scope, bindings)?;
    bind_group(scope, bindings)?;
    require_bindings_bound(alloc, scope, bindings)?;
    let sum = charge_bindings(alloc, scope, total, bindings)?;
    require_relations(alloc, scope, bindings)?;
    match denied {
        Some(name) => Err(ModelFault::NotMonotone(name.copy()?)),
        None => Ok(sum),
    }
}

/// The total behind an item, whose names are bound.
fn follow<'a>(
    alloc: Global,
    scope: &mut Scope<'a>,
    total: u32,
    item: &'a Item,
) -> Result<u32, ModelFault>
    requires { IsOwn (clause_of item.now) }
    ensures ok { IfOk result (λ n. (front : List Clause) → Stands scope.old.names.items total front → Stands scope.new.names.items n (front ++ clause_of item.now ∷ [])) }
    ensures err { IfErr result (λ e. (front : List Clause) → Stands scope.old.names.items total front → (e ≡ NoMemory) ⊎ IsItemFault e front (clause_of item.now)) }
{
    match item {
        Item::Let(definitions) => follow_let(alloc, scope, total, definitions),
        Item::LetRec(bindings) => follow_recursion(alloc, scope, total, bindings),
        Item::Check(check) => follow_check(alloc, scope, total, check),
        Item::Include(_) => unreachable!(),
        Item::Show(_) => Ok(total),
        Item::Unshow(_) => Ok(total),
    }
}

/// What is bound before any item.
fn first_scope<'a>(alloc: Global, functions: &'a [Definition]) -> Result<Scope<'a>, AllocError>
    requires { map defined_of functions.now ≡ functions_beforehand }
    ensures { IfOk result (λ s. Fit s.names.items first) }
{
    let mut scope = Scope::new(alloc);
    let mut above = Vec::new(alloc);
    bind_functions(alloc, &scope, functions, &mut above)?;
    scope.names.append(&mut above)?;
    Ok(scope)
}

/// Whether items without includes are those of a model, where these functions are bound beforehand.
pub fn require_model(
    alloc: Global,
    functions: &[Definition],
    items: &[Item],
) -> Result<(), ModelFault>
    requires beforehand { map defined_of functions.now ≡ functions_beforehand }
    requires own { All IsOwn (map clause_of items.now) }
    ensures ok { OnOk result (IsModel (map clause_of items.now)) }
    ensures err { IfErr result (λ e. (e ≡ NoMemory) ⊎ IsFaulty e (map clause_of items.now)) }
{
    let mut scope = first_scope(alloc, functions)?;
    let mut total = 0;
    for item in items {
        total = follow(alloc, &mut scope, total, item)?;
    }
    Ok(())
}
