//! Names that are not bound. Nothing here recurses: loops go over the nodes.

ghost use Rattle.std.specs.Prelude.{◌≡◌, ◌⊎◌, List, map, reverse, take, drop, option_map, true, false, IfOk, OnOk, IfErr, Some, None, if◌then◌else◌};
ghost use Rattle.std.specs.List.{Contains};
ghost use Rattle.cat_tree.specs.Terms.{latest as latest_of, earlier, left_by, leaf_of, terms_of, call};
ghost use Rattle.cat_tree.specs.Tree.{Word, Term, Bound, Defined, term_of, defined_of, bound_of};
ghost use Rattle.cat_model.specs.Along.{ForEach, is_loose, IsFirstLoose, first_some};
ghost use Rattle.cat_model.specs.Lookups.{is_known};
ghost use Rattle.cat_model.specs.Names.{names as names_in, free_names, is_among};
ghost use Rattle.cat_model.specs.declared.fault.ModelFault.TheVariants.{NoMemory, Unbound};

use crate::fault::ModelFault;
use crate::scope::Scope;
use cat_tree::{Binding, Definition, Expression, Leaf, Node};
use std::alloc::{AllocError, Global};
use wb_text::Name;

/// Whether a name is one of these parameters.
fn is_parameter(parameters: &[Name], name: &Name) -> bool
    ensures { result ≡ is_among parameters.now name.now }
{
    parameters.iter().any(|parameter| *parameter == *name)
}

/// The name, if it is neither bound nor a parameter.
fn loose<'a, 'e>(scope: &Scope<'a>, parameters: &[Name], name: &'e Name) -> Option<&'e Name>
    ensures { option_map (λ x. x.now) result ≡ (if is_loose scope.now.names.items parameters.now name.now then Some name.now else None) }
{
    if is_parameter(parameters, name) {
        return None;
    }
    if scope.knows(name) {
        return None;
    }
    Some(name)
}

/// The name of a leaf, if it has one that is neither bound nor a parameter.
fn loose_in_leaf<'a, 'e>(scope: &Scope<'a>, parameters: &[Name], leaf: &'e Leaf) -> Option<&'e Name>
    ensures { IsFirstLoose scope.now.names.items parameters.now result (leaf_of leaf.now) }
{
    match leaf {
        Leaf::Name(name) => loose(scope, parameters, name),
        Leaf::EmptyRelation => None,
        Leaf::EmptySet => None,
        Leaf::Universe => None,
    }
}

/// Takes the latest name, if there is one.
fn latest<'e>(waiting: &mut Vec<Option<&'e Name>>) -> Option<&'e Name>
    ensures value { result ≡ latest_of None (reverse waiting.old.items) }
    ensures rest { reverse waiting.new.items ≡ earlier (reverse waiting.old.items) }
{
    match waiting.pop() {
        Some(name) => name,
        None => None,
    }
}

/// The first of several names, where each may be missing.
fn first_of<'e>(names: &[Option<&'e Name>]) -> Option<&'e Name>
    ensures { result ≡ first_some names.now }
{
    for name in names {
        if name.is_some() {
            return *name;
        }
    }
    None
}

/// The first name of a call, where those of its arguments are the latest that wait.
fn loose_in_call<'a, 'e>(
    scope: &Scope<'a>,
    parameters: &[Name],
    name: &'e Name,
    count: usize,
    waiting: &mut Vec<Option<&'e Name>>,
) -> Option<&'e Name>
    ensures { (us : List Term) → ForEach (IsFirstLoose scope.now.names.items parameters.now) (reverse waiting.old.items) us → IsFirstLoose scope.now.names.items parameters.now result (call name.now (terms_of (reverse (take count us)))) × ForEach (IsFirstLoose scope.now.names.items parameters.now) (reverse waiting.new.items) (drop count us) }
{
    let first = waiting.len().saturating_sub(count);
    let arguments = first_of(&waiting[first..]);
    waiting.truncate(first);
    loose(scope, parameters, name).or(arguments)
}

/// Looks at a node, whose operands' first names are the latest that wait.
fn look<'a, 'e>(
    scope: &Scope<'a>,
    parameters: &[Name],
    node: &'e Node,
    waiting: &mut Vec<Option<&'e Name>>,
) -> Result<(), AllocError>
    ensures { OnOk result ((us : List Term) → ForEach (IsFirstLoose scope.now.names.items parameters.now) (reverse waiting.old.items) us → ForEach (IsFirstLoose scope.now.names.items parameters.now) (reverse waiting.new.items) (left_by node.now us)) }
{
    match node {
        Node::Leaf(leaf) => waiting.push(loose_in_leaf(scope, parameters, leaf))?,
        Node::Sign(_) => {
            let operand = latest(waiting);
            waiting.push(operand)?;
        }
        Node::Infix(_) => {
            let right = latest(waiting);
            let left = latest(waiting);
            waiting.push(left.or(right))?;
        }
        Node::Call(name, count) => {
            let first = loose_in_call(scope, parameters, name, *count, waiting);
            waiting.push(first)?;
        }
    }
    Ok(())
}

/// The first name of an expression, in reading order, that is neither bound nor a parameter.
fn first_loose<'a, 'e>(
    alloc: Global,
    scope: &Scope<'a>,
    parameters: &[Name],
    expression: &'e Expression,
) -> Result<Option<&'e Name>, AllocError>
    ensures { IfOk result (λ o. IsFirstLoose scope.now.names.items parameters.now o (term_of expression.now)) }
{
    let mut waiting = Vec::new(alloc);
    for node in &expression.nodes {
        look(scope, parameters, node, &mut waiting)?;
    }
    Ok(latest(&mut waiting))
}

/// Whether each name of an expression is bound, or one of these parameters.
pub fn require_bound<'a>(
    alloc: Global,
    scope: &Scope<'a>,
    parameters: &[Name],
    expression: &Expression,
) -> Result<(), ModelFault>
    ensures ok { OnOk result ((x : Word) → Contains (names_in (term_of expression.now)) x → is_loose scope.now.names.items parameters.now x ≡ false) }
    ensures err { IfErr result (λ e. (e ≡ NoMemory) ⊎ ((x : Word) × (e ≡ Unbound x) × Contains (names_in (term_of expression.now)) x × (is_loose scope.now.names.items parameters.now x ≡ true))) }
{
    match first_loose(alloc, scope, parameters, expression)? {
        Some(name) => Err(ModelFault::Unbound(name.copy()?)),
        None => Ok(()),
    }
}

/// Whether each name that the bindings of a `let` look up is bound.
pub fn require_definitions_bound<'a>(
    alloc: Global,
    scope: &Scope<'a>,
    definitions: &[Definition],
) -> Result<(), ModelFault>
    ensures ok { OnOk result ((d : Defined) → Contains (map defined_of definitions.now) d → (x : Word) → Contains (free_names d) x → is_known scope.now.names.items x ≡ true) }
    ensures err { IfErr result (λ e. (e ≡ NoMemory) ⊎ ((x : Word) × (d : Defined) × (e ≡ Unbound x) × Contains (map defined_of definitions.now) d × Contains (free_names d) x × (is_known scope.now.names.items x ≡ false))) }
{
    for definition in definitions {
        require_bound(alloc, scope, &definition.parameters, &definition.value)?;
    }
    Ok(())
}

/// Whether each name that a recursive group looks up is bound, where its own are.
pub fn require_bindings_bound<'a>(
    alloc: Global,
    scope: &Scope<'a>,
    bindings: &[Binding],
) -> Result<(), ModelFault>
    ensures ok { OnOk result ((b : Bound) → Contains (map bound_of bindings.now) b → (x : Word) → Contains (names_in b.value) x → is_known scope.now.names.items x ≡ true) }
    ensures err { IfErr result (λ e. (e ≡ NoMemory) ⊎ ((x : Word) × (b : Bound) × (e ≡ Unbound x) × Contains (map bound_of bindings.now) b × Contains (names_in b.value) x × (is_known scope.now.names.items x ≡ false))) }
{
    for binding in bindings {
        require_bound(alloc, scope, &[], &binding.value)?;
    }
    Ok(())
}
