//! Schemes: which sorts the parameters and the result of a function have, for all arguments at once. Nothing here recurses:
//! loops go over the nodes.

ghost use Rattle.std.specs.Prelude.{◌≡◌, [], ◌∷◌, ◌↔◌, List, map, reverse, length, Option, Some, OnOk, IfOk};
ghost use Rattle.cat_tree.specs.Terms.{Term, latest as latest_of, earlier, left_by};
ghost use Rattle.cat_tree.specs.Tree.{term_of};
ghost use Rattle.cat_model.specs.Classing.{class_of as class_in, swapped as swapped_for, AreFlat, Agree, Makes, wanted_by as sign_wants, wanted_of_both as infix_wants, sort_applied, sort_joined, sorts_of_classes, AreTaken, Kept, Names, IsLeaf};
ghost use Rattle.cat_model.specs.Lookups.{held_in};
ghost use Rattle.cat_model.specs.Schemes.{sort_of_class, same_sort, by_scheme, sort_by, FitSorts};
ghost use Rattle.cat_model.specs.Sorts.{Sorting, sort, just_sort, applied_sort};
ghost use Rattle.cat_model.specs.declared.schemes.Class.TheVariants.{Known};
ghost use Rattle.cat_model.specs.declared.sort.Sort.{Sort as Kind};
ghost use Rattle.cat_model.specs.declared.sort.Sort.TheVariants.{Set as OfEvents};

use crate::named::Named;
use crate::places::{each, place_of};
use crate::scope::{Held, Scope};
use crate::sort::Sort;
use cat_tree::{Expression, Infix, Leaf, Node, Sign};
use std::alloc::{AllocError, Global};
use wb_text::Name;

/// A sort, or that of the parameter at a place.
#[derive(Clone, Copy)]
pub enum Class {
    Known(Sort),
    Same(usize),
}

/// The class of each parameter, and whether there are such sorts at all.
#[derive(Drop)]
pub struct Classes {
    pub possible: bool,
    pub items: Vec<Class>,
}

/// The classes of a function's parameters, and that of its result.
#[derive(Drop)]
pub struct Scheme {
    pub classes: Classes,
    pub result: Class,
}

/// The class of a class.
fn class_of(items: &[Class], class: Class) -> Class
    ensures { result ≡ class_in items.now class }
{
    match class {
        Class::Known(_) => class,
        Class::Same(place) => match items.get(place) {
            Some(found) => *found,
            None => Class::Known(Sort::Set),
        },
    }
}

/// A class, where another stands in place of a parameter.
fn swapped(from: usize, to: Class, class: Class) -> Class
    ensures { result ≡ swapped_for from to class }
{
    match class {
        Class::Known(_) => class,
        Class::Same(place) => { if place == from { to } else { class } }
    }
}

/// Puts a class in place of a parameter.
fn swap(items: &mut Vec<Class>, from: usize, to: Class)
    ensures { items.new.items ≡ map (swapped_for from to) items.old.items }
{
    for item in items.iter_mut() {
        *item = swapped(from, to, *item);
    }
}

/// Whether two sorts are the same.
fn is_same(left: Sort, right: Sort) -> bool
    ensures { result ≡ same_sort left right }
{
    match left {
        Sort::Set => match right {
            Sort::Set => true,
            Sort::Relation => false,
        },
        Sort::Relation => match right {
            Sort::Set => false,
            Sort::Relation => true,
        },
    }
}

/// Nothing is possible any more.
fn refuse(classes: &mut Classes)
    ensures items { classes.new.items ≡ classes.old.items }
    ensures never { (js : List Kind) → ¬ Agree classes.new js }
{
    classes.possible = false;
}

/// Makes one class of two that are classes of their own.
fn join_own(classes: &mut Classes, left: Class, right: Class)
    requires { AreFlat classes.old.items.items × (class_in classes.old.items.items left ≡ left) × (class_in classes.old.items.items right ≡ right) }
    ensures flat { AreFlat classes.new.items.items }
    ensures long { length classes.new.items.items ≡ length classes.old.items.items }
    ensures joined { (js : List Kind) → Agree classes.new js ↔ (Agree classes.old js × (sort_of_class js left ≡ sort_of_class js right)) }
{
    match left {
        Class::Same(place) => swap(&mut classes.items, place, right),
        Class::Known(sort) => match right {
            Class::Same(place) => swap(&mut classes.items, place, left),
            Class::Known(other) => {
                if !is_same(sort, other) {
                    refuse(classes);
                }
            }
        },
    }
}

/// Makes one class of two.
fn join(classes: &mut Classes, left: Class, right: Class)
    requires { AreFlat classes.old.items.items }
    ensures flat { AreFlat classes.new.items.items }
    ensures long { length classes.new.items.items ≡ length classes.old.items.items }
    ensures joined { (js : List Kind) → Agree classes.new js ↔ (Agree classes.old js × (sort_of_class js left ≡ sort_of_class js right)) }
{
    let left = class_of(&classes.items, left);
    let right = class_of(&classes.items, right);
    join_own(classes, left, right);
}

/// What a sign wants of its operand, and what it makes.
fn wanted_by(sign: Sign) -> Option<(Sort, Sort)>
    ensures { result ≡ sign_wants sign }
{
    match sign {
        Sign::Complement => None,
        Sign::Plus => Some((Sort::Relation, Sort::Relation)),
        Sign::Star => Some((Sort::Relation, Sort::Relation)),
        Sign::Optional => Some((Sort::Relation, Sort::Relation)),
        Sign::Inverse => Some((Sort::Relation, Sort::Relation)),
        Sign::Domain => Some((Sort::Relation, Sort::Set)),
        Sign::Range => Some((Sort::Relation, Sort::Set)),
        Sign::Identity => Some((Sort::Set, Sort::Relation)),
    }
}

/// What an operator wants of its operands, and what it makes.
fn wanted_of_both(operator: Infix) -> Option<(Sort, Sort)>
    ensures { result ≡ infix_wants operator }
{
    match operator {
        Infix::Union => None,
        Infix::Difference => None,
        Infix::Intersection => None,
        Infix::Sequence => Some((Sort::Relation, Sort::Relation)),
        Infix::Product => Some((Sort::Set, Sort::Relation)),
    }
}

/// The class of what a sign makes.
fn join_sign(classes: &mut Classes, sign: Sign, operand: Class) -> Class
    requires { AreFlat classes.old.items.items }
    ensures flat { AreFlat classes.new.items.items }
    ensures long { length classes.new.items.items ≡ length classes.old.items.items }
    ensures made { (js : List Kind) → Makes classes.old classes.new js (sort_applied sign (Some (sort_of_class js operand))) (sort_of_class js result) }
{
    match wanted_by(sign) {
        None => operand,
        Some((wanted, made)) => {
            join(classes, operand, Class::Known(wanted));
            Class::Known(made)
        }
    }
}

/// The class of what an operator makes.
fn join_infix(classes: &mut Classes, operator: Infix, left: Class, right: Class) -> Class
    requires { AreFlat classes.old.items.items }
    ensures flat { AreFlat classes.new.items.items }
    ensures long { length classes.new.items.items ≡ length classes.old.items.items }
    ensures made { (js : List Kind) → Makes classes.old classes.new js (sort_joined operator (Some (sort_of_class js left)) (Some (sort_of_class js right))) (sort_of_class js result) }
{
    join(classes, left, right);
    match wanted_of_both(operator) {
        None => left,
        Some((wanted, made)) => {
            join(classes, left, Class::Known(wanted));
            Class::Known(made)
        }
    }
}

/// Gives each argument the class that the callee has for it.
fn join_arguments(classes: &mut Classes, wanted: &[Class], arguments: &[Class])
    requires { AreFlat classes.old.items.items × (length wanted.now ≡ length arguments.now) }
    ensures flat { AreFlat classes.new.items.items }
    ensures long { length classes.new.items.items ≡ length classes.old.items.items }
    ensures joined { (js : List Kind) → Agree classes.new js ↔ (Agree classes.old js × AreTaken js wanted.now arguments.now (length arguments.now)) }
{
    for (place, argument) in arguments.iter().enumerate() {
        let class = class_of(arguments, wanted[place]);
        join(classes, *argument, class);
    }
}

/// The class of what a function makes of arguments.
fn join_call(classes: &mut Classes, scheme: &Scheme, arguments: &[Class]) -> Class
    requires { AreFlat classes.old.items.items }
    ensures flat { AreFlat classes.new.items.items }
    ensures long { length classes.new.items.items ≡ length classes.old.items.items }
    ensures made { (js : List Kind) → Makes classes.old classes.new js (by_scheme scheme.now (sorts_of_classes js arguments.now)) (sort_of_class js result) }
{
    if !scheme.classes.possible {
        refuse(classes);
        return scheme.result;
    }
    if scheme.classes.items.len() != arguments.len() {
        refuse(classes);
        return scheme.result;
    }
    join_arguments(classes, &scheme.classes.items, arguments);
    class_of(arguments, scheme.result)
}

/// The class of what is no function, where it has no arguments.
fn join_value(classes: &mut Classes, class: Class, arguments: &[Class]) -> Class
    requires { AreFlat classes.old.items.items }
    ensures flat { AreFlat classes.new.items.items }
    ensures long { length classes.new.items.items ≡ length classes.old.items.items }
    ensures made { (js : List Kind) → Makes classes.old classes.new js (just_sort (Some (sort_of_class js class)) (sorts_of_classes js arguments.now)) (sort_of_class js result) }
{
    if !arguments.is_empty() {
        refuse(classes);
    }
    class
}

/// The class of what a name stands for that is no parameter's.
fn join_outer<'a>(
    scope: &Scope<'a>,
    name: &Name,
    arguments: &[Class],
    classes: &mut Classes,
) -> Class
    requires { AreFlat classes.old.items.items }
    ensures flat { AreFlat classes.new.items.items }
    ensures long { length classes.new.items.items ≡ length classes.old.items.items }
    ensures made { (js : List Kind) → Makes classes.old classes.new js (sort_by (held_in scope.now.names.items name.now) name.now (sorts_of_classes js arguments.now)) (sort_of_class js result) }
{
    match scope.held(name) {
        Some(Held::Value(sort)) => join_value(classes, Class::Known(*sort), arguments),
        Some(Held::Function(summary)) => join_call(classes, &summary.scheme, arguments),
        None => match Named::of(name) {
            Some(named) => join_value(classes, Class::Known(named.sort()), arguments),
            None => {
                refuse(classes);
                Class::Known(Sort::Set)
            }
        },
    }
}

/// The class of what a name stands for, with arguments of these classes.
fn join_name<'a, 'n>(
    scope: &Scope<'a>,
    parameters: &[&'n Name],
    name: &Name,
    arguments: &[Class],
    classes: &mut Classes,
) -> Class
    requires { AreFlat classes.old.items.items }
    ensures flat { AreFlat classes.new.items.items }
    ensures long { length classes.new.items.items ≡ length classes.old.items.items }
    ensures made { Names scope.now.names.items (map (λ x. x.now) parameters.now) name.now arguments.now classes.old classes.new result }
{
    match place_of(parameters, name) {
        Some(place) => join_value(classes, Class::Same(place), arguments),
        None => join_outer(scope, name, arguments, classes),
    }
}

/// Takes the latest class.
fn latest(waiting: &mut Vec<Class>) -> Class
    ensures value { result ≡ latest_of (Known OfEvents) (reverse waiting.old.items) }
    ensures rest { reverse waiting.new.items ≡ earlier (reverse waiting.old.items) }
{
    match waiting.pop() {
        Some(class) => class,
        None => Class::Known(Sort::Set),
    }
}

/// The class of a leaf.
fn join_leaf<'a, 'n>(
    scope: &Scope<'a>,
    parameters: &[&'n Name],
    leaf: &Leaf,
    classes: &mut Classes,
) -> Class
    requires { AreFlat classes.old.items.items }
    ensures flat { AreFlat classes.new.items.items }
    ensures long { length classes.new.items.items ≡ length classes.old.items.items }
    ensures made { IsLeaf scope.now.names.items (map (λ x. x.now) parameters.now) leaf.now classes.old classes.new result }
{
    match leaf {
        Leaf::Name(name) => join_name(scope, parameters, name, &[], classes),
        Leaf::EmptyRelation => Class::Known(Sort::Relation),
        Leaf::EmptySet => Class::Known(Sort::Set),
        Leaf::Universe => Class::Known(Sort::Set),
    }
}

/// The class of what a node makes of the latest of the classes that wait.
fn join_node<'a, 'n>(
    scope: &Scope<'a>,
    parameters: &[&'n Name],
    node: &Node,
    classes: &mut Classes,
    waiting: &mut Vec<Class>,
) -> Class
    requires { AreFlat classes.old.items.items }
    ensures flat { AreFlat classes.new.items.items }
    ensures long { length classes.new.items.items ≡ length classes.old.items.items }
    ensures kept { (ts : List Term) → Kept scope.now.names.items (map (λ x. x.now) parameters.now) classes.old (reverse waiting.old.items) ts → Kept scope.now.names.items (map (λ x. x.now) parameters.now) classes.new (result ∷ reverse waiting.new.items) (left_by node.now ts) }
{
    match node {
        Node::Leaf(leaf) => join_leaf(scope, parameters, leaf, classes),
        Node::Sign(sign) => {
            let operand = latest(waiting);
            join_sign(classes, *sign, operand)
        }
        Node::Infix(operator) => {
            let right = latest(waiting);
            let left = latest(waiting);
            join_infix(classes, *operator, left, right)
        }
        Node::Call(name, count) => {
            let from = waiting.len().saturating_sub(*count);
            let class = join_name(scope, parameters, name, &waiting[from..], classes);
            waiting.truncate(from);
            class
        }
    }
}

/// Each parameter in a class of its own.
fn own_classes(alloc: Global, count: usize) -> Result<Classes, AllocError>
    ensures flat { IfOk result (λ c. AreFlat c.items.items) }
    ensures long { IfOk result (λ c. length c.items.items ≡ count) }
    ensures all { IfOk result (λ c. (js : List Kind) → length js ≡ count → Agree c js) }
{
    let mut items = Vec::new(alloc);
    for place in 0..count {
        items.push(Class::Same(place))?;
    }
    Ok(Classes {
        possible: true,
        items,
    })
}

/// The scheme of a body with these parameters. It takes one look at each node.
fn scheme_of<'a, 'n>(
    alloc: Global,
    scope: &Scope<'a>,
    parameters: &[&'n Name],
    body: &Expression,
) -> Result<Scheme, AllocError>
    ensures { IfOk result (λ s. (S : Sorting) → FitSorts scope.now.names.items S → (ks : List (Option Kind)) → by_scheme s ks ≡ applied_sort S (map (λ x. x.now) parameters.now) (term_of body.now) ks) }
{
    let mut classes = own_classes(alloc, parameters.len())?;
    let mut waiting = Vec::new(alloc);
    for node in &body.nodes {
        let class = join_node(scope, parameters, node, &mut classes, &mut waiting);
        waiting.push(class)?;
    }
    let result = latest(&mut waiting);
    Ok(Scheme { classes, result })
}

/// The scheme of a function with these parameters.
pub fn make_scheme<'a>(
    alloc: Global,
    scope: &Scope<'a>,
    parameters: &[Name],
    body: &Expression,
) -> Result<Scheme, AllocError>
    ensures { IfOk result (λ s. (S : Sorting) → FitSorts scope.now.names.items S → (ks : List (Option Kind)) → by_scheme s ks ≡ applied_sort S parameters.now (term_of body.now) ks) }
{
    let parameters = each(alloc, parameters)?;
    scheme_of(alloc, scope, &parameters, body)
}

/// The sort that a scheme gives without arguments.
fn alone(scheme: &Scheme) -> Option<Sort>
    ensures { result ≡ by_scheme scheme.now [] }
{
    if !scheme.classes.possible {
        return None;
    }
    if !scheme.classes.items.is_empty() {
        return None;
    }
    match scheme.result {
        Class::Known(sort) => Some(sort),
        Class::Same(_) => Some(Sort::Set),
    }
}

/// The sort of an expression, if it has one.
pub fn sort_of<'a>(
    alloc: Global,
    scope: &Scope<'a>,
    expression: &Expression,
) -> Result<Option<Sort>, AllocError>
    ensures { IfOk result (λ o. (S : Sorting) → FitSorts scope.now.names.items S → o ≡ sort S (term_of expression.now)) }
{
    let scheme = scheme_of(alloc, scope, &[], expression)?;
    Ok(alone(&scheme))
}
