//! Second values that are equal. What a copy owns comes from the allocators that its first has.

ghost use Rattle.std.specs.Prelude.{◌≡◌, IfOk, map};
ghost use Rattle.cat_tree.specs.Tree.{defined_of, bound_of, shown_of, check_of, clause_of};

use crate::tree::{Binding, Check, Definition, Element, Item};
use std::alloc::AllocError;
use wb_text::Name;

fn alias_copy(first: &Option<Name>) -> Result<Option<Name>, AllocError>
    ensures { IfOk result (λ n. n ≡ first.now) }
{
    match first {
        Some(name) => Ok(Some(name.copy()?)),
        None => Ok(None),
    }
}

fn names_copy(first: &Vec<Name>) -> Result<Vec<Name>, AllocError>
    ensures { IfOk result (λ v. v.items ≡ first.now.items) }
{
    let mut copies = Vec::new(*first.allocator());
    for name in first {
        copies.push(name.copy()?)?;
    }
    Ok(copies)
}

impl Definition {
    /// A second definition that is equal.
    pub fn copy(&self) -> Result<Definition, AllocError>
        ensures { IfOk result (λ d. defined_of d ≡ defined_of self.now) }
    {
        Ok(Definition {
            name: self.name.copy()?,
            parameters: names_copy(&self.parameters)?,
            value: self.value.copy()?,
        })
    }
}

impl Binding {
    /// A second binding that is equal.
    pub fn copy(&self) -> Result<Binding, AllocError>
        ensures { IfOk result (λ b. bound_of b ≡ bound_of self.now) }
    {
        Ok(Binding {
            name: self.name.copy()?,
            value: self.value.copy()?,
        })
    }
}

impl Check {
    /// A second check that is equal.
    pub fn copy(&self) -> Result<Check, AllocError>
        ensures { IfOk result (λ c. check_of c ≡ check_of self.now) }
    {
        Ok(Check {
            flag: self.flag,
            negated: self.negated,
            kind: self.kind,
            expression: self.expression.copy()?,
            name: alias_copy(&self.name)?,
        })
    }
}

impl Element {
    /// A second element that is equal.
    pub fn copy(&self) -> Result<Element, AllocError>
        ensures { IfOk result (λ e. shown_of e ≡ shown_of self.now) }
    {
        Ok(Element {
            expression: self.expression.copy()?,
            name: alias_copy(&self.name)?,
        })
    }
}

fn definitions_copy(first: &Vec<Definition>) -> Result<Vec<Definition>, AllocError>
    ensures { IfOk result (λ v. map defined_of v.items ≡ map defined_of first.now.items) }
{
    let mut copies = Vec::new(*first.allocator());
    for definition in first {
        copies.push(definition.copy()?)?;
    }
    Ok(copies)
}

fn bindings_copy(first: &Vec<Binding>) -> Result<Vec<Binding>, AllocError>
    ensures { IfOk result (λ v. map bound_of v.items ≡ map bound_of first.now.items) }
{
    let mut copies = Vec::new(*first.allocator());
    for binding in first {
        copies.push(binding.copy()?)?;
    }
    Ok(copies)
}

fn elements_copy(first: &Vec<Element>) -> Result<Vec<Element>, AllocError>
    ensures { IfOk result (λ v. map shown_of v.items ≡ map shown_of first.now.items) }
{
    let mut copies = Vec::new(*first.allocator());
    for element in first {
        copies.push(element.copy()?)?;
    }
    Ok(copies)
}

impl Item {
    /// A second item that is equal.
    pub fn copy(&self) -> Result<Item, AllocError>
        ensures { IfOk result (λ i. clause_of i ≡ clause_of self.now) }
    {
        match self {
            Item::Let(definitions) => Ok(Item::Let(definitions_copy(definitions)?)),
            Item::LetRec(bindings) => Ok(Item::LetRec(bindings_copy(bindings)?)),
            Item::Check(check) => Ok(Item::Check(check.copy()?)),
            Item::Include(name) => Ok(Item::Include(name.copy()?)),
            Item::Show(elements) => Ok(Item::Show(elements_copy(elements)?)),
            Item::Unshow(names) => Ok(Item::Unshow(names_copy(names)?)),
        }
    }
}

pub fn items_copy(first: &Vec<Item>) -> Result<Vec<Item>, AllocError>
    ensures { IfOk result (λ v. map clause_of v.items ≡ map clause_of first.now.items) }
{
    let mut copies = Vec::new(*first.allocator());
    for item in first {
        copies.push(item.copy()?)?;
    }
    Ok(copies)
}
