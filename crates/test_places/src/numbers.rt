//! The numbers of a test that are constants, and those that are added.

ghost use Rattle.std.specs.Prelude.{◌≡◌, IfOk, true};
ghost use Rattle.std.specs.List.{list_any};
ghost use Rattle.test_places.specs.Numbers as spec;

use crate::mark::{Mark, Part, Role};
use std::alloc::{AllocError, Global};
use wb_text::Name;

/// Whether a mark is the name of an entry, for the place of this role and name.
fn is_entry_of(role: Role, name: &Name, mark: &Mark) -> bool
    ensures { result ≡ spec.is_entry_of role name.now mark.now }
{
    mark.part == Part::Initial && mark.role == role && mark.is_named(name)
}

/// Whether there is such an entry.
fn has_entry(marks: &[Mark], role: Role, name: &Name) -> bool
    ensures { result ≡ list_any (spec.is_entry_of role name.now) marks.now }
{
    marks.iter().any(|mark| is_entry_of(role, name, mark))
}

/// Whether what a mark is in holds: an entry does if no later one is for its place.
fn holds(mark: &Mark, behind: &[Mark], before: bool) -> bool
    ensures { result ≡ spec.holds mark.now behind.now before }
{
    if mark.part != Part::Initial {
        return true;
    }
    match &mark.name {
        Some(name) => !has_entry(behind, mark.role, name),
        None => before,
    }
}

/// What a mark is as a number.
fn counted(holds: bool, mark: &Mark) -> Role
    ensures { result ≡ spec.counted holds mark.now }
{
    if holds { mark.role } else { Role::Nothing }
}

/// The marks as numbers: one of an entry that a later entry replaces is none.
pub fn numbers(alloc: Global, marks: &[Mark]) -> Result<Vec<Role>, AllocError>
    ensures { IfOk result (λ v. v.items ≡ spec.numbers_of marks.now) }
{
    let mut numbers = Vec::new(alloc);
    let mut held = true;
    let mut rest = marks;
    while let Some((mark, behind)) = rest.split_first() {
        held = holds(mark, behind, held);
        numbers.push(counted(held, mark))?;
        rest = behind;
    }
    Ok(numbers)
}
