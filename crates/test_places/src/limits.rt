//! The first thread and the first location that is one too many.

ghost use Rattle.std.specs.Prelude.{◌≡◌, IfOk, OnOk, MatchOption, count_by};
ghost use Rattle.test_places.specs.Limits as spec;
ghost use Rattle.litmus_tree.specs.Names.{is_one_of};
ghost use Rattle.test_places.specs.Rules.{is_head};

use crate::mark::Mark;
use std::alloc::{AllocError, Global};
use wb_text::Name;

/// As many threads as a test has at most, and as many locations.
const MOST_NAMED: usize = 8;

/// The place of the head of the ninth thread.
pub fn thread_too_many(marks: &[Mark]) -> Option<usize>
    ensures { MatchOption result (spec.AreFew (count_by is_head) 8 marks.now) (spec.IsFirstOver (count_by is_head) 8 marks.now) }
{
    let mut heads = 0usize;
    for (place, mark) in marks.iter().enumerate() {
        if mark.is_head() {
            if heads >= MOST_NAMED {
                return Some(place);
            }
            heads += 1;
        }
    }
    None
}

/// Whether the name is one of these.
fn is_one_of(names: &[Name], name: &Name) -> bool
    ensures { result ≡ is_one_of names.now name.now }
{
    names.iter().any(|other| *name == *other)
}

/// Adds the name of a location that isn't there yet.
fn add_location(names: &mut Vec<Name>, mark: &Mark) -> Result<(), AllocError>
    ensures { OnOk result (names.new.items ≡ spec.with_location names.old.items mark.now) }
{
    if !mark.is_location() {
        return Ok(());
    }
    match &mark.name {
        Some(name) => {
            if is_one_of(names, name) {
                return Ok(());
            }
            names.push(name.copy()?)?;
            Ok(())
        }
        None => Ok(()),
    }
}

/// The place of the first name of the ninth location.
pub fn location_too_many(alloc: Global, marks: &[Mark]) -> Result<Option<usize>, AllocError>
    ensures { IfOk result (λ o. MatchOption o (spec.AreFew spec.locations 8 marks.now) (spec.IsFirstOver spec.locations 8 marks.now)) }
{
    let mut names = Vec::new(alloc);
    for (place, mark) in marks.iter().enumerate() {
        add_location(&mut names, mark)?;
        if names.len() > MOST_NAMED {
            return Ok(Some(place));
        }
    }
    Ok(None)
}

/// How many locations there are.
pub fn locations(alloc: Global, marks: &[Mark]) -> Result<usize, AllocError>
    ensures { IfOk result (λ n. n ≡ spec.locations marks.now) }
{
    let mut names = Vec::new(alloc);
    for mark in marks {
        add_location(&mut names, mark)?;
    }
    Ok(names.len())
}
