//! Copies, and what they were made of.

use crate::litmus::read;
use crate::reader::answers::SB;
use crate::reader::growth::G;
use crate::rows::{again, meant};
use conditions::{Binding, Place};
use litmus_c::Test;
use std::alloc::{AllocError, Global};

/// Whether the copy of each binding is equal to it.
pub fn bindings_are_copied(bindings: &[Binding]) -> Result<bool, AllocError> {
    for binding in bindings {
        if again!(_, binding.copy())? != *binding {
            return Ok(false);
        }
    }
    Ok(true)
}

/// Whether the copy of each place is equal to it.
pub fn places_are_copied(places: &[Place]) -> Result<bool, AllocError> {
    for place in places {
        if again!(_, place.copy())? != *place {
            return Ok(false);
        }
    }
    Ok(true)
}

/// Whether a test is equal to another or not, and its copy, too.
fn is_copied_as(test: &Test, other: &Test, equal: bool) -> Result<bool, AllocError> {
    let copy = again!(_, test.copy())?;
    Ok((*test == *other) == equal && (copy == *other) == equal)
}

/// The texts that rows name.
const TEXTS: &[(&str, &str)] = &[("G", G), ("SB", SB)];

fn test_of(alloc: Global, text: &str) -> Result<Test, AllocError> {
    read(alloc, meant(TEXTS, text).unwrap_or(text))
}

/// Whether two texts spell tests that are equal, or another to each other, and so for the copy of the first.
pub fn compares(alloc: Global, texts: &str, words: &str) -> Result<bool, AllocError> {
    let Some((text, other)) = texts.split_once("\n<>\n") else {
        return Ok(false);
    };
    let test = test_of(alloc, text)?;
    let other = test_of(alloc, other)?;
    is_copied_as(&test, &other, words == "equal")
}
