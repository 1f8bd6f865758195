//! Litmus tests that texts spell.

use crate::rows::{again, expanded};
use litmus_c::{Test, TestFault, read_test};
use std::alloc::{AllocError, Global};

/// The answer to a text, which is asked for again where memory was wanting.
pub fn answer_to(alloc: Global, text: &str) -> Result<Test, TestFault> {
    again!(TestFault::NoMemory, read_test(alloc, text.as_bytes()))
}

/// The test that a text spells, in which `@part@times@` stands for that part so many times.
pub fn read(alloc: Global, text: &str) -> Result<Test, AllocError> {
    let whole = again!(_, expanded(alloc, text))?;
    match answer_to(alloc, whole.as_str()) {
        Ok(test) => Ok(test),
        Err(_) => Err(AllocError),
    }
}
