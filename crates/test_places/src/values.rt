//! The first number that makes one value too many, or one that is too great.

ghost use Rattle.std.specs.Prelude.{◌≡◌, ◌<◌, ◌≤◌, ◌^◌, ℕ, List, false, length, All, IfOk, OnOk, MatchBool, MatchOption};
ghost use Rattle.litmus_value.specs.Values.{with_value, with_sum, with_sums};
ghost use Rattle.test_places.specs.Limits.{AreFew, IsFirstOver};
ghost use Rattle.test_places.specs.Numbers as spec;

use crate::mark::Role;
use std::alloc::{AllocError, Global};

/// As many values as a test has at most.
const MOST_VALUES: usize = 16;

/// The greatest value that a test may have.
const GREATEST_VALUE: u64 = 2_147_483_647;

/// Adds a value that isn't there yet.
fn insert(values: &mut Vec<u128>, value: u128) -> Result<(), AllocError>
    ensures { OnOk result (values.new.items ≡ with_value values.old.items value) }
{
    if !values.contains(&value) {
        values.push(value)?;
    }
    Ok(())
}

/// Adds the sums of each value and of this number.
fn insert_sums(values: &mut Vec<u128>, add: u32) -> Result<(), AllocError>
    requires { All (λ v. v < 2 ^ 100) values.old.items }
    ensures { OnOk result (values.new.items ≡ with_sum values.old.items add) }
{
    for place in 0..values.len() {
        let value = values[place];
        insert(values, value + u128::from(add))?;
    }
    Ok(())
}

/// Whether these constants, and what the adds make of them, are too many.
fn are_many(alloc: Global, constants: &[u128], adds: &[u32]) -> Result<bool, AllocError>
    requires { All (λ v. v < 2 ^ 32) constants.now }
    ensures { IfOk result (λ b. MatchBool b (16 < length (with_sums constants.now adds.now)) (length (with_sums constants.now adds.now) ≤ 16)) }
{
    let mut values = Vec::from_slice(alloc, constants)?;
    for place in 0..adds.len() {
        if values.len() > MOST_VALUES {
            return Ok(true);
        }
        insert_sums(&mut values, adds[place])?;
    }
    Ok(values.len() > MOST_VALUES)
}

/// Whether this is a number.
fn is_number(number: Role) -> bool
    ensures constants { (vs : List ℕ) → result ≡ false → spec.with_constant vs number ≡ vs }
    ensures adds { (cs : List ℕ) → result ≡ false → spec.with_added cs number ≡ cs }
{
    match number {
        Role::Constant(_) => true,
        Role::Added(_) => true,
        _ => false,
    }
}

/// Notes a number, as a constant or as what is added.
#[tactic(auto, using(crate::proofs::Noting::narrow_with))]
fn note(constants: &mut Vec<u128>, adds: &mut Vec<u32>, number: Role) -> Result<(), AllocError>
    requires { All (λ v. v < 2 ^ 32) constants.old.items }
    ensures narrow { OnOk result (All (λ v. v < 2 ^ 32) constants.new.items) }
    ensures constants { OnOk result (constants.new.items ≡ spec.with_constant constants.old.items number) }
    ensures adds { OnOk result (adds.new.items ≡ spec.with_added adds.old.items number) }
{
    match number {
        Role::Constant(value) => insert(constants, u128::from(value)),
        Role::Added(value) => {
            adds.push(value)?;
            Ok(())
        }
        _ => Ok(()),
    }
}

/// The place of the first number with which there are more than 16 values.
pub fn value_too_many(alloc: Global, numbers: &[Role]) -> Result<Option<usize>, AllocError>
    ensures { IfOk result (λ o. MatchOption o (AreFew spec.values 16 numbers.now) (IsFirstOver spec.values 16 numbers.now)) }
{
    let mut constants = Vec::from_slice(alloc, &[0u128, 1])?;
    let mut adds = Vec::new(alloc);
    for (place, number) in numbers.iter().enumerate() {
        if !is_number(*number) {
            continue;
        }
        note(&mut constants, &mut adds, *number)?;
        if are_many(alloc, &constants, &adds)? {
            return Ok(Some(place));
        }
    }
    Ok(None)
}

/// The place of the first number with which a value is above 2,147,483,647.
pub fn value_too_great(numbers: &[Role]) -> Option<usize>
    ensures { MatchOption result (AreFew spec.greatest 2147483647 numbers.now) (IsFirstOver spec.greatest 2147483647 numbers.now) }
{
    let mut constant = 1u64;
    let mut added = 0u64;
    for (place, number) in numbers.iter().enumerate() {
        match number {
            Role::Constant(value) => constant = constant.max(u64::from(*value)),
            Role::Added(value) => added += u64::from(*value),
            _ => continue,
        }
        if constant + added > GREATEST_VALUE {
            return Some(place);
        }
    }
    None
}
