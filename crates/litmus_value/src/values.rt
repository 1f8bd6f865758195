//! The values of a test.

ghost use Rattle.std.specs.Prelude.{◌≡◌, ◌≤◌, ◌<◌, ◌^◌, length, All, Any, IfOk, IfErr, OnOk};
ghost use Rattle.listings.specs.Lists.{Lists};
ghost use Rattle.litmus_value.specs.Gathering.{AreFew, IsFull};
ghost use Rattle.litmus_value.specs.Values.{with_value, with_sum, with_sums, values_among, values_of, IsValue, InDom, Refuses};

mod numbers;

use crate::test::Test;
use crate::values::numbers::Numbers;
use conditions::Binding;
use litmus_tree::Thread;
use std::alloc::{AllocError, AllocFailed, Global};

/// As many values as a test has at most.
const MOST_VALUES: usize = 16;

/// The greatest value that a test may have.
const GREATEST_VALUE: u128 = 2_147_483_647;

/// Why there is no list of values.
#[derive(Clone, Copy, Debug, Drop, PartialEq, Eq)]
pub enum ValuesFault {
    /// There are more than 16.
    TooMany,
    /// There are no more than 16, and one is above 2,147,483,647.
    TooBig,
    NoMemory,
}

impl From<AllocError> for ValuesFault {
    ghost use Rattle.std.specs.Prelude.{◌≡◌};
    ghost use Rattle.litmus_value.specs.declared.values.ValuesFault.TheVariants.{NoMemory};

    ghost from_gives = { λ _ e. e ≡ NoMemory };

    fn from(_error: AllocError) -> ValuesFault {
        ValuesFault::NoMemory
    }
}

impl<T: Drop> From<AllocFailed<T>> for ValuesFault {
    ghost use Rattle.std.specs.Prelude.{◌≡◌};
    ghost use Rattle.litmus_value.specs.declared.values.ValuesFault.TheVariants.{NoMemory};

    ghost from_gives = { λ _ e. e ≡ NoMemory };

    fn from(_error: AllocFailed<T>) -> ValuesFault {
        ValuesFault::NoMemory
    }
}

/// Adds a value that isn't there yet.
fn insert(values: &mut Vec<u128>, value: u128) -> Result<(), ValuesFault>
    requires { length values.old.items ≤ 16 }
    ensures done { OnOk result (values.new.items ≡ with_value values.old.items value) }
    ensures within { OnOk result (length values.new.items ≤ 16) }
    ensures fault { IfErr result (IsFull (with_value values.old.items value)) }
{
    if values.contains(&value) {
        return Ok(());
    }
    if values.len() >= MOST_VALUES {
        return Err(ValuesFault::TooMany);
    }
    values.push(value)?;
    Ok(())
}

/// Adds the sums of each value and of this number.
fn insert_sums(values: &mut Vec<u128>, add: u32) -> Result<(), ValuesFault>
    requires few { length values.old.items ≤ 16 }
    requires narrow { All (λ v. v < 2 ^ 100) values.old.items }
    ensures done { OnOk result (values.new.items ≡ with_sum values.old.items add) }
    ensures within { OnOk result (length values.new.items ≤ 16) }
    ensures fault { IfErr result (IsFull (with_sum values.old.items add)) }
{
    for place in 0..values.len() {
        let value = values[place];
        insert(values, value + u128::from(add))?;
    }
    Ok(())
}

/// Adds, one add after another, what it makes of those before.
fn insert_all_sums(values: &mut Vec<u128>, adds: &[u32]) -> Result<(), ValuesFault>
    requires { AreFew values.old.items }
    ensures done { OnOk result (values.new.items ≡ with_sums values.old.items adds.now) }
    ensures within { OnOk result (length values.new.items ≤ 16) }
    ensures fault { IfErr result (IsFull (with_sums values.old.items adds.now)) }
{
    for place in 0..adds.len() {
        insert_sums(values, adds[place])?;
    }
    Ok(())
}

/// The same values, if none of them is too great for a test.
fn narrowed(alloc: Global, values: &[u128]) -> Result<Vec<u32>, ValuesFault>
    requires { length values.now ≤ 16 }
    ensures value { IfOk result (λ v. v.items ≡ values.now) }
    ensures small { OnOk result (All (λ v. v ≤ 2147483647) values.now) }
    ensures fault { IfErr result (Refuses values.now) }
{
    let mut narrow = Vec::with_capacity(alloc, values.len())?;
    for value in values {
        if *value > GREATEST_VALUE {
            return Err(ValuesFault::TooBig);
        }
        narrow.push(*value as u32)?;
    }
    Ok(narrow)
}

/// The values of a test with this initial state and these threads: 0, 1, and each constant, in the
/// order in which they first stand; and then, one add after another, what it makes of those before.
/// It stops as soon as there are more than 16.
pub fn values_among(
    alloc: Global,
    initial: &[Binding],
    threads: &[Thread],
) -> Result<Vec<u32>, ValuesFault>
    ensures value { IfOk result (λ v. v.items ≡ values_among initial.now threads.now) }
    ensures each { IfOk result (λ v. Lists (IsValue initial.now threads.now) v.items) }
    ensures few { OnOk result (length (values_among initial.now threads.now) ≤ 16) }
    ensures small { OnOk result (All (λ v. v ≤ 2147483647) (values_among initial.now threads.now)) }
    ensures fault { IfErr result (Refuses (values_among initial.now threads.now)) }
{
    let mut numbers = Numbers::new(alloc)?;
    numbers.note_initial(initial)?;
    numbers.note_threads(threads)?;
    let Numbers { mut values, adds } = numbers;
    insert_all_sums(&mut values, &adds)?;
    narrowed(alloc, &values)
}

impl Test {
    /// The values of the test: 0, 1, and each constant, in the order in which they first stand; and
    /// then, one add after another, what it makes of those before.
    pub fn values(&self, alloc: Global) -> Result<Vec<u32>, AllocError>
        ensures value { IfOk result (λ v. v.items ≡ values_of self.now) }
        ensures each { IfOk result (λ v. Lists (InDom self.now) v.items) }
    {
        match values_among(alloc, self.initial(), self.threads()) {
            Ok(values) => Ok(values),
            Err(ValuesFault::NoMemory) => Err(AllocError),
            Err(ValuesFault::TooMany) => unreachable!(),
            Err(ValuesFault::TooBig) => unreachable!(),
        }
    }
}
