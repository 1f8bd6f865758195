//! A number by which rows are told apart before their values are compared.

ghost use Rattle.std.specs.Prelude.{◌≡◌};
ghost use Rattle.slices.specs.Fronts.{behind, digit, front_of};

/// How many values have a digit.
const PLACES: usize = 16;

/// The digit of the first value.
fn digit(values: &[u32]) -> u64
    ensures { result ≡ digit values.now }
{
    match values.first() {
        Some(value) if *value < 14 => u64::from(*value) + 1,
        Some(_) => 15,
        None => 0,
    }
}

/// The values behind the first one, where its digit tells it; else none.
fn behind(values: &[u32]) -> &[u32]
    ensures { result.now ≡ behind values.now }
{
    match values {
        [value, rest @ ..] if *value < 14 => rest,
        _ => &[],
    }
}

/// The front of a row of these values.
pub(crate) fn front_of(values: &[u32]) -> u64
    ensures { result ≡ front_of values.now }
{
    let mut front = 0;
    let mut rest = values;
    for _place in 0..PLACES {
        front = 16 * front + digit(rest);
        rest = behind(rest);
    }
    front
}
