//! Decimal numbers.

ghost use Rattle.std.specs.Prelude.{◌≤◌, SomeIff};
ghost use Rattle.wb_text.specs.Numbers.{IsDecimal, decimal_value};

/// The largest number of a test.
const GREATEST_NUMBER: u64 = 2_147_483_647;

/// The value of decimal digits, unless it is above 2,147,483,647.
pub fn decimal(digits: &[u8]) -> Option<u32>
    ensures { SomeIff result (IsDecimal digits.now × (decimal_value digits.now ≤ 2147483647)) (decimal_value digits.now) }
{
    if digits.is_empty() {
        return None;
    }
    let mut value = 0u64;
    for digit in digits {
        if !digit.is_ascii_digit() {
            return None;
        }
        value = value * 10 + u64::from(*digit - b'0');
        if value > GREATEST_NUMBER {
            return None;
        }
    }
    Some(value as u32)
}
