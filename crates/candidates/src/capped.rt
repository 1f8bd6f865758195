//! Products that stop at the most candidates that a test may have.

ghost use Rattle.std.specs.Prelude.{◌≡◌, ◌*◌, ◌^◌, ◌≤◌};
ghost use Rattle.listings.specs.Lists.{factorial, sum_of};
ghost use Rattle.candidates.specs.Candidates.{IsCapped};

use crate::fault::MOST_CANDIDATES;

/// The product, if it is at most the limit.
pub(crate) fn capped_product(product: u64, factor: u64) -> Option<u64>
    ensures { IsCapped MOST_CANDIDATES (product * factor) result }
{
    match product.checked_mul(factor) {
        Some(all) if all <= MOST_CANDIDATES => Some(all),
        _ => None,
    }
}

/// The power, if it is at most the limit.
pub(crate) fn capped_power(base: u64, exponent: usize) -> Option<u64>
    requires { 1 ≤ base }
    ensures { IsCapped MOST_CANDIDATES (base ^ exponent) result }
{
    let mut power = 1;
    for _taken in 0..exponent {
        power = capped_product(power, base)?;
    }
    Some(power)
}

/// The factorial, if it is at most the limit.
pub(crate) fn capped_factorial(count: usize) -> Option<u64>
    ensures { IsCapped MOST_CANDIDATES (factorial count) result }
{
    let mut product = 1;
    for factor in 0..count {
        product = capped_product(product, factor as u64 + 1)?;
    }
    Some(product)
}

/// The sum, if it is at most the limit.
pub(crate) fn capped_sum(parts: &[u64]) -> Option<u64>
    ensures { IsCapped MOST_CANDIDATES (sum_of (λ n. n) parts.now) result }
{
    let mut sum: u64 = 0;
    for part in parts {
        if *part > MOST_CANDIDATES - sum {
            return None;
        }
        sum += *part;
    }
    Some(sum)
}
