//! The work of a script's workers.

ghost use Rattle.std.specs.Prelude.{◌≡◌, ◌≤◌, length};
ghost use Rattle.std.specs.List.{sum_by};

use crate::outcome::Sums;
use sessions::Counts;
use slices::Piece;
use std::sync::Wait;
use workers::Gate;

/// A gate that holds nobody.
pub struct NoGate;

impl Gate for NoGate {
    fn enter<R: Wait>(&self, _rt: &R, _pass: usize, _piece: &Piece) {}

    fn leave<R: Wait>(&self, _rt: &R, _pass: usize, _piece: &Piece) {}
}

/// What the workers counted, all together.
pub fn sums(counts: &[Counts]) -> Sums
    requires { length counts.now ≤ 64 }
    ensures { result ≡ record {
      evaluated = sum_by (λ c. c.evaluated) counts.now;
      given_back = sum_by (λ c. c.given_back) counts.now;
      refused = sum_by (λ c. c.refused) counts.now;
    } }
{
    let mut sums = Sums {
        evaluated: 0,
        given_back: 0,
        refused: 0,
    };
    for count in counts {
        sums.evaluated += count.evaluated as u128;
        sums.given_back += count.given_back as u128;
        sums.refused += count.refused as u128;
    }
    sums
}
