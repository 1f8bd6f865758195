//! Ranges of numbers, and the cut of all numbers into slices.

ghost use Rattle.std.specs.Prelude.{◌≡◌, ◌≤◌, ◌^◌, ◌*◌, ◌/◌};
ghost use Rattle.slices.specs.Tallies.{cut};

/// The numbers from `from` to `to - 1`.
#[derive(Clone, Copy, Debug, PartialEq, Eq)]
pub struct Span {
    pub from: u64,
    pub to: u64,
}

/// Where a slice begins when `size` numbers are cut into `total` slices. Slice 0 begins at 0, and slice `total`, which is no
/// slice any more, at `size`.
pub fn cut(size: u64, total: u16, slice: u16) -> u64
    requires size { size ≤ 2 ^ 32 }
    requires some { 1 ≤ total }
    ensures { result ≡ cut size total slice }
{
    size * u64::from(slice) / u64::from(total)
}
