//! What holds of the definitions alone.

ghost use Rattle.cat_eval.specs.Laws.{OneValue, OneLeast, ValuesDontMatter};

/// An expression has at most one value, whatever is bound.
pub fn one_value()
    ensures { OneValue }
{}

/// A `let rec` binds at most one list of relations.
pub fn one_least()
    ensures { OneLeast }
{}

/// Executions that differ in their values alone are judged alike.
pub fn values_apart()
    ensures { ValuesDontMatter }
{
    events::laws::bases();
}
