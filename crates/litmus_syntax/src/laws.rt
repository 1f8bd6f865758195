//! What holds of the grammar.

ghost use Rattle.std.specs.Prelude.{◌≡◌, ◌≤◌, ◌+◌, ◌*◌, ℕ, List, Err};
ghost use Rattle.conditions.specs.Conditions.{Formula};
ghost use Rattle.litmus_syntax.specs.declared.symbol.Symbol.{Symbol};
ghost use Rattle.litmus_syntax.specs.Grammar.{IsExpression, IsProposition};
ghost use Rattle.litmus_syntax.specs.Operands.{operands_in_term, operands_in};
ghost use Rattle.litmus_syntax.specs.Reading.{syntax, test_at};
ghost use Rattle.litmus_syntax.specs.Unspelled.{IsStuck};
ghost use Rattle.litmus_tree.specs.Tree.{Term};

/// Where `n` levels may nest, so many right operands stand in one another at the most: 99 in an expression and 98 in a
/// proposition, since 32 levels may. What goes over expressions and propositions recurses so deep, and no deeper.
pub fn right_operands()
    ensures expressions { (n : ℕ) (ts rest : List Symbol) (a : Term) → IsExpression n ts rest a → operands_in_term a ≤ 3 * n + 3 }
    ensures propositions { (n : ℕ) (ts rest : List Symbol) (a : Formula) → IsProposition n ts rest a → operands_in a ≤ 3 * n + 2 }
{}

/// Where reading from the left stops, no test begins with the symbols before and with that one.
pub fn stopping()
    ensures { (ts : List Symbol) (n : ℕ) → test_at 32 ts ≡ Err (syntax n) → IsStuck ts n }
{}
