//! Statements that do nothing.

ghost use Rattle.std.specs.Prelude.{◌≡◌};
ghost use Rattle.litmus_tree.specs.Tree.{step_of, steps_of};
ghost use Rattle.c11_threads.specs.Idle.{is_idle, are_idle};

use litmus_tree::Statement;

/// Whether a statement has no event and gives nothing to a register, whatever its tests give.
#[cycle(idling)]
pub(crate) fn is_idle(statement: &Statement) -> bool
    ensures { result ≡ is_idle (step_of statement.now) }
{
    match statement {
        Statement::Empty => true,
        Statement::Block(statements) => are_idle(statements.as_slice()),
        Statement::If(_, first, second) => match second {
            Some(second) => is_idle(first) && is_idle(second),
            None => is_idle(first),
        },
        _ => false,
    }
}

/// Whether none of the statements does anything.
#[cycle(idling)]
fn are_idle(statements: &[Statement]) -> bool
    ensures { result ≡ are_idle (steps_of statements.now) }
{
    for statement in statements {
        if !is_idle(statement) {
            return false;
        }
    }
    true
}
