//! Rows that are compared or stored.

ghost use Rattle.std.specs.Prelude.{◌≡◌, IfOk};
ghost use Rattle.outcome.specs.Rows.{texts_of, row_for};

use std::alloc::{AllocError, Global};
use suite::{Case, Row};

/// The row of a test under a model, with an answer and a number of states.
pub(crate) fn row_with(
    alloc: Global,
    case: &Case<'_>,
    answer: &[u8],
    states: &[u8],
) -> Result<Row, AllocError>
    ensures { IfOk result (λ r. texts_of r ≡ row_for case.now answer.now states.now) }
{
    row_of(
        alloc,
        case.path.as_bytes(),
        case.model.as_bytes(),
        answer,
        states,
    )
}

/// The row with these fields.
pub(crate) fn row_of(
    alloc: Global,
    path: &[u8],
    model: &[u8],
    answer: &[u8],
    states: &[u8],
) -> Result<Row, AllocError>
    ensures { IfOk result (λ r. texts_of r ≡ record { path = path.now; model = model.now; answer = answer.now; states = states.now }) }
{
    Ok(Row {
        path: Vec::from_slice(alloc, path)?,
        model: Vec::from_slice(alloc, model)?,
        answer: Vec::from_slice(alloc, answer)?,
        states: Vec::from_slice(alloc, states)?,
    })
}
