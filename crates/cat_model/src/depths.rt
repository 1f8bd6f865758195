//! Depths of expressions whose calls are replaced.

ghost use Rattle.std.specs.Prelude.{IfOk};
ghost use Rattle.cat_tree.specs.Tree.{term_of};
ghost use Rattle.cat_model.specs.Depths.{Depths, depth as depth_in, applied_depth};
ghost use Rattle.cat_model.specs.Nesting.{NearDepth, IsNesting, FitDepths};

use crate::scope::Scope;
use crate::weights::{Measure, weigh};
use cat_tree::Expression;
use std::alloc::{AllocError, Global};
use wb_text::Name;

/// What is known of the depth of a function's replaced body: one more than how many bodies its own nodes stand in, and then the
/// same of each parameter, 0 where it doesn't stand in the body.
#[derive(Drop)]
pub struct Nesting {
    pub weights: Vec<u32>,
}

/// How many bodies stand inside one another in an expression, or 65 where they are more.
pub fn depth<'a>(
    alloc: Global,
    scope: &Scope<'a>,
    expression: &Expression,
) -> Result<u32, AllocError>
    ensures { IfOk result (λ n. (D : Depths) → FitDepths scope.now.names.items D → NearDepth n (depth_in D (term_of expression.now))) }
{
    let weights = weigh(alloc, Measure::Depth, scope, &[], expression, 1)?;
    Ok(weights[0].saturating_sub(1))
}

/// What is known of the depth of a function. Its body stands one deeper than its call.
pub fn make_nesting<'a>(
    alloc: Global,
    scope: &Scope<'a>,
    parameters: &[Name],
    body: &Expression,
) -> Result<Nesting, AllocError>
    ensures { IfOk result (λ s. (D : Depths) → FitDepths scope.now.names.items D → IsNesting s (λ ns. applied_depth D parameters.now (term_of body.now) ns ns)) }
{
    let weights = weigh(alloc, Measure::Depth, scope, parameters, body, 2)?;
    Ok(Nesting { weights })
}
