//! Sizes of expressions whose calls are replaced.

ghost use Rattle.std.specs.Prelude.{IfOk};
ghost use Rattle.cat_tree.specs.Tree.{term_of};
ghost use Rattle.cat_model.specs.Sizes.{Sizes, size as size_in, applied_size};
ghost use Rattle.cat_model.specs.Sizing.{Near, IsSizing, FitSizes};

use crate::scope::Scope;
use crate::weights::{Measure, weigh};
use cat_tree::Expression;
use std::alloc::{AllocError, Global};
use wb_text::Name;

/// What is known of the size of a function's replaced body: its own nodes, and then how often each parameter stands in it.
#[derive(Drop)]
pub struct Sizing {
    pub weights: Vec<u32>,
}

/// How many nodes an expression comes to, or 65,537 where they are more.
pub fn size<'a>(
    alloc: Global,
    scope: &Scope<'a>,
    expression: &Expression,
) -> Result<u32, AllocError>
    ensures { IfOk result (λ n. (Z : Sizes) → FitSizes scope.now.names.items Z → Near n (size_in Z (term_of expression.now))) }
{
    let weights = weigh(alloc, Measure::Size, scope, &[], expression, 1)?;
    Ok(weights[0])
}

/// What is known of the size of a function.
pub fn make_sizing<'a>(
    alloc: Global,
    scope: &Scope<'a>,
    parameters: &[Name],
    body: &Expression,
) -> Result<Sizing, AllocError>
    ensures { IfOk result (λ s. (Z : Sizes) → FitSizes scope.now.names.items Z → IsSizing s (λ ns. applied_size Z parameters.now (term_of body.now) ns ns)) }
{
    let weights = weigh(alloc, Measure::Size, scope, parameters, body, 1)?;
    Ok(Sizing { weights })
}
