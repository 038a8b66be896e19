//! How large the sides of equations are under their most general solution.

ghost use Rattle.std.specs.Prelude.{IfNone, IfOk, IfSome};
ghost use Rattle.lk_types.specs.Sizes.{AreSmall, IsFirstTooLarge};
ghost use Rattle.lk_unify.specs.Attempts.{AreOrdered};

use crate::constraint::Sizing;
use crate::ordered::Ordered;
use crate::side_sizes::first_beyond;
use lk_ast::NoMemory;
use lk_types::Equation;
use std::alloc::Global;

/// The first equation with which those up to it have a side that is too large, if there is one.
pub fn first_too_large(
    alloc: Global,
    nodes: &Ordered,
    equations: &[Equation],
) -> Result<Option<usize>, NoMemory>
    requires { AreOrdered nodes.now equations.now }
    ensures small { IfOk result (λ found. IfNone found (AreSmall equations.now)) }
    ensures first { IfOk result (λ found. IfSome found (λ k. IsFirstTooLarge equations.now k)) }
{
    let sizings = vec![in alloc; Sizing::Always; equations.len()]?;
    first_beyond(alloc, nodes, equations, sizings.as_slice())
}
