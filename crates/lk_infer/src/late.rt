//! Refusals after a type of a node in an earlier declaration was too large.

ghost use Rattle.lk_ast.specs.declared.place.Span.{Span as TheSpan};
ghost use Rattle.lk_infer.specs.Refusals.{IsIllTyped, IsTooLarge};
ghost use Rattle.lk_infer.specs.Walked.{is_node, IsFirstNode, IsPlain, NoNodes};
ghost use Rattle.lk_infer.specs.declared.error.InferError.TheVariants as errors;
ghost use Rattle.lk_types.specs.Each.{Each};
ghost use Rattle.std.specs.Prelude.{◌≡◌, true, IfNone, IfSome};

use crate::error::InferError;
use crate::solving::solve_walk;
use lk_ast::List;
use lk_typing::{Said, Step};
use lk_walk::GroupWalk;
use std::alloc::Global;

/// Whether it is said of a node.
fn is_node(said: &Said) -> bool
    ensures { result ≡ is_node said.now }
{
    match said {
        Said::Same(_) => false,
        Said::Typed(_, _) => true,
    }
}

/// The number of the first step for a node.
pub fn first_node(steps: &[Step]) -> Option<usize>
    ensures first { IfSome result (λ n. IsFirstNode steps.now n) }
    ensures none { IfNone result (NoNodes steps.now) }
{
    for n in 0..steps.len() {
        if is_node(&steps[n].said) {
            return Some(n);
        }
    }
    None
}

/// The refusal of a walk, whose first step for a node is the one of that number. It is refused there at the latest.
pub fn refuse_late(alloc: Global, walk: GroupWalk, first: usize) -> InferError
    requires functions { Each IsPlain walk.functions }
    requires nodes { Each IsPlain walk.nodes }
    requires first { IsFirstNode walk.steps first }
    ensures ill_typed { (at : TheSpan) → result ≡ errors.IllTyped at → IsIllTyped true walk.steps at }
    ensures too_large { (at : TheSpan) → result ≡ errors.TypeTooLarge at → IsTooLarge true walk.steps at }
{
    let GroupWalk {
        functions,
        nodes,
        steps,
    } = walk;
    let at = steps.at(first).at;
    let mut steps = steps.into_vec();
    steps.truncate(first + 1);
    let steps = List::from_vec(steps);
    let front = GroupWalk {
        functions,
        nodes,
        steps,
    };
    let Err(error) = solve_walk(alloc, front) else {
        return InferError::TypeTooLarge(at);
    };
    error
}
