//! What the steps of a walk come to.

ghost use Rattle.lk_ast.specs.declared.place.Span.{Span as TheSpan};
ghost use Rattle.lk_infer.specs.Refusals.{AllFine, IsIllTyped, IsTooLarge};
ghost use Rattle.lk_infer.specs.Walked.{places_of, walk_constraints, IsNumber, IsPlain};
ghost use Rattle.lk_infer.specs.declared.error.InferError.TheVariants as errors;
ghost use Rattle.lk_types.specs.Each.{Each};
ghost use Rattle.lk_unify.specs.Constraints.{AreSides, equations_of};
ghost use Rattle.lk_unify.specs.InOrder.{IsInOrder};
ghost use Rattle.std.specs.Prelude.{◌≡◌, ℕ, ◌+◌, ◌<◌, false, length, slice_index_or as get_or, Err, IfOk};

use crate::constraints::{push_asked, push_steps};
use crate::error::InferError;
use lk_ast::{List, NoMemory, Span};
use lk_types::Types;
use lk_unify::{Constraint, UnifyError, solve};
use lk_walk::GroupWalk;
use std::alloc::Global;

/// The constraints of a walk.
#[derive(Drop)]
struct Plan {
    /// Types that are only read back, and then what the steps say.
    constraints: List<Constraint>,
    /// How many types are only read back.
    asked: usize,
    /// The places of the steps.
    places: List<Span>,
}

/// The constraints of a walk.
fn plan_walk(alloc: Global, walk: GroupWalk) -> Result<Plan, NoMemory>
    ensures constraints { IfOk result (λ plan. plan.constraints ≡ walk_constraints walk) }
    ensures asked { IfOk result (λ plan. plan.asked ≡ length walk.functions + length walk.nodes) }
    ensures places { IfOk result (λ plan. plan.places ≡ places_of walk.steps) }
{
    let GroupWalk {
        functions,
        nodes,
        steps,
    } = walk;
    let asked = functions.len() + nodes.len();
    let mut constraints = List::new(alloc);
    push_asked(alloc, &mut constraints, functions)?;
    push_asked(alloc, &mut constraints, nodes)?;
    let places = push_steps(alloc, &mut constraints, steps)?;
    Ok(Plan {
        constraints,
        asked,
        places,
    })
}

/// The place of the step of a constraint.
fn place_of(places: &[Span], asked: usize, number: u64) -> Span
    requires { IsNumber (length places.now) asked number }
    ensures { (j : ℕ) → number ≡ asked + j → result ≡ get_or places.now j (record { start = 0; end = 0 }) }
{
    places[number as usize - asked]
}

/// The types of the functions, those of the nodes, and those of what the steps say, under a most general solution of the
/// steps.
pub fn solve_walk(alloc: Global, walk: GroupWalk) -> Result<Types, InferError>
    requires functions { Each IsPlain walk.functions }
    requires nodes { Each IsPlain walk.nodes }
    ensures sides { IfOk result (λ types. AreSides (equations_of (walk_constraints walk)) types) }
    ensures in_order { IfOk result (λ types. Each IsInOrder types) }
    ensures fine { IfOk result (λ types. AllFine false walk.steps) }
    ensures ill_typed { (at : TheSpan) → result ≡ Err (errors.IllTyped at) → IsIllTyped false walk.steps at }
    ensures too_large { (at : TheSpan) → result ≡ Err (errors.TypeTooLarge at) → IsTooLarge false walk.steps at }
{
    let Plan {
        constraints,
        asked,
        places,
    } = plan_walk(alloc, walk)?;
    match solve(alloc, constraints) {
        Ok(types) => Ok(types),
        Err(UnifyError::NoSolution(k)) => {
            Err(InferError::IllTyped(place_of(places.as_slice(), asked, k)))
        }
        Err(UnifyError::TypeTooLarge(k)) => {
            Err(InferError::TypeTooLarge(place_of(places.as_slice(), asked, k)))
        }
        Err(UnifyError::NoMemory) => Err(InferError::NoMemory),
    }
}
