//! Constraints: what their most general solution makes of their sides, or which of them is the first with which there is none or a
//! type is too large.

ghost use Rattle.std.specs.Prelude.{◌≡◌, ◌≤◌, ℕ, List as TheList, length, map, take, Err, IfOk};
ghost use Rattle.lk_types.specs.Each.{Each};
ghost use Rattle.lk_types.specs.Solutions.{HasSolution};
ghost use Rattle.lk_unify.specs.Constraints.{equations_of, AllFine, AreFirstSides, AreSides, IsFirstLarge, IsFirstUnmet};
ghost use Rattle.lk_unify.specs.InOrder.{IsInOrder};
ghost use Rattle.lk_unify.specs.Attempts.{AreOrdered};
ghost use Rattle.lk_unify.specs.SideSizes.{joined, sizings_of};
ghost use Rattle.lk_unify.specs.declared.unifying.UnifyError.TheVariants as errors;

use crate::constraint::{Constraint, Sizing};
use crate::levels::read_levels;
use crate::numbers::numbers_for;
use crate::ordered::{Attempt, Ordered, first_fault, load_all};
use crate::side_sizes::first_large;
use crate::unifying::UnifyError;
use lk_ast::{List, NoMemory};
use lk_types::{Equation, Types};
use std::alloc::Global;

/// The equations and the sizings of constraints.
#[derive(Drop)]
struct Parts {
    equations: List<Equation>,
    sizings: List<Sizing>,
}

/// Takes constraints apart.
fn take_apart(alloc: Global, constraints: List<Constraint>) -> Result<Parts, NoMemory>
    ensures equations { IfOk result (λ parts. parts.equations ≡ equations_of constraints) }
    ensures sizings { IfOk result (λ parts. parts.sizings ≡ sizings_of constraints) }
{
    let mut equations = List::new(alloc);
    let mut sizings = List::new(alloc);
    for constraint in constraints.into_vec() {
        sizings.push(constraint.sizing)?;
        equations.push(constraint.equation)?;
    }
    Ok(Parts { equations, sizings })
}

/// The types that a most general solution makes of the sides of the first of the equations, of which these are the nodes.
fn side_types(alloc: Global, nodes: &Ordered, count: usize) -> Result<Types, NoMemory>
    requires nodes { (es : TheList Equation) × AreOrdered nodes.now es }
    requires count { count ≤ length nodes.now.all.sides }
    ensures sides { IfOk result (λ types. (es : TheList Equation) → AreOrdered nodes.now es → AreFirstSides count es types) }
    ensures in_order { IfOk result (λ types. Each IsInOrder types) }
{
    let loader = &nodes.all.loader;
    let numbers = numbers_for(alloc, loader)?;
    let sides = nodes.all.sides.as_slice();
    read_levels(
        alloc,
        &loader.arena,
        numbers.as_slice(),
        nodes.order.as_slice(),
        &sides[..count],
    )
}

/// Why constraints are refused, where so many first ones of their equations have no solution.
fn refusal(
    alloc: Global,
    equations: &[Equation],
    sizings: &[Sizing],
    count: usize,
) -> Result<UnifyError, NoMemory>
    requires sizings { length sizings.now ≡ length equations.now }
    requires within { count ≤ length equations.now }
    requires never { HasSolution (take count equations.now) → ⊥ }
    ensures unmet { IfOk result (λ error. (k : ℕ) → error ≡ errors.NoSolution k → IsFirstUnmet (joined equations.now sizings.now) k) }
    ensures large { IfOk result (λ error. (k : ℕ) → error ≡ errors.TypeTooLarge k → IsFirstLarge (joined equations.now sizings.now) k) }
{
    let fault = first_fault(alloc, equations, count)?;
    let k = fault.number;
    match first_large(alloc, &fault.before, &equations[..k], &sizings[..k])? {
        None => Ok(UnifyError::NoSolution(k as u64)),
        Some(j) => Ok(UnifyError::TypeTooLarge(j as u64)),
    }
}

/// The types that a most general solution makes of the sides of the first of these constraints, whose equations and sizings are
/// given.
fn solve_parts(
    alloc: Global,
    equations: &[Equation],
    sizings: &[Sizing],
    count: usize,
) -> Result<Types, UnifyError>
    requires sizings { length sizings.now ≡ length equations.now }
    requires count { count ≤ length equations.now }
    ensures sides { IfOk result (λ types. AreFirstSides count equations.now types) }
    ensures in_order { IfOk result (λ types. Each IsInOrder types) }
    ensures fine { IfOk result (λ types. AllFine (joined equations.now sizings.now)) }
    ensures unmet { (k : ℕ) → result ≡ Err (errors.NoSolution k) → IsFirstUnmet (joined equations.now sizings.now) k }
    ensures large { (k : ℕ) → result ≡ Err (errors.TypeTooLarge k) → IsFirstLarge (joined equations.now sizings.now) k }
{
    match load_all(alloc, equations)? {
        Attempt::Solved(nodes) => match first_large(alloc, &nodes, equations, sizings)? {
            None => Ok(side_types(alloc, &nodes, count)?),
            Some(k) => Err(UnifyError::TypeTooLarge(k as u64)),
        },
        Attempt::Unsolved(merged) => Err(refusal(alloc, equations, sizings, merged)?),
    }
}

/// As `solve`, but of the types only the first, so many as are asked for.
pub fn solve_first(
    alloc: Global,
    constraints: List<Constraint>,
    count: usize,
) -> Result<Types, UnifyError>
    requires { count ≤ length constraints }
    ensures sides { IfOk result (λ types. AreFirstSides count (equations_of constraints) types) }
    ensures in_order { IfOk result (λ types. Each IsInOrder types) }
    ensures fine { IfOk result (λ types. AllFine constraints) }
    ensures unmet { (k : ℕ) → result ≡ Err (errors.NoSolution k) → IsFirstUnmet constraints k }
    ensures large { (k : ℕ) → result ≡ Err (errors.TypeTooLarge k) → IsFirstLarge constraints k }
{
    let parts = take_apart(alloc, constraints)?;
    solve_parts(
        alloc,
        parts.equations.as_slice(),
        parts.sizings.as_slice(),
        count,
    )
}

/// The types that a most general solution makes of the sides of constraints, one for both sides of each, where each first part of
/// the constraints has such a solution and is small as far as sizes matter. Fields, tags and effects stand in byte order.
pub fn solve(alloc: Global, constraints: List<Constraint>) -> Result<Types, UnifyError>
    ensures sides { IfOk result (λ types. AreSides (equations_of constraints) types) }
    ensures in_order { IfOk result (λ types. Each IsInOrder types) }
    ensures fine { IfOk result (λ types. AllFine constraints) }
    ensures unmet { (k : ℕ) → result ≡ Err (errors.NoSolution k) → IsFirstUnmet constraints k }
    ensures large { (k : ℕ) → result ≡ Err (errors.TypeTooLarge k) → IsFirstLarge constraints k }
{
    let count = constraints.len();
    solve_first(alloc, constraints, count)
}
