//! Unification: the most general solution of equations, or which of them is the first with which there is none or a type is too
//! large.

ghost use Rattle.lk_types.specs.Each.{Each, OneOf};
ghost use Rattle.lk_types.specs.Sizes.{AreSmall, IsFirstTooLarge, IsFirstUnsolvable, IsSolution};
ghost use Rattle.lk_types.specs.Solutions.{HasSolution};
ghost use Rattle.lk_types.specs.Variables.{equation_variables};
ghost use Rattle.lk_unify.specs.Images.{variable_of, IsImageInOrder};
ghost use Rattle.lk_unify.specs.declared.unifying.UnifyError.TheVariants as errors;
ghost use Rattle.lk_unify.specs.Attempts.{AreOrdered};
ghost use Rattle.std.specs.Prelude.{◌≡◌, ◌≤◌, ℕ, length, take, Err, IfOk};

use crate::numbers::numbers_for;
use crate::ordered::{Attempt, Ordered, first_fault, load_all};
use crate::reading::read_all;
use crate::small::first_too_large;
use crate::variables::distinct_variables;
use lk_ast::NoMemory;
use lk_types::{Equation, Subst};
use std::alloc::Global;
use thiserror::Error;

/// Why equations have no small solution.
#[derive(Clone, Copy, Debug, PartialEq, Eq, Error)]
pub enum UnifyError {
    /// With this equation, those up to it have no solution. Those before it are small.
    #[error("the equations up to number {0} have no solution")]
    NoSolution(u64),
    /// With this equation, a side of one of those up to it has too many nodes under their most general solution. Those before it
    /// are small.
    #[error("a type of the equations up to number {0} is too large")]
    TypeTooLarge(u64),
    #[error("out of memory")]
    NoMemory,
}

impl From<NoMemory> for UnifyError {
    ghost from_gives = { λ _ error. error ≡ errors.NoMemory };

    fn from(_error: NoMemory) -> UnifyError {
        UnifyError::NoMemory
    }
}

/// The most general solution of equations, of which these are the nodes.
fn solution(alloc: Global, nodes: &Ordered, equations: &[Equation]) -> Result<Subst, NoMemory>
    requires { AreOrdered nodes.now equations.now }
    ensures solution { IfOk result (λ s. IsSolution s equations.now) }
    ensures only { IfOk result (λ s. Each (λ b. OneOf (λ x. x ≡ variable_of b) (equation_variables equations.now)) s.binds) }
    ensures in_order { IfOk result (λ s. Each (λ b. IsImageInOrder b.is) s.binds) }
{
    let variables = distinct_variables(alloc, equations)?;
    let loader = &nodes.all.loader;
    let numbers = numbers_for(alloc, loader)?;
    read_all(
        alloc,
        loader,
        variables.as_slice(),
        numbers.as_slice(),
        nodes.order.len(),
    )
}

/// Why equations are refused, where so many first ones of them have no solution.
fn refusal(alloc: Global, equations: &[Equation], count: usize) -> Result<UnifyError, NoMemory>
    requires within { count ≤ length equations.now }
    requires never { HasSolution (take count equations.now) → ⊥ }
    ensures unsolvable { IfOk result (λ error. (k : ℕ) → error ≡ errors.NoSolution k → IsFirstUnsolvable equations.now k) }
    ensures large { IfOk result (λ error. (k : ℕ) → error ≡ errors.TypeTooLarge k → IsFirstTooLarge equations.now k) }
{
    let fault = first_fault(alloc, equations, count)?;
    match first_too_large(alloc, &fault.before, &equations[..fault.number])? {
        None => Ok(UnifyError::NoSolution(fault.number as u64)),
        Some(j) => Ok(UnifyError::TypeTooLarge(j as u64)),
    }
}

/// Solves equations in a most general way, where each first part of them is small. Something is put for variables of the equations
/// alone, with fields, tags and effects in byte order.
pub fn unify(alloc: Global, equations: &[Equation]) -> Result<Subst, UnifyError>
    ensures solution { IfOk result (λ s. IsSolution s equations.now) }
    ensures only { IfOk result (λ s. Each (λ b. OneOf (λ x. x ≡ variable_of b) (equation_variables equations.now)) s.binds) }
    ensures in_order { IfOk result (λ s. Each (λ b. IsImageInOrder b.is) s.binds) }
    ensures small { IfOk result (λ s. AreSmall equations.now) }
    ensures unsolvable { (k : ℕ) → result ≡ Err (errors.NoSolution k) → IsFirstUnsolvable equations.now k }
    ensures large { (k : ℕ) → result ≡ Err (errors.TypeTooLarge k) → IsFirstTooLarge equations.now k }
{
    match load_all(alloc, equations)? {
        Attempt::Solved(nodes) => match first_too_large(alloc, &nodes, equations)? {
            None => Ok(solution(alloc, &nodes, equations)?),
            Some(k) => Err(UnifyError::TypeTooLarge(k as u64)),
        },
        Attempt::Unsolved(count) => Err(refusal(alloc, equations, count)?),
    }
}
