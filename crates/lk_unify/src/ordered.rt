//! Whether equations have a solution: their nodes in an order in which parts come first, or first ones of them that have none.

ghost use Rattle.lk_types.specs.Solutions.{HasSolution};
ghost use Rattle.lk_unify.specs.Attempts.{AreOrdered, IsAttempt, IsFault};
ghost use Rattle.lk_unify.specs.Solving.{AreLoaded, IsFirstWithout};
ghost use Rattle.std.specs.Prelude.{◌≤◌, length, take, IfNone, IfOk, IfSome};

use crate::solvable::{Loaded, begin, load_next};
use lk_arena::{is_clean, parts_first};
use lk_ast::NoMemory;
use lk_types::Equation;
use std::alloc::Global;

/// Equations as nodes, and the nodes in an order in which parts come first.
#[derive(Drop)]
pub struct Ordered {
    pub all: Loaded,
    pub order: Vec<usize>,
}

/// What comes of making nodes of equations.
#[derive(Drop)]
pub enum Attempt {
    /// The nodes of equations that have a solution.
    Solved(Ordered),
    /// So many first ones of them have none.
    Unsolved(usize),
}

/// Orders the nodes of equations, where no row has a label twice and no type is a part of itself. Else they have no solution.
fn order_loaded(alloc: Global, all: Loaded, equations: &[Equation]) -> Result<Attempt, NoMemory>
    requires { AreLoaded all.loader all.sides equations.now (length equations.now) }
    ensures { IfOk result (λ attempt. IsAttempt attempt equations.now) }
{
    let arena = &all.loader.arena;
    if !is_clean(alloc, arena)? {
        return Ok(Attempt::Unsolved(equations.len()));
    }
    let Some(order) = parts_first(alloc, arena.shapes.as_slice(), &arena.classes)? else {
        return Ok(Attempt::Unsolved(equations.len()));
    };
    Ok(Attempt::Solved(Ordered { all, order }))
}

/// Makes nodes of equations, one after another, and orders them. Where one can't be merged with those before it, those up to it have no solution.
pub fn load_all(alloc: Global, equations: &[Equation]) -> Result<Attempt, NoMemory>
    ensures { IfOk result (λ attempt. IsAttempt attempt equations.now) }
{
    let mut all = begin(alloc, equations)?;
    for i in 0..equations.len() {
        if !load_next(alloc, &mut all, &equations[i])? {
            return Ok(Attempt::Unsolved(i + 1));
        }
    }
    order_loaded(alloc, all, equations)
}

/// Makes nodes of equations that have a solution, and orders them.
pub fn load_ordered(alloc: Global, equations: &[Equation]) -> Result<Ordered, NoMemory>
    requires { HasSolution equations.now }
    ensures { IfOk result (λ nodes. AreOrdered nodes equations.now) }
{
    match load_all(alloc, equations)? {
        Attempt::Solved(nodes) => Ok(nodes),
        Attempt::Unsolved(_) => unreachable!(),
    }
}

/// A number of first ones of these equations that have no solution, if they have none.
fn count_unsolved(alloc: Global, equations: &[Equation]) -> Result<Option<usize>, NoMemory>
    ensures solvable { IfOk result (λ found. IfNone found (HasSolution equations.now)) }
    ensures within { IfOk result (λ found. IfSome found (λ count. count ≤ length equations.now)) }
    ensures never { IfOk result (λ found. IfSome found (λ count. HasSolution (take count equations.now) → ⊥)) }
{
    match load_all(alloc, equations)? {
        Attempt::Solved(_) => Ok(None),
        Attempt::Unsolved(count) => Ok(Some(count)),
    }
}

/// The first equation with which those up to it have no solution, and the nodes of those before it.
#[derive(Drop)]
pub struct Fault {
    pub number: usize,
    pub before: Ordered,
}

/// The first equation with which those up to it have no solution, where so many first ones have none. It is searched for by halves.
fn search_fault(alloc: Global, equations: &[Equation], count: usize) -> Result<Fault, NoMemory>
    requires within { count ≤ length equations.now }
    requires never { HasSolution (take count equations.now) → ⊥ }
    ensures { IfOk result (λ fault. IsFault fault equations.now) }
{
    let mut low = 0;
    let mut high = count;
    'halving: while high - low > 1 {
        let middle = low + (high - low) / 2;
        let found = count_unsolved(alloc, &equations[..middle])?;
        match found {
            None => low = middle,
            Some(fewer) => high = fewer,
        }
    }
    let before = load_ordered(alloc, &equations[..low])?;
    Ok(Fault {
        number: low,
        before,
    })
}

/// The first equation with which those up to it have no solution, where so many first ones have none. It is looked for where
/// merging ended, and before that searched for by halves.
pub fn first_fault(alloc: Global, equations: &[Equation], count: usize) -> Result<Fault, NoMemory>
    requires within { count ≤ length equations.now }
    requires never { HasSolution (take count equations.now) → ⊥ }
    ensures { IfOk result (λ fault. IsFault fault equations.now) }
{
    let number = count - 1;
    match load_all(alloc, &equations[..number])? {
        Attempt::Solved(before) => Ok(Fault { number, before }),
        Attempt::Unsolved(fewer) => search_fault(alloc, equations, fewer),
    }
}

/// The first equation with which those up to it have no solution, if there is one.
pub fn first_unsolvable(alloc: Global, equations: &[Equation]) -> Result<Option<usize>, NoMemory>
    ensures solvable { IfOk result (λ found. IfNone found (HasSolution equations.now)) }
    ensures first { IfOk result (λ found. IfSome found (λ k. IsFirstWithout equations.now k)) }
{
    let found = count_unsolved(alloc, equations)?;
    match found {
        None => Ok(None),
        Some(count) => {
            let fault = first_fault(alloc, equations, count)?;
            Ok(Some(fault.number))
        }
    }
}
