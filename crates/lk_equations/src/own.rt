//! What is said of an expression, and what a group of functions sees.

ghost use Rattle.std.specs.Prelude.{◌≡◌, [], ◌∷◌, IfOk};
ghost use Rattle.lk_typing.specs.Equations.{never as the_never, own as the_own};
ghost use Rattle.lk_equations.specs.Made.{as_own};

use crate::known::Known;
use crate::scope::Scope;
use crate::tables::Tables;
use crate::unknowns::{same, unit};
use lk_ast::{List, NoMemory};
use lk_types::{Equation, Side, Ty};
use std::alloc::Global;

/// What is said of an expression: its type, equations, and the next number for a variable.
#[derive(Drop)]
pub struct Own {
    pub ty: Side,
    pub equations: List<Equation>,
    pub next: u32,
}

/// What functions and tables a group of functions sees: its own ones, those of earlier groups, and all tables.
#[derive(Drop)]
pub struct Globals<'g, 'p> {
    pub own: Scope<'p, Ty>,
    pub earlier: &'g Scope<'p, Known>,
    pub tables: &'g Tables<'p>,
}

/// What can't hold: a name that stands for nothing, or another number of parts than the operator has.
pub fn never(alloc: Global, next: u32) -> Result<Own, NoMemory>
    ensures { IfOk result (λ made. as_own made ≡ the_never next) }
{
    Ok(Own {
        ty: Side::of(unit(alloc)),
        equations: one(alloc, same(Ty::Int, Ty::Bool))?,
        next,
    })
}

/// A type of which nothing is said.
pub fn only(alloc: Global, ty: Ty, next: u32) -> Own
    ensures { as_own result ≡ the_own ty [] next }
{
    Own {
        ty: Side::of(ty),
        equations: List::new(alloc),
        next,
    }
}

/// One equation.
pub fn one(alloc: Global, first: Equation) -> Result<List<Equation>, NoMemory>
    ensures { IfOk result (λ made. made ≡ first ∷ []) }
{
    let mut equations = List::new(alloc);
    equations.push(first)?;
    Ok(equations)
}

/// Two equations.
pub fn two(alloc: Global, first: Equation, second: Equation) -> Result<List<Equation>, NoMemory>
    ensures { IfOk result (λ made. made ≡ first ∷ second ∷ []) }
{
    let mut equations = one(alloc, first)?;
    equations.push(second)?;
    Ok(equations)
}

/// Three equations.
pub fn three(
    alloc: Global,
    first: Equation,
    second: Equation,
    third: Equation,
) -> Result<List<Equation>, NoMemory>
    ensures { IfOk result (λ made. made ≡ first ∷ second ∷ third ∷ []) }
{
    let mut equations = two(alloc, first, second)?;
    equations.push(third)?;
    Ok(equations)
}
