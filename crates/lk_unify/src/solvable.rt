//! Lists of equations as nodes.

ghost use Rattle.lk_types.specs.Solutions.{HasSolution};
ghost use Rattle.lk_types.specs.Variables.{equation_variables, variables_of};
ghost use Rattle.lk_types.specs.declared.ty.Variable.{Variable as TheVariable};
ghost use Rattle.lk_arena.specs.Counting.{IsPartsFirst};
ghost use Rattle.lk_unify.specs.Loading.{node_for, IsLoader};
ghost use Rattle.lk_unify.specs.Solving.{AddsEquation, AddsSide, AreBound, AreLoaded, HasValues, IsFirstWithout, IsStart, NeverMeets};
ghost use Rattle.std.specs.Prelude.{◌≡◌, ◌≤◌, ℕ, false, length, take, IfNone, IfOk, IfSome, IsTrue, OnOk, Some};

use crate::load::load_variable;
use crate::load_sides::load_equation;
use crate::loader::Loader;
use crate::variables::side_variables;
use lk_arena::{merge_nodes, parts_first};
use lk_ast::{List, NoMemory};
use lk_types::{Equation, Side, Variable};
use std::alloc::Global;

/// Equations as nodes, and for each of them the node that stands for its sides.
#[derive(Drop)]
pub struct Loaded {
    pub loader: Loader,
    pub sides: List<usize>,
}

/// Gives each variable a node.
fn bind_all(loader: &mut Loader, variables: &[Variable]) -> Result<(), NoMemory>
    requires { IsStart loader.old }
    ensures start { OnOk result (IsStart loader.new) }
    ensures bound { OnOk result (AreBound loader.new variables.now) }
    ensures kept { OnOk result ((x : TheVariable) (n : ℕ) → node_for loader.old x ≡ Some n → node_for loader.new x ≡ Some n) }
{
    for variable in variables {
        load_variable(loader, *variable)?;
    }
    Ok(())
}

/// Gives each variable of a side a node.
fn bind_side(alloc: Global, loader: &mut Loader, side: &Side) -> Result<(), NoMemory>
    requires { IsStart loader.old }
    ensures start { OnOk result (IsStart loader.new) }
    ensures bound { OnOk result (AreBound loader.new (variables_of side.now)) }
    ensures kept { OnOk result ((x : TheVariable) (n : ℕ) → node_for loader.old x ≡ Some n → node_for loader.new x ≡ Some n) }
{
    let variables = side_variables(alloc, side)?;
    bind_all(loader, variables.as_slice())
}

/// Nodes for all variables of the equations, of which nothing is said yet.
fn start(alloc: Global, equations: &[Equation]) -> Result<Loader, NoMemory>
    ensures start { IfOk result (λ loader. IsStart loader) }
    ensures bound { IfOk result (λ loader. AreBound loader (equation_variables equations.now)) }
{
    let mut loader = Loader::new(alloc);
    for equation in equations {
        bind_side(alloc, &mut loader, &equation.left)?;
        bind_side(alloc, &mut loader, &equation.right)?;
    }
    Ok(loader)
}

/// Makes the sides of an equation into nodes and merges them. The answer is the node of both, or none where the equation can't be
/// met.
fn add_equation(
    alloc: Global,
    loader: &mut Loader,
    equation: &Equation,
) -> Result<Option<usize>, NoMemory>
    requires { IsLoader loader.old }
    ensures added { IfOk result (λ found. IfSome found (λ node. AddsEquation loader.old loader.new equation.now node)) }
    ensures never { IfOk result (λ found. IfNone found (NeverMeets loader.old equation.now)) }
{
    let Some(pair) = load_equation(alloc, loader, equation)? else {
        return Ok(None);
    };
    if merge_nodes(alloc, &mut loader.arena, pair.left, pair.right)? {
        return Ok(Some(pair.left));
    }
    Ok(None)
}

/// Makes one equation more into nodes. The answer is whether it can be met with those before.
pub fn load_next(alloc: Global, all: &mut Loaded, equation: &Equation) -> Result<bool, NoMemory>
    requires { IsLoader all.old.loader }
    ensures added { IfOk result (λ met. IsTrue met → AddsSide all.old all.new equation.now) }
    ensures never { IfOk result (λ met. (met ≡ false) → NeverMeets all.old.loader equation.now) }
{
    let Some(side) = add_equation(alloc, &mut all.loader, equation)? else {
        return Ok(false);
    };
    all.sides.push(side)?;
    Ok(true)
}

/// Equations as nodes, of which none is said yet.
pub fn begin(alloc: Global, equations: &[Equation]) -> Result<Loaded, NoMemory>
    ensures { IfOk result (λ all. AreLoaded all.loader all.sides equations.now 0) }
{
    let loader = start(alloc, equations)?;
    let sides = List::new(alloc);
    Ok(Loaded { loader, sides })
}

/// Makes nodes of the first of these equations, which have a solution.
pub fn load_solvable(
    alloc: Global,
    equations: &[Equation],
    count: usize,
) -> Result<Loaded, NoMemory>
    requires solution { HasSolution equations.now }
    requires count { count ≤ length equations.now }
    ensures { IfOk result (λ all. AreLoaded all.loader all.sides equations.now count) }
{
    let mut all = begin(alloc, equations)?;
    for i in 0..count {
        if !load_next(alloc, &mut all, &equations[i])? {
            unreachable!();
        }
    }
    Ok(all)
}

/// The nodes in an order in which parts come first, where values fit them.
pub fn order_of(alloc: Global, loader: &Loader) -> Result<Vec<usize>, NoMemory>
    requires whole { IsLoader loader.now }
    requires values { HasValues loader.now }
    ensures { IfOk result (λ order. IsPartsFirst loader.now.arena.shapes loader.now.arena.classes order.items) }
{
    let arena = &loader.arena;
    let Some(order) = parts_first(alloc, arena.shapes.as_slice(), &arena.classes)? else {
        unreachable!();
    };
    Ok(order)
}
