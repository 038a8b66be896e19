//! The two types that don't agree where a program is ill typed.

ghost use Rattle.lk_ast.specs.declared.place.Span.{Span as TheSpan};
ghost use Rattle.lk_infer.specs.Disagreements.{all_said, sides_before, sized, EndsAtOdds, IsFinding, IsReading, IsRefused, NoneAtOdds};
ghost use Rattle.lk_infer.specs.Refusals.{IsIllTyped};
ghost use Rattle.lk_typing.specs.Groups.{group_walked};
ghost use Rattle.lk_typing.specs.Steps.{equation_of};
ghost use Rattle.lk_typing.specs.Unknowns.{same};
ghost use Rattle.lk_unify.specs.InOrder.{IsInOrder};
ghost use Rattle.std.specs.Prelude.{◌≡◌, ◌<◌, ◌≤◌, ◌++◌, [], ◌∷◌, Bool, IfNone, IfOk, IfSome, OnOk, drop, length, map, slice_get, take, Some};

use crate::error::InferError;
use crate::group::infer_group;
use crate::program::{Inference, add_group};
use lk_ast::{Decl, List, NoMemory};
use lk_equations::{Known, Scope, Tables};
use lk_names::Scoped;
use lk_types::{Equation, Side, Ty, Types};
use lk_typing::{Said, Step};
use lk_unify::{Constraint, Sizing, UnifyError, first_unsolvable, solve_first};
use lk_walk::{GroupWalk, walk_group};
use std::alloc::Global;

/// Two types that would have to be one and can't be, as far as what is said before determines them.
#[derive(Drop)]
pub struct Disagreement {
    pub left: Ty,
    pub right: Ty,
}

/// An equation, and those before it.
#[derive(Drop)]
struct Odd {
    before: List<Equation>,
    equation: Equation,
}

/// What a step says, as an equation.
fn equation_of(said: Said) -> Equation
    ensures { result ≡ equation_of said }
{
    match said {
        Said::Same(equation) => equation,
        Said::Typed(number, ty) => Equation {
            left: Side::of(Ty::Var(number)),
            right: ty,
        },
    }
}

/// What steps say, as equations.
fn all_said(alloc: Global, steps: List<Step>) -> Result<List<Equation>, NoMemory>
    ensures { IfOk result (λ equations. equations ≡ all_said steps) }
{
    let mut equations = List::new(alloc);
    for step in steps.into_vec() {
        let Step { at: _at, said } = step;
        equations.push(equation_of(said))?;
    }
    Ok(equations)
}

/// The equation of this number, with those before it.
fn cut_at(equations: List<Equation>, number: usize) -> Odd
    requires { number < length equations }
    ensures before { result.before ≡ take number equations }
    ensures equation { slice_get equations number ≡ Some result.equation }
{
    let mut equations = equations.into_vec();
    let equation = equations.remove(number);
    equations.truncate(number);
    Odd {
        before: List::from_vec(equations),
        equation,
    }
}

/// An equation whose size matters.
fn sized(equation: Equation) -> Constraint
    ensures { result ≡ sized equation }
{
    Constraint {
        equation,
        sizing: Sizing::Always,
    }
}

/// Adds a side, which is only read back.
fn push_side(alloc: Global, constraints: &mut List<Constraint>, side: &Side) -> Result<(), NoMemory>
    ensures { OnOk result (constraints.new ≡ constraints.old ++ sized (same side.now side.now) ∷ []) }
{
    let left = Side::of(side.tree(alloc)?);
    let right = Side::of(side.tree(alloc)?);
    constraints.push(sized(Equation { left, right }))
}

/// Adds equations.
fn push_sized(constraints: &mut List<Constraint>, equations: List<Equation>) -> Result<(), NoMemory>
    ensures { OnOk result (constraints.new ≡ constraints.old ++ map sized equations) }
{
    for equation in equations.into_vec() {
        constraints.push(sized(equation))?;
    }
    Ok(())
}

/// The sides of an equation by themselves, before the equations that stand before it.
fn plan_odd(alloc: Global, odd: Odd) -> Result<List<Constraint>, NoMemory>
    ensures { IfOk result (λ constraints. constraints ≡ map sized (sides_before odd.equation odd.before)) }
{
    let Odd { before, equation } = odd;
    let mut constraints = List::new(alloc);
    push_side(alloc, &mut constraints, &equation.left)?;
    push_side(alloc, &mut constraints, &equation.right)?;
    push_sized(&mut constraints, before)?;
    Ok(constraints)
}

/// The first two of these types.
fn first_two(alloc: Global, types: &Types) -> Result<Disagreement, NoMemory>
    requires { 2 ≤ length types.now }
    ensures { IfOk result (λ it. types.now ≡ it.left ∷ (it.right ∷ drop 2 types.now)) }
{
    let left = types.tree(alloc, 0)?;
    let right = types.tree(alloc, 1)?;
    Ok(Disagreement { left, right })
}

/// What a most general solution of the equations before an equation makes of its sides. `None` where it leaves a side no type, or
/// a type is too large.
fn solve_odd(alloc: Global, odd: Odd) -> Result<Option<Disagreement>, NoMemory>
    ensures { IfOk result (IsReading odd.equation odd.before) }
{
    let constraints = plan_odd(alloc, odd)?;
    match solve_first(alloc, constraints, 2) {
        Ok(types) => {
            let found = first_two(alloc, &types)?;
            Ok(Some(found))
        }
        Err(UnifyError::NoSolution(_)) => Ok(None),
        Err(UnifyError::TypeTooLarge(_)) => Ok(None),
        Err(UnifyError::NoMemory) => Err(NoMemory),
    }
}

/// The two types that don't agree in steps that can't be met.
fn odds_of(alloc: Global, steps: List<Step>) -> Result<Option<Disagreement>, NoMemory>
    ensures { (large : Bool) (at : TheSpan) → IsIllTyped large steps at → IfOk result (IsFinding large steps) }
{
    let equations = all_said(alloc, steps)?;
    match first_unsolvable(alloc, equations.as_slice())? {
        Some(number) => solve_odd(alloc, cut_at(equations, number)),
        None => Ok(None),
    }
}

/// The two types that don't agree in the functions of a declaration that are ill typed.
fn odds_in<'p>(
    alloc: Global,
    earlier: &Scope<'p, Known>,
    tables: &Tables<'p>,
    decl: &'p Decl,
) -> Result<Option<Disagreement>, NoMemory>
    ensures { (large : Bool) (at : TheSpan) → IsIllTyped large (group_walked earlier.now tables.now decl.now).steps at → IfOk result (IsFinding large (group_walked earlier.now tables.now decl.now).steps) }
{
    let walk = walk_group(alloc, earlier, tables, decl)?;
    let GroupWalk { steps, .. } = walk;
    odds_of(alloc, steps)
}

/// The two types that don't agree in the functions of a declaration that are refused for this.
fn odds_for<'p>(
    alloc: Global,
    earlier: &Scope<'p, Known>,
    tables: &Tables<'p>,
    decl: &'p Decl,
    error: InferError,
) -> Result<Option<Disagreement>, NoMemory>
    ensures { (large : Bool) → IsRefused large (group_walked earlier.now tables.now decl.now).steps error → IfOk result (IsFinding large (group_walked earlier.now tables.now decl.now).steps) }
{
    match error {
        InferError::IllTyped(_) => odds_in(alloc, earlier, tables, decl),
        InferError::TypeTooLarge(_) => Ok(None),
        InferError::NoMemory => Err(NoMemory),
    }
}

/// The two sides of the first equation of the walk with which what is said can't hold, as far as what is said before it
/// determines them. `None` where the program is well typed or is refused for the size of a type. Also where a side of that
/// equation has no type, since a row would get a label or an effect twice, and where one of these types is too large. Fields, tags
/// and effects stand in byte order.
pub fn first_disagreement(alloc: Global, program: &Scoped) -> Result<Option<Disagreement>, NoMemory>
    ensures odds { IfOk result (λ found. IfSome found (λ it. EndsAtOdds program.now it.left it.right)) }
    ensures in_order { IfOk result (λ found. IfSome found (λ it. IsInOrder it.left × IsInOrder it.right)) }
    ensures none { IfOk result (λ found. IfNone found (NoneAtOdds program.now)) }
{
    let program = program.program();
    let tables = Tables::of(alloc, program)?;
    let mut so_far = Inference::new(alloc);
    for decl in program.decls.as_slice() {
        let group = match infer_group(alloc, &so_far.earlier, &tables, decl, so_far.large) {
            Ok(group) => group,
            Err(error) => return odds_for(alloc, &so_far.earlier, &tables, decl, error),
        };
        add_group(alloc, &mut so_far, decl, group)?;
    }
    Ok(None)
}
