//! What is said of forms that bind names.

ghost use Rattle.lk_types.specs.declared.ty.RowTail.TheVariants.{Closed};
ghost use Rattle.lk_types.specs.declared.ty.Ty.TheVariants as ty;
ghost use Rattle.lk_typing.specs.Types.{labelled as the_labelled};
ghost use Rattle.lk_typing.specs.Typing.{is_marked as the_mark, labels_of};
ghost use Rattle.lk_typing.specs.Unknowns.{effects_of, row_of as the_row_of, same as the_same};
ghost use Rattle.lk_typing.specs.Walk.{one_type as the_one_type, set_own};
ghost use Rattle.lk_equations.specs.Forms.{as_told, lambda_own as the_lambda_own, for_own as the_for_own, switch_own as the_switch_own, query_own as the_query_own, query_told as the_query_told, sets_own as the_sets_own};
ghost use Rattle.lk_equations.specs.Made.{as_own};
ghost use Rattle.std.specs.Prelude.{◌≡◌, [], IfOk};

use crate::copies::copy_type;
use crate::own::{Own, never, one, only};
use crate::records::{all_same, labelled};
use crate::renamed::moved;
use crate::told::{Told, has_if, joined, keys_told, sets_said};
use crate::unknowns::{function_of, has, list_of, row_of, same, unit};
use lk_ast::{List, Loc, NoMemory, PartExpr, SortKey, TableDecl};
use lk_types::{Effect, Effects, Equation, RowTail, Side, Ty, TyField};
use std::alloc::Global;

/// Whether a function is marked with its place.
pub fn is_marked(place: Loc) -> bool
    ensures { result ≡ the_mark place }
{
    match place {
        Loc::Any => false,
        Loc::Client | Loc::Server => true,
    }
}

/// No effects at all.
pub fn no_effects(alloc: Global) -> Effects
    ensures { result ≡ effects_of [] Closed }
{
    Effects {
        labels: List::new(alloc),
        tail: RowTail::Closed,
    }
}

/// What is said of a lambda.
pub fn lambda_own(
    alloc: Global,
    effects: &Effects,
    params: List<Ty>,
    own_effects: Effects,
    body: u32,
    next: u32,
) -> Result<Own, NoMemory>
    ensures { IfOk result (λ made. as_own made ≡ the_lambda_own effects.now params own_effects (ty.Var body) next) }
{
    let local = has(alloc, effects, Effect::Local, next)?;
    Ok(Own {
        ty: Side::of(function_of(alloc, params, own_effects, Ty::Var(body))?),
        equations: one(alloc, local)?,
        next: moved(next, 1)?,
    })
}

/// That a list has such elements.
pub fn elements_are(alloc: Global, list: u32, element: u32) -> Result<Equation, NoMemory>
    ensures { IfOk result (λ made. made ≡ the_same (ty.Var list) (ty.List (ty.Var element))) }
{
    Ok(same(Ty::Var(list), list_of(alloc, Ty::Var(element))?))
}

/// What is said of a `for`, behind equations that are said before.
pub fn for_own(
    alloc: Global,
    equations: List<Equation>,
    body: u32,
    next: u32,
) -> Result<Own, NoMemory>
    ensures { IfOk result (λ made. as_own made ≡ the_for_own equations (ty.Var body) next) }
{
    let mut equations = equations;
    equations.push(elements_are(alloc, body, next)?)?;
    Ok(Own {
        ty: Side::of(list_of(alloc, Ty::Var(next))?),
        equations,
        next: moved(next, 1)?,
    })
}

/// What is said of the bodies of cases: they have one type.
pub fn one_type(alloc: Global, types: &[Ty], next: u32) -> Result<Own, NoMemory>
    ensures { IfOk result (λ made. as_own made ≡ the_one_type types.now next) }
{
    match types.split_first() {
        None => Ok(only(alloc, Ty::Var(next), moved(next, 1)?)),
        Some((first, rest)) => Ok(Own {
            ty: Side::of(copy_type(alloc, first)?),
            equations: all_same(alloc, first, rest)?,
            next,
        }),
    }
}

/// What is said of a `switch` over a value of this variant.
pub fn switch_own(
    alloc: Global,
    effects: &Effects,
    value: u32,
    variant: Ty,
    bodies: Own,
) -> Result<Own, NoMemory>
    ensures { IfOk result (λ made. as_own made ≡ the_switch_own effects.now (ty.Var value) variant (as_own bodies)) }
{
    let local = has(alloc, effects, Effect::Local, bodies.next)?;
    let first = one(alloc, same(Ty::Var(value), variant))?;
    let mut equations = joined(first, bodies.equations)?;
    equations.push(local)?;
    Ok(Own {
        ty: bodies.ty,
        equations,
        next: moved(bodies.next, 1)?,
    })
}

/// What is said of a query in a function with these effects, but for its type.
fn query_told(
    alloc: Global,
    effects: &Effects,
    keys: &[SortKey],
    body: u32,
    next: u32,
) -> Result<Told, NoMemory>
    ensures { IfOk result (λ made. as_told made ≡ the_query_told keys.now effects.now (ty.Var body) next) }
{
    let first = one(alloc, elements_are(alloc, body, next)?)?;
    let ordered = keys_told(alloc, body, keys, moved(next, 1)?)?;
    let scan = has(alloc, effects, Effect::Scan, ordered.next)?;
    let behind = moved(ordered.next, 1)?;
    let by_client = has_if(alloc, !keys.is_empty(), effects, Effect::Local, behind)?;
    let mut equations = joined(first, ordered.equations)?;
    equations.push(scan)?;
    Ok(Told {
        equations: joined(equations, by_client.equations)?,
        next: by_client.next,
    })
}

/// What is said of a query in a function with these effects.
pub fn query_own(
    alloc: Global,
    effects: &Effects,
    keys: &[SortKey],
    body: u32,
    next: u32,
) -> Result<Own, NoMemory>
    ensures { IfOk result (λ made. as_own made ≡ the_query_own keys.now effects.now (ty.Var body) next) }
{
    let told = query_told(alloc, effects, keys, body, next)?;
    Ok(Own {
        ty: Side::of(Ty::Var(body)),
        equations: told.equations,
        next: told.next,
    })
}

/// What is said of an update or a deletion of rows of a table.
pub fn change_own(
    alloc: Global,
    effects: &Effects,
    table: &TableDecl,
    cond: u32,
    sets: &[PartExpr],
    types: &[Ty],
    next: u32,
) -> Result<Own, NoMemory>
    ensures { IfOk result (λ made. as_own made ≡ set_own effects.now (the_row_of table.now) (ty.Var cond) (the_labelled (labels_of sets.now) types.now) next) }
{
    match labelled(alloc, sets, types)? {
        Some((fields, [])) => {
            sets_own(alloc, effects, row_of(alloc, table)?, cond, fields, next)
        }
        _ => never(alloc, next),
    }
}

/// What is said of an update of these fields.
fn sets_own(
    alloc: Global,
    effects: &Effects,
    row: Ty,
    cond: u32,
    sets: List<TyField>,
    next: u32,
) -> Result<Own, NoMemory>
    ensures { IfOk result (λ made. as_own made ≡ the_sets_own effects.now row (ty.Var cond) sets next) }
{
    let first = one(alloc, same(Ty::Var(cond), Ty::Bool))?;
    let said = sets_said(alloc, &row, sets, next)?;
    let mut equations = joined(first, said.equations)?;
    equations.push(has(alloc, effects, Effect::Write, said.next)?)?;
    Ok(Own {
        ty: Side::of(unit(alloc)),
        equations,
        next: moved(said.next, 1)?,
    })
}
