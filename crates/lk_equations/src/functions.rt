//! What is said of names, functions and calls.

ghost use Rattle.std.specs.Prelude.{◌≡◌, ◌∷◌, ◌+◌, [], IfOk, Some, map};
ghost use Rattle.lk_types.specs.declared.ty.Ty.TheVariants as ty;
ghost use Rattle.lk_types.specs.declared.ty.Effect.TheVariants as effect;
ghost use Rattle.lk_typing.specs.Equations.{called as the_called, lacks as the_lacks, local as the_local, own as the_own, used as the_used};
ghost use Rattle.lk_types.specs.Names.{count, place_in};
ghost use Rattle.lk_typing.specs.Names.{named, Many};
ghost use Rattle.lk_types.specs.Renamed.{renamed as renamed_type};
ghost use Rattle.lk_typing.specs.Unknowns.{has as the_has, same as the_same};
ghost use Rattle.lk_equations.specs.Made.{as_own};
ghost use Rattle.lk_equations.specs.Seen.{functions_seen};

use crate::copies::{copy_effects, copy_type, copy_types};
use crate::known::Known;
use crate::own::{Globals, Own, never, only, two};
use crate::renamed::moved;
use crate::scope::Scope;
use crate::unknowns::{field_before, function_of, has, same, unit};
use lk_ast::{List, NoMemory, Shared};
use lk_types::{Effect, Effects, Equation, Lack, Names, RowTail, Scheme, Side, Ty, Variable};
use std::alloc::Global;

/// What is said of a local name.
pub fn local(alloc: Global, names: &Scope<Ty>, name: &str, next: u32) -> Result<Own, NoMemory>
    ensures { IfOk result (λ made. as_own made ≡ the_local (named name.now names.now) next) }
{
    match names.get(name) {
        Some(ty) => Ok(only(alloc, copy_type(alloc, ty)?, next)),
        None => never(alloc, next),
    }
}

/// What is said of a function where it is used.
#[tactic(auto, using(crate::proofs::Seeing::named_seen))]
pub fn used(alloc: Global, globals: &Globals, name: &str, next: u32) -> Result<Own, NoMemory>
    ensures { IfOk result (λ made. as_own made ≡ the_used (named name.now (functions_seen globals.now.own globals.now.earlier.now)) next) }
{
    match globals.own.get(name) {
        Some(ty) => Ok(only(alloc, copy_type(alloc, ty)?, next)),
        None => match globals.earlier.get(name) {
            Some(known) => instance(alloc, known, next),
            None => never(alloc, next),
        },
    }
}

/// A new instance of a scheme, by the numbers of its variables from 1 on: the first gets `next`.
fn numbered(
    alloc: Global,
    names: &Shared<Names>,
    scheme: &Scheme,
    next: u32,
) -> Result<Own, NoMemory>
    ensures { IfOk result (λ made. as_own made ≡ the_own (renamed_type (place_in next names.now) scheme.now.body) (map (the_lacks (place_in next names.now)) scheme.now.lacks) (count names.now + next)) }
{
    let count = u32::try_from(names.get().count()).map_err(|_| NoMemory)?;
    let equations = all_lacks(alloc, names.get(), next, scheme.lacks.as_slice())?;
    let body = scheme.body.share()?;
    let names = names.share()?;
    Ok(Own {
        ty: Side::instance(body, names, next),
        equations,
        next: moved(next, count)?,
    })
}

/// A new instance of a scheme.
fn instance(alloc: Global, known: &Known, next: u32) -> Result<Own, NoMemory>
    ensures { IfOk result (λ made. as_own made ≡ the_used (Some (Many known.now)) next) }
{
    let both = known.parts();
    numbered(alloc, both.1, both.0, next)
}

/// What is said of the labels that row variables lack.
fn all_lacks(
    alloc: Global,
    names: &Names,
    next: u32,
    lacks: &[Lack],
) -> Result<List<Equation>, NoMemory>
    ensures { IfOk result (λ made. made ≡ map (the_lacks (place_in next names.now)) lacks.now) }
{
    let mut equations = List::new(alloc);
    for lack in lacks {
        equations.push(lacks_label(alloc, names, next, lack)?)?;
    }
    Ok(equations)
}

/// A row variable lacks a label: a record with that label before it is one.
fn lacks_label(alloc: Global, names: &Names, next: u32, lack: &Lack) -> Result<Equation, NoMemory>
    ensures { IfOk result (λ made. made ≡ the_lacks (place_in next names.now) lack.now) }
{
    let tail = RowTail::Var(names.place(next, Variable::Row(lack.var))?);
    let row = field_before(alloc, lack.label.as_str(), unit(alloc), tail)?;
    let ty = Ty::Fields(row);
    let again = copy_type(alloc, &ty)?;
    Ok(same(ty, again))
}

/// What is said of a call of a function.
pub fn called(
    alloc: Global,
    effects: &Effects,
    types: List<Ty>,
    function: Own,
) -> Result<Own, NoMemory>
    ensures { IfOk result (λ made. as_own made ≡ the_called effects.now types (as_own function)) }
{
    let Own {
        ty,
        mut equations,
        next,
    } = function;
    let effects = copy_effects(alloc, effects)?;
    let at_call = function_of(alloc, types, effects, Ty::Var(next))?;
    equations.push(Equation {
        left: ty,
        right: Side::of(at_call),
    })?;
    Ok(Own {
        ty: Side::of(Ty::Var(next)),
        equations,
        next: moved(next, 1)?,
    })
}

/// What is said of a call of a value.
pub fn applied(
    alloc: Global,
    effects: &Effects,
    function: &Ty,
    types: &[Ty],
    next: u32,
) -> Result<Own, NoMemory>
    ensures { IfOk result (λ made. as_own made ≡ the_own (ty.Var next) (the_same function.now (ty.Fun types.now effects.now (ty.Var next)) ∷ the_has effects.now effect.Local (1 + next) ∷ []) (2 + next)) }
{
    let function = copy_type(alloc, function)?;
    let types = copy_types(alloc, types)?;
    let all = copy_effects(alloc, effects)?;
    let at_call = function_of(alloc, types, all, Ty::Var(next))?;
    let by_client = has(alloc, effects, Effect::Local, moved(next, 1)?)?;
    Ok(Own {
        ty: Side::of(Ty::Var(next)),
        equations: two(alloc, same(function, at_call), by_client)?,
        next: moved(next, 2)?,
    })
}
