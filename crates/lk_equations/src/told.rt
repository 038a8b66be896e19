//! Equations that are said on the way, with the next number for a variable.

ghost use Rattle.lk_types.specs.declared.ty.Ty.TheVariants as ty;
ghost use Rattle.lk_typing.specs.Walk.{has_if as the_has_if, keys_told as the_keys_told, told};
ghost use Rattle.lk_equations.specs.Forms.{as_told, sets_said as the_sets_said};
ghost use Rattle.std.specs.Prelude.{◌≡◌, ◌++◌, [], IfOk};

use crate::copies::copy_type;
use crate::own::one;
use crate::renamed::moved;
use crate::unknowns::{field_before, has, list_of, record_of, same};
use lk_ast::{List, NoMemory, SortKey};
use lk_types::{Effect, Effects, Equation, RowTail, Ty, TyField};
use std::alloc::Global;

/// Equations, and the next number for a variable.
#[derive(Drop)]
pub struct Told {
    pub equations: List<Equation>,
    pub next: u32,
}

/// Nothing is said.
pub fn nothing(alloc: Global, next: u32) -> Told
    ensures { as_told result ≡ told [] next }
{
    Told {
        equations: List::new(alloc),
        next,
    }
}

/// The effects have that one, if this holds.
pub fn has_if(
    alloc: Global,
    needed: bool,
    effects: &Effects,
    effect: Effect,
    next: u32,
) -> Result<Told, NoMemory>
    ensures { IfOk result (λ made. as_told made ≡ the_has_if needed effects.now effect next) }
{
    if needed {
        Ok(Told {
            equations: one(alloc, has(alloc, effects, effect, next)?)?,
            next: moved(next, 1)?,
        })
    } else {
        Ok(nothing(alloc, next))
    }
}

/// The rows of a list of that type have the labels of the keys.
pub fn keys_told(alloc: Global, body: u32, keys: &[SortKey], next: u32) -> Result<Told, NoMemory>
    ensures { IfOk result (λ made. as_told made ≡ the_keys_told (ty.Var body) keys.now next) }
{
    let mut equations = List::new(alloc);
    let mut next = next;
    for key in keys {
        let rest = RowTail::Var(moved(next, 1)?);
        let row = field_before(alloc, key.label.text.as_str(), Ty::Var(next), rest)?;
        let rows = list_of(alloc, Ty::Fields(row))?;
        equations.push(same(Ty::Var(body), rows))?;
        next = moved(next, 2)?;
    }
    Ok(Told { equations, next })
}

/// Each of these fields is one of a row of that type.
pub fn sets_said(alloc: Global, row: &Ty, sets: List<TyField>, next: u32) -> Result<Told, NoMemory>
    ensures { IfOk result (λ made. as_told made ≡ the_sets_said row.now sets next) }
{
    let mut equations = List::new(alloc);
    let mut next = next;
    for set in sets.into_vec() {
        let row = copy_type(alloc, row)?;
        let mut fields = List::new(alloc);
        fields.push(set)?;
        equations.push(same(row, record_of(fields, RowTail::Var(next))))?;
        next = moved(next, 1)?;
    }
    Ok(Told { equations, next })
}

/// First these equations and then those.
pub fn joined(first: List<Equation>, rest: List<Equation>) -> Result<List<Equation>, NoMemory>
    ensures { IfOk result (λ made. made ≡ first ++ rest) }
{
    let mut equations = first.into_vec();
    equations.append(&mut rest.into_vec())?;
    Ok(List::from_vec(equations))
}
