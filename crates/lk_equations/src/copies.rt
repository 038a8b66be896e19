//! Copies of types, each equal to what it copies.

ghost use Rattle.std.specs.Prelude.{◌≡◌, IfOk};

use lk_ast::{Boxed, List, NoMemory};
use lk_types::{Effects, Ty, TyField, TyRow};
use std::alloc::Global;

/// The same type once more.
#[cycle(copies)]
pub fn copy_type(alloc: Global, ty: &Ty) -> Result<Ty, NoMemory>
    ensures { IfOk result (λ copy. copy ≡ ty.now) }
{
    match ty {
        Ty::Int => Ok(Ty::Int),
        Ty::Bool => Ok(Ty::Bool),
        Ty::Text => Ok(Ty::Text),
        Ty::List(item) => {
            let item = copy_type(alloc, item.get())?;
            Ok(Ty::List(Boxed::new(alloc, item)?))
        }
        Ty::Fields(row) => Ok(Ty::Fields(copy_row(alloc, row)?)),
        Ty::Tags(row) => Ok(Ty::Tags(copy_row(alloc, row)?)),
        Ty::Fun(params, effects, answer) => {
            let params = copy_types(alloc, params.as_slice())?;
            let effects = copy_effects(alloc, effects)?;
            let answer = copy_type(alloc, answer.get())?;
            Ok(Ty::Fun(params, effects, Boxed::new(alloc, answer)?))
        }
        Ty::Var(number) => Ok(Ty::Var(*number)),
    }
}

/// The same types once more.
#[cycle(copies)]
pub fn copy_types(alloc: Global, types: &[Ty]) -> Result<List<Ty>, NoMemory>
    ensures { IfOk result (λ copy. copy ≡ types.now) }
{
    let mut copies = List::new(alloc);
    for ty in types {
        copies.push(copy_type(alloc, ty)?)?;
    }
    Ok(copies)
}

#[cycle(copies)]
fn copy_row(alloc: Global, row: &TyRow) -> Result<TyRow, NoMemory>
    ensures { IfOk result (λ copy. copy ≡ row.now) }
{
    let fields = copy_fields(alloc, row.fields.as_slice())?;
    Ok(TyRow {
        fields,
        tail: row.tail,
    })
}

#[cycle(copies)]
fn copy_fields(alloc: Global, fields: &[TyField]) -> Result<List<TyField>, NoMemory>
    ensures { IfOk result (λ copy. copy ≡ fields.now) }
{
    let mut copies = List::new(alloc);
    for field in fields {
        let label = field.label.copy(alloc)?;
        let ty = copy_type(alloc, &field.ty)?;
        copies.push(TyField { label, ty })?;
    }
    Ok(copies)
}

/// The same effects once more.
pub fn copy_effects(alloc: Global, effects: &Effects) -> Result<Effects, NoMemory>
    ensures { IfOk result (λ copy. copy ≡ effects.now) }
{
    let mut labels = List::new(alloc);
    for label in effects.labels.as_slice() {
        labels.push(*label)?;
    }
    Ok(Effects {
        labels,
        tail: effects.tail,
    })
}
