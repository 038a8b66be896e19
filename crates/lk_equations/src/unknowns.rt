//! Types with variables, and equations of them.

ghost use Rattle.std.specs.Prelude.{◌≡◌, IfOk, [], ◌∷◌};
ghost use Rattle.lk_types.specs.declared.ty.TyRow.{roll-TyRow};
ghost use Rattle.lk_types.specs.declared.ty.RowTail.TheVariants.{Var};
ghost use Rattle.lk_types.specs.declared.ty.Ty.TheVariants as ty;
ghost use Rattle.lk_typing.specs.Unknowns.{base as the_base, effects_of as the_effects, row, has as the_has, row_of as the_row_of, same_effects as the_same_effects, unit as the_unit};

use crate::copies::copy_effects;
use lk_ast::{BaseKind, Boxed, List, NoMemory, TableDecl, Text};
use lk_types::{Effect, Effects, Equation, RowTail, Side, Ty, TyField, TyRow};
use std::alloc::Global;

/// The type of a column.
pub fn base(kind: BaseKind) -> Ty
    ensures { result ≡ the_base kind }
{
    match kind {
        BaseKind::Int => Ty::Int,
        BaseKind::Bool => Ty::Bool,
        BaseKind::Text => Ty::Text,
    }
}

/// A record with these fields before the tail.
pub fn record_of(fields: List<TyField>, tail: RowTail) -> Ty
    ensures { result ≡ ty.Fields (roll-TyRow (record { fields = fields; tail = tail })) }
{
    Ty::Fields(TyRow { fields, tail })
}

/// A variant with these tags before the tail.
pub fn variant_of(tags: List<TyField>, tail: RowTail) -> Ty
    ensures { result ≡ ty.Tags (roll-TyRow (record { fields = tags; tail = tail })) }
{
    Ty::Tags(TyRow { fields: tags, tail })
}

/// The type of `()`.
pub fn unit(alloc: Global) -> Ty
    ensures { result ≡ the_unit }
{
    record_of(List::new(alloc), RowTail::Closed)
}

/// The type of a list of these.
pub fn list_of(alloc: Global, item: Ty) -> Result<Ty, NoMemory>
    ensures { IfOk result (λ made. made ≡ ty.List item) }
{
    Ok(Ty::List(Boxed::new(alloc, item)?))
}

/// The type of a function.
pub fn function_of(
    alloc: Global,
    params: List<Ty>,
    effects: Effects,
    answer: Ty,
) -> Result<Ty, NoMemory>
    ensures { IfOk result (λ made. made ≡ ty.Fun params effects answer) }
{
    Ok(Ty::Fun(params, effects, Boxed::new(alloc, answer)?))
}

/// The type of a table's rows.
pub fn row_of(alloc: Global, table: &TableDecl) -> Result<Ty, NoMemory>
    ensures { IfOk result (λ made. made ≡ the_row_of table.now) }
{
    let mut fields = List::new(alloc);
    for column in table.columns.as_slice() {
        let label = column.label.text.copy(alloc)?;
        let ty = base(column.kind);
        fields.push(TyField { label, ty })?;
    }
    Ok(record_of(fields, RowTail::Closed))
}

/// Two types that are the same.
pub fn same(left: Ty, right: Ty) -> Equation
    ensures { result ≡ record { left = left; right = right } }
{
    Equation {
        left: Side::of(left),
        right: Side::of(right),
    }
}

/// Two rows of effects that are the same.
pub fn same_effects(alloc: Global, left: Effects, right: Effects) -> Result<Equation, NoMemory>
    ensures { IfOk result (λ made. made ≡ the_same_effects left right) }
{
    let left = function_of(alloc, List::new(alloc), left, unit(alloc))?;
    let right = function_of(alloc, List::new(alloc), right, unit(alloc))?;
    Ok(same(left, right))
}

/// Effects that may be any.
pub fn any_effects(alloc: Global, next: u32) -> Effects
    ensures { result ≡ the_effects [] (Var next) }
{
    Effects {
        labels: List::new(alloc),
        tail: RowTail::Var(next),
    }
}

/// An effect before the tail.
pub fn effect_before(alloc: Global, effect: Effect, tail: RowTail) -> Result<Effects, NoMemory>
    ensures { IfOk result (λ made. made ≡ the_effects (effect ∷ []) tail) }
{
    let mut labels = List::new(alloc);
    labels.push(effect)?;
    Ok(Effects { labels, tail })
}

/// These effects have that one: they are it and others, which are a new variable.
pub fn has(
    alloc: Global,
    effects: &Effects,
    effect: Effect,
    next: u32,
) -> Result<Equation, NoMemory>
    ensures { IfOk result (λ made. made ≡ the_has effects.now effect next) }
{
    let all = copy_effects(alloc, effects)?;
    let some = effect_before(alloc, effect, RowTail::Var(next))?;
    same_effects(alloc, all, some)
}

/// A record or a variant with this field before the tail.
pub fn field_before(alloc: Global, label: &str, ty: Ty, tail: RowTail) -> Result<TyRow, NoMemory>
    ensures { IfOk result (λ made. made ≡ row ((label.now, ty) ∷ []) tail) }
{
    let label = Text::from_str(alloc, label)?;
    let mut fields = List::new(alloc);
    fields.push(TyField { label, ty })?;
    Ok(TyRow { fields, tail })
}
