//! What is said of records, lists and rows of tables.

ghost use Rattle.std.specs.Option.{option_map};
ghost use Rattle.std.specs.Prelude.{◌≡◌, ◌∷◌, ◌+◌, [], IfOk, map};
ghost use Rattle.lk_types.specs.declared.ty.RowTail.TheVariants.{Closed, Var};
ghost use Rattle.lk_types.specs.declared.ty.Ty.TheVariants as ty;
ghost use Rattle.lk_types.specs.declared.ty.TyRow.{roll-TyRow};
ghost use Rattle.lk_typing.specs.Equations.{closed_record as the_closed_record, equations_of, extended as the_extended, inserted as the_inserted, own as the_own, rows as the_rows};
ghost use Rattle.lk_typing.specs.Heads as head;
ghost use Rattle.lk_typing.specs.Names.{table_named};
ghost use Rattle.lk_typing.specs.Types.{labelled as the_labelled};
ghost use Rattle.lk_typing.specs.Typing.{labels_of};
ghost use Rattle.lk_typing.specs.Unknowns.{effects_of, record_of as the_record_of, same as the_same};
ghost use Rattle.lk_equations.specs.Labelled.{laid};
ghost use Rattle.lk_equations.specs.Made.{as_own};

use crate::copies::copy_type;
use crate::own::{Own, never, one, only, two};
use crate::renamed::moved;
use crate::tables::Tables;
use crate::unknowns::{has, list_of, record_of, row_of, same, unit};
use lk_ast::{List, NoMemory, PartExpr};
use lk_types::{Effect, Effects, Equation, RowTail, Side, Ty, TyField};
use std::alloc::Global;

/// The labels of the parts with as many of the first types, and the types behind them. `None` where there are fewer types.
pub fn labelled<'t>(
    alloc: Global,
    parts: &[PartExpr],
    types: &'t [Ty],
) -> Result<Option<(List<TyField>, &'t [Ty])>, NoMemory>
    ensures { IfOk result (λ found. option_map (λ f. (f.0, f.1.now)) found ≡ laid [] (the_labelled (labels_of parts.now) types.now)) }
{
    let mut fields = List::new(alloc);
    let mut rest = types;
    for part in parts {
        let Some((ty, behind)) = rest.split_first() else {
            return Ok(None);
        };
        let label = part.label.text.copy(alloc)?;
        let ty = copy_type(alloc, ty)?;
        fields.push(TyField { label, ty })?;
        rest = behind;
    }
    Ok(Some((fields, rest)))
}

/// What is said of a record of these parts.
pub fn closed_record(
    alloc: Global,
    parts: &[PartExpr],
    types: &[Ty],
    next: u32,
) -> Result<Own, NoMemory>
    ensures { IfOk result (λ made. as_own made ≡ the_closed_record (the_labelled (labels_of parts.now) types.now) next) }
{
    match labelled(alloc, parts, types)? {
        Some((fields, [])) => Ok(only(alloc, record_of(fields, RowTail::Closed), next)),
        _ => never(alloc, next),
    }
}

/// What is said of a record of these parts before another one.
pub fn extended(alloc: Global, parts: &[PartExpr], types: &[Ty], next: u32) -> Result<Own, NoMemory>
    ensures { IfOk result (λ made. as_own made ≡ the_extended (the_labelled (labels_of parts.now) types.now) next) }
{
    match labelled(alloc, parts, types)? {
        Some((fields, [other])) => extend(alloc, fields, other, next),
        _ => never(alloc, next),
    }
}

/// The other record is any row, and with the fields before it there is no label twice.
fn extend(alloc: Global, fields: List<TyField>, other: &Ty, next: u32) -> Result<Own, NoMemory>
    ensures { IfOk result (λ made. as_own made ≡ the_own (ty.Fields (roll-TyRow (record { fields = fields; tail = Var next }))) (the_same other.now (the_record_of [] (Var next)) ∷ the_same (ty.Fields (roll-TyRow (record { fields = fields; tail = Var next }))) (ty.Fields (roll-TyRow (record { fields = fields; tail = Var next }))) ∷ []) (1 + next)) }
{
    let any = record_of(List::new(alloc), RowTail::Var(next));
    let other = copy_type(alloc, other)?;
    let ty = record_of(fields, RowTail::Var(next));
    let once = copy_type(alloc, &ty)?;
    let again = copy_type(alloc, &ty)?;
    Ok(Own {
        ty: Side::of(ty),
        equations: two(alloc, same(other, any), same(once, again))?,
        next: moved(next, 1)?,
    })
}

/// What is said of a list of these items.
pub fn items(alloc: Global, types: List<Ty>, next: u32) -> Result<Own, NoMemory>
    ensures { IfOk result (λ made. as_own made ≡ equations_of [] [] [] (effects_of [] Closed) head.Items types next) }
{
    match types.as_slice().split_first() {
        None => Ok(only(alloc, list_of(alloc, Ty::Var(next))?, moved(next, 1)?)),
        Some((first, rest)) => {
            let item = copy_type(alloc, first)?;
            Ok(Own {
                ty: Side::of(list_of(alloc, item)?),
                equations: all_same(alloc, first, rest)?,
                next,
            })
        }
    }
}

/// The later types are the same as the first one.
pub fn all_same(alloc: Global, first: &Ty, rest: &[Ty]) -> Result<List<Equation>, NoMemory>
    ensures { IfOk result (λ made. made ≡ map (λ later. the_same later first.now) rest.now) }
{
    let mut equations = List::new(alloc);
    for later in rest {
        let later = copy_type(alloc, later)?;
        let first = copy_type(alloc, first)?;
        equations.push(same(later, first))?;
    }
    Ok(equations)
}

/// What is said of a table.
pub fn rows(
    alloc: Global,
    tables: &Tables,
    effects: &Effects,
    name: &str,
    next: u32,
) -> Result<Own, NoMemory>
    ensures { IfOk result (λ made. as_own made ≡ the_rows (table_named tables.now name.now) effects.now next) }
{
    match tables.get(alloc, name)? {
        None => never(alloc, next),
        Some(table) => Ok(Own {
            ty: Side::of(list_of(alloc, row_of(alloc, table)?)?),
            equations: one(alloc, has(alloc, effects, Effect::Scan, next)?)?,
            next: moved(next, 1)?,
        }),
    }
}

/// What is said of rows that come into a table.
pub fn inserted(
    alloc: Global,
    tables: &Tables,
    effects: &Effects,
    name: &str,
    rows: &Ty,
    next: u32,
) -> Result<Own, NoMemory>
    ensures { IfOk result (λ made. as_own made ≡ the_inserted (table_named tables.now name.now) effects.now rows.now next) }
{
    match tables.get(alloc, name)? {
        None => never(alloc, next),
        Some(table) => {
            let rows = copy_type(alloc, rows)?;
            let wanted = list_of(alloc, row_of(alloc, table)?)?;
            let writes = has(alloc, effects, Effect::Write, next)?;
            Ok(Own {
                ty: Side::of(unit(alloc)),
                equations: two(alloc, same(rows, wanted), writes)?,
                next: moved(next, 1)?,
            })
        }
    }
}
