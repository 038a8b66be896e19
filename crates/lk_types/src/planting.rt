//! The levels of a type that is written out.

ghost use Rattle.lk_types.specs.Levels.{built, field_made, row_made, row_parts, types_at};
ghost use Rattle.lk_types.specs.Planted.{Grown, IsPlanted};
ghost use Rattle.std.specs.Prelude.{◌≡◌, [], ◌∷◌, ◌++◌, IfOk, length, map};

use crate::levels::{Level, LevelField, LevelRow};
use crate::moves::count_of;
use crate::ty::{Ty, TyField, TyRow};
use lk_ast::{List, NoMemory};
use std::alloc::Global;

/// Adds a level at the end. Its place is the answer.
fn push_level(levels: &mut Vec<Level>, level: Level) -> Result<u32, NoMemory>
    ensures { IfOk result (λ place. (place ≡ length levels.old.items) × (levels.new.items ≡ levels.old.items ++ level ∷ [])) }
{
    let place = count_of(levels.as_slice())?;
    levels.push(level)?;
    Ok(place)
}

/// Adds the levels of a type at the end. The place of the type is the answer.
#[cycle(planting)]
pub fn push_tree(alloc: Global, levels: &mut Vec<Level>, ty: &Ty) -> Result<u32, NoMemory>
    ensures { IfOk result (λ place. IsPlanted levels.old.items levels.new.items place ty.now) }
{
    match ty {
        Ty::Int => push_level(levels, Level::Int),
        Ty::Bool => push_level(levels, Level::Bool),
        Ty::Text => push_level(levels, Level::Text),
        Ty::List(item) => {
            let part = push_tree(alloc, levels, item.get())?;
            push_level(levels, Level::List(part))
        }
        Ty::Fields(row) => {
            let row = push_row(alloc, levels, row)?;
            push_level(levels, Level::Fields(row))
        }
        Ty::Tags(row) => {
            let row = push_row(alloc, levels, row)?;
            push_level(levels, Level::Tags(row))
        }
        Ty::Fun(params, effects, answer) => {
            let params = push_trees(alloc, levels, params.as_slice())?;
            let part = push_tree(alloc, levels, answer.get())?;
            let effects = effects.copy(alloc)?;
            push_level(levels, Level::Fun(params, effects, part))
        }
        Ty::Var(number) => push_level(levels, Level::Var(*number)),
    }
}

#[cycle(planting)]
fn push_trees(alloc: Global, levels: &mut Vec<Level>, types: &[Ty]) -> Result<List<u32>, NoMemory>
    ensures { IfOk result (λ places. Grown levels.old.items levels.new.items places × (types_at levels.new.items places ≡ types.now)) }
{
    let mut places = List::new(alloc);
    for ty in types {
        places.push(push_tree(alloc, levels, ty)?)?;
    }
    Ok(places)
}

#[cycle(planting)]
fn push_row(alloc: Global, levels: &mut Vec<Level>, row: &TyRow) -> Result<LevelRow, NoMemory>
    ensures { IfOk result (λ made. Grown levels.old.items levels.new.items (row_parts made) × (row_made (built levels.new.items) made ≡ row.now)) }
{
    let fields = push_fields(alloc, levels, row.fields.as_slice())?;
    Ok(LevelRow {
        fields,
        tail: row.tail,
    })
}

#[cycle(planting)]
fn push_fields(
    alloc: Global,
    levels: &mut Vec<Level>,
    fields: &[TyField],
) -> Result<List<LevelField>, NoMemory>
    ensures { IfOk result (λ made. Grown levels.old.items levels.new.items (map (λ f. f.part) made) × (map (field_made (built levels.new.items)) made ≡ fields.now)) }
{
    let mut made = List::new(alloc);
    for field in fields {
        let part = push_tree(alloc, levels, &field.ty)?;
        let label = field.label.copy(alloc)?;
        made.push(LevelField { label, part })?;
    }
    Ok(made)
}
