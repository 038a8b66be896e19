//! What stands for the variables of a type, from what it becomes.

ghost use Rattle.lk_ground_types.specs.Bound.{IsRowWithin};
ghost use Rattle.lk_ground_types.specs.Grounds.{ArePartsBelow, at, part_made, row_in};
ghost use Rattle.lk_ground_types.specs.Matching.{BindsIn};
ghost use Rattle.lk_types.specs.Each.{Each};
ghost use Rattle.lk_types.specs.Grounding.{Grounding, all_of, before_row, effects_under, field_under, row_under, under};
ghost use Rattle.lk_types.specs.Rows.{EffectSet, Row as TheRow, effects_of, fields_of};
ghost use Rattle.lk_types.specs.declared.ground.Ground.{Ground as TheGround};
ghost use Rattle.lk_types.specs.Variables.{effects_variables, variables_of, variables_of_field, variables_of_row};
ghost use Rattle.std.specs.FinMap as finite;
ghost use Rattle.std.specs.Prelude.{◌≡◌, ◌<◌, OnOk, Some, flat_map, length, map};

use crate::bindings::Bindings;
use crate::effect_lists::those_without;
use crate::ground_level::GroundPart;
use crate::grounds::Grounds;
use crate::level_parts::{function_parts, list_item, record_fields, variant_tags};
use crate::part_row::PartRow;
use lk_ast::NoMemory;
use lk_types::{Effect, Effects, RowTail, Ty, TyField, TyRow};
use std::alloc::Global;

/// Binds the variables of a type to what stands for them where it becomes the ground type of that number. Where it can't, they stay
/// as they are. `NoMemory` where memory runs out.
#[cycle(matching)]
pub fn match_type(
    alloc: Global,
    found: &mut Bindings,
    grounds: &Grounds,
    body: &Ty,
    number: u32,
) -> Result<(), NoMemory>
    ensures { OnOk result (BindsIn grounds.now (number < length grounds.now) (variables_of body.now) (λ σ. under σ body.now ≡ Some (at grounds.now number)) found.old found.new) }
{
    match body {
        Ty::Int => Ok(()),
        Ty::Bool => Ok(()),
        Ty::Text => Ok(()),
        Ty::List(item) => match list_item(grounds, number) {
            Some(part) => match_type(alloc, found, grounds, item.get(), part),
            None => Ok(()),
        },
        Ty::Fields(row) => match record_fields(grounds, number) {
            Some(parts) => match_row(alloc, found, grounds, row, parts),
            None => Ok(()),
        },
        Ty::Tags(row) => match variant_tags(grounds, number) {
            Some(parts) => match_row(alloc, found, grounds, row, parts),
            None => Ok(()),
        },
        Ty::Fun(params, effects, answer) => {
            let Some((knowns, labels, known)) = function_parts(grounds, number) else {
                return Ok(());
            };
            match_all(alloc, found, grounds, params.as_slice(), knowns)?;
            match_effects(alloc, found, grounds, effects, labels)?;
            match_type(alloc, found, grounds, answer.get(), known)
        }
        Ty::Var(variable) => found.bind_plain(*variable, number),
    }
}

#[cycle(matching)]
fn match_all(
    alloc: Global,
    found: &mut Bindings,
    grounds: &Grounds,
    types: &[Ty],
    numbers: &[u32],
) -> Result<(), NoMemory>
    ensures { OnOk result (BindsIn grounds.now (Each (λ n. n < length grounds.now) numbers.now) (flat_map variables_of types.now) (λ σ. all_of (map (under σ) types.now) ≡ Some (map (at grounds.now) numbers.now)) found.old found.new) }
{
    if types.len() != numbers.len() {
        return Ok(());
    }
    for (i, ty) in types.iter().enumerate() {
        match_type(alloc, found, grounds, ty, numbers[i])?;
    }
    Ok(())
}

/// The fields of the row take those with their labels, and its tail the rest.
#[cycle(matching)]
fn match_row(
    alloc: Global,
    found: &mut Bindings,
    grounds: &Grounds,
    row: &TyRow,
    parts: &[GroundPart],
) -> Result<(), NoMemory>
    ensures { OnOk result (BindsIn grounds.now (ArePartsBelow (length grounds.now) parts.now) (variables_of_row row.now) (λ σ. (m : TheRow) × (row_under σ row.now ≡ Some m) × (fields_of m ≡ map (part_made grounds.now) parts.now)) found.old found.new) }
{
    let mut rest = PartRow::of(alloc, parts)?;
    match_fields(alloc, found, grounds, &mut rest, row.fields.as_slice())?;
    match row.tail {
        RowTail::Closed => Ok(()),
        RowTail::Var(variable) => found.bind_row(variable, rest),
    }
}

/// Takes the fields out that these become.
#[cycle(matching)]
fn match_fields(
    alloc: Global,
    found: &mut Bindings,
    grounds: &Grounds,
    rest: &mut PartRow,
    fields: &[TyField],
) -> Result<(), NoMemory>
    ensures within { OnOk result (IsRowWithin (length grounds.now) rest.old → IsRowWithin (length grounds.now) rest.new) }
    ensures left { OnOk result ((σ : Grounding) (below : TheRow) → before_row (map (field_under σ) fields.now) below ≡ Some (row_in grounds.now rest.old) → row_in grounds.now rest.new ≡ below) }
    ensures bound { OnOk result (BindsIn grounds.now (IsRowWithin (length grounds.now) rest.old) (flat_map variables_of_field fields.now) (λ σ. (below : TheRow) × (before_row (map (field_under σ) fields.now) below ≡ Some (row_in grounds.now rest.old))) found.old found.new) }
{
    for field in fields {
        match_field(alloc, found, grounds, rest, field)?;
    }
    Ok(())
}

#[cycle(matching)]
fn match_field(
    alloc: Global,
    found: &mut Bindings,
    grounds: &Grounds,
    rest: &mut PartRow,
    field: &TyField,
) -> Result<(), NoMemory>
    ensures left { OnOk result (rest.new ≡ finite.remove rest.old field.now.label) }
    ensures bound { OnOk result (BindsIn grounds.now (IsRowWithin (length grounds.now) rest.old) (variables_of_field field.now) (λ σ. (g : TheGround) × (under σ field.now.ty ≡ Some g) × (finite.get (row_in grounds.now rest.old) field.now.label ≡ Some g)) found.old found.new) }
{
    match rest.take(field.label.as_str()) {
        None => Ok(()),
        Some(part) => match_type(alloc, found, grounds, &field.ty, part),
    }
}

/// The tail of the effects takes those that are not named.
fn match_effects(
    alloc: Global,
    found: &mut Bindings,
    grounds: &Grounds,
    effects: &Effects,
    labels: &[Effect],
) -> Result<(), NoMemory>
    ensures { OnOk result (BindsIn grounds.now (Unit {0}) (effects_variables effects.now) (λ σ. (s : EffectSet) × (effects_under σ effects.now ≡ Some s) × (effects_of s ≡ labels.now)) found.old found.new) }
{
    match effects.tail {
        RowTail::Closed => Ok(()),
        RowTail::Var(variable) => {
            let left = those_without(alloc, labels, effects.labels.as_slice())?;
            found.bind_effects(variable, left)
        }
    }
}
