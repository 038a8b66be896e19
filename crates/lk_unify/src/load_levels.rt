//! A type by its levels as nodes: a node for each level, so that what stands in it several times is loaded once.

ghost use Rattle.std.specs.Prelude.{◌≡◌, ◌<◌, IfOk, List as TheList, length, map};
ghost use Rattle.lk_types.specs.Each.{Each};
ghost use Rattle.lk_types.specs.Levels.{at, built, made, row_made, row_parts, IsBelow};
ghost use Rattle.lk_types.specs.OneTypes.{IsThin};
ghost use Rattle.lk_types.specs.declared.levels.Level.TheVariants as level;
ghost use Rattle.lk_types.specs.declared.ty.Ty.{Ty};
ghost use Rattle.lk_arena.specs.Kinds.{OfTypes, OfFields};
ghost use Rattle.lk_arena.specs.Shapes.{AllBelow};
ghost use Rattle.lk_unify.specs.LevelLoading.{level_field, node_at, LoadedOn};
ghost use Rattle.lk_unify.specs.Loading.{row_meaning, type_meaning, IsLoader, Loaded};

use crate::load::{add_row, load_base, load_end, load_function, load_one, load_variable};
use crate::loader::{Loader, NodeKind};
use crate::shared::are_fields_closed;
use lk_arena::{Field, Head};
use lk_ast::{List, NoMemory};
use lk_types::{Effects, Level, LevelField, LevelRow, Variable};
use std::alloc::Global;

/// The fields with the nodes of their levels.
fn level_fields(
    alloc: Global,
    fields: &[LevelField],
    nodes: &[usize],
) -> Result<List<Field>, NoMemory>
    requires { Each (λ p. p < length nodes.now) (map (λ f. f.part) fields.now) }
    ensures { IfOk result (λ made. made ≡ map (level_field nodes.now) fields.now) }
{
    let mut made = List::new(alloc);
    for field in fields {
        made.push(Field {
            label: field.label.copy(alloc)?,
            node: nodes[field.part as usize],
        })?;
    }
    Ok(made)
}

/// The nodes of levels.
fn nodes_at(alloc: Global, places: &[u32], nodes: &[usize]) -> Result<List<usize>, NoMemory>
    requires { Each (λ p. p < length nodes.now) places.now }
    ensures { IfOk result (λ made. made ≡ map (node_at nodes.now) places.now) }
{
    let mut made = List::new(alloc);
    for place in places {
        made.push(nodes[*place as usize])?;
    }
    Ok(made)
}

/// A node for a row of levels that have these nodes.
fn load_level_row(
    alloc: Global,
    loader: &mut Loader,
    row: &LevelRow,
    nodes: &[usize],
) -> Result<Option<usize>, NoMemory>
    requires whole { IsLoader loader.old }
    requires parts { Each (λ p. p < length nodes.now) (row_parts row.now) }
    requires nodes { AllBelow (length loader.old.arena.shapes) nodes.now }
    ensures { IfOk result (λ answer. (ts : TheList Ty) → length nodes.now ≡ length ts → LoadedOn loader.old loader.new ts nodes.now OfFields (row_meaning (row_made ts row.now)) answer) }
{
    let fields = level_fields(alloc, row.fields.as_slice(), nodes)?;
    let shared = are_fields_closed(loader, &fields);
    let tail = load_end(alloc, loader, NodeKind::Fields, row.tail.of_row(), shared)?;
    if fields.is_empty() {
        return Ok(Some(tail));
    }
    add_row(alloc, loader, NodeKind::Fields, fields, tail)
}

fn load_level_record(
    alloc: Global,
    loader: &mut Loader,
    row: &LevelRow,
    nodes: &[usize],
) -> Result<Option<usize>, NoMemory>
    requires whole { IsLoader loader.old }
    requires parts { Each (λ p. p < length nodes.now) (row_parts row.now) }
    requires nodes { AllBelow (length loader.old.arena.shapes) nodes.now }
    ensures { IfOk result (λ answer. (ts : TheList Ty) → length nodes.now ≡ length ts → LoadedOn loader.old loader.new ts nodes.now OfTypes (type_meaning (made ts (level.Fields row.now))) answer) }
{
    let Some(part) = load_level_row(alloc, loader, row, nodes)? else {
        return Ok(None);
    };
    load_one(alloc, loader, Head::Fields, part).map(Some)
}

fn load_level_variant(
    alloc: Global,
    loader: &mut Loader,
    row: &LevelRow,
    nodes: &[usize],
) -> Result<Option<usize>, NoMemory>
    requires whole { IsLoader loader.old }
    requires parts { Each (λ p. p < length nodes.now) (row_parts row.now) }
    requires nodes { AllBelow (length loader.old.arena.shapes) nodes.now }
    ensures { IfOk result (λ answer. (ts : TheList Ty) → length nodes.now ≡ length ts → LoadedOn loader.old loader.new ts nodes.now OfTypes (type_meaning (made ts (level.Tags row.now))) answer) }
{
    let Some(part) = load_level_row(alloc, loader, row, nodes)? else {
        return Ok(None);
    };
    load_one(alloc, loader, Head::Tags, part).map(Some)
}

fn load_level_function(
    alloc: Global,
    loader: &mut Loader,
    params: &[u32],
    effects: &Effects,
    part: u32,
    nodes: &[usize],
) -> Result<Option<usize>, NoMemory>
    requires whole { IsLoader loader.old }
    requires part { part < length nodes.now }
    requires params { Each (λ p. p < length nodes.now) params.now }
    requires nodes { AllBelow (length loader.old.arena.shapes) nodes.now }
    ensures { IfOk result (λ answer. (ts : TheList Ty) → length nodes.now ≡ length ts → LoadedOn loader.old loader.new ts nodes.now OfTypes (type_meaning (made ts (level.Fun params.now effects.now part))) answer) }
{
    let others = nodes_at(alloc, params, nodes)?;
    let answer = nodes[part as usize];
    load_function(alloc, loader, effects, answer, others.as_slice())
}

/// A node for a level, where the levels before it have these nodes. None where its row has a label twice, or its effects one.
fn load_level(
    alloc: Global,
    loader: &mut Loader,
    level: &Level,
    nodes: &[usize],
) -> Result<Option<usize>, NoMemory>
    requires whole { IsLoader loader.old }
    requires parts { IsBelow (length nodes.now) level.now }
    requires nodes { AllBelow (length loader.old.arena.shapes) nodes.now }
    ensures { IfOk result (λ answer. (ts : TheList Ty) → length nodes.now ≡ length ts → LoadedOn loader.old loader.new ts nodes.now OfTypes (type_meaning (made ts level.now)) answer) }
{
    match level {
        Level::Int => load_base(alloc, loader, Head::Int).map(Some),
        Level::Bool => load_base(alloc, loader, Head::Bool).map(Some),
        Level::Text => load_base(alloc, loader, Head::Text).map(Some),
        Level::List(part) => {
            let part = nodes[*part as usize];
            load_one(alloc, loader, Head::List, part).map(Some)
        }
        Level::Fields(row) => load_level_record(alloc, loader, row, nodes),
        Level::Tags(row) => load_level_variant(alloc, loader, row, nodes),
        Level::Fun(params, effects, part) => {
            load_level_function(alloc, loader, params.as_slice(), effects, *part, nodes)
        }
        Level::Var(number) => load_variable(loader, Variable::Plain(*number)).map(Some),
    }
}

/// Makes a node for each level of a type. The answer is the node of the type, or none where a row in it has a label twice.
pub fn load_levels(
    alloc: Global,
    loader: &mut Loader,
    levels: &[Level],
    root: u32,
) -> Result<Option<usize>, NoMemory>
    requires whole { IsLoader loader.old }
    requires thin { IsThin levels.now root }
    ensures { IfOk result (λ answer. Loaded loader.old loader.new OfTypes (type_meaning (at (built levels.now) root)) answer) }
{
    let mut nodes = List::new(alloc);
    for level in levels {
        let Some(node) = load_level(alloc, loader, level, nodes.as_slice())? else {
            return Ok(None);
        };
        nodes.push(node)?;
    }
    Ok(Some(*nodes.at(root as usize)))
}
