//! Types as nodes.

ghost use Rattle.std.specs.Prelude.{◌≡◌, ◌<◌, ◌∷◌, [], length, IfOk, Some};
ghost use Rattle.lk_types.specs.TypeText.{effect_word};
ghost use Rattle.lk_arena.specs.Kinds.{OfTypes, OfFields, OfEffects, OfUnit};
ghost use Rattle.lk_arena.specs.Openings.{unit_type};
ghost use Rattle.lk_arena.specs.Shapes.{AllBelow};
ghost use Rattle.lk_arena.specs.Values.{Plain};
ghost use Rattle.lk_unify.specs.Loading.{type_meaning, types_meaning, row_meaning, effects_meaning, end_value, shape_for, kind_for, kind_of, CanAddRow, IsLoader, Makes, AddsRow, AddsFunction, Loads, LoadsEnd, Loaded, LoadedAll, LoadedFields, effect_fields, node_for};

use crate::loader::{Loader, NodeKind};
use crate::shared::{add_node, are_closed, are_fields_closed, is_closed_node, make_end, make_node};
use lk_arena::{Field, Head, Shape, are_distinct};
use lk_ast::{List, NoMemory, Text};
use lk_types::{Effect, Effects, Ty, TyField, TyRow, Variable, effect_word};
use std::alloc::Global;

/// What is known of a variable before anything is merged.
fn shape_for(variable: Variable) -> Shape
    ensures { result ≡ shape_for variable }
{
    match variable {
        Variable::Plain(_) => Shape::Free,
        Variable::Row(_) => Shape::Open,
        Variable::Effects(_) => Shape::Open,
    }
}

/// A node for fields before a row, if no label stands twice among them.
pub fn add_row(
    alloc: Global,
    loader: &mut Loader,
    kind: NodeKind,
    fields: List<Field>,
    tail: usize,
) -> Result<Option<usize>, NoMemory>
    requires { CanAddRow loader.old fields tail }
    ensures { IfOk result (λ answer. AddsRow loader.old loader.new (kind_for kind) fields tail answer) }
{
    if are_distinct(alloc, fields.as_slice())? {
        return make_node(alloc, loader, kind, Shape::Row(fields, tail)).map(Some);
    }
    Ok(None)
}

/// The node of a variable.
pub fn load_variable(loader: &mut Loader, variable: Variable) -> Result<usize, NoMemory>
    requires { IsLoader loader.old }
    ensures loads { IfOk result (λ n. Loads loader.old loader.new (kind_of variable) (λ ρ. Some (end_value (Some variable) ρ)) n) }
    ensures named { IfOk result (λ n. node_for loader.new variable ≡ Some n) }
{
    match loader.node_for(variable) {
        Some(node) => Ok(node),
        None => {
            let node = add_node(loader, shape_for(variable))?;
            loader.names.insert(variable, node)?;
            Ok(node)
        }
    }
}

/// A node for the end of a row of this kind, which is shared where it is closed as all that stands before it.
pub fn load_end(
    alloc: Global,
    loader: &mut Loader,
    kind: NodeKind,
    tail: Option<Variable>,
    shared: bool,
) -> Result<usize, NoMemory>
    requires { IsLoader loader.old }
    ensures { IfOk result (λ n. LoadsEnd loader.old loader.new (kind_for kind) tail n) }
{
    match tail {
        None => make_end(alloc, loader, kind, shared),
        Some(variable) => load_variable(loader, variable),
    }
}

/// The name of an effect as a label.
pub fn label_of(alloc: Global, effect: Effect) -> Result<Text, NoMemory>
    ensures { IfOk result (λ label. label ≡ effect_word effect) }
{
    Text::from_str(alloc, effect_word(effect))
}

/// The effects as fields.
fn effect_fields(alloc: Global, effects: &[Effect], unit: usize) -> Result<List<Field>, NoMemory>
    ensures { IfOk result (λ fields. fields ≡ effect_fields unit effects.now) }
{
    let mut fields = List::new(alloc);
    for effect in effects {
        fields.push(Field {
            label: label_of(alloc, *effect)?,
            node: unit,
        })?;
    }
    Ok(fields)
}

/// One part.
fn one(alloc: Global, node: usize) -> Result<List<usize>, NoMemory>
    ensures { IfOk result (λ parts. parts ≡ node ∷ []) }
{
    let mut parts = List::new(alloc);
    parts.push(node)?;
    Ok(parts)
}

/// The parts of a function.
fn function_parts(
    alloc: Global,
    effects: usize,
    answer: usize,
    params: &[usize],
) -> Result<List<usize>, NoMemory>
    ensures { IfOk result (λ parts. parts ≡ effects ∷ (answer ∷ params.now)) }
{
    let mut parts = List::new(alloc);
    parts.push(effects)?;
    parts.push(answer)?;
    for node in params {
        parts.push(*node)?;
    }
    Ok(parts)
}

/// A node for the type `()` that an effect stands with.
fn load_unit(alloc: Global, loader: &mut Loader) -> Result<usize, NoMemory>
    requires { IsLoader loader.old }
    ensures { IfOk result (λ n. Loads loader.old loader.new OfUnit (λ ρ. Some (Plain unit_type)) n) }
{
    let nothing = make_node(alloc, loader, NodeKind::Nothing, Shape::Empty)?;
    let parts = one(alloc, nothing)?;
    make_node(
        alloc,
        loader,
        NodeKind::Unit,
        Shape::Made(Head::Fields, parts),
    )
}

/// A node for what a function may do.
fn load_effects(
    alloc: Global,
    loader: &mut Loader,
    effects: &Effects,
    shared: bool,
) -> Result<Option<usize>, NoMemory>
    requires { IsLoader loader.old }
    ensures { IfOk result (λ answer. Loaded loader.old loader.new OfEffects (effects_meaning effects.now) answer) }
{
    let tail = load_end(
        alloc,
        loader,
        NodeKind::Effects,
        effects.tail.of_effects(),
        shared,
    )?;
    if effects.labels.is_empty() {
        return Ok(Some(tail));
    }
    let unit = load_unit(alloc, loader)?;
    let fields = effect_fields(alloc, effects.labels.as_slice(), unit)?;
    add_row(alloc, loader, NodeKind::Effects, fields, tail)
}

/// A node for a constructor without parts.
pub fn load_base(alloc: Global, loader: &mut Loader, head: Head) -> Result<usize, NoMemory>
    requires { IsLoader loader.old }
    ensures { IfOk result (λ n. Makes loader.old loader.new OfTypes (Shape.Made head []) n) }
{
    let parts = List::new(alloc);
    make_node(alloc, loader, NodeKind::Types, Shape::Made(head, parts))
}

/// A node for a constructor with one part.
pub fn load_one(
    alloc: Global,
    loader: &mut Loader,
    head: Head,
    part: usize,
) -> Result<usize, NoMemory>
    requires whole { IsLoader loader.old }
    requires part { part < length loader.old.arena.shapes }
    ensures { IfOk result (λ n. Makes loader.old loader.new OfTypes (Shape.Made head (part ∷ [])) n) }
{
    let parts = one(alloc, part)?;
    make_node(alloc, loader, NodeKind::Types, Shape::Made(head, parts))
}

/// A node for a function with this result and these parameters.
pub fn load_function(
    alloc: Global,
    loader: &mut Loader,
    effects: &Effects,
    answer: usize,
    params: &[usize],
) -> Result<Option<usize>, NoMemory>
    requires whole { IsLoader loader.old }
    requires answer { answer < length loader.old.arena.shapes }
    requires params { AllBelow (length loader.old.arena.shapes) params.now }
    ensures { IfOk result (λ found. AddsFunction loader.old loader.new effects.now answer params.now found) }
{
    let shared = is_closed_node(loader, answer) && are_closed(loader, params);
    let Some(first) = load_effects(alloc, loader, effects, shared)? else {
        return Ok(None);
    };
    let parts = function_parts(alloc, first, answer, params)?;
    make_node(
        alloc,
        loader,
        NodeKind::Types,
        Shape::Made(Head::Fun, parts),
    )
    .map(Some)
}

/// Makes nodes for a type. The answer is its node, or none where a row in it has a label twice.
#[cycle(loading)]
pub fn load_type(alloc: Global, loader: &mut Loader, ty: &Ty) -> Result<Option<usize>, NoMemory>
    requires { IsLoader loader.old }
    ensures { IfOk result (λ answer. Loaded loader.old loader.new OfTypes (type_meaning ty.now) answer) }
{
    match ty {
        Ty::Int => load_base(alloc, loader, Head::Int).map(Some),
        Ty::Bool => load_base(alloc, loader, Head::Bool).map(Some),
        Ty::Text => load_base(alloc, loader, Head::Text).map(Some),
        Ty::List(item) => load_list(alloc, loader, item.get()),
        Ty::Fields(row) => load_record(alloc, loader, row),
        Ty::Tags(row) => load_variant(alloc, loader, row),
        Ty::Fun(params, effects, answer) => {
            let Some(second) = load_type(alloc, loader, answer.get())? else {
                return Ok(None);
            };
            let Some(others) = load_types(alloc, loader, params.as_slice())? else {
                return Ok(None);
            };
            load_function(alloc, loader, effects, second, others.as_slice())
        }
        Ty::Var(number) => load_variable(loader, Variable::Plain(*number)).map(Some),
    }
}

#[cycle(loading)]
fn load_list(alloc: Global, loader: &mut Loader, item: &Ty) -> Result<Option<usize>, NoMemory>
    requires { IsLoader loader.old }
    ensures { IfOk result (λ answer. Loaded loader.old loader.new OfTypes (type_meaning (Ty.List item.now)) answer) }
{
    let Some(part) = load_type(alloc, loader, item)? else {
        return Ok(None);
    };
    load_one(alloc, loader, Head::List, part).map(Some)
}

#[cycle(loading)]
fn load_record(alloc: Global, loader: &mut Loader, row: &TyRow) -> Result<Option<usize>, NoMemory>
    requires { IsLoader loader.old }
    ensures { IfOk result (λ answer. Loaded loader.old loader.new OfTypes (type_meaning (Ty.Fields row.now)) answer) }
{
    let Some(part) = load_row(alloc, loader, row)? else {
        return Ok(None);
    };
    load_one(alloc, loader, Head::Fields, part).map(Some)
}

#[cycle(loading)]
fn load_variant(alloc: Global, loader: &mut Loader, row: &TyRow) -> Result<Option<usize>, NoMemory>
    requires { IsLoader loader.old }
    ensures { IfOk result (λ answer. Loaded loader.old loader.new OfTypes (type_meaning (Ty.Tags row.now)) answer) }
{
    let Some(part) = load_row(alloc, loader, row)? else {
        return Ok(None);
    };
    load_one(alloc, loader, Head::Tags, part).map(Some)
}

#[cycle(loading)]
fn load_types(
    alloc: Global,
    loader: &mut Loader,
    types: &[Ty],
) -> Result<Option<List<usize>>, NoMemory>
    requires { IsLoader loader.old }
    ensures { IfOk result (λ answer. LoadedAll loader.old loader.new (types_meaning types.now) answer) }
{
    let mut nodes = List::new(alloc);
    for ty in types {
        let Some(node) = load_type(alloc, loader, ty)? else {
            return Ok(None);
        };
        nodes.push(node)?;
    }
    Ok(Some(nodes))
}

/// Makes nodes for a row.
#[cycle(loading)]
fn load_row(alloc: Global, loader: &mut Loader, row: &TyRow) -> Result<Option<usize>, NoMemory>
    requires { IsLoader loader.old }
    ensures { IfOk result (λ answer. Loaded loader.old loader.new OfFields (row_meaning row.now) answer) }
{
    let Some(fields) = load_fields(alloc, loader, row.fields.as_slice())? else {
        return Ok(None);
    };
    let shared = are_fields_closed(loader, &fields);
    let tail = load_end(alloc, loader, NodeKind::Fields, row.tail.of_row(), shared)?;
    if fields.is_empty() {
        return Ok(Some(tail));
    }
    add_row(alloc, loader, NodeKind::Fields, fields, tail)
}

#[cycle(loading)]
fn load_fields(
    alloc: Global,
    loader: &mut Loader,
    fields: &[TyField],
) -> Result<Option<List<Field>>, NoMemory>
    requires { IsLoader loader.old }
    ensures { IfOk result (λ answer. LoadedFields loader.old loader.new fields.now answer) }
{
    let mut found = List::new(alloc);
    for field in fields {
        let Some(node) = load_type(alloc, loader, &field.ty)? else {
            return Ok(None);
        };
        found.push(Field {
            label: field.label.copy(alloc)?,
            node,
        })?;
    }
    Ok(Some(found))
}
