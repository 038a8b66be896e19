//! The parts that there are, one behind the other.

ghost use Rattle.lk_ast.specs.declared.table.Base.TheVariants as base;
ghost use Rattle.lk_bodies.specs.Walk.{add, bound, choice, emptiness, equality, extended, first_labels, inequality, labelled as labelled_by, local, never, table};
ghost use Rattle.lk_bodies.specs.Walked.{made_of, state_of};
ghost use Rattle.lk_query.specs.declared.part.Part.TheVariants as part;
ghost use Rattle.lk_typing.specs.Names.{named};
ghost use Rattle.std.specs.Prelude.{◌≡◌, [], IfOk, map};

use crate::shapes::{columns_of, element_columns, labels};
use crate::walk::Walked;
use lk_ast::{Base, List, NoMemory, PartExpr, Text, Word};
use lk_equations::Scope;
use lk_ground_types::{is_base, is_list};
use lk_query::{Labelled, Part};
use lk_sql::SqlOp;
use lk_types::Ground;
use std::alloc::Global;

/// One more part, and its number.
pub fn add(walked: &mut Walked, part: Part) -> Result<u32, NoMemory>
    ensures { IfOk result (λ number. made_of number walked.new ≡ add part (state_of walked.old)) }
{
    let number = u32::try_from(walked.parts.len()).map_err(|_| NoMemory)?;
    walked.parts.push(part)?;
    Ok(number)
}

/// The part of what never stands in a query.
pub fn never(walked: &mut Walked) -> Result<u32, NoMemory>
    ensures { IfOk result (λ number. made_of number walked.new ≡ never [] (state_of walked.old)) }
{
    add(walked, Part::Lit(Base::Int(0)))
}

/// The part of a text.
pub fn literal_text(alloc: Global, text: &Text, walked: &mut Walked) -> Result<u32, NoMemory>
    ensures { IfOk result (λ number. made_of number walked.new ≡ add (part.Lit (base.Text text.now)) (state_of walked.old)) }
{
    add(walked, Part::Lit(Base::Text(text.copy(alloc)?)))
}

/// The labels of the first type's columns.
fn first_labels(alloc: Global, types: &[Ground]) -> Result<List<Text>, NoMemory>
    ensures { IfOk result (λ labels. labels ≡ first_labels types.now) }
{
    match types.first() {
        None => Ok(List::new(alloc)),
        Some(ty) => labels(alloc, columns_of(alloc, ty)?),
    }
}

/// A choice of things of the first type.
pub fn choice(alloc: Global, types: &[Ground], c: u32, a: u32, b: u32) -> Result<Part, NoMemory>
    ensures { IfOk result (λ part. part ≡ choice types.now c a b) }
{
    match types.first() {
        None => Ok(Part::Case(c, a, b)),
        Some(ty) => {
            if is_base(ty) {
                Ok(Part::Case(c, a, b))
            } else if is_list(ty) {
                Ok(Part::If(c, a, b))
            } else {
                let labels = labels(alloc, columns_of(alloc, ty)?)?;
                Ok(Part::IfRow(labels, c, a, b))
            }
        }
    }
}

/// Whether two things of the first type are equal.
pub fn equality(alloc: Global, types: &[Ground], a: u32, b: u32) -> Result<Part, NoMemory>
    ensures { IfOk result (λ part. part ≡ equality types.now a b) }
{
    match types.first() {
        None => Ok(Part::Two(SqlOp::Eq, a, b)),
        Some(ty) => {
            if is_base(ty) {
                Ok(Part::Two(SqlOp::Eq, a, b))
            } else {
                let labels = labels(alloc, columns_of(alloc, ty)?)?;
                Ok(Part::EqRows(labels, a, b))
            }
        }
    }
}

/// Whether two things of the first type differ.
pub fn inequality(
    alloc: Global,
    types: &[Ground],
    a: u32,
    b: u32,
    walked: &mut Walked,
) -> Result<u32, NoMemory>
    ensures { IfOk result (λ number. made_of number walked.new ≡ inequality types.now a b (state_of walked.old)) }
{
    match types.first() {
        None => add(walked, Part::Two(SqlOp::Ne, a, b)),
        Some(ty) => {
            if is_base(ty) {
                add(walked, Part::Two(SqlOp::Ne, a, b))
            } else {
                let labels = labels(alloc, columns_of(alloc, ty)?)?;
                let equal = add(walked, Part::EqRows(labels, a, b))?;
                add(walked, Part::One(SqlOp::Not, equal))
            }
        }
    }
}

/// Whether a list of the first type is empty.
pub fn emptiness(alloc: Global, types: &[Ground], list: u32) -> Result<Part, NoMemory>
    ensures { IfOk result (λ part. part ≡ emptiness types.now list) }
{
    match types.first() {
        None => Ok(Part::Empty(List::new(alloc), list)),
        Some(ty) => Ok(Part::Empty(element_columns(alloc, ty)?, list)),
    }
}

/// A table whose rows are a list of the first type.
pub fn table(alloc: Global, types: &[Ground], name: &Text) -> Result<Part, NoMemory>
    ensures { IfOk result (λ part. part ≡ table types.now name.now) }
{
    let name = name.copy(alloc)?;
    match types.first() {
        None => Ok(Part::Table(name, List::new(alloc))),
        Some(ty) => {
            let labels = labels(alloc, element_columns(alloc, ty)?)?;
            Ok(Part::Table(name, labels))
        }
    }
}

/// The part of a table whose rows are a list of the first type.
pub fn table_of(
    alloc: Global,
    types: &[Ground],
    name: &Text,
    walked: &mut Walked,
) -> Result<u32, NoMemory>
    ensures { IfOk result (λ number. made_of number walked.new ≡ add (table types.now name.now) (state_of walked.old)) }
{
    add(walked, table(alloc, types, name)?)
}

/// The fields of `l = e, m = d` with their parts.
pub fn labelled(
    alloc: Global,
    fields: &[PartExpr],
    numbers: &[u32],
) -> Result<List<Labelled>, NoMemory>
    ensures { IfOk result (λ items. items ≡ labelled_by (map (λ field. field.label.text) fields.now) numbers.now) }
{
    let mut items = List::new(alloc);
    let mut left = numbers;
    for field in fields {
        let [part, others @ ..] = left else {
            return Ok(items);
        };
        let label = field.label.text.copy(alloc)?;
        items.push(Labelled { label, part: *part })?;
        left = others;
    }
    Ok(items)
}

/// The record of a first type with these fields before the rest.
pub fn extended(
    alloc: Global,
    own: &[Ground],
    items: &[PartExpr],
    numbers: &[u32],
    rest: u32,
    walked: &mut Walked,
) -> Result<u32, NoMemory>
    ensures { IfOk result (λ number. made_of number walked.new ≡ add (extended own.now (map (λ item. item.label.text) items.now) numbers.now rest) (state_of walked.old)) }
{
    let labels = first_labels(alloc, own)?;
    let items = labelled(alloc, items, numbers)?;
    add(walked, Part::Extend(labels, items, rest))
}

/// The part of a name.
pub fn local(name: &Text, names: &Scope<u32>, walked: &mut Walked) -> Result<u32, NoMemory>
    ensures { IfOk result (λ number. made_of number walked.new ≡ local (named name.now names.now) (state_of walked.old)) }
{
    match names.get(name.as_str()) {
        Some(number) => Ok(*number),
        None => never(walked),
    }
}

/// The names of parameters that stand for these parts, as many as there are of both.
pub fn bound<'p>(
    alloc: Global,
    params: &'p [Word],
    numbers: &[u32],
) -> Result<Scope<'p, u32>, NoMemory>
    ensures { IfOk result (λ names. names ≡ bound [] params.now numbers.now) }
{
    let mut names = Scope::new(alloc);
    let mut left = numbers;
    for param in params {
        let [number, others @ ..] = left else {
            return Ok(names);
        };
        names.push(param.text.as_str(), *number)?;
        left = others;
    }
    Ok(names)
}
