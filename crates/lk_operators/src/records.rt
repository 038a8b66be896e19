//! Records, and tags.

ghost use Rattle.std.specs.Prelude.{◌≡◌, ◌++◌, IfOk, OnOk, bytes_eq, find};
ghost use Rattle.lk_operators.specs.Outcomes.{on_one};
ghost use Rattle.lk_operators.specs.Records.{extended, labelled as labelled_values, new_record, project as project_value, record_of, tag as tag_value, value_under as value_in};

use crate::entries::Entries;
use crate::operands::one;
use crate::outcome::Outcome;
use lk_ast::{Boxed, Field, List, NoMemory, PartExpr, Text, Value};
use std::alloc::Global;

/// `(l = e, ..)`.
pub fn record(alloc: Global, parts: &[PartExpr], values: List<Value>) -> Result<Outcome, NoMemory>
    ensures { IfOk result (λ outcome. outcome ≡ new_record parts.now values) }
{
    if parts.len() != values.len() {
        return Ok(Outcome::NoRule);
    }
    let mut fields = List::new(alloc);
    label(alloc, &mut fields, parts, values)?;
    record_with(alloc, fields)
}

/// `(l = e, .. | r)`.
#[tactic(auto, using(crate::proofs::LastValue::extended_record))]
pub fn extend(
    alloc: Global,
    parts: &[PartExpr],
    mut values: List<Value>,
) -> Result<Outcome, NoMemory>
    ensures { IfOk result (λ outcome. outcome ≡ extended parts.now values) }
{
    let last = values.pop();
    if parts.len() != values.len() {
        return Ok(Outcome::NoRule);
    }
    match last {
        Some(Value::Fields(mut known)) => {
            label(alloc, &mut known, parts, values)?;
            record_with(alloc, known)
        }
        _ => Ok(Outcome::NoRule),
    }
}

/// More fields: the first value under the first part's label, and so on.
fn label(
    alloc: Global,
    fields: &mut List<Field>,
    parts: &[PartExpr],
    values: List<Value>,
) -> Result<(), NoMemory>
    ensures { OnOk result (fields.new ≡ fields.old ++ labelled_values parts.now values) }
{
    let mut rest = parts;
    for value in values.into_vec() {
        let Some((part, others)) = rest.split_first() else {
            return Ok(());
        };
        let label = part.label.text.copy(alloc)?;
        fields.push(Field { label, value })?;
        rest = others;
    }
    Ok(())
}

/// The record with these fields, unless a label comes twice.
pub fn record_with(alloc: Global, fields: List<Field>) -> Result<Outcome, NoMemory>
    ensures { IfOk result (λ outcome. outcome ≡ record_of fields) }
{
    let count = fields.len();
    let entries = Entries::from_fields(alloc, fields)?;
    if entries.len() == count {
        let fields = entries.into_fields(alloc)?;
        Ok(Outcome::Value(Value::Fields(fields)))
    } else {
        Ok(Outcome::NoRule)
    }
}

/// `e.l`.
pub fn project(label: &Text, values: List<Value>) -> Outcome
    ensures { result ≡ on_one (project_value label.now) values }
{
    match one(values) {
        Some(Value::Fields(fields)) => match value_under(label, fields) {
            Some(value) => Outcome::Value(value),
            None => Outcome::NoRule,
        },
        _ => Outcome::NoRule,
    }
}

/// The value of the first field with that label.
fn value_under(label: &Text, fields: List<Field>) -> Option<Value>
    ensures { result ≡ value_in label.now fields }
{
    match find(label, fields) {
        Some(field) => {
            let (_, value) = field.into_parts();
            Some(value)
        }
        None => None,
    }
}

/// `T(e)`.
pub fn tag(alloc: Global, tag: &Text, values: List<Value>) -> Result<Outcome, NoMemory>
    ensures { IfOk result (λ outcome. outcome ≡ on_one (tag_value tag.now) values) }
{
    match one(values) {
        Some(value) => {
            let tag = tag.copy(alloc)?;
            Ok(Outcome::Value(Value::Tag(tag, Boxed::new(alloc, value)?)))
        }
        None => Ok(Outcome::NoRule),
    }
}

/// The first field with that label.
fn find(label: &Text, fields: List<Field>) -> Option<Field>
    ensures { result ≡ find (λ f. bytes_eq f.label label.now) fields }
{
    fields
        .into_vec()
        .into_iter()
        .find(|field| field.label.equals(label))
}
