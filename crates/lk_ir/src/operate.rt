//! Operations of nodes.

ghost use Rattle.std.specs.Prelude.{◌≡◌, ◌++◌, IfOk, OnOk};
ghost use Rattle.lk_ir.specs.Operations.{applied, holes};
ghost use Rattle.lk_operators.specs.Outcomes.{on_none};
ghost use Rattle.lk_operators.specs.Records.{extended, labelled, new_record};
ghost use Rattle.lk_operators.specs.Values.{text};
ghost use Rattle.lk_operators.specs.declared.outcome.Outcome.TheVariants as outcome;

use crate::nodes::Op;
use lk_ast::{Base, Field, List, NoMemory, Text, Value};
use lk_operators::{
    Operation, Outcome, Test, append, arithmetic, comparison, concat, cons, empty, head,
    int_to_string, negate, negation, project, record_with, tag, tail,
};
use std::alloc::Global;

/// What an operation comes to on the values of its operands.
pub fn operate_op(alloc: Global, op: &Op, values: List<Value>) -> Result<Outcome, NoMemory>
    ensures { IfOk result (λ outcome. outcome ≡ applied op.now values) }
{
    match op {
        Op::Int(number) => Ok(literal(Value::Base(Base::Int(*number)), values)),
        Op::Text(bytes) => text(alloc, bytes, values),
        Op::Bool(truth) => Ok(literal(Value::Base(Base::Bool(*truth)), values)),
        Op::List => Ok(Outcome::Value(Value::List(values))),
        Op::Concat => concat(values),
        Op::Append => append(values),
        Op::Cons => cons(values),
        Op::Add => Ok(arithmetic(Operation::Add, values.as_slice())),
        Op::Sub => Ok(arithmetic(Operation::Sub, values.as_slice())),
        Op::Mul => Ok(arithmetic(Operation::Mul, values.as_slice())),
        Op::Div => Ok(arithmetic(Operation::Div, values.as_slice())),
        Op::Mod => Ok(arithmetic(Operation::Mod, values.as_slice())),
        Op::Eq => Ok(comparison(Test::Eq, values.as_slice())),
        Op::Ne => Ok(comparison(Test::Ne, values.as_slice())),
        Op::Lt => Ok(comparison(Test::Lt, values.as_slice())),
        Op::Le => Ok(comparison(Test::Le, values.as_slice())),
        Op::Gt => Ok(comparison(Test::Gt, values.as_slice())),
        Op::Ge => Ok(comparison(Test::Ge, values.as_slice())),
        Op::Neg => Ok(negate(values.as_slice())),
        Op::Not => Ok(negation(values.as_slice())),
        Op::Hd => Ok(head(values)),
        Op::Tl => Ok(tail(values)),
        Op::Empty => Ok(empty(values.as_slice())),
        Op::IntToString => int_to_string(alloc, values.as_slice()),
        Op::Record(labels) => record(alloc, labels.as_slice(), values),
        Op::Extend(labels) => extend(alloc, labels.as_slice(), values),
        Op::Project(label) => Ok(project(label, values)),
        Op::Tag(name) => tag(alloc, name, values),
    }
}

/// A literal, which has no operands.
fn literal(value: Value, values: List<Value>) -> Outcome
    ensures { result ≡ on_none (outcome.Value value) values }
{
    if values.is_empty() {
        Outcome::Value(value)
    } else {
        Outcome::NoRule
    }
}

/// A text literal.
fn text(alloc: Global, bytes: &Text, values: List<Value>) -> Result<Outcome, NoMemory>
    ensures { IfOk result (λ made. made ≡ on_none (outcome.Value (text bytes.now)) values) }
{
    let bytes = bytes.copy(alloc)?;
    Ok(literal(Value::Base(Base::Text(bytes)), values))
}

/// `(l = e, ..)`, by the labels of its parts.
#[tactic(auto, using(crate::proofs::Labelled::long_holes))]
fn record(alloc: Global, labels: &[Text], values: List<Value>) -> Result<Outcome, NoMemory>
    ensures { IfOk result (λ outcome. outcome ≡ new_record (holes labels.now) values) }
{
    if labels.len() != values.len() {
        return Ok(Outcome::NoRule);
    }
    let mut fields = List::new(alloc);
    label(alloc, &mut fields, labels, values)?;
    record_with(alloc, fields)
}

/// `(l = e, .. | r)`, by the labels of its parts.
#[tactic(auto, using(crate::proofs::Labelled::extended_by_labels, crate::proofs::Labelled::long_holes))]
fn extend(alloc: Global, labels: &[Text], mut values: List<Value>) -> Result<Outcome, NoMemory>
    ensures { IfOk result (λ outcome. outcome ≡ extended (holes labels.now) values) }
{
    let last = values.pop();
    if labels.len() != values.len() {
        return Ok(Outcome::NoRule);
    }
    match last {
        Some(Value::Fields(mut known)) => {
            label(alloc, &mut known, labels, values)?;
            record_with(alloc, known)
        }
        _ => Ok(Outcome::NoRule),
    }
}

/// More fields: the first value under the first label, and so on.
fn label(
    alloc: Global,
    fields: &mut List<Field>,
    labels: &[Text],
    values: List<Value>,
) -> Result<(), NoMemory>
    ensures { OnOk result (fields.new ≡ fields.old ++ labelled (holes labels.now) values) }
{
    let mut rest = labels;
    for value in values.into_vec() {
        let Some((first, others)) = rest.split_first() else {
            return Ok(());
        };
        let label = first.copy(alloc)?;
        fields.push(Field { label, value })?;
        rest = others;
    }
    Ok(())
}
