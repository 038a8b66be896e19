//! What nodes do that go on with their tails.

ghost use Rattle.lk_ir.specs.LetNormal.{act, after_unit as after_value, chosen, under};
ghost use Rattle.lk_ir.specs.declared.nodes.Kind.TheVariants as kind;
ghost use Rattle.lk_evaluation.specs.Evaluation.{Tail};
ghost use Rattle.lk_machine.specs.Acts.{IsActOf};
ghost use Rattle.lk_operators.specs.Values.{is_unit};
ghost use Rattle.std.specs.Prelude.{◌≡◌, IfOk, Some};

use crate::act::{Act, Node};
use crate::scope::Scope;
use crate::values::{one, only, truth, two};
use lk_ast::{Base, List, NoMemory, Value};
use lk_ir::Choice;
use std::alloc::Global;

/// Goes on under one more name.
pub fn bind<'c>(
    node: Node<'c>,
    name: u32,
    tails: &[u32],
    scope: Scope,
    values: List<Value>,
) -> Result<Act<'c>, NoMemory>
    ensures { IfOk result (λ a. IsActOf node.entry scope a (act node.entry.forms.now node.entry.form.now.at (kind.Bind name) tails.now scope values)) }
{
    match (one(tails), only(values)) {
        (Some(rest), Some(value)) => Ok(Act::Tail(rest, scope.bind(name, value)?)),
        _ => Ok(Act::Lacks),
    }
}

/// Goes on behind the unit value.
pub fn then_next<'c>(node: Node<'c>, tails: &[u32], scope: Scope, values: List<Value>) -> Act<'c>
    ensures { IsActOf node.entry scope result (act node.entry.forms.now node.entry.form.now.at kind.Then tails.now scope values) }
{
    match (one(tails), only(values)) {
        (Some(rest), Some(value)) => after_unit(node, &value, rest, scope),
        _ => Act::Lacks,
    }
}

/// Goes on with what follows where this is the unit value.
pub fn after_unit<'c>(node: Node<'c>, value: &Value, rest: u32, scope: Scope) -> Act<'c>
    ensures { IsActOf node.entry scope result (after_value node.entry.form.now.at (is_unit value.now) (Tail (under scope rest))) }
{
    match value {
        Value::Fields(fields) if fields.is_empty() => Act::Tail(rest, scope),
        _ => Act::Lacks,
    }
}

/// Prints a text.
pub fn print<'c>(node: Node<'c>, values: List<Value>) -> Act<'c>
    ensures { (tails : _) (scope : _) → IsActOf node.entry scope result (act node.entry.forms.now node.entry.form.now.at kind.Print tails scope values) }
{
    match only(values) {
        Some(Value::Base(Base::Text(text))) => Act::Print(text),
        _ => Act::Lacks,
    }
}

/// Goes on with a body for each element.
pub fn for_each<'c>(node: Node<'c>, name: u32, scope: Scope, values: List<Value>) -> Act<'c>
    ensures { node.entry.form.now.kind ≡ kind.For name → IsActOf node.entry scope result (act node.entry.forms.now node.entry.form.now.at (kind.For name) node.entry.form.now.tails scope values) }
{
    match (one(node.form.tails.as_slice()), only(values)) {
        (Some(body), Some(Value::List(items))) => Act::Each(name, body, items, scope),
        _ => Act::Lacks,
    }
}

/// Goes on by a truth value.
pub fn choose<'c>(
    alloc: Global,
    node: Node<'c>,
    choice: Choice,
    tails: &[u32],
    scope: Scope,
    values: List<Value>,
) -> Act<'c>
    ensures { IsActOf node.entry scope result (act node.entry.forms.now node.entry.form.now.at (kind.Choose choice) tails.now scope values) }
{
    match only(values) {
        Some(Value::Base(Base::Bool(truth))) => chosen(alloc, node, choice, truth, tails, scope),
        _ => Act::Lacks,
    }
}

/// Goes on with the tail of a truth value, or has a value at once.
fn chosen<'c>(
    alloc: Global,
    node: Node<'c>,
    choice: Choice,
    is_true: bool,
    tails: &[u32],
    scope: Scope,
) -> Act<'c>
    ensures { IsActOf node.entry scope result (chosen node.entry.form.now.at choice (Some is_true) tails.now scope) }
{
    match choice {
        Choice::If => match two(tails) {
            Some((then, other)) => Act::Tail(if is_true { then } else { other }, scope),
            None => Act::Lacks,
        },
        Choice::And => match one(tails) {
            Some(right) if is_true => Act::Tail(right, scope),
            Some(_) => Act::Give(truth(false)),
            None => Act::Lacks,
        },
        Choice::Or => match one(tails) {
            Some(_) if is_true => Act::Give(truth(true)),
            Some(right) => Act::Tail(right, scope),
            None => Act::Lacks,
        },
        Choice::Where => match one(tails) {
            Some(body) if is_true => Act::Tail(body, scope),
            Some(_) => Act::Give(Value::List(List::new(alloc))),
            None => Act::Lacks,
        },
    }
}
