//! `switch`.

ghost use Rattle.lk_ir.specs.LetNormal.{act, in_case, in_cases};
ghost use Rattle.lk_ir.specs.declared.nodes.Kind.TheVariants as kind;
ghost use Rattle.lk_machine.specs.Acts.{IsActOf};
ghost use Rattle.lk_operators.specs.Values.{tagged};
ghost use Rattle.std.specs.Prelude.{[], IfOk};

use crate::act::{Act, Node};
use crate::choices::after_unit;
use crate::scope::Scope;
use crate::values::only;
use lk_ast::{Boxed, List, NoMemory, Text, Value};
use lk_ir::CaseForm;

/// Goes on with the case of a value's tag, or with the last one.
pub fn switch<'c>(
    node: Node<'c>,
    cases: &[CaseForm],
    last: Option<u32>,
    tails: &[u32],
    scope: Scope,
    values: List<Value>,
) -> Result<Act<'c>, NoMemory>
    ensures { IfOk result (λ a. IsActOf node.entry scope a (act node.entry.forms.now node.entry.form.now.at (kind.Switch cases.now last) tails.now scope values)) }
{
    match only(values) {
        Some(Value::Tag(tag, held)) => { in_cases(node, tag, held, cases, last, tails, scope) }
        _ => Ok(Act::Lacks),
    }
}

/// Goes on with the first case of this tag, each beside its tail, or with the last one, which binds the whole value.
fn in_cases<'c>(
    node: Node<'c>,
    tag: Text,
    held: Boxed<Value>,
    cases: &[CaseForm],
    last: Option<u32>,
    tails: &[u32],
    scope: Scope,
) -> Result<Act<'c>, NoMemory>
    ensures { IfOk result (λ a. IsActOf node.entry scope a (in_cases node.entry.form.now.at (tagged tag held) tag held cases.now last tails.now scope)) }
{
    let mut left = tails;
    for case in cases {
        let Some((tail, behind)) = left.split_first() else {
            return Ok(Act::Lacks);
        };
        if case.tag.equals(&tag) {
            return in_case(node, case.name, *tail, held.into_inner(), scope);
        }
        left = behind;
    }
    Ok(last_case(node, tag, held, last, left, scope)?)
}

/// Goes on with the last case, under its name for the whole value, where there is one and a tail is left.
fn last_case<'c>(
    node: Node<'c>,
    tag: Text,
    held: Boxed<Value>,
    last: Option<u32>,
    tails: &[u32],
    scope: Scope,
) -> Result<Act<'c>, NoMemory>
    ensures { IfOk result (λ a. IsActOf node.entry scope a (in_cases node.entry.form.now.at (tagged tag held) tag held [] last tails.now scope)) }
{
    let Some(name) = last else {
        return Ok(Act::Lacks);
    };
    match tails {
        [] => Ok(Act::Lacks),
        [tail, ..] => Ok(Act::Tail(*tail, scope.bind(name, Value::Tag(tag, held))?)),
    }
}

/// Goes on with a case, for what the tag holds.
fn in_case<'c>(
    node: Node<'c>,
    name: Option<u32>,
    body: u32,
    held: Value,
    scope: Scope,
) -> Result<Act<'c>, NoMemory>
    ensures { IfOk result (λ a. IsActOf node.entry scope a (in_case node.entry.form.now.at name body held scope)) }
{
    match name {
        Some(name) => Ok(Act::Tail(body, scope.bind(name, held)?)),
        None => Ok(after_unit(node, &held, body, scope)),
    }
}
