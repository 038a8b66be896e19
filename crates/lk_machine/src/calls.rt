//! Calls of functions.

ghost use Rattle.lk_ast.specs.declared.value.FunValue.{FunValue as TheFunction};
ghost use Rattle.lk_ir.specs.Environments.{Env};
ghost use Rattle.lk_ir.specs.LetNormal.{apply, apply_first, call, entered};
ghost use Rattle.lk_ir.specs.Tables.{body_at as body_of_label, whole_at};
ghost use Rattle.lk_machine.specs.Acts.{IsActOf};
ghost use Rattle.std.specs.Prelude.{◌≡◌, [], Some};

use crate::act::{Act, Node};
use crate::look::body_at;
use crate::values::first;
use lk_ast::{FunValue, List, Value};
use std::alloc::Global;

/// A call of an instance.
pub fn call<'c>(alloc: Global, node: Node<'c>, i: u32, args: List<Value>) -> Act<'c>
    ensures { (names : Env) → IsActOf node.entry names result (call node.entry.forms.now node.entry.form.now.at args (whole_at node.entry.forms.now i)) }
{
    match node.forms.wholes.get(i as usize) {
        Some(label) => enter(node, *label, List::new(alloc), args),
        None => Act::Lacks,
    }
}

/// A call of the first value with the others.
pub fn apply_first<'c>(alloc: Global, node: Node<'c>, values: List<Value>) -> Act<'c>
    ensures { (names : Env) → IsActOf node.entry names result (apply_first node.entry.forms.now node.entry.form.now.at values) }
{
    let Some((function, args)) = first(values) else {
        return Act::Lacks;
    };
    match function {
        Value::Fun(f) => apply(alloc, node, f, args),
        _ => Act::Lacks,
    }
}

/// A call of a function by its value. An instance has no node and keeps nothing.
fn apply<'c>(alloc: Global, node: Node<'c>, f: FunValue, args: List<Value>) -> Act<'c>
    ensures { (names : Env) → IsActOf node.entry names result (apply node.entry.forms.now node.entry.form.now.at (Some f) args) }
{
    let FunValue { site, env } = f;
    match node.forms.labels.get(site as usize) {
        Some(label) => match label.node {
            Some(_) => enter(node, site, env, args),
            None => enter(node, site, List::new(alloc), args),
        },
        None => Act::Lacks,
    }
}

/// Goes to the body of what has this label, where there are as many arguments as parameters.
fn enter<'c>(node: Node<'c>, label: u32, env: List<Value>, args: List<Value>) -> Act<'c>
    ensures { (names : Env) → IsActOf node.entry names result (entered node.entry.form.now.at label env args (body_of_label node.entry.forms.now label)) }
{
    match body_at(node.forms, label) {
        Some(body) => {
            if body.params.len() == args.len() {
                Act::Goto(label, body, env, args)
            } else {
                Act::Lacks
            }
        }
        None => Act::Lacks,
    }
}
