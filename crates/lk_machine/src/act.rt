//! What a node does with the values of its positions.

ghost use Rattle.lk_ir.specs.LetNormal.{act};
ghost use Rattle.lk_machine.specs.Acts.{IsActOf};
ghost use Rattle.std.specs.Prelude.{IfOk};

use crate::calls::{apply_first, call};
use crate::cases::switch;
use crate::choices::{bind, choose, for_each, print, then_next};
use crate::plain::{closure, done, function_value, named, reach};
use crate::scope::Scope;
use lk_ast::{List, NoMemory, Text, Trap, Value};
use lk_ir::{Block, Body, Form, Forms, Kind, operate_op};
use std::alloc::Global;

/// What a node does: it has a value; goes on with another node; calls what has a label, by its body, with the values that are kept and
/// those that are passed; prints; goes on with a body under a name for each value; asks for what has a label and reads or changes tables;
/// traps; or has no rule.
#[derive(Drop)]
pub enum Act<'c> {
    Give(Value),
    Tail(u32, Scope),
    Goto(u32, &'c Body, List<Value>, List<Value>),
    Print(Text),
    Each(u32, u32, List<Value>, Scope),
    Reach(Block, u32, List<Value>),
    Fails(Trap),
    Lacks,
}

/// A node of a table.
#[derive(Clone, Copy)]
pub struct Node<'c> {
    pub forms: &'c Forms,
    pub form: &'c Form,
}

/// What the node does with the values of its positions.
pub fn act_of<'c>(
    alloc: Global,
    node: Node<'c>,
    scope: Scope,
    values: List<Value>,
) -> Result<Act<'c>, NoMemory>
    ensures { IfOk result (λ a. IsActOf node.entry scope a (act node.entry.forms.now node.entry.form.now.at node.entry.form.now.kind node.entry.form.now.tails scope values)) }
{
    let tails = node.form.tails.as_slice();
    match &node.form.kind {
        Kind::Op(op) => Ok(done(node, operate_op(alloc, op, values)?)),
        Kind::Name(name) => named(alloc, node, &scope, *name),
        Kind::Function(i) => Ok(function_value(alloc, node, *i)),
        Kind::Lambda(label, names) => closure(alloc, node, &scope, *label, names.as_slice()),
        Kind::Call(i) => Ok(call(alloc, node, *i, values)),
        Kind::Apply => Ok(apply_first(alloc, node, values)),
        Kind::Bind(name) => bind(node, *name, tails, scope, values),
        Kind::Then => Ok(then_next(node, tails, scope, values)),
        Kind::Choose(choice) => Ok(choose(alloc, node, *choice, tails, scope, values)),
        Kind::Print => Ok(print(node, values)),
        Kind::Switch(cases, last) => switch(node, cases.as_slice(), *last, tails, scope, values),
        Kind::For(name) => Ok(for_each(node, *name, scope, values)),
        Kind::Reach(block, label, kept) => {
            reach(alloc, node, *block, *label, kept.as_slice(), &scope, values)
        }
    }
}
