//! What nodes do whose values need no values of other nodes but those of names.

ghost use Rattle.lk_ir.specs.Environments.{Env, lookup, lookup_all};
ghost use Rattle.lk_ir.specs.LetNormal.{act, closure, done, given, made, reach};
ghost use Rattle.lk_ir.specs.Operations.{is_plain};
ghost use Rattle.lk_ir.specs.Tables.{names_of as names_in, whole_at};
ghost use Rattle.lk_ir.specs.declared.nodes.Kind.TheVariants as kind;
ghost use Rattle.lk_machine.specs.Acts.{IsActOf};
ghost use Rattle.std.specs.Prelude.{◌≡◌, [], true, IfOk};

use crate::act::{Act, Node};
use crate::look::names_of;
use crate::scope::Scope;
use lk_ast::{FunValue, List, NoMemory, Value, copy_value};
use lk_ir::{Block, Kept, Kind, operate_op};
use lk_operators::Outcome;
use std::alloc::Global;

/// What a plain node does.
pub fn plain_act<'c>(alloc: Global, node: Node<'c>, scope: &Scope) -> Result<Act<'c>, NoMemory>
    ensures { IfOk result (λ a. is_plain node.entry.form.now.kind ≡ true → IsActOf node.entry scope.now a (act node.entry.forms.now node.entry.form.now.at node.entry.form.now.kind node.entry.form.now.tails scope.now [])) }
{
    match &node.form.kind {
        Kind::Op(op) => Ok(done(node, operate_op(alloc, op, List::new(alloc))?)),
        Kind::Name(name) => Ok(named(alloc, node, scope, *name)?),
        Kind::Function(i) => Ok(function_value(alloc, node, *i)),
        Kind::Lambda(label, names) => { Ok(closure(alloc, node, scope, *label, names.as_slice())?) }
        _ => Ok(Act::Lacks),
    }
}

/// What an operation comes to.
pub fn done<'c>(node: Node<'c>, outcome: Outcome) -> Act<'c>
    ensures { (names : Env) → IsActOf node.entry names result (done node.entry.form.now.at outcome) }
{
    match outcome {
        Outcome::Value(value) => Act::Give(value),
        Outcome::Trap(trap) => Act::Fails(trap),
        Outcome::NoRule => Act::Lacks,
    }
}

/// The value of a name.
pub fn named<'c>(
    alloc: Global,
    node: Node<'c>,
    scope: &Scope,
    name: u32,
) -> Result<Act<'c>, NoMemory>
    ensures { IfOk result (λ a. IsActOf node.entry scope.now a (given node.entry.form.now.at (lookup scope.now name))) }
{
    match scope.get(name) {
        Some(value) => Ok(Act::Give(copy_value(alloc, value)?)),
        None => Ok(Act::Lacks),
    }
}

/// The value of an instance.
pub fn function_value<'c>(alloc: Global, node: Node<'c>, i: u32) -> Act<'c>
    ensures { (names : Env) → IsActOf node.entry names result (made node.entry.form.now.at [] (whole_at node.entry.forms.now i)) }
{
    match node.forms.wholes.get(i as usize) {
        Some(label) => Act::Give(Value::Fun(FunValue {
            site: *label,
            env: List::new(alloc),
        })),
        None => Act::Lacks,
    }
}

/// The value of a lambda, with those of the names that it captures.
pub fn closure<'c>(
    alloc: Global,
    node: Node<'c>,
    scope: &Scope,
    label: u32,
    names: &[u32],
) -> Result<Act<'c>, NoMemory>
    ensures { IfOk result (λ a. IsActOf node.entry scope.now a (closure node.entry.form.now.at label (lookup_all scope.now names.now))) }
{
    match scope.copies(alloc, names)? {
        Some(env) => Ok(Act::Give(Value::Fun(FunValue { site: label, env }))),
        None => Ok(Act::Lacks),
    }
}

/// Asks for what has a label and reads or changes tables, with the values of what it captured, or with the rows of an insertion.
pub fn reach<'c>(
    alloc: Global,
    node: Node<'c>,
    block: Block,
    label: u32,
    kept: &[Kept],
    scope: &Scope,
    values: List<Value>,
) -> Result<Act<'c>, NoMemory>
    ensures { IfOk result (λ a. node.entry.form.now.kind ≡ kind.Reach block label kept.now → IsActOf node.entry scope.now a (reach node.entry.form.now.at block (lookup_all scope.now (names_in kept.now)) values)) }
{
    match block {
        Block::Insert => Ok(Act::Reach(block, label, values)),
        _ => {
            let names = names_of(alloc, kept)?;
            match scope.copies(alloc, names.as_slice())? {
                Some(args) => Ok(Act::Reach(block, label, args)),
                None => Ok(Act::Lacks),
            }
        }
    }
}
