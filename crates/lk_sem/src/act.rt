//! What a node does with the values of its parts.

ghost use Rattle.std.specs.Prelude.{IfOk};
ghost use Rattle.lk_ast.specs.Layers.{layer};
ghost use Rattle.lk_ast.specs.declared.expression.Node.{out-Node};
ghost use Rattle.lk_sem.specs.Acts.{IsAct};
ghost use Rattle.lk_evaluation.specs.Source.{act, choice, form};

use crate::calls::{apply_first, call, closure, function_value};
use crate::captures::{change, query};
use crate::cases::switch;
use crate::values::{after_unit, done, only, truth};
use lk_ast::{Base, Expr, List, Loc, NoMemory, Node, Span, Text, Trap, Value, copy_value};
use lk_index::Index;
use lk_locals::Locals;
use lk_operators::operate;
use std::alloc::Global;

/// What a node does: it has a value, goes on with another expression or with the body of a function of that mark, prints,
/// goes on with a body for each value, reads or writes tables, with what it captured or with the rows of an insertion, traps,
/// or has no rule.
#[derive(Drop)]
pub enum Act<'p> {
    Give(Value),
    Tail(&'p Expr, Locals<'p>),
    Goto(Loc, &'p Expr, Locals<'p>),
    Print(Text),
    Each(&'p str, List<Value>, &'p Expr, Locals<'p>),
    Read(List<Value>),
    Write(List<Value>),
    Fails(Trap),
    Lacks,
}

/// What the node does with the values of its parts.
pub fn act_of<'p>(
    alloc: Global,
    index: &Index<'p>,
    e: &'p Expr,
    scope: Locals<'p>,
    values: List<Value>,
) -> Result<Act<'p>, NoMemory>
    ensures { IfOk result (λ a. IsAct e.now.span a (act index.now e.now.span (layer e.now) scope.entry values)) }
{
    match e.node.get() {
        Node::Name(name) => match scope.get(name.as_str()) {
            Some(value) => Ok(Act::Give(copy_value(alloc, value)?)),
            None => Ok(Act::Lacks),
        },
        Node::Function(name) => Ok(function_value(alloc, index, e.span, name)),
        Node::Lambda(lambda) => closure(alloc, e.span, lambda, scope),
        Node::Call(name, _) => call(alloc, index, e.span, &name.text, values),
        Node::Apply(_, _) => apply_first(alloc, index, e.span, values),
        Node::Table(_) => Ok(Act::Read(List::new(alloc))),
        Node::Query(_, body) => query(alloc, body, scope),
        Node::Insert(_, _) => Ok(Act::Write(values)),
        Node::Update(rows) | Node::Delete(rows) => change(alloc, rows, scope),
        node => form(alloc, e.span, node, scope, values),
    }
}

/// What a form does with the value of its first part; `at` is the node's span.
fn form<'p>(
    alloc: Global,
    at: Span,
    node: &'p Node,
    scope: Locals<'p>,
    values: List<Value>,
) -> Result<Act<'p>, NoMemory>
    ensures { IfOk result (λ a. IsAct at a (form at (out-Node node.now) scope.entry values)) }
{
    match node {
        Node::Var(name, _, rest) => match only(values) {
            Some(value) => Ok(Act::Tail(rest, scope.bind(alloc, name.text.as_str(), value)?)),
            None => Ok(Act::Lacks),
        },
        Node::Seq(_, rest) => match only(values) {
            Some(value) => Ok(after_unit(at, &value, rest, scope)),
            None => Ok(Act::Lacks),
        },
        Node::Print(_) => match only(values) {
            Some(Value::Base(Base::Text(text))) => Ok(Act::Print(text)),
            _ => Ok(Act::Lacks),
        },
        Node::Switch(_, cases, last) => match only(values) {
            Some(value) => switch(alloc, at, value, cases.as_slice(), last, scope),
            None => Ok(Act::Lacks),
        },
        Node::ForList(name, _, body) | Node::ForTable(name, _, body) => match only(values) {
            Some(Value::List(items)) => Ok(Act::Each(name.text.as_str(), items, body, scope)),
            _ => Ok(Act::Lacks),
        },
        node => choice(alloc, at, node, scope, values),
    }
}

/// What a choice does with its truth value; `at` is the node's span.
fn choice<'p>(
    alloc: Global,
    at: Span,
    node: &'p Node,
    scope: Locals<'p>,
    values: List<Value>,
) -> Result<Act<'p>, NoMemory>
    ensures { IfOk result (λ a. IsAct at a (choice at (out-Node node.now) scope.entry values)) }
{
    match node {
        Node::If(_, then, other) => match only(values) {
            Some(Value::Base(Base::Bool(true))) => Ok(Act::Tail(then, scope)),
            Some(Value::Base(Base::Bool(false))) => Ok(Act::Tail(other, scope)),
            _ => Ok(Act::Lacks),
        },
        Node::And(_, right) => match only(values) {
            Some(Value::Base(Base::Bool(true))) => Ok(Act::Tail(right, scope)),
            Some(Value::Base(Base::Bool(false))) => Ok(Act::Give(truth(false))),
            _ => Ok(Act::Lacks),
        },
        Node::Or(_, right) => match only(values) {
            Some(Value::Base(Base::Bool(true))) => Ok(Act::Give(truth(true))),
            Some(Value::Base(Base::Bool(false))) => Ok(Act::Tail(right, scope)),
            _ => Ok(Act::Lacks),
        },
        Node::Where(_, body) => match only(values) {
            Some(Value::Base(Base::Bool(true))) => Ok(Act::Tail(body, scope)),
            Some(Value::Base(Base::Bool(false))) => Ok(Act::Give(Value::List(List::new(alloc)))),
            _ => Ok(Act::Lacks),
        },
        node => Ok(done(at, operate(alloc, node, values)?)),
    }
}
