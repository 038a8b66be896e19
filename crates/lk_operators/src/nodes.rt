//! Nodes by their operators.

ghost use Rattle.std.specs.Prelude.{◌≡◌, IfOk};
ghost use Rattle.lk_ast.specs.declared.expression.Node.{out-Node};
ghost use Rattle.lk_operators.specs.Operators.{negation, operated};
ghost use Rattle.lk_operators.specs.Outcomes.{on_none, on_one};
ghost use Rattle.lk_operators.specs.Values.{text};
ghost use Rattle.lk_operators.specs.declared.outcome.Outcome.TheVariants as outcome;

use crate::numbers::{self, Operation};
use crate::order::{self, Test};
use crate::outcome::Outcome;
use crate::{lists, records};
use lk_ast::{Base, List, NoMemory, Node, Text, Value};
use std::alloc::Global;

/// What a node comes to with the values of its parts, in text order.
pub fn operate(alloc: Global, node: &Node, values: List<Value>) -> Result<Outcome, NoMemory>
    ensures { IfOk result (λ outcome. outcome ≡ operated (out-Node node.now) values) }
{
    match node {
        Node::Int(number) => Ok(literal(Value::Base(Base::Int(*number)), values)),
        Node::Text(bytes) => text(alloc, bytes, values),
        Node::Bool(truth) => Ok(literal(Value::Base(Base::Bool(*truth)), values)),
        Node::List(_) => Ok(Outcome::Value(Value::List(values))),
        Node::Concat(_, _) => lists::concat(values),
        Node::Append(_, _) => lists::append(values),
        Node::Cons(_, _) => lists::cons(values),
        Node::Add(_, _) => Ok(numbers::arithmetic(Operation::Add, values.as_slice())),
        Node::Sub(_, _) => Ok(numbers::arithmetic(Operation::Sub, values.as_slice())),
        Node::Mul(_, _) => Ok(numbers::arithmetic(Operation::Mul, values.as_slice())),
        Node::Div(_, _) => Ok(numbers::arithmetic(Operation::Div, values.as_slice())),
        Node::Mod(_, _) => Ok(numbers::arithmetic(Operation::Mod, values.as_slice())),
        Node::Eq(_, _) => Ok(order::comparison(Test::Eq, values.as_slice())),
        Node::Ne(_, _) => Ok(order::comparison(Test::Ne, values.as_slice())),
        Node::Lt(_, _) => Ok(order::comparison(Test::Lt, values.as_slice())),
        Node::Le(_, _) => Ok(order::comparison(Test::Le, values.as_slice())),
        Node::Gt(_, _) => Ok(order::comparison(Test::Gt, values.as_slice())),
        Node::Ge(_, _) => Ok(order::comparison(Test::Ge, values.as_slice())),
        Node::Neg(_) => Ok(numbers::negate(values.as_slice())),
        Node::Not(_) => Ok(negation(values.as_slice())),
        Node::Hd(_) => Ok(lists::head(values)),
        Node::Tl(_) => Ok(lists::tail(values)),
        Node::Empty(_) => Ok(lists::empty(values.as_slice())),
        Node::IntToString(_) => numbers::int_to_string(alloc, values.as_slice()),
        Node::Record(parts) => records::record(alloc, parts.as_slice(), values),
        Node::Extend(parts, _) => records::extend(alloc, parts.as_slice(), values),
        Node::Project(_, label) => Ok(records::project(&label.text, values)),
        Node::Tag(tag, _) => records::tag(alloc, &tag.text, values),
        Node::Name(_)
        | Node::Function(_)
        | Node::Lambda(_)
        | Node::Call(_, _)
        | Node::Apply(_, _)
        | Node::Var(_, _, _)
        | Node::Seq(_, _)
        | Node::If(_, _, _)
        | Node::And(_, _)
        | Node::Or(_, _)
        | Node::Print(_)
        | Node::Switch(_, _, _)
        | Node::ForList(_, _, _)
        | Node::ForTable(_, _, _)
        | Node::Table(_)
        | Node::Where(_, _)
        | Node::Query(_, _)
        | Node::Insert(_, _)
        | Node::Update(_)
        | Node::Delete(_) => Ok(Outcome::NoRule),
    }
}

/// A node without parts.
fn literal(value: Value, values: List<Value>) -> Outcome
    ensures { result ≡ on_none (outcome.Value value) values }
{
    if values.is_empty() {
        Outcome::Value(value)
    } else {
        Outcome::NoRule
    }
}

/// A text literal.
fn text(alloc: Global, bytes: &Text, values: List<Value>) -> Result<Outcome, NoMemory>
    ensures { IfOk result (λ made. made ≡ on_none (outcome.Value (text bytes.now)) values) }
{
    let bytes = bytes.copy(alloc)?;
    Ok(literal(Value::Base(Base::Text(bytes)), values))
}

/// `not(e)`.
pub fn negation(values: &[Value]) -> Outcome
    ensures { result ≡ on_one negation values.now }
{
    match values {
        [Value::Base(Base::Bool(truth))] => Outcome::Value(Value::Base(Base::Bool(!*truth))),
        _ => Outcome::NoRule,
    }
}
