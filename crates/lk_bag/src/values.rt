//! Values of names and of operations, and what stands in values.

ghost use Rattle.lk_ast.specs.declared.expression.Node.{out-Node};
ghost use Rattle.lk_bag.specs.Bag.{items, value_of};
ghost use Rattle.lk_bag.specs.Change.{is_true};
ghost use Rattle.lk_locals.specs.Names.{lookup};
ghost use Rattle.lk_operators.specs.Operators.{operated};
ghost use Rattle.lk_operators.specs.Values.{bool_in, unit};
ghost use Rattle.std.specs.Prelude.{◌≡◌, IfOk, unwrap_or};

use lk_ast::{Base, List, NoMemory, Node, Text, Value, copy_value};
use lk_locals::Locals;
use lk_operators::{Outcome, operate};
use std::alloc::Global;

/// The value of a name.
#[inline(never)]
pub fn named(alloc: Global, name: &Text, names: &Locals) -> Result<Value, NoMemory>
    ensures { IfOk result (λ value. value ≡ unwrap_or (lookup names.now name.now) unit) }
{
    match names.get(name.as_str()) {
        Some(value) => copy_value(alloc, value),
        None => Ok(unit_value(alloc)),
    }
}

/// What a node gives with the values of its parts.
#[inline(never)]
pub fn done(alloc: Global, node: &Node, values: List<Value>) -> Result<Value, NoMemory>
    ensures { IfOk result (λ value. value ≡ value_of (operated (out-Node node.now) values)) }
{
    match operate(alloc, node, values)? {
        Outcome::Value(value) => Ok(value),
        Outcome::Trap(_) => Ok(unit_value(alloc)),
        Outcome::NoRule => Ok(unit_value(alloc)),
    }
}

/// The unit value.
pub fn unit_value(alloc: Global) -> Value
    ensures { result ≡ unit }
{
    Value::Fields(List::new(alloc))
}

/// Whether a value is `true`.
pub fn is_true(value: &Value) -> bool
    ensures { result ≡ is_true (bool_in value.now) }
{
    match value {
        Value::Base(Base::Bool(truth)) => *truth,
        _ => false,
    }
}

/// The elements of a list, and none of another value.
pub fn items_of(alloc: Global, value: Value) -> List<Value>
    ensures { result ≡ items value }
{
    match value {
        Value::List(elements) => elements,
        _ => List::new(alloc),
    }
}
