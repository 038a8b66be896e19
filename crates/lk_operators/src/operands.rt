//! Operands by their number.

ghost use Rattle.std.specs.Prelude.{◌≡◌};
ghost use Rattle.lk_operators.specs.Outcomes.{only, pair};

use lk_ast::{List, Value};

/// The one value of a list.
pub fn one(values: List<Value>) -> Option<Value>
    ensures { result ≡ only values }
{
    let mut values = values.into_vec();
    let last = values.pop();
    if values.is_empty() { last } else { None }
}

/// The two values of a list.
pub fn two(values: List<Value>) -> Option<(Value, Value)>
    ensures { result ≡ pair values }
{
    let mut values = values.into_vec();
    match (values.pop(), values.pop()) {
        (Some(second), Some(first)) if values.is_empty() => Some((first, second)),
        _ => None,
    }
}
