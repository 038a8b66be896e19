//! Values and small lists.

ghost use Rattle.lk_machine.specs.Acts.{first_of, only_of, two_of};
ghost use Rattle.lk_operators.specs.Values.{list_in, truth as truth_value, unit as unit_value};
ghost use Rattle.std.specs.Prelude.{◌≡◌, ◌++◌, IfOk, reverse};

use lk_ast::{Base, List, NoMemory, Value};
use std::alloc::Global;

/// The one value of a list.
pub fn only(values: List<Value>) -> Option<Value>
    ensures { result ≡ only_of values }
{
    let mut values = values.into_vec();
    let last = values.pop();
    if values.is_empty() { last } else { None }
}

/// The one number of a list.
pub fn one(numbers: &[u32]) -> Option<u32>
    ensures { result ≡ only_of numbers.now }
{
    if numbers.len() == 1 {
        Some(numbers[0])
    } else {
        None
    }
}

/// The two numbers of a list.
pub fn two(numbers: &[u32]) -> Option<(u32, u32)>
    ensures { result ≡ two_of numbers.now }
{
    if numbers.len() == 2 {
        Some((numbers[0], numbers[1]))
    } else {
        None
    }
}

/// The first value of a list, and the others.
pub fn first(values: List<Value>) -> Option<(Value, List<Value>)>
    ensures { result ≡ first_of values }
{
    let mut values = values.into_vec();
    if values.is_empty() {
        None
    } else {
        let first = values.remove(0);
        Some((first, List::from_vec(values)))
    }
}

/// A truth value.
pub fn truth(truth: bool) -> Value
    ensures { result ≡ truth_value truth }
{
    Value::Base(Base::Bool(truth))
}

/// The unit value.
pub fn unit(alloc: Global) -> Value
    ensures { result ≡ unit_value }
{
    Value::Fields(List::new(alloc))
}

/// The values of a list value.
pub fn list_of(value: Value) -> Option<List<Value>>
    ensures { result ≡ list_in value }
{
    match value {
        Value::List(values) => Some(values),
        _ => None,
    }
}

/// A list in the other order.
pub fn reversed(values: List<Value>) -> List<Value>
    ensures { result ≡ reverse values }
{
    let mut values = values.into_vec();
    values.reverse();
    List::from_vec(values)
}

/// One list behind another.
pub fn joined(values: List<Value>, more: List<Value>) -> Result<List<Value>, NoMemory>
    ensures { IfOk result (λ all. all ≡ values ++ more) }
{
    let mut values = values.into_vec();
    let mut more = more.into_vec();
    values.append(&mut more)?;
    Ok(List::from_vec(values))
}
