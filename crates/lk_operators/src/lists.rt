//! Lists, and texts put together.

ghost use Rattle.std.specs.Prelude.{◌≡◌, IfOk};
ghost use Rattle.lk_operators.specs.Lists.{append as append_values, concat as concat_values, cons as cons_values, empty as empty_value, head as head_value, tail as tail_value};
ghost use Rattle.lk_operators.specs.Outcomes.{on_one, on_two};

use crate::operands::{one, two};
use crate::outcome::Outcome;
use lk_ast::{Base, List, NoMemory, Trap, Value};

/// `a ^^ b`.
pub fn concat(values: List<Value>) -> Result<Outcome, NoMemory>
    ensures { IfOk result (λ outcome. outcome ≡ on_two concat_values values) }
{
    let Some((v, w)) = two(values) else {
        return Ok(Outcome::NoRule);
    };
    match (v, w) {
        (Value::Base(Base::Text(mut text)), Value::Base(Base::Text(more))) => {
            text.push(more.as_str())?;
            Ok(Outcome::Value(Value::Base(Base::Text(text))))
        }
        _ => Ok(Outcome::NoRule),
    }
}

/// `a ++ b`.
pub fn append(values: List<Value>) -> Result<Outcome, NoMemory>
    ensures { IfOk result (λ outcome. outcome ≡ on_two append_values values) }
{
    let Some((v, w)) = two(values) else {
        return Ok(Outcome::NoRule);
    };
    match (v, w) {
        (Value::List(items), Value::List(more)) => {
            let mut items = items.into_vec();
            items.append(&mut more.into_vec())?;
            Ok(Outcome::Value(Value::List(List::from_vec(items))))
        }
        _ => Ok(Outcome::NoRule),
    }
}

/// `a :: b`.
pub fn cons(values: List<Value>) -> Result<Outcome, NoMemory>
    ensures { IfOk result (λ outcome. outcome ≡ on_two cons_values values) }
{
    let Some((first, rest)) = two(values) else {
        return Ok(Outcome::NoRule);
    };
    match rest {
        Value::List(items) => {
            let mut items = items.into_vec();
            items.insert(0, first)?;
            Ok(Outcome::Value(Value::List(List::from_vec(items))))
        }
        _ => Ok(Outcome::NoRule),
    }
}

/// `hd(e)`.
pub fn head(values: List<Value>) -> Outcome
    ensures { result ≡ on_one head_value values }
{
    match one(values) {
        Some(Value::List(items)) => {
            let mut items = items.into_vec();
            if items.is_empty() {
                Outcome::Trap(Trap::Head)
            } else {
                Outcome::Value(items.swap_remove(0))
            }
        }
        _ => Outcome::NoRule,
    }
}

/// `tl(e)`.
pub fn tail(values: List<Value>) -> Outcome
    ensures { result ≡ on_one tail_value values }
{
    match one(values) {
        Some(Value::List(items)) => {
            let mut items = items.into_vec();
            if items.is_empty() {
                Outcome::Trap(Trap::Tail)
            } else {
                items.remove(0);
                Outcome::Value(Value::List(List::from_vec(items)))
            }
        }
        _ => Outcome::NoRule,
    }
}

/// `empty(e)`.
pub fn empty(values: &[Value]) -> Outcome
    ensures { result ≡ on_one empty_value values.now }
{
    match values {
        [Value::List(items)] => Outcome::Value(Value::Base(Base::Bool(items.is_empty()))),
        _ => Outcome::NoRule,
    }
}
