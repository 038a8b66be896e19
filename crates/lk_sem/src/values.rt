//! Acts that the values of a node's parts decide.

ghost use Rattle.std.specs.Prelude.{◌≡◌};
ghost use Rattle.lk_operators.specs.Values.{is_unit, truth as truth_value};
ghost use Rattle.lk_sem.specs.Acts.{IsAct, only_of, first_of};
ghost use Rattle.lk_evaluation.specs.Evaluation.{Tail};
ghost use Rattle.lk_evaluation.specs.Source.{done, under, after_unit as after_value};

use crate::act::Act;
use lk_ast::{Base, Expr, List, Span, Value};
use lk_locals::Locals;
use lk_operators::Outcome;

/// The one value of a list.
pub fn only(values: List<Value>) -> Option<Value>
    ensures { result ≡ only_of values }
{
    let mut values = values.into_vec();
    let last = values.pop();
    if values.is_empty() { last } else { None }
}

/// The first value of a list, and the others.
pub fn first(values: List<Value>) -> Option<(Value, List<Value>)>
    ensures { result ≡ first_of values }
{
    let mut values = values.into_vec();
    if values.is_empty() {
        None
    } else {
        let first = values.remove(0);
        Some((first, List::from_vec(values)))
    }
}

/// A truth value.
pub fn truth(truth: bool) -> Value
    ensures { result ≡ truth_value truth }
{
    Value::Base(Base::Bool(truth))
}

/// What an operation on values comes to; `at` is the node's span.
pub fn done<'p>(at: Span, outcome: Outcome) -> Act<'p>
    ensures { IsAct at result (done at outcome) }
{
    match outcome {
        Outcome::Value(value) => Act::Give(value),
        Outcome::Trap(trap) => Act::Fails(trap),
        Outcome::NoRule => Act::Lacks,
    }
}

/// Goes on with what follows where this is the unit value; `at` is the node's span.
pub fn after_unit<'p>(at: Span, value: &Value, rest: &'p Expr, scope: Locals<'p>) -> Act<'p>
    ensures { IsAct at result (after_value at (is_unit value.now) (Tail (under scope.entry rest.now))) }
{
    match value {
        Value::Fields(fields) if fields.is_empty() => Act::Tail(rest, scope),
        _ => Act::Lacks,
    }
}
