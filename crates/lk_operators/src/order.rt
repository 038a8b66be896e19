//! Equality and order of values.

ghost use Rattle.std.specs.Prelude.{◌≡◌, map};
ghost use Rattle.lk_operators.specs.Groups.{comparison_of};
ghost use Rattle.lk_operators.specs.Order.{all_pass, compared, holds, in_order, is_one_kind, same as same_value, same_fields as same_field};
ghost use Rattle.lk_operators.specs.Outcomes.{on_two};

use crate::outcome::Outcome;
use lk_ast::{Base, Field, Value, base_order};
use std::cmp::Ordering;

/// A comparison of two values.
#[derive(Clone, Copy)]
pub enum Test {
    Eq,
    Ne,
    Lt,
    Le,
    Gt,
    Ge,
}

/// A comparison, if there are two operands.
pub fn comparison(test: Test, values: &[Value]) -> Outcome
    ensures { result ≡ on_two (holds (comparison_of test)) values.now }
{
    match values {
        [v, w] => Outcome::Value(Value::Base(Base::Bool(compare(test, v, w)))),
        _ => Outcome::NoRule,
    }
}

fn compare(test: Test, v: &Value, w: &Value) -> bool
    ensures { result ≡ comparison_of test v.now w.now }
{
    match (test, v, w) {
        (Test::Eq, _, _) => same(v, w),
        (Test::Ne, _, _) => !same(v, w),
        (Test::Lt, Value::Base(a), Value::Base(b)) => one_kind(a, b) && base_order(a, b).is_lt(),
        (Test::Le, Value::Base(a), Value::Base(b)) => one_kind(a, b) && base_order(a, b).is_le(),
        (Test::Gt, Value::Base(a), Value::Base(b)) => one_kind(a, b) && base_order(a, b).is_gt(),
        (Test::Ge, Value::Base(a), Value::Base(b)) => one_kind(a, b) && base_order(a, b).is_ge(),
        _ => false,
    }
}

/// Whether both are integers, both truth values or both texts.
fn one_kind(a: &Base, b: &Base) -> bool
    ensures { result ≡ is_one_kind a.now b.now }
{
    match (a, b) {
        (Base::Int(_), Base::Int(_))
        | (Base::Bool(_), Base::Bool(_))
        | (Base::Text(_), Base::Text(_)) => true,
        _ => false,
    }
}

/// Whether two values are the same, part by part. A function is the same as nothing, itself included; `equal` of `lk_ast` is
/// equality of values.
#[cycle(same)]
pub fn same(a: &Value, b: &Value) -> bool
    ensures { result ≡ same_value a.now b.now }
{
    match (a, b) {
        (Value::Base(x), Value::Base(y)) => one_kind(x, y) && base_order(x, y).is_eq(),
        (Value::List(xs), Value::List(ys)) => same_values(xs.as_slice(), ys.as_slice()),
        (Value::Fields(xs), Value::Fields(ys)) => same_fields(xs.as_slice(), ys.as_slice()),
        (Value::Tag(s, x), Value::Tag(t, y)) => s.equals(t) && same(x.get(), y.get()),
        _ => false,
    }
}

#[cycle(same)]
fn same_values(xs: &[Value], ys: &[Value]) -> bool
    ensures { result ≡ all_pass (map same_value xs.now) ys.now }
{
    if xs.len() != ys.len() {
        return false;
    }
    for (i, x) in xs.iter().enumerate() {
        if !same(x, &ys[i]) {
            return false;
        }
    }
    true
}

#[cycle(same)]
fn same_fields(xs: &[Field], ys: &[Field]) -> bool
    ensures { result ≡ all_pass (map same_field xs.now) ys.now }
{
    if xs.len() != ys.len() {
        return false;
    }
    for (i, x) in xs.iter().enumerate() {
        let y = &ys[i];
        if !(x.label.equals(&y.label) && same(&x.value, &y.value)) {
            return false;
        }
    }
    true
}
