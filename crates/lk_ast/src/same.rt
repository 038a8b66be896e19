//! Equality of values, and the order of bases.

ghost use Rattle.std.specs.Prelude.{◌≡◌, IsTrue, ◌↔◌};
ghost use Rattle.lk_ast.specs.BaseOrder.{base_cmp, IsOneKind};

use crate::table::Base;
use crate::value::{Field, Value};
use std::cmp::Ordering;

/// The order of two bases of one kind: integers by number, false before true, texts by their bytes.
pub fn base_order(a: &Base, b: &Base) -> Ordering
    requires { IsOneKind a.now b.now }
    ensures { result ≡ base_cmp a.now b.now }
{
    match (a, b) {
        (Base::Int(x), Base::Int(y)) => x.cmp(y),
        (Base::Bool(x), Base::Bool(y)) => x.cmp(y),
        (Base::Text(x), Base::Text(y)) => x.as_str().cmp(y.as_str()),
        _ => unreachable!(),
    }
}

/// Whether both are the same value, functions included: those are the same where they were made at one place in the
/// text over the same values. The language's own `==` is `same` of `lk_operators`, of which a function is the same as nothing.
#[cycle(equals)]
pub fn equal(a: &Value, b: &Value) -> bool
    ensures { IsTrue result ↔ (a.now ≡ b.now) }
{
    match (a, b) {
        (Value::Base(x), Value::Base(y)) => equal_bases(x, y),
        (Value::List(xs), Value::List(ys)) => equal_values(xs.as_slice(), ys.as_slice()),
        (Value::Fields(xs), Value::Fields(ys)) => equal_fields(xs.as_slice(), ys.as_slice()),
        (Value::Tag(s, x), Value::Tag(t, y)) => s.equals(t) && equal(x.get(), y.get()),
        (Value::Fun(f), Value::Fun(g)) => {
            f.site == g.site && equal_values(f.env.as_slice(), g.env.as_slice())
        }
        _ => false,
    }
}

fn equal_bases(a: &Base, b: &Base) -> bool
    ensures { IsTrue result ↔ (a.now ≡ b.now) }
{
    match (a, b) {
        (Base::Int(x), Base::Int(y)) => *x == *y,
        (Base::Bool(x), Base::Bool(y)) => *x == *y,
        (Base::Text(x), Base::Text(y)) => x.equals(y),
        _ => false,
    }
}

#[cycle(equals)]
fn equal_values(xs: &[Value], ys: &[Value]) -> bool
    ensures { IsTrue result ↔ (xs.now ≡ ys.now) }
{
    if xs.len() != ys.len() {
        return false;
    }
    for (i, x) in xs.iter().enumerate() {
        if !equal(x, &ys[i]) {
            return false;
        }
    }
    true
}

#[cycle(equals)]
fn equal_fields(xs: &[Field], ys: &[Field]) -> bool
    ensures { IsTrue result ↔ (xs.now ≡ ys.now) }
{
    if xs.len() != ys.len() {
        return false;
    }
    for (i, x) in xs.iter().enumerate() {
        let y = &ys[i];
        if !(x.label.equals(&y.label) && equal(&x.value, &y.value)) {
            return false;
        }
    }
    true
}
