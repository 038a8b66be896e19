//! Integers.

ghost use Rattle.std.specs.Prelude.{◌≡◌, IfOk};
ghost use Rattle.lk_operators.specs.Groups.{arithmetic_of};
ghost use Rattle.lk_operators.specs.Numbers.{negate, int_to_string as string_of};
ghost use Rattle.lk_operators.specs.Outcomes.{both, on_one, on_two};
ghost use Rattle.lk_operators.specs.Values.{int, int_in};
ghost use Rattle.lk_operators.specs.declared.outcome.Outcome.TheVariants as outcome;

use crate::outcome::Outcome;
use lk_ast::{Base, NoMemory, Text, Trap, Value};
use std::alloc::Global;

/// An operation on two integers.
#[derive(Clone, Copy)]
pub enum Operation {
    Add,
    Sub,
    Mul,
    Div,
    Mod,
}

/// An operation on two integers, if the operands are that.
pub fn arithmetic(operation: Operation, values: &[Value]) -> Outcome
    ensures { result ≡ on_two (both int_in (arithmetic_of operation)) values.now }
{
    match values {
        [Value::Base(Base::Int(m)), Value::Base(Base::Int(n))] => calculate(operation, *m, *n),
        _ => Outcome::NoRule,
    }
}

fn calculate(operation: Operation, m: i64, n: i64) -> Outcome
    ensures { result ≡ arithmetic_of operation m n }
{
    match operation {
        Operation::Add => int(m.wrapping_add(n)),
        Operation::Sub => int(m.wrapping_sub(n)),
        Operation::Mul => int(m.wrapping_mul(n)),
        Operation::Div if n == 0 => Outcome::Trap(Trap::Divide),
        Operation::Div => int(m.wrapping_div(n)),
        Operation::Mod if n == 0 => Outcome::Trap(Trap::Divide),
        Operation::Mod => int(m.wrapping_rem(n)),
    }
}

fn int(number: i64) -> Outcome
    ensures { result ≡ outcome.Value (int number) }
{
    Outcome::Value(Value::Base(Base::Int(number)))
}

/// `-e`.
pub fn negate(values: &[Value]) -> Outcome
    ensures { result ≡ on_one negate values.now }
{
    match values {
        [Value::Base(Base::Int(number))] => int(number.wrapping_neg()),
        _ => Outcome::NoRule,
    }
}

/// The decimal text of an integer.
pub fn int_to_string(alloc: Global, values: &[Value]) -> Result<Outcome, NoMemory>
    ensures { IfOk result (λ outcome. outcome ≡ on_one string_of values.now) }
{
    match values {
        [Value::Base(Base::Int(number))] => {
            let text = Text::from_string(format!(in alloc; "{number}")?);
            Ok(Outcome::Value(Value::Base(Base::Text(text))))
        }
        _ => Ok(Outcome::NoRule),
    }
}
