//! What operations give on bases.

ghost use Rattle.lk_sql.specs.Operations.{equality, operation};
ghost use Rattle.std.specs.Prelude.{◌≡◌, [], ◌∷◌, ◌++◌, IfOk};

use crate::cells::{number, order_of, text, truth};
use lk_ast::{Base, NoMemory, Text};
use lk_sql::SqlOp;
use std::alloc::Global;
use std::cmp::Ordering;

/// An operation on one base.
pub fn on_one(op: SqlOp, a: &Base) -> Base
    ensures { result ≡ operation op (a.now ∷ []) }
{
    match op {
        SqlOp::Neg => Base::Int(number(a).wrapping_neg()),
        SqlOp::Not => Base::Bool(!truth(a)),
        SqlOp::Add => Base::Int(0),
        SqlOp::Sub => Base::Int(0),
        SqlOp::Mul => Base::Int(0),
        SqlOp::Concat => Base::Int(0),
        SqlOp::Eq => Base::Int(0),
        SqlOp::Ne => Base::Int(0),
        SqlOp::Lt => Base::Int(0),
        SqlOp::Le => Base::Int(0),
        SqlOp::Gt => Base::Int(0),
        SqlOp::Ge => Base::Int(0),
        SqlOp::And => Base::Int(0),
        SqlOp::Or => Base::Int(0),
    }
}

/// An operation on two bases.
pub fn on_two(alloc: Global, op: SqlOp, a: &Base, b: &Base) -> Result<Base, NoMemory>
    ensures { IfOk result (λ base. base ≡ operation op (a.now ∷ b.now ∷ [])) }
{
    match op {
        SqlOp::Concat => joined(alloc, text(a), text(b)),
        SqlOp::Add => Ok(Base::Int(number(a).wrapping_add(number(b)))),
        SqlOp::Sub => Ok(Base::Int(number(a).wrapping_sub(number(b)))),
        SqlOp::Mul => Ok(Base::Int(number(a).wrapping_mul(number(b)))),
        SqlOp::Eq => Ok(Base::Bool(order_of(a, b).is_eq())),
        SqlOp::Ne => Ok(Base::Bool(!order_of(a, b).is_eq())),
        SqlOp::Lt => Ok(Base::Bool(order_of(a, b).is_lt())),
        SqlOp::Le => Ok(Base::Bool(order_of(a, b).is_le())),
        SqlOp::Gt => Ok(Base::Bool(order_of(a, b).is_gt())),
        SqlOp::Ge => Ok(Base::Bool(order_of(a, b).is_ge())),
        SqlOp::And => Ok(Base::Bool(truth(a) & truth(b))),
        SqlOp::Or => Ok(Base::Bool(truth(a) | truth(b))),
        SqlOp::Neg => Ok(Base::Int(0)),
        SqlOp::Not => Ok(Base::Int(0)),
    }
}

/// Two texts put together.
fn joined(alloc: Global, a: &str, b: &str) -> Result<Base, NoMemory>
    ensures { IfOk result (λ base. base ≡ Base.Text (a.now ++ b.now)) }
{
    let mut text = Text::new(alloc);
    text.push(a)?;
    text.push(b)?;
    Ok(Base::Text(text))
}
