//! How long pieces of SQL are as texts.

ghost use Rattle.lk_sql.specs.Text.{base_text, generator_text, name_text, quoted, sign};
ghost use Rattle.std.specs.Fmt.{decimal};
ghost use Rattle.std.specs.Prelude.{◌≡◌, ◌+◌, IfOk, flat_map, length};

use lk_ast::{Base, NoMemory, Text};
use lk_sql::SqlOp;
use std::alloc::Global;

/// What stands before one operand, or between two.
pub fn sign_length(op: SqlOp) -> u64
    ensures { result ≡ length (sign op) }
{
    match op {
        SqlOp::Add => 3,
        SqlOp::Sub => 3,
        SqlOp::Mul => 3,
        SqlOp::Neg => 2,
        SqlOp::Concat => 4,
        SqlOp::Eq => 3,
        SqlOp::Ne => 4,
        SqlOp::Lt => 3,
        SqlOp::Le => 4,
        SqlOp::Gt => 3,
        SqlOp::Ge => 4,
        SqlOp::And => 5,
        SqlOp::Or => 4,
        SqlOp::Not => 4,
    }
}

/// A number in decimal.
pub fn number_length(alloc: Global, number: u32) -> Result<u64, NoMemory>
    ensures { IfOk result (λ n. n ≡ length (decimal number)) }
{
    let digits = format!(in alloc; "{number}")?;
    Ok(digits.len() as u64)
}

/// A literal.
pub fn base_length(alloc: Global, base: &Base) -> Result<u64, NoMemory>
    ensures { IfOk result (λ n. n ≡ length (base_text base.now)) }
{
    match base {
        Base::Int(number) => {
            let digits = format!(in alloc; "{number}")?;
            Ok(digits.len() as u64)
        }
        Base::Bool(true) => Ok(4),
        Base::Bool(false) => Ok(5),
        Base::Text(literal) => {
            let inner = doubled_length(literal.as_str().as_bytes())?;
            Ok(inner.checked_add(2).ok_or(NoMemory)?)
        }
    }
}

/// A text in which each apostrophe stands twice.
fn doubled_length(bytes: &[u8]) -> Result<u64, NoMemory>
    ensures { IfOk result (λ n. n ≡ length (flat_map quoted bytes.now)) }
{
    let mut total = 0u64;
    for byte in bytes {
        total = total.checked_add(quoted_length(*byte)).ok_or(NoMemory)?;
    }
    Ok(total)
}

/// An apostrophe stands twice.
fn quoted_length(byte: u8) -> u64
    ensures { result ≡ length (quoted byte) }
{
    if byte == 39 { 2 } else { 1 }
}

/// A name between quotes.
pub fn name_length(name: &Text) -> Result<u64, NoMemory>
    ensures { IfOk result (λ n. n ≡ length (name_text name.now)) }
{
    Ok((name.len() as u64).checked_add(2).ok_or(NoMemory)?)
}

/// The name of a generator.
pub fn generator_length(alloc: Global, number: u32) -> Result<u64, NoMemory>
    ensures { IfOk result (λ n. n ≡ length (generator_text number)) }
{
    Ok(
        number_length(alloc, number)?
            .checked_add(1)
            .ok_or(NoMemory)?,
    )
}
