//! Scalars and the selects inside them.

ghost use Rattle.lk_sql.specs.Text.{from_text, froms_text, operation_text, output_text, scalar_text, select_text, selects_text, sign};
ghost use Rattle.std.specs.List.{join_by};
ghost use Rattle.std.specs.Prelude.{◌≡◌, ◌++◌, OnOk, codes, map};

use crate::literals::{write_base, write_generator, write_name, write_number};
use lk_ast::{NoMemory, Text};
use lk_sql::{FromItem, Out, Scalar, Select, SqlOp};
use std::alloc::Global;

/// `:1`, `t1."l"`, `(a + b)` and so on.
#[cycle(texts)]
#[tactic(auto, using(crate::proofs::Lists::texts_both, lk_sql::proofs::TextForms::scalar_lit, lk_sql::proofs::TextForms::scalar_param, lk_sql::proofs::TextForms::scalar_column, lk_sql::proofs::TextForms::scalar_op, lk_sql::proofs::TextForms::scalar_case, lk_sql::proofs::TextForms::scalar_exists))]
fn write_scalar(alloc: Global, text: &mut Text, scalar: &Scalar) -> Result<(), NoMemory>
    ensures { OnOk result (text.new ≡ text.old ++ scalar_text scalar.now) }
{
    match scalar {
        Scalar::Lit(base) => write_base(alloc, text, base),
        Scalar::Param(number) => {
            text.push(":")?;
            write_number(alloc, text, *number)
        }
        Scalar::Column(number, label) => {
            write_generator(alloc, text, *number)?;
            text.push(".")?;
            write_name(text, label)
        }
        Scalar::Op(op, operands) => write_operation(alloc, text, *op, operands.as_slice()),
        Scalar::Case(condition, then, other) => {
            text.push("(CASE WHEN ")?;
            write_scalar(alloc, text, condition.get())?;
            text.push(" THEN ")?;
            write_scalar(alloc, text, then.get())?;
            text.push(" ELSE ")?;
            write_scalar(alloc, text, other.get())?;
            text.push(" END)")
        }
        Scalar::Exists(selects) => {
            text.push("(EXISTS (")?;
            write_selects(alloc, text, selects.as_slice())?;
            text.push("))")
        }
    }
}

/// `(- a)`, `(a + b)`.
#[cycle(texts)]
#[tactic(auto, using(crate::proofs::Lists::texts_both, lk_sql::proofs::TextForms::operation_of_others))]
fn write_operation(
    alloc: Global,
    text: &mut Text,
    op: SqlOp,
    operands: &[Scalar],
) -> Result<(), NoMemory>
    ensures { OnOk result (text.new ≡ text.old ++ operation_text op (map scalar_text operands.now)) }
{
    text.push("(")?;
    if let [operand] = operands {
        text.push(sign(op))?;
        write_scalar(alloc, text, operand)?;
        return text.push(")");
    }
    write_operands(alloc, text, sign(op), operands)?;
    text.push(")")
}

/// `a + b`.
#[cycle(texts)]
#[tactic(auto, using(crate::proofs::Lists::texts_both))]
fn write_operands(
    alloc: Global,
    text: &mut Text,
    between: &str,
    operands: &[Scalar],
) -> Result<(), NoMemory>
    ensures { OnOk result (text.new ≡ text.old ++ join_by scalar_text between.now operands.now) }
{
    if let Some((first, rest)) = operands.split_first() {
        write_scalar(alloc, text, first)?;
        for operand in rest {
            text.push(between)?;
            write_scalar(alloc, text, operand)?;
        }
    }
    Ok(())
}

/// What stands before one operand, or between two.
fn sign(op: SqlOp) -> &'static str
    ensures { result.now ≡ sign op }
{
    match op {
        SqlOp::Add => " + ",
        SqlOp::Sub => " - ",
        SqlOp::Mul => " * ",
        SqlOp::Neg => "- ",
        SqlOp::Concat => " || ",
        SqlOp::Eq => " = ",
        SqlOp::Ne => " <> ",
        SqlOp::Lt => " < ",
        SqlOp::Le => " <= ",
        SqlOp::Gt => " > ",
        SqlOp::Ge => " >= ",
        SqlOp::And => " AND ",
        SqlOp::Or => " OR ",
        SqlOp::Not => "NOT ",
    }
}

/// Selects with ` UNION ALL ` between.
#[cycle(texts)]
#[tactic(auto, using(crate::proofs::Lists::texts_both))]
pub fn write_selects(alloc: Global, text: &mut Text, selects: &[Select]) -> Result<(), NoMemory>
    ensures { OnOk result (text.new ≡ text.old ++ selects_text selects.now) }
{
    if let Some((first, rest)) = selects.split_first() {
        write_select(alloc, text, first)?;
        for select in rest {
            text.push(" UNION ALL ")?;
            write_select(alloc, text, select)?;
        }
    }
    Ok(())
}

/// `SELECT s AS "l" FROM "t" AS t1 WHERE c`.
#[cycle(texts)]
#[tactic(auto, using(crate::proofs::Lists::texts_both, lk_sql::proofs::TextForms::select_is))]
fn write_select(alloc: Global, text: &mut Text, select: &Select) -> Result<(), NoMemory>
    ensures { OnOk result (text.new ≡ text.old ++ select_text select.now) }
{
    text.push("SELECT ")?;
    write_outs(alloc, text, select.outs.as_slice())?;
    write_froms(alloc, text, select.froms.as_slice())?;
    text.push(" WHERE ")?;
    write_scalar(alloc, text, &select.cond)
}

/// `s AS "l", s AS "m"`.
#[cycle(texts)]
#[tactic(auto, using(crate::proofs::Lists::texts_both))]
fn write_outs(alloc: Global, text: &mut Text, outs: &[Out]) -> Result<(), NoMemory>
    ensures { OnOk result (text.new ≡ text.old ++ join_by output_text (codes ", ") outs.now) }
{
    if let Some((first, rest)) = outs.split_first() {
        write_out(alloc, text, first)?;
        for out in rest {
            text.push(", ")?;
            write_out(alloc, text, out)?;
        }
    }
    Ok(())
}

/// `s AS "l"`.
#[cycle(texts)]
#[tactic(auto, using(crate::proofs::Lists::texts_both, lk_sql::proofs::TextForms::output_is))]
fn write_out(alloc: Global, text: &mut Text, out: &Out) -> Result<(), NoMemory>
    ensures { OnOk result (text.new ≡ text.old ++ output_text out.now) }
{
    write_scalar(alloc, text, &out.scalar)?;
    text.push(" AS ")?;
    write_name(text, &out.label)
}

/// ` FROM "t" AS t1, "u" AS t2`, or nothing where there are no generators.
#[tactic(auto, using(crate::proofs::Lists::texts_both))]
fn write_froms(alloc: Global, text: &mut Text, froms: &[FromItem]) -> Result<(), NoMemory>
    ensures { OnOk result (text.new ≡ text.old ++ froms_text froms.now) }
{
    if froms.is_empty() {
        return Ok(());
    }
    text.push(" FROM ")?;
    write_generators(alloc, text, froms)
}

/// `"t" AS t1, "u" AS t2`.
#[tactic(auto, using(crate::proofs::Lists::texts_both))]
fn write_generators(alloc: Global, text: &mut Text, froms: &[FromItem]) -> Result<(), NoMemory>
    ensures { OnOk result (text.new ≡ text.old ++ join_by from_text (codes ", ") froms.now) }
{
    if let Some((first, rest)) = froms.split_first() {
        write_from(alloc, text, first)?;
        for from in rest {
            text.push(", ")?;
            write_from(alloc, text, from)?;
        }
    }
    Ok(())
}

/// `"t" AS t1`.
#[tactic(auto, using(crate::proofs::Lists::texts_both))]
fn write_from(alloc: Global, text: &mut Text, from: &FromItem) -> Result<(), NoMemory>
    ensures { OnOk result (text.new ≡ text.old ++ from_text from.now) }
{
    write_name(text, &from.table)?;
    text.push(" AS ")?;
    write_generator(alloc, text, from.var)
}
