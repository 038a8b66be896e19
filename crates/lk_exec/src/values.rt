//! What scalars give for the rows in scope.

ghost use Rattle.lk_ast.specs.Tables.{rows_of};
ghost use Rattle.lk_exec.specs.Scopes.{scope_of};
ghost use Rattle.lk_exec.specs.Selected.{meets};
ghost use Rattle.lk_sql.specs.Meaning.{cell_in, has_row, rows, value as value_of};
ghost use Rattle.lk_sql.specs.Operations.{operation, zero_base};
ghost use Rattle.std.specs.Prelude.{◌≡◌, ◌-◌, [], ◌∷◌, IfOk, get_or, if◌then◌else◌, map};

use crate::cells::{cell_under, truth};
use crate::choices::is_met;
use crate::operations::{on_one, on_two};
use crate::scope::{Bound, row_at};
use lk_ast::{Base, NoMemory, TableRows, Text, copy_base};
use lk_sql::{Scalar, Select, SqlOp};
use std::alloc::Global;

/// How deep parts may stand in one another, each of which takes a piece of the stack, with the generators over them.
pub const ROOM: usize = 4_096;

/// What scalars are over: the values of parameters, and tables.
pub struct Over<'a> {
    pub alloc: Global,
    pub params: &'a [Base],
    pub tables: &'a [TableRows],
}

impl Drop for Over<'_> {
    fn drop(self) {
        let Self {
            alloc: _,
            params: _,
            tables: _,
        } = self;
    }
}

/// What a scalar gives for the rows in scope. `NoMemory` where memory runs out, and where there is no room.
#[cycle(values)]
#[tactic(auto, using(lk_sql::proofs::MeaningForms::value_lit, lk_sql::proofs::MeaningForms::value_param, lk_sql::proofs::MeaningForms::value_column, lk_sql::proofs::MeaningForms::value_op, lk_sql::proofs::MeaningForms::value_case, lk_sql::proofs::MeaningForms::value_exists))]
pub fn value<'a>(
    over: &Over<'a>,
    scope: &[Bound<'a>],
    room: usize,
    scalar: &Scalar,
) -> Result<Base, NoMemory>
    ensures { IfOk result (λ base. base ≡ value_of (rows_of over.now.tables.now) over.now.params.now scalar.now (scope_of scope.now)) }
{
    if room == 0 {
        return Err(NoMemory);
    }
    match scalar {
        Scalar::Lit(base) => copy_base(over.alloc, base),
        Scalar::Param(number) => parameter(over.alloc, over.params, *number),
        Scalar::Column(number, label) => column(over.alloc, scope, *number, label),
        Scalar::Op(op, operands) => operated(over, scope, room - 1, *op, operands.as_slice()),
        Scalar::Case(condition, one, other) => {
            choice(
                over,
                scope,
                room - 1,
                condition.get(),
                one.get(),
                other.get(),
            )
        }
        Scalar::Exists(selects) => exists(over, scope, room - 1, selects.as_slice()),
    }
}

/// The value of a parameter, whose number is counted from 1.
fn parameter(alloc: Global, params: &[Base], number: u32) -> Result<Base, NoMemory>
    ensures { IfOk result (λ base. base ≡ get_or params.now (number - 1) zero_base) }
{
    match params.get(number.saturating_sub(1) as usize) {
        Some(base) => copy_base(alloc, base),
        None => Ok(Base::Int(0)),
    }
}

/// A column of the row of a generator.
fn column(alloc: Global, scope: &[Bound<'_>], number: u32, label: &Text) -> Result<Base, NoMemory>
    ensures { IfOk result (λ base. base ≡ cell_in (scope_of scope.now number).cells label.now) }
{
    let Some(row) = row_at(scope, number) else {
        return Ok(Base::Int(0));
    };
    match cell_under(row.cells.as_slice(), label) {
        Some(base) => copy_base(alloc, base),
        None => Ok(Base::Int(0)),
    }
}

/// An operation on what its operands give.
#[cycle(values)]
#[tactic(auto, using(crate::proofs::Operands::no_operands, crate::proofs::Operands::many_operands))]
#[inline(never)]
fn operated<'a>(
    over: &Over<'a>,
    scope: &[Bound<'a>],
    room: usize,
    op: SqlOp,
    operands: &[Scalar],
) -> Result<Base, NoMemory>
    ensures { IfOk result (λ base. base ≡ operation op (map (λ operand. value_of (rows_of over.now.tables.now) over.now.params.now operand (scope_of scope.now)) operands.now)) }
{
    match operands {
        [] => Ok(Base::Int(0)),
        [a] => {
            let a = value(over, scope, room, a)?;
            Ok(on_one(op, &a))
        }
        [a, b] => {
            let a = value(over, scope, room, a)?;
            let b = value(over, scope, room, b)?;
            on_two(over.alloc, op, &a, &b)
        }
        [_, _, _, ..] => Ok(Base::Int(0)),
    }
}

/// What the one or the other gives, by the condition.
#[cycle(values)]
#[inline(never)]
fn choice<'a>(
    over: &Over<'a>,
    scope: &[Bound<'a>],
    room: usize,
    condition: &Scalar,
    one: &Scalar,
    other: &Scalar,
) -> Result<Base, NoMemory>
    ensures { IfOk result (λ base. base ≡ (if meets (rows_of over.now.tables.now) over.now.params.now condition.now (scope_of scope.now)
        then value_of (rows_of over.now.tables.now) over.now.params.now one.now (scope_of scope.now)
        else value_of (rows_of over.now.tables.now) over.now.params.now other.now (scope_of scope.now))) }
{
    if holds(over, scope, room, condition)? {
        value(over, scope, room, one)
    } else {
        value(over, scope, room, other)
    }
}

/// Whether a condition holds for the rows in scope.
#[cycle(values)]
pub fn holds<'a>(
    over: &Over<'a>,
    scope: &[Bound<'a>],
    room: usize,
    condition: &Scalar,
) -> Result<bool, NoMemory>
    ensures { IfOk result (λ truth. truth ≡ meets (rows_of over.now.tables.now) over.now.params.now condition.now (scope_of scope.now)) }
{
    let base = value(over, scope, room, condition)?;
    Ok(truth(&base))
}

/// Whether one of the selects gives a row.
#[cycle(values)]
#[inline(never)]
fn exists<'a>(
    over: &Over<'a>,
    scope: &[Bound<'a>],
    room: usize,
    selects: &[Select],
) -> Result<Base, NoMemory>
    ensures { IfOk result (λ base. base ≡ Base.Bool (has_row (map (λ select. rows (rows_of over.now.tables.now) over.now.params.now select (scope_of scope.now)) selects.now))) }
{
    for select in selects {
        if gives_row(over, scope, room, select)? {
            return Ok(Base::Bool(true));
        }
    }
    Ok(Base::Bool(false))
}

/// Whether a select gives a row.
#[cycle(values)]
#[tactic(auto, using(crate::proofs::Chosen::row_where_met))]
fn gives_row<'a>(
    over: &Over<'a>,
    scope: &[Bound<'a>],
    room: usize,
    select: &Select,
) -> Result<bool, NoMemory>
    ensures { IfOk result (λ found. found ≡ has_row (rows (rows_of over.now.tables.now) over.now.params.now select.now (scope_of scope.now) ∷ [])) }
{
    is_met(over, scope, room, select.froms.as_slice(), &select.cond)
}
