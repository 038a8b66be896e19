//! What updates and deletions make of rows.

ghost use Rattle.lk_exec.specs.Writings.{kept_rows as rows_kept, new_cell as cell_made, no_tables, updated as row_made, updated_rows as rows_updated};
ghost use Rattle.lk_sql.specs.Change.{set_to, value_for as value_by};
ghost use Rattle.lk_sql.specs.Operations.{truth};
ghost use Rattle.std.specs.Prelude.{◌≡◌, IfOk, map};

use crate::scope::Bound;
use crate::values::{Over, ROOM, holds, value};
use lk_ast::{Base, Cell, List, NoMemory, Row, copy_base};
use lk_sql::{Out, Scalar};
use std::alloc::Global;

/// The rows of a table after an update.
pub fn updated_rows(
    alloc: Global,
    cond: &Scalar,
    sets: &[Out],
    params: &[Base],
    rows: List<Row>,
) -> Result<List<Row>, NoMemory>
    ensures { IfOk result (λ after. after ≡ rows_updated params.now cond.now sets.now rows) }
{
    let mut after = List::new(alloc);
    for row in rows.into_vec() {
        after.push(updated(alloc, cond, sets, params, row)?)?;
    }
    Ok(after)
}

/// The rows of a table that a deletion leaves.
pub fn kept_rows(
    alloc: Global,
    cond: &Scalar,
    params: &[Base],
    rows: List<Row>,
) -> Result<List<Row>, NoMemory>
    ensures { IfOk result (λ after. after ≡ rows_kept params.now cond.now rows) }
{
    let mut after = List::new(alloc);
    for row in rows.into_vec() {
        if !is_met(alloc, params, cond, &row)? {
            after.push(row)?;
        }
    }
    Ok(after)
}

/// A row after an update.
fn updated(
    alloc: Global,
    cond: &Scalar,
    sets: &[Out],
    params: &[Base],
    row: Row,
) -> Result<Row, NoMemory>
    ensures { IfOk result (λ after. after ≡ row_made params.now cond.now sets.now row) }
{
    if !is_met(alloc, params, cond, &row)? {
        return Ok(row);
    }
    new_row(alloc, params, sets, &row)
}

/// The row with the columns that are set.
fn new_row(alloc: Global, params: &[Base], sets: &[Out], row: &Row) -> Result<Row, NoMemory>
    ensures { IfOk result (λ after. after ≡ record { cells = map (cell_made params.now sets.now row.now) row.now.cells }) }
{
    let mut cells = List::new(alloc);
    for cell in row.cells.as_slice() {
        cells.push(new_cell(alloc, params, sets, row, cell)?)?;
    }
    Ok(Row { cells })
}

/// A cell of the row, with its new value if it is set.
fn new_cell(
    alloc: Global,
    params: &[Base],
    sets: &[Out],
    row: &Row,
    cell: &Cell,
) -> Result<Cell, NoMemory>
    ensures { IfOk result (λ after. after ≡ cell_made params.now sets.now row.now cell.now) }
{
    let label = cell.label.copy(alloc)?;
    let value = new_value(alloc, params, sets, row, cell)?;
    Ok(Cell { label, value })
}

/// What the first of these sets the column to, and its old value where there is none.
fn new_value(
    alloc: Global,
    params: &[Base],
    sets: &[Out],
    row: &Row,
    cell: &Cell,
) -> Result<Base, NoMemory>
    ensures { IfOk result (λ base. base ≡ set_to no_tables params.now row.now sets.now cell.now.label cell.now.value) }
{
    for set in sets {
        if set.label.equals(&cell.label) {
            return value_for(alloc, params, &set.scalar, row);
        }
    }
    copy_base(alloc, &cell.value)
}

/// What a scalar gives for a row.
fn value_for<'a>(
    alloc: Global,
    params: &'a [Base],
    scalar: &Scalar,
    row: &'a Row,
) -> Result<Base, NoMemory>
    ensures { IfOk result (λ base. base ≡ value_by no_tables params.now row.now scalar.now) }
{
    let over = Over {
        alloc,
        params,
        tables: &[],
    };
    value(&over, &[Bound { number: 1, row }], ROOM, scalar)
}

/// Whether the condition holds for a row.
fn is_met<'a>(
    alloc: Global,
    params: &'a [Base],
    cond: &Scalar,
    row: &'a Row,
) -> Result<bool, NoMemory>
    ensures { IfOk result (λ met. met ≡ truth (value_by no_tables params.now row.now cond.now)) }
{
    let over = Over {
        alloc,
        params,
        tables: &[],
    };
    holds(&over, &[Bound { number: 1, row }], ROOM, cond)
}
