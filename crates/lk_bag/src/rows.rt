//! Records as rows of tables.

ghost use Rattle.lk_ast.specs.Rows.{row_value};
ghost use Rattle.lk_bag.specs.Cells.{cell_field};
ghost use Rattle.std.specs.Prelude.{◌≡◌, IfOk, IfSome, IsSome, List, map};

use lk_ast::{Cell, Field, List, NoMemory, Row, Value};
use std::alloc::Global;

/// Records as rows, unless one of the values isn't a record of bases.
pub fn rows_in(alloc: Global, values: List<Value>) -> Result<Option<List<Row>>, NoMemory>
    ensures rows { IfOk result (λ found. IfSome found (λ rows. map row_value rows ≡ values)) }
    ensures some { IfOk result (λ found. (rows : List Row) → values ≡ map row_value rows → IsSome found) }
{
    let mut rows = List::new(alloc);
    for value in values.into_vec() {
        match row_in(alloc, value)? {
            Some(row) => rows.push(row)?,
            None => return Ok(None),
        }
    }
    Ok(Some(rows))
}

/// A record as a row, unless the value isn't a record of bases.
fn row_in(alloc: Global, value: Value) -> Result<Option<Row>, NoMemory>
    ensures row { IfOk result (λ found. IfSome found (λ row. row_value row ≡ value)) }
    ensures some { IfOk result (λ found. (row : Row) → value ≡ row_value row → IsSome found) }
{
    match value {
        Value::Fields(fields) => match cells_in(alloc, fields)? {
            Some(cells) => Ok(Some(Row { cells })),
            None => Ok(None),
        },
        _ => Ok(None),
    }
}

/// Fields as cells, unless one of them isn't a base.
fn cells_in(alloc: Global, fields: List<Field>) -> Result<Option<List<Cell>>, NoMemory>
    ensures cells { IfOk result (λ found. IfSome found (λ cells. map cell_field cells ≡ fields)) }
    ensures some { IfOk result (λ found. (cells : List Cell) → fields ≡ map cell_field cells → IsSome found) }
{
    let mut cells = List::new(alloc);
    for field in fields.into_vec() {
        match cell_in(field) {
            Some(cell) => cells.push(cell)?,
            None => return Ok(None),
        }
    }
    Ok(Some(cells))
}

/// A field as a cell, unless it isn't a base.
fn cell_in(field: Field) -> Option<Cell>
    ensures cell { IfSome result (λ cell. cell_field cell ≡ field) }
    ensures some { (cell : Cell) → field ≡ cell_field cell → IsSome result }
{
    let (label, value) = field.into_parts();
    match value {
        Value::Base(value) => Some(Cell { label, value }),
        _ => None,
    }
}
