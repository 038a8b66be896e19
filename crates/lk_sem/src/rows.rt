//! The rows of an insertion, which stand in a value.

ghost use Rattle.std.specs.Option.{option_copied};
ghost use Rattle.std.specs.Prelude.{◌≡◌, IfOk};
ghost use Rattle.lk_operators.specs.Values.{base_in};
ghost use Rattle.lk_sem.specs.RowValues.{cells_in, each_row, row_in, rows_in};

use lk_ast::{Base, Cell, Field, List, NoMemory, Row, Value, copy_base};
use std::alloc::Global;

/// The rows of an insertion, copied, where its one argument is a list of records that can be rows.
pub fn rows_in(alloc: Global, args: &[Value]) -> Result<Option<List<Row>>, NoMemory>
    ensures { IfOk result (λ rows. rows ≡ rows_in args.now) }
{
    match args {
        [Value::List(values)] => each_row(alloc, values.as_slice()),
        _ => Ok(None),
    }
}

/// Each record as a row.
fn each_row(alloc: Global, values: &[Value]) -> Result<Option<List<Row>>, NoMemory>
    ensures { IfOk result (λ rows. rows ≡ each_row values.now) }
{
    let mut rows = List::new(alloc);
    for value in values {
        match row_in(alloc, value)? {
            Some(row) => rows.push(row)?,
            None => return Ok(None),
        }
    }
    Ok(Some(rows))
}

/// The row that a record stands for.
fn row_in(alloc: Global, value: &Value) -> Result<Option<Row>, NoMemory>
    ensures { IfOk result (λ row. row ≡ row_in value.now) }
{
    match value {
        Value::Fields(fields) => match cells_in(alloc, fields.as_slice())? {
            Some(cells) => Ok(Some(Row { cells })),
            None => Ok(None),
        },
        _ => Ok(None),
    }
}

/// The fields as cells, if each holds what a column can hold.
fn cells_in(alloc: Global, fields: &[Field]) -> Result<Option<List<Cell>>, NoMemory>
    ensures { IfOk result (λ cells. cells ≡ cells_in fields.now) }
{
    let mut cells = List::new(alloc);
    for field in fields {
        match base_in(&field.value) {
            Some(base) => cells.push(Cell {
                label: field.label.copy(alloc)?,
                value: copy_base(alloc, base)?,
            })?,
            None => return Ok(None),
        }
    }
    Ok(Some(cells))
}

/// What a column can hold, in a value.
fn base_in(value: &Value) -> Option<&Base>
    ensures { option_copied result ≡ base_in value.now }
{
    match value {
        Value::Base(base) => Some(base),
        _ => None,
    }
}
