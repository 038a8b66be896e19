//! Rows of tables as values.

ghost use Rattle.std.specs.Prelude.{◌≡◌, IfOk};
ghost use Rattle.lk_ast.specs.Rows.{row_value as value_of_row, rows_value as value_of_rows};

use crate::copies::copy_base;
use crate::list::List;
use crate::memory::NoMemory;
use crate::table::Row;
use crate::value::{Field, Value};
use std::alloc::Global;

/// A row as a record.
pub fn row_value(alloc: Global, row: &Row) -> Result<Value, NoMemory>
    ensures { IfOk result (λ value. value ≡ value_of_row row.now) }
{
    let mut fields = List::new(alloc);
    for cell in row.cells.as_slice() {
        let label = cell.label.copy(alloc)?;
        let value = Value::Base(copy_base(alloc, &cell.value)?);
        fields.push(Field { label, value })?;
    }
    Ok(Value::Fields(fields))
}

/// Rows as a list of records.
pub fn rows_value(alloc: Global, rows: &[Row]) -> Result<Value, NoMemory>
    ensures { IfOk result (λ value. value ≡ value_of_rows rows.now) }
{
    let mut values = List::new(alloc);
    for row in rows {
        values.push(row_value(alloc, row)?)?;
    }
    Ok(Value::List(values))
}
