//! Rows out of JSON values.

ghost use Rattle.lk_tables.specs.Choices.{all_some};
ghost use Rattle.lk_tables.specs.Reading.{base_of, cell_of, row_of, rows_of, table_of as rows_of_table};
ghost use Rattle.serde_json.specs.View.{view};
ghost use Rattle.std.specs.Prelude.{◌≡◌, IfOk, map};

use crate::checks::has_members;
use lk_ast::{Base, BaseKind, Cell, Column, List, NoMemory, Row, TableDef, TableRows, Text};
use serde_json::Value as Json;
use std::alloc::Global;

/// Each table with the rows that the object has for it, or `None` if it has something else than rows for one.
#[tactic(auto, using(crate::proofs::Lists::moved))]
pub fn tables_of(
    alloc: Global,
    file: &Json,
    tables: &[TableDef],
) -> Result<Option<List<TableRows>>, NoMemory>
    ensures { IfOk result (λ read. read ≡ all_some (rows_of_table (view file.now)) tables.now) }
{
    let mut all = List::new(alloc);
    for table in tables {
        let Some(read) = table_of(alloc, file, table)? else {
            return Ok(None);
        };
        all.push(read)?;
    }
    Ok(Some(all))
}

fn table_of(alloc: Global, file: &Json, table: &TableDef) -> Result<Option<TableRows>, NoMemory>
    ensures { IfOk result (λ read. read ≡ rows_of_table (view file.now) table.now) }
{
    let name = table.name.copy(alloc)?;
    let rows = match file.get(table.name.as_str()) {
        Some(value) => read_rows(alloc, table.columns.as_slice(), value)?,
        None => Some(List::new(alloc)),
    };
    match rows {
        Some(rows) => Ok(Some(TableRows { name, rows })),
        None => Ok(None),
    }
}

/// An array of objects with exactly these columns as rows.
fn read_rows(alloc: Global, columns: &[Column], value: &Json) -> Result<Option<List<Row>>, NoMemory>
    ensures { IfOk result (λ rows. rows ≡ rows_of columns.now (view value.now)) }
{
    match value.as_array() {
        Some(values) => rows_from(alloc, columns, values.as_slice()),
        None => Ok(None),
    }
}

#[tactic(auto, using(crate::proofs::Lists::moved))]
fn rows_from(
    alloc: Global,
    columns: &[Column],
    values: &[Json],
) -> Result<Option<List<Row>>, NoMemory>
    ensures { IfOk result (λ rows. rows ≡ all_some (row_of columns.now) (map view values.now)) }
{
    let mut rows = List::new(alloc);
    for value in values {
        let Some(row) = read_row(alloc, columns, value)? else {
            return Ok(None);
        };
        rows.push(row)?;
    }
    Ok(Some(rows))
}

/// An object with exactly these columns as a row.
fn read_row(alloc: Global, columns: &[Column], value: &Json) -> Result<Option<Row>, NoMemory>
    ensures { IfOk result (λ row. row ≡ row_of columns.now (view value.now)) }
{
    if !has_members(value, columns.len()) {
        return Ok(None);
    }
    match read_cells(alloc, columns, value)? {
        Some(cells) => Ok(Some(Row { cells })),
        None => Ok(None),
    }
}

#[tactic(auto, using(crate::proofs::Lists::moved))]
fn read_cells(
    alloc: Global,
    columns: &[Column],
    value: &Json,
) -> Result<Option<List<Cell>>, NoMemory>
    ensures { IfOk result (λ cells. cells ≡ all_some (cell_of (view value.now)) columns.now) }
{
    let mut cells = List::new(alloc);
    for column in columns {
        let Some(cell) = read_cell(alloc, value, column)? else {
            return Ok(None);
        };
        cells.push(cell)?;
    }
    Ok(Some(cells))
}

/// What an object has at a column's label as the column's cell, if it is of the column's kind.
fn read_cell(alloc: Global, row: &Json, column: &Column) -> Result<Option<Cell>, NoMemory>
    ensures { IfOk result (λ cell. cell ≡ cell_of (view row.now) column.now) }
{
    let Some(value) = row.get(column.label.as_str()) else {
        return Ok(None);
    };
    let Some(value) = read_base(alloc, column.kind, value)? else {
        return Ok(None);
    };
    let label = column.label.copy(alloc)?;
    Ok(Some(Cell { label, value }))
}

fn read_base(alloc: Global, kind: BaseKind, value: &Json) -> Result<Option<Base>, NoMemory>
    ensures { IfOk result (λ base. base ≡ base_of kind (view value.now)) }
{
    match kind {
        BaseKind::Int => Ok(value.as_i64().map(Base::Int)),
        BaseKind::Bool => Ok(value.as_bool().map(Base::Bool)),
        BaseKind::Text => match value.as_str() {
            Some(text) => Ok(Some(Base::Text(Text::from_str(alloc, text)?))),
            None => Ok(None),
        },
    }
}
