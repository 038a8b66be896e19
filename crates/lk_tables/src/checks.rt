//! Why values aren't the rows of tables. Nothing is copied.

ghost use Rattle.lk_tables.specs.Reading.{base_of, cell_of, has_members as has_so_many, member_refusal as refusal_of_member, object_refusal as refusal_of_object, row_of, rows_of, rows_refusal as refusal_of_rows};
ghost use Rattle.lk_tables.specs.Choices.{first_some};
ghost use Rattle.lk_tables.specs.Named.{own_refusal, shown};
ghost use Rattle.lk_tables.specs.Reading.{entries};
ghost use Rattle.serde_json.specs.View.{view, members_view};
ghost use Rattle.std.specs.List.{list_all};
ghost use Rattle.std.specs.Option.{is_some};
ghost use Rattle.std.specs.Prelude.{◌≡◌, IfOk};

use crate::error::TablesError;
use crate::named::NamedTables;
use lk_ast::{BaseKind, Column, MOST_ROWS, NoMemory, TableDef};
use serde_json::{Map, Value as Json};
use std::alloc::Global;

/// Why the object isn't one from names of tables to their rows, its members being looked at in byte order of their keys.
pub fn object_refusal(
    alloc: Global,
    tables: &[TableDef],
    file: &Json,
) -> Result<Option<TablesError>, NoMemory>
    ensures { IfOk result (λ refusal. refusal ≡ refusal_of_object tables.now (view file.now)) }
{
    let Some(members) = file.as_object() else {
        return Ok(None);
    };
    let named = NamedTables::new(alloc, tables)?;
    Ok(members_refusal(&named, members))
}

fn members_refusal<'t>(tables: &NamedTables<'t>, members: &Map<String, Json>) -> Option<TablesError>
    ensures { result ≡ first_some (refusal_of_member tables.now) (entries (members_view members.now.entries)) }
{
    for (name, value) in members.iter() {
        let refusal = member_refusal(tables, name.as_str(), value);
        if refusal.is_some() {
            return refusal;
        }
    }
    None
}

/// Why this isn't the name of a table with its rows.
fn member_refusal<'t>(tables: &NamedTables<'t>, name: &str, value: &Json) -> Option<TablesError>
    ensures { result ≡ refusal_of_member tables.now (name.now, view value.now) }
{
    match tables.get(name) {
        Some(named) => named_refusal(named.as_slice(), value),
        None => Some(TablesError::UnknownTable),
    }
}

/// Why this isn't the rows of each of these tables.
fn named_refusal(tables: &[&TableDef], value: &Json) -> Option<TablesError>
    ensures { result ≡ first_some (own_refusal (view value.now)) (shown tables.now) }
{
    for table in tables {
        let refusal = rows_refusal(table.columns.as_slice(), value);
        if refusal.is_some() {
            return refusal;
        }
    }
    None
}

/// Why this isn't an array of at most 65,536 objects with exactly these columns.
fn rows_refusal(columns: &[Column], value: &Json) -> Option<TablesError>
    ensures { result ≡ refusal_of_rows (rows_of columns.now (view value.now)) }
{
    let Some(rows) = value.as_array() else {
        return Some(TablesError::BadRows);
    };
    if !are_rows(columns, rows.as_slice()) {
        return Some(TablesError::BadRows);
    }
    (rows.len() as u64 > MOST_ROWS).then_some(TablesError::TooManyRows)
}

fn are_rows(columns: &[Column], rows: &[Json]) -> bool
    ensures { result ≡ list_all (λ row. is_some (row_of columns.now (view row))) rows.now }
{
    rows.iter().all(|row| is_row(columns, row))
}

/// Whether this is an object with exactly these columns.
fn is_row(columns: &[Column], row: &Json) -> bool
    ensures { result ≡ is_some (row_of columns.now (view row.now)) }
{
    has_members(row, columns.len()) && has_cells(columns, row)
}

/// Whether this is an object with so many members.
pub fn has_members(row: &Json, count: usize) -> bool
    ensures { result ≡ has_so_many count (view row.now) }
{
    match row.as_object() {
        Some(members) => members.len() == count,
        None => false,
    }
}

fn has_cells(columns: &[Column], row: &Json) -> bool
    ensures { result ≡ list_all (λ column. is_some (cell_of (view row.now) column)) columns.now }
{
    columns.iter().all(|column| has_cell(row, column))
}

/// Whether the object has a value of the column's kind at its label.
fn has_cell(row: &Json, column: &Column) -> bool
    ensures { result ≡ is_some (cell_of (view row.now) column.now) }
{
    match row.get(column.label.as_str()) {
        Some(value) => is_base(column.kind, value),
        None => false,
    }
}

fn is_base(kind: BaseKind, value: &Json) -> bool
    ensures { result ≡ is_some (base_of kind (view value.now)) }
{
    match kind {
        BaseKind::Int => value.is_i64(),
        BaseKind::Bool => value.is_boolean(),
        BaseKind::Text => value.is_string(),
    }
}
