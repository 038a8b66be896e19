//! Which rows a table may hold.

ghost use Rattle.std.specs.Prelude.{◌≡◌};
ghost use Rattle.lk_ast.specs.Tables.{all_fit as rows_fit, cells_fit, is_of_kind, row_fits as cells_of_row_fit};

use crate::table::{Base, BaseKind, Cell, Column, Row, TableDef};

/// Whether a column of this kind can hold the value.
pub fn is_of_kind(kind: BaseKind, value: &Base) -> bool
    ensures { result ≡ is_of_kind kind value.now }
{
    match (kind, value) {
        (BaseKind::Int, Base::Int(_)) => true,
        (BaseKind::Bool, Base::Bool(_)) => true,
        (BaseKind::Text, Base::Text(_)) => true,
        _ => false,
    }
}

/// Whether these are the cells of exactly these columns, each of its kind.
fn cells_fit(columns: &[Column], cells: &[Cell]) -> bool
    ensures { result ≡ cells_fit columns.now cells.now }
{
    let mut columns_left = columns;
    let mut cells_left = cells;
    while let [column, columns @ ..] = columns_left {
        let [cell, cells @ ..] = cells_left else {
            return false;
        };
        if !column.label.equals(&cell.label) || !is_of_kind(column.kind, &cell.value) {
            return false;
        }
        columns_left = columns;
        cells_left = cells;
    }
    cells_left.is_empty()
}

/// Whether the table may hold the row: it has exactly the table's columns, each of its kind.
pub fn row_fits(table: &TableDef, row: &Row) -> bool
    ensures { result ≡ cells_of_row_fit table.now row.now }
{
    cells_fit(table.columns.as_slice(), row.cells.as_slice())
}

/// Whether the table may hold all of these rows.
pub fn all_fit(table: &TableDef, rows: &[Row]) -> bool
    ensures { result ≡ rows_fit table.now rows.now }
{
    rows.iter().all(|row| row_fits(table, row))
}
