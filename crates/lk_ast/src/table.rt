ghost use Rattle.std.specs.Prelude.{◌≡◌};

use crate::list::List;
use crate::text::Text;

/// The type of a table's column.
#[derive(Clone, Copy, Debug, PartialEq, Eq)]
pub enum BaseKind {
    Int,
    Bool,
    Text,
}

/// A value that a table's column can hold.
#[derive(Drop)]
pub enum Base {
    Int(i64),
    Bool(bool),
    Text(Text),
}

/// One column's value in a row.
pub struct Cell {
    pub label: Text,
    pub value: Base,
}

impl Drop for Cell {
    fn drop(self) {
        let Self { label: _, value: _ } = self;
    }
}

impl Cell {
    /// The label and the value.
    pub fn into_parts(self) -> (Text, Base)
        ensures { result ≡ (self.label, self.value) }
    {
        let Self { label, value } = self;
        (label, value)
    }
}

/// A row of a table, its cells in byte order of their labels.
#[derive(Drop)]
pub struct Row {
    pub cells: List<Cell>,
}

/// A column of a table.
#[derive(Drop)]
pub struct Column {
    pub label: Text,
    pub kind: BaseKind,
}

/// A table's name and its columns, in byte order of their labels.
pub struct TableDef {
    pub name: Text,
    pub columns: List<Column>,
}

impl Drop for TableDef {
    fn drop(self) {
        let Self {
            name: _,
            columns: _,
        } = self;
    }
}

/// A table by its name, with its rows, repeats among them.
pub struct TableRows {
    pub name: Text,
    pub rows: List<Row>,
}

impl Drop for TableRows {
    fn drop(self) {
        let Self { name: _, rows: _ } = self;
    }
}

impl TableRows {
    /// The rows.
    pub fn into_rows(self) -> List<Row>
        ensures { result ≡ self.rows }
    {
        let Self { name: _, rows } = self;
        rows
    }
}
