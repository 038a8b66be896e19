//! What types say of the parts of a query.

ghost use Rattle.lk_bodies.specs.Shapes.{columns_of, column as column_by, element_columns, kind_of, labels as labels_by};
ghost use Rattle.std.specs.Prelude.{◌≡◌, IfOk, map};

use lk_ast::{BaseKind, Column, List, NoMemory, Text};
use lk_types::{Ground, GroundField};
use std::alloc::Global;

/// The kind of a base type; any other counts as `Int`.
pub fn kind_of(ty: &Ground) -> BaseKind
    ensures { result ≡ kind_of ty.now }
{
    match ty {
        Ground::Bool => BaseKind::Bool,
        Ground::Text => BaseKind::Text,
        _ => BaseKind::Int,
    }
}

/// The columns of fields.
fn columns(alloc: Global, fields: &[GroundField]) -> Result<List<Column>, NoMemory>
    ensures { IfOk result (λ columns. columns ≡ map column_by fields.now) }
{
    let mut columns = List::new(alloc);
    for field in fields {
        let label = field.label.copy(alloc)?;
        let kind = kind_of(&field.ty);
        columns.push(Column { label, kind })?;
    }
    Ok(columns)
}

/// The columns of a record; any other type has none.
pub fn columns_of(alloc: Global, ty: &Ground) -> Result<List<Column>, NoMemory>
    ensures { IfOk result (λ columns. columns ≡ columns_of ty.now) }
{
    match ty {
        Ground::Fields(fields) => columns(alloc, fields.get().as_slice()),
        _ => Ok(List::new(alloc)),
    }
}

/// The columns of the records in a list; any other type has none.
pub fn element_columns(alloc: Global, ty: &Ground) -> Result<List<Column>, NoMemory>
    ensures { IfOk result (λ columns. columns ≡ element_columns ty.now) }
{
    match ty {
        Ground::List(element) => columns_of(alloc, element.get()),
        _ => Ok(List::new(alloc)),
    }
}

/// The labels of columns.
pub fn labels(alloc: Global, columns: List<Column>) -> Result<List<Text>, NoMemory>
    ensures { IfOk result (λ labels. labels ≡ labels_by columns) }
{
    let mut labels = List::new(alloc);
    for column in columns.into_vec() {
        labels.push(column.label)?;
    }
    Ok(labels)
}
