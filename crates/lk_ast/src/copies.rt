//! Copies, each equal to what it copies.

ghost use Rattle.std.specs.Prelude.{◌≡◌, IfOk};

use crate::boxed::Boxed;
use crate::list::List;
use crate::memory::NoMemory;
use crate::table::{Base, Cell, Row};
use crate::value::{Field, FunValue, Value};
use std::alloc::Global;

/// The same rows once more.
pub fn copy_rows(alloc: Global, rows: &[Row]) -> Result<List<Row>, NoMemory>
    ensures { IfOk result (λ copies. copies ≡ rows.now) }
{
    let mut copies = List::new(alloc);
    for row in rows {
        copies.push(copy_row(alloc, row)?)?;
    }
    Ok(copies)
}

/// The same row once more.
pub fn copy_row(alloc: Global, row: &Row) -> Result<Row, NoMemory>
    ensures { IfOk result (λ copy. copy ≡ row.now) }
{
    let mut cells = List::new(alloc);
    for cell in row.cells.as_slice() {
        cells.push(copy_cell(alloc, cell)?)?;
    }
    Ok(Row { cells })
}

fn copy_cell(alloc: Global, cell: &Cell) -> Result<Cell, NoMemory>
    ensures { IfOk result (λ copy. copy ≡ cell.now) }
{
    let label = cell.label.copy(alloc)?;
    let value = copy_base(alloc, &cell.value)?;
    Ok(Cell { label, value })
}

/// The same base value once more.
pub fn copy_base(alloc: Global, base: &Base) -> Result<Base, NoMemory>
    ensures { IfOk result (λ copy. copy ≡ base.now) }
{
    match base {
        Base::Int(number) => Ok(Base::Int(*number)),
        Base::Bool(truth) => Ok(Base::Bool(*truth)),
        Base::Text(text) => text.copy(alloc).map(Base::Text),
    }
}

/// The same value once more.
#[cycle(copies)]
pub fn copy_value(alloc: Global, value: &Value) -> Result<Value, NoMemory>
    ensures { IfOk result (λ copy. copy ≡ value.now) }
{
    match value {
        Value::Base(base) => copy_base(alloc, base).map(Value::Base),
        Value::List(items) => copy_values(alloc, items.as_slice()).map(Value::List),
        Value::Fields(fields) => copy_fields(alloc, fields.as_slice()).map(Value::Fields),
        Value::Tag(tag, inner) => {
            let tag = tag.copy(alloc)?;
            let inner = copy_value(alloc, inner.get())?;
            Ok(Value::Tag(tag, Boxed::new(alloc, inner)?))
        }
        Value::Fun(fun) => copy_fun(alloc, fun).map(Value::Fun),
    }
}

/// The same values once more.
#[cycle(copies)]
pub fn copy_values(alloc: Global, values: &[Value]) -> Result<List<Value>, NoMemory>
    ensures { IfOk result (λ copy. copy ≡ values.now) }
{
    let mut copies = List::new(alloc);
    for value in values {
        copies.push(copy_value(alloc, value)?)?;
    }
    Ok(copies)
}

#[cycle(copies)]
fn copy_fields(alloc: Global, fields: &[Field]) -> Result<List<Field>, NoMemory>
    ensures { IfOk result (λ copy. copy ≡ fields.now) }
{
    let mut copies = List::new(alloc);
    for field in fields {
        let label = field.label.copy(alloc)?;
        let value = copy_value(alloc, &field.value)?;
        copies.push(Field { label, value })?;
    }
    Ok(copies)
}

#[cycle(copies)]
fn copy_fun(alloc: Global, fun: &FunValue) -> Result<FunValue, NoMemory>
    ensures { IfOk result (λ copy. copy ≡ fun.now) }
{
    let env = copy_values(alloc, fun.env.as_slice())?;
    Ok(FunValue {
        site: fun.site,
        env,
    })
}
