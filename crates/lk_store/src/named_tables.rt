//! Tables by their names.

ghost use Rattle.std.specs.Prelude.{◌≡◌, ◌++◌, OnOk, IfOk};
ghost use Rattle.lk_ast.specs.Tables.{rows_of};
ghost use Rattle.lk_outside.specs.Store.{Puts};
ghost use Rattle.lk_store.specs.Listed.{listed};

use lk_ast::{List, NoMemory, Row, copy_rows};
use std::alloc::Global;
use std::collections::BTreeMap;

/// The rows of each table by its name.
pub(crate) type NamedTables = BTreeMap<String, List<Row>>;

/// The rows of the table of this name. An absent table has none.
pub(crate) fn rows_of<'a>(tables: &'a NamedTables, name: &str) -> &'a [Row]
    ensures { result.now ≡ rows_of (listed tables.now) name.now }
{
    match tables.get(name) {
        Some(rows) => rows.as_slice(),
        None => &[],
    }
}

/// Gives the table of this name these rows in place of its own. A refusal is for want of memory.
pub(crate) fn set_rows(
    alloc: Global,
    tables: &mut NamedTables,
    name: &str,
    rows: List<Row>,
) -> Result<(), NoMemory>
    ensures { OnOk result (Puts (rows_of (listed tables.old)) (rows_of (listed tables.new))
        name.now rows) }
{
    let key = String::from_str(alloc, name)?;
    drop(tables.insert(key, rows)?);
    Ok(())
}

/// Adds these rows behind those of the table of this name. A refusal, for want of memory, may have added some.
pub(crate) fn add_rows(
    alloc: Global,
    tables: &mut NamedTables,
    name: &str,
    rows: List<Row>,
) -> Result<(), NoMemory>
    ensures { OnOk result (Puts (rows_of (listed tables.old)) (rows_of (listed tables.new))
        name.now (rows_of (listed tables.old) name.now ++ rows)) }
{
    match tables.get_mut(name) {
        Some(there) => append(there, rows),
        None => set_rows(alloc, tables, name, rows),
    }
}

// Adds more rows at the end.
fn append(rows: &mut List<Row>, more: List<Row>) -> Result<(), NoMemory>
    ensures { OnOk result (rows.new ≡ rows.old ++ more) }
{
    for row in more.into_vec() {
        rows.push(row)?;
    }
    Ok(())
}

/// The same tables once more.
pub(crate) fn copy_tables(alloc: Global, tables: &NamedTables) -> Result<NamedTables, NoMemory>
    ensures { IfOk result (λ copies. listed copies ≡ listed tables.now) }
{
    let mut copies = BTreeMap::new(alloc);
    for (name, rows) in tables {
        let key = String::from_str(alloc, name.as_str())?;
        let rows = copy_rows(alloc, rows.as_slice())?;
        drop(copies.insert(key, rows)?);
    }
    Ok(copies)
}
