//! The store whose calls fail, call by call.

use lk_ast::{Base, BaseKind, Cell, Column, List, NoMemory, Row, TableDef, Text};
use lk_outside::{OutFault, Store};
use lk_store::FailingStore;
use std::alloc::Global;
use std::test::Fail;

/// The table `t` with one column of numbers.
fn table(alloc: Global) -> Result<TableDef, NoMemory> {
    let name = Text::from_str(alloc, "t")?;
    let label = Text::from_str(alloc, "n")?;
    let kind = BaseKind::Int;
    let mut columns = List::new(alloc);
    columns.push(Column { label, kind })?;
    Ok(TableDef { name, columns })
}

/// A row of that table.
fn rows(alloc: Global, number: i64) -> Result<List<Row>, NoMemory> {
    let label = Text::from_str(alloc, "n")?;
    let value = Base::Int(number);
    let mut cells = List::new(alloc);
    cells.push(Cell { label, value })?;
    let mut rows = List::new(alloc);
    rows.push(Row { cells })?;
    Ok(rows)
}

// Each call fails at first, and not when it is made again.
#[test]
fn calls_fail_by_number(rt: HostRuntime) -> Result<(), Fail> {
    let alloc = rt.alloc();
    let table = table(alloc)?;
    let failing = [0u64, 2, 4].to_vec(alloc)?;
    let mut store = FailingStore::new(alloc, List::from_vec(failing));
    assert_eq!(rt; store.begin(alloc).err(), Some(OutFault::Failed));
    store.begin(alloc)?;
    assert!(rt; store.scan(alloc, &table).is_err());
    store.scan(alloc, &table)?;
    assert!(rt; store.insert(alloc, &table, rows(alloc, 1)?).is_err());
    assert_eq!(rt; store.faults(), 3);
    Ok(())
}

// The calls are `begin` (0), `rewrite` (1), `rewrite` (2), `commit` (3).
#[test]
fn other_calls_fail_by_number(rt: HostRuntime) -> Result<(), Fail> {
    let alloc = rt.alloc();
    let table = table(alloc)?;
    let failing = [1u64, 3].to_vec(alloc)?;
    let mut store = FailingStore::new(alloc, List::from_vec(failing));
    store.begin(alloc)?;
    assert!(rt; store.rewrite(alloc, &table, rows(alloc, 3)?).is_err());
    store.rewrite(alloc, &table, rows(alloc, 4)?)?;
    assert!(rt; store.commit(alloc).is_err());
    assert_eq!(rt; store.faults(), 2);
    Ok(())
}
