//! Scans of tables.

ghost use Rattle.lk_outside.specs.Causes.{HasCause, HasCauseOr};
ghost use Rattle.lk_outside.specs.Scans.{FitAll, HaveForeignRow, IsScanned};
ghost use Rattle.lk_outside.specs.Store.{ScanHasCause};
ghost use Rattle.std.specs.List.{AllZip};
ghost use Rattle.std.specs.Prelude.{◌≡◌, true, IfOk};

use crate::{OutFault, Store};
use lk_ast::{List, TableDef, TableRows};
use std::alloc::Global;

/// Tables with their rows where a transaction is under way, each scanned once. Where one holds a row of other columns, the scan is
/// refused.
pub fn scan_tables(
    alloc: Global,
    defs: &[TableDef],
    store: &mut dyn Store,
) -> Result<List<TableRows>, OutFault>
    requires under_way { is_open store.old ≡ true }
    ensures name { name store.new ≡ name store.old }
    ensures under_way { is_open store.new ≡ true }
    ensures tables { tables store.new ≡ tables store.old }
    ensures kept { kept store.new ≡ kept store.old }
    ensures commits { commits store.new ≡ commits store.old }
    ensures cause { HasCauseOr (faults store.old) (faults store.new) (HaveForeignRow (tables store.old) defs.now) result }
    ensures scanned { IfOk result (AllZip (IsScanned (tables store.old)) defs.now) }
{
    let mut scanned = List::new(alloc);
    for def in defs {
        let table = match scan_table(alloc, def, store) {
            Ok(table) => table,
            Err(fault) => return Err(fault),
        };
        scanned.push(table)?;
    }
    Ok(scanned)
}

/// The same of tables whose rows fit, where they are told.
pub fn scan_fitting(
    alloc: Global,
    defs: &[TableDef],
    store: &mut dyn Store,
) -> Result<List<TableRows>, OutFault>
    requires under_way { is_open store.old ≡ true }
    requires fit { FitAll (tables store.old) defs.now }
    ensures name { name store.new ≡ name store.old }
    ensures under_way { is_open store.new ≡ true }
    ensures tables { tables store.new ≡ tables store.old }
    ensures kept { kept store.new ≡ kept store.old }
    ensures commits { commits store.new ≡ commits store.old }
    ensures cause { HasCause (faults store.old) (faults store.new) result }
    ensures scanned { IfOk result (AllZip (IsScanned (tables store.old)) defs.now) }
{
    scan_tables(alloc, defs, store)
}

/// A table with its rows where a transaction is under way.
fn scan_table(alloc: Global, def: &TableDef, store: &mut dyn Store) -> Result<TableRows, OutFault>
    requires under_way { is_open store.old ≡ true }
    ensures name { name store.new ≡ name store.old }
    ensures under_way { is_open store.new ≡ true }
    ensures tables { tables store.new ≡ tables store.old }
    ensures kept { kept store.new ≡ kept store.old }
    ensures commits { commits store.new ≡ commits store.old }
    ensures cause { ScanHasCause (faults store.old) (faults store.new) (tables store.old) def.now result }
    ensures scanned { IfOk result (IsScanned (tables store.old) def.now) }
{
    let title = def.name.copy(alloc)?;
    let rows = store.scan(alloc, def)?;
    Ok(TableRows { name: title, rows })
}
