//! The declared tables: the rows that a session begins with, put into a store, and those that they have at its end.

ghost use Rattle.std.specs.List.{AllZip};
ghost use Rattle.std.specs.Prelude.{◌≡◌, ◌≤◌, false, true, IfErr, IfOk, IfSome, OnErr, OnOk, map, option_map};
ghost use Rattle.lk_ast.specs.Tables.{all_fit};
ghost use Rattle.lk_ast.specs.declared.table.TableDef.{TableDef as TheTableDef};
ghost use Rattle.lk_bag.specs.Change.{with_rows};
ghost use Rattle.lk_cli.specs.Answers.{HasNoRows, TellsReads};
ghost use Rattle.lk_cli.specs.Loading.{AreLoaded, IsOfTable, all_put, empty_table, loaded_over};
ghost use Rattle.lk_cli.specs.Seen.{seen};
ghost use Rattle.lk_outside.specs.Causes.{HasCause, next_count};
ghost use Rattle.lk_outside.specs.Scans.{FitAll, IsScanned};
ghost use Rattle.lk_tables.specs.Law.{are_distinct};

use crate::TABLES_READ_MAX;
use crate::answer::Refusal;
use crate::refused::Sources;
use lk_ast::{List, NoMemory, Row, TableDef, TableRows, Text};
use lk_outside::{Files, OutFault, Store, scan_fitting};
use lk_tables::read_tables;
use std::alloc::Global;

// ---- the rows that a session begins with

/// The declared tables with the rows of the tables file of that name, or with none where there is no name.
pub fn rows_to_load<F: Files>(
    alloc: Global,
    file: Option<&Text>,
    defs: &[TableDef],
    files: &mut F,
    sources: &mut Sources,
) -> Result<List<TableRows>, Refusal>
    ensures contents { F.contents files.new ≡ F.contents files.old }
    ensures later { F.faults files.old ≤ F.faults files.new }
    ensures reads { TellsReads (F.faults files.old) (F.faults files.new) result }
    ensures loaded { IfOk result (AreLoaded (seen F.contents F.failed F.faults files.old files.new) (option_map (λ name. name.now) file.entry) defs.now) }
    ensures fit { IfOk result (AllZip IsOfTable defs.now) }
    ensures refused { IfErr result (HasNoRows (seen F.contents F.failed F.faults files.old files.new) (option_map (λ name. name.now) file.entry) defs.now) }
{
    match file {
        Some(name) => rows_in_file(alloc, name, defs, files, sources),
        None => Ok(empty_tables(alloc, defs)?),
    }
}

/// The declared tables with the rows of the tables file of that name. What it contains is kept.
fn rows_in_file<F: Files>(
    alloc: Global,
    name: &Text,
    defs: &[TableDef],
    files: &mut F,
    sources: &mut Sources,
) -> Result<List<TableRows>, Refusal>
    ensures contents { F.contents files.new ≡ F.contents files.old }
    ensures later { F.faults files.old ≤ F.faults files.new }
    ensures reads { TellsReads (F.faults files.old) (F.faults files.new) result }
    ensures loaded { IfOk result (AreLoaded (seen F.contents F.failed F.faults files.old files.new) (Some name.now) defs.now) }
    ensures fit { IfOk result (AllZip IsOfTable defs.now) }
    ensures refused { IfErr result (HasNoRows (seen F.contents F.failed F.faults files.old files.new) (Some name.now) defs.now) }
{
    let text = match files.read(alloc, name.as_str(), TABLES_READ_MAX) {
        Ok(text) => text,
        Err(OutFault::NoMemory) => return Err(Refusal::NoMemory),
        Err(OutFault::Failed) => {
            return Err(Refusal::ReadFault(Text::from_str(alloc, files.failed())?));
        }
    };
    let read = read_tables(alloc, text.as_slice(), defs);
    sources.keep_tables(alloc, name.as_str(), text);
    Ok(read?)
}

/// The declared tables without rows.
fn empty_tables(alloc: Global, defs: &[TableDef]) -> Result<List<TableRows>, NoMemory>
    ensures empty { IfOk result (λ tables. tables ≡ map empty_table defs.now) }
{
    let mut tables = List::new(alloc);
    for def in defs {
        tables.push(TableRows {
            name: def.name.copy(alloc)?,
            rows: List::new(alloc),
        })?;
    }
    Ok(tables)
}

// ---- loading

/// Gives the declared tables these rows in one transaction. A refusal leaves the tables as they were.
pub fn load(
    alloc: Global,
    defs: &[TableDef],
    loaded: List<TableRows>,
    store: &mut dyn Store,
) -> Result<(), OutFault>
    requires idle { is_open store.old ≡ false }
    requires fit { AllZip IsOfTable defs.now loaded }
    requires apart { are_distinct (map (λ (def : TheTableDef). def.name) defs.now) ≡ true }
    ensures name { name store.new ≡ name store.old }
    ensures idle { is_open store.new ≡ false }
    ensures loaded { OnOk result (tables store.new ≡ option_map (loaded_over defs.now loaded) (tables store.old)) }
    ensures refused { OnErr result (tables store.new ≡ tables store.old) }
    ensures cause { HasCause (faults store.old) (faults store.new) result }
    ensures counted { OnOk result (commits store.new ≡ next_count (commits store.old)) }
    ensures uncounted { OnErr result (commits store.new ≡ commits store.old) }
{
    store.begin(alloc)?;
    match put_all(alloc, defs, loaded, store) {
        Ok(()) => commit(alloc, store),
        Err(fault) => {
            store.abort();
            Err(fault)
        }
    }
}

fn commit(alloc: Global, store: &mut dyn Store) -> Result<(), OutFault>
    requires under_way { is_open store.old ≡ true }
    ensures name { name store.new ≡ name store.old }
    ensures idle { is_open store.new ≡ false }
    ensures ok { OnOk result (tables store.new ≡ tables store.old) }
    ensures refused { OnErr result (tables store.new ≡ kept store.old) }
    ensures cause { HasCause (faults store.old) (faults store.new) result }
    ensures counted { OnOk result (commits store.new ≡ next_count (commits store.old)) }
    ensures uncounted { OnErr result (commits store.new ≡ commits store.old) }
{
    store.commit(alloc)
}

/// Gives the declared tables these rows where a transaction is under way.
fn put_all(
    alloc: Global,
    defs: &[TableDef],
    loaded: List<TableRows>,
    store: &mut dyn Store,
) -> Result<(), OutFault>
    requires under_way { is_open store.old ≡ true }
    requires fit { AllZip IsOfTable defs.now loaded }
    ensures name { name store.new ≡ name store.old }
    ensures under_way { is_open store.new ≡ true }
    ensures put { OnOk result (tables store.new ≡ option_map (all_put loaded) (tables store.old)) }
    ensures kept { kept store.new ≡ kept store.old }
    ensures cause { HasCause (faults store.old) (faults store.new) result }
    ensures commits { commits store.new ≡ commits store.old }
{
    let mut left = defs;
    for table in loaded.into_vec() {
        let [def, others @ ..] = left else {
            unreachable!();
        };
        put_rows(alloc, def, table.into_rows(), store)?;
        left = others;
    }
    Ok(())
}

/// Gives a declared table these rows where a transaction is under way.
fn put_rows(
    alloc: Global,
    def: &TableDef,
    rows: List<Row>,
    store: &mut dyn Store,
) -> Result<(), OutFault>
    requires under_way { is_open store.old ≡ true }
    requires fit { all_fit def.now rows ≡ true }
    ensures name { name store.new ≡ name store.old }
    ensures under_way { is_open store.new ≡ true }
    ensures put { OnOk result (tables store.new ≡ option_map (with_rows def.now.name rows) (tables store.old)) }
    ensures kept { kept store.new ≡ kept store.old }
    ensures cause { HasCause (faults store.old) (faults store.new) result }
    ensures commits { commits store.new ≡ commits store.old }
{
    store.rewrite(alloc, def, rows)
}

// ---- the last scan

/// The declared tables with the rows that the store has, read in a transaction that ends by an abort.
pub fn last_scan(
    alloc: Global,
    defs: &[TableDef],
    store: &mut dyn Store,
) -> Result<List<TableRows>, OutFault>
    requires idle { is_open store.old ≡ false }
    requires fit { FitAll (tables store.old) defs.now }
    ensures name { name store.new ≡ name store.old }
    ensures idle { is_open store.new ≡ false }
    ensures tables { tables store.new ≡ tables store.old }
    ensures scanned { IfOk result (AllZip (IsScanned (tables store.old)) defs.now) }
    ensures cause { HasCause (faults store.old) (faults store.new) result }
    ensures commits { commits store.new ≡ commits store.old }
{
    store.begin(alloc)?;
    match scan_fitting(alloc, defs, store) {
        Ok(scanned) => {
            store.abort();
            Ok(scanned)
        }
        Err(fault) => {
            store.abort();
            Err(fault)
        }
    }
}
