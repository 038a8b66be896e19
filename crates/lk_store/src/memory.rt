ghost use Rattle.std.specs.Prelude.{◌≡◌, ◌++◌, [], Some, true, false, codes, IsOk, IfOk, OnOk, IsErrOf};
ghost use Rattle.lk_ast.specs.Tables.{all_fit as rows_fit};
ghost use Rattle.lk_outside.specs.Store.{Puts};
ghost use Rattle.lk_store.specs.MemoryStore.{ChangesTables, aborted, begun, committed};
ghost use Rattle.lk_ast.specs.Tables.{rows_of};

use crate::named_tables::{self, NamedTables};
use lk_ast::{List, Row, TableDef, all_fit, copy_rows};
use lk_outside::{OutFault, Store};
use std::alloc::Global;
use std::collections::BTreeMap;
use std::marker::Model;
use std::mem;

/// A store in memory, named `memory`. No call answers `Failed` but a scan of a table that holds a row of other columns.
#[derive(Drop)]
pub struct MemoryStore {
    tables: NamedTables,
    kept: NamedTables,
    is_open: bool,
    commits: u64,
}

impl Model for MemoryStore {
    ghost use Rattle.lk_store.specs.Listed.{listed};
    ghost use Rattle.lk_store.specs.MemoryStore.{MemoryState};

    ghost Value = { MemoryState };

    ghost view = { λ store.
        record { tables = listed store.tables; kept = listed store.kept; is_open = store.is_open; commits = store.commits } };
}

impl MemoryStore {
    /// A store with no tables, and no transaction under way.
    pub fn new(alloc: Global) -> MemoryStore
        ensures name { ⟦<MemoryStore as Store>⟧.name result ≡ codes "memory" }
        ensures idle { ⟦<MemoryStore as Store>⟧.is_open result ≡ false }
        ensures tables { ⟦<MemoryStore as Store>⟧.tables result ≡ Some (λ _. []) }
        ensures commits { ⟦<MemoryStore as Store>⟧.commits result ≡ 0 }
        ensures faults { ⟦<MemoryStore as Store>⟧.faults result ≡ 0 }
    {
        MemoryStore {
            tables: BTreeMap::new(alloc),
            kept: BTreeMap::new(alloc),
            is_open: false,
            commits: 0,
        }
    }
}

impl Store for MemoryStore {
    ghost name = { λ _. codes "memory" };

    ghost is_open = { λ store. store.is_open };

    ghost tables = { λ store. Some (rows_of store.tables) };

    ghost kept = { λ store. Some (rows_of store.kept) };

    ghost commits = { λ store. store.commits };

    ghost faults = { λ _. 0 };

    fn name(&self) -> &str {
        "memory"
    }

    fn begin(&mut self, alloc: Global) -> Result<(), OutFault>
        ensures never_fails { ¬ IsErrOf result OutFault.Failed }
        ensures after { self.new ≡ begun result self.old }
    {
        self.kept = named_tables::copy_tables(alloc, &self.tables)?;
        self.is_open = true;
        Ok(())
    }

    fn scan(&mut self, alloc: Global, table: &TableDef) -> Result<List<Row>, OutFault>
        ensures unchanged { self.new ≡ self.old }
        ensures in_order { IfOk result (λ rows. rows ≡ rows_of self.old.tables table.now.name) }
        ensures passes { IsOk result →
            rows_fit table.now (rows_of self.old.tables table.now.name) ≡ true }
        ensures fails { IsErrOf result OutFault.Failed →
            rows_fit table.now (rows_of self.old.tables table.now.name) ≡ false }
    {
        let rows = named_tables::rows_of(&self.tables, table.name.as_str());
        if !all_fit(table, rows) {
            return Err(OutFault::Failed);
        }
        Ok(copy_rows(alloc, rows)?)
    }

    fn insert(&mut self, alloc: Global, table: &TableDef, rows: List<Row>) -> Result<(), OutFault>
        ensures never_fails { ¬ IsErrOf result OutFault.Failed }
        ensures ok { OnOk result (Puts (rows_of self.old.tables) (rows_of self.new.tables)
            table.now.name (rows_of self.old.tables table.now.name ++ rows)) }
        ensures others { ChangesTables self.old self.new }
    {
        named_tables::add_rows(alloc, &mut self.tables, table.name.as_str(), rows)?;
        Ok(())
    }

    fn rewrite(&mut self, alloc: Global, table: &TableDef, rows: List<Row>) -> Result<(), OutFault>
        ensures never_fails { ¬ IsErrOf result OutFault.Failed }
        ensures ok { OnOk result (Puts (rows_of self.old.tables) (rows_of self.new.tables)
            table.now.name rows) }
        ensures others { ChangesTables self.old self.new }
    {
        named_tables::set_rows(alloc, &mut self.tables, table.name.as_str(), rows)?;
        Ok(())
    }

    fn commit(&mut self, alloc: Global) -> Result<(), OutFault>
        ensures accepted { IsOk result }
        ensures after { self.new ≡ committed result self.old }
    {
        self.kept = BTreeMap::new(alloc);
        self.is_open = false;
        self.commits = self.commits.saturating_add(1);
        Ok(())
    }

    fn abort(&mut self)
        ensures { self.new ≡ aborted self.old }
    {
        mem::swap(&mut self.tables, &mut self.kept);
        self.kept.clear();
        self.is_open = false;
    }

    fn faults(&self) -> u64 {
        0
    }
}
