ghost use Rattle.std.specs.Prelude.{◌≡◌, ◌↔◌, ◌⊎◌, ◌++◌, ◌≤◌, [], Some, false, codes, true, MatchBool, IsTrue, IsOk, IfOk, OnOk, IsErrOf};
ghost use Rattle.lk_ast.specs.Tables.{all_fit};
ghost use Rattle.lk_outside.specs.Calls.{NextFails, calls_after};
ghost use Rattle.lk_outside.specs.Causes.{HasCause, next_count};
ghost use Rattle.lk_outside.specs.Store.{HasForeignRow, Puts, ScanHasCause};
ghost use Rattle.lk_store.specs.FailingStore.{called};
ghost use Rattle.lk_store.specs.MemoryStore.{ChangesTables, aborted, begun, committed};
ghost use Rattle.lk_ast.specs.Tables.{rows_of};

use crate::MemoryStore;
use lk_ast::{List, Row, TableDef};
use lk_outside::{NumberedCalls, OutFault, Store};
use std::alloc::Global;
use std::marker::Model;

/// A store in memory, named `failing`, whose calls of `begin`, `scan`, `insert`, `rewrite` and `commit` are counted
/// together, and fail by their numbers.
#[derive(Drop)]
pub struct FailingStore {
    memory: MemoryStore,
    calls: NumberedCalls,
    faults: u64,
}

impl Model for FailingStore {
    ghost use Rattle.lk_store.specs.FailingStore.{FailingState};

    ghost Value = { FailingState };

    ghost view = { λ store.
        record { memory = store.memory; calls = store.calls; faults = store.faults } };
}

impl FailingStore {
    /// A store with no tables, and no transaction under way. The calls whose numbers, from 0, are in `failing` fail.
    pub fn new(alloc: Global, failing: List<u64>) -> FailingStore
        ensures name { ⟦<FailingStore as Store>⟧.name result ≡ codes "failing" }
        ensures idle { ⟦<FailingStore as Store>⟧.is_open result ≡ false }
        ensures tables { ⟦<FailingStore as Store>⟧.tables result ≡ Some (λ _. []) }
        ensures calls { result.calls ≡ record { failing = failing; made = 0 } }
        ensures commits { ⟦<FailingStore as Store>⟧.commits result ≡ 0 }
        ensures faults { ⟦<FailingStore as Store>⟧.faults result ≡ 0 }
    {
        FailingStore {
            memory: MemoryStore::new(alloc),
            calls: NumberedCalls::new(failing),
            faults: 0,
        }
    }

    // Makes one more of the calls that may fail, and tells whether it is to fail. If so, it counts the fault.
    fn next_fails(&mut self) -> bool
        ensures fails { IsTrue result ↔ NextFails self.old.calls }
        ensures memory { self.new.memory ≡ self.old.memory }
        ensures calls { self.new.calls ≡ calls_after self.old.calls }
        ensures faults { MatchBool result
            (self.new.faults ≡ next_count self.old.faults) (self.new.faults ≡ self.old.faults) }
        ensures later { self.old.faults ≤ self.new.faults }
    {
        let fails = self.calls.next_fails();
        if fails {
            self.faults = self.faults.saturating_add(1);
        }
        fails
    }
}

impl Store for FailingStore {
    ghost name = { λ _. codes "failing" };

    ghost is_open = { λ store. ⟦<MemoryStore as Store>⟧.is_open store.memory };

    ghost tables = { λ store. ⟦<MemoryStore as Store>⟧.tables store.memory };

    ghost kept = { λ store. ⟦<MemoryStore as Store>⟧.kept store.memory };

    ghost commits = { λ store. ⟦<MemoryStore as Store>⟧.commits store.memory };

    ghost faults = { λ store. store.faults };

    fn name(&self) -> &str {
        "failing"
    }

    fn begin(&mut self, alloc: Global) -> Result<(), OutFault>
        ensures fails { IsErrOf result OutFault.Failed ↔ NextFails self.old.calls }
        ensures after { self.new ≡ called result self.old (begun result self.old.memory) }
        ensures cause { HasCause self.old.faults self.new.faults result }
    {
        if self.next_fails() {
            return Err(OutFault::Failed);
        }
        self.memory.begin(alloc)
    }

    fn scan(&mut self, alloc: Global, table: &TableDef) -> Result<List<Row>, OutFault>
        ensures in_order { IfOk result (λ rows.
            rows ≡ rows_of self.old.memory.tables table.now.name) }
        ensures columns { IfOk result (λ rows. all_fit table.now rows ≡ true) }
        ensures numbered { NextFails self.old.calls → IsErrOf result OutFault.Failed }
        ensures fails { IsErrOf result OutFault.Failed → NextFails self.old.calls
            ⊎ HasForeignRow (Some (rows_of self.old.memory.tables)) table.now }
        ensures counted { NextFails self.old.calls → self.new.faults ≡ next_count self.old.faults }
        ensures uncounted { ¬ NextFails self.old.calls → self.new.faults ≡ self.old.faults }
        ensures memory { self.new.memory ≡ self.old.memory }
        ensures calls { self.new.calls ≡ calls_after self.old.calls }
        ensures cause { ScanHasCause self.old.faults self.new.faults
            (Some (rows_of self.old.memory.tables)) table.now result }
    {
        if self.next_fails() {
            return Err(OutFault::Failed);
        }
        self.memory.scan(alloc, table)
    }

    fn insert(&mut self, alloc: Global, table: &TableDef, rows: List<Row>) -> Result<(), OutFault>
        ensures fails { IsErrOf result OutFault.Failed ↔ NextFails self.old.calls }
        ensures ok { OnOk result (Puts
            (rows_of self.old.memory.tables) (rows_of self.new.memory.tables)
            table.now.name (rows_of self.old.memory.tables table.now.name ++ rows)) }
        ensures others { ChangesTables self.old.memory self.new.memory }
        ensures after { self.new ≡ called result self.old self.new.memory }
        ensures cause { HasCause self.old.faults self.new.faults result }
    {
        if self.next_fails() {
            return Err(OutFault::Failed);
        }
        self.memory.insert(alloc, table, rows)
    }

    fn rewrite(&mut self, alloc: Global, table: &TableDef, rows: List<Row>) -> Result<(), OutFault>
        ensures fails { IsErrOf result OutFault.Failed ↔ NextFails self.old.calls }
        ensures ok { OnOk result (Puts
            (rows_of self.old.memory.tables) (rows_of self.new.memory.tables)
            table.now.name rows) }
        ensures others { ChangesTables self.old.memory self.new.memory }
        ensures after { self.new ≡ called result self.old self.new.memory }
        ensures cause { HasCause self.old.faults self.new.faults result }
    {
        if self.next_fails() {
            return Err(OutFault::Failed);
        }
        self.memory.rewrite(alloc, table, rows)
    }

    fn commit(&mut self, alloc: Global) -> Result<(), OutFault>
        ensures fails { IsErrOf result OutFault.Failed ↔ NextFails self.old.calls }
        ensures after { self.new ≡ called result self.old (committed result self.old.memory) }
        ensures cause { HasCause self.old.faults self.new.faults result }
    {
        if self.next_fails() {
            self.memory.abort();
            return Err(OutFault::Failed);
        }
        self.memory.commit(alloc)
    }

    fn abort(&mut self)
        ensures { self.new ≡ record self.old { memory = aborted self.old.memory } }
    {
        self.memory.abort()
    }

    fn faults(&self) -> u64 {
        self.faults
    }
}
