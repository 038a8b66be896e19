ghost use Rattle.std.specs.Prelude.{◌≡◌, ◌≤◌, ◌++◌, List, ℕ, Bool, true, false, Option, IfOk, OnOk, OnErr, IfSome, is_ok, IsPermutation};
ghost use Rattle.lk_ast.specs.Tables.{Tables, all_fit};
ghost use Rattle.lk_outside.specs.Causes.{HasCause, next_count};
ghost use Rattle.lk_outside.specs.Store.{Changes, ScanHasCause};

use crate::OutFault;
use lk_ast::{List, Row, TableDef};
use std::alloc::Global;

/// Tables of rows, which are changed in transactions. A refused `insert` or `rewrite` may have changed the tables in
/// part: `abort` brings back what was there.
pub trait Store {
    /// Its name, which never changes.
    ghost name: { Self → List ℕ };

    /// Whether a transaction is under way.
    ghost is_open: { Self → Bool };

    /// The rows of its tables, or `None` where that isn't told.
    ghost tables: { Self → Option Tables };

    /// What the tables were at `begin`, or `None` where that isn't told.
    ghost kept: { Self → Option Tables };

    /// How many transactions were committed, up to the greatest `u64`.
    ghost commits: { Self → ℕ };

    /// The count of faults. A call that answers `Failed` raises it, but for a scan of a table that holds a row of other
    /// columns. One that passes leaves it as it was.
    ghost faults: { Self → ℕ };

    /// Its name.
    fn name(&self) -> &str
        ensures { result.now ≡ name self.now };

    /// Begins a transaction where none is under way. A refusal begins none.
    fn begin(&mut self, alloc: Global) -> Result<(), OutFault>
        requires { is_open self.old ≡ false }
        ensures name { name self.new ≡ name self.old }
        ensures under_way { is_open self.new ≡ is_ok result }
        ensures tables { tables self.new ≡ tables self.old }
        ensures kept { OnOk result (kept self.new ≡ tables self.old) }
        ensures cause { HasCause (faults self.old) (faults self.new) result }
        ensures commits { commits self.new ≡ commits self.old };

    /// The rows of a table, in some order; an absent table has none. Where it holds a row of other columns, the scan is
    /// refused.
    fn scan(&mut self, alloc: Global, table: &TableDef) -> Result<List<Row>, OutFault>
        requires { is_open self.old ≡ true }
        ensures name { name self.new ≡ name self.old }
        ensures under_way { is_open self.new ≡ true }
        ensures tables { tables self.new ≡ tables self.old }
        ensures kept { kept self.new ≡ kept self.old }
        ensures rows { IfOk result (λ rows. IfSome (tables self.old) (λ told.
            IsPermutation (told table.now.name) rows)) }
        ensures columns { IfOk result (λ rows. all_fit table.now rows ≡ true) }
        ensures cause { ScanHasCause (faults self.old) (faults self.new)
            (tables self.old) table.now result }
        ensures commits { commits self.new ≡ commits self.old };

    /// Adds rows, which fit the table's columns, behind those of the table.
    fn insert(&mut self, alloc: Global, table: &TableDef, rows: List<Row>) -> Result<(), OutFault>
        requires under_way { is_open self.old ≡ true }
        requires columns { all_fit table.now rows ≡ true }
        ensures name { name self.new ≡ name self.old }
        ensures under_way { is_open self.new ≡ true }
        ensures ok { OnOk result (Changes (tables self.old) (tables self.new)
            table.now.name (λ before. before ++ rows)) }
        ensures kept { kept self.new ≡ kept self.old }
        ensures cause { HasCause (faults self.old) (faults self.new) result }
        ensures commits { commits self.new ≡ commits self.old };

    /// Replaces all rows of a table by these, which fit its columns.
    fn rewrite(&mut self, alloc: Global, table: &TableDef, rows: List<Row>) -> Result<(), OutFault>
        requires under_way { is_open self.old ≡ true }
        requires columns { all_fit table.now rows ≡ true }
        ensures name { name self.new ≡ name self.old }
        ensures under_way { is_open self.new ≡ true }
        ensures ok { OnOk result (Changes (tables self.old) (tables self.new)
            table.now.name (λ _. rows)) }
        ensures kept { kept self.new ≡ kept self.old }
        ensures cause { HasCause (faults self.old) (faults self.new) result }
        ensures commits { commits self.new ≡ commits self.old };

    /// Ends the transaction, counts it and leaves the tables as they are. A refusal ends it too, without counting it, and
    /// sets them back to what they were at `begin`.
    fn commit(&mut self, alloc: Global) -> Result<(), OutFault>
        requires { is_open self.old ≡ true }
        ensures name { name self.new ≡ name self.old }
        ensures closed { is_open self.new ≡ false }
        ensures ok { OnOk result (tables self.new ≡ tables self.old) }
        ensures refused { OnErr result (tables self.new ≡ kept self.old) }
        ensures cause { HasCause (faults self.old) (faults self.new) result }
        ensures counted { OnOk result (commits self.new ≡ next_count (commits self.old)) }
        ensures uncounted { OnErr result (commits self.new ≡ commits self.old) };

    /// Ends the transaction and sets the tables back to what they were at `begin`. It takes no memory and can't be
    /// refused.
    fn abort(&mut self)
        requires { is_open self.old ≡ true }
        ensures name { name self.new ≡ name self.old }
        ensures closed { is_open self.new ≡ false }
        ensures tables { tables self.new ≡ kept self.old }
        ensures faults { faults self.new ≡ faults self.old }
        ensures commits { commits self.new ≡ commits self.old };

    /// The count of faults, which stays at the greatest `u64` once it is there.
    fn faults(&self) -> u64
        ensures { result ≡ faults self.now };
}
