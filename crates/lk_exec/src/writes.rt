//! What insertions, updates and deletions make of a table.

ghost use Rattle.lk_ast.specs.Tables.{all_fit, row_fits};
ghost use Rattle.lk_ast.specs.declared.table.Row.{Row as TheRow};
ghost use Rattle.lk_exec.specs.Causes.{HasCause, IfFull};
ghost use Rattle.lk_exec.specs.Writings.{kept_rows as rows_kept, updated, updated_rows as rows_updated};
ghost use Rattle.lk_outside.specs.Causes.{HasCause as OutHasCause, HasCauseOr};
ghost use Rattle.lk_outside.specs.Scans.{IsListed};
ghost use Rattle.lk_outside.specs.Store.{Changes, HasForeignRow};
ghost use Rattle.lk_outside.specs.TableSizes.{HasRoom, IsOverfull};
ghost use Rattle.std.specs.Prelude.{◌≡◌, ◌++◌, true, List, OnOk};

use crate::changes::{kept_rows, updated_rows};
use crate::error::{ExecError, raised, raised_in};
use crate::scans::scan_rows;
use lk_ast::{Base, List, MOST_ROWS, Row, TableDef};
use lk_outside::{OutFault, Store};
use lk_sql::{Out, Scalar};
use std::alloc::Global;

// ---- insertions

/// Adds rows behind those of a table, where a transaction is under way. `TableFull` where it would have more than 65,536; nothing
/// has changed then.
pub fn insert_rows(
    alloc: Global,
    def: &TableDef,
    rows: List<Row>,
    store: &mut dyn Store,
) -> Result<(), ExecError>
    requires under_way { is_open store.old ≡ true }
    requires columns { all_fit def.now rows ≡ true }
    ensures name { name store.new ≡ name store.old }
    ensures under_way { is_open store.new ≡ true }
    ensures kept { kept store.new ≡ kept store.old }
    ensures commits { commits store.new ≡ commits store.old }
    ensures room { OnOk result (HasRoom (tables store.old) def.now.name rows) }
    ensures added { OnOk result (Changes (tables store.old) (tables store.new) def.now.name (λ before. before ++ rows)) }
    ensures full { IfFull result (IsOverfull (tables store.old) def.now.name rows) }
    ensures unchanged { IfFull result (λ size. tables store.new ≡ tables store.old) }
    ensures no_fault { IfFull result (λ size. faults store.new ≡ faults store.old) }
    ensures cause { HasCause (faults store.old) (faults store.new) (HasForeignRow (tables store.old) def.now) result }
{
    let there = match scan_rows(alloc, def, store) {
        Ok(there) => there,
        Err(fault) => return Err(raised(fault)),
    };
    let size = (there.as_slice().len() + rows.as_slice().len()) as u64;
    if size > MOST_ROWS {
        return Err(ExecError::TableFull(size));
    }
    raised_in(append_rows(alloc, def, rows, store))
}

/// Adds rows behind those of a table.
fn append_rows(
    alloc: Global,
    def: &TableDef,
    rows: List<Row>,
    store: &mut dyn Store,
) -> Result<(), OutFault>
    requires under_way { is_open store.old ≡ true }
    requires columns { all_fit def.now rows ≡ true }
    ensures name { name store.new ≡ name store.old }
    ensures under_way { is_open store.new ≡ true }
    ensures ok { OnOk result (Changes (tables store.old) (tables store.new) def.now.name (λ before. before ++ rows)) }
    ensures kept { kept store.new ≡ kept store.old }
    ensures commits { commits store.new ≡ commits store.old }
    ensures cause { OutHasCause (faults store.old) (faults store.new) result }
{
    store.insert(alloc, def, rows)
}

// ---- updates and deletions

/// Sets the columns of those rows of a table for which the condition holds, where a transaction is under way. Conditions and
/// values see the old row alone, as that of generator 1.
pub fn update_rows(
    alloc: Global,
    def: &TableDef,
    cond: &Scalar,
    sets: &[Out],
    params: &[Base],
    store: &mut dyn Store,
) -> Result<(), ExecError>
    requires under_way { is_open store.old ≡ true }
    requires keeps { (row : TheRow) → row_fits def.now row ≡ true → row_fits def.now (updated params.now cond.now sets.now row) ≡ true }
    ensures name { name store.new ≡ name store.old }
    ensures under_way { is_open store.new ≡ true }
    ensures kept { kept store.new ≡ kept store.old }
    ensures commits { commits store.new ≡ commits store.old }
    ensures changed { OnOk result ((listed : List TheRow) × IsListed (tables store.old) def.now listed
        × Changes (tables store.old) (tables store.new) def.now.name (λ before. rows_updated params.now cond.now sets.now listed)) }
    ensures cause { HasCause (faults store.old) (faults store.new) (HasForeignRow (tables store.old) def.now) result }
    ensures never_full { IfFull result (λ size. ⊥) }
{
    raised_in(update_open(alloc, def, cond, sets, params, store))
}

/// The same, with the store's own fault.
fn update_open(
    alloc: Global,
    def: &TableDef,
    cond: &Scalar,
    sets: &[Out],
    params: &[Base],
    store: &mut dyn Store,
) -> Result<(), OutFault>
    requires under_way { is_open store.old ≡ true }
    requires keeps { (row : TheRow) → row_fits def.now row ≡ true → row_fits def.now (updated params.now cond.now sets.now row) ≡ true }
    ensures name { name store.new ≡ name store.old }
    ensures under_way { is_open store.new ≡ true }
    ensures kept { kept store.new ≡ kept store.old }
    ensures commits { commits store.new ≡ commits store.old }
    ensures changed { OnOk result ((listed : List TheRow) × IsListed (tables store.old) def.now listed
        × Changes (tables store.old) (tables store.new) def.now.name (λ before. rows_updated params.now cond.now sets.now listed)) }
    ensures cause { HasCauseOr (faults store.old) (faults store.new) (HasForeignRow (tables store.old) def.now) result }
{
    let there = scan_rows(alloc, def, store)?;
    let rows = updated_rows(alloc, cond, sets, params, there)?;
    put_rows(alloc, def, rows, store)
}

/// Leaves those rows of a table for which the condition doesn't hold, where a transaction is under way. It sees the row as that
/// of generator 1.
pub fn delete_rows(
    alloc: Global,
    def: &TableDef,
    cond: &Scalar,
    params: &[Base],
    store: &mut dyn Store,
) -> Result<(), ExecError>
    requires under_way { is_open store.old ≡ true }
    ensures name { name store.new ≡ name store.old }
    ensures under_way { is_open store.new ≡ true }
    ensures kept { kept store.new ≡ kept store.old }
    ensures commits { commits store.new ≡ commits store.old }
    ensures changed { OnOk result ((listed : List TheRow) × IsListed (tables store.old) def.now listed
        × Changes (tables store.old) (tables store.new) def.now.name (λ before. rows_kept params.now cond.now listed)) }
    ensures cause { HasCause (faults store.old) (faults store.new) (HasForeignRow (tables store.old) def.now) result }
    ensures never_full { IfFull result (λ size. ⊥) }
{
    raised_in(delete_open(alloc, def, cond, params, store))
}

/// The same, with the store's own fault.
fn delete_open(
    alloc: Global,
    def: &TableDef,
    cond: &Scalar,
    params: &[Base],
    store: &mut dyn Store,
) -> Result<(), OutFault>
    requires under_way { is_open store.old ≡ true }
    ensures name { name store.new ≡ name store.old }
    ensures under_way { is_open store.new ≡ true }
    ensures kept { kept store.new ≡ kept store.old }
    ensures commits { commits store.new ≡ commits store.old }
    ensures changed { OnOk result ((listed : List TheRow) × IsListed (tables store.old) def.now listed
        × Changes (tables store.old) (tables store.new) def.now.name (λ before. rows_kept params.now cond.now listed)) }
    ensures cause { HasCauseOr (faults store.old) (faults store.new) (HasForeignRow (tables store.old) def.now) result }
{
    let there = scan_rows(alloc, def, store)?;
    let rows = kept_rows(alloc, cond, params, there)?;
    put_rows(alloc, def, rows, store)
}

/// Replaces all rows of a table.
fn put_rows(
    alloc: Global,
    def: &TableDef,
    rows: List<Row>,
    store: &mut dyn Store,
) -> Result<(), OutFault>
    requires under_way { is_open store.old ≡ true }
    requires columns { all_fit def.now rows ≡ true }
    ensures name { name store.new ≡ name store.old }
    ensures under_way { is_open store.new ≡ true }
    ensures ok { OnOk result (Changes (tables store.old) (tables store.new) def.now.name (λ _. rows)) }
    ensures kept { kept store.new ≡ kept store.old }
    ensures commits { commits store.new ≡ commits store.old }
    ensures cause { OutHasCause (faults store.old) (faults store.new) result }
{
    store.rewrite(alloc, def, rows)
}
