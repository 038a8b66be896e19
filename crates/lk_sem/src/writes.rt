//! Writings of tables.

ghost use Rattle.std.specs.Prelude.{◌≡◌, ◌++◌, true, false, IfOk, IfErr, OnErr, OnOk};
ghost use Rattle.lk_ast.specs.Tables.{all_fit};
ghost use Rattle.lk_outside.specs.Causes.{HasCause};
ghost use Rattle.lk_outside.specs.Scans.{FitsTold};
ghost use Rattle.lk_outside.specs.Store.{Changes};
ghost use Rattle.lk_sem.specs.Writings.{HasAdded, HasChanged, HasWritten, IsDeletion, IsInsertion, IsUpdate, commits_written};
ghost use Rattle.lk_sound.specs.Histories.{AreFit};
ghost use Rattle.lk_sound.specs.Law.{AreBoundAndApart};
ghost use Rattle.lk_sound.specs.Tables.{IsWriting};

use crate::catalog::Catalog;
use crate::reads::scan_rows;
use crate::rows::rows_in;
use lk_ast::{ChangeExpr, Expr, List, MOST_ROWS, Node, Row, TableDef, Value, Word};
use lk_bag::{kept_rows, updated_rows};
use lk_outside::{OutFault, Store};
use std::alloc::Global;

/// What becomes of a writing: it is done, or it is an insertion that would have left that many rows in its table, too many.
#[derive(Drop)]
pub enum Written {
    Done,
    Full(u64),
}

/// Writes a table in a transaction of its own, for what begins at that place with what it captured, or with the rows of an
/// insertion.
pub fn write_at<'p>(
    alloc: Global,
    catalog: &Catalog<'p>,
    store: &mut dyn Store,
    site: u32,
    args: &[Value],
) -> Result<Written, OutFault>
    requires apart { AreBoundAndApart catalog.now }
    requires idle { is_open store.old ≡ false }
    requires fit { AreFit catalog.now (tables store.old) }
    requires writing { IsWriting catalog.now site args.now }
    ensures name { name store.new ≡ name store.old }
    ensures idle { is_open store.new ≡ false }
    ensures cause { HasCause (faults store.old) (faults store.new) result }
    ensures counted { IfOk result (λ written. commits store.new ≡ commits_written written (commits store.old)) }
    ensures uncounted { OnErr result (commits store.new ≡ commits store.old) }
    ensures written { IfOk result (HasWritten catalog.now site args.now (tables store.old) (tables store.new)) }
    ensures refused { IfErr result (λ fault. tables store.new ≡ tables store.old) }
{
    store.begin(alloc)?;
    match write_open(alloc, catalog, store, site, args) {
        Ok(Written::Done) => {
            store.commit(alloc)?;
            Ok(Written::Done)
        }
        Ok(Written::Full(size)) => {
            store.abort();
            Ok(Written::Full(size))
        }
        Err(fault) => {
            store.abort();
            Err(fault)
        }
    }
}

/// Writes a table where a transaction is under way.
fn write_open<'p>(
    alloc: Global,
    catalog: &Catalog<'p>,
    store: &mut dyn Store,
    site: u32,
    args: &[Value],
) -> Result<Written, OutFault>
    requires apart { AreBoundAndApart catalog.now }
    requires under_way { is_open store.old ≡ true }
    requires fit { AreFit catalog.now (tables store.old) }
    requires writing { IsWriting catalog.now site args.now }
    ensures name { name store.new ≡ name store.old }
    ensures under_way { is_open store.new ≡ true }
    ensures kept { kept store.new ≡ kept store.old }
    ensures cause { HasCause (faults store.old) (faults store.new) result }
    ensures commits { commits store.new ≡ commits store.old }
    ensures written { IfOk result (HasWritten catalog.now site args.now (tables store.old) (tables store.new)) }
{
    let Some(block) = catalog.block(site) else {
        unreachable!()
    };
    match block.node.get() {
        Node::Insert(table, _) => insert_rows(alloc, catalog, store, site, table, args),
        Node::Update(change) => {
            update_rows(alloc, catalog, store, site, block, change, args)?;
            Ok(Written::Done)
        }
        Node::Delete(change) => {
            delete_rows(alloc, catalog, store, site, block, change, args)?;
            Ok(Written::Done)
        }
        _ => unreachable!(),
    }
}

/// Puts the rows of an insertion behind those of its table, where a transaction is under way.
fn insert_rows<'p>(
    alloc: Global,
    catalog: &Catalog<'p>,
    store: &mut dyn Store,
    site: u32,
    table: &Word,
    args: &[Value],
) -> Result<Written, OutFault>
    requires apart { AreBoundAndApart catalog.now }
    requires under_way { is_open store.old ≡ true }
    requires fit { AreFit catalog.now (tables store.old) }
    requires insertion { IsInsertion catalog.now site args.now table.now }
    ensures name { name store.new ≡ name store.old }
    ensures under_way { is_open store.new ≡ true }
    ensures kept { kept store.new ≡ kept store.old }
    ensures cause { HasCause (faults store.old) (faults store.new) result }
    ensures commits { commits store.new ≡ commits store.old }
    ensures written { IfOk result (HasWritten catalog.now site args.now (tables store.old) (tables store.new)) }
{
    let Some(def) = catalog.table(&table.text) else {
        unreachable!()
    };
    let Some(rows) = rows_in(alloc, args)? else {
        unreachable!()
    };
    add_rows(alloc, def, store, rows)
}

/// Puts rows, which fit it, behind those of a table, unless it would have too many.
fn add_rows(
    alloc: Global,
    def: &TableDef,
    store: &mut dyn Store,
    rows: List<Row>,
) -> Result<Written, OutFault>
    requires under_way { is_open store.old ≡ true }
    requires fit { FitsTold (tables store.old) def.now }
    requires columns { all_fit def.now rows ≡ true }
    ensures name { name store.new ≡ name store.old }
    ensures under_way { is_open store.new ≡ true }
    ensures kept { kept store.new ≡ kept store.old }
    ensures cause { HasCause (faults store.old) (faults store.new) result }
    ensures commits { commits store.new ≡ commits store.old }
    ensures added { IfOk result (HasAdded (tables store.old) (tables store.new) def.now.name rows) }
{
    let there = scan_rows(alloc, def, store)?;
    let size = (there.as_slice().len() + rows.as_slice().len()) as u64;
    if size > MOST_ROWS {
        return Ok(Written::Full(size));
    }
    append_rows(alloc, def, store, rows)?;
    Ok(Written::Done)
}

/// Puts rows behind those of a table.
fn append_rows(
    alloc: Global,
    def: &TableDef,
    store: &mut dyn Store,
    rows: List<Row>,
) -> Result<(), OutFault>
    requires under_way { is_open store.old ≡ true }
    requires columns { all_fit def.now rows ≡ true }
    ensures name { name store.new ≡ name store.old }
    ensures under_way { is_open store.new ≡ true }
    ensures ok { OnOk result (Changes (tables store.old) (tables store.new) def.now.name (λ before. before ++ rows)) }
    ensures kept { kept store.new ≡ kept store.old }
    ensures cause { HasCause (faults store.old) (faults store.new) result }
    ensures commits { commits store.new ≡ commits store.old }
{
    store.insert(alloc, def, rows)
}

/// Changes the rows of a table, where a transaction is under way.
fn update_rows<'p>(
    alloc: Global,
    catalog: &Catalog<'p>,
    store: &mut dyn Store,
    site: u32,
    block: &'p Expr,
    change: &'p ChangeExpr,
    args: &[Value],
) -> Result<(), OutFault>
    requires apart { AreBoundAndApart catalog.now }
    requires under_way { is_open store.old ≡ true }
    requires fit { AreFit catalog.now (tables store.old) }
    requires update { IsUpdate catalog.now site args.now block.now change.now }
    ensures name { name store.new ≡ name store.old }
    ensures under_way { is_open store.new ≡ true }
    ensures kept { kept store.new ≡ kept store.old }
    ensures cause { HasCause (faults store.old) (faults store.new) result }
    ensures commits { commits store.new ≡ commits store.old }
    ensures changed { OnOk result (HasChanged catalog.now site args.now (tables store.old) (tables store.new)) }
{
    let Some(def) = catalog.table(&change.table.text) else {
        unreachable!()
    };
    let there = scan_rows(alloc, def, store)?;
    let rows = updated_rows(alloc, catalog.index(), block, change, args, there)?;
    put_rows(alloc, def, store, rows)
}

/// Leaves the rows of a table that a deletion keeps, where a transaction is under way.
fn delete_rows<'p>(
    alloc: Global,
    catalog: &Catalog<'p>,
    store: &mut dyn Store,
    site: u32,
    block: &'p Expr,
    change: &'p ChangeExpr,
    args: &[Value],
) -> Result<(), OutFault>
    requires apart { AreBoundAndApart catalog.now }
    requires under_way { is_open store.old ≡ true }
    requires fit { AreFit catalog.now (tables store.old) }
    requires deletion { IsDeletion catalog.now site args.now block.now change.now }
    ensures name { name store.new ≡ name store.old }
    ensures under_way { is_open store.new ≡ true }
    ensures kept { kept store.new ≡ kept store.old }
    ensures cause { HasCause (faults store.old) (faults store.new) result }
    ensures commits { commits store.new ≡ commits store.old }
    ensures changed { OnOk result (HasChanged catalog.now site args.now (tables store.old) (tables store.new)) }
{
    let Some(def) = catalog.table(&change.table.text) else {
        unreachable!()
    };
    let there = scan_rows(alloc, def, store)?;
    let rows = kept_rows(alloc, catalog.index(), block, change, args, there)?;
    put_rows(alloc, def, store, rows)
}

/// Replaces all rows of a table.
fn put_rows(
    alloc: Global,
    def: &TableDef,
    store: &mut dyn Store,
    rows: List<Row>,
) -> Result<(), OutFault>
    requires under_way { is_open store.old ≡ true }
    requires columns { all_fit def.now rows ≡ true }
    ensures name { name store.new ≡ name store.old }
    ensures under_way { is_open store.new ≡ true }
    ensures ok { OnOk result (Changes (tables store.old) (tables store.new) def.now.name (λ _. rows)) }
    ensures kept { kept store.new ≡ kept store.old }
    ensures cause { HasCause (faults store.old) (faults store.new) result }
    ensures commits { commits store.new ≡ commits store.old }
{
    store.rewrite(alloc, def, rows)
}
