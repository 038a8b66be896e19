//! Readings of tables.

ghost use Rattle.std.specs.Prelude.{◌≡◌, true, false, IfOk, IfSome, OnErr, OnOk};
ghost use Rattle.lk_ast.specs.Tables.{all_fit, rows_of};
ghost use Rattle.lk_outside.specs.Causes.{HasCause, next_count};
ghost use Rattle.lk_outside.specs.Scans.{FitsTold, IsListed};
ghost use Rattle.lk_sound.specs.Histories.{AreFit, HasAnswer, HasFollowed, read_event};
ghost use Rattle.lk_sound.specs.Law.{AreBoundAndApart};
ghost use Rattle.lk_sound.specs.Tables.{IsReading};

use crate::catalog::Catalog;
use lk_ast::{List, Row, TableDef, Value};
use lk_bag::answer;
use lk_outside::{OutFault, Store, scan_fitting};
use std::alloc::Global;

/// Reads tables in a transaction of its own, for what begins at that place with what it captured.
pub fn read_at<'p>(
    alloc: Global,
    catalog: &Catalog<'p>,
    store: &mut dyn Store,
    site: u32,
    args: &[Value],
) -> Result<List<Row>, OutFault>
    requires apart { AreBoundAndApart catalog.now }
    requires idle { is_open store.old ≡ false }
    requires fit { AreFit catalog.now (tables store.old) }
    requires reading { IsReading catalog.now site args.now }
    ensures name { name store.new ≡ name store.old }
    ensures idle { is_open store.new ≡ false }
    ensures tables { tables store.new ≡ tables store.old }
    ensures cause { HasCause (faults store.old) (faults store.new) result }
    ensures counted { OnOk result (commits store.new ≡ next_count (commits store.old)) }
    ensures uncounted { OnErr result (commits store.new ≡ commits store.old) }
    ensures answered { IfOk result (λ answer. HasAnswer catalog.now (read_event site args.now answer)) }
    ensures follows { IfOk result (λ answer. HasFollowed catalog.now (tables store.old) (tables store.old) (read_event site args.now answer)) }
{
    store.begin(alloc)?;
    match read_open(alloc, catalog, store, site, args) {
        Ok(rows) => {
            store.commit(alloc)?;
            Ok(rows)
        }
        Err(fault) => {
            store.abort();
            Err(fault)
        }
    }
}

/// Reads tables where a transaction is under way.
fn read_open<'p>(
    alloc: Global,
    catalog: &Catalog<'p>,
    store: &mut dyn Store,
    site: u32,
    args: &[Value],
) -> Result<List<Row>, OutFault>
    requires apart { AreBoundAndApart catalog.now }
    requires under_way { is_open store.old ≡ true }
    requires fit { AreFit catalog.now (tables store.old) }
    requires reading { IsReading catalog.now site args.now }
    ensures name { name store.new ≡ name store.old }
    ensures under_way { is_open store.new ≡ true }
    ensures tables { tables store.new ≡ tables store.old }
    ensures kept { kept store.new ≡ kept store.old }
    ensures cause { HasCause (faults store.old) (faults store.new) result }
    ensures commits { commits store.new ≡ commits store.old }
    ensures answered { IfOk result (λ answer. HasAnswer catalog.now (read_event site args.now answer)) }
    ensures follows { IfOk result (λ answer. HasFollowed catalog.now (tables store.old) (tables store.old) (read_event site args.now answer)) }
{
    let scanned = scan_fitting(alloc, catalog.tables(), store)?;
    let Some(block) = catalog.block(site) else {
        unreachable!()
    };
    match answer(alloc, catalog.index(), scanned.as_slice(), block, args)? {
        Some(rows) => Ok(rows),
        None => unreachable!(),
    }
}

/// The rows of a table where a transaction is under way.
pub fn scan_rows(
    alloc: Global,
    def: &TableDef,
    store: &mut dyn Store,
) -> Result<List<Row>, OutFault>
    requires under_way { is_open store.old ≡ true }
    requires fit { FitsTold (tables store.old) def.now }
    ensures name { name store.new ≡ name store.old }
    ensures under_way { is_open store.new ≡ true }
    ensures tables { tables store.new ≡ tables store.old }
    ensures kept { kept store.new ≡ kept store.old }
    ensures cause { HasCause (faults store.old) (faults store.new) result }
    ensures commits { commits store.new ≡ commits store.old }
    ensures listed { IfOk result (IsListed (tables store.old) def.now) }
{
    store.scan(alloc, def)
}
