//! The rows of a table.

ghost use Rattle.lk_outside.specs.Scans.{IsListed};
ghost use Rattle.lk_outside.specs.Store.{ScanHasCause};
ghost use Rattle.std.specs.Prelude.{◌≡◌, true, IfOk};

use lk_ast::{List, Row, TableDef};
use lk_outside::{OutFault, Store};
use std::alloc::Global;

/// The rows of a table where a transaction is under way.
pub fn scan_rows(
    alloc: Global,
    def: &TableDef,
    store: &mut dyn Store,
) -> Result<List<Row>, OutFault>
    requires under_way { is_open store.old ≡ true }
    ensures name { name store.new ≡ name store.old }
    ensures under_way { is_open store.new ≡ true }
    ensures tables { tables store.new ≡ tables store.old }
    ensures kept { kept store.new ≡ kept store.old }
    ensures commits { commits store.new ≡ commits store.old }
    ensures cause { ScanHasCause (faults store.old) (faults store.new) (tables store.old) def.now result }
    ensures listed { IfOk result (IsListed (tables store.old) def.now) }
{
    store.scan(alloc, def)
}
