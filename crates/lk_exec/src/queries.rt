//! What queries answer.

ghost use Rattle.lk_ast.specs.Tables.{Tables, rows_of};
ghost use Rattle.lk_exec.specs.Causes.{HasCause, IfFull};
ghost use Rattle.lk_exec.specs.NamedTables.{are_declared};
ghost use Rattle.lk_exec.specs.Listings.{IsListing};
ghost use Rattle.lk_outside.specs.Causes.{HasCauseOr};
ghost use Rattle.lk_outside.specs.Scans.{HaveForeignRow};
ghost use Rattle.lk_sql.specs.Keys.{IsAnswer};
ghost use Rattle.lk_sql.specs.Meaning.{all_rows as rows_of_all, no_rows};
ghost use Rattle.std.specs.Prelude.{◌≡◌, true, IfOk, IsPermutation};

use crate::error::{ExecError, raised_in};
use crate::order::ByKeys;
use crate::product::add_rows;
use crate::values::Over;
use lk_ast::{Base, List, NoMemory, Row, TableDef, TableRows};
use lk_outside::{OutFault, Store, scan_tables};
use lk_sort::sorted;
use lk_sql::{Select, Sql};
use std::alloc::Global;

/// The rows of a query with these parameters, sorted by its keys, where a transaction is under way. Each of the tables, among
/// which are all that it names, is scanned once. The answer is over the rows that the scans gave. `NoMemory` also where parts
/// and generators stand more than 4,096 deep in one another, since each takes a piece of the stack.
pub fn select(
    alloc: Global,
    s: &Sql,
    params: &[Base],
    defs: &[TableDef],
    store: &mut dyn Store,
) -> Result<List<Row>, ExecError>
    requires under_way { is_open store.old ≡ true }
    requires declared { are_declared defs.now s.now ≡ true }
    ensures name { name store.new ≡ name store.old }
    ensures under_way { is_open store.new ≡ true }
    ensures tables { tables store.new ≡ tables store.old }
    ensures kept { kept store.new ≡ kept store.old }
    ensures commits { commits store.new ≡ commits store.old }
    ensures answer { IfOk result (λ rows. (listed : Tables) × IsListing defs.now (tables store.old) listed × IsAnswer listed params.now s.now rows) }
    ensures cause { HasCause (faults store.old) (faults store.new) (HaveForeignRow (tables store.old) defs.now) result }
    ensures never_full { IfFull result (λ size. ⊥) }
{
    raised_in(answered(alloc, s, params, defs, store))
}

/// The same, with the store's own fault.
fn answered(
    alloc: Global,
    s: &Sql,
    params: &[Base],
    defs: &[TableDef],
    store: &mut dyn Store,
) -> Result<List<Row>, OutFault>
    requires under_way { is_open store.old ≡ true }
    requires declared { are_declared defs.now s.now ≡ true }
    ensures name { name store.new ≡ name store.old }
    ensures under_way { is_open store.new ≡ true }
    ensures tables { tables store.new ≡ tables store.old }
    ensures kept { kept store.new ≡ kept store.old }
    ensures commits { commits store.new ≡ commits store.old }
    ensures answer { IfOk result (λ rows. (listed : Tables) × IsListing defs.now (tables store.old) listed × IsAnswer listed params.now s.now rows) }
    ensures cause { HasCauseOr (faults store.old) (faults store.new) (HaveForeignRow (tables store.old) defs.now) result }
{
    let scanned = scan_tables(alloc, defs, store)?;
    let rows = answer(alloc, s, params, scanned.as_slice())?;
    Ok(rows)
}

/// The rows of a query over tables, sorted by its keys.
fn answer<'a>(
    alloc: Global,
    s: &Sql,
    params: &'a [Base],
    tables: &'a [TableRows],
) -> Result<List<Row>, NoMemory>
    ensures { IfOk result (IsAnswer (rows_of tables.now) params.now s.now) }
{
    let over = Over {
        alloc,
        params,
        tables,
    };
    let rows = all_rows(&over, s.selects.as_slice())?;
    sorted(
        alloc,
        &ByKeys {
            keys: s.keys.as_slice(),
        },
        rows,
    )
}

/// The rows of all selects, in some order.
fn all_rows(over: &Over<'_>, selects: &[Select]) -> Result<List<Row>, NoMemory>
    ensures { IfOk result (IsPermutation (rows_of_all (rows_of over.now.tables.now) over.now.params.now selects.now no_rows)) }
{
    let mut found = List::new(over.alloc);
    for select in selects {
        add_rows(over, select, &mut found)?;
    }
    Ok(found)
}
