//! What readings of tables answer.

ghost use Rattle.lk_ast.specs.Layers.{layer};
ghost use Rattle.lk_ast.specs.Rows.{row_value};
ghost use Rattle.lk_ast.specs.Tables.{rows_of};
ghost use Rattle.lk_bag.specs.Legal.{AreSorted, bag, keys_at};
ghost use Rattle.std.specs.Prelude.{◌≡◌, IfOk, IfSome, IsPermutation, IsSome, List, map};

use crate::captured::names_in;
use crate::order::ByKeys;
use crate::rows::rows_in;
use crate::values::items_of;
use crate::walk::{query_value, rows_under};
use lk_ast::{Expr, List, NoMemory, Node, Row, SortKey, TableRows, Value, copy_rows};
use lk_index::Index;
use lk_sort::sorted;
use std::alloc::Global;

/// The answer of a reading (a query, or a table) with what it captured: its rows in the order of its keys, and no rows where
/// it gives no list. None where it gives a list in which something isn't a record of bases. `NoMemory` as for `query_value`.
pub fn answer<'p>(
    alloc: Global,
    index: &Index<'p>,
    tables: &[TableRows],
    block: &'p Expr,
    args: &[Value],
) -> Result<Option<List<Row>>, NoMemory>
    ensures bag { IfOk result (λ answer. IfSome answer (λ rows. IsPermutation (bag index.now (rows_of tables.now) block.now args.now) (map row_value rows))) }
    ensures sorted { IfOk result (λ answer. IfSome answer (AreSorted (keys_at (layer block.now)))) }
    ensures rows { IfOk result (λ answer. (rows : List Row) → bag index.now (rows_of tables.now) block.now args.now ≡ map row_value rows → IsSome answer) }
{
    match block.node.get() {
        Node::Query(keys, e) => {
            let names = names_in(alloc, block, args)?;
            let found = items_of(alloc, query_value(alloc, index, tables, e, names)?);
            sorted_rows(alloc, keys.as_slice(), found)
        }
        Node::Table(name) => Ok(Some(copy_rows(alloc, rows_under(tables, &name.text))?)),
        _ => Ok(Some(List::new(alloc))),
    }
}

/// Records as rows in the order of keys. None where one of the values isn't a record of bases.
fn sorted_rows(
    alloc: Global,
    keys: &[SortKey],
    values: List<Value>,
) -> Result<Option<List<Row>>, NoMemory>
    ensures bag { IfOk result (λ found. IfSome found (λ rows. IsPermutation values (map row_value rows))) }
    ensures sorted { IfOk result (λ found. IfSome found (AreSorted keys.now)) }
    ensures rows { IfOk result (λ found. (rows : List Row) → values ≡ map row_value rows → IsSome found) }
{
    match rows_in(alloc, values)? {
        Some(rows) => Ok(Some(sorted(alloc, &ByKeys { keys }, rows)?)),
        None => Ok(None),
    }
}
