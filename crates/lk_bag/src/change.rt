//! What updates and deletions make of the rows of a table.

ghost use Rattle.lk_ast.specs.Rows.{row_value as value_of_row};
ghost use Rattle.lk_ast.specs.declared.expression.ChangeExpr.{out-ChangeExpr};
ghost use Rattle.lk_bag.specs.Bag.{gives};
ghost use Rattle.lk_bag.specs.Cells.{cell_set};
ghost use Rattle.lk_bag.specs.Change.{is_met, is_true, sets_label, updated};
ghost use Rattle.lk_bag.specs.Legal.{names_in};
ghost use Rattle.lk_locals.specs.Names.{bind};
ghost use Rattle.lk_operators.specs.Values.{base_in, bool_in};
ghost use Rattle.std.specs.List.{filter};
ghost use Rattle.std.specs.Option.{option_copied};
ghost use Rattle.std.specs.Prelude.{◌≡◌, IfOk, [], map, find, not, unwrap_or};

use crate::captured::names_in;
use crate::values::is_true;
use crate::walk::query_value;
use lk_ast::{Base, Cell, ChangeExpr, Expr, List, NoMemory, PartExpr, Row, Text, Value, row_value};
use lk_index::Index;
use lk_locals::Locals;
use std::alloc::Global;

/// The rows of a table after an update, whose conditions and values see the old row alone. `NoMemory` as for `query_value`.
pub fn updated_rows<'p>(
    alloc: Global,
    index: &Index<'p>,
    block: &'p Expr,
    change: &'p ChangeExpr,
    args: &[Value],
    rows: List<Row>,
) -> Result<List<Row>, NoMemory>
    ensures { IfOk result (λ after. after ≡ map (updated index.now (names_in block.now args.now) change.now) rows) }
{
    let names = names_in(alloc, block, args)?;
    update_all(alloc, index, change, &names, rows)
}

/// The rows of a table that a deletion leaves. `NoMemory` as for `query_value`.
pub fn kept_rows<'p>(
    alloc: Global,
    index: &Index<'p>,
    block: &'p Expr,
    change: &'p ChangeExpr,
    args: &[Value],
    rows: List<Row>,
) -> Result<List<Row>, NoMemory>
    ensures { IfOk result (λ after. after ≡ filter (λ row. not (is_met index.now (names_in block.now args.now) change.now row)) rows) }
{
    let names = names_in(alloc, block, args)?;
    keep_others(alloc, index, change, &names, rows)
}

/// The rows after an update, under the names that it captured.
fn update_all<'p>(
    alloc: Global,
    index: &Index<'p>,
    change: &'p ChangeExpr,
    names: &Locals<'p>,
    rows: List<Row>,
) -> Result<List<Row>, NoMemory>
    ensures { IfOk result (λ after. after ≡ map (updated index.now names.now change.now) rows) }
{
    let mut after = List::new(alloc);
    for row in rows.into_vec() {
        after.push(updated(alloc, index, change, names, row)?)?;
    }
    Ok(after)
}

/// The rows that a deletion leaves, under the names that it captured.
fn keep_others<'p>(
    alloc: Global,
    index: &Index<'p>,
    change: &'p ChangeExpr,
    names: &Locals<'p>,
    rows: List<Row>,
) -> Result<List<Row>, NoMemory>
    ensures { IfOk result (λ after. after ≡ filter (λ row. not (is_met index.now names.now change.now row)) rows) }
{
    let mut after = List::new(alloc);
    for row in rows.into_vec() {
        let inner = with_row(alloc, change, names, &row)?;
        if !is_met(alloc, index, change, &inner)? {
            after.push(row)?;
        }
    }
    Ok(after)
}

/// A row after an update.
fn updated<'p>(
    alloc: Global,
    index: &Index<'p>,
    change: &'p ChangeExpr,
    names: &Locals<'p>,
    row: Row,
) -> Result<Row, NoMemory>
    ensures { IfOk result (λ after. after ≡ updated index.now names.now change.now row) }
{
    let inner = with_row(alloc, change, names, &row)?;
    if is_met(alloc, index, change, &inner)? {
        Ok(Row {
            cells: set_cells(alloc, index, change, &inner, row.cells)?,
        })
    } else {
        Ok(row)
    }
}

/// The names that a condition and new values see: the row's own, over what was captured.
fn with_row<'p>(
    alloc: Global,
    change: &'p ChangeExpr,
    names: &Locals<'p>,
    row: &Row,
) -> Result<Locals<'p>, NoMemory>
    ensures { IfOk result (λ inner. inner ≡ bind (out-ChangeExpr change.now).name.text (value_of_row row.now) names.now) }
{
    let value = row_value(alloc, row)?;
    names.share()?.bind(alloc, change.name.text.as_str(), value)
}

/// Whether the condition holds under these names.
fn is_met<'p>(
    alloc: Global,
    index: &Index<'p>,
    change: &'p ChangeExpr,
    inner: &Locals<'p>,
) -> Result<bool, NoMemory>
    ensures { IfOk result (λ truth. truth ≡ is_true (bool_in (gives index.now (λ name. []) (out-ChangeExpr change.now).cond inner.now))) }
{
    let value = query_value(alloc, index, &[], &change.cond, inner.share()?)?;
    Ok(is_true(&value))
}

/// The cells, those that are set with their new values.
fn set_cells<'p>(
    alloc: Global,
    index: &Index<'p>,
    change: &'p ChangeExpr,
    inner: &Locals<'p>,
    cells: List<Cell>,
) -> Result<List<Cell>, NoMemory>
    ensures { IfOk result (λ after. after ≡ map (cell_set index.now change.now inner.now) cells) }
{
    let mut after = List::new(alloc);
    for cell in cells.into_vec() {
        after.push(set_cell(alloc, index, change, inner, cell)?)?;
    }
    Ok(after)
}

/// A cell, with its new value if it is set.
fn set_cell<'p>(
    alloc: Global,
    index: &Index<'p>,
    change: &'p ChangeExpr,
    inner: &Locals<'p>,
    cell: Cell,
) -> Result<Cell, NoMemory>
    ensures { IfOk result (λ after. after ≡ cell_set index.now change.now inner.now cell) }
{
    let (label, value) = cell.into_parts();
    match part_for(&label, change.sets.as_slice()) {
        Some(part) => {
            let value = new_value(alloc, index, part, inner, value)?;
            Ok(Cell { label, value })
        }
        None => Ok(Cell { label, value }),
    }
}

/// The first part that sets a column.
fn part_for<'p>(label: &Text, sets: &'p [PartExpr]) -> Option<&'p PartExpr>
    ensures { option_copied result ≡ find (sets_label label.now) sets.now }
{
    sets.iter().find(|part| part.label.text.equals(label))
}

/// What a column is set to, and its old value where that isn't a base.
fn new_value<'p>(
    alloc: Global,
    index: &Index<'p>,
    part: &'p PartExpr,
    inner: &Locals<'p>,
    old: Base,
) -> Result<Base, NoMemory>
    ensures { IfOk result (λ value. value ≡ unwrap_or (base_in (gives index.now (λ name. []) part.now.expr inner.now)) old) }
{
    match query_value(alloc, index, &[], &part.expr, inner.share()?)? {
        Value::Base(value) => Ok(value),
        _ => Ok(old),
    }
}
