//! The rows of a select: for each choice of rows of its generators for which the condition holds, in nested loops.

ghost use Rattle.lk_ast.specs.Tables.{rows_of};
ghost use Rattle.lk_exec.specs.Scopes.{scope_of};
ghost use Rattle.lk_exec.specs.Selected.{row_for, rows_for};
ghost use Rattle.lk_sql.specs.Meaning.{cell, no_rows, product, rows};
ghost use Rattle.lk_sql.specs.declared.tree.Select.{out-Select};
ghost use Rattle.std.specs.Prelude.{◌≡◌, ◌++◌, [], ◌∷◌, IfOk, IsPermutation, OnOk};

use crate::cells::rows_under;
use crate::scope::{Bound, same_rows};
use crate::values::{Over, ROOM, holds, value};
use lk_ast::{Cell, List, NoMemory, Row};
use lk_sql::{FromItem, Out, Select};

/// Adds the rows of a select, in some order.
pub fn add_rows(over: &Over<'_>, select: &Select, found: &mut List<Row>) -> Result<(), NoMemory>
    ensures { OnOk result (IsPermutation (found.old ++ rows (rows_of over.now.tables.now) over.now.params.now select.now no_rows) found.new) }
{
    add_choices(over, &[], ROOM, select.froms.as_slice(), select, found)
}

/// Adds the rows for all choices of rows of these generators, the last of which changes first.
fn add_choices<'a>(
    over: &Over<'a>,
    scope: &[Bound<'a>],
    room: usize,
    froms: &[FromItem],
    select: &Select,
    found: &mut List<Row>,
) -> Result<(), NoMemory>
    ensures { OnOk result (found.new ≡ found.old ++ rows_for (rows_of over.now.tables.now) over.now.params.now (out-Select select.now).cond (out-Select select.now).outs (product (rows_of over.now.tables.now) froms.now (scope_of scope.now))) }
{
    let [from, others @ ..] = froms else {
        return add_choice(over, scope, room, select, found);
    };
    if room == 0 {
        return Err(NoMemory);
    }
    let mut inner = same_rows(over.alloc, scope)?;
    let rows = rows_under(over.tables, &from.table);
    for row in rows {
        inner.push(Bound {
            number: from.var,
            row,
        })?;
        add_choices(over, inner.as_slice(), room - 1, others, select, found)?;
        inner.pop();
    }
    Ok(())
}

/// Adds the row for one choice, if the condition holds for it.
fn add_choice<'a>(
    over: &Over<'a>,
    scope: &[Bound<'a>],
    room: usize,
    select: &Select,
    found: &mut List<Row>,
) -> Result<(), NoMemory>
    ensures { OnOk result (found.new ≡ found.old ++ rows_for (rows_of over.now.tables.now) over.now.params.now (out-Select select.now).cond (out-Select select.now).outs (scope_of scope.now ∷ [])) }
{
    if !holds(over, scope, room, &select.cond)? {
        return Ok(());
    }
    let row = row_of(over, scope, room, select.outs.as_slice())?;
    found.push(row)
}

/// The row of these columns for one choice.
fn row_of<'a>(
    over: &Over<'a>,
    scope: &[Bound<'a>],
    room: usize,
    outs: &[Out],
) -> Result<Row, NoMemory>
    ensures { IfOk result (λ row. row ≡ row_for (rows_of over.now.tables.now) over.now.params.now outs.now (scope_of scope.now)) }
{
    let mut cells = List::new(over.alloc);
    for out in outs {
        cells.push(cell_of(over, scope, room, out)?)?;
    }
    Ok(Row { cells })
}

/// The cell of a column for one choice.
#[tactic(auto, using(lk_sql::proofs::MeaningForms::cell_is))]
fn cell_of<'a>(
    over: &Over<'a>,
    scope: &[Bound<'a>],
    room: usize,
    out: &Out,
) -> Result<Cell, NoMemory>
    ensures { IfOk result (λ made. made ≡ cell (rows_of over.now.tables.now) over.now.params.now out.now (scope_of scope.now)) }
{
    let label = out.label.copy(over.alloc)?;
    let value = value(over, scope, room, &out.scalar)?;
    Ok(Cell { label, value })
}
