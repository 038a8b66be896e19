//! Whether a condition holds for a choice of rows.

ghost use Rattle.lk_ast.specs.Tables.{rows_of};
ghost use Rattle.lk_exec.specs.Scopes.{scope_of};
ghost use Rattle.lk_exec.specs.Selected.{meets};
ghost use Rattle.lk_sql.specs.Meaning.{product};
ghost use Rattle.std.specs.List.{list_any};
ghost use Rattle.std.specs.Prelude.{◌≡◌, IfOk};

use crate::cells::rows_under;
use crate::scope::{Bound, same_rows};
use crate::values::{Over, holds};
use lk_ast::NoMemory;
use lk_sql::{FromItem, Scalar};

/// Whether the condition holds for one of the choices of rows of the generators, the last of which changes first.
#[cycle(values)]
#[inline(never)]
pub fn is_met<'a>(
    over: &Over<'a>,
    scope: &[Bound<'a>],
    room: usize,
    froms: &[FromItem],
    condition: &Scalar,
) -> Result<bool, NoMemory>
    ensures { IfOk result (λ met. met ≡ list_any (meets (rows_of over.now.tables.now) over.now.params.now condition.now) (product (rows_of over.now.tables.now) froms.now (scope_of scope.now))) }
{
    let [from, others @ ..] = froms else {
        return holds(over, scope, room, condition);
    };
    if room == 0 {
        return Err(NoMemory);
    }
    let mut inner = same_rows(over.alloc, scope)?;
    let rows = rows_under(over.tables, &from.table);
    for row in rows {
        inner.push(Bound {
            number: from.var,
            row,
        })?;
        if is_met(over, inner.as_slice(), room - 1, others, condition)? {
            return Ok(true);
        }
        inner.pop();
    }
    Ok(false)
}
