//! Queries and changes of tables, with what they capture.

ghost use Rattle.std.specs.Prelude.{IfOk};
ghost use Rattle.lk_ast.specs.declared.place.Span.{Span as ThePlace};
ghost use Rattle.lk_index.specs.Free.{captured_change, captured_query};
ghost use Rattle.lk_locals.specs.Names.{lookup_all};
ghost use Rattle.lk_sem.specs.Acts.{IsAct};
ghost use Rattle.lk_evaluation.specs.Source.{reads, writes};

use crate::act::Act;
use lk_ast::{ChangeExpr, Expr, NoMemory};
use lk_index::{captured_change, captured_query};
use lk_locals::Locals;
use std::alloc::Global;

/// What a query with this body does, wherever it begins.
pub fn query<'p>(alloc: Global, body: &'p Expr, scope: Locals<'p>) -> Result<Act<'p>, NoMemory>
    ensures { IfOk result (λ a. (at : ThePlace) → IsAct at a (reads at (lookup_all scope.entry (captured_query body.now)))) }
{
    let names = captured_query(alloc, body)?;
    match scope.get_all(alloc, names.as_slice())? {
        Some(args) => Ok(Act::Read(args)),
        None => Ok(Act::Lacks),
    }
}

/// What an update or a deletion does, wherever it begins.
pub fn change<'p>(
    alloc: Global,
    rows: &'p ChangeExpr,
    scope: Locals<'p>,
) -> Result<Act<'p>, NoMemory>
    ensures { IfOk result (λ a. (at : ThePlace) → IsAct at a (writes at (lookup_all scope.entry (captured_change rows.now)))) }
{
    let names = captured_change(alloc, rows)?;
    match scope.get_all(alloc, names.as_slice())? {
        Some(args) => Ok(Act::Write(args)),
        None => Ok(Act::Lacks),
    }
}
