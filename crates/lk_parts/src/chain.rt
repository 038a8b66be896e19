//! The tree of a block's statements, from the end.

ghost use Rattle.lk_ast.specs.Layers.{statement_node};
ghost use Rattle.lk_parts.specs.Parts.{expr_of, chain};
ghost use Rattle.std.specs.Prelude.{◌≡◌, IfOk};

use crate::build::make_expr;
use crate::part::Statement;
use lk_ast::{Expr, List, NoMemory, statement_node};
use std::alloc::Global;

/// A statement and the expression of what follows, which ends here.
fn make_before(alloc: Global, statement: Statement, to: u32, rest: Expr) -> Result<Expr, NoMemory>
    ensures { IfOk result (λ expr. expr ≡ expr_of statement.from to (statement_node statement.name statement.expr rest)) }
{
    let from = statement.from;
    let node = statement_node(statement.name, statement.expr, rest);
    make_expr(alloc, from, to, node)
}

/// Statements, and the expression behind them, which ends here.
#[tactic(auto, using(crate::proofs::Chains::chain_back))]
pub fn make_chain(
    alloc: Global,
    statements: List<Statement>,
    to: u32,
    last: Expr,
) -> Result<Expr, NoMemory>
    ensures { IfOk result (λ expr. expr ≡ chain statements to last) }
{
    let mut list = statements;
    let mut rest = last;
    while let Some(statement) = list.pop() {
        rest = make_before(alloc, statement, to, rest)?;
    }
    Ok(rest)
}
