//! The statements of a block, one by one: a text of a mebibyte may chain half a million of them, so that whoever goes
//! down a block takes a loop.

ghost use Rattle.lk_ast.specs.Layers.{layer, is_statement, statement_node, before, chain};
ghost use Rattle.lk_ast.specs.declared.expression.Expr.{size-Expr};
ghost use Rattle.std.specs.Option.{option_copied};
ghost use Rattle.std.specs.Prelude.{◌≡◌, ◌<◌, IfOk, IfSome, is_some};

use crate::boxed::Boxed;
use crate::expression::{Expr, Node};
use crate::list::List;
use crate::memory::NoMemory;
use crate::place::{Span, Word};
use std::alloc::Global;

/// `var x = e;` or `e;`, with the span of the block that begins with it.
#[derive(Drop)]
pub struct Statement {
    pub span: Span,
    pub name: Option<Word>,
    pub expr: Expr,
}

/// The first statement of a block with its name, if it binds one, and the rest of the block. `None` where there is no
/// statement.
pub fn first_statement(e: &Expr) -> Option<(Option<&Word>, &Expr, &Expr)>
    ensures found { is_some result ≡ is_statement (layer e.now) }
    ensures before { IfSome result (λ s. e.now ≡ before (record { span = e.now.span; name = option_copied s.0; expr = s.1.now }) s.2.now) }
    ensures bound { IfSome result (λ s. size-Expr s.1.now < size-Expr e.now) }
    ensures rest { IfSome result (λ s. size-Expr s.2.now < size-Expr e.now) }
{
    match e.node.get() {
        Node::Var(name, bound, rest) => Some((Some(name), bound, rest)),
        Node::Seq(statement, rest) => Some((None, statement, rest)),
        _ => None,
    }
}

/// What a statement, with its name if it binds one, and the expression of what follows make.
pub fn statement_node(name: Option<Word>, bound: Expr, rest: Expr) -> Node
    ensures { result ≡ statement_node name bound rest }
{
    match name {
        Some(name) => Node::Var(name, bound, rest),
        None => Node::Seq(bound, rest),
    }
}

/// A statement, and the expression of what follows.
fn make_before(alloc: Global, statement: Statement, rest: Expr) -> Result<Expr, NoMemory>
    ensures { IfOk result (λ expr. expr ≡ before statement rest) }
{
    let span = statement.span;
    let node = statement_node(statement.name, statement.expr, rest);
    let node = Boxed::new(alloc, node)?;
    Ok(Expr { span, node })
}

/// Statements, and the expression behind them.
#[tactic(auto, using(crate::proofs::Chains::chain_last))]
pub fn make_chain(alloc: Global, statements: List<Statement>, last: Expr) -> Result<Expr, NoMemory>
    ensures { IfOk result (λ expr. expr ≡ chain statements last) }
{
    let mut list = statements;
    let mut rest = last;
    while let Some(statement) = list.pop() {
        rest = make_before(alloc, statement, rest)?;
    }
    Ok(rest)
}
