//! How many nodes and uses of functions stand in what isn't lowered.

ghost use Rattle.lk_ast.specs.declared.expression.Node.{out-Node};
ghost use Rattle.lk_ground.specs.Sites.{uses_in};
ghost use Rattle.lk_ast.specs.Layers.{layer};
ghost use Rattle.lk_lower.specs.Children.{inside, nodes_of, own_uses, uses_of};
ghost use Rattle.lk_lower.specs.Lowering.{change_exprs, nodes_in};
ghost use Rattle.lk_lower.specs.Walked.{shown};
ghost use Rattle.std.specs.Prelude.{◌≡◌, ◌+◌, ◌++◌, IfOk, OnOk, length};

use crate::children::{change, gather_inside};
use lk_ast::{ChangeExpr, Expr, List, NoMemory, Node};
use std::alloc::Global;

/// How many nodes there are, and how many uses of functions.
#[derive(Clone, Copy)]
pub struct Counts {
    pub nodes: usize,
    pub uses: usize,
}

/// How many stand in a query with this body.
pub fn count_query(alloc: Global, body: &Expr) -> Result<Counts, NoMemory>
    ensures nodes { IfOk result (λ counts. counts.nodes ≡ nodes_in body.now) }
    ensures uses { IfOk result (λ counts. counts.uses ≡ length (uses_in body.now)) }
{
    let mut waiting = List::new(alloc);
    waiting.push(body)?;
    count(waiting)
}

/// How many stand in an update or a deletion.
pub fn count_change(alloc: Global, rows: &ChangeExpr) -> Result<Counts, NoMemory>
    ensures nodes { IfOk result (λ counts. counts.nodes ≡ nodes_of (change_exprs rows.now)) }
    ensures uses { IfOk result (λ counts. counts.uses ≡ uses_of (change_exprs rows.now)) }
{
    let mut waiting = List::new(alloc);
    change(rows, &mut waiting)?;
    count(waiting)
}

/// How many stand in these. What stands in one is put in its place, so that no depth takes stack.
fn count<'p>(mut waiting: List<&'p Expr>) -> Result<Counts, NoMemory>
    ensures nodes { IfOk result (λ counts. counts.nodes ≡ nodes_of (shown waiting.entry)) }
    ensures uses { IfOk result (λ counts. counts.uses ≡ uses_of (shown waiting.entry)) }
{
    let mut counts = Counts { nodes: 0, uses: 0 };
    while let Some(e) = waiting.pop() {
        counts = count_one(e, counts, &mut waiting)?;
    }
    Ok(counts)
}

/// An expression by itself. What stands in it is still to be counted.
fn count_one<'p>(
    e: &'p Expr,
    counts: Counts,
    waiting: &mut List<&'p Expr>,
) -> Result<Counts, NoMemory>
    ensures nodes { IfOk result (λ more. more.nodes ≡ counts.nodes + 1) }
    ensures uses { IfOk result (λ more. more.uses ≡ counts.uses + own_uses (layer e.now)) }
    ensures inside { OnOk result (shown waiting.new ≡ shown waiting.old ++ inside (layer e.now)) }
{
    let node = e.node.get();
    gather_inside(node, waiting)?;
    let nodes = counts.nodes.checked_add(1).ok_or(NoMemory)?;
    let uses = counts.uses.checked_add(own_uses(node)).ok_or(NoMemory)?;
    Ok(Counts { nodes, uses })
}

/// How many uses of functions a node is by itself.
fn own_uses(node: &Node) -> usize
    ensures { result ≡ own_uses (out-Node node.now) }
{
    match node {
        Node::Function(_) | Node::Call(_, _) => 1,
        _ => 0,
    }
}
