//! Where the queries, readings of tables, updates and deletions of a ground program stand.

ghost use Rattle.lk_ast.specs.Layers.{layer};
ghost use Rattle.lk_sites.specs.SiteKinds.{is_change, is_site};
ghost use Rattle.std.specs.Prelude.{◌≡◌, true};

use lk_ast::{Expr, Node};
use lk_types::Ground;

/// A query, a reading of a table, an update or a deletion of an instance.
#[derive(Clone, Copy)]
pub struct QuerySite<'g, 'p> {
    pub label: u32,
    /// The place of its function.
    pub fun: u32,
    pub expr: &'p Expr,
    /// The types of the nodes of the function's body from its own node on, in text order.
    pub types: &'g [Ground],
    /// What the uses from there on call, in text order.
    pub calls: &'g [u32],
    ghost of_tables: { is_site (layer expr.now) ≡ true },
}

impl QuerySite<'_, '_> {
    /// Whether it is an update or a deletion.
    pub fn is_change(&self) -> bool
        ensures { result ≡ is_change (layer self.now.expr.now) }
    {
        matches!(self.expr.node.get(), Node::Update(_) | Node::Delete(_))
    }
}
