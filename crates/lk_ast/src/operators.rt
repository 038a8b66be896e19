//! Operators with other operands.

ghost use Rattle.lk_ast.specs.Layers.{with_operand, with_operands};
ghost use Rattle.lk_ast.specs.declared.expression.Node.{out-Node};
ghost use Rattle.std.specs.Prelude.{◌≡◌};

use crate::expression::{Expr, Node};

/// The node with these two operands in place of its own, of an operator with two; a `where` of any other node.
pub fn with_operands(node: &Node, a: Expr, b: Expr) -> Node
    ensures { result ≡ with_operands (out-Node node.now) a b }
{
    match node {
        Node::Seq(_, _) => Node::Seq(a, b),
        Node::And(_, _) => Node::And(a, b),
        Node::Or(_, _) => Node::Or(a, b),
        Node::Concat(_, _) => Node::Concat(a, b),
        Node::Append(_, _) => Node::Append(a, b),
        Node::Cons(_, _) => Node::Cons(a, b),
        Node::Add(_, _) => Node::Add(a, b),
        Node::Sub(_, _) => Node::Sub(a, b),
        Node::Mul(_, _) => Node::Mul(a, b),
        Node::Div(_, _) => Node::Div(a, b),
        Node::Mod(_, _) => Node::Mod(a, b),
        Node::Eq(_, _) => Node::Eq(a, b),
        Node::Ne(_, _) => Node::Ne(a, b),
        Node::Lt(_, _) => Node::Lt(a, b),
        Node::Le(_, _) => Node::Le(a, b),
        Node::Gt(_, _) => Node::Gt(a, b),
        Node::Ge(_, _) => Node::Ge(a, b),
        _ => Node::Where(a, b),
    }
}

/// The node with this operand in place of its own, of an operator or a function of the language with one; a `print` of any
/// other node.
pub fn with_operand(node: &Node, e: Expr) -> Node
    ensures { result ≡ with_operand (out-Node node.now) e }
{
    match node {
        Node::Neg(_) => Node::Neg(e),
        Node::Not(_) => Node::Not(e),
        Node::Hd(_) => Node::Hd(e),
        Node::Tl(_) => Node::Tl(e),
        Node::Empty(_) => Node::Empty(e),
        Node::IntToString(_) => Node::IntToString(e),
        _ => Node::Print(e),
    }
}
