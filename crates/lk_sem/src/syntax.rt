//! The parts of a node that are evaluated first.

ghost use Rattle.std.specs.Prelude.{◌≡◌, ◌∷◌, ◌++◌, [], slice_get};
ghost use Rattle.std.specs.Option.{option_copied};
ghost use Rattle.lk_ast.specs.Children.{exprs_of};
ghost use Rattle.lk_ast.specs.Layers.{layer};
ghost use Rattle.lk_evaluation.specs.Syntax.{parts_of};

use lk_ast::{Expr, Node, PartExpr};

/// The part at that position, from 0.
pub fn part(e: &Expr, position: usize) -> Option<&Expr>
    ensures { option_copied result ≡ slice_get (parts_of (layer e.now)) position }
{
    match e.node.get() {
        Node::Call(_, parts) | Node::List(parts) => parts.get(position),
        Node::Apply(f, args) => one_and(f, args.as_slice(), position),
        Node::Concat(a, b)
        | Node::Append(a, b)
        | Node::Cons(a, b)
        | Node::Add(a, b)
        | Node::Sub(a, b)
        | Node::Mul(a, b)
        | Node::Div(a, b)
        | Node::Mod(a, b)
        | Node::Eq(a, b)
        | Node::Ne(a, b)
        | Node::Lt(a, b)
        | Node::Le(a, b)
        | Node::Gt(a, b)
        | Node::Ge(a, b) => match position {
            0 => Some(a),
            1 => Some(b),
            _ => None,
        },
        Node::Record(parts) => expr_of(parts.as_slice(), position),
        Node::Extend(parts, e) => exprs_and(parts.as_slice(), e, position),
        Node::Var(_, a, _)
        | Node::Seq(a, _)
        | Node::If(a, _, _)
        | Node::And(a, _)
        | Node::Or(a, _)
        | Node::Neg(a)
        | Node::Not(a)
        | Node::Hd(a)
        | Node::Tl(a)
        | Node::Empty(a)
        | Node::IntToString(a)
        | Node::Print(a)
        | Node::Project(a, _)
        | Node::Tag(_, a)
        | Node::Switch(a, _, _)
        | Node::ForList(_, a, _)
        | Node::ForTable(_, a, _)
        | Node::Where(a, _)
        | Node::Insert(_, a) => match position {
            0 => Some(a),
            _ => None,
        },
        _ => None,
    }
}

/// A part, or one of those behind it.
fn one_and<'p>(first: &'p Expr, others: &'p [Expr], position: usize) -> Option<&'p Expr>
    ensures { option_copied result ≡ slice_get (first.now ∷ others.now) position }
{
    match position {
        0 => Some(first),
        _ => others.get(position - 1),
    }
}

/// The expression of `l = e` at that position.
fn expr_of(parts: &[PartExpr], position: usize) -> Option<&Expr>
    ensures { option_copied result ≡ slice_get (exprs_of parts.now) position }
{
    match parts.get(position) {
        Some(part) => Some(&part.expr),
        None => None,
    }
}

/// The same, or the part behind them.
fn exprs_and<'p>(parts: &'p [PartExpr], last: &'p Expr, position: usize) -> Option<&'p Expr>
    ensures { option_copied result ≡ slice_get (exprs_of parts.now ++ last.now ∷ []) position }
{
    if position == parts.len() {
        Some(last)
    } else {
        expr_of(parts, position)
    }
}
