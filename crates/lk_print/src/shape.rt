//! Where an expression needs parentheses or braces.

ghost use Rattle.lk_print.specs.Printed.{form_of};
ghost use Rattle.lk_print.specs.Shapes.{alone_as, part_as};
ghost use Rattle.std.specs.Prelude.{◌≡◌};

use lk_ast::{Expr, Node};

/// What kind of expression it is.
#[derive(Clone, Copy)]
pub enum Shape {
    /// It is a primary of the grammar, and stands everywhere as it is.
    Primary,
    /// As a part of another one it is put in parentheses.
    Compound,
    /// It is a block with statements, which has braces.
    Block,
}

/// What kind of expression this is.
pub fn shape_of(e: &Expr) -> Shape
    ensures alone { (form_of e.now).alone ≡ alone_as result (form_of e.now).inside }
    ensures part { (form_of e.now).part ≡ part_as result (form_of e.now).inside }
{
    match e.node.get() {
        Node::Int(_)
        | Node::Text(_)
        | Node::Bool(_)
        | Node::Name(_)
        | Node::Function(_)
        | Node::Tag(_, _)
        | Node::Record(_)
        | Node::Extend(_, _)
        | Node::List(_)
        | Node::Table(_)
        | Node::Not(_)
        | Node::Hd(_)
        | Node::Tl(_)
        | Node::Empty(_)
        | Node::IntToString(_)
        | Node::Print(_) => Shape::Primary,
        Node::Var(_, _, _) | Node::Seq(_, _) => Shape::Block,
        _ => Shape::Compound,
    }
}
