//! Operators, and words before parentheses.

ghost use Rattle.lk_ast.specs.declared.expression.Node.{out-Node};
ghost use Rattle.lk_print.specs.Signs.{operator_kind, prefix_word};
ghost use Rattle.lk_print.specs.Written.{spaced};
ghost use Rattle.std.specs.Prelude.{◌≡◌, ◌++◌, OnOk};

use crate::token::{write_sign, write_word};
use lk_ast::{NoMemory, Node, Text};

/// The operator of a node with two operands.
pub fn write_operator(line: &mut Text, node: &Node) -> Result<(), NoMemory>
    ensures { OnOk result (line.new ≡ line.old ++ spaced (operator_kind (out-Node node.now))) }
{
    match node {
        Node::And(_, _) => write_sign(line, "&&"),
        Node::Or(_, _) => write_sign(line, "||"),
        Node::Concat(_, _) => write_sign(line, "^^"),
        Node::Append(_, _) => write_sign(line, "++"),
        Node::Cons(_, _) => write_sign(line, "::"),
        Node::Add(_, _) => write_sign(line, "+"),
        Node::Sub(_, _) => write_sign(line, "-"),
        Node::Mul(_, _) => write_sign(line, "*"),
        Node::Div(_, _) => write_sign(line, "/"),
        Node::Eq(_, _) => write_sign(line, "=="),
        Node::Ne(_, _) => write_sign(line, "<>"),
        Node::Lt(_, _) => write_sign(line, "<"),
        Node::Le(_, _) => write_sign(line, "<="),
        Node::Gt(_, _) => write_sign(line, ">"),
        Node::Ge(_, _) => write_sign(line, ">="),
        _ => write_word(line, "mod"),
    }
}

/// The word before the parentheses of a node with one operand.
pub fn prefix_word(node: &Node) -> &'static str
    ensures { result.now ≡ prefix_word (out-Node node.now) }
{
    match node {
        Node::Not(_) => "not",
        Node::Hd(_) => "hd",
        Node::Tl(_) => "tl",
        Node::Empty(_) => "empty",
        Node::IntToString(_) => "intToString",
        _ => "print",
    }
}
