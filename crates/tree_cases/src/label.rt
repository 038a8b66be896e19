//! What a node is called.

use lk_ast::{Loc, Node};

/// What stands before the parts of a node, or before the value of one without parts.
pub fn label(node: &Node) -> &'static str {
    match node {
        Node::Int(_) => "int ",
        Node::Text(_) => "text ",
        Node::Bool(true) => "true",
        Node::Bool(false) => "false",
        Node::Name(_) => "name ",
        Node::Function(_) => "function ",
        Node::Call(_, _) => "call",
        Node::Apply(_, _) => "apply",
        Node::Var(_, _, _) => "var",
        Node::Seq(_, _) => "seq",
        Node::If(_, _, _) => "if",
        Node::Record(_) => "record",
        Node::Extend(_, _) => "extend",
        Node::List(_) => "list",
        Node::Project(_, _) => "project",
        Node::Tag(_, _) => "tag",
        Node::Switch(_, _, _) => "switch",
        Node::Lambda(lambda) => lambda_label(lambda.place),
        _ => form_label(node),
    }
}

fn lambda_label(place: Loc) -> &'static str {
    match place {
        Loc::Any => "lambda",
        Loc::Client => "lambda client",
        Loc::Server => "lambda server",
    }
}

fn form_label(node: &Node) -> &'static str {
    match node {
        Node::ForList(_, _, _) => "for_list",
        Node::ForTable(_, _, _) => "for_table",
        Node::Table(_) => "table",
        Node::Where(_, _) => "where",
        Node::Query(_, _) => "query",
        Node::Insert(_, _) => "insert",
        Node::Update(_) => "update",
        Node::Delete(_) => "delete",
        Node::Neg(_) => "neg",
        Node::Not(_) => "not",
        Node::Hd(_) => "hd",
        Node::Tl(_) => "tl",
        Node::Empty(_) => "empty",
        Node::IntToString(_) => "int_to_string",
        Node::Print(_) => "print",
        _ => operator_label(node),
    }
}

fn operator_label(node: &Node) -> &'static str {
    match node {
        Node::And(_, _) => "and",
        Node::Or(_, _) => "or",
        Node::Concat(_, _) => "concat",
        Node::Append(_, _) => "append",
        Node::Cons(_, _) => "cons",
        Node::Add(_, _) => "add",
        Node::Sub(_, _) => "sub",
        Node::Mul(_, _) => "mul",
        Node::Div(_, _) => "div",
        Node::Mod(_, _) => "mod",
        Node::Eq(_, _) => "eq",
        Node::Ne(_, _) => "ne",
        Node::Lt(_, _) => "lt",
        Node::Le(_, _) => "le",
        Node::Gt(_, _) => "gt",
        Node::Ge(_, _) => "ge",
        _ => "a node of another kind",
    }
}
