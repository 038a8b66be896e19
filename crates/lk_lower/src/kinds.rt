//! What a node is without its children, and what it takes of what is to come.

ghost use Rattle.lk_ast.specs.declared.expression.Node.{out-Node};
ghost use Rattle.lk_lower.specs.Lowering.{labels_of, op_of};
ghost use Rattle.lk_lower.specs.Steps.{IsShaped, plain_kind};
ghost use Rattle.lk_lower.specs.Walked.{state_of};
ghost use Rattle.std.specs.Prelude.{◌≡◌, IfOk};

use crate::blocks::{change, insert, query, read};
use crate::named::{bind, call, function, list_loop, local, switch, table_loop};
use crate::walk::{At, Place, Walk, take_type};
use lk_ast::{List, NoMemory, Node, PartExpr, Text};
use lk_ir::{Block, Choice, Kind, Op};
use std::alloc::Global;

/// The labels of `l = e, m = d`.
fn labels(alloc: Global, parts: &[PartExpr]) -> Result<List<Text>, NoMemory>
    ensures { IfOk result (λ labels. labels ≡ labels_of parts.now) }
{
    let mut labels = List::new(alloc);
    for part in parts {
        labels.push(part.label.text.copy(alloc)?)?;
    }
    Ok(labels)
}

/// The operation that a node is, if it is one.
fn operation(alloc: Global, node: &Node) -> Result<Option<Op>, NoMemory>
    ensures { IfOk result (λ op. op ≡ op_of (out-Node node.now)) }
{
    match node {
        Node::Int(number) => Ok(Some(Op::Int(*number))),
        Node::Text(text) => Ok(Some(Op::Text(text.copy(alloc)?))),
        Node::Bool(truth) => Ok(Some(Op::Bool(*truth))),
        Node::List(_) => Ok(Some(Op::List)),
        Node::Concat(_, _) => Ok(Some(Op::Concat)),
        Node::Append(_, _) => Ok(Some(Op::Append)),
        Node::Cons(_, _) => Ok(Some(Op::Cons)),
        Node::Add(_, _) => Ok(Some(Op::Add)),
        Node::Sub(_, _) => Ok(Some(Op::Sub)),
        Node::Mul(_, _) => Ok(Some(Op::Mul)),
        Node::Div(_, _) => Ok(Some(Op::Div)),
        Node::Mod(_, _) => Ok(Some(Op::Mod)),
        Node::Eq(_, _) => Ok(Some(Op::Eq)),
        Node::Ne(_, _) => Ok(Some(Op::Ne)),
        Node::Lt(_, _) => Ok(Some(Op::Lt)),
        Node::Le(_, _) => Ok(Some(Op::Le)),
        Node::Gt(_, _) => Ok(Some(Op::Gt)),
        Node::Ge(_, _) => Ok(Some(Op::Ge)),
        Node::Neg(_) => Ok(Some(Op::Neg)),
        Node::Not(_) => Ok(Some(Op::Not)),
        Node::Hd(_) => Ok(Some(Op::Hd)),
        Node::Tl(_) => Ok(Some(Op::Tl)),
        Node::Empty(_) => Ok(Some(Op::Empty)),
        Node::IntToString(_) => Ok(Some(Op::IntToString)),
        Node::Record(parts) => Ok(Some(Op::Record(labels(alloc, parts.as_slice())?))),
        Node::Extend(parts, _) => Ok(Some(Op::Extend(labels(alloc, parts.as_slice())?))),
        Node::Project(_, label) => Ok(Some(Op::Project(label.text.copy(alloc)?))),
        Node::Tag(tag, _) => Ok(Some(Op::Tag(tag.text.copy(alloc)?))),
        Node::Name(_)
        | Node::Function(_)
        | Node::Lambda(_)
        | Node::Call(_, _)
        | Node::Apply(_, _)
        | Node::Var(_, _, _)
        | Node::Seq(_, _)
        | Node::If(_, _, _)
        | Node::And(_, _)
        | Node::Or(_, _) => Ok(None),
        Node::Print(_)
        | Node::Switch(_, _, _)
        | Node::ForList(_, _, _)
        | Node::ForTable(_, _, _)
        | Node::Table(_)
        | Node::Where(_, _)
        | Node::Query(_, _)
        | Node::Insert(_, _)
        | Node::Update(_)
        | Node::Delete(_) => Ok(None),
    }
}

/// The kind of a node for which nothing need be looked up.
fn plain_kind(node: &Node) -> Option<Kind>
    ensures { result ≡ plain_kind (out-Node node.now) }
{
    match node {
        Node::Apply(_, _) => Some(Kind::Apply),
        Node::Seq(_, _) => Some(Kind::Then),
        Node::If(_, _, _) => Some(Kind::Choose(Choice::If)),
        Node::And(_, _) => Some(Kind::Choose(Choice::And)),
        Node::Or(_, _) => Some(Kind::Choose(Choice::Or)),
        Node::Where(_, _) => Some(Kind::Choose(Choice::Where)),
        Node::Print(_) => Some(Kind::Print),
        _ => None,
    }
}

/// What a node is. A lambda isn't asked for: it has a body.
pub fn kind_of(at: &At, place: Place, node: &Node, walk: &mut Walk) -> Result<Kind, NoMemory>
    ensures { IfOk result (λ kind. IsShaped at.now.owner place.number place.ty (out-Node node.now) (state_of walk.old) kind (state_of walk.new)) }
{
    match operation(at.alloc, node)? {
        Some(op) => {
            take_type(walk);
            Ok(Kind::Op(op))
        }
        None => no_operation(at, place, node, walk),
    }
}

/// What a node is that is no operation.
fn no_operation(at: &At, place: Place, node: &Node, walk: &mut Walk) -> Result<Kind, NoMemory>
    ensures { IfOk result (λ kind. IsShaped at.now.owner place.number place.ty (out-Node node.now) (state_of walk.old) kind (state_of walk.new)) }
{
    match plain_kind(node) {
        Some(kind) => {
            take_type(walk);
            Ok(kind)
        }
        None => looked_up(at, place, node, walk),
    }
}

/// What a node is for which something is looked up or counted.
fn looked_up(at: &At, place: Place, node: &Node, walk: &mut Walk) -> Result<Kind, NoMemory>
    ensures { IfOk result (λ kind. IsShaped at.now.owner place.number place.ty (out-Node node.now) (state_of walk.old) kind (state_of walk.new)) }
{
    match node {
        Node::Name(name) => local(name, walk),
        Node::Function(_) => function(walk),
        Node::Call(_, _) => call(walk),
        Node::Var(name, _, _) => bind(name, walk),
        Node::ForList(name, _, _) => list_loop(name, walk),
        Node::ForTable(name, _, _) => table_loop(name, walk),
        Node::Switch(_, cases, last) => switch(at.alloc, cases, last, walk),
        Node::Table(_) => read(at, place, walk),
        Node::Insert(table, _) => insert(at, place, table, walk),
        Node::Query(_, body) => query(at, place, body, walk),
        Node::Update(rows) => change(at, place, Block::Update, rows, walk),
        Node::Delete(rows) => change(at, place, Block::Delete, rows, walk),
        _ => Err(NoMemory),
    }
}
