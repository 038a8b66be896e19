//! Nodes that are used again where the same is to be made: those without variables, since types with variables seldom come twice, and
//! fields before a row with the record or variant of them, since that the row lacks their labels is said by an equation of that type
//! with itself.
//! Which these are and under which number one is looked for is no part of any contract: what is found is compared.

ghost use Rattle.std.specs.Prelude.{◌≡◌, IfOk, IfSome, IsTrue};
ghost use Rattle.lk_unify.specs.Loading.{kind_for, Adds, CanMake, IsFound, Makes};

use crate::loader::{Loader, MadeNode, NodeKind};
use lk_arena::{Field, Head, Shape};
use lk_ast::{List, NoMemory};
use std::alloc::Global;

/// Adds a node.
pub fn add_node(loader: &mut Loader, shape: Shape) -> Result<usize, NoMemory>
    ensures { IfOk result (λ n. Adds loader.old loader.new shape n) }
{
    loader.arena.push(shape)
}

/// The number that FNV-1a of Fowler, Noll and Vo begins with, where it has 64 bits.
const START: u64 = 0xcbf2_9ce4_8422_2325;

/// The number that it multiplies by.
const FACTOR: u64 = 0x0000_0100_0000_01b3;

/// One number more is mixed in, as FNV-1a does with a byte.
fn mixed(number: u64, more: u64) -> u64 {
    (number ^ more).wrapping_mul(FACTOR)
}

/// A number for a constructor.
fn number_of_head(head: Head) -> u64 {
    match head {
        Head::Int => 0,
        Head::Bool => 1,
        Head::Text => 2,
        Head::List => 3,
        Head::Fields => 4,
        Head::Tags => 5,
        Head::Fun => 6,
    }
}

/// A number for a kind.
fn number_of_kind(kind: NodeKind) -> u64 {
    match kind {
        NodeKind::Types => 0,
        NodeKind::Fields => 1,
        NodeKind::Effects => 2,
        NodeKind::Unit => 3,
        NodeKind::Nothing => 4,
    }
}

/// Fields are mixed in.
fn with_fields(number: u64, fields: &[Field]) -> u64 {
    let mut all = number;
    for field in fields {
        for byte in field.label.as_str().as_bytes() {
            all = mixed(all, u64::from(*byte));
        }
        all = mixed(all, field.node as u64);
    }
    all
}

/// Parts are mixed in.
fn with_parts(number: u64, parts: &[usize]) -> u64 {
    let mut all = number;
    for part in parts {
        all = mixed(all, *part as u64);
    }
    all
}

/// The number under which a node of this kind and shape is looked for.
fn key_of(kind: NodeKind, shape: &Shape) -> u64 {
    let start = mixed(START, number_of_kind(kind));
    match shape {
        Shape::Made(head, parts) => {
            with_parts(mixed(start, number_of_head(*head)), parts.as_slice())
        }
        Shape::Row(fields, tail) => { with_fields(mixed(start, *tail as u64), fields.as_slice()) }
        _ => start,
    }
}

/// Whether the parts are the same.
fn same_parts(left: &[usize], right: &[usize]) -> bool
    ensures { IsTrue result → left.now ≡ right.now }
{
    left == right
}

/// Whether the fields are the same.
fn same_fields(left: &[Field], right: &[Field]) -> bool
    ensures { IsTrue result → left.now ≡ right.now }
{
    if left.len() != right.len() {
        return false;
    }
    for i in 0..left.len() {
        if left[i].node != right[i].node {
            return false;
        }
        if !left[i].label.equals(&right[i].label) {
            return false;
        }
    }
    true
}

/// Whether the shapes are the same, and something is known by them.
fn same_shape(left: &Shape, right: &Shape) -> bool
    ensures { IsTrue result → left.now ≡ right.now }
{
    match (left, right) {
        (Shape::Empty, Shape::Empty) => true,
        (Shape::Made(head, parts), Shape::Made(other, others)) => {
            *head == *other && same_parts(parts.as_slice(), others.as_slice())
        }
        (Shape::Row(fields, tail), Shape::Row(others, other)) => {
            *tail == *other && same_fields(fields.as_slice(), others.as_slice())
        }
        _ => false,
    }
}

/// The same parts.
fn copy_parts(alloc: Global, parts: &[usize]) -> Result<List<usize>, NoMemory>
    ensures { IfOk result (λ copy. copy ≡ parts.now) }
{
    let mut copy = List::new(alloc);
    for part in parts {
        copy.push(*part)?;
    }
    Ok(copy)
}

/// The same fields.
fn copy_fields(alloc: Global, fields: &[Field]) -> Result<List<Field>, NoMemory>
    ensures { IfOk result (λ copy. copy ≡ fields.now) }
{
    let mut copy = List::new(alloc);
    for field in fields {
        copy.push(Field {
            label: field.label.copy(alloc)?,
            node: field.node,
        })?;
    }
    Ok(copy)
}

/// The same shape.
fn copy_shape(alloc: Global, shape: &Shape) -> Result<Shape, NoMemory>
    ensures { IfOk result (λ copy. copy ≡ shape.now) }
{
    match shape {
        Shape::Free => Ok(Shape::Free),
        Shape::Open => Ok(Shape::Open),
        Shape::Empty => Ok(Shape::Empty),
        Shape::Made(head, parts) => Ok(Shape::Made(*head, copy_parts(alloc, parts.as_slice())?)),
        Shape::Row(fields, tail) => Ok(Shape::Row(copy_fields(alloc, fields.as_slice())?, *tail)),
    }
}

/// A node that was made for this, if one is there under this number.
fn find_node(loader: &Loader, key: u64, kind: NodeKind, shape: &Shape) -> Option<usize>
    ensures { IfSome result (λ n. IsFound loader.now kind shape.now n) }
{
    let made = loader.made.get(&key)?;
    if made.kind == kind && same_shape(&made.shape, shape) {
        return Some(made.node);
    }
    None
}

/// Whether the node is closed: no variable stands in it.
pub fn is_closed_node(loader: &Loader, node: usize) -> bool {
    loader.closed.get(node).copied().unwrap_or(false)
}

/// Whether all parts are closed.
pub fn are_closed(loader: &Loader, parts: &[usize]) -> bool {
    parts.iter().all(|part| is_closed_node(loader, *part))
}

/// Whether the nodes of all fields are closed.
fn fields_closed(loader: &Loader, fields: &[Field]) -> bool {
    fields
        .iter()
        .all(|field| is_closed_node(loader, field.node))
}

/// Whether fields are closed that stand before a row.
pub fn are_fields_closed(loader: &Loader, fields: &List<Field>) -> bool {
    fields_closed(loader, fields.as_slice())
}

/// Whether a node of this shape is closed.
fn is_closed(loader: &Loader, shape: &Shape) -> bool {
    match shape {
        Shape::Empty => true,
        Shape::Made(_, parts) => are_closed(loader, parts.as_slice()),
        Shape::Row(fields, tail) => {
            is_closed_node(loader, *tail) && fields_closed(loader, fields.as_slice())
        }
        _ => false,
    }
}

/// Notes whether a node is closed.
fn note_closed(closed: &mut List<bool>, node: usize, is_closed: bool) -> Result<(), NoMemory> {
    for _ in closed.len()..node {
        closed.push(false)?;
    }
    closed.push(is_closed)
}

/// Whether a node is kept: one that is closed, fields before a row, or a record or a variant.
fn is_kept(kind: NodeKind, shape: &Shape, is_closed: bool) -> bool {
    match shape {
        Shape::Row(_, _) => is_closed || kind == NodeKind::Fields,
        Shape::Made(head, _) => is_closed || *head == Head::Fields || *head == Head::Tags,
        _ => is_closed,
    }
}

/// Adds a node and keeps it under this number.
fn keep_node(
    alloc: Global,
    loader: &mut Loader,
    key: u64,
    kind: NodeKind,
    shape: Shape,
    is_closed: bool,
) -> Result<usize, NoMemory>
    requires { CanMake loader.old shape }
    ensures { IfOk result (λ n. Makes loader.old loader.new (kind_for kind) shape n) }
{
    let copy = copy_shape(alloc, &shape)?;
    let node = add_node(loader, shape)?;
    note_closed(&mut loader.closed, node, is_closed)?;
    let made = MadeNode {
        kind,
        shape: copy,
        node,
    };
    drop(loader.made.insert(key, made)?);
    Ok(node)
}

/// A node for the end of a closed row: where something before it has variables, one of its own, since an end that is put together with
/// an open one counts as one that was open once.
pub fn make_end(
    alloc: Global,
    loader: &mut Loader,
    kind: NodeKind,
    shared: bool,
) -> Result<usize, NoMemory>
    requires { CanMake loader.old Shape.Empty }
    ensures { IfOk result (λ n. Makes loader.old loader.new (kind_for kind) Shape.Empty n) }
{
    if shared {
        return make_node(alloc, loader, kind, Shape::Empty);
    }
    add_node(loader, Shape::Empty)
}

/// A node for this: one that was made for it, or a new one.
pub fn make_node(
    alloc: Global,
    loader: &mut Loader,
    kind: NodeKind,
    shape: Shape,
) -> Result<usize, NoMemory>
    requires { CanMake loader.old shape }
    ensures { IfOk result (λ n. Makes loader.old loader.new (kind_for kind) shape n) }
{
    let closed = is_closed(loader, &shape);
    if !is_kept(kind, &shape, closed) {
        return add_node(loader, shape);
    }
    let key = key_of(kind, &shape);
    if let Some(node) = find_node(loader, key, kind, &shape) {
        return Ok(node);
    }
    keep_node(alloc, loader, key, kind, shape, closed)
}
