//! The walk over the expressions of a body. A node's place is kept, its children are lowered, and its place is filled.

ghost use Rattle.lk_ast.specs.Layers.{layer};
ghost use Rattle.lk_ast.specs.declared.expression.Node.{out-Node};
ghost use Rattle.lk_ast.specs.declared.expression.Node.TheOpen.{Node-F};
ghost use Rattle.lk_evaluation.specs.Syntax.{parts_of};
ghost use Rattle.lk_lower.specs.Growing.{AllLower, Lowers};
ghost use Rattle.lk_lower.specs.Lowering.{tails_of};
ghost use Rattle.lk_lower.specs.Steps.{LowersBefore, Opens, form_of, with_form};
ghost use Rattle.lk_lower.specs.Walked.{shown, state_of};
ghost use Rattle.std.specs.Prelude.{◌≡◌, ◌<◌, length, IfOk, OnOk};

use crate::children::{gather_parts, gather_tails};
use crate::kinds::kind_of;
use crate::lambdas::begin_lambda;
use crate::walk::{At, Place, Walk, fill_place, keep_place, next_number, own_type};
use lk_ast::{Expr, LambdaExpr, List, NoMemory, Node, Span, first_statement};
use lk_ir::{Form, Kind};

/// How deep parts may stand in one another, each of which takes a piece of the stack.
pub const ROOM: usize = 4_096;

/// A node whose place is kept, and what it is without its children.
#[derive(Drop)]
struct Opened {
    place: Place,
    kind: Kind,
}

/// Keeps the place of an expression's node.
fn begin_node(at: &At, e: &Expr, walk: &mut Walk) -> Result<Opened, NoMemory>
    ensures { IfOk result (λ o. Opens at.now.owner at.now.within (state_of walk.old) (state_of walk.new) e.now o.place.number o.place.ty o.kind) }
{
    let number = next_number(walk)?;
    let ty = own_type(walk)?;
    let place = Place { number, ty };
    let kind = kind_of(at, place, e.node.get(), walk)?;
    keep_place(at, e.span, ty, walk)?;
    Ok(Opened { place, kind })
}

/// Fills the place of a node.
fn end_node(
    at: &At,
    span: Span,
    opened: Opened,
    parts: List<u32>,
    tails: List<u32>,
    walk: &mut Walk,
)
    requires { opened.place.number < length walk.old.nodes.items }
    ensures { state_of walk.new ≡ with_form (state_of walk.old) opened.place.number (form_of at.now.within span opened.place.ty opened.kind parts tails) }
{
    let Opened { place, kind } = opened;
    let form = Form {
        at: span,
        within: at.within,
        kind,
        parts,
        tails,
        ty: place.ty,
    };
    fill_place(place.number, form, walk)
}

/// The number of an expression's node. The loop goes down the rests of a block, of which there may be more than the stack has room for.
#[cycle(bodies)]
pub fn expr(at: &At, room: usize, e: &Expr, walk: &mut Walk) -> Result<u32, NoMemory>
    ensures { IfOk result (Lowers at.now.owner at.now.within (state_of walk.old) (state_of walk.new) e.now) }
{
    if room == 0 {
        return Err(NoMemory);
    }
    let number = next_number(walk)?;
    let mut rest = e;
    while let Some((_name, _bound, next)) = first_statement(rest) {
        statement(at, room - 1, rest, walk)?;
        rest = next;
    }
    one(at, room - 1, rest, walk)?;
    Ok(number)
}

/// The node of a block, which begins with a statement, and what the statement does. The rest of the block is the next node.
#[cycle(bodies)]
fn statement(at: &At, room: usize, e: &Expr, walk: &mut Walk) -> Result<(), NoMemory>
    ensures { OnOk result (LowersBefore at.now.owner at.now.within (state_of walk.old) (state_of walk.new) e.now) }
{
    let opened = begin_node(at, e, walk)?;
    let positions = parts(at, room, e.node.get(), walk)?;
    let mut ends = List::new(at.alloc);
    ends.push(next_number(walk)?)?;
    end_node(at, e.span, opened, positions, ends, walk);
    Ok(())
}

/// The node of an expression that isn't a block.
#[cycle(bodies)]
fn one(at: &At, room: usize, e: &Expr, walk: &mut Walk) -> Result<u32, NoMemory>
    ensures { IfOk result (Lowers at.now.owner at.now.within (state_of walk.old) (state_of walk.new) e.now) }
{
    match e.node.get() {
        Node::Lambda(l) => lambda(at, room, e, l, walk),
        _ => node(at, room, e, walk),
    }
}

/// A node that has its children as positions and tails.
#[cycle(bodies)]
fn node(at: &At, room: usize, e: &Expr, walk: &mut Walk) -> Result<u32, NoMemory>
    ensures { IfOk result (Lowers at.now.owner at.now.within (state_of walk.old) (state_of walk.new) e.now) }
{
    let opened = begin_node(at, e, walk)?;
    let positions = parts(at, room, e.node.get(), walk)?;
    let ends = tails(at, room, e.node.get(), walk)?;
    let number = opened.place.number;
    end_node(at, e.span, opened, positions, ends, walk);
    Ok(number)
}

/// The numbers of a node's positions.
#[cycle(bodies)]
fn parts(at: &At, room: usize, node: &Node, walk: &mut Walk) -> Result<List<u32>, NoMemory>
    ensures { IfOk result (AllLower at.now.owner at.now.within (state_of walk.old) (state_of walk.new) (parts_of (out-Node node.now))) }
{
    let mut found = List::new(at.alloc);
    gather_parts(node, &mut found)?;
    all(at, room, found.as_slice(), walk)
}

/// The numbers of a node's tails.
#[cycle(bodies)]
fn tails(at: &At, room: usize, node: &Node, walk: &mut Walk) -> Result<List<u32>, NoMemory>
    ensures { IfOk result (AllLower at.now.owner at.now.within (state_of walk.old) (state_of walk.new) (tails_of (out-Node node.now))) }
{
    let mut found = List::new(at.alloc);
    gather_tails(node, &mut found)?;
    all(at, room, found.as_slice(), walk)
}

/// The numbers of expressions one after another.
#[cycle(bodies)]
fn all(at: &At, room: usize, es: &[&Expr], walk: &mut Walk) -> Result<List<u32>, NoMemory>
    ensures { IfOk result (AllLower at.now.owner at.now.within (state_of walk.old) (state_of walk.new) (shown es.now)) }
{
    let mut numbers = List::new(at.alloc);
    for e in es {
        numbers.push(expr(at, room, e, walk)?)?;
    }
    Ok(numbers)
}

/// A lambda's node and its body, which is the next one.
#[cycle(bodies)]
fn lambda(at: &At, room: usize, e: &Expr, l: &LambdaExpr, walk: &mut Walk) -> Result<u32, NoMemory>
    ensures { IfOk result (λ n. layer e.now ≡ Node-F.Lambda l.now → Lowers at.now.owner at.now.within (state_of walk.old) (state_of walk.new) e.now n) }
{
    let number = next_number(walk)?;
    let label = begin_lambda(at, e.span, l, walk)?;
    let inner = At {
        alloc: at.alloc,
        owner: at.owner,
        within: label,
    };
    expr(&inner, room, &l.body, walk)?;
    Ok(number)
}
