//! The parts of a query's expression.

ghost use Rattle.lk_bodies.specs.Walk.{all, behind_type, call, walk, walk_node};
ghost use Rattle.lk_bodies.specs.Walked.{calls_in, made_of, several_of, state_of};
ghost use Rattle.std.specs.Prelude.{◌≡◌, ◌∷◌, IfOk, OnOk, map};

use crate::arms::{
    chosen, empty, equal, extension, filtered, joined, list_of, loop_over, one, project, record_of,
    sequence, two, unequal, variable,
};
use crate::names::{drop_names, push_some};
use crate::parts::{add, bound, literal_text, local, never, table_of};
use crate::room::ROOM;
use lk_ast::{Base, Expr, List, NoMemory, Node, PartExpr, Text, Word, first_statement};
use lk_equations::Scope;
use lk_ground::GroundFun;
use lk_query::Part;
use lk_sql::SqlOp;
use lk_types::Ground;
use std::alloc::Global;

/// What a walk is over: the helpers that queries call.
#[derive(Drop)]
pub struct Over<'g, 'p> {
    pub alloc: Global,
    pub helpers: &'g [GroundFun<'p>],
}

/// What a walk has made, and what is still to come in the body that it walks: the types of the nodes in text order, and the
/// helpers that uses call.
#[derive(Drop)]
pub struct Walked<'g> {
    pub parts: List<Part>,
    pub types: &'g [Ground],
    pub calls: &'g [u32],
}

/// Where a walk stands: what it is over, and how many calls may stand one in the other.
#[derive(Clone, Copy)]
pub struct At<'o, 'g, 'p> {
    pub over: &'o Over<'g, 'p>,
    pub calls: usize,
}

/// The part of an expression, where so many calls may stand one in the other. `NoMemory` also where parts and calls stand more than
/// 4,096 deep in one another.
pub fn walk_expr<'g, 'p>(
    over: &Over<'g, 'p>,
    calls: usize,
    e: &'p Expr,
    names: &mut Scope<'p, u32>,
    walked: &mut Walked<'g>,
) -> Result<u32, NoMemory>
    ensures made { IfOk result (λ number. made_of number walked.new ≡ walk (calls_in over.now calls) e.now names.old (state_of walked.old)) }
    ensures left { OnOk result (names.new ≡ names.old) }
{
    let at = At { over, calls };
    expr(&at, ROOM, e, names, walked)
}

/// The parts of the expressions of `l = e, m = d`, in the same way.
pub fn walk_fields<'g, 'p>(
    over: &Over<'g, 'p>,
    calls: usize,
    items: &'p [PartExpr],
    names: &mut Scope<'p, u32>,
    walked: &mut Walked<'g>,
) -> Result<List<u32>, NoMemory>
    ensures made { IfOk result (λ numbers. several_of numbers walked.new ≡ all (map (λ item. walk (calls_in over.now calls) item.expr) items.now) names.old (state_of walked.old)) }
    ensures left { OnOk result (names.new ≡ names.old) }
{
    let at = At { over, calls };
    fields(&at, ROOM, items, names, walked)
}

/// What is walked for the node whose type is the next one.
fn take_type<'g>(walked: &mut Walked<'g>) -> &'g [Ground]
    ensures types { result.now ≡ (state_of walked.old).types }
    ensures behind { state_of walked.new ≡ behind_type (state_of walked.old) }
{
    let own = walked.types;
    walked.types = match own {
        [_, rest @ ..] => rest,
        [] => own,
    };
    own
}

/// The part of an expression, where so many calls may stand one in the other. The loop goes down the rests of a block, of
/// which there may be more than the stack has room for. `NoMemory` also where there is no room for parts in parts.
#[cycle(walk)]
pub fn expr<'g, 'p>(
    at: &At<'_, 'g, 'p>,
    room: usize,
    e: &'p Expr,
    names: &mut Scope<'p, u32>,
    walked: &mut Walked<'g>,
) -> Result<u32, NoMemory>
    ensures made { IfOk result (λ number. made_of number walked.new ≡ walk (calls_in at.now.over.now at.now.calls) e.now names.old (state_of walked.old)) }
    ensures left { OnOk result (names.new ≡ names.old) }
{
    if room == 0 {
        return Err(NoMemory);
    }
    let mut count = 0;
    let mut rest = e;
    while let Some((name, statement, next)) = first_statement(rest) {
        take_type(walked);
        let number = expr(at, room - 1, statement, names, walked)?;
        count = push_some(names, name, number, count)?;
        rest = next;
    }
    let own = take_type(walked);
    let number = node(at, room - 1, own, rest.node.get(), names, walked)?;
    drop_names(names, count);
    Ok(number)
}

/// The part of a node, by the types of the nodes from it on.
#[cycle(walk)]
#[tactic(auto, unfolding(crate::specs::Walk::walk, crate::specs::Walk::walk_node, crate::specs::Walk::walk_part))]
#[inline(never)]
fn node<'g, 'p>(
    at: &At<'_, 'g, 'p>,
    room: usize,
    own: &'g [Ground],
    node: &'p Node,
    names: &mut Scope<'p, u32>,
    walked: &mut Walked<'g>,
) -> Result<u32, NoMemory>
    ensures made { IfOk result (λ number. made_of number walked.new ≡ walk_node (calls_in at.now.over.now at.now.calls) node.now own.now names.old (state_of walked.old)) }
    ensures left { OnOk result (names.new ≡ names.old) }
{
    match node {
        Node::Int(number) => add(walked, Part::Lit(Base::Int(*number))),
        Node::Text(text) => literal_text(at.over.alloc, text, walked),
        Node::Bool(truth) => add(walked, Part::Lit(Base::Bool(*truth))),
        Node::Name(name) => local(name, names, walked),
        Node::Call(_, args) => call(at, room, args.as_slice(), names, walked),
        Node::If(c, a, b) => chosen(at, room, own, c, a, b, names, walked),
        Node::And(a, b) => two(at, room, SqlOp::And, a, b, names, walked),
        Node::Or(a, b) => two(at, room, SqlOp::Or, a, b, names, walked),
        Node::Concat(a, b) => two(at, room, SqlOp::Concat, a, b, names, walked),
        Node::Add(a, b) => two(at, room, SqlOp::Add, a, b, names, walked),
        Node::Sub(a, b) => two(at, room, SqlOp::Sub, a, b, names, walked),
        Node::Mul(a, b) => two(at, room, SqlOp::Mul, a, b, names, walked),
        Node::Lt(a, b) => two(at, room, SqlOp::Lt, a, b, names, walked),
        Node::Le(a, b) => two(at, room, SqlOp::Le, a, b, names, walked),
        Node::Gt(a, b) => two(at, room, SqlOp::Gt, a, b, names, walked),
        Node::Ge(a, b) => two(at, room, SqlOp::Ge, a, b, names, walked),
        Node::Eq(a, b) => equal(at, room, a, b, names, walked),
        Node::Ne(a, b) => unequal(at, room, a, b, names, walked),
        Node::Append(a, b) => joined(at, room, a, b, names, walked),
        Node::Where(c, e) => filtered(at, room, c, e, names, walked),
        Node::Neg(e) => one(at, room, SqlOp::Neg, e, names, walked),
        Node::Not(e) => one(at, room, SqlOp::Not, e, names, walked),
        Node::Empty(e) => empty(at, room, e, names, walked),
        Node::Record(items) => record_of(at, room, own, items.as_slice(), names, walked),
        Node::Extend(items, e) => {
            let items = items.as_slice();
            extension(at, room, own, items, e, names, walked)
        }
        Node::List(items) => list_of(at, room, items.as_slice(), names, walked),
        Node::Project(e, label) => { project(at, room, e, &label.text, names, walked) }
        Node::ForList(name, e, body) | Node::ForTable(name, e, body) => {
            loop_over(at, room, name, e, body, names, walked)
        }
        Node::Table(name) => table_of(at.over.alloc, own, &name.text, walked),
        Node::Query(_, e) => expr(at, room, e, names, walked),
        Node::Var(name, e, rest) => variable(at, room, name, e, rest, names, walked),
        Node::Seq(e, rest) => sequence(at, room, e, rest, names, walked),
        Node::Function(_)
        | Node::Lambda(_)
        | Node::Apply(_, _)
        | Node::Cons(_, _)
        | Node::Div(_, _)
        | Node::Mod(_, _)
        | Node::Hd(_)
        | Node::Tl(_)
        | Node::IntToString(_)
        | Node::Print(_)
        | Node::Tag(_, _)
        | Node::Switch(_, _, _)
        | Node::Insert(_, _)
        | Node::Update(_)
        | Node::Delete(_) => never(walked),
    }
}

/// Expressions one after the other.
#[cycle(walk)]
pub fn exprs<'g, 'p>(
    at: &At<'_, 'g, 'p>,
    room: usize,
    list: &'p [Expr],
    names: &mut Scope<'p, u32>,
    walked: &mut Walked<'g>,
) -> Result<List<u32>, NoMemory>
    ensures made { IfOk result (λ numbers. several_of numbers walked.new ≡ all (map (walk (calls_in at.now.over.now at.now.calls)) list.now) names.old (state_of walked.old)) }
    ensures left { OnOk result (names.new ≡ names.old) }
{
    let mut numbers = List::new(at.over.alloc);
    for e in list {
        numbers.push(expr(at, room, e, names, walked)?)?;
    }
    Ok(numbers)
}

/// The expressions of `l = e, m = d`.
#[cycle(walk)]
pub fn fields<'g, 'p>(
    at: &At<'_, 'g, 'p>,
    room: usize,
    items: &'p [PartExpr],
    names: &mut Scope<'p, u32>,
    walked: &mut Walked<'g>,
) -> Result<List<u32>, NoMemory>
    ensures made { IfOk result (λ numbers. several_of numbers walked.new ≡ all (map (λ item. walk (calls_in at.now.over.now at.now.calls) item.expr) items.now) names.old (state_of walked.old)) }
    ensures left { OnOk result (names.new ≡ names.old) }
{
    let mut numbers = List::new(at.over.alloc);
    for item in items {
        numbers.push(expr(at, room, &item.expr, names, walked)?)?;
    }
    Ok(numbers)
}

/// An expression in which a name stands for that part.
#[cycle(walk)]
pub fn under<'g, 'p>(
    at: &At<'_, 'g, 'p>,
    room: usize,
    name: &'p Word,
    number: u32,
    e: &'p Expr,
    names: &mut Scope<'p, u32>,
    walked: &mut Walked<'g>,
) -> Result<u32, NoMemory>
    ensures made { IfOk result (λ inner. made_of inner walked.new ≡ walk (calls_in at.now.over.now at.now.calls) e.now ((name.now.text, number) ∷ names.old) (state_of walked.old)) }
    ensures left { OnOk result (names.new ≡ names.old) }
{
    names.push(name.text.as_str(), number)?;
    let inner = expr(at, room, e, names, walked)?;
    names.pop();
    Ok(inner)
}

/// A call: the parts of the helper's body.
#[cycle(walk)]
#[inline(never)]
fn call<'g, 'p>(
    at: &At<'_, 'g, 'p>,
    room: usize,
    args: &'p [Expr],
    names: &mut Scope<'p, u32>,
    walked: &mut Walked<'g>,
) -> Result<u32, NoMemory>
    ensures made { IfOk result (λ number. made_of number walked.new ≡ call (calls_in at.now.over.now at.now.calls) (state_of walked.old).calls (map (walk (calls_in at.now.over.now at.now.calls)) args.now) names.old (state_of walked.old)) }
    ensures left { OnOk result (names.new ≡ names.old) }
{
    let [helper, later @ ..] = walked.calls else {
        return never(walked);
    };
    walked.calls = later;
    let numbers = exprs(at, room, args, names, walked)?;
    let (types, later) = (walked.types, walked.calls);
    let number = enter(at, room, *helper, numbers.as_slice(), walked)?;
    walked.types = types;
    walked.calls = later;
    Ok(number)
}

/// The body of a helper, whose parameters stand for these parts.
#[cycle(walk)]
#[inline(never)]
fn enter<'g, 'p>(
    at: &At<'_, 'g, 'p>,
    room: usize,
    helper: u32,
    numbers: &[u32],
    walked: &mut Walked<'g>,
) -> Result<u32, NoMemory>
    ensures { IfOk result (λ number. made_of number walked.new ≡ calls_in at.now.over.now at.now.calls helper numbers.now walked.old.parts) }
{
    walked.types = &[];
    walked.calls = &[];
    let calls = at.calls;
    if calls == 0 {
        return never(walked);
    }
    let Some(function) = at.over.helpers.get(helper as usize) else {
        return never(walked);
    };
    walked.types = function.types.as_slice();
    walked.calls = function.calls.as_slice();
    let source = function.function;
    let mut names = bound(at.over.alloc, source.params.as_slice(), numbers)?;
    let inner = At {
        over: at.over,
        calls: calls - 1,
    };
    expr(&inner, room, &source.body, &mut names, walked)
}
