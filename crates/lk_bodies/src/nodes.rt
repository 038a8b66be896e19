//! How many nodes a query has with the bodies of what it calls.

ghost use Rattle.lk_ast.specs.declared.expression.Node.{out-Node};
ghost use Rattle.lk_bodies.specs.Nodes.{counted, nodes, query_nodes, spent, total};
ghost use Rattle.lk_bodies.specs.NodesInside.{all_nodes, cases_nodes, changed_nodes, inside, parts_nodes, some_nodes};
ghost use Rattle.std.specs.Prelude.{◌≡◌, ◌+◌, ◌∷◌, [], IfOk};

use crate::room::ROOM;
use lk_ast::{Case, ChangeExpr, Expr, LastCase, NoMemory, Node, PartExpr, Text, first_statement};
use lk_index::Index;

/// Where a count stands: in which program, and how many calls may stand one in the other.
#[derive(Clone, Copy)]
struct At<'i, 'p> {
    index: &'i Index<'p>,
    calls: usize,
}

/// What is left of so many nodes behind those of a query and of the bodies that it calls, and `None` where there are more.
/// `NoMemory` where parts and calls stand more than 4,096 deep in one another, since each takes a piece of the stack.
pub fn count_nodes<'p>(index: &Index<'p>, e: &'p Expr, most: u32) -> Result<Option<u32>, NoMemory>
    ensures { IfOk result (λ found. found ≡ spent most (query_nodes index.now e.now)) }
{
    let calls = index.function_count();
    expr(&At { index, calls }, ROOM, e, most)
}

/// What is left behind one more node.
#[tactic(auto, unfolding(crate::specs::Nodes::spent))]
fn take_one(left: u32) -> Option<u32>
    ensures { result ≡ spent left 1 }
{
    left.checked_sub(1)
}

/// What is left behind the nodes of an expression, where so many calls may stand one in the other. The loop goes down the rests
/// of a block, of which there may be more than the stack has room for.
#[cycle(nodes)]
fn expr<'p>(at: &At<'_, 'p>, room: usize, e: &'p Expr, most: u32) -> Result<Option<u32>, NoMemory>
    ensures { IfOk result (λ found. found ≡ spent most (nodes (counted at.now.index.now at.now.calls) e.now)) }
{
    if room == 0 {
        return Err(NoMemory);
    }
    let mut left = most;
    let mut rest = e;
    while let Some((_name, statement, next)) = first_statement(rest) {
        let Some(behind) = take_one(left) else {
            return Ok(None);
        };
        let Some(behind) = expr(at, room - 1, statement, behind)? else {
            return Ok(None);
        };
        left = behind;
        rest = next;
    }
    let Some(behind) = take_one(left) else {
        return Ok(None);
    };
    node(at, room - 1, rest.node.get(), behind)
}

/// What is left behind the nodes inside a node.
#[cycle(nodes)]
#[tactic(auto, using(crate::proofs::NodeCounts::spent_none))]
fn node<'p>(
    at: &At<'_, 'p>,
    room: usize,
    node: &'p Node,
    left: u32,
) -> Result<Option<u32>, NoMemory>
    ensures { IfOk result (λ found. found ≡ spent left (inside (counted at.now.index.now at.now.calls) (out-Node node.now))) }
{
    match node {
        Node::Int(_)
        | Node::Text(_)
        | Node::Bool(_)
        | Node::Name(_)
        | Node::Function(_)
        | Node::Table(_) => Ok(Some(left)),
        Node::Lambda(lambda) => expr(at, room, &lambda.body, left),
        Node::Call(name, args) => { call(at, room, &name.text, args.as_slice(), left) }
        Node::Apply(f, args) => apply(at, room, f, args.as_slice(), left),
        Node::Seq(a, b)
        | Node::And(a, b)
        | Node::Or(a, b)
        | Node::Concat(a, b)
        | Node::Append(a, b)
        | Node::Cons(a, b)
        | Node::Add(a, b)
        | Node::Sub(a, b)
        | Node::Mul(a, b)
        | Node::Div(a, b)
        | Node::Mod(a, b)
        | Node::Eq(a, b)
        | Node::Ne(a, b)
        | Node::Lt(a, b)
        | Node::Le(a, b)
        | Node::Gt(a, b)
        | Node::Ge(a, b)
        | Node::Where(a, b)
        | Node::Var(_, a, b)
        | Node::ForList(_, a, b)
        | Node::ForTable(_, a, b) => Ok(two(at, room, a, b, left)?),
        Node::Neg(e)
        | Node::Not(e)
        | Node::Hd(e)
        | Node::Tl(e)
        | Node::Empty(e)
        | Node::IntToString(e)
        | Node::Print(e)
        | Node::Project(e, _)
        | Node::Tag(_, e)
        | Node::Query(_, e)
        | Node::Insert(_, e) => expr(at, room, e, left),
        Node::If(c, d, e) => three(at, room, c, d, e, left),
        Node::Record(list) => parts(at, room, list.as_slice(), left),
        Node::Extend(list, e) => extension(at, room, list.as_slice(), e, left),
        Node::List(list) => exprs(at, room, list.as_slice(), left),
        Node::Switch(e, list, last) => { switch(at, room, e, list.as_slice(), last, left) }
        Node::Update(rows) | Node::Delete(rows) => change(at, room, rows, left),
    }
}

/// What is left behind the nodes of two expressions.
#[cycle(nodes)]
#[tactic(auto, using(crate::proofs::NodeCounts::spent_sum, crate::proofs::NodeCounts::spent_none))]
fn two<'p>(
    at: &At<'_, 'p>,
    room: usize,
    a: &'p Expr,
    b: &'p Expr,
    left: u32,
) -> Result<Option<u32>, NoMemory>
    ensures { IfOk result (λ found. found ≡ spent left (total (nodes (counted at.now.index.now at.now.calls) a.now ∷ nodes (counted at.now.index.now at.now.calls) b.now ∷ []))) }
{
    let Some(left) = expr(at, room, a, left)? else {
        return Ok(None);
    };
    expr(at, room, b, left)
}

/// What is left behind the nodes of three expressions.
#[cycle(nodes)]
#[tactic(auto, using(crate::proofs::NodeCounts::spent_sum, crate::proofs::NodeCounts::spent_none))]
fn three<'p>(
    at: &At<'_, 'p>,
    room: usize,
    a: &'p Expr,
    b: &'p Expr,
    c: &'p Expr,
    left: u32,
) -> Result<Option<u32>, NoMemory>
    ensures { IfOk result (λ found. found ≡ spent left (nodes (counted at.now.index.now at.now.calls) a.now + (nodes (counted at.now.index.now at.now.calls) b.now + nodes (counted at.now.index.now at.now.calls) c.now))) }
{
    let Some(left) = expr(at, room, a, left)? else {
        return Ok(None);
    };
    two(at, room, b, c, left)
}

/// What is left behind the nodes of a function and of what it is applied to.
#[cycle(nodes)]
#[tactic(auto, using(crate::proofs::NodeCounts::spent_sum, crate::proofs::NodeCounts::spent_none))]
fn apply<'p>(
    at: &At<'_, 'p>,
    room: usize,
    f: &'p Expr,
    args: &'p [Expr],
    left: u32,
) -> Result<Option<u32>, NoMemory>
    ensures { IfOk result (λ found. found ≡ spent left (nodes (counted at.now.index.now at.now.calls) f.now + all_nodes (counted at.now.index.now at.now.calls) args.now)) }
{
    let Some(left) = expr(at, room, f, left)? else {
        return Ok(None);
    };
    exprs(at, room, args, left)
}

/// What is left behind the nodes of `(l = e | r)`.
#[cycle(nodes)]
#[tactic(auto, using(crate::proofs::NodeCounts::spent_sum, crate::proofs::NodeCounts::spent_none))]
fn extension<'p>(
    at: &At<'_, 'p>,
    room: usize,
    list: &'p [PartExpr],
    e: &'p Expr,
    left: u32,
) -> Result<Option<u32>, NoMemory>
    ensures { IfOk result (λ found. found ≡ spent left (parts_nodes (counted at.now.index.now at.now.calls) list.now + nodes (counted at.now.index.now at.now.calls) e.now)) }
{
    let Some(left) = parts(at, room, list, left)? else {
        return Ok(None);
    };
    expr(at, room, e, left)
}

/// What is left behind the nodes of a switch.
#[cycle(nodes)]
#[tactic(auto, using(crate::proofs::NodeCounts::spent_sum, crate::proofs::NodeCounts::spent_none))]
fn switch<'p>(
    at: &At<'_, 'p>,
    room: usize,
    e: &'p Expr,
    list: &'p [Case],
    last: &'p Option<LastCase>,
    left: u32,
) -> Result<Option<u32>, NoMemory>
    ensures { IfOk result (λ found. found ≡ spent left (nodes (counted at.now.index.now at.now.calls) e.now + (cases_nodes (counted at.now.index.now at.now.calls) list.now + some_nodes (counted at.now.index.now at.now.calls) last.now))) }
{
    let Some(left) = expr(at, room, e, left)? else {
        return Ok(None);
    };
    let Some(left) = cases(at, room, list, left)? else {
        return Ok(None);
    };
    last_case(at, room, last, left)
}

/// What is left behind the nodes of expressions.
#[cycle(nodes)]
fn exprs<'p>(
    at: &At<'_, 'p>,
    room: usize,
    list: &'p [Expr],
    most: u32,
) -> Result<Option<u32>, NoMemory>
    ensures { IfOk result (λ found. found ≡ spent most (all_nodes (counted at.now.index.now at.now.calls) list.now)) }
{
    let mut left = most;
    for e in list {
        let Some(behind) = expr(at, room, e, left)? else {
            return Ok(None);
        };
        left = behind;
    }
    Ok(Some(left))
}

/// What is left behind the nodes of `l = e, m = d`.
#[cycle(nodes)]
fn parts<'p>(
    at: &At<'_, 'p>,
    room: usize,
    list: &'p [PartExpr],
    most: u32,
) -> Result<Option<u32>, NoMemory>
    ensures { IfOk result (λ found. found ≡ spent most (parts_nodes (counted at.now.index.now at.now.calls) list.now)) }
{
    let mut left = most;
    for part in list {
        let Some(behind) = expr(at, room, &part.expr, left)? else {
            return Ok(None);
        };
        left = behind;
    }
    Ok(Some(left))
}

/// What is left behind the nodes of the cases of a switch but for the last one.
#[cycle(nodes)]
fn cases<'p>(
    at: &At<'_, 'p>,
    room: usize,
    list: &'p [Case],
    most: u32,
) -> Result<Option<u32>, NoMemory>
    ensures { IfOk result (λ found. found ≡ spent most (cases_nodes (counted at.now.index.now at.now.calls) list.now)) }
{
    let mut left = most;
    for case in list {
        let Some(behind) = expr(at, room, &case.body, left)? else {
            return Ok(None);
        };
        left = behind;
    }
    Ok(Some(left))
}

/// What is left behind the nodes of `case x -> e`.
#[cycle(nodes)]
#[tactic(auto, using(crate::proofs::NodeCounts::spent_sum, crate::proofs::NodeCounts::spent_none))]
fn last_case<'p>(
    at: &At<'_, 'p>,
    room: usize,
    last: &'p Option<LastCase>,
    left: u32,
) -> Result<Option<u32>, NoMemory>
    ensures { IfOk result (λ found. found ≡ spent left (some_nodes (counted at.now.index.now at.now.calls) last.now)) }
{
    match last {
        None => Ok(Some(left)),
        Some(last) => expr(at, room, &last.body, left),
    }
}

/// What is left behind the nodes of `(x <-- t) where (c) set (l = e)`.
#[cycle(nodes)]
#[tactic(auto, using(crate::proofs::NodeCounts::spent_sum, crate::proofs::NodeCounts::spent_none))]
fn change<'p>(
    at: &At<'_, 'p>,
    room: usize,
    rows: &'p ChangeExpr,
    left: u32,
) -> Result<Option<u32>, NoMemory>
    ensures { IfOk result (λ found. found ≡ spent left (changed_nodes (counted at.now.index.now at.now.calls) rows.now)) }
{
    let Some(left) = expr(at, room, &rows.cond, left)? else {
        return Ok(None);
    };
    parts(at, room, rows.sets.as_slice(), left)
}

/// What is left behind the nodes of a call: those of the body of what is called, and those of the arguments.
#[cycle(nodes)]
#[tactic(auto, using(crate::proofs::NodeCounts::spent_sum, crate::proofs::NodeCounts::spent_none))]
fn call<'p>(
    at: &At<'_, 'p>,
    room: usize,
    name: &Text,
    args: &'p [Expr],
    left: u32,
) -> Result<Option<u32>, NoMemory>
    ensures { IfOk result (λ found. found ≡ spent left (counted at.now.index.now at.now.calls name.now + all_nodes (counted at.now.index.now at.now.calls) args.now)) }
{
    let Some(left) = body(at, room, name, left)? else {
        return Ok(None);
    };
    exprs(at, room, args, left)
}

/// What is left behind the nodes of the body of the function of that name.
#[cycle(nodes)]
fn body<'p>(at: &At<'_, 'p>, room: usize, name: &Text, left: u32) -> Result<Option<u32>, NoMemory>
    ensures { IfOk result (λ found. found ≡ spent left (counted at.now.index.now at.now.calls name.now)) }
{
    let calls = at.calls;
    if calls == 0 {
        return Ok(Some(left));
    }
    let Some(function) = at.index.function(name.as_str()) else {
        return Ok(Some(left));
    };
    let inner = At {
        index: at.index,
        calls: calls - 1,
    };
    expr(&inner, room, &function.body, left)
}
