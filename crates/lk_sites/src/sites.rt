//! Where the queries, readings of tables, updates and deletions of a ground program stand.

ghost use Rattle.lk_ast.specs.Layers.{layer};
ghost use Rattle.lk_ast.specs.declared.expression.Node.{out-Node};
ghost use Rattle.lk_sites.specs.SiteSeen.{shown};
ghost use Rattle.lk_sites.specs.Sites.{at_node, behind_node, behind_type, behind_use, entered, in_instance, is_closed, labelled, sites_of, visit};
ghost use Rattle.lk_sites.specs.SitesInside.{both, in_cases, in_change, in_exprs, in_parts, in_some, tour_of, within};
ghost use Rattle.std.specs.Prelude.{◌≡◌, ◌||◌, map, IfOk};

use crate::site::QuerySite;
use lk_ast::{Case, ChangeExpr, Expr, LastCase, List, NoMemory, Node, PartExpr, first_statement};
use lk_ground::{GroundFun, GroundProgram};
use lk_types::Ground;
use std::alloc::Global;

/// How deep parts may stand in one another, each of which takes a piece of the stack.
const ROOM: usize = 4_096;

/// The next label, what is still to come in the body that is visited, and what was found so far.
#[derive(Drop)]
struct Tour<'g, 'p> {
    label: u32,
    types: &'g [Ground],
    calls: &'g [u32],
    found: List<QuerySite<'g, 'p>>,
}

/// The queries, readings of tables, updates and deletions of a ground program's instances, each once, in the order of their labels.
/// `NoMemory` where parts stand more than 4,096 deep in one another, since each takes a piece of the stack, and where there are 2^32
/// labels.
pub fn query_sites<'g, 'p>(
    alloc: Global,
    program: &'g GroundProgram<'p>,
) -> Result<List<QuerySite<'g, 'p>>, NoMemory>
    ensures { IfOk result (λ sites. map shown sites ≡ sites_of program.now) }
{
    let mut tour = Tour {
        label: 1,
        types: &[],
        calls: &[],
        found: List::new(alloc),
    };
    let mut place: u32 = 0;
    for function in program.funs.as_slice() {
        instance(place, function, &mut tour)?;
        place = place.checked_add(1).ok_or(NoMemory)?;
    }
    Ok(tour.found)
}

/// The visit to an instance at this place.
fn instance<'g, 'p>(
    fun: u32,
    function: &'g GroundFun<'p>,
    tour: &mut Tour<'g, 'p>,
) -> Result<(), NoMemory>
    ensures { IfOk result (λ done. tour_of tour.new ≡ in_instance fun function.now (tour_of tour.old)) }
{
    take_label(tour)?;
    tour.types = function.types.as_slice();
    tour.calls = function.calls.as_slice();
    expr(fun, ROOM, false, &function.function.body, tour)
}

/// One label more.
fn take_label(tour: &mut Tour) -> Result<(), NoMemory>
    ensures { IfOk result (λ done. tour_of tour.new ≡ labelled (tour_of tour.old)) }
{
    tour.label = tour.label.checked_add(1).ok_or(NoMemory)?;
    Ok(())
}

/// All but the first type.
fn take_type(tour: &mut Tour)
    ensures { tour_of tour.new ≡ behind_type (tour_of tour.old) }
{
    let types = tour.types;
    tour.types = match types {
        [_, rest @ ..] => rest,
        [] => types,
    };
}

/// All but the first type and the first call.
fn take_use(tour: &mut Tour)
    ensures { tour_of tour.new ≡ behind_use (tour_of tour.old) }
{
    take_type(tour);
    let calls = tour.calls;
    tour.calls = match calls {
        [_, rest @ ..] => rest,
        [] => calls,
    };
}

/// What a node takes.
fn take_node(tour: &mut Tour, node: &Node)
    ensures { tour_of tour.new ≡ behind_node (out-Node node.now) (tour_of tour.old) }
{
    match node {
        Node::Function(_) | Node::Call(_, _) => take_use(tour),
        _ => take_type(tour),
    }
}

/// An expression outside of queries, updates and deletions, by its node.
fn at_node<'g, 'p>(fun: u32, e: &'p Expr, tour: &mut Tour<'g, 'p>) -> Result<(), NoMemory>
    ensures { IfOk result (λ done. tour_of tour.new ≡ at_node fun (layer e.now) e.now (tour_of tour.old)) }
{
    match e.node.get() {
        Node::Lambda(_) | Node::Insert(_, _) => take_label(tour),
        Node::Table(_) | Node::Query(_, _) | Node::Update(_) | Node::Delete(_) => {
            let label = tour.label;
            let types = tour.types;
            let calls = tour.calls;
            take_label(tour)?;
            let site = QuerySite {
                label,
                fun,
                expr: e,
                types,
                calls,
            };
            tour.found.push(site)
        }
        _ => Ok(()),
    }
}

/// An expression without what stands in it.
fn enter<'g, 'p>(
    fun: u32,
    inside: bool,
    e: &'p Expr,
    tour: &mut Tour<'g, 'p>,
) -> Result<(), NoMemory>
    ensures { IfOk result (λ done. tour_of tour.new ≡ entered fun (layer e.now) e.now inside (tour_of tour.old)) }
{
    if !inside {
        at_node(fun, e, tour)?;
    }
    take_node(tour, e.node.get());
    Ok(())
}

/// Whether nothing in a node has a label.
fn is_closed(node: &Node) -> bool
    ensures { result ≡ is_closed (out-Node node.now) }
{
    matches!(node, Node::Query(_, _) | Node::Update(_) | Node::Delete(_))
}

/// Whether what stands in an expression is inside a query, an update or a deletion.
fn is_inside(inside: bool, e: &Expr) -> bool
    ensures { result ≡ (inside || is_closed (layer e.now)) }
{
    inside || is_closed(e.node.get())
}

/// The visit to an expression. The loop goes down the rests of a block of statements, of which there may be more than the stack has
/// room for.
#[cycle(sites)]
fn expr<'g, 'p>(
    fun: u32,
    room: usize,
    inside: bool,
    e: &'p Expr,
    tour: &mut Tour<'g, 'p>,
) -> Result<(), NoMemory>
    ensures { IfOk result (λ done. tour_of tour.new ≡ visit fun e.now inside (tour_of tour.old)) }
{
    if room == 0 {
        return Err(NoMemory);
    }
    let mut rest = e;
    while let Some((_name, statement, next)) = first_statement(rest) {
        take_type(tour);
        expr(fun, room - 1, inside, statement, tour)?;
        rest = next;
    }
    enter(fun, inside, rest, tour)?;
    let within = is_inside(inside, rest);
    node(fun, room - 1, within, rest.node.get(), tour)
}

/// The visit inside a node.
#[cycle(sites)]
fn node<'g, 'p>(
    fun: u32,
    room: usize,
    inside: bool,
    node: &'p Node,
    tour: &mut Tour<'g, 'p>,
) -> Result<(), NoMemory>
    ensures { IfOk result (λ done. tour_of tour.new ≡ within fun (out-Node node.now) inside (tour_of tour.old)) }
{
    match node {
        Node::Int(_)
        | Node::Text(_)
        | Node::Bool(_)
        | Node::Name(_)
        | Node::Function(_)
        | Node::Table(_) => Ok(()),
        Node::Lambda(lambda) => expr(fun, room, inside, &lambda.body, tour),
        Node::Call(_, list) | Node::List(list) => exprs(fun, room, inside, list.as_slice(), tour),
        Node::Apply(f, args) => apply(fun, room, inside, f, args.as_slice(), tour),
        Node::Seq(a, b)
        | Node::And(a, b)
        | Node::Or(a, b)
        | Node::Concat(a, b)
        | Node::Append(a, b)
        | Node::Cons(a, b)
        | Node::Add(a, b)
        | Node::Sub(a, b)
        | Node::Mul(a, b)
        | Node::Div(a, b)
        | Node::Mod(a, b)
        | Node::Eq(a, b)
        | Node::Ne(a, b)
        | Node::Lt(a, b)
        | Node::Le(a, b)
        | Node::Gt(a, b)
        | Node::Ge(a, b)
        | Node::Where(a, b)
        | Node::Var(_, a, b)
        | Node::ForList(_, a, b)
        | Node::ForTable(_, a, b) => Ok(two(fun, room, inside, a, b, tour)?),
        Node::Neg(e)
        | Node::Not(e)
        | Node::Hd(e)
        | Node::Tl(e)
        | Node::Empty(e)
        | Node::IntToString(e)
        | Node::Print(e)
        | Node::Project(e, _)
        | Node::Tag(_, e)
        | Node::Query(_, e)
        | Node::Insert(_, e) => expr(fun, room, inside, e, tour),
        Node::If(c, d, e) => three(fun, room, inside, c, d, e, tour),
        Node::Record(list) => parts(fun, room, inside, list.as_slice(), tour),
        Node::Extend(list, e) => extension(fun, room, inside, list.as_slice(), e, tour),
        Node::Switch(e, list, last) => switch(fun, room, inside, e, list.as_slice(), last, tour),
        Node::Update(rows) | Node::Delete(rows) => change(fun, room, inside, rows, tour),
    }
}

/// The visit to two expressions.
#[cycle(sites)]
fn two<'g, 'p>(
    fun: u32,
    room: usize,
    inside: bool,
    a: &'p Expr,
    b: &'p Expr,
    tour: &mut Tour<'g, 'p>,
) -> Result<(), NoMemory>
    ensures { IfOk result (λ done. tour_of tour.new ≡ both (visit fun a.now) (visit fun b.now) inside (tour_of tour.old)) }
{
    expr(fun, room, inside, a, tour)?;
    expr(fun, room, inside, b, tour)
}

/// The visit to three expressions.
#[cycle(sites)]
fn three<'g, 'p>(
    fun: u32,
    room: usize,
    inside: bool,
    a: &'p Expr,
    b: &'p Expr,
    c: &'p Expr,
    tour: &mut Tour<'g, 'p>,
) -> Result<(), NoMemory>
    ensures { IfOk result (λ done. tour_of tour.new ≡ both (visit fun a.now) (both (visit fun b.now) (visit fun c.now)) inside (tour_of tour.old)) }
{
    expr(fun, room, inside, a, tour)?;
    two(fun, room, inside, b, c, tour)
}

/// The visit to a function and to what it is applied to.
#[cycle(sites)]
fn apply<'g, 'p>(
    fun: u32,
    room: usize,
    inside: bool,
    f: &'p Expr,
    args: &'p [Expr],
    tour: &mut Tour<'g, 'p>,
) -> Result<(), NoMemory>
    ensures { IfOk result (λ done. tour_of tour.new ≡ both (visit fun f.now) (in_exprs fun args.now) inside (tour_of tour.old)) }
{
    expr(fun, room, inside, f, tour)?;
    exprs(fun, room, inside, args, tour)
}

/// The visit to `(l = e | r)`.
#[cycle(sites)]
fn extension<'g, 'p>(
    fun: u32,
    room: usize,
    inside: bool,
    list: &'p [PartExpr],
    e: &'p Expr,
    tour: &mut Tour<'g, 'p>,
) -> Result<(), NoMemory>
    ensures { IfOk result (λ done. tour_of tour.new ≡ both (in_parts fun list.now) (visit fun e.now) inside (tour_of tour.old)) }
{
    parts(fun, room, inside, list, tour)?;
    expr(fun, room, inside, e, tour)
}

/// The visit to a switch.
#[cycle(sites)]
fn switch<'g, 'p>(
    fun: u32,
    room: usize,
    inside: bool,
    e: &'p Expr,
    list: &'p [Case],
    last: &'p Option<LastCase>,
    tour: &mut Tour<'g, 'p>,
) -> Result<(), NoMemory>
    ensures { IfOk result (λ done. tour_of tour.new ≡ both (visit fun e.now) (both (in_cases fun list.now) (in_some fun last.now)) inside (tour_of tour.old)) }
{
    expr(fun, room, inside, e, tour)?;
    cases(fun, room, inside, list, tour)?;
    last_case(fun, room, inside, last, tour)
}

/// The visit to expressions.
#[cycle(sites)]
fn exprs<'g, 'p>(
    fun: u32,
    room: usize,
    inside: bool,
    list: &'p [Expr],
    tour: &mut Tour<'g, 'p>,
) -> Result<(), NoMemory>
    ensures { IfOk result (λ done. tour_of tour.new ≡ in_exprs fun list.now inside (tour_of tour.old)) }
{
    for e in list {
        expr(fun, room, inside, e, tour)?;
    }
    Ok(())
}

/// The visit to `l = e, m = d`.
#[cycle(sites)]
fn parts<'g, 'p>(
    fun: u32,
    room: usize,
    inside: bool,
    list: &'p [PartExpr],
    tour: &mut Tour<'g, 'p>,
) -> Result<(), NoMemory>
    ensures { IfOk result (λ done. tour_of tour.new ≡ in_parts fun list.now inside (tour_of tour.old)) }
{
    for part in list {
        expr(fun, room, inside, &part.expr, tour)?;
    }
    Ok(())
}

/// The visit to the cases of a switch but for the last one.
#[cycle(sites)]
fn cases<'g, 'p>(
    fun: u32,
    room: usize,
    inside: bool,
    list: &'p [Case],
    tour: &mut Tour<'g, 'p>,
) -> Result<(), NoMemory>
    ensures { IfOk result (λ done. tour_of tour.new ≡ in_cases fun list.now inside (tour_of tour.old)) }
{
    for case in list {
        expr(fun, room, inside, &case.body, tour)?;
    }
    Ok(())
}

/// The visit to `case x -> e`.
#[cycle(sites)]
fn last_case<'g, 'p>(
    fun: u32,
    room: usize,
    inside: bool,
    last: &'p Option<LastCase>,
    tour: &mut Tour<'g, 'p>,
) -> Result<(), NoMemory>
    ensures { IfOk result (λ done. tour_of tour.new ≡ in_some fun last.now inside (tour_of tour.old)) }
{
    match last {
        None => Ok(()),
        Some(last) => expr(fun, room, inside, &last.body, tour),
    }
}

/// The visit to `(x <-- t) where (c) set (l = e)`.
#[cycle(sites)]
fn change<'g, 'p>(
    fun: u32,
    room: usize,
    inside: bool,
    rows: &'p ChangeExpr,
    tour: &mut Tour<'g, 'p>,
) -> Result<(), NoMemory>
    ensures { IfOk result (λ done. tour_of tour.new ≡ in_change fun rows.now inside (tour_of tour.old)) }
{
    expr(fun, room, inside, &rows.cond, tour)?;
    parts(fun, room, inside, rows.sets.as_slice(), tour)
}
