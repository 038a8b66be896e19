//! The local names that a query or a change uses from outside, with the types of the nodes where they stand.

ghost use Rattle.lk_bodies.specs.Uses.{all, both, change_uses, is_bound, local, query_uses, under, uses, uses_node};
ghost use Rattle.lk_bodies.specs.UsesSeen.{behind_type, seen_uses, used_of};
ghost use Rattle.lk_typing.specs.Names.{names_of};
ghost use Rattle.std.specs.Prelude.{◌≡◌, ◌∷◌, [], map, IfOk, OnOk};

use crate::names::{drop_names, push_some};
use crate::room::ROOM;
use lk_ast::{ChangeExpr, Expr, List, NoMemory, Node, PartExpr, Text, Word, first_statement};
use lk_equations::Scope;
use lk_types::Ground;
use std::alloc::Global;

/// A local name where it stands, with its type.
#[derive(Drop)]
pub struct NameUse<'g, 'p> {
    pub name: &'p str,
    pub ty: &'g Ground,
}

/// The uses that were found, and the types of the nodes still to come, in text order.
#[derive(Drop)]
struct Found<'g, 'p> {
    uses: List<NameUse<'g, 'p>>,
    types: &'g [Ground],
}

/// The local names that a query's body uses from outside, in text order, by the types of its nodes in text order.
/// `NoMemory` also where parts stand more than 4,096 deep in one another.
pub fn query_uses<'g, 'p>(
    alloc: Global,
    body: &'p Expr,
    types: &'g [Ground],
) -> Result<List<NameUse<'g, 'p>>, NoMemory>
    ensures { IfOk result (λ found. seen_uses found ≡ query_uses body.now types.now) }
{
    let uses = List::new(alloc);
    let mut found = Found { uses, types };
    let mut bound = Scope::new(alloc);
    expr(ROOM, body, &mut bound, &mut found)?;
    Ok(found.uses)
}

/// Those that an update or a deletion uses from outside, as a query's body does.
pub fn change_uses<'g, 'p>(
    alloc: Global,
    change: &'p ChangeExpr,
    types: &'g [Ground],
) -> Result<List<NameUse<'g, 'p>>, NoMemory>
    ensures { IfOk result (λ found. seen_uses found ≡ change_uses change.now types.now) }
{
    let uses = List::new(alloc);
    let mut found = Found { uses, types };
    let mut bound = Scope::new(alloc);
    bound.push(change.name.text.as_str(), ())?;
    expr(ROOM, &change.cond, &mut bound, &mut found)?;
    parts(ROOM, change.sets.as_slice(), &mut bound, &mut found)?;
    Ok(found.uses)
}

/// Whether a name is bound inside.
fn is_bound(name: &Text, bound: &Scope<()>) -> bool
    ensures { result ≡ is_bound (names_of bound.now) name.now }
{
    bound.get(name.as_str()).is_some()
}

/// Notes a name of the first of these types, unless it is bound inside.
fn local<'g, 'p>(
    name: &'p Text,
    own: &'g [Ground],
    bound: &Scope<()>,
    found: &mut Found<'g, 'p>,
) -> Result<(), NoMemory>
    ensures { OnOk result (used_of found.new ≡ local name.now own.now (names_of bound.now) (used_of found.old)) }
{
    let Some(ty) = own.first() else {
        return Ok(());
    };
    if is_bound(name, bound) {
        Ok(())
    } else {
        let name = name.as_str();
        found.uses.push(NameUse { name, ty })
    }
}

/// The types from the next node on, of which the first is taken.
fn take_type<'g>(found: &mut Found<'g, '_>) -> &'g [Ground]
    ensures types { result.now ≡ (used_of found.old).types }
    ensures behind { used_of found.new ≡ behind_type (used_of found.old) }
{
    let own = found.types;
    found.types = match own {
        [_, rest @ ..] => rest,
        [] => own,
    };
    own
}

/// The names in an expression. The loop goes down the rests of a block, of which there may be more than the stack has room
/// for.
#[cycle(uses)]
fn expr<'g, 'p>(
    room: usize,
    e: &'p Expr,
    bound: &mut Scope<'p, ()>,
    found: &mut Found<'g, 'p>,
) -> Result<(), NoMemory>
    ensures found { OnOk result (used_of found.new ≡ uses e.now (names_of bound.old) (used_of found.old)) }
    ensures left { OnOk result (bound.new ≡ bound.old) }
{
    if room == 0 {
        return Err(NoMemory);
    }
    let mut count = 0;
    let mut rest = e;
    while let Some((name, statement, next)) = first_statement(rest) {
        take_type(found);
        expr(room - 1, statement, bound, found)?;
        count = push_some(bound, name, (), count)?;
        rest = next;
    }
    let own = take_type(found);
    node(room - 1, own, rest.node.get(), bound, found)?;
    drop_names(bound, count);
    Ok(())
}

/// The names in a node, by the types of the nodes from it on.
#[cycle(uses)]
#[tactic(auto, unfolding(crate::specs::Uses::uses, crate::specs::Uses::uses_node, crate::specs::Uses::uses_part))]
fn node<'g, 'p>(
    room: usize,
    own: &'g [Ground],
    node: &'p Node,
    bound: &mut Scope<'p, ()>,
    found: &mut Found<'g, 'p>,
) -> Result<(), NoMemory>
    ensures found { OnOk result (used_of found.new ≡ uses_node node.now own.now (names_of bound.old) (used_of found.old)) }
    ensures left { OnOk result (bound.new ≡ bound.old) }
{
    match node {
        Node::Name(name) => local(name, own, bound, found),
        Node::Call(_, list) | Node::List(list) => exprs(room, list.as_slice(), bound, found),
        Node::If(c, a, b) => three(room, c, a, b, bound, found),
        Node::Seq(a, b)
        | Node::And(a, b)
        | Node::Or(a, b)
        | Node::Concat(a, b)
        | Node::Append(a, b)
        | Node::Add(a, b)
        | Node::Sub(a, b)
        | Node::Mul(a, b)
        | Node::Eq(a, b)
        | Node::Ne(a, b)
        | Node::Lt(a, b)
        | Node::Le(a, b)
        | Node::Gt(a, b)
        | Node::Ge(a, b)
        | Node::Where(a, b) => two(room, a, b, bound, found),
        Node::Neg(e) | Node::Not(e) | Node::Empty(e) | Node::Project(e, _) | Node::Query(_, e) =>
            expr(room, e, bound, found),
        Node::Record(items) => parts(room, items.as_slice(), bound, found),
        Node::Extend(items, e) => extension(room, items.as_slice(), e, bound, found),
        Node::Var(name, e, body) | Node::ForList(name, e, body) | Node::ForTable(name, e, body) => {
            binding(room, name, e, body, bound, found)
        }
        Node::Int(_)
        | Node::Text(_)
        | Node::Bool(_)
        | Node::Function(_)
        | Node::Lambda(_)
        | Node::Apply(_, _)
        | Node::Cons(_, _)
        | Node::Div(_, _)
        | Node::Mod(_, _)
        | Node::Hd(_)
        | Node::Tl(_)
        | Node::IntToString(_)
        | Node::Print(_)
        | Node::Tag(_, _)
        | Node::Switch(_, _, _)
        | Node::Table(_)
        | Node::Insert(_, _)
        | Node::Update(_)
        | Node::Delete(_) => Ok(()),
    }
}

/// The names in two expressions.
#[cycle(uses)]
fn two<'g, 'p>(
    room: usize,
    a: &'p Expr,
    b: &'p Expr,
    bound: &mut Scope<'p, ()>,
    found: &mut Found<'g, 'p>,
) -> Result<(), NoMemory>
    ensures found { OnOk result (used_of found.new ≡ both (uses a.now) (uses b.now) (names_of bound.old) (used_of found.old)) }
    ensures left { OnOk result (bound.new ≡ bound.old) }
{
    expr(room, a, bound, found)?;
    expr(room, b, bound, found)
}

/// The names in three expressions.
#[cycle(uses)]
fn three<'g, 'p>(
    room: usize,
    a: &'p Expr,
    b: &'p Expr,
    c: &'p Expr,
    bound: &mut Scope<'p, ()>,
    found: &mut Found<'g, 'p>,
) -> Result<(), NoMemory>
    ensures found { OnOk result (used_of found.new ≡ both (uses a.now) (both (uses b.now) (uses c.now)) (names_of bound.old) (used_of found.old)) }
    ensures left { OnOk result (bound.new ≡ bound.old) }
{
    expr(room, a, bound, found)?;
    two(room, b, c, bound, found)
}

/// The names in `(l = e | r)`.
#[cycle(uses)]
fn extension<'g, 'p>(
    room: usize,
    items: &'p [PartExpr],
    e: &'p Expr,
    bound: &mut Scope<'p, ()>,
    found: &mut Found<'g, 'p>,
) -> Result<(), NoMemory>
    ensures found { OnOk result (used_of found.new ≡ both (all (map (λ item. uses item.expr) items.now)) (uses e.now) (names_of bound.old) (used_of found.old)) }
    ensures left { OnOk result (bound.new ≡ bound.old) }
{
    parts(room, items, bound, found)?;
    expr(room, e, bound, found)
}

/// The names in an expression, and in another one inside which a name is bound.
#[cycle(uses)]
fn binding<'g, 'p>(
    room: usize,
    name: &'p Word,
    e: &'p Expr,
    body: &'p Expr,
    bound: &mut Scope<'p, ()>,
    found: &mut Found<'g, 'p>,
) -> Result<(), NoMemory>
    ensures found { OnOk result (used_of found.new ≡ both (uses e.now) (under name.now.text (uses body.now)) (names_of bound.old) (used_of found.old)) }
    ensures left { OnOk result (bound.new ≡ bound.old) }
{
    expr(room, e, bound, found)?;
    inside(room, name, body, bound, found)
}

/// The names in an expression inside which one more is bound.
#[cycle(uses)]
fn inside<'g, 'p>(
    room: usize,
    name: &'p Word,
    e: &'p Expr,
    bound: &mut Scope<'p, ()>,
    found: &mut Found<'g, 'p>,
) -> Result<(), NoMemory>
    ensures found { OnOk result (used_of found.new ≡ under name.now.text (uses e.now) (names_of bound.old) (used_of found.old)) }
    ensures left { OnOk result (bound.new ≡ bound.old) }
{
    bound.push(name.text.as_str(), ())?;
    expr(room, e, bound, found)?;
    bound.pop();
    Ok(())
}

/// The names in expressions.
#[cycle(uses)]
fn exprs<'g, 'p>(
    room: usize,
    list: &'p [Expr],
    bound: &mut Scope<'p, ()>,
    found: &mut Found<'g, 'p>,
) -> Result<(), NoMemory>
    ensures found { OnOk result (used_of found.new ≡ all (map uses list.now) (names_of bound.old) (used_of found.old)) }
    ensures left { OnOk result (bound.new ≡ bound.old) }
{
    for e in list {
        expr(room, e, bound, found)?;
    }
    Ok(())
}

/// The names in `l = e, m = d`.
#[cycle(uses)]
fn parts<'g, 'p>(
    room: usize,
    list: &'p [PartExpr],
    bound: &mut Scope<'p, ()>,
    found: &mut Found<'g, 'p>,
) -> Result<(), NoMemory>
    ensures found { OnOk result (used_of found.new ≡ all (map (λ item. uses item.expr) list.now) (names_of bound.old) (used_of found.old)) }
    ensures left { OnOk result (bound.new ≡ bound.old) }
{
    for item in list {
        expr(room, &item.expr, bound, found)?;
    }
    Ok(())
}
