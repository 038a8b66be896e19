//! The lambdas of functions, by their places.

ghost use Rattle.lk_index.specs.Places.{gather_all, gather_some, each_with, gather, gather_node, gather_part, gather_case, gather_last, gather_change, lambdas_of, seen, shown};
ghost use Rattle.std.specs.Option.{option_map};
ghost use Rattle.std.specs.Prelude.{◌≡◌, IfOk, OnOk};

use lk_ast::{
    Case, ChangeExpr, Expr, FunDef, LambdaExpr, LastCase, List, NoMemory, Node, PartExpr,
    first_statement,
};
use std::alloc::Global;

/// The lambdas in the bodies of functions, each with the place where it begins, in text order.
pub fn lambdas<'p>(
    alloc: Global,
    functions: &[&'p FunDef],
) -> Result<List<(u32, &'p LambdaExpr)>, NoMemory>
    ensures { IfOk result (λ found. seen found ≡ lambdas_of (shown functions.now)) }
{
    let mut found = List::new(alloc);
    for function in functions {
        expr(alloc, &mut found, &function.body)?;
    }
    Ok(found)
}

/// The lambdas in an expression. The loop goes down the rests of a block, of which there may be more than the stack has
/// room for.
#[cycle(places)]
#[tactic(auto, using(crate::proofs::Paras::before_level, crate::proofs::Paras::expr_level))]
fn expr<'p>(
    alloc: Global,
    found: &mut List<(u32, &'p LambdaExpr)>,
    e: &'p Expr,
) -> Result<(), NoMemory>
    ensures { OnOk result (seen found.new ≡ gather e.now (seen found.old)) }
{
    let mut rest = e;
    while let Some((_name, statement, next)) = first_statement(rest) {
        expr(alloc, found, statement)?;
        rest = next;
    }
    node(alloc, found, rest.span.start, rest.node.get())
}

/// The lambdas in what an expression that begins at this place is.
#[cycle(places)]
#[tactic(auto, using(lk_ast::specs::declared::expression::Node::the_lemmas, crate::proofs::Paras::node_level, crate::proofs::Paras::lambda_level))]
fn node<'p>(
    alloc: Global,
    found: &mut List<(u32, &'p LambdaExpr)>,
    site: u32,
    node: &'p Node,
) -> Result<(), NoMemory>
    ensures { OnOk result (seen found.new ≡ gather_node node.now site (seen found.old)) }
{
    match node {
        Node::Int(_)
        | Node::Text(_)
        | Node::Bool(_)
        | Node::Name(_)
        | Node::Function(_)
        | Node::Table(_) => Ok(()),
        Node::Lambda(e) => {
            found.push((site, e))?;
            expr(alloc, found, &e.body)
        }
        Node::Call(_, list) | Node::List(list) => exprs(alloc, found, list.as_slice()),
        Node::Apply(f, args) => {
            expr(alloc, found, f)?;
            exprs(alloc, found, args.as_slice())
        }
        Node::Seq(a, b)
        | Node::And(a, b)
        | Node::Or(a, b)
        | Node::Concat(a, b)
        | Node::Append(a, b)
        | Node::Cons(a, b)
        | Node::Add(a, b)
        | Node::Sub(a, b)
        | Node::Mul(a, b)
        | Node::Div(a, b)
        | Node::Mod(a, b)
        | Node::Eq(a, b)
        | Node::Ne(a, b)
        | Node::Lt(a, b)
        | Node::Le(a, b)
        | Node::Gt(a, b)
        | Node::Ge(a, b)
        | Node::Where(a, b)
        | Node::Var(_, a, b)
        | Node::ForList(_, a, b)
        | Node::ForTable(_, a, b) => {
            expr(alloc, found, a)?;
            expr(alloc, found, b)
        }
        Node::Neg(e)
        | Node::Not(e)
        | Node::Hd(e)
        | Node::Tl(e)
        | Node::Empty(e)
        | Node::IntToString(e)
        | Node::Print(e)
        | Node::Project(e, _)
        | Node::Tag(_, e)
        | Node::Query(_, e)
        | Node::Insert(_, e) => expr(alloc, found, e),
        Node::If(c, d, e) => {
            expr(alloc, found, c)?;
            expr(alloc, found, d)?;
            expr(alloc, found, e)
        }
        Node::Record(fields) => parts(alloc, found, fields.as_slice()),
        Node::Extend(fields, e) => {
            parts(alloc, found, fields.as_slice())?;
            expr(alloc, found, e)
        }
        Node::Switch(e, list, last) => {
            expr(alloc, found, e)?;
            cases(alloc, found, list.as_slice())?;
            last_case(alloc, found, last)
        }
        Node::Update(rows) | Node::Delete(rows) => change(alloc, found, rows),
    }
}

/// The lambdas in expressions.
#[cycle(places)]
fn exprs<'p>(
    alloc: Global,
    found: &mut List<(u32, &'p LambdaExpr)>,
    list: &'p [Expr],
) -> Result<(), NoMemory>
    ensures { OnOk result (seen found.new ≡ gather_all (each_with gather list.now) (seen found.old)) }
{
    for e in list {
        expr(alloc, found, e)?;
    }
    Ok(())
}

/// The lambdas in `l = e`.
#[cycle(places)]
#[tactic(auto, using(crate::proofs::Paras::part_level))]
fn part<'p>(
    alloc: Global,
    found: &mut List<(u32, &'p LambdaExpr)>,
    part: &'p PartExpr,
) -> Result<(), NoMemory>
    ensures { OnOk result (seen found.new ≡ gather_part part.now (seen found.old)) }
{
    expr(alloc, found, &part.expr)
}

/// The lambdas in `l = e, m = d`.
#[cycle(places)]
fn parts<'p>(
    alloc: Global,
    found: &mut List<(u32, &'p LambdaExpr)>,
    list: &'p [PartExpr],
) -> Result<(), NoMemory>
    ensures { OnOk result (seen found.new ≡ gather_all (each_with gather_part list.now) (seen found.old)) }
{
    for one in list {
        part(alloc, found, one)?;
    }
    Ok(())
}

/// The lambdas in `case T(x) -> e`, `case T -> e`.
#[cycle(places)]
#[tactic(auto, using(crate::proofs::Paras::case_level))]
fn case<'p>(
    alloc: Global,
    found: &mut List<(u32, &'p LambdaExpr)>,
    case: &'p Case,
) -> Result<(), NoMemory>
    ensures { OnOk result (seen found.new ≡ gather_case case.now (seen found.old)) }
{
    expr(alloc, found, &case.body)
}

/// The lambdas in the cases of a switch but for the last one.
#[cycle(places)]
fn cases<'p>(
    alloc: Global,
    found: &mut List<(u32, &'p LambdaExpr)>,
    list: &'p [Case],
) -> Result<(), NoMemory>
    ensures { OnOk result (seen found.new ≡ gather_all (each_with gather_case list.now) (seen found.old)) }
{
    for one in list {
        case(alloc, found, one)?;
    }
    Ok(())
}

/// The lambdas in `case x -> e`.
#[cycle(places)]
#[tactic(auto, using(crate::proofs::Paras::last_level))]
fn last_case<'p>(
    alloc: Global,
    found: &mut List<(u32, &'p LambdaExpr)>,
    last: &'p Option<LastCase>,
) -> Result<(), NoMemory>
    ensures { OnOk result (seen found.new ≡ gather_some (option_map (λ last. (last, gather_last last)) last.now) (seen found.old)) }
{
    match last {
        None => Ok(()),
        Some(last) => expr(alloc, found, &last.body),
    }
}

/// The lambdas in `(x <-- t) where (c) set (l = e)`.
#[cycle(places)]
#[tactic(auto, using(crate::proofs::Paras::change_level))]
fn change<'p>(
    alloc: Global,
    found: &mut List<(u32, &'p LambdaExpr)>,
    rows: &'p ChangeExpr,
) -> Result<(), NoMemory>
    ensures { OnOk result (seen found.new ≡ gather_change rows.now (seen found.old)) }
{
    expr(alloc, found, &rows.cond)?;
    parts(alloc, found, rows.sets.as_slice())
}
