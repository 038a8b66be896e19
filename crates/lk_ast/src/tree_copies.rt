//! Copies of syntax trees, each equal to what it copies.

ghost use Rattle.std.specs.Prelude.{◌≡◌, IfOk};

use crate::boxed::Boxed;
use crate::expression::{Case, ChangeExpr, Expr, LambdaExpr, LastCase, Node, PartExpr};
use crate::list::List;
use crate::memory::NoMemory;
use crate::operators::{with_operand, with_operands};
use crate::place::Word;
use crate::statements::{Statement, first_statement, make_chain};
use crate::words::{copy_keys, copy_some, copy_word, copy_words};
use std::alloc::Global;

/// The same expression once more. The loop goes down the rests of a block, of which there may be more than the stack
/// has room for.
#[cycle(tree_copies)]
pub fn copy_expr(alloc: Global, e: &Expr) -> Result<Expr, NoMemory>
    ensures { IfOk result (λ copy. copy ≡ e.now) }
{
    let mut statements = List::new(alloc);
    let mut rest = e;
    while let Some((name, statement, next)) = first_statement(rest) {
        statements.push(Statement {
            span: rest.span,
            name: copy_some(alloc, name)?,
            expr: copy_expr(alloc, statement)?,
        })?;
        rest = next;
    }
    let span = rest.span;
    let node = copy_node(alloc, rest.node.get())?;
    let node = Boxed::new(alloc, node)?;
    make_chain(alloc, statements, Expr { span, node })
}

#[cycle(tree_copies)]
fn copy_node(alloc: Global, node: &Node) -> Result<Node, NoMemory>
    ensures { IfOk result (λ copy. copy ≡ node.now) }
{
    match node {
        Node::Int(number) => Ok(Node::Int(*number)),
        Node::Text(text) => text.copy(alloc).map(Node::Text),
        Node::Bool(truth) => Ok(Node::Bool(*truth)),
        Node::Name(name) => name.copy(alloc).map(Node::Name),
        Node::Function(name) => name.copy(alloc).map(Node::Function),
        Node::Lambda(lambda) => copy_lambda(alloc, lambda).map(Node::Lambda),
        Node::Call(name, args) => {
            let (name, args) = copy_call(alloc, name, args.as_slice())?;
            Ok(Node::Call(name, args))
        }
        Node::Apply(f, args) => {
            let (f, args) = copy_application(alloc, f, args.as_slice())?;
            Ok(Node::Apply(f, args))
        }
        Node::Var(name, bound, rest) => {
            let (name, bound, rest) = copy_binding(alloc, name, bound, rest)?;
            Ok(Node::Var(name, bound, rest))
        }
        Node::Seq(a, b)
        | Node::And(a, b)
        | Node::Or(a, b)
        | Node::Concat(a, b)
        | Node::Append(a, b)
        | Node::Cons(a, b)
        | Node::Add(a, b)
        | Node::Sub(a, b)
        | Node::Mul(a, b)
        | Node::Div(a, b)
        | Node::Mod(a, b)
        | Node::Eq(a, b)
        | Node::Ne(a, b)
        | Node::Lt(a, b)
        | Node::Le(a, b)
        | Node::Gt(a, b)
        | Node::Ge(a, b)
        | Node::Where(a, b) => {
            let (a, b) = copy_both(alloc, a, b)?;
            Ok(with_operands(node, a, b))
        }
        Node::Neg(e)
        | Node::Not(e)
        | Node::Hd(e)
        | Node::Tl(e)
        | Node::Empty(e)
        | Node::IntToString(e)
        | Node::Print(e) => Ok(with_operand(node, copy_expr(alloc, e)?)),
        Node::If(c, d, e) => {
            let (c, d, e) = copy_branches(alloc, c, d, e)?;
            Ok(Node::If(c, d, e))
        }
        Node::Record(parts) => copy_parts(alloc, parts.as_slice()).map(Node::Record),
        Node::Extend(parts, e) => {
            let parts = copy_parts(alloc, parts.as_slice())?;
            Ok(Node::Extend(parts, copy_expr(alloc, e)?))
        }
        Node::List(items) => copy_exprs(alloc, items.as_slice()).map(Node::List),
        Node::Project(e, label) => {
            let (label, e) = copy_named(alloc, label, e)?;
            Ok(Node::Project(e, label))
        }
        Node::Tag(tag, e) => {
            let (tag, e) = copy_named(alloc, tag, e)?;
            Ok(Node::Tag(tag, e))
        }
        Node::Switch(e, cases, last) => {
            let (e, cases, last) = copy_switch(alloc, last, e, cases.as_slice())?;
            Ok(Node::Switch(e, cases, last))
        }
        Node::ForList(name, e, body) => {
            let (name, e, body) = copy_binding(alloc, name, e, body)?;
            Ok(Node::ForList(name, e, body))
        }
        Node::ForTable(name, rows, body) => {
            let (name, rows, body) = copy_binding(alloc, name, rows, body)?;
            Ok(Node::ForTable(name, rows, body))
        }
        Node::Table(table) => copy_word(alloc, table).map(Node::Table),
        Node::Query(keys, e) => {
            let keys = copy_keys(alloc, keys.as_slice())?;
            Ok(Node::Query(keys, copy_expr(alloc, e)?))
        }
        Node::Insert(table, e) => {
            let (table, e) = copy_named(alloc, table, e)?;
            Ok(Node::Insert(table, e))
        }
        Node::Update(change) => copy_change(alloc, change).map(Node::Update),
        Node::Delete(change) => copy_change(alloc, change).map(Node::Delete),
    }
}

/// Two expressions once more.
#[cycle(tree_copies)]
fn copy_both(alloc: Global, a: &Expr, b: &Expr) -> Result<(Expr, Expr), NoMemory>
    ensures { IfOk result (λ copies. copies ≡ (a.now, b.now)) }
{
    let a = copy_expr(alloc, a)?;
    Ok((a, copy_expr(alloc, b)?))
}

/// A condition and its two branches once more.
#[cycle(tree_copies)]
fn copy_branches(
    alloc: Global,
    c: &Expr,
    d: &Expr,
    e: &Expr,
) -> Result<(Expr, Expr, Expr), NoMemory>
    ensures { IfOk result (λ copies. copies ≡ (c.now, d.now, e.now)) }
{
    let c = copy_expr(alloc, c)?;
    let d = copy_expr(alloc, d)?;
    Ok((c, d, copy_expr(alloc, e)?))
}

/// The name and the arguments of a call once more.
#[cycle(tree_copies)]
fn copy_call(alloc: Global, name: &Word, args: &[Expr]) -> Result<(Word, List<Expr>), NoMemory>
    ensures { IfOk result (λ copies. copies ≡ (name.now, args.now)) }
{
    let name = copy_word(alloc, name)?;
    Ok((name, copy_exprs(alloc, args)?))
}

/// What is applied and the arguments once more.
#[cycle(tree_copies)]
fn copy_application(alloc: Global, f: &Expr, args: &[Expr]) -> Result<(Expr, List<Expr>), NoMemory>
    ensures { IfOk result (λ copies. copies ≡ (f.now, args.now)) }
{
    let f = copy_expr(alloc, f)?;
    Ok((f, copy_exprs(alloc, args)?))
}

/// A word and the expression that stands with it, once more.
#[cycle(tree_copies)]
fn copy_named(alloc: Global, name: &Word, e: &Expr) -> Result<(Word, Expr), NoMemory>
    ensures { IfOk result (λ copies. copies ≡ (name.now, e.now)) }
{
    let name = copy_word(alloc, name)?;
    Ok((name, copy_expr(alloc, e)?))
}

/// A name, what it is bound to and where it holds, once more.
#[cycle(tree_copies)]
fn copy_binding(
    alloc: Global,
    name: &Word,
    bound: &Expr,
    rest: &Expr,
) -> Result<(Word, Expr, Expr), NoMemory>
    ensures { IfOk result (λ copies. copies ≡ (name.now, bound.now, rest.now)) }
{
    let name = copy_word(alloc, name)?;
    let bound = copy_expr(alloc, bound)?;
    Ok((name, bound, copy_expr(alloc, rest)?))
}

/// The parts of a switch once more.
#[cycle(tree_copies)]
fn copy_switch(
    alloc: Global,
    last: &Option<LastCase>,
    e: &Expr,
    cases: &[Case],
) -> Result<(Expr, List<Case>, Option<LastCase>), NoMemory>
    ensures { IfOk result (λ copies. copies ≡ (e.now, cases.now, last.now)) }
{
    let e = copy_expr(alloc, e)?;
    let cases = copy_cases(alloc, cases)?;
    Ok((e, cases, copy_last(alloc, last)?))
}

#[cycle(tree_copies)]
fn copy_exprs(alloc: Global, exprs: &[Expr]) -> Result<List<Expr>, NoMemory>
    ensures { IfOk result (λ copy. copy ≡ exprs.now) }
{
    let mut copies = List::new(alloc);
    for e in exprs {
        copies.push(copy_expr(alloc, e)?)?;
    }
    Ok(copies)
}

#[cycle(tree_copies)]
fn copy_parts(alloc: Global, parts: &[PartExpr]) -> Result<List<PartExpr>, NoMemory>
    ensures { IfOk result (λ copy. copy ≡ parts.now) }
{
    let mut copies = List::new(alloc);
    for part in parts {
        let label = copy_word(alloc, &part.label)?;
        let expr = copy_expr(alloc, &part.expr)?;
        copies.push(PartExpr { label, expr })?;
    }
    Ok(copies)
}

#[cycle(tree_copies)]
fn copy_lambda(alloc: Global, lambda: &LambdaExpr) -> Result<LambdaExpr, NoMemory>
    ensures { IfOk result (λ copy. copy ≡ lambda.now) }
{
    let params = copy_words(alloc, lambda.params.as_slice())?;
    let place = lambda.place;
    let body = copy_expr(alloc, &lambda.body)?;
    Ok(LambdaExpr {
        params,
        place,
        body,
    })
}

#[cycle(tree_copies)]
fn copy_cases(alloc: Global, cases: &[Case]) -> Result<List<Case>, NoMemory>
    ensures { IfOk result (λ copy. copy ≡ cases.now) }
{
    let mut copies = List::new(alloc);
    for case in cases {
        let tag = copy_word(alloc, &case.tag)?;
        let name = copy_some(alloc, case.name.as_ref())?;
        let body = copy_expr(alloc, &case.body)?;
        copies.push(Case { tag, name, body })?;
    }
    Ok(copies)
}

#[cycle(tree_copies)]
fn copy_last(alloc: Global, last: &Option<LastCase>) -> Result<Option<LastCase>, NoMemory>
    ensures { IfOk result (λ copy. copy ≡ last.now) }
{
    match last {
        None => Ok(None),
        Some(last) => {
            let name = copy_word(alloc, &last.name)?;
            let body = copy_expr(alloc, &last.body)?;
            Ok(Some(LastCase { name, body }))
        }
    }
}

#[cycle(tree_copies)]
fn copy_change(alloc: Global, change: &ChangeExpr) -> Result<ChangeExpr, NoMemory>
    ensures { IfOk result (λ copy. copy ≡ change.now) }
{
    let name = copy_word(alloc, &change.name)?;
    let table = copy_word(alloc, &change.table)?;
    let cond = copy_expr(alloc, &change.cond)?;
    let sets = copy_parts(alloc, change.sets.as_slice())?;
    Ok(ChangeExpr {
        name,
        table,
        cond,
        sets,
    })
}
