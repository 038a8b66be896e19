//! Expressions under the local names in scope.

ghost use Rattle.lk_names.specs.Expressions.{local_fault, global_fault, some_in, fault, node_fault, part_item, lambda_fault, case_item, last_fault, change_fault};
ghost use Rattle.lk_names.specs.Faults.{Answers, first_among, first_of};
ghost use Rattle.lk_names.specs.Repeats.{items_fault, keys_fault};
ghost use Rattle.lk_scope.specs.Names.{no_names, bind, bind_all, bind_some};
ghost use Rattle.lk_scope.specs.Scoped.{all_in};
ghost use Rattle.std.specs.Option.{option_copied, option_map};
ghost use Rattle.std.specs.Prelude.{◌≡◌, OnOk, map};

use crate::error::NameError;
use crate::globals::Globals;
use crate::repeats::{keys, once, words};
use lk_ast::{
    Case, ChangeExpr, Expr, LambdaExpr, LastCase, List, Node, PartExpr, SortKey, Span, Text, Word,
    first_statement,
};
use lk_scope::Names;
use std::alloc::Global;

/// An expression. The loop goes down the rests of a block, of which there may be more than the stack has room for.
#[cycle(faults)]
pub fn expr(alloc: Global, globals: &Globals, names: &mut Names, e: &Expr) -> Result<(), NameError>
    ensures fault { Answers result (fault globals.now e.now names.old) }
    ensures left { OnOk result (names.new ≡ names.old) }
{
    let mut noted = List::new(alloc);
    let mut rest = e;
    while let Some((name, statement, next)) = first_statement(rest) {
        expr(alloc, globals, names, statement)?;
        names.enter_some(alloc, &mut noted, name)?;
        rest = next;
    }
    node(alloc, globals, names, rest.span, rest.node.get())?;
    names.leave(noted);
    Ok(())
}

/// A local name of this word is in scope.
fn local(names: &Names, span: Span, name: &Text) -> Result<(), NameError>
    ensures { Answers result (local_fault names.now span name.now) }
{
    if names.has(name.as_str()) {
        Ok(())
    } else {
        Err(NameError::Unbound(span))
    }
}

/// One of these tables or functions has this name, and no local name hides it.
fn global(declared: &Names, names: &Names, span: Span, name: &Text) -> Result<(), NameError>
    ensures { Answers result (global_fault declared.now names.now span name.now) }
{
    if declared.has(name.as_str()) && !names.has(name.as_str()) {
        Ok(())
    } else {
        Err(NameError::Unbound(span))
    }
}

/// What an expression is.
#[cycle(faults)]
fn node(
    alloc: Global,
    globals: &Globals,
    names: &mut Names,
    span: Span,
    node: &Node,
) -> Result<(), NameError>
    ensures fault { Answers result (node_fault globals.now node.now span names.old) }
    ensures left { OnOk result (names.new ≡ names.old) }
{
    match node {
        Node::Int(_) | Node::Text(_) | Node::Bool(_) => Ok(()),
        Node::Name(name) => local(names, span, name),
        Node::Function(name) => global(&globals.functions, names, span, name),
        Node::Lambda(e) => lambda(alloc, globals, names, e),
        Node::Call(name, args) => call(alloc, globals, names, name, args.as_slice()),
        Node::Apply(f, args) => apply(alloc, globals, names, f, args.as_slice()),
        Node::Seq(a, b)
        | Node::And(a, b)
        | Node::Or(a, b)
        | Node::Concat(a, b)
        | Node::Append(a, b)
        | Node::Cons(a, b)
        | Node::Add(a, b)
        | Node::Sub(a, b)
        | Node::Mul(a, b)
        | Node::Div(a, b)
        | Node::Mod(a, b)
        | Node::Eq(a, b)
        | Node::Ne(a, b)
        | Node::Lt(a, b)
        | Node::Le(a, b)
        | Node::Gt(a, b)
        | Node::Ge(a, b)
        | Node::Where(a, b) => two(alloc, globals, names, a, b),
        Node::Neg(e)
        | Node::Not(e)
        | Node::Hd(e)
        | Node::Tl(e)
        | Node::Empty(e)
        | Node::IntToString(e)
        | Node::Print(e)
        | Node::Project(e, _)
        | Node::Tag(_, e) => expr(alloc, globals, names, e),
        Node::If(c, d, e) => three(alloc, globals, names, c, d, e),
        Node::Record(fields) => parts(alloc, globals, names, fields.as_slice()),
        Node::Extend(fields, e) => extend(alloc, globals, names, fields.as_slice(), e),
        Node::List(items) => exprs(alloc, globals, names, items.as_slice()),
        Node::Switch(e, list, last) => switch(alloc, globals, names, e, list.as_slice(), last),
        Node::Var(name, e, body) | Node::ForList(name, e, body) | Node::ForTable(name, e, body) => {
            binding(alloc, globals, names, name, e, body)
        }
        Node::Table(table) => global(&globals.tables, names, table.at, &table.text),
        Node::Query(list, e) => query(alloc, globals, names, list.as_slice(), e),
        Node::Insert(table, e) => insert(alloc, globals, names, table, e),
        Node::Update(rows) | Node::Delete(rows) => change(alloc, globals, names, rows),
    }
}

/// `g(d, e)`.
#[cycle(faults)]
fn call(
    alloc: Global,
    globals: &Globals,
    names: &mut Names,
    name: &Word,
    args: &[Expr],
) -> Result<(), NameError>
    ensures fault { Answers result (first_of (global_fault globals.now.functions names.old name.now.at name.now.text) (first_among (all_in names.old (map (fault globals.now) args.now)))) }
    ensures left { OnOk result (names.new ≡ names.old) }
{
    global(&globals.functions, names, name.at, &name.text)?;
    exprs(alloc, globals, names, args)
}

/// `f(d, e)`, where `f` is any expression.
#[cycle(faults)]
fn apply(
    alloc: Global,
    globals: &Globals,
    names: &mut Names,
    f: &Expr,
    args: &[Expr],
) -> Result<(), NameError>
    ensures fault { Answers result (first_of (fault globals.now f.now names.old) (first_among (all_in names.old (map (fault globals.now) args.now)))) }
    ensures left { OnOk result (names.new ≡ names.old) }
{
    expr(alloc, globals, names, f)?;
    exprs(alloc, globals, names, args)
}

/// Two expressions under the same names.
#[cycle(faults)]
fn two(
    alloc: Global,
    globals: &Globals,
    names: &mut Names,
    a: &Expr,
    b: &Expr,
) -> Result<(), NameError>
    ensures fault { Answers result (first_of (fault globals.now a.now names.old) (fault globals.now b.now names.old)) }
    ensures left { OnOk result (names.new ≡ names.old) }
{
    expr(alloc, globals, names, a)?;
    expr(alloc, globals, names, b)
}

/// Three expressions under the same names.
#[cycle(faults)]
fn three(
    alloc: Global,
    globals: &Globals,
    names: &mut Names,
    c: &Expr,
    d: &Expr,
    e: &Expr,
) -> Result<(), NameError>
    ensures fault { Answers result (first_of (fault globals.now c.now names.old) (first_of (fault globals.now d.now names.old) (fault globals.now e.now names.old))) }
    ensures left { OnOk result (names.new ≡ names.old) }
{
    expr(alloc, globals, names, c)?;
    expr(alloc, globals, names, d)?;
    expr(alloc, globals, names, e)
}

/// `(l = d | e)`.
#[cycle(faults)]
fn extend(
    alloc: Global,
    globals: &Globals,
    names: &mut Names,
    fields: &[PartExpr],
    e: &Expr,
) -> Result<(), NameError>
    ensures fault { Answers result (first_of (items_fault no_names (all_in names.old (map (part_item globals.now) fields.now))) (fault globals.now e.now names.old)) }
    ensures left { OnOk result (names.new ≡ names.old) }
{
    parts(alloc, globals, names, fields)?;
    expr(alloc, globals, names, e)
}

/// `switch (e) { case T(x) -> d }`.
#[cycle(faults)]
fn switch(
    alloc: Global,
    globals: &Globals,
    names: &mut Names,
    e: &Expr,
    list: &[Case],
    last: &Option<LastCase>,
) -> Result<(), NameError>
    ensures fault { Answers result (first_of (fault globals.now e.now names.old) (first_of (items_fault no_names (all_in names.old (map (case_item globals.now) list.now))) (some_in (option_map (last_fault globals.now) last.now) names.old))) }
    ensures left { OnOk result (names.new ≡ names.old) }
{
    expr(alloc, globals, names, e)?;
    cases(alloc, globals, names, list)?;
    last_case(alloc, globals, names, last)
}

/// An expression, and another one in which one more name is seen.
#[cycle(faults)]
fn binding(
    alloc: Global,
    globals: &Globals,
    names: &mut Names,
    name: &Word,
    e: &Expr,
    body: &Expr,
) -> Result<(), NameError>
    ensures fault { Answers result (first_of (fault globals.now e.now names.old) (fault globals.now body.now (bind name.now names.old))) }
    ensures left { OnOk result (names.new ≡ names.old) }
{
    expr(alloc, globals, names, e)?;
    under(alloc, globals, names, name, body)
}

/// `query orderby (l) { e }`.
#[cycle(faults)]
fn query(
    alloc: Global,
    globals: &Globals,
    names: &mut Names,
    list: &[SortKey],
    e: &Expr,
) -> Result<(), NameError>
    ensures fault { Answers result (first_of (keys_fault list.now) (fault globals.now e.now names.old)) }
    ensures left { OnOk result (names.new ≡ names.old) }
{
    keys(alloc, list)?;
    expr(alloc, globals, names, e)
}

/// `insert t values e`.
#[cycle(faults)]
fn insert(
    alloc: Global,
    globals: &Globals,
    names: &mut Names,
    table: &Word,
    e: &Expr,
) -> Result<(), NameError>
    ensures fault { Answers result (first_of (global_fault globals.now.tables names.old table.now.at table.now.text) (fault globals.now e.now names.old)) }
    ensures left { OnOk result (names.new ≡ names.old) }
{
    global(&globals.tables, names, table.at, &table.text)?;
    expr(alloc, globals, names, e)
}

/// An expression in which one more name is seen.
#[cycle(faults)]
fn under(
    alloc: Global,
    globals: &Globals,
    names: &mut Names,
    name: &Word,
    e: &Expr,
) -> Result<(), NameError>
    ensures fault { Answers result (fault globals.now e.now (bind name.now names.old)) }
    ensures left { OnOk result (names.new ≡ names.old) }
{
    let mut noted = List::new(alloc);
    names.enter(alloc, &mut noted, name)?;
    expr(alloc, globals, names, e)?;
    names.leave(noted);
    Ok(())
}

/// An expression in which one more name or none is seen.
#[cycle(faults)]
fn under_some(
    alloc: Global,
    globals: &Globals,
    names: &mut Names,
    name: Option<&Word>,
    e: &Expr,
) -> Result<(), NameError>
    ensures fault { Answers result (fault globals.now e.now (bind_some (option_copied name.entry) names.old)) }
    ensures left { OnOk result (names.new ≡ names.old) }
{
    let mut noted = List::new(alloc);
    names.enter_some(alloc, &mut noted, name)?;
    expr(alloc, globals, names, e)?;
    names.leave(noted);
    Ok(())
}

/// Expressions.
#[cycle(faults)]
fn exprs(
    alloc: Global,
    globals: &Globals,
    names: &mut Names,
    list: &[Expr],
) -> Result<(), NameError>
    ensures fault { Answers result (first_among (all_in names.old (map (fault globals.now) list.now))) }
    ensures left { OnOk result (names.new ≡ names.old) }
{
    for e in list {
        expr(alloc, globals, names, e)?;
    }
    Ok(())
}

/// `l = e, m = d`.
#[cycle(faults)]
fn parts(
    alloc: Global,
    globals: &Globals,
    names: &mut Names,
    list: &[PartExpr],
) -> Result<(), NameError>
    ensures fault { Answers result (items_fault no_names (all_in names.old (map (part_item globals.now) list.now))) }
    ensures left { OnOk result (names.new ≡ names.old) }
{
    let mut met = Names::new(alloc);
    for part in list {
        once(alloc, &mut met, &part.label)?;
        expr(alloc, globals, names, &part.expr)?;
    }
    Ok(())
}

/// `fun (x, y) { e }`.
#[cycle(faults)]
fn lambda(
    alloc: Global,
    globals: &Globals,
    names: &mut Names,
    e: &LambdaExpr,
) -> Result<(), NameError>
    ensures fault { Answers result (lambda_fault globals.now e.now names.old) }
    ensures left { OnOk result (names.new ≡ names.old) }
{
    words(alloc, e.params.as_slice())?;
    let mut noted = List::new(alloc);
    names.enter_all(alloc, &mut noted, e.params.as_slice())?;
    expr(alloc, globals, names, &e.body)?;
    names.leave(noted);
    Ok(())
}

/// The cases of a switch but for the last one.
#[cycle(faults)]
fn cases(
    alloc: Global,
    globals: &Globals,
    names: &mut Names,
    list: &[Case],
) -> Result<(), NameError>
    ensures fault { Answers result (items_fault no_names (all_in names.old (map (case_item globals.now) list.now))) }
    ensures left { OnOk result (names.new ≡ names.old) }
{
    let mut met = Names::new(alloc);
    for case in list {
        once(alloc, &mut met, &case.tag)?;
        under_some(alloc, globals, names, case.name.as_ref(), &case.body)?;
    }
    Ok(())
}

/// `case x -> e`.
#[cycle(faults)]
fn last_case(
    alloc: Global,
    globals: &Globals,
    names: &mut Names,
    last: &Option<LastCase>,
) -> Result<(), NameError>
    ensures fault { Answers result (some_in (option_map (last_fault globals.now) last.now) names.old) }
    ensures left { OnOk result (names.new ≡ names.old) }
{
    match last {
        None => Ok(()),
        Some(last) => under(alloc, globals, names, &last.name, &last.body),
    }
}

/// `(x <-- t) where (c) set (l = e)`.
#[cycle(faults)]
fn change(
    alloc: Global,
    globals: &Globals,
    names: &mut Names,
    rows: &ChangeExpr,
) -> Result<(), NameError>
    ensures fault { Answers result (change_fault globals.now rows.now names.old) }
    ensures left { OnOk result (names.new ≡ names.old) }
{
    global(&globals.tables, names, rows.table.at, &rows.table.text)?;
    let mut noted = List::new(alloc);
    names.enter(alloc, &mut noted, &rows.name)?;
    expr(alloc, globals, names, &rows.cond)?;
    parts(alloc, globals, names, rows.sets.as_slice())?;
    names.leave(noted);
    Ok(())
}
