//! The names that a lambda, a query or a change of a table captures.

ghost use Rattle.lk_index.specs.Free.{texts, all_uses, some_uses, use_of, free, free_node, free_part, free_lambda, free_case, free_last, free_change, byte_order, in_byte_order, captured, captured_change, captured_query};
ghost use Rattle.lk_scope.specs.Names.{no_names, bind, bind_all, bind_some};
ghost use Rattle.std.specs.BTreeSet.{IsFromIterResult};
ghost use Rattle.std.specs.Option.{option_copied, option_map};
ghost use Rattle.std.specs.Prelude.{◌≡◌, ◌++◌, IfOk, OnOk, map};

use lk_ast::{
    Case, ChangeExpr, Expr, LambdaExpr, LastCase, List, NoMemory, Node, PartExpr, Text, Word,
    first_statement,
};
use lk_scope::Names;
use std::alloc::Global;
use std::collections::BTreeSet;

/// The names that a lambda captures, its free ones, in byte order and each once. `NoMemory` where memory runs out.
pub fn captured<'p>(alloc: Global, e: &'p LambdaExpr) -> Result<List<&'p str>, NoMemory>
    ensures { IfOk result (λ names. texts names ≡ captured e.now) }
{
    let mut bound = Names::new(alloc);
    let mut found = List::new(alloc);
    lambda(alloc, &mut bound, &mut found, e)?;
    in_order(alloc, found.as_slice())
}

/// The names that a query with this body captures, its free ones, in byte order and each once. `NoMemory` where memory runs
/// out.
pub fn captured_query<'p>(alloc: Global, body: &'p Expr) -> Result<List<&'p str>, NoMemory>
    ensures { IfOk result (λ names. texts names ≡ captured_query body.now) }
{
    let mut bound = Names::new(alloc);
    let mut found = List::new(alloc);
    expr(alloc, &mut bound, &mut found, body)?;
    in_order(alloc, found.as_slice())
}

/// The names that an update or a deletion captures, its free ones, in byte order and each once. `NoMemory` where memory runs
/// out.
pub fn captured_change<'p>(alloc: Global, rows: &'p ChangeExpr) -> Result<List<&'p str>, NoMemory>
    ensures { IfOk result (λ names. texts names ≡ captured_change rows.now) }
{
    let mut bound = Names::new(alloc);
    let mut found = List::new(alloc);
    change(alloc, &mut bound, &mut found, rows)?;
    in_order(alloc, found.as_slice())
}

/// The set of these names.
fn set_of<'p>(alloc: Global, names: &[&'p str]) -> Result<BTreeSet<&'p str>, NoMemory>
    ensures { IfOk result (IsFromIterResult byte_order names.now) }
{
    Ok(names.iter().copied().collect(alloc)?)
}

/// The names of a set in its order.
fn items_of<'p>(alloc: Global, names: &BTreeSet<&'p str>) -> Result<List<&'p str>, NoMemory>
    ensures { IfOk result (λ items. items ≡ names.now.keys) }
{
    let items: Vec<&'p str> = names.iter().copied().collect(alloc)?;
    Ok(List::from_vec(items))
}

/// These names in byte order, each once.
#[tactic(auto, using(crate::proofs::Order::collected_order))]
fn in_order<'p>(alloc: Global, names: &[&'p str]) -> Result<List<&'p str>, NoMemory>
    ensures { IfOk result (λ sorted. texts sorted ≡ in_byte_order (texts names.now)) }
{
    let set = set_of(alloc, names)?;
    items_of(alloc, &set)
}

/// The uses in an expression. The loop goes down the rests of a block, of which there may be more than the stack has
/// room for.
#[cycle(uses)]
fn expr<'p>(
    alloc: Global,
    bound: &mut Names,
    found: &mut List<&'p str>,
    e: &'p Expr,
) -> Result<(), NoMemory>
    ensures found { OnOk result (texts found.new ≡ texts found.old ++ free e.now bound.old) }
    ensures left { OnOk result (bound.new ≡ bound.old) }
{
    let mut noted = List::new(alloc);
    let mut rest = e;
    while let Some((name, statement, next)) = first_statement(rest) {
        expr(alloc, bound, found, statement)?;
        bound.enter_some(alloc, &mut noted, name)?;
        rest = next;
    }
    node(alloc, bound, found, rest.node.get())?;
    bound.leave(noted);
    Ok(())
}

/// A use of a name.
fn name<'p>(bound: &Names, found: &mut List<&'p str>, name: &'p Text) -> Result<(), NoMemory>
    ensures { OnOk result (texts found.new ≡ texts found.old ++ use_of name.now bound.now) }
{
    if bound.has(name.as_str()) {
        Ok(())
    } else {
        found.push(name.as_str())
    }
}

/// The uses in what an expression is.
#[cycle(uses)]
fn node<'p>(
    alloc: Global,
    bound: &mut Names,
    found: &mut List<&'p str>,
    node: &'p Node,
) -> Result<(), NoMemory>
    ensures found { OnOk result (texts found.new ≡ texts found.old ++ free_node node.now bound.old) }
    ensures left { OnOk result (bound.new ≡ bound.old) }
{
    match node {
        Node::Int(_) | Node::Text(_) | Node::Bool(_) | Node::Function(_) | Node::Table(_) => Ok(()),
        Node::Name(x) => name(bound, found, x),
        Node::Lambda(e) => lambda(alloc, bound, found, e),
        Node::Call(_, list) | Node::List(list) => { exprs(alloc, bound, found, list.as_slice()) }
        Node::Apply(f, args) => {
            expr(alloc, bound, found, f)?;
            exprs(alloc, bound, found, args.as_slice())
        }
        Node::Seq(a, b)
        | Node::And(a, b)
        | Node::Or(a, b)
        | Node::Concat(a, b)
        | Node::Append(a, b)
        | Node::Cons(a, b)
        | Node::Add(a, b)
        | Node::Sub(a, b)
        | Node::Mul(a, b)
        | Node::Div(a, b)
        | Node::Mod(a, b)
        | Node::Eq(a, b)
        | Node::Ne(a, b)
        | Node::Lt(a, b)
        | Node::Le(a, b)
        | Node::Gt(a, b)
        | Node::Ge(a, b)
        | Node::Where(a, b) => {
            expr(alloc, bound, found, a)?;
            expr(alloc, bound, found, b)
        }
        Node::Neg(e)
        | Node::Not(e)
        | Node::Hd(e)
        | Node::Tl(e)
        | Node::Empty(e)
        | Node::IntToString(e)
        | Node::Print(e)
        | Node::Project(e, _)
        | Node::Tag(_, e)
        | Node::Query(_, e)
        | Node::Insert(_, e) => expr(alloc, bound, found, e),
        Node::If(c, d, e) => {
            expr(alloc, bound, found, c)?;
            expr(alloc, bound, found, d)?;
            expr(alloc, bound, found, e)
        }
        Node::Record(fields) => parts(alloc, bound, found, fields.as_slice()),
        Node::Extend(fields, e) => {
            parts(alloc, bound, found, fields.as_slice())?;
            expr(alloc, bound, found, e)
        }
        Node::Switch(e, list, last) => {
            expr(alloc, bound, found, e)?;
            cases(alloc, bound, found, list.as_slice())?;
            last_case(alloc, bound, found, last)
        }
        Node::Var(x, e, body) | Node::ForList(x, e, body) | Node::ForTable(x, e, body) => {
            expr(alloc, bound, found, e)?;
            under(alloc, bound, found, x, body)
        }
        Node::Update(rows) | Node::Delete(rows) => change(alloc, bound, found, rows),
    }
}

/// The uses in an expression in which one more name is bound.
#[cycle(uses)]
fn under<'p>(
    alloc: Global,
    bound: &mut Names,
    found: &mut List<&'p str>,
    name: &Word,
    e: &'p Expr,
) -> Result<(), NoMemory>
    ensures found { OnOk result (texts found.new ≡ texts found.old ++ free e.now (bind name.now bound.old)) }
    ensures left { OnOk result (bound.new ≡ bound.old) }
{
    let mut noted = List::new(alloc);
    bound.enter(alloc, &mut noted, name)?;
    expr(alloc, bound, found, e)?;
    bound.leave(noted);
    Ok(())
}

/// The uses in an expression in which one more name or none is bound.
#[cycle(uses)]
fn under_some<'p>(
    alloc: Global,
    bound: &mut Names,
    found: &mut List<&'p str>,
    name: Option<&Word>,
    e: &'p Expr,
) -> Result<(), NoMemory>
    ensures found { OnOk result (texts found.new ≡ texts found.old ++ free e.now (bind_some (option_copied name.entry) bound.old)) }
    ensures left { OnOk result (bound.new ≡ bound.old) }
{
    let mut noted = List::new(alloc);
    bound.enter_some(alloc, &mut noted, name)?;
    expr(alloc, bound, found, e)?;
    bound.leave(noted);
    Ok(())
}

/// The uses in expressions.
#[cycle(uses)]
fn exprs<'p>(
    alloc: Global,
    bound: &mut Names,
    found: &mut List<&'p str>,
    list: &'p [Expr],
) -> Result<(), NoMemory>
    ensures found { OnOk result (texts found.new ≡ texts found.old ++ all_uses (map free list.now) bound.old) }
    ensures left { OnOk result (bound.new ≡ bound.old) }
{
    for e in list {
        expr(alloc, bound, found, e)?;
    }
    Ok(())
}

/// The uses in `l = e, m = d`.
#[cycle(uses)]
fn parts<'p>(
    alloc: Global,
    bound: &mut Names,
    found: &mut List<&'p str>,
    list: &'p [PartExpr],
) -> Result<(), NoMemory>
    ensures found { OnOk result (texts found.new ≡ texts found.old ++ all_uses (map free_part list.now) bound.old) }
    ensures left { OnOk result (bound.new ≡ bound.old) }
{
    for part in list {
        expr(alloc, bound, found, &part.expr)?;
    }
    Ok(())
}

/// The uses in `fun (x, y) { e }`.
#[cycle(uses)]
fn lambda<'p>(
    alloc: Global,
    bound: &mut Names,
    found: &mut List<&'p str>,
    e: &'p LambdaExpr,
) -> Result<(), NoMemory>
    ensures found { OnOk result (texts found.new ≡ texts found.old ++ free_lambda e.now bound.old) }
    ensures left { OnOk result (bound.new ≡ bound.old) }
{
    let mut noted = List::new(alloc);
    bound.enter_all(alloc, &mut noted, e.params.as_slice())?;
    expr(alloc, bound, found, &e.body)?;
    bound.leave(noted);
    Ok(())
}

/// The uses in the cases of a switch but for the last one.
#[cycle(uses)]
fn cases<'p>(
    alloc: Global,
    bound: &mut Names,
    found: &mut List<&'p str>,
    list: &'p [Case],
) -> Result<(), NoMemory>
    ensures found { OnOk result (texts found.new ≡ texts found.old ++ all_uses (map free_case list.now) bound.old) }
    ensures left { OnOk result (bound.new ≡ bound.old) }
{
    for case in list {
        under_some(alloc, bound, found, case.name.as_ref(), &case.body)?;
    }
    Ok(())
}

/// The uses in `case x -> e`.
#[cycle(uses)]
fn last_case<'p>(
    alloc: Global,
    bound: &mut Names,
    found: &mut List<&'p str>,
    last: &'p Option<LastCase>,
) -> Result<(), NoMemory>
    ensures found { OnOk result (texts found.new ≡ texts found.old ++ some_uses (option_map free_last last.now) bound.old) }
    ensures left { OnOk result (bound.new ≡ bound.old) }
{
    match last {
        None => Ok(()),
        Some(last) => under(alloc, bound, found, &last.name, &last.body),
    }
}

/// The uses in `(x <-- t) where (c) set (l = e)`.
#[cycle(uses)]
fn change<'p>(
    alloc: Global,
    bound: &mut Names,
    found: &mut List<&'p str>,
    rows: &'p ChangeExpr,
) -> Result<(), NoMemory>
    ensures found { OnOk result (texts found.new ≡ texts found.old ++ free_change rows.now bound.old) }
    ensures left { OnOk result (bound.new ≡ bound.old) }
{
    let mut noted = List::new(alloc);
    bound.enter(alloc, &mut noted, &rows.name)?;
    expr(alloc, bound, found, &rows.cond)?;
    parts(alloc, bound, found, rows.sets.as_slice())?;
    bound.leave(noted);
    Ok(())
}
