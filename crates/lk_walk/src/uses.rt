//! Whether an expression uses a function of the program.

ghost use Rattle.lk_ast.specs.declared.expression.Node.{out-Node};
ghost use Rattle.lk_typing.specs.Uses.{functions_used};
ghost use Rattle.lk_walk.specs.Using.{found_after, found_in, is_use, uses_case, uses_change, uses_last, uses_part};
ghost use Rattle.std.specs.List.{cons_option, list_any};
ghost use Rattle.std.specs.Option.{option_map};
ghost use Rattle.std.specs.Prelude.{◌≡◌, ◌||◌, [], map};

use lk_ast::{Case, ChangeExpr, Expr, LastCase, Node, PartExpr, first_statement};

/// Whether an expression uses the function of that name.
pub fn uses(e: &Expr, name: &str) -> bool
    ensures { result ≡ list_any (is_use name.now) (functions_used e.now) }
{
    expr(e, name, false)
}

/// Whether the function was found before or is used in an expression. The loop goes down the rests of a block, of which
/// there may be more than the stack has room for.
#[cycle(uses)]
fn expr(e: &Expr, name: &str, found: bool) -> bool
    ensures { result ≡ found || list_any (is_use name.now) (functions_used e.now) }
{
    let mut found = found;
    let mut rest = e;
    while let Some((_name, statement, next)) = first_statement(rest) {
        found = expr(statement, name, found);
        rest = next;
    }
    node(rest.node.get(), name, found)
}

/// The same of what an expression is.
#[cycle(uses)]
fn node(node: &Node, name: &str, found: bool) -> bool
    ensures { result ≡ found_in name.now (out-Node node.now) found }
{
    match node {
        Node::Int(_) | Node::Text(_) | Node::Bool(_) | Node::Name(_) | Node::Table(_) => found,
        Node::Function(g) => found || g.as_str() == name,
        Node::Call(g, args) => exprs(args.as_slice(), name, found || g.text.as_str() == name),
        Node::List(items) => exprs(items.as_slice(), name, found),
        Node::Apply(f, args) => exprs(args.as_slice(), name, expr(f, name, found)),
        Node::Lambda(e) => expr(&e.body, name, found),
        Node::Var(_, a, b)
        | Node::ForList(_, a, b)
        | Node::ForTable(_, a, b)
        | Node::Seq(a, b)
        | Node::And(a, b)
        | Node::Or(a, b)
        | Node::Concat(a, b)
        | Node::Append(a, b)
        | Node::Cons(a, b)
        | Node::Add(a, b)
        | Node::Sub(a, b)
        | Node::Mul(a, b)
        | Node::Div(a, b)
        | Node::Mod(a, b)
        | Node::Eq(a, b)
        | Node::Ne(a, b)
        | Node::Lt(a, b)
        | Node::Le(a, b)
        | Node::Gt(a, b)
        | Node::Ge(a, b)
        | Node::Where(a, b) => expr(b, name, expr(a, name, found)),
        Node::Neg(e)
        | Node::Not(e)
        | Node::Hd(e)
        | Node::Tl(e)
        | Node::Empty(e)
        | Node::IntToString(e)
        | Node::Print(e)
        | Node::Project(e, _)
        | Node::Tag(_, e)
        | Node::Query(_, e)
        | Node::Insert(_, e) => expr(e, name, found),
        Node::If(c, d, e) => expr(e, name, expr(d, name, expr(c, name, found))),
        Node::Record(fields) => parts(fields.as_slice(), name, found),
        Node::Extend(fields, e) => expr(e, name, parts(fields.as_slice(), name, found)),
        Node::Switch(e, list, last) => {
            let found = cases(list.as_slice(), name, expr(e, name, found));
            last_case(last, name, found)
        }
        Node::Update(rows) | Node::Delete(rows) => change(rows, name, found),
    }
}

/// The same of expressions.
#[cycle(uses)]
fn exprs(list: &[Expr], name: &str, found: bool) -> bool
    ensures { result ≡ found_after name.now (map functions_used list.now) found }
{
    let mut found = found;
    for e in list {
        found = expr(e, name, found);
    }
    found
}

/// The same of `l = e, m = d`.
#[cycle(uses)]
fn parts(list: &[PartExpr], name: &str, found: bool) -> bool
    ensures { result ≡ found_after name.now (map uses_part list.now) found }
{
    let mut found = found;
    for part in list {
        found = expr(&part.expr, name, found);
    }
    found
}

/// The same of the cases of a switch but for the last one.
#[cycle(uses)]
fn cases(list: &[Case], name: &str, found: bool) -> bool
    ensures { result ≡ found_after name.now (map uses_case list.now) found }
{
    let mut found = found;
    for case in list {
        found = expr(&case.body, name, found);
    }
    found
}

/// The same of a last case.
#[cycle(uses)]
fn last_case(last: &Option<LastCase>, name: &str, found: bool) -> bool
    ensures { result ≡ found_after name.now (cons_option (option_map uses_last last.now) []) found }
{
    match last {
        None => found,
        Some(last) => expr(&last.body, name, found),
    }
}

/// The same of an update or a deletion.
#[cycle(uses)]
fn change(rows: &ChangeExpr, name: &str, found: bool) -> bool
    ensures { result ≡ found || list_any (is_use name.now) (uses_change rows.now) }
{
    parts(rows.sets.as_slice(), name, expr(&rows.cond, name, found))
}
