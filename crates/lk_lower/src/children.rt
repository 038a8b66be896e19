//! What stands in a node, in text order.

ghost use Rattle.lk_ast.specs.Children.{exprs_of};
ghost use Rattle.lk_ast.specs.declared.expression.Node.{out-Node};
ghost use Rattle.lk_evaluation.specs.Syntax.{parts_of};
ghost use Rattle.lk_lower.specs.Children.{inside};
ghost use Rattle.lk_lower.specs.Lowering.{case_bodies, change_exprs, last_bodies, tails_of};
ghost use Rattle.lk_lower.specs.Walked.{shown};
ghost use Rattle.std.specs.Prelude.{◌≡◌, ◌++◌, ◌∷◌, [], OnOk};

use lk_ast::{Case, ChangeExpr, Expr, LastCase, List, NoMemory, Node, PartExpr};

/// One more expression.
fn one<'p>(e: &'p Expr, found: &mut List<&'p Expr>) -> Result<(), NoMemory>
    ensures { OnOk result (shown found.new ≡ shown found.old ++ e.now ∷ []) }
{
    found.push(e)
}

/// Two more expressions.
fn two<'p>(a: &'p Expr, b: &'p Expr, found: &mut List<&'p Expr>) -> Result<(), NoMemory>
    ensures { OnOk result (shown found.new ≡ shown found.old ++ a.now ∷ b.now ∷ []) }
{
    one(a, found)?;
    one(b, found)
}

/// These expressions.
fn exprs<'p>(list: &'p [Expr], found: &mut List<&'p Expr>) -> Result<(), NoMemory>
    ensures { OnOk result (shown found.new ≡ shown found.old ++ list.now) }
{
    for e in list {
        one(e, found)?;
    }
    Ok(())
}

/// An expression before these.
fn first_and<'p>(e: &'p Expr, list: &'p [Expr], found: &mut List<&'p Expr>) -> Result<(), NoMemory>
    ensures { OnOk result (shown found.new ≡ shown found.old ++ e.now ∷ list.now) }
{
    one(e, found)?;
    exprs(list, found)
}

/// Those of `l = e, m = d`.
fn fields<'p>(list: &'p [PartExpr], found: &mut List<&'p Expr>) -> Result<(), NoMemory>
    ensures { OnOk result (shown found.new ≡ shown found.old ++ exprs_of list.now) }
{
    for part in list {
        one(&part.expr, found)?;
    }
    Ok(())
}

/// Those of `(l = e | r)`.
fn extension<'p>(
    list: &'p [PartExpr],
    e: &'p Expr,
    found: &mut List<&'p Expr>,
) -> Result<(), NoMemory>
    ensures { OnOk result (shown found.new ≡ shown found.old ++ (exprs_of list.now ++ e.now ∷ [])) }
{
    fields(list, found)?;
    one(e, found)
}

/// The bodies of the cases of a switch but for the last one.
fn cases<'p>(list: &'p [Case], found: &mut List<&'p Expr>) -> Result<(), NoMemory>
    ensures { OnOk result (shown found.new ≡ shown found.old ++ case_bodies list.now) }
{
    for case in list {
        one(&case.body, found)?;
    }
    Ok(())
}

/// The body of `case x -> e`.
fn last_case<'p>(last: &'p Option<LastCase>, found: &mut List<&'p Expr>) -> Result<(), NoMemory>
    ensures { OnOk result (shown found.new ≡ shown found.old ++ last_bodies last.now) }
{
    match last {
        None => Ok(()),
        Some(last) => one(&last.body, found),
    }
}

/// The bodies of a switch.
fn bodies<'p>(
    list: &'p [Case],
    last: &'p Option<LastCase>,
    found: &mut List<&'p Expr>,
) -> Result<(), NoMemory>
    ensures { OnOk result (shown found.new ≡ shown found.old ++ (case_bodies list.now ++ last_bodies last.now)) }
{
    cases(list, found)?;
    last_case(last, found)
}

/// The condition and what is set.
pub fn change<'p>(rows: &'p ChangeExpr, found: &mut List<&'p Expr>) -> Result<(), NoMemory>
    ensures { OnOk result (shown found.new ≡ shown found.old ++ change_exprs rows.now) }
{
    one(&rows.cond, found)?;
    fields(rows.sets.as_slice(), found)
}

/// The positions of a node, which are evaluated first.
pub fn gather_parts<'p>(node: &'p Node, found: &mut List<&'p Expr>) -> Result<(), NoMemory>
    ensures { OnOk result (shown found.new ≡ shown found.old ++ parts_of (out-Node node.now)) }
{
    match node {
        Node::Int(_)
        | Node::Text(_)
        | Node::Bool(_)
        | Node::Name(_)
        | Node::Function(_)
        | Node::Lambda(_)
        | Node::Table(_)
        | Node::Query(_, _)
        | Node::Update(_)
        | Node::Delete(_) => Ok(()),
        Node::Call(_, list) | Node::List(list) => exprs(list.as_slice(), found),
        Node::Apply(f, args) => first_and(f, args.as_slice(), found),
        Node::Var(_, e, _)
        | Node::Seq(e, _)
        | Node::If(e, _, _)
        | Node::And(e, _)
        | Node::Or(e, _)
        | Node::Where(e, _)
        | Node::Switch(e, _, _)
        | Node::ForList(_, e, _)
        | Node::ForTable(_, e, _) => Ok(one(e, found)?),
        Node::Neg(e)
        | Node::Not(e)
        | Node::Hd(e)
        | Node::Tl(e)
        | Node::Empty(e)
        | Node::IntToString(e)
        | Node::Print(e)
        | Node::Project(e, _)
        | Node::Tag(_, e)
        | Node::Insert(_, e) => Ok(one(e, found)?),
        Node::Concat(a, b)
        | Node::Append(a, b)
        | Node::Cons(a, b)
        | Node::Add(a, b)
        | Node::Sub(a, b)
        | Node::Mul(a, b)
        | Node::Div(a, b)
        | Node::Mod(a, b) => Ok(two(a, b, found)?),
        Node::Eq(a, b)
        | Node::Ne(a, b)
        | Node::Lt(a, b)
        | Node::Le(a, b)
        | Node::Gt(a, b)
        | Node::Ge(a, b) => Ok(two(a, b, found)?),
        Node::Record(list) => fields(list.as_slice(), found),
        Node::Extend(list, e) => extension(list.as_slice(), e, found),
    }
}

/// The tails of a node, which come in its stead, or once for each element, or not at all.
pub fn gather_tails<'p>(node: &'p Node, found: &mut List<&'p Expr>) -> Result<(), NoMemory>
    ensures { OnOk result (shown found.new ≡ shown found.old ++ tails_of (out-Node node.now)) }
{
    match node {
        Node::Var(_, _, rest)
        | Node::Seq(_, rest)
        | Node::And(_, rest)
        | Node::Or(_, rest)
        | Node::Where(_, rest)
        | Node::ForList(_, _, rest)
        | Node::ForTable(_, _, rest) => Ok(one(rest, found)?),
        Node::If(_, d, e) => two(d, e, found),
        Node::Switch(_, list, last) => bodies(list.as_slice(), last, found),
        _ => Ok(()),
    }
}

/// All that stands in a node, also in a query, an update or a deletion.
pub fn gather_inside<'p>(node: &'p Node, found: &mut List<&'p Expr>) -> Result<(), NoMemory>
    ensures { OnOk result (shown found.new ≡ shown found.old ++ inside (out-Node node.now)) }
{
    match node {
        Node::Lambda(lambda) => one(&lambda.body, found),
        Node::Query(_, e) => one(e, found),
        Node::Update(rows) | Node::Delete(rows) => change(rows, found),
        _ => {
            gather_parts(node, found)?;
            gather_tails(node, found)
        }
    }
}
