//! The walk that makes an outline.

ghost use Rattle.lk_outline.specs.Outline.{all, before, binding, body_outline, numbered, outline, outline_node, outline_part, plain};
ghost use Rattle.lk_outline.specs.Shown.{shown};
ghost use Rattle.lk_outline.specs.Walked.{equating, ordering, put, put_all, seen, unsaid};
ghost use Rattle.std.specs.Prelude.{◌≡◌, ◌∷◌, map, IfOk, OnOk};

use crate::form::{call, change, lambda, query, switch};
use crate::noting::{behind_next, binder_of, drop_names, note, push_names, push_some};
use crate::site::{Around, Kind, Site};
use lk_ast::{Expr, FunDef, List, NoMemory, Node, PartExpr, Span, Word, first_statement};
use lk_equations::Scope;
use std::alloc::Global;

/// What stands round an expression.
#[derive(Clone, Copy)]
pub struct Round {
    pub around: Around,
    pub inside: bool,
}

/// The outline of a function's body. `NoMemory` where memory runs out.
pub fn outline<'p>(alloc: Global, function: &'p FunDef) -> Result<List<Site<'p>>, NoMemory>
    ensures { IfOk result (λ sites. shown sites ≡ body_outline function.now.params function.now.body) }
{
    let round = Round {
        around: Around::Function,
        inside: false,
    };
    let mut scope = Scope::new(alloc);
    let mut sites = List::new(alloc);
    push_names(&mut scope, function.params.as_slice(), 0)?;
    expr(alloc, round, &mut scope, &mut sites, &function.body)?;
    Ok(sites)
}

/// An expression. The loop goes down the rests of a block, of which there may be more than the stack has room for.
#[cycle(outlines)]
pub fn expr<'p>(
    alloc: Global,
    round: Round,
    scope: &mut Scope<'p, usize>,
    sites: &mut List<Site<'p>>,
    e: &'p Expr,
) -> Result<(), NoMemory>
    ensures sites { OnOk result (shown sites.new ≡ put (outline e.now) (seen round scope.old) (shown sites.old)) }
    ensures left { OnOk result (scope.new ≡ scope.old) }
{
    let mut names = 0;
    let mut rest = e;
    while let Some((name, statement, next)) = first_statement(rest) {
        note(round, sites, rest.span, Kind::Other)?;
        let binder = sites.len();
        expr(alloc, round, scope, sites, statement)?;
        names = push_some(scope, name, binder, names)?;
        rest = next;
    }
    node(alloc, round, scope, sites, rest.span, rest.node.get())?;
    drop_names(scope, names);
    Ok(())
}

/// What an expression is.
#[cycle(outlines)]
#[tactic(auto, unfolding(crate::specs::Outline::outline, crate::specs::Outline::outline_node, crate::specs::Outline::outline_part, crate::specs::Outline::outline_lambda, crate::specs::Outline::outline_case, crate::specs::Outline::outline_change, crate::specs::Outline::outline_last))]
fn node<'p>(
    alloc: Global,
    round: Round,
    scope: &mut Scope<'p, usize>,
    sites: &mut List<Site<'p>>,
    span: Span,
    node: &'p Node,
) -> Result<(), NoMemory>
    ensures sites { OnOk result (shown sites.new ≡ put (outline_node node.now span) (seen round scope.old) (shown sites.old)) }
    ensures left { OnOk result (scope.new ≡ scope.old) }
{
    match node {
        Node::Int(_) | Node::Text(_) | Node::Bool(_) | Node::Table(_) => {
            note(round, sites, span, Kind::Other)
        }
        Node::Name(name) => {
            let kind = Kind::Name(binder_of(scope, name));
            note(round, sites, span, kind)
        }
        Node::Function(name) => {
            let kind = Kind::Function(name);
            note(round, sites, span, kind)
        }
        Node::Lambda(e) => lambda(alloc, round, scope, sites, span, e),
        Node::Call(name, args) => {
            let args = args.as_slice();
            call(alloc, round, scope, sites, span, &name.text, args)
        }
        Node::Apply(f, args) => apply(alloc, round, scope, sites, span, f, args.as_slice()),
        Node::Seq(a, b)
        | Node::And(a, b)
        | Node::Or(a, b)
        | Node::Concat(a, b)
        | Node::Append(a, b)
        | Node::Cons(a, b)
        | Node::Add(a, b)
        | Node::Sub(a, b)
        | Node::Mul(a, b)
        | Node::Div(a, b)
        | Node::Mod(a, b)
        | Node::Where(a, b) => two(alloc, round, scope, sites, span, a, b),
        Node::Eq(a, b) | Node::Ne(a, b) => equal(alloc, round, scope, sites, span, a, b),
        Node::Lt(a, b) | Node::Le(a, b) | Node::Gt(a, b) | Node::Ge(a, b) => {
            ordered(alloc, round, scope, sites, span, a, b)
        }
        Node::Neg(e)
        | Node::Not(e)
        | Node::Hd(e)
        | Node::Tl(e)
        | Node::Empty(e)
        | Node::IntToString(e)
        | Node::Print(e)
        | Node::Project(e, _)
        | Node::Tag(_, e)
        | Node::Insert(_, e) => one(alloc, round, scope, sites, span, e),
        Node::If(c, d, e) => three(alloc, round, scope, sites, span, c, d, e),
        Node::Record(fields) => {
            let fields = fields.as_slice();
            record_of(alloc, round, scope, sites, span, fields)
        }
        Node::Extend(fields, e) => {
            let fields = fields.as_slice();
            extend(alloc, round, scope, sites, span, fields, e)
        }
        Node::List(items) => {
            let items = items.as_slice();
            list_of(alloc, round, scope, sites, span, items)
        }
        Node::Switch(e, list, last) => {
            let list = list.as_slice();
            switch(alloc, round, scope, sites, span, last, e, list)
        }
        Node::Var(x, e, body) | Node::ForList(x, e, body) | Node::ForTable(x, e, body) => {
            variable(alloc, round, scope, sites, span, x, e, body)
        }
        Node::Query(_, e) => query(alloc, round, scope, sites, span, e),
        Node::Update(rows) | Node::Delete(rows) => {
            change(alloc, round, scope, sites, span, rows)
        }
    }
}

/// A node with one part.
#[cycle(outlines)]
#[tactic(auto, using(crate::proofs::Put::noted_part))]
fn one<'p>(
    alloc: Global,
    round: Round,
    scope: &mut Scope<'p, usize>,
    sites: &mut List<Site<'p>>,
    span: Span,
    e: &'p Expr,
) -> Result<(), NoMemory>
    ensures sites { OnOk result (shown sites.new ≡ put (plain span unsaid (outline e.now)) (seen round scope.old) (shown sites.old)) }
    ensures left { OnOk result (scope.new ≡ scope.old) }
{
    note(round, sites, span, Kind::Other)?;
    expr(alloc, round, scope, sites, e)
}

/// A node with two parts.
#[cycle(outlines)]
fn two<'p>(
    alloc: Global,
    round: Round,
    scope: &mut Scope<'p, usize>,
    sites: &mut List<Site<'p>>,
    span: Span,
    a: &'p Expr,
    b: &'p Expr,
) -> Result<(), NoMemory>
    ensures sites { OnOk result (shown sites.new ≡ put (plain span unsaid (before (outline a.now) (outline b.now))) (seen round scope.old) (shown sites.old)) }
    ensures left { OnOk result (scope.new ≡ scope.old) }
{
    note(round, sites, span, Kind::Other)?;
    expr(alloc, round, scope, sites, a)?;
    expr(alloc, round, scope, sites, b)
}

/// A comparison by `==` or `<>`.
#[cycle(outlines)]
fn equal<'p>(
    alloc: Global,
    round: Round,
    scope: &mut Scope<'p, usize>,
    sites: &mut List<Site<'p>>,
    span: Span,
    a: &'p Expr,
    b: &'p Expr,
) -> Result<(), NoMemory>
    ensures sites { OnOk result (shown sites.new ≡ put (equating span (outline a.now) (outline b.now)) (seen round scope.old) (shown sites.old)) }
    ensures left { OnOk result (scope.new ≡ scope.old) }
{
    let operand = behind_next(sites)?;
    note(round, sites, span, Kind::Equality(operand))?;
    expr(alloc, round, scope, sites, a)?;
    expr(alloc, round, scope, sites, b)
}

/// A comparison by an order.
#[cycle(outlines)]
fn ordered<'p>(
    alloc: Global,
    round: Round,
    scope: &mut Scope<'p, usize>,
    sites: &mut List<Site<'p>>,
    span: Span,
    a: &'p Expr,
    b: &'p Expr,
) -> Result<(), NoMemory>
    ensures sites { OnOk result (shown sites.new ≡ put (ordering span (outline a.now) (outline b.now)) (seen round scope.old) (shown sites.old)) }
    ensures left { OnOk result (scope.new ≡ scope.old) }
{
    let operand = behind_next(sites)?;
    note(round, sites, span, Kind::Order(operand))?;
    expr(alloc, round, scope, sites, a)?;
    expr(alloc, round, scope, sites, b)
}

/// A node with three parts.
#[cycle(outlines)]
fn three<'p>(
    alloc: Global,
    round: Round,
    scope: &mut Scope<'p, usize>,
    sites: &mut List<Site<'p>>,
    span: Span,
    c: &'p Expr,
    d: &'p Expr,
    e: &'p Expr,
) -> Result<(), NoMemory>
    ensures sites { OnOk result (shown sites.new ≡ put (plain span unsaid (before (outline c.now) (before (outline d.now) (outline e.now)))) (seen round scope.old) (shown sites.old)) }
    ensures left { OnOk result (scope.new ≡ scope.old) }
{
    note(round, sites, span, Kind::Other)?;
    expr(alloc, round, scope, sites, c)?;
    expr(alloc, round, scope, sites, d)?;
    expr(alloc, round, scope, sites, e)
}

/// Expressions.
#[cycle(outlines)]
fn exprs<'p>(
    alloc: Global,
    round: Round,
    scope: &mut Scope<'p, usize>,
    sites: &mut List<Site<'p>>,
    list: &'p [Expr],
) -> Result<(), NoMemory>
    ensures sites { OnOk result (shown sites.new ≡ put_all (map outline list.now) (seen round scope.old) (shown sites.old)) }
    ensures left { OnOk result (scope.new ≡ scope.old) }
{
    for e in list {
        expr(alloc, round, scope, sites, e)?;
    }
    Ok(())
}

/// A list.
#[cycle(outlines)]
#[tactic(auto, using(crate::proofs::Put::noted_part, crate::proofs::Put::put_all_is))]
fn list_of<'p>(
    alloc: Global,
    round: Round,
    scope: &mut Scope<'p, usize>,
    sites: &mut List<Site<'p>>,
    span: Span,
    items: &'p [Expr],
) -> Result<(), NoMemory>
    ensures sites { OnOk result (shown sites.new ≡ put (plain span unsaid (all (map outline items.now))) (seen round scope.old) (shown sites.old)) }
    ensures left { OnOk result (scope.new ≡ scope.old) }
{
    note(round, sites, span, Kind::Other)?;
    exprs(alloc, round, scope, sites, items)
}

/// A call of a value.
#[cycle(outlines)]
fn apply<'p>(
    alloc: Global,
    round: Round,
    scope: &mut Scope<'p, usize>,
    sites: &mut List<Site<'p>>,
    span: Span,
    f: &'p Expr,
    args: &'p [Expr],
) -> Result<(), NoMemory>
    ensures sites { OnOk result (shown sites.new ≡ put (plain span unsaid (before (outline f.now) (all (map outline args.now)))) (seen round scope.old) (shown sites.old)) }
    ensures left { OnOk result (scope.new ≡ scope.old) }
{
    note(round, sites, span, Kind::Other)?;
    expr(alloc, round, scope, sites, f)?;
    exprs(alloc, round, scope, sites, args)
}

/// `l = e` in a record.
#[cycle(outlines)]
#[tactic(auto, using(crate::proofs::Levels::part_level))]
fn part<'p>(
    alloc: Global,
    round: Round,
    scope: &mut Scope<'p, usize>,
    sites: &mut List<Site<'p>>,
    part: &'p PartExpr,
) -> Result<(), NoMemory>
    ensures sites { OnOk result (shown sites.new ≡ put (outline_part part.now) (seen round scope.old) (shown sites.old)) }
    ensures left { OnOk result (scope.new ≡ scope.old) }
{
    expr(alloc, round, scope, sites, &part.expr)
}

/// `l = e, m = d`.
#[cycle(outlines)]
pub fn parts<'p>(
    alloc: Global,
    round: Round,
    scope: &mut Scope<'p, usize>,
    sites: &mut List<Site<'p>>,
    list: &'p [PartExpr],
) -> Result<(), NoMemory>
    ensures sites { OnOk result (shown sites.new ≡ put_all (map outline_part list.now) (seen round scope.old) (shown sites.old)) }
    ensures left { OnOk result (scope.new ≡ scope.old) }
{
    for one in list {
        part(alloc, round, scope, sites, one)?;
    }
    Ok(())
}

/// A record.
#[cycle(outlines)]
#[tactic(auto, using(crate::proofs::Put::noted_part, crate::proofs::Put::put_all_is))]
fn record_of<'p>(
    alloc: Global,
    round: Round,
    scope: &mut Scope<'p, usize>,
    sites: &mut List<Site<'p>>,
    span: Span,
    fields: &'p [PartExpr],
) -> Result<(), NoMemory>
    ensures sites { OnOk result (shown sites.new ≡ put (plain span unsaid (all (map outline_part fields.now))) (seen round scope.old) (shown sites.old)) }
    ensures left { OnOk result (scope.new ≡ scope.old) }
{
    note(round, sites, span, Kind::Other)?;
    parts(alloc, round, scope, sites, fields)
}

/// A record with more fields than another one.
#[cycle(outlines)]
fn extend<'p>(
    alloc: Global,
    round: Round,
    scope: &mut Scope<'p, usize>,
    sites: &mut List<Site<'p>>,
    span: Span,
    fields: &'p [PartExpr],
    e: &'p Expr,
) -> Result<(), NoMemory>
    ensures sites { OnOk result (shown sites.new ≡ put (plain span unsaid (before (all (map outline_part fields.now)) (outline e.now))) (seen round scope.old) (shown sites.old)) }
    ensures left { OnOk result (scope.new ≡ scope.old) }
{
    note(round, sites, span, Kind::Other)?;
    parts(alloc, round, scope, sites, fields)?;
    expr(alloc, round, scope, sites, e)
}

/// An expression under one more name.
#[cycle(outlines)]
pub fn under<'p>(
    alloc: Global,
    round: Round,
    scope: &mut Scope<'p, usize>,
    sites: &mut List<Site<'p>>,
    binder: usize,
    name: &'p Word,
    e: &'p Expr,
) -> Result<(), NoMemory>
    ensures sites { OnOk result (shown sites.new ≡ put (outline e.now) (seen round ((name.now.text, binder) ∷ scope.old)) (shown sites.old)) }
    ensures left { OnOk result (scope.new ≡ scope.old) }
{
    scope.push(name.text.as_str(), binder)?;
    expr(alloc, round, scope, sites, e)?;
    scope.pop();
    Ok(())
}

/// An expression, and another one in which the node binds a name.
#[cycle(outlines)]
fn variable<'p>(
    alloc: Global,
    round: Round,
    scope: &mut Scope<'p, usize>,
    sites: &mut List<Site<'p>>,
    span: Span,
    x: &'p Word,
    e: &'p Expr,
    body: &'p Expr,
) -> Result<(), NoMemory>
    ensures sites { OnOk result (shown sites.new ≡ put (numbered span (binding x.now (outline e.now) (outline body.now))) (seen round scope.old) (shown sites.old)) }
    ensures left { OnOk result (scope.new ≡ scope.old) }
{
    note(round, sites, span, Kind::Other)?;
    let binder = sites.len();
    expr(alloc, round, scope, sites, e)?;
    under(alloc, round, scope, sites, binder, x, body)
}
