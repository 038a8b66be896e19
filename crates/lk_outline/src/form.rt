//! The nodes of an outline of which more is said: calls, and what binds names or has effects of its own.

ghost use Rattle.lk_outline.specs.Outline.{call, numbered, outline, outline_case, outline_change, outline_lambda, outline_last, some_bound};
ghost use Rattle.lk_outline.specs.Shown.{shown};
ghost use Rattle.lk_outline.specs.Walked.{begin_at, changing, put, put_all, put_bound, querying, seen, switching};
ghost use Rattle.std.specs.Option.{option_map};
ghost use Rattle.std.specs.Prelude.{◌≡◌, ◌++◌, map, OnOk};

use crate::noting::{drop_names, note, push_names, push_some, renote};
use crate::site::{Around, Kind, Site};
use crate::walk::{Round, expr, parts, under};
use lk_ast::{Case, ChangeExpr, Expr, LambdaExpr, LastCase, List, NoMemory, Span, Text};
use lk_equations::Scope;
use std::alloc::Global;

/// The arguments of a call, of which the numbers are noted too.
#[cycle(outlines)]
fn arguments<'p>(
    alloc: Global,
    round: Round,
    scope: &mut Scope<'p, usize>,
    sites: &mut List<Site<'p>>,
    numbers: &mut List<usize>,
    list: &'p [Expr],
) -> Result<(), NoMemory>
    ensures sites { OnOk result (shown sites.new ≡ put_all (map outline list.now) (seen round scope.old) (shown sites.old)) }
    ensures numbers { OnOk result (numbers.new ≡ numbers.old ++ begin_at (map outline list.now) (seen round scope.old) (shown sites.old)) }
    ensures left { OnOk result (scope.new ≡ scope.old) }
{
    for e in list {
        numbers.push(sites.len())?;
        expr(alloc, round, scope, sites, e)?;
    }
    Ok(())
}

/// A call of a function.
#[cycle(outlines)]
pub fn call<'p>(
    alloc: Global,
    round: Round,
    scope: &mut Scope<'p, usize>,
    sites: &mut List<Site<'p>>,
    span: Span,
    name: &'p Text,
    args: &'p [Expr],
) -> Result<(), NoMemory>
    ensures sites { OnOk result (shown sites.new ≡ put (call span name.now (map outline args.now)) (seen round scope.old) (shown sites.old)) }
    ensures left { OnOk result (scope.new ≡ scope.old) }
{
    let number = sites.len();
    note(round, sites, span, Kind::Other)?;
    let mut numbers = List::new(alloc);
    arguments(alloc, round, scope, sites, &mut numbers, args)?;
    let kind = Kind::Call(name, numbers);
    Ok(renote(alloc, round, sites, number, span, kind))
}

/// `fun (x, y) { e }`.
#[cycle(outlines)]
pub fn lambda<'p>(
    alloc: Global,
    round: Round,
    scope: &mut Scope<'p, usize>,
    sites: &mut List<Site<'p>>,
    span: Span,
    e: &'p LambdaExpr,
) -> Result<(), NoMemory>
    ensures sites { OnOk result (shown sites.new ≡ put (numbered span (outline_lambda e.now)) (seen round scope.old) (shown sites.old)) }
    ensures left { OnOk result (scope.new ≡ scope.old) }
{
    let number = sites.len();
    note(round, sites, span, Kind::Other)?;
    let binder = sites.len();
    let around = Around::Lambda(number);
    let inside = round.inside;
    let inner = Round { around, inside };
    push_names(scope, e.params.as_slice(), binder)?;
    expr(alloc, inner, scope, sites, &e.body)?;
    drop_names(scope, e.params.len());
    Ok(())
}

/// `case T(x) -> e`, `case T -> e`.
#[cycle(outlines)]
#[tactic(auto, using(crate::proofs::Levels::case_put))]
fn case<'p>(
    alloc: Global,
    round: Round,
    scope: &mut Scope<'p, usize>,
    sites: &mut List<Site<'p>>,
    binder: usize,
    case: &'p Case,
) -> Result<(), NoMemory>
    ensures sites { OnOk result (shown sites.new ≡ put (outline_case case.now binder) (seen round scope.old) (shown sites.old)) }
    ensures left { OnOk result (scope.new ≡ scope.old) }
{
    let names = push_some(scope, case.name.as_ref(), binder, 0)?;
    expr(alloc, round, scope, sites, &case.body)?;
    drop_names(scope, names);
    Ok(())
}

/// The cases of a switch but for the last one.
#[cycle(outlines)]
fn cases<'p>(
    alloc: Global,
    round: Round,
    scope: &mut Scope<'p, usize>,
    sites: &mut List<Site<'p>>,
    binder: usize,
    list: &'p [Case],
) -> Result<(), NoMemory>
    ensures sites { OnOk result (shown sites.new ≡ put_bound (map outline_case list.now) binder (seen round scope.old) (shown sites.old)) }
    ensures left { OnOk result (scope.new ≡ scope.old) }
{
    for one in list {
        case(alloc, round, scope, sites, binder, one)?;
    }
    Ok(())
}

/// The last case of a switch that has one.
#[cycle(outlines)]
fn some_case<'p>(
    alloc: Global,
    round: Round,
    scope: &mut Scope<'p, usize>,
    sites: &mut List<Site<'p>>,
    binder: usize,
    last: &'p Option<LastCase>,
) -> Result<(), NoMemory>
    ensures sites { OnOk result (shown sites.new ≡ put (some_bound (option_map outline_last last.now) binder) (seen round scope.old) (shown sites.old)) }
    ensures left { OnOk result (scope.new ≡ scope.old) }
{
    match last {
        None => Ok(()),
        Some(last) => under(alloc, round, scope, sites, binder, &last.name, &last.body),
    }
}

/// A switch with this last case, if there is one.
#[cycle(outlines)]
pub fn switch<'p>(
    alloc: Global,
    round: Round,
    scope: &mut Scope<'p, usize>,
    sites: &mut List<Site<'p>>,
    span: Span,
    last: &'p Option<LastCase>,
    e: &'p Expr,
    list: &'p [Case],
) -> Result<(), NoMemory>
    ensures sites { OnOk result (shown sites.new ≡ put (switching span (outline e.now) (map outline_case list.now) (option_map outline_last last.now)) (seen round scope.old) (shown sites.old)) }
    ensures left { OnOk result (scope.new ≡ scope.old) }
{
    note(round, sites, span, Kind::Other)?;
    let binder = sites.len();
    expr(alloc, round, scope, sites, e)?;
    cases(alloc, round, scope, sites, binder, list)?;
    some_case(alloc, round, scope, sites, binder, last)
}

/// A query.
#[cycle(outlines)]
pub fn query<'p>(
    alloc: Global,
    round: Round,
    scope: &mut Scope<'p, usize>,
    sites: &mut List<Site<'p>>,
    span: Span,
    e: &'p Expr,
) -> Result<(), NoMemory>
    ensures sites { OnOk result (shown sites.new ≡ put (querying span (outline e.now)) (seen round scope.old) (shown sites.old)) }
    ensures left { OnOk result (scope.new ≡ scope.old) }
{
    let number = sites.len();
    note(round, sites, span, Kind::Other)?;
    let first = sites.len();
    let around = Around::Query;
    let inside = true;
    expr(alloc, Round { around, inside }, scope, sites, e)?;
    let kind = Kind::Query(sites.len().saturating_sub(first));
    Ok(renote(alloc, round, sites, number, span, kind))
}

/// An update or a deletion.
#[cycle(outlines)]
pub fn change<'p>(
    alloc: Global,
    round: Round,
    scope: &mut Scope<'p, usize>,
    sites: &mut List<Site<'p>>,
    span: Span,
    rows: &'p ChangeExpr,
) -> Result<(), NoMemory>
    ensures sites { OnOk result (shown sites.new ≡ put (changing span (outline_change rows.now)) (seen round scope.old) (shown sites.old)) }
    ensures left { OnOk result (scope.new ≡ scope.old) }
{
    let number = sites.len();
    note(round, sites, span, Kind::Other)?;
    let first = sites.len();
    let around = Around::Change;
    let inside = true;
    change_of(alloc, Round { around, inside }, scope, sites, first, rows)?;
    let kind = Kind::Change(sites.len().saturating_sub(first));
    Ok(renote(alloc, round, sites, number, span, kind))
}

/// `(x <-- t) where (c) set (l = e)`.
#[cycle(outlines)]
#[tactic(auto, using(crate::proofs::Levels::change_put))]
fn change_of<'p>(
    alloc: Global,
    round: Round,
    scope: &mut Scope<'p, usize>,
    sites: &mut List<Site<'p>>,
    binder: usize,
    rows: &'p ChangeExpr,
) -> Result<(), NoMemory>
    ensures sites { OnOk result (shown sites.new ≡ put (outline_change rows.now binder) (seen round scope.old) (shown sites.old)) }
    ensures left { OnOk result (scope.new ≡ scope.old) }
{
    scope.push(rows.name.text.as_str(), binder)?;
    expr(alloc, round, scope, sites, &rows.cond)?;
    parts(alloc, round, scope, sites, rows.sets.as_slice())?;
    scope.pop();
    Ok(())
}
