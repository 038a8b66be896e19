//! Names in scope, and nodes that are noted.

ghost use Rattle.lk_outline.specs.Outline.{with_names, with_some, binder_of};
ghost use Rattle.lk_outline.specs.Shown.{shown, shown_kind, shown_site};
ghost use Rattle.lk_outline.specs.Walked.{noted, noted_site};
ghost use Rattle.lk_typing.specs.Names.{named};
ghost use Rattle.std.specs.Option.{option_copied};
ghost use Rattle.std.specs.Prelude.{◌≡◌, ◌+◌, drop, length, set, IfOk, OnOk};

use crate::site::{Kind, Site};
use crate::walk::Round;
use lk_ast::{List, NoMemory, Span, Text, Word};
use lk_equations::Scope;
use std::alloc::Global;
use std::mem;

/// Names that the node before that number binds, the first one last: of two equal ones the first counts.
pub fn push_names<'p>(
    scope: &mut Scope<'p, usize>,
    names: &'p [Word],
    binder: usize,
) -> Result<(), NoMemory>
    ensures { OnOk result (scope.new ≡ with_names names.now binder scope.old) }
{
    let mut rest = names;
    while let Some((name, front)) = rest.split_last() {
        scope.push(name.text.as_str(), binder)?;
        rest = front;
    }
    Ok(())
}

/// One more name that the node before that number binds, or none. The answer is how many names have to be taken away,
/// where before it was `count`.
pub fn push_some<'p>(
    scope: &mut Scope<'p, usize>,
    name: Option<&'p Word>,
    binder: usize,
    count: usize,
) -> Result<usize, NoMemory>
    ensures scope { OnOk result (scope.new ≡ with_some (option_copied name.entry) binder scope.old) }
    ensures count { IfOk result (λ more. drop more scope.new ≡ drop count scope.old) }
{
    match name {
        None => Ok(count),
        Some(name) => {
            let more = count.checked_add(1).ok_or(NoMemory)?;
            scope.push(name.text.as_str(), binder)?;
            Ok(more)
        }
    }
}

/// Takes names away, those that came last.
pub fn drop_names(scope: &mut Scope<usize>, count: usize)
    ensures { scope.new ≡ drop count scope.old }
{
    for _i in 0..count {
        scope.pop();
    }
}

/// The number before which the node stands that binds a name, and 0 for a name that no node binds.
pub fn binder_of(scope: &Scope<usize>, name: &Text) -> usize
    ensures { result ≡ binder_of (named name.now scope.now) }
{
    match scope.get(name.as_str()) {
        Some(binder) => *binder,
        None => 0,
    }
}

/// The number of the node behind the next one. `NoMemory` where there is none.
pub fn behind_next(sites: &List<Site>) -> Result<usize, NoMemory>
    ensures { IfOk result (λ number. number ≡ 1 + length (shown sites.now)) }
{
    Ok(sites.len().checked_add(1).ok_or(NoMemory)?)
}

/// A node with its number.
fn site<'p>(round: Round, number: usize, span: Span, kind: Kind<'p>) -> Site<'p>
    ensures { shown_site result ≡ noted_site span (shown_kind kind.entry) round number }
{
    let around = round.around;
    let inside = round.inside;
    Site {
        number,
        span,
        kind,
        around,
        inside,
    }
}

/// Notes a node.
pub fn note<'p>(
    round: Round,
    sites: &mut List<Site<'p>>,
    span: Span,
    kind: Kind<'p>,
) -> Result<(), NoMemory>
    ensures { OnOk result (shown sites.new ≡ noted span (shown_kind kind.entry) round (shown sites.old)) }
{
    let number = sites.len();
    sites.push(site(round, number, span, kind))
}

/// Puts a node at this number, if there is one.
#[tactic(auto, using(crate::proofs::Put::set_shown, crate::proofs::Put::set_beyond))]
fn write<'p>(sites: &mut Vec<Site<'p>>, number: usize, site: Site<'p>)
    ensures { shown sites.new.items ≡ set (shown sites.old.items) number (shown_site site.entry) }
{
    if number < sites.len() {
        sites[number] = site;
    }
}

/// Notes again what the node of that number is.
pub fn renote<'p>(
    alloc: Global,
    round: Round,
    sites: &mut List<Site<'p>>,
    number: usize,
    span: Span,
    kind: Kind<'p>,
)
    ensures { shown sites.new ≡ set (shown sites.old) number (noted_site span (shown_kind kind.entry) round number) }
{
    let mut all = mem::replace(sites, List::new(alloc)).into_vec();
    write(&mut all, number, site(round, number, span, kind));
    *sites = List::from_vec(all);
}
