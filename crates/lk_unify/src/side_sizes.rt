//! How large the types are that the sides of constraints become under a most general solution, as far as their sizes matter.

ghost use Rattle.std.specs.Prelude.{◌≡◌, ◌+◌, ◌-◌, ◌*◌, ◌<◌, ◌≤◌, List as TheList, false, true, length, map, take, IfNone, IfOk, IfSome, IsTrue};
ghost use Rattle.lk_classes.specs.Classes.{AreClasses};
ghost use Rattle.lk_types.specs.Each.{Each};
ghost use Rattle.lk_types.specs.Sizes.{most_nodes};
ghost use Rattle.lk_types.specs.Solutions.{HasSolution};
ghost use Rattle.lk_arena.specs.Counting.{count_at as the_count_at, end_at, AreEnds, IsPartsFirst};
ghost use Rattle.lk_unify.specs.Constraints.{matters, AllFine, IsFirstLarge};
ghost use Rattle.lk_unify.specs.Loading.{IsLoader};
ghost use Rattle.lk_unify.specs.Attempts.{AreOrdered};
ghost use Rattle.lk_unify.specs.SideSizes.{is_late, joined, last_by, AllMakeFew, AreAllWithin, CountFew, CountMany, IsFirstMany, IsOneBeyond};
ghost use Rattle.lk_unify.specs.Solving.{HasValues};

use crate::constraint::Sizing;
use crate::ordered::{Ordered, load_ordered};
use crate::solvable::{Loaded, load_next, load_solvable, order_of};
use lk_arena::{Count, count_at, counts, once_open};
use lk_ast::NoMemory;
use lk_classes::Classes;
use lk_types::{Equation, MOST_NODES};
use std::alloc::Global;

/// Whether the size of a late constraint matters where this sizing is the last.
fn is_late(sizing: Sizing) -> bool
    ensures { result ≡ is_late sizing }
{
    match sizing {
        Sizing::Always => false,
        Sizing::Late => true,
        Sizing::Never => false,
    }
}

/// Whether a size matters, where those of late constraints do or don't.
fn does_matter(sizing: Sizing, late: bool) -> bool
    ensures { result ≡ matters (last_by late) sizing }
{
    match sizing {
        Sizing::Always => true,
        Sizing::Late => late,
        Sizing::Never => false,
    }
}

/// Whether a size matters and is more than a type may have.
fn is_beyond(sizing: Sizing, late: bool, nodes: usize) -> bool
    ensures beyond { IsTrue result → (matters (last_by late) sizing ≡ true) × (most_nodes < nodes) }
    ensures within { (result ≡ false) → matters (last_by late) sizing ≡ true → nodes ≤ most_nodes }
{
    if does_matter(sizing, late) {
        return nodes > MOST_NODES;
    }
    false
}

/// The first side whose size matters and whose count is more than a type may have, if there is one.
fn first_over(
    classes: &Classes,
    sides: &[usize],
    sizings: &[Sizing],
    counts: &[Count],
    late: bool,
) -> Option<usize>
    requires sides { Each (λ n. n < length classes.now) sides.now }
    requires sizings { length sizings.now ≡ length sides.now }
    requires classes { AreClasses (length counts.now) classes.now }
    ensures within { IfNone result (AreAllWithin (last_by late) sizings.now (map (λ n. (the_count_at classes.now counts.now n).as_type) sides.now)) }
    ensures bound { IfSome result (λ i. i ≤ length sides.now) }
    ensures before { IfSome result (λ i. AreAllWithin (last_by late) (take i sizings.now) (map (λ n. (the_count_at classes.now counts.now n).as_type) sides.now)) }
    ensures beyond { IfSome result (λ i. IsOneBeyond (last_by late) sizings.now (map (λ n. (the_count_at classes.now counts.now n).as_type) sides.now)) }
{
    for i in 0..sides.len() {
        let count = count_at(sides[i], classes, counts);
        if is_beyond(sizings[i], late, count.as_type) {
            return Some(i);
        }
    }
    None
}

/// The first side whose size matters and that has more nodes than a type may have, if there is one, where the closed ends of rows
/// count what stands in `ends`.
fn first_side_over(
    alloc: Global,
    all: &Loaded,
    order: &[usize],
    sizings: &[Sizing],
    late: bool,
    ends: &[usize],
) -> Result<Option<usize>, NoMemory>
    requires ends { AreEnds all.now.loader.arena.shapes ends.now }
    requires whole { IsLoader all.now.loader }
    requires order { IsPartsFirst all.now.loader.arena.shapes all.now.loader.arena.classes order.now }
    requires sides { Each (λ n. n < length all.now.loader.arena.classes) all.now.sides }
    requires sizings { length sizings.now ≡ length all.now.sides }
    ensures within { IfOk result (λ found. IfNone found (CountFew (end_at ends.now) (last_by late) all.now sizings.now)) }
    ensures bound { IfOk result (λ found. IfSome found (λ i. i ≤ length all.now.sides)) }
    ensures before { IfOk result (λ found. IfSome found (λ i. CountFew (end_at ends.now) (last_by late) all.now (take i sizings.now))) }
    ensures beyond { IfOk result (λ found. IfSome found (λ i. CountMany (end_at ends.now) (last_by late) all.now sizings.now)) }
{
    let arena = &all.loader.arena;
    let shapes = arena.shapes.as_slice();
    let counts = counts(alloc, shapes, &arena.classes, order, ends)?;
    let found = first_over(
        &arena.classes,
        all.sides.as_slice(),
        sizings,
        counts.as_slice(),
        late,
    );
    Ok(found)
}

/// Whether no side whose size matters has more nodes than a type may have.
fn are_within(alloc: Global, all: &Loaded, sizings: &[Sizing], late: bool) -> Result<bool, NoMemory>
    requires whole { IsLoader all.now.loader }
    requires values { HasValues all.now.loader }
    requires sides { Each (λ n. n < length all.now.loader.arena.classes) all.now.sides }
    requires sizings { length sizings.now ≡ length all.now.sides }
    ensures within { IfOk result (λ within. IsTrue within → CountFew (λ p. 0) (last_by late) all.now sizings.now) }
    ensures beyond { IfOk result (λ within. (within ≡ false) → CountMany (λ p. 0) (last_by late) all.now sizings.now) }
{
    let order = order_of(alloc, &all.loader)?;
    let ends = vec![in alloc; 0; all.loader.arena.shapes.len()]?;
    match first_side_over(alloc, all, order.as_slice(), sizings, late, ends.as_slice())? {
        None => Ok(true),
        Some(_) => Ok(false),
    }
}

/// A number of constraints, whose equations have these nodes, of which in no first part a side whose size matters is too large, if
/// there is no such number for all: where the closed end of a row counts one if it was open once, and all late sizes matter, fewer
/// constraints have no larger sides.
fn first_unsure(
    alloc: Global,
    nodes: &Ordered,
    sizings: &[Sizing],
) -> Result<Option<usize>, NoMemory>
    requires nodes { (es : TheList Equation) × AreOrdered nodes.now es }
    requires sizings { length sizings.now ≡ length nodes.now.all.sides }
    ensures few { IfOk result (λ found. IfNone found ((es : TheList Equation) → AreOrdered nodes.now es → AllMakeFew (joined es sizings.now))) }
    ensures bound { IfOk result (λ found. IfSome found (λ i. i ≤ length nodes.now.all.sides)) }
    ensures before { IfOk result (λ found. IfSome found (λ i. (es : TheList Equation) → AreOrdered nodes.now es → AllMakeFew (take i (joined es sizings.now)))) }
{
    let arena = &nodes.all.loader.arena;
    let ends = once_open(alloc, arena.shapes.as_slice(), &arena.classes)?;
    let found = first_side_over(
        alloc,
        &nodes.all,
        nodes.order.as_slice(),
        sizings,
        true,
        ends.as_slice(),
    )?;
    Ok(found)
}

/// Whether none needs a test, of constraints whose equations have a solution.
fn are_surely_few(
    alloc: Global,
    equations: &[Equation],
    sizings: &[Sizing],
) -> Result<bool, NoMemory>
    requires solution { HasSolution equations.now }
    requires sizings { length sizings.now ≡ length equations.now }
    ensures { IfOk result (λ few. IsTrue few → AllMakeFew (joined equations.now sizings.now)) }
{
    let nodes = load_ordered(alloc, equations)?;
    let found = first_unsure(alloc, &nodes, sizings)?;
    Ok(found.is_none())
}

/// A number between two others, at most so many behind the lower one and no further than half the way.
fn between(low: usize, high: usize, step: usize) -> usize
    requires apart { low + 1 < high }
    requires step { 0 < step }
    ensures above { low < result }
    ensures below { 2 * (result - low) ≤ high - low }
{
    let half = (high - low) / 2;
    if step < half {
        return low + step;
    }
    low + half
}

/// A number of constraints of which no first part needs a test by itself, from a number of such on. It is searched for by steps
/// that grow, and by halves.
fn surely_few(
    alloc: Global,
    equations: &[Equation],
    sizings: &[Sizing],
    from: usize,
) -> Result<usize, NoMemory>
    requires solution { HasSolution equations.now }
    requires sizings { length sizings.now ≡ length equations.now }
    requires bound { from ≤ length equations.now }
    requires few { AllMakeFew (take from (joined equations.now sizings.now)) }
    ensures bound { IfOk result (λ n. n ≤ length equations.now) }
    ensures few { IfOk result (λ n. AllMakeFew (take n (joined equations.now sizings.now))) }
{
    let mut low = from;
    let mut high = equations.len();
    let mut step = 1;
    'halving: while high - low > 1 {
        let middle = between(low, high, step);
        if are_surely_few(alloc, &equations[..middle], &sizings[..middle])? {
            step = 2 * (middle - low);
            low = middle;
        } else {
            high = middle;
        }
    }
    Ok(low)
}

/// The first constraint with which the nodes of those up to it make a side too large whose size matters then, if there is one. From
/// those that need no test on, one after another is added to the nodes of the ones before.
fn search_beyond(
    alloc: Global,
    equations: &[Equation],
    sizings: &[Sizing],
    from: usize,
) -> Result<Option<usize>, NoMemory>
    requires solution { HasSolution equations.now }
    requires sizings { length sizings.now ≡ length equations.now }
    requires bound { from ≤ length equations.now }
    requires few { AllMakeFew (take from (joined equations.now sizings.now)) }
    ensures few { IfOk result (λ found. IfNone found (AllMakeFew (joined equations.now sizings.now))) }
    ensures first { IfOk result (λ found. IfSome found (λ k. IsFirstMany (joined equations.now sizings.now) k)) }
{
    let start = surely_few(alloc, equations, sizings, from)?;
    let mut all = load_solvable(alloc, equations, start)?;
    for k in start..equations.len() {
        if !load_next(alloc, &mut all, &equations[k])? {
            unreachable!();
        }
        let late = is_late(sizings[k]);
        if !are_within(alloc, &all, &sizings[..k + 1], late)? {
            return Ok(Some(k));
        }
    }
    Ok(None)
}

/// The first constraint with which the nodes of those up to it make a side too large whose size matters then, if there is one. One
/// look at the nodes of all is enough where there is none.
pub fn first_beyond(
    alloc: Global,
    nodes: &Ordered,
    equations: &[Equation],
    sizings: &[Sizing],
) -> Result<Option<usize>, NoMemory>
    requires nodes { AreOrdered nodes.now equations.now }
    requires sizings { length sizings.now ≡ length equations.now }
    ensures few { IfOk result (λ found. IfNone found (AllMakeFew (joined equations.now sizings.now))) }
    ensures first { IfOk result (λ found. IfSome found (λ k. IsFirstMany (joined equations.now sizings.now) k)) }
{
    match first_unsure(alloc, nodes, sizings)? {
        None => Ok(None),
        Some(from) => search_beyond(alloc, equations, sizings, from),
    }
}

/// The first constraint with which those up to it have a side that is too large and whose size matters then, if there is one.
pub fn first_large(
    alloc: Global,
    nodes: &Ordered,
    equations: &[Equation],
    sizings: &[Sizing],
) -> Result<Option<usize>, NoMemory>
    requires nodes { AreOrdered nodes.now equations.now }
    requires sizings { length sizings.now ≡ length equations.now }
    ensures fine { IfOk result (λ found. IfNone found (AllFine (joined equations.now sizings.now))) }
    ensures first { IfOk result (λ found. IfSome found (λ k. IsFirstLarge (joined equations.now sizings.now) k)) }
{
    first_beyond(alloc, nodes, equations, sizings)
}
