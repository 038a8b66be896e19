//! An order of the nodes in which parts come first: nodes are ranked as soon as their parts are, first along the order that a
//! search makes (`depth`), then in sweeps, until a sweep ranks none. The search leaves nothing to do for more than one sweep that
//! ranks, but nothing rests on that. A class that is left is a part of itself through others.

ghost use Rattle.std.specs.Prelude.{◌≡◌, ◌<◌, ◌≤◌, ℕ, length, IfOk, IfSome, IfNone, OnOk, IsTrue, IsSome, None, false};
ghost use Rattle.lk_types.specs.Each.{Each, OneOf};
ghost use Rattle.lk_arena.specs.Counting.{IsPartsFirst};
ghost use Rattle.lk_arena.specs.Order.{rank_at, IsKnown, IsUnknown, IsRanked, IsRanking, IsStuck, IsStuckAt};
ghost use Rattle.lk_classes.specs.Classes.{class_at, AreClasses};
ghost use Rattle.lk_arena.specs.Shapes.{shape_at, parts_of, AllBelow, AreNodes, IsDistinct, fields_in, HasFields, NeverFits};

use crate::depth::depth_order;
use crate::node::{Field, Shape};
use lk_ast::NoMemory;
use lk_classes::Classes;
use std::alloc::Global;

/// Whether a node's class has a rank.
fn is_known(node: usize, classes: &Classes, ranks: &[Option<usize>]) -> bool
    requires node { node < length classes.now }
    requires classes { AreClasses (length ranks.now) classes.now }
    ensures known { IsTrue result → IsKnown ranks.now classes.now node }
    ensures unknown { (result ≡ false) → IsUnknown ranks.now classes.now node }
{
    ranks[classes.name_of(node)].is_some()
}

/// Whether all parts have ranks.
fn parts_known(parts: &[usize], classes: &Classes, ranks: &[Option<usize>]) -> bool
    requires parts { AllBelow (length classes.now) parts.now }
    requires classes { AreClasses (length ranks.now) classes.now }
    ensures known { IsTrue result → Each (λ p. IsKnown ranks.now classes.now p) parts.now }
    ensures unknown { (result ≡ false) → OneOf (λ p. IsUnknown ranks.now classes.now p) parts.now }
{
    for part in parts {
        if !is_known(*part, classes, ranks) {
            return false;
        }
    }
    true
}

/// Whether the nodes of all fields have ranks.
fn fields_known(fields: &[Field], classes: &Classes, ranks: &[Option<usize>]) -> bool
    requires fields { Each (λ f. f.node < length classes.now) fields.now }
    requires classes { AreClasses (length ranks.now) classes.now }
    ensures known { IsTrue result → Each (λ f. IsKnown ranks.now classes.now f.node) fields.now }
    ensures unknown { (result ≡ false) → OneOf (λ f. IsUnknown ranks.now classes.now f.node) fields.now }
{
    for field in fields {
        if !is_known(field.node, classes, ranks) {
            return false;
        }
    }
    true
}

/// Whether all parts of a shape have ranks.
fn all_known(shape: &Shape, classes: &Classes, ranks: &[Option<usize>]) -> bool
    requires parts { AllBelow (length classes.now) (parts_of shape.now) }
    requires classes { AreClasses (length ranks.now) classes.now }
    ensures known { IsTrue result → Each (λ p. IsKnown ranks.now classes.now p) (parts_of shape.now) }
    ensures unknown { (result ≡ false) → OneOf (λ p. IsUnknown ranks.now classes.now p) (parts_of shape.now) }
{
    match shape {
        Shape::Made(_, parts) => parts_known(parts.as_slice(), classes, ranks),
        Shape::Row(fields, tail) => {
            if !is_known(*tail, classes, ranks) {
                return false;
            }
            fields_known(fields.as_slice(), classes, ranks)
        }
        _ => true,
    }
}

/// The ranks of the nodes that have one, and these nodes in the order of their ranks.
#[derive(Drop)]
struct Ranking {
    ranks: Vec<Option<usize>>,
    order: Vec<usize>,
}

/// Gives a node the next rank, if it has none and its parts have theirs.
fn rank_node(
    shapes: &[Shape],
    classes: &Classes,
    ranking: &mut Ranking,
    i: usize,
) -> Result<(), NoMemory>
    requires nodes { AreNodes shapes.now }
    requires classes { AreClasses (length shapes.now) classes.now }
    requires at { i < length shapes.now }
    requires ranking { IsRanking shapes.now classes.now ranking.old.ranks.items ranking.old.order.items }
    ensures ranking { OnOk result (IsRanking shapes.now classes.now ranking.new.ranks.items ranking.new.order.items) }
    ensures grows { OnOk result (length ranking.old.order.items ≤ length ranking.new.order.items) }
    ensures same { OnOk result (length ranking.new.order.items ≡ length ranking.old.order.items → ranking.new.ranks.items ≡ ranking.old.ranks.items) }
    ensures stuck { OnOk result (length ranking.new.order.items ≡ length ranking.old.order.items → IsStuckAt shapes.now classes.now ranking.old.ranks.items i) }
{
    if ranking.ranks[i].is_some() {
        return Ok(());
    }
    if !all_known(&shapes[i], classes, ranking.ranks.as_slice()) {
        return Ok(());
    }
    let next = ranking.order.len();
    ranking.order.push(i)?;
    ranking.ranks[i] = Some(next);
    Ok(())
}

/// Gives the next ranks to those of these nodes whose parts all have one.
fn rank_along(
    shapes: &[Shape],
    classes: &Classes,
    ranking: &mut Ranking,
    along: &[usize],
) -> Result<(), NoMemory>
    requires nodes { AreNodes shapes.now }
    requires classes { AreClasses (length shapes.now) classes.now }
    requires along { AllBelow (length shapes.now) along.now }
    requires ranking { IsRanking shapes.now classes.now ranking.old.ranks.items ranking.old.order.items }
    ensures { OnOk result (IsRanking shapes.now classes.now ranking.new.ranks.items ranking.new.order.items) }
{
    for node in along {
        rank_node(shapes, classes, ranking, *node)?;
    }
    Ok(())
}

/// Gives the next ranks to the nodes whose parts all have one.
fn sweep(shapes: &[Shape], classes: &Classes, ranking: &mut Ranking) -> Result<(), NoMemory>
    requires nodes { AreNodes shapes.now }
    requires classes { AreClasses (length shapes.now) classes.now }
    requires ranking { IsRanking shapes.now classes.now ranking.old.ranks.items ranking.old.order.items }
    ensures ranking { OnOk result (IsRanking shapes.now classes.now ranking.new.ranks.items ranking.new.order.items) }
    ensures grows { OnOk result (length ranking.old.order.items ≤ length ranking.new.order.items) }
    ensures stuck { OnOk result (length ranking.new.order.items ≡ length ranking.old.order.items → IsStuck shapes.now classes.now ranking.new.ranks.items) }
{
    for i in 0..shapes.len() {
        rank_node(shapes, classes, ranking, i)?;
    }
    Ok(())
}

/// Ranks of all nodes but those that have a part without one, or are parts of themselves.
fn rank_nodes(alloc: Global, shapes: &[Shape], classes: &Classes) -> Result<Ranking, NoMemory>
    requires nodes { AreNodes shapes.now }
    requires classes { AreClasses (length shapes.now) classes.now }
    ensures ranking { IfOk result (λ ranking. IsRanking shapes.now classes.now ranking.ranks.items ranking.order.items) }
    ensures stuck { IfOk result (λ ranking. IsStuck shapes.now classes.now ranking.ranks.items) }
{
    let along = depth_order(alloc, shapes, classes)?;
    let mut ranking = Ranking {
        ranks: vec![in alloc; None; shapes.len()]?,
        order: Vec::new(alloc),
    };
    rank_along(shapes, classes, &mut ranking, along.as_slice())?;
    'sweeps: loop {
        let before = ranking.order.len();
        sweep(shapes, classes, &mut ranking)?;
        if ranking.order.len() == before {
            return Ok(ranking);
        }
    }
}

/// Whether each class has a rank.
fn all_classes_known(classes: &Classes, ranks: &[Option<usize>]) -> bool
    requires { length ranks.now ≡ length classes.now }
    ensures known { IsTrue result → (i : ℕ) → i < length classes.now → class_at classes.now i ≡ i → IsSome (rank_at ranks.now i) }
    ensures unknown { (result ≡ false) → (i : ℕ) × (i < length classes.now) × (class_at classes.now i ≡ i) × (rank_at ranks.now i ≡ None) }
{
    for i in 0..ranks.len() {
        if classes.name_of(i) == i && ranks[i].is_none() {
            return false;
        }
    }
    true
}

/// The nodes in an order in which each class comes after those of its parts. Where there is none, no values fit.
pub fn parts_first(
    alloc: Global,
    shapes: &[Shape],
    classes: &Classes,
) -> Result<Option<Vec<usize>>, NoMemory>
    requires nodes { AreNodes shapes.now }
    requires classes { AreClasses (length shapes.now) classes.now }
    requires distinct { (i : ℕ) → i < length shapes.now → IsDistinct (fields_in (shape_at shapes.now i)) }
    requires fields { (i : ℕ) → i < length shapes.now → HasFields (shape_at shapes.now i) }
    ensures ranked { IfOk result (λ found. IfSome found (λ order. (rank : ℕ → ℕ) × IsRanked shapes.now classes.now rank)) }
    ensures order { IfOk result (λ found. IfSome found (λ order. IsPartsFirst shapes.now classes.now order.items)) }
    ensures never { IfOk result (λ found. IfNone found (NeverFits shapes.now classes.now)) }
{
    let ranking = rank_nodes(alloc, shapes, classes)?;
    if !all_classes_known(classes, ranking.ranks.as_slice()) {
        return Ok(None);
    }
    Ok(Some(ranking.order))
}

/// Whether each class comes after those of its parts in some order. Where there is none, no values fit.
pub fn is_ordered(alloc: Global, shapes: &[Shape], classes: &Classes) -> Result<bool, NoMemory>
    requires nodes { AreNodes shapes.now }
    requires classes { AreClasses (length shapes.now) classes.now }
    requires distinct { (i : ℕ) → i < length shapes.now → IsDistinct (fields_in (shape_at shapes.now i)) }
    requires fields { (i : ℕ) → i < length shapes.now → HasFields (shape_at shapes.now i) }
    ensures ranked { IfOk result (λ ordered. IsTrue ordered → (rank : ℕ → ℕ) × IsRanked shapes.now classes.now rank) }
    ensures never { IfOk result (λ ordered. (ordered ≡ false) → NeverFits shapes.now classes.now) }
{
    match parts_first(alloc, shapes, classes)? {
        Some(_) => Ok(true),
        None => Ok(false),
    }
}
