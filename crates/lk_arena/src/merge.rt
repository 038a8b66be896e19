//! Merging of nodes into classes of equal ones. It doesn't look whether a type is a part of itself.

ghost use Rattle.std.specs.List.{cons_option};
ghost use Rattle.std.specs.Prelude.{◌≡◌, ◌<◌, ℕ, List, [], ◌++◌, length, IfOk, IfNone, IfSome, OnOk, IsTrue, true, false};
ghost use Rattle.lk_arena.specs.Covering.{IsFlatCounted};
ghost use Rattle.lk_arena.specs.Kinds.{IsFlatKinded};
ghost use Rattle.lk_arena.specs.Shapes.{shape_at, is_loose_shape, IsArena, IsEnd, IsFlatBut, NeverBoth, NeverSame, AreNodePairs};
ghost use Rattle.lk_arena.specs.Steps.{AreApart, Leads, Merges, SamePairs, Unites, paired};

use crate::arena::Arena;
use crate::flat::{Flat, flat_row};
use crate::joining::join_rows;
use crate::kind::{is_empty_row, is_loose, is_row};
use crate::node::{Head, Pair, Shape};
use lk_ast::{List, NoMemory};
use std::alloc::Global;

/// Puts the first class into the second.
fn unite(alloc: Global, arena: &mut Arena, from: usize, to: usize)
    requires arena { IsArena arena.old.shapes arena.old.classes }
    requires apart { AreApart (length arena.old.shapes) arena.old.classes from to }
    ensures { Unites from to arena.old.shapes arena.old.classes arena.new.shapes arena.new.classes }
{
    arena.relabel(from, to);
}

/// Puts a class of which nothing is known into another one. The answer is whether they can be equal.
fn merge_loose(alloc: Global, arena: &mut Arena, from: usize, to: usize) -> bool
    requires arena { IsArena arena.old.shapes arena.old.classes }
    requires apart { AreApart (length arena.old.shapes) arena.old.classes from to }
    requires loose { is_loose_shape (shape_at arena.old.shapes from) ≡ true }
    ensures merged { IsTrue result → (queue : List Pair) → AreNodePairs (length arena.old.shapes) queue → Merges from to arena.old.shapes arena.old.classes queue arena.new.shapes arena.new.classes queue }
    ensures never { (result ≡ false) → NeverSame arena.old.shapes arena.old.classes from to }
{
    if is_row(arena.shape_of(from)) != is_row(arena.shape_of(to)) {
        return false;
    }
    unite(alloc, arena, from, to);
    true
}

/// Puts a class of the row without fields into another one of which something is known. The answer is whether they can be equal.
fn merge_empty(alloc: Global, arena: &mut Arena, from: usize, to: usize) -> bool
    requires arena { IsArena arena.old.shapes arena.old.classes }
    requires apart { AreApart (length arena.old.shapes) arena.old.classes from to }
    requires empty { shape_at arena.old.shapes from ≡ Shape.Empty }
    requires known { is_loose_shape (shape_at arena.old.shapes to) ≡ false }
    ensures merged { IsTrue result → (queue : List Pair) → AreNodePairs (length arena.old.shapes) queue → Merges from to arena.old.shapes arena.old.classes queue arena.new.shapes arena.new.classes queue }
    ensures never { (result ≡ false) → NeverSame arena.old.shapes arena.old.classes from to }
{
    if !is_empty_row(arena.shape_of(to)) {
        return false;
    }
    unite(alloc, arena, from, to);
    true
}

/// Adds the pairs of two lists of one length.
fn push_pairs(queue: &mut List<Pair>, lefts: &[usize], rights: &[usize]) -> Result<(), NoMemory>
    requires { length lefts.now ≡ length rights.now }
    ensures { OnOk result (queue.new ≡ queue.old ++ paired lefts.now rights.now) }
{
    for (i, left) in lefts.iter().enumerate() {
        queue.push(Pair {
            left: *left,
            right: rights[i],
        })?;
    }
    Ok(())
}

/// Adds the pairs of the parts of a constructor and of another shape of which something is known. The answer is whether they
/// can be equal.
fn push_parts(
    queue: &mut List<Pair>,
    head: Head,
    parts: &[usize],
    other: &Shape,
) -> Result<bool, NoMemory>
    requires known { is_loose_shape other.now ≡ false }
    ensures pushed { IfOk result (λ pushed. IsTrue pushed → (others : List ℕ) × (other.now ≡ Shape.Made head others) × (length parts.now ≡ length others) × (queue.new ≡ queue.old ++ paired parts.now others)) }
    ensures never { IfOk result (λ pushed. (pushed ≡ false) → NeverBoth (Shape.Made head parts.now) other.now) }
{
    match other {
        Shape::Made(other_head, others) => {
            if *other_head != head {
                return Ok(false);
            }
            if parts.len() != others.len() {
                return Ok(false);
            }
            push_pairs(queue, parts, others.as_slice())?;
            Ok(true)
        }
        _ => Ok(false),
    }
}

/// Puts a class of fields before a row into another one of which something is known. The answer is whether they can be equal.
fn merge_rows(
    alloc: Global,
    arena: &mut Arena,
    queue: &mut List<Pair>,
    left: &Flat,
    to: usize,
) -> Result<bool, NoMemory>
    requires arena { IsArena arena.old.shapes arena.old.classes }
    requires pairs { AreNodePairs (length arena.old.shapes) queue.old }
    requires apart { AreApart (length arena.old.shapes) arena.old.classes left.now.row to }
    requires flat { IsFlatBut left.now.row arena.old.shapes arena.old.classes left.now.row left.now.fields left.now.tail }
    requires end { IsEnd left.now.row arena.old.shapes left.now.tail }
    requires kinds { IsFlatKinded arena.old.shapes arena.old.classes left.now.row left.now.fields left.now.tail }
    requires counts { IsFlatCounted left.now.row arena.old.shapes arena.old.classes left.now.row left.now.fields left.now.tail }
    requires known { is_loose_shape (shape_at arena.old.shapes to) ≡ false }
    ensures merged { IfOk result (λ merged. IsTrue merged → Merges left.now.row to arena.old.shapes arena.old.classes queue.old arena.new.shapes arena.new.classes queue.new) }
    ensures never { IfOk result (λ merged. (merged ≡ false) → NeverSame arena.old.shapes arena.old.classes left.now.row to) }
{
    match arena.shape_of(to) {
        Shape::Row(own, first) => {
            let found = flat_row(alloc, arena, to, own.as_slice(), *first, left.row)?;
            let Some(right) = found else {
                return Ok(false);
            };
            unite(alloc, arena, left.row, to);
            let joined = join_rows(alloc, arena, queue, left, &right)?;
            Ok(joined)
        }
        _ => Ok(false),
    }
}

/// Makes two classes one. The answer is whether they can be.
fn merge_classes(
    alloc: Global,
    arena: &mut Arena,
    queue: &mut List<Pair>,
    from: usize,
    to: usize,
) -> Result<bool, NoMemory>
    requires arena { IsArena arena.old.shapes arena.old.classes }
    requires pairs { AreNodePairs (length arena.old.shapes) queue.old }
    requires apart { AreApart (length arena.old.shapes) arena.old.classes from to }
    ensures merged { IfOk result (λ merged. IsTrue merged → Merges from to arena.old.shapes arena.old.classes queue.old arena.new.shapes arena.new.classes queue.new) }
    ensures never { IfOk result (λ merged. (merged ≡ false) → NeverSame arena.old.shapes arena.old.classes from to) }
{
    if is_loose(arena.shape_of(to)) {
        let merged = merge_loose(alloc, arena, to, from);
        return Ok(merged);
    }
    match arena.shape_of(from) {
        Shape::Free | Shape::Open => {
            let merged = merge_loose(alloc, arena, from, to);
            Ok(merged)
        }
        Shape::Empty => {
            let merged = merge_empty(alloc, arena, from, to);
            Ok(merged)
        }
        Shape::Made(head, parts) => {
            if !push_parts(queue, *head, parts.as_slice(), arena.shape_of(to))? {
                return Ok(false);
            }
            unite(alloc, arena, from, to);
            Ok(true)
        }
        Shape::Row(own, first) => {
            let found = flat_row(alloc, arena, from, own.as_slice(), *first, from)?;
            let Some(left) = found else {
                return Ok(false);
            };
            let merged = merge_rows(alloc, arena, queue, &left, to)?;
            Ok(merged)
        }
    }
}

/// Takes pairs away, up to one of nodes of two classes. The answer is the pair of their names.
fn next_apart(arena: &Arena, queue: &mut List<Pair>) -> Option<Pair>
    requires arena { IsArena arena.now.shapes arena.now.classes }
    requires pairs { AreNodePairs (length arena.now.shapes) queue.old }
    ensures pairs { AreNodePairs (length arena.now.shapes) queue.new }
    ensures apart { IfSome result (λ pair. AreApart (length arena.now.shapes) arena.now.classes pair.left pair.right) }
    ensures same { SamePairs arena.now.classes queue.old (cons_option result queue.new) }
    ensures none { IfNone result (queue.new ≡ []) }
{
    loop {
        let Some(pair) = queue.pop() else {
            return None;
        };
        let left = arena.class_of(pair.left);
        let right = arena.class_of(pair.right);
        if left != right {
            return Some(Pair { left, right });
        }
    }
}

/// Makes two nodes equal, with all that follows. The answer is whether they can be.
pub fn merge_nodes(
    alloc: Global,
    arena: &mut Arena,
    left: usize,
    right: usize,
) -> Result<bool, NoMemory>
    requires arena { IsArena arena.old.shapes arena.old.classes }
    requires left { left < length arena.old.shapes }
    requires right { right < length arena.old.shapes }
    ensures merged { IfOk result (λ merged. IsTrue merged → Leads left right arena.old.shapes arena.old.classes arena.new.shapes arena.new.classes []) }
    ensures never { IfOk result (λ merged. (merged ≡ false) → NeverSame arena.old.shapes arena.old.classes left right) }
{
    let mut queue = List::new(alloc);
    queue.push(Pair { left, right })?;
    loop {
        let Some(pair) = next_apart(arena, &mut queue) else {
            return Ok(true);
        };
        if !merge_classes(alloc, arena, &mut queue, pair.left, pair.right)? {
            return Ok(false);
        }
    }
}
