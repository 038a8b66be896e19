//! Whether rows have a label twice. Each row is looked at once, the lower ones first, and then only for its own labels. A row of which
//! that doesn't show that it has none twice is laid out.

ghost use Rattle.std.specs.Prelude.{◌≡◌, ◌<◌, length, IfOk, IsTrue, OnOk, false};
ghost use Rattle.lk_types.specs.Each.{Each};
ghost use Rattle.lk_arena.specs.Shapes.{shape_at, IsArena, IsClean, IsCleanAt, NeverFits};
ghost use Rattle.lk_arena.specs.Ways.{AreMarked, HasDistinctWay, IsName, LacksAlong};

use crate::arena::Arena;
use crate::by_label::Finder;
use crate::flat::flat_row;
use crate::kind::is_row;
use crate::node::Shape;
use lk_ast::NoMemory;
use std::alloc::Global;

/// Whether there is a way down from here to a tail without fields of its own, along which no label stands twice: there are no
/// fields here, or the class is marked.
fn has_way(arena: &Arena, at: usize, marks: &[bool]) -> bool
    requires arena { IsArena arena.now.shapes arena.now.classes }
    requires at { at < length arena.now.shapes }
    requires marked { AreMarked arena.now.shapes arena.now.classes marks.now }
    ensures { IsTrue result → HasDistinctWay arena.now.shapes arena.now.classes at }
{
    match arena.shape_of(at) {
        Shape::Row(_, _) => marks[at],
        other => is_row(other),
    }
}

/// Whether no row from here down has one of these labels.
fn way_lacks(arena: &Arena, from: usize, labels: &Finder) -> bool
    requires arena { IsArena arena.now.shapes arena.now.classes }
    requires from { from < length arena.now.shapes }
    ensures { IsTrue result → LacksAlong arena.now.shapes arena.now.classes labels.now from }
{
    let mut at = from;
    for _row in 0..arena.shapes.len() {
        match arena.shape_of(at) {
            Shape::Row(more, next) => {
                if !labels.lack(more.as_slice()) {
                    return false;
                }
                at = arena.class_of(*next);
            }
            _ => return true,
        }
    }
    false
}

/// Marks a class of fields, if there is a way down from its tail and no label stands twice along its own.
fn mark_row(
    alloc: Global,
    arena: &Arena,
    node: usize,
    marks: &mut Vec<bool>,
) -> Result<(), NoMemory>
    requires arena { IsArena arena.now.shapes arena.now.classes }
    requires node { IsName (length arena.now.shapes) arena.now.classes node }
    requires marked { AreMarked arena.now.shapes arena.now.classes marks.old.items }
    ensures { OnOk result (AreMarked arena.now.shapes arena.now.classes marks.new.items) }
{
    let Shape::Row(own, first) = arena.shape_of(node) else {
        return Ok(());
    };
    let below = arena.class_of(*first);
    if !has_way(arena, below, marks.as_slice()) {
        return Ok(());
    }
    let labels = Finder::new(alloc, own.as_slice(), arena.shapes.len())?;
    if !way_lacks(arena, below, &labels) {
        return Ok(());
    }
    marks[node] = true;
    Ok(())
}

/// The classes of fields from here down, up to one that was seen.
fn way_down(
    alloc: Global,
    arena: &Arena,
    from: usize,
    seen: &mut Vec<bool>,
) -> Result<Vec<usize>, NoMemory>
    requires arena { IsArena arena.now.shapes arena.now.classes }
    requires from { IsName (length arena.now.shapes) arena.now.classes from }
    requires count { length seen.old.items ≡ length arena.now.shapes }
    ensures count { OnOk result (length seen.new.items ≡ length arena.now.shapes) }
    ensures names { IfOk result (λ way. Each (IsName (length arena.now.shapes) arena.now.classes) way.items) }
{
    let mut way = Vec::new(alloc);
    let mut at = from;
    'down: loop {
        match arena.shape_of(at) {
            Shape::Row(_, next) => {
                if seen[at] {
                    return Ok(way);
                }
                seen[at] = true;
                way.push(at)?;
                at = arena.class_of(*next);
            }
            _ => return Ok(way),
        }
    }
}

/// Marks the classes of a way, from the last one up.
fn mark_way(
    alloc: Global,
    arena: &Arena,
    way: &[usize],
    marks: &mut Vec<bool>,
) -> Result<(), NoMemory>
    requires arena { IsArena arena.now.shapes arena.now.classes }
    requires names { Each (IsName (length arena.now.shapes) arena.now.classes) way.now }
    requires marked { AreMarked arena.now.shapes arena.now.classes marks.old.items }
    ensures { OnOk result (AreMarked arena.now.shapes arena.now.classes marks.new.items) }
{
    for i in (0..way.len()).rev() {
        mark_row(alloc, arena, way[i], marks)?;
    }
    Ok(())
}

/// Marks classes of fields without a label twice, each once, those further down first.
fn mark_rows(alloc: Global, arena: &Arena) -> Result<Vec<bool>, NoMemory>
    requires { IsArena arena.now.shapes arena.now.classes }
    ensures { IfOk result (λ marks. AreMarked arena.now.shapes arena.now.classes marks.items) }
{
    let mut seen = vec![in alloc; false; arena.shapes.len()]?;
    let mut marks = vec![in alloc; false; arena.shapes.len()]?;
    for i in 0..arena.shapes.len() {
        if arena.class_of(i) == i {
            let way = way_down(alloc, arena, i, &mut seen)?;
            mark_way(alloc, arena, way.as_slice(), &mut marks)?;
        }
    }
    Ok(marks)
}

/// Whether no label stands twice in the row of a class, if it is a row of fields.
fn is_clean_at(alloc: Global, arena: &Arena, node: usize) -> Result<bool, NoMemory>
    requires arena { IsArena arena.now.shapes arena.now.classes }
    requires node { node < length arena.now.shapes }
    ensures clean { IfOk result (λ clean. IsTrue clean → IsCleanAt arena.now.shapes arena.now.classes node) }
    ensures never { IfOk result (λ clean. (clean ≡ false) → NeverFits arena.now.shapes arena.now.classes) }
{
    if arena.class_of(node) != node {
        return Ok(true);
    }
    match arena.shape_of(node) {
        Shape::Row(own, first) => {
            let found = flat_row(alloc, arena, node, own.as_slice(), *first, node)?;
            let Some(_) = found else {
                return Ok(false);
            };
            Ok(true)
        }
        _ => Ok(true),
    }
}

/// Whether no label stands twice in the row of any class.
pub fn is_clean(alloc: Global, arena: &Arena) -> Result<bool, NoMemory>
    requires { IsArena arena.now.shapes arena.now.classes }
    ensures clean { IfOk result (λ clean. IsTrue clean → IsClean arena.now.shapes arena.now.classes) }
    ensures never { IfOk result (λ clean. (clean ≡ false) → NeverFits arena.now.shapes arena.now.classes) }
{
    let marks = mark_rows(alloc, arena)?;
    for i in 0..arena.shapes.len() {
        if !marks[i] && !is_clean_at(alloc, arena, i)? {
            return Ok(false);
        }
    }
    Ok(true)
}
