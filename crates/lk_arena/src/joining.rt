//! Two rows that are to be one: their common fields are equal, and what each has besides stands before the rest of both.

ghost use Rattle.std.specs.Prelude.{◌≡◌, ◌≢◌, ◌<◌, length, IfOk, OnOk, IsTrue, false};
ghost use Rattle.lk_arena.specs.Shapes.{shape_at, IsArena, IsFlatOf, NeverSame, AreNodePairs, missing};
ghost use Rattle.lk_arena.specs.Steps.{CanBind, Binds, AreTails, IsTail, JoinsTails, JoinsRows};

use crate::arena::Arena;
use crate::flat::Flat;
use crate::kind::is_empty_row;
use crate::labels::{lacking, push_common};
use crate::node::{Field, Pair, Shape};
use lk_ast::{List, NoMemory};
use std::alloc::Global;

/// Makes a row of which nothing is known these fields before another row.
fn bind(alloc: Global, arena: &mut Arena, node: usize, fields: List<Field>, tail: usize)
    requires arena { IsArena arena.old.shapes arena.old.classes }
    requires can { CanBind arena.old.shapes arena.old.classes node fields tail }
    ensures { Binds node fields tail arena.old.shapes arena.old.classes arena.new.shapes arena.new.classes }
{
    arena.put_shape(alloc, node, Shape::Row(fields, tail));
}

/// Makes each of two tails the fields that the other row has besides, before one row.
fn join_tails(
    alloc: Global,
    arena: &mut Arena,
    queue: &mut List<Pair>,
    left: usize,
    right: usize,
    lefts: List<Field>,
    rights: List<Field>,
) -> Result<(), NoMemory>
    requires arena { IsArena arena.old.shapes arena.old.classes }
    requires pairs { AreNodePairs (length arena.old.shapes) queue.old }
    requires tails { AreTails arena.old.shapes arena.old.classes left right lefts rights }
    ensures { OnOk result (JoinsTails left right lefts rights arena.old.shapes arena.old.classes queue.old arena.new.shapes arena.new.classes queue.new) }
{
    if left == right {
        return Ok(());
    }
    if lefts.len() == 0 {
        if rights.len() == 0 {
            queue.push(Pair { left, right })?;
            return Ok(());
        }
        bind(alloc, arena, right, rights, left);
        return Ok(());
    }
    if rights.len() == 0 {
        bind(alloc, arena, left, lefts, right);
        return Ok(());
    }
    let fresh = arena.add_node(Shape::Open)?;
    bind(alloc, arena, left, lefts, fresh);
    bind(alloc, arena, right, rights, fresh);
    Ok(())
}

/// Whether two rows can't be equal, since one has a label that the other's tail can't bring.
fn clash(arena: &Arena, left: &Flat, right: &Flat, lefts: &[Field], rights: &[Field]) -> bool
    requires left { IsFlatOf arena.now.shapes arena.now.classes left.now.row left.now.fields left.now.tail }
    requires right { IsFlatOf arena.now.shapes arena.now.classes right.now.row right.now.fields right.now.tail }
    requires lefts { lefts.now ≡ missing right.now.fields left.now.fields }
    requires rights { rights.now ≡ missing left.now.fields right.now.fields }
    ensures never { IsTrue result → NeverSame arena.now.shapes arena.now.classes left.now.row right.now.row }
    ensures same { (result ≡ false) → left.now.tail ≡ right.now.tail → (length lefts.now ≡ 0) × (length rights.now ≡ 0) }
    ensures left { (result ≡ false) → length lefts.now ≢ 0 → shape_at arena.now.shapes left.now.tail ≢ Shape.Empty }
    ensures right { (result ≡ false) → length rights.now ≢ 0 → shape_at arena.now.shapes right.now.tail ≢ Shape.Empty }
{
    if left.tail == right.tail {
        if lefts.len() != 0 {
            return true;
        }
        if rights.len() != 0 {
            return true;
        }
        return false;
    }
    if lefts.len() != 0 {
        if is_empty_row(arena.shape_of(left.tail)) {
            return true;
        }
    }
    if rights.len() != 0 {
        if is_empty_row(arena.shape_of(right.tail)) {
            return true;
        }
    }
    false
}

/// Makes two rows one, as bindings of their tails and pairs that wait. The answer is whether they can be.
pub fn join_rows(
    alloc: Global,
    arena: &mut Arena,
    queue: &mut List<Pair>,
    left: &Flat,
    right: &Flat,
) -> Result<bool, NoMemory>
    requires arena { IsArena arena.old.shapes arena.old.classes }
    requires pairs { AreNodePairs (length arena.old.shapes) queue.old }
    requires left { IsFlatOf arena.old.shapes arena.old.classes left.now.row left.now.fields left.now.tail }
    requires right { IsFlatOf arena.old.shapes arena.old.classes right.now.row right.now.fields right.now.tail }
    requires left_tail { IsTail arena.old.shapes arena.old.classes left.now.tail }
    requires right_tail { IsTail arena.old.shapes arena.old.classes right.now.tail }
    ensures joined { IfOk result (λ joined. IsTrue joined → JoinsRows left.now.row right.now.row left.now.fields right.now.fields left.now.tail right.now.tail arena.old.shapes arena.old.classes queue.old arena.new.shapes arena.new.classes queue.new) }
    ensures never { IfOk result (λ joined. (joined ≡ false) → NeverSame arena.old.shapes arena.old.classes left.now.row right.now.row) }
{
    let lefts = lacking(alloc, right.fields.as_slice(), left.fields.as_slice())?;
    let rights = lacking(alloc, left.fields.as_slice(), right.fields.as_slice())?;
    if clash(arena, left, right, lefts.as_slice(), rights.as_slice()) {
        return Ok(false);
    }
    join_tails(alloc, arena, queue, left.tail, right.tail, lefts, rights)?;
    push_common(
        alloc,
        queue,
        left.fields.as_slice(),
        right.fields.as_slice(),
    )?;
    Ok(true)
}
