//! The fields of a row and of the rows that its tails stand for.

ghost use Rattle.std.specs.Prelude.{◌≡◌, ◌<◌, length, IfOk, IfSome, IfNone};
ghost use Rattle.lk_classes.specs.Classes.{class_at};
ghost use Rattle.lk_arena.specs.Covering.{IsFlatCounted};
ghost use Rattle.lk_arena.specs.Kinds.{IsFlatKinded};
ghost use Rattle.lk_arena.specs.Shapes.{shape_at, IsArena, IsEnd, IsFlatBut, NeverSame};
ghost use Rattle.lk_arena.specs.Ways.{HasWay};

use crate::arena::Arena;
use crate::by_label::{lacks_all, note_labels};
use crate::kind::is_row;
use crate::labels::append;
use crate::node::{Field, Shape};
use lk_ast::{List, NoMemory};
use std::alloc::Global;
use std::collections::BTreeMap;

/// All fields of a row, and the class of a tail without fields of its own.
#[derive(Drop)]
pub struct Flat {
    pub row: usize,
    pub fields: List<Field>,
    pub tail: usize,
}

/// The fields of a row, which are its own and those of the rows that its tails stand for. None where a label stands twice, or a
/// tail is no row, or is the hole: then the row and the hole differ in all values that fit.
pub fn flat_row<'a>(
    alloc: Global,
    arena: &'a Arena,
    row: usize,
    own: &'a [Field],
    first: usize,
    hole: usize,
) -> Result<Option<Flat>, NoMemory>
    requires arena { IsArena arena.now.shapes arena.now.classes }
    requires row { row < length arena.now.shapes }
    requires shape { shape_at arena.now.shapes row ≡ Shape.Row own.now first }
    ensures flat { IfOk result (λ found. IfSome found (λ flat. (flat.row ≡ row) × IsFlatBut hole arena.now.shapes arena.now.classes row flat.fields flat.tail × IsEnd hole arena.now.shapes flat.tail)) }
    ensures kinds { IfOk result (λ found. IfSome found (λ flat. IsFlatKinded arena.now.shapes arena.now.classes row flat.fields flat.tail)) }
    ensures counts { IfOk result (λ found. IfSome found (λ flat. IsFlatCounted hole arena.now.shapes arena.now.classes row flat.fields flat.tail)) }
    ensures way { IfOk result (λ found. IfSome found (λ flat. HasWay arena.now.shapes arena.now.classes own.now (class_at arena.now.classes first) flat.fields flat.tail)) }
    ensures none { IfOk result (λ found. IfNone found (NeverSame arena.now.shapes arena.now.classes row hole)) }
{
    let mut fields = List::new(alloc);
    append(alloc, &mut fields, own)?;
    // Labels are noted only where another row comes, since most have none.
    let mut labels = BTreeMap::new(alloc);
    let mut unnoted = own;
    let mut tail = arena.class_of(first);
    loop {
        if tail == hole {
            return Ok(None);
        }
        if !is_row(arena.shape_of(tail)) {
            return Ok(None);
        }
        match arena.shape_of(tail) {
            Shape::Row(more, next) => {
                note_labels(&mut labels, unnoted)?;
                if !lacks_all(&labels, more.as_slice()) {
                    return Ok(None);
                }
                append(alloc, &mut fields, more.as_slice())?;
                unnoted = more.as_slice();
                tail = arena.class_of(*next);
            }
            _ => return Ok(Some(Flat { row, fields, tail })),
        }
    }
}
