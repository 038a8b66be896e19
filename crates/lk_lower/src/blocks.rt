//! Nodes that read or change tables: each has a label, and what stands in it is counted and not lowered.

ghost use Rattle.lk_ast.specs.declared.place.Word.{Word as TheWord};
ghost use Rattle.lk_ast.specs.declared.expression.Expr.{Expr as TheExpr};
ghost use Rattle.lk_ast.specs.declared.expression.Node.TheOpen.{Node-F};
ghost use Rattle.lk_ast.specs.declared.expression.SortKey.{SortKey as TheSortKey};
ghost use Rattle.lk_ir.specs.declared.nodes.Kind.TheVariants as kind;
ghost use Rattle.lk_lower.specs.Steps.{IsChange, IsShaped, block_label, past, touched_by, with_label, with_table};
ghost use Rattle.lk_lower.specs.Walked.{state_of};
ghost use Rattle.std.specs.Prelude.{◌≡◌, ◌+◌, IfOk, List as TheList, OnOk};

use crate::captured::{kept_by_change, kept_by_query};
use crate::counts::{Counts, count_change, count_query};
use crate::walk::{At, Place, Walk, next_label, push_changing, push_label, take, take_type};
use lk_ast::{ChangeExpr, Expr, List, NoMemory, Text, Word};
use lk_ir::{Block, Kept, Kind, LabelForm, Touched};

/// The label of the node with this place.
fn take_label(at: &At, place: Place, walk: &mut Walk) -> Result<u32, NoMemory>
    ensures label { IfOk result (λ label. label ≡ (state_of walk.old).pending.label) }
    ensures state { OnOk result (state_of walk.new ≡ with_label (block_label at.now.owner place.number place.ty) (state_of walk.old)) }
{
    let label = next_label(walk)?;
    push_label(label_form(at, place), walk)?;
    Ok(label)
}

/// The label of the node with this place, which changes this table.
fn take_label_of(at: &At, place: Place, table: &Text, walk: &mut Walk) -> Result<u32, NoMemory>
    ensures label { IfOk result (λ label. label ≡ (state_of walk.old).pending.label) }
    ensures state { OnOk result (state_of walk.new ≡ with_label (block_label at.now.owner place.number place.ty) (with_table (touched_by table.now (state_of walk.old)) (state_of walk.old))) }
{
    let label = next_label(walk)?;
    let table = table.copy(at.alloc)?;
    push_changing(label_form(at, place), Touched { label, table }, walk)?;
    Ok(label)
}

/// What the node with this place has under its label.
fn label_form(at: &At, place: Place) -> LabelForm
    ensures { result ≡ block_label at.now.owner place.number place.ty }
{
    LabelForm {
        owner: at.owner,
        ty: place.ty,
        node: Some(place.number),
        body: None,
    }
}

/// The reading of a table.
pub fn read(at: &At, place: Place, walk: &mut Walk) -> Result<Kind, NoMemory>
    ensures { IfOk result (λ kind. (t : TheWord) → IsShaped at.now.owner place.number place.ty (Node-F.Table t) (state_of walk.old) kind (state_of walk.new)) }
{
    let label = take_label(at, place, walk)?;
    take_type(walk);
    let kept = List::new(at.alloc);
    Ok(Kind::Reach(Block::TableRead, label, kept))
}

/// An insertion.
pub fn insert(at: &At, place: Place, table: &Word, walk: &mut Walk) -> Result<Kind, NoMemory>
    ensures { IfOk result (λ kind. (e : TheExpr) → IsShaped at.now.owner place.number place.ty (Node-F.Insert table.now e) (state_of walk.old) kind (state_of walk.new)) }
{
    let label = take_label_of(at, place, &table.text, walk)?;
    take_type(walk);
    let kept = List::new(at.alloc);
    Ok(Kind::Reach(Block::Insert, label, kept))
}

/// A query with this body.
pub fn query(at: &At, place: Place, body: &Expr, walk: &mut Walk) -> Result<Kind, NoMemory>
    ensures { IfOk result (λ kind. (keys : TheList TheSortKey) → IsShaped at.now.owner place.number place.ty (Node-F.Query keys body.now) (state_of walk.old) kind (state_of walk.new)) }
{
    let kept = kept_by_query(at.alloc, body, walk)?;
    let inside = count_query(at.alloc, body)?;
    let label = take_label(at, place, walk)?;
    Ok(reach(Block::Query, label, kept, inside, walk)?)
}

/// An update or a deletion.
pub fn change(
    at: &At,
    place: Place,
    block: Block,
    rows: &ChangeExpr,
    walk: &mut Walk,
) -> Result<Kind, NoMemory>
    ensures { IfOk result (λ kind. IsChange at.now.owner place.number place.ty block rows.now (state_of walk.old) kind (state_of walk.new)) }
{
    let kept = kept_by_change(at.alloc, rows, walk)?;
    let inside = count_change(at.alloc, rows)?;
    let label = take_label_of(at, place, &rows.table.text, walk)?;
    Ok(reach(block, label, kept, inside, walk)?)
}

/// What has this label, captures these names and has so much in it.
fn reach(
    block: Block,
    label: u32,
    kept: List<Kept>,
    inside: Counts,
    walk: &mut Walk,
) -> Result<Kind, NoMemory>
    ensures kind { IfOk result (λ made. made ≡ kind.Reach block label kept) }
    ensures state { OnOk result (state_of walk.new ≡ past (1 + inside.nodes) inside.uses (state_of walk.old)) }
{
    let types = 1usize.checked_add(inside.nodes).ok_or(NoMemory)?;
    take(walk, types, inside.uses);
    Ok(Kind::Reach(block, label, kept))
}
