//! Blocks that were entered on a walk, one in another.

ghost use Rattle.lk_types.specs.declared.ty.Ty.TheVariants as ty;
ghost use Rattle.lk_walk.specs.Blocks.{begun as begun_by, block_left, block_of, blocks_left};
ghost use Rattle.std.specs.Option.{option_copied};
ghost use Rattle.std.specs.Prelude.{◌≡◌, IfOk, OnOk};

use crate::walker::Walker;
use lk_ast::{List, NoMemory, Span, Word};
use lk_equations::{Own, one, only, same, unit};
use lk_types::{Side, Ty};
use std::alloc::Global;

/// A block that was entered: its place in the text and among the nodes, and the number of the variable for the type of its
/// first expression, unless that has a name.
#[derive(Drop)]
pub struct Block {
    pub span: Span,
    pub slot: usize,
    pub first: Option<u32>,
}

/// A block whose first expression was walked through. The rest of it sees the name of that, if it has one.
pub fn begin<'p>(
    walker: &mut Walker<'p>,
    span: Span,
    slot: usize,
    name: Option<&'p Word>,
    first: u32,
) -> Result<Block, NoMemory>
    ensures begun { OnOk result (walker.new ≡ begun_by (option_copied name.entry) first walker.old) }
    ensures block { IfOk result (λ block. block ≡ block_of span slot (option_copied name.entry) first) }
{
    match name {
        None => Ok(Block {
            span,
            slot,
            first: Some(first),
        }),
        Some(name) => {
            walker.names.push(name.text.as_str(), Ty::Var(first))?;
            Ok(Block {
                span,
                slot,
                first: None,
            })
        }
    }
}

/// Leaves a block whose rest has the type of that number. The answer is the number for its own type.
fn end(alloc: Global, walker: &mut Walker, block: Block, number: u32) -> Result<u32, NoMemory>
    ensures left { OnOk result (walker.new ≡ block_left block (ty.Var number) walker.old) }
    ensures number { IfOk result (λ made. made ≡ walker.old.next) }
{
    match block.first {
        None => {
            walker.names.pop();
            let own = only(alloc, Ty::Var(number), walker.next);
            walker.leave(alloc, block.span, block.slot, own)
        }
        Some(first) => {
            let own = Own {
                ty: Side::of(Ty::Var(number)),
                equations: one(alloc, same(Ty::Var(first), unit(alloc)))?,
                next: walker.next,
            };
            walker.leave(alloc, block.span, block.slot, own)
        }
    }
}

/// Leaves blocks, the last one first, where what stands behind all of them has the type of that number.
pub fn end_all(
    alloc: Global,
    walker: &mut Walker,
    blocks: List<Block>,
    number: u32,
) -> Result<u32, NoMemory>
    ensures { IfOk result (λ made. (walker.new, ty.Var made) ≡ blocks_left blocks (ty.Var number) walker.old) }
{
    let mut blocks = blocks;
    let mut number = number;
    while let Some(block) = blocks.pop() {
        number = end(alloc, walker, block, number)?;
    }
    Ok(number)
}
