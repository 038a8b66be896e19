//! The lines of labels and of frames.

ghost use Rattle.lk_listing.specs.Listing.{frame_lines, fun_lines, label_lines};
ghost use Rattle.std.specs.Prelude.{◌≡◌, ◌+◌, ◌++◌, IfOk, OnOk, drop};

use crate::lines::{line_of_frame, line_of_fun};
use crate::types::add;
use lk_ast::{NoMemory, Text};
use lk_code::{CodeTables, FrameInfo, FunInfo};
use std::alloc::Global;

/// A line for each label in the order of their numbers, and then one for each frame that is no return. `NoMemory` also where they have
/// more than 64 MiB.
pub fn print_labels(alloc: Global, tables: &CodeTables) -> Result<Text, NoMemory>
    ensures { IfOk result (λ text. text ≡ label_lines tables.now) }
{
    let mut text = Text::new(alloc);
    let first = tables.funs.len();
    write_funs(alloc, &mut text, tables.funs.as_slice())?;
    write_frames(
        alloc,
        &mut text,
        first,
        behind(tables.frames.as_slice(), first),
    )?;
    Ok(text)
}

/// Those behind so many.
fn behind(frames: &[FrameInfo], count: usize) -> &[FrameInfo]
    ensures { result.now ≡ drop count frames.now }
{
    if count <= frames.len() {
        &frames[count..]
    } else {
        &[]
    }
}

#[tactic(auto, using(lk_types::proofs::Lists::texts_both))]
fn write_funs(alloc: Global, text: &mut Text, funs: &[FunInfo]) -> Result<(), NoMemory>
    ensures { OnOk result (text.new ≡ text.old ++ fun_lines 0 funs.now) }
{
    let mut number: usize = 0;
    for info in funs {
        let line = line_of_fun(alloc, number, info)?;
        add(text, line.as_str())?;
        number = number.checked_add(1).ok_or(NoMemory)?;
    }
    Ok(())
}

/// Those of frames from this number on.
#[tactic(auto, using(lk_types::proofs::Lists::texts_both))]
fn write_frames(
    alloc: Global,
    text: &mut Text,
    first: usize,
    frames: &[FrameInfo],
) -> Result<(), NoMemory>
    ensures { OnOk result (text.new ≡ text.old ++ frame_lines first frames.now) }
{
    let mut number = first;
    for info in frames {
        let line = line_of_frame(alloc, number, info)?;
        add(text, line.as_str())?;
        number = number.checked_add(1).ok_or(NoMemory)?;
    }
    Ok(())
}
