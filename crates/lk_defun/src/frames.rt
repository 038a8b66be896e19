//! Frames by their numbers.

ghost use Rattle.lk_defun.specs.Numbers.{cont_in, frame_at, frame_in, return_at, returns_from, title_of};
ghost use Rattle.std.specs.Option.{option_copied};
ghost use Rattle.std.specs.Prelude.{◌≡◌, ◌++◌, IfOk, Some, map};

use crate::funs::{owner_in, title};
use crate::positions::position_types;
use crate::words::node_word;
use lk_ast::{List, NoMemory, Text};
use lk_code::{FrameInfo, FunInfo, Home};
use lk_ground_types::share_type;
use lk_ir::{Cont, Conts, CpsProgram, Form, Forms};
use std::alloc::Global;

/// The returns of these functions, and behind them the frames of these positions.
pub fn all_frames(
    alloc: Global,
    p: &CpsProgram,
    funs: &[FunInfo],
    homes: &[Home],
) -> Result<List<FrameInfo>, NoMemory>
    ensures { IfOk result (λ frames. map Some frames ≡ returns_from p.now.forms 0 funs.now ++ map (frame_at p.now funs.now) homes.now) }
{
    let mut frames = returns(alloc, p.forms.get(), funs)?;
    for home in homes {
        frames.push(frame_at(alloc, p, funs, home)?)?;
    }
    Ok(frames)
}

/// The returns of these functions.
fn returns(alloc: Global, forms: &Forms, funs: &[FunInfo]) -> Result<List<FrameInfo>, NoMemory>
    ensures { IfOk result (λ frames. map Some frames ≡ returns_from forms.now 0 funs.now) }
{
    let mut frames = List::new(alloc);
    let mut label: u32 = 0;
    for fun in funs {
        frames.push(return_at(alloc, forms, label, fun)?)?;
        label = label.checked_add(1).ok_or(NoMemory)?;
    }
    Ok(frames)
}

/// The return of a label.
fn return_at(alloc: Global, forms: &Forms, label: u32, fun: &FunInfo) -> Result<FrameInfo, NoMemory>
    ensures { IfOk result (λ info. return_at forms.now label fun.now ≡ Some info) }
{
    match forms.labels.get(label as usize) {
        Some(form) => Ok(FrameInfo {
            owner: owner_in(alloc, forms, form, fun.kind)?,
            place: fun.place,
            node: Text::from_str(alloc, "return")?,
            position: 0,
            env: List::new(alloc),
            hole: share_type(&fun.result)?,
            result: share_type(&fun.result)?,
        }),
        None => Err(NoMemory),
    }
}

/// The frame of a position.
fn frame_at(
    alloc: Global,
    p: &CpsProgram,
    funs: &[FunInfo],
    home: &Home,
) -> Result<FrameInfo, NoMemory>
    ensures { IfOk result (λ info. frame_at p.now funs.now home.now ≡ Some info) }
{
    let forms = p.forms.get();
    match (
        forms.nodes.get(home.node as usize),
        cont_in(p.conts.get(), home),
    ) {
        (Some(form), Some(cont)) => frame_in(alloc, forms, funs, form, home.position, cont),
        _ => Err(NoMemory),
    }
}

/// The continuation of a position.
fn cont_in<'c>(all: &'c List<Conts>, home: &Home) -> Option<&'c Cont>
    ensures { option_copied result ≡ cont_in all.now home.now }
{
    match all.get(home.node as usize) {
        Some(conts) => match conts.of.get(home.position as usize) {
            Some(Some(cont)) => Some(cont),
            _ => None,
        },
        None => None,
    }
}

/// The frame of a position of this node.
fn frame_in(
    alloc: Global,
    forms: &Forms,
    funs: &[FunInfo],
    form: &Form,
    position: u32,
    cont: &Cont,
) -> Result<FrameInfo, NoMemory>
    ensures { IfOk result (λ info. frame_in forms.now funs.now form.now position cont.now ≡ Some info) }
{
    match funs.get(form.within as usize) {
        Some(within) => {
            let number = position.checked_add(1).ok_or(NoMemory)?;
            let owner = title_of(alloc, forms, form.within)?;
            let node = Text::from_str(alloc, node_word(&form.kind))?;
            let types = position_types(alloc, forms, form, position, cont)?;
            Ok(types.frame(owner, within.place, node, number))
        }
        None => Err(NoMemory),
    }
}

/// The name of the instance in which what has this label stands.
fn title_of(alloc: Global, forms: &Forms, label: u32) -> Result<Text, NoMemory>
    ensures { IfOk result (λ title. title_of forms.now label ≡ Some title) }
{
    match forms.labels.get(label as usize) {
        Some(form) => title(alloc, forms, form.owner),
        None => Err(NoMemory),
    }
}
