//! Types of positions.

ghost use Rattle.lk_code.specs.Sound.{held_types, hole_type};
ghost use Rattle.lk_code.specs.Tables.{type_at};
ghost use Rattle.lk_code.specs.Told.{node_types};
ghost use Rattle.lk_defun.specs.Numbers.{position_types};
ghost use Rattle.std.specs.Option.{option_and_then, option_copied, option_map};
ghost use Rattle.std.specs.Prelude.{◌≡◌, ◌++◌, ◌∷◌, IfOk, Some, slice_get};

use crate::types::{node_type, node_types, push_kept, push_nodes, type_at};
use lk_ast::{List, Loc, NoMemory, Text};
use lk_code::FrameInfo;
use lk_ir::{Cont, Form, Forms};
use lk_types::Ground;
use std::alloc::Global;

/// The types of the values that a frame holds, of the value that it waits for, and of what it comes to.
pub struct PositionTypes {
    pub env: List<Ground>,
    pub hole: Ground,
    pub result: Ground,
}

impl Drop for PositionTypes {
    fn drop(self) {
        let Self {
            env: _,
            hole: _,
            result: _,
        } = self;
    }
}

impl PositionTypes {
    /// The frame of this position with these types.
    pub fn frame(self, owner: Text, place: Loc, node: Text, position: u32) -> FrameInfo
        ensures { result ≡ record { owner = owner; place = place; node = node; position = position; env = self.env; hole = self.hole; result = self.result } }
    {
        let Self { env, hole, result } = self;
        FrameInfo {
            owner,
            place,
            node,
            position,
            env,
            hole,
            result,
        }
    }
}

/// The types of a frame at this position of a node.
#[tactic(auto, using(crate::proofs::Added::all_are))]
pub fn position_types(
    alloc: Global,
    forms: &Forms,
    form: &Form,
    position: u32,
    cont: &Cont,
) -> Result<PositionTypes, NoMemory>
    ensures { IfOk result (λ types. position_types forms.now form.now position cont.now ≡ Some types) }
{
    let mut env = held_types(alloc, forms, form, position)?;
    push_kept(&mut env, forms, cont.keeps.as_slice())?;
    let hole = hole_type(forms, form, position)?;
    Ok(PositionTypes {
        env,
        hole,
        result: type_at(forms, form.ty)?,
    })
}

/// The types of the values that it holds before those that are kept: of earlier positions, or, behind them all, of the list made so far
/// and of the elements left.
fn held_types(
    alloc: Global,
    forms: &Forms,
    form: &Form,
    position: u32,
) -> Result<List<Ground>, NoMemory>
    ensures { IfOk result (λ held. held_types forms.now form.now position ≡ Some held) }
{
    let parts = form.parts.as_slice();
    let place = position as usize;
    if place < parts.len() {
        node_types(alloc, forms, &parts[..place])
    } else {
        turn_types(alloc, forms, form)
    }
}

/// The type of the node, and those of its positions.
#[tactic(auto, using(crate::proofs::Added::one_and_added))]
fn turn_types(alloc: Global, forms: &Forms, form: &Form) -> Result<List<Ground>, NoMemory>
    ensures { IfOk result (λ held. option_and_then (λ t. option_map (λ ts. t ∷ ts) (node_types forms.now form.now.parts)) (type_at forms.now form.now.ty) ≡ Some held) }
{
    let mut held = List::new(alloc);
    held.push(type_at(forms, form.ty)?)?;
    push_nodes(&mut held, forms, form.parts.as_slice())?;
    Ok(held)
}

/// The type of the child at a position, or of the first tail behind them all.
fn hole_type(forms: &Forms, form: &Form, position: u32) -> Result<Ground, NoMemory>
    ensures { IfOk result (λ hole. hole_type forms.now form.now position ≡ Some hole) }
{
    match child_at(form, position as usize) {
        Some(child) => node_type(forms, *child),
        None => Err(NoMemory),
    }
}

/// The position with this number, or a tail behind them all.
#[tactic(auto, using(crate::proofs::Lists::in_front, crate::proofs::Lists::behind))]
fn child_at(form: &Form, position: usize) -> Option<&u32>
    ensures { option_copied result ≡ slice_get (form.now.parts ++ form.now.tails) position }
{
    let count = form.parts.len();
    if position < count {
        form.parts.get(position)
    } else {
        form.tails.get(position - count)
    }
}
