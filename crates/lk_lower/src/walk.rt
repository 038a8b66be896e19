//! What a walk over bodies has made so far, what is still to come, and its steps.

ghost use Rattle.lk_ir.specs.declared.nodes.Form.{Form as TheForm};
ghost use Rattle.lk_lower.specs.Steps.{IsOwnType, IsType, Learns, past, with_form, with_label, with_node, with_table};
ghost use Rattle.lk_lower.specs.Walked.{state_of};
ghost use Rattle.std.specs.Prelude.{◌≡◌, ◌<◌, Some, drop, length, slice_get, IfOk, OnOk};

use crate::labels::Labels;
use crate::type_table::TypeTable;
use lk_ast::{List, NoMemory, Span, Text};
use lk_ir::{Form, Kind, LabelForm, Touched};
use lk_types::Ground;
use std::alloc::Global;

/// Where a walk stands: in which instance, and the label of the innermost function around.
#[derive(Clone, Copy)]
pub struct At {
    pub alloc: Global,
    pub owner: u32,
    pub within: u32,
}

/// What a walk has made so far, and what is still to come in the instance. The next label and the number of the next node are those
/// behind the labels and nodes that there are.
#[derive(Drop)]
pub struct Walk<'w> {
    pub locals: &'w [Text],
    pub nodes: Vec<Form>,
    pub labels: Labels,
    pub types: TypeTable,
    /// The types of the nodes from the next one on, in text order.
    pub types_left: &'w [Ground],
    /// What the uses from here on call, in text order.
    pub calls_left: &'w [u32],
}

/// The type and the number of a node, whose place is kept for it.
#[derive(Clone, Copy)]
pub struct Place {
    pub number: u32,
    pub ty: u32,
}

/// The number of the next node.
pub fn next_number(walk: &Walk) -> Result<u32, NoMemory>
    ensures { IfOk result (λ number. number ≡ (state_of walk.now).pending.next) }
{
    u32::try_from(walk.nodes.len()).map_err(|_| NoMemory)
}

/// The next label.
pub fn next_label(walk: &Walk) -> Result<u32, NoMemory>
    ensures { IfOk result (λ label. label ≡ (state_of walk.now).pending.label) }
{
    u32::try_from(walk.labels.len()).map_err(|_| NoMemory)
}

/// What is behind so many types.
fn types_behind(types: &[Ground], count: usize) -> &[Ground]
    ensures { result.now ≡ drop count types.now }
{
    if count < types.len() {
        &types[count..]
    } else {
        &[]
    }
}

/// What is behind so many calls.
fn calls_behind(calls: &[u32], count: usize) -> &[u32]
    ensures { result.now ≡ drop count calls.now }
{
    if count < calls.len() {
        &calls[count..]
    } else {
        &[]
    }
}

/// Goes behind so many types and so many calls.
pub fn take(walk: &mut Walk, types: usize, calls: usize)
    ensures { state_of walk.new ≡ past types calls (state_of walk.old) }
{
    walk.types_left = types_behind(walk.types_left, types);
    walk.calls_left = calls_behind(walk.calls_left, calls);
}

/// Goes behind a type.
pub fn take_type(walk: &mut Walk)
    ensures { state_of walk.new ≡ past 1 0 (state_of walk.old) }
{
    take(walk, 1, 0);
}

/// Goes behind a type and a call, which is answered. `NoMemory` where there is none, which isn't so in a program.
pub fn take_use(walk: &mut Walk) -> Result<u32, NoMemory>
    ensures call { IfOk result (λ call. slice_get (state_of walk.old).pending.calls 0 ≡ Some call) }
    ensures state { OnOk result (state_of walk.new ≡ past 1 1 (state_of walk.old)) }
{
    let Some(call) = walk.calls_left.first().copied() else {
        return Err(NoMemory);
    };
    take(walk, 1, 1);
    Ok(call)
}

/// The number of a type.
pub fn type_number(ty: &Ground, walk: &mut Walk) -> Result<u32, NoMemory>
    ensures is { IfOk result (λ number. IsType (state_of walk.new) number ty.now) }
    ensures state { Learns (state_of walk.old) (state_of walk.new) }
{
    walk.types.number(ty)
}

/// The number of the next type. `NoMemory` where there is none, which isn't so in a program.
pub fn own_type(walk: &mut Walk) -> Result<u32, NoMemory>
    ensures is { IfOk result (λ number. IsOwnType (state_of walk.old).pending (state_of walk.new) number) }
    ensures state { Learns (state_of walk.old) (state_of walk.new) }
{
    let left = walk.types_left;
    let Some(ty) = left.first() else {
        return Err(NoMemory);
    };
    Ok(type_number(ty, walk)?)
}

/// What has the next label.
pub fn push_label(form: LabelForm, walk: &mut Walk) -> Result<(), NoMemory>
    ensures { OnOk result (state_of walk.new ≡ with_label form (state_of walk.old)) }
{
    walk.labels.push(form)?;
    Ok(())
}

/// What has the next label, and the table that it changes.
pub fn push_changing(form: LabelForm, table: Touched, walk: &mut Walk) -> Result<(), NoMemory>
    requires { table.label ≡ (state_of walk.old).pending.label }
    ensures { OnOk result (state_of walk.new ≡ with_label form (with_table table (state_of walk.old))) }
{
    walk.labels.push_beside(form, table)?;
    Ok(())
}

/// The next node.
pub fn push_node(form: Form, walk: &mut Walk) -> Result<(), NoMemory>
    ensures { OnOk result (state_of walk.new ≡ with_node form (state_of walk.old)) }
{
    walk.nodes.push(form)?;
    Ok(())
}

/// Keeps the place of the next node, whose kind and children aren't known yet.
pub fn keep_place(at: &At, span: Span, ty: u32, walk: &mut Walk) -> Result<(), NoMemory>
    ensures { OnOk result ((hole : TheForm) × (state_of walk.new ≡ with_node hole (state_of walk.old))) }
{
    let hole = Form {
        at: span,
        within: at.within,
        kind: Kind::Then,
        parts: List::new(at.alloc),
        tails: List::new(at.alloc),
        ty,
    };
    push_node(hole, walk)
}

/// Gives a node its form.
pub fn fill_place(number: u32, form: Form, walk: &mut Walk)
    requires { number < length walk.old.nodes.items }
    ensures { state_of walk.new ≡ with_form (state_of walk.old) number form }
{
    walk.nodes[number as usize] = form;
}
