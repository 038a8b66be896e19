//! What a node itself looks up.

ghost use Rattle.lk_cps.specs.Live.{IsTypeUnder, LiveCaptured, LiveItself, LiveKept, Puts};
ghost use Rattle.lk_ir.specs.Tables.{body_at, form_at};
ghost use Rattle.lk_ir.specs.declared.nodes.Forms.{Forms as TheForms};
ghost use Rattle.std.specs.Option.{option_copied};
ghost use Rattle.std.specs.Prelude.{◌≡◌, ℕ, [], IfOk, Some};

use crate::live::Live;
use crate::table::Table;
use lk_ast::NoMemory;
use lk_ir::{Body, Form, Forms, Kept, Kind};
use std::alloc::Global;

/// The names that a node itself looks up.
pub fn own_names(alloc: Global, table: &Table, form: &Form) -> Result<Live, NoMemory>
    requires { (n : ℕ) × (form_at table.now n ≡ Some form.now) }
    ensures { IfOk result (LiveItself table.now form.now) }
{
    match &form.kind {
        Kind::Name(name) => one(alloc, *name, form.ty),
        Kind::Lambda(label, names) => captured(alloc, table, *label, names.as_slice()),
        Kind::Reach(_, _, kept) => kept_names(alloc, kept.as_slice()),
        Kind::Op(_)
        | Kind::Function(_)
        | Kind::Call(_)
        | Kind::Apply
        | Kind::Bind(_)
        | Kind::Then
        | Kind::Choose(_)
        | Kind::Print
        | Kind::Switch(_, _)
        | Kind::For(_) => Ok(Live::new(alloc)),
    }
}

/// This name alone.
fn one(alloc: Global, name: u32, ty: u32) -> Result<Live, NoMemory>
    ensures { IfOk result (Puts [] name ty) }
{
    let mut live = Live::new(alloc);
    live.put(name, ty)?;
    Ok(live)
}

/// What reads or changes tables captures.
fn kept_names(alloc: Global, kept: &[Kept]) -> Result<Live, NoMemory>
    ensures { IfOk result (λ live. (f : TheForms) → LiveKept f kept.now live) }
{
    let mut live = Live::new(alloc);
    for i in (0..kept.len()).rev() {
        let one = kept[i];
        live.put(one.name, one.ty)?;
    }
    Ok(live)
}

/// What a lambda captures.
fn captured(alloc: Global, table: &Table, label: u32, names: &[u32]) -> Result<Live, NoMemory>
    ensures { IfOk result (LiveCaptured table.now label names.now) }
{
    let mut live = Live::new(alloc);
    for i in (0..names.len()).rev() {
        let name = names[i];
        let ty = captured_type(table, label, name)?;
        live.put(name, ty)?;
    }
    Ok(live)
}

/// The number of the type of a name that the body with this label captures, 0 where there is none.
fn captured_type(table: &Table, label: u32, name: u32) -> Result<u32, NoMemory>
    ensures { IfOk result (IsTypeUnder table.now label name) }
{
    match body_at(table.forms(), label) {
        Some(body) => table.type_of(body.root, name),
        None => Ok(0),
    }
}

/// The body that has this label.
fn body_at(forms: &Forms, label: u32) -> Option<&Body>
    ensures { option_copied result ≡ body_at forms.now label }
{
    forms.labels.get(label as usize)?.body.as_ref()
}
