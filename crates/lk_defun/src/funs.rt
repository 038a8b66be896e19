//! Functions by their labels.

ghost use Rattle.lk_defun.specs.Numbers.{fun_at, funs_from, kind_by, kind_in, name_in, owner_in, place_in};
ghost use Rattle.lk_ir.specs.Tables.{form_at};
ghost use Rattle.lk_ir.specs.declared.nodes.Form.{Form};
ghost use Rattle.std.specs.Option.{option_and_then};
ghost use Rattle.std.specs.Prelude.{◌≡◌, IfOk, Some, map, slice_get};

use crate::told::told_at;
use crate::words::suffix;
use lk_ast::{List, Loc, NoMemory, Text};
use lk_code::{FunInfo, FunKind};
use lk_ir::{Block, Body, CpsProgram, Forms, Kind, LabelForm};
use std::alloc::Global;

/// What is told of all labels, in their order.
pub fn all_funs(alloc: Global, p: &CpsProgram) -> Result<List<FunInfo>, NoMemory>
    ensures { IfOk result (λ funs. map Some funs ≡ funs_from p.now 0 p.now.forms.labels) }
{
    let mut funs = List::new(alloc);
    let mut label: u32 = 0;
    for form in p.forms.get().labels.as_slice() {
        funs.push(fun_at(alloc, p, label, form)?)?;
        label = label.checked_add(1).ok_or(NoMemory)?;
    }
    Ok(funs)
}

/// What is told of a label.
fn fun_at(alloc: Global, p: &CpsProgram, label: u32, form: &LabelForm) -> Result<FunInfo, NoMemory>
    ensures { IfOk result (λ info. fun_at p.now label form.now ≡ Some info) }
{
    let Some(kind) = kind_in(p.forms.get(), form) else {
        return Err(NoMemory);
    };
    let name = name_in(alloc, p.forms.get(), form, kind)?;
    let signature = told_at(alloc, p, label, form)?;
    Ok(signature.of(name, kind, place_in(kind, &form.body)))
}

/// What has a label; none where that is a node of another kind, which isn't so in a program.
fn kind_in(forms: &Forms, form: &LabelForm) -> Option<FunKind>
    ensures { result ≡ kind_in forms.now form.now.node form.now.body }
{
    match (form.node, &form.body) {
        (None, None) => Some(FunKind::Print),
        (None, Some(_)) => Some(FunKind::Top),
        (Some(_), Some(_)) => Some(FunKind::Lambda),
        (Some(node), None) => node_kind(forms, node),
    }
}

/// What has a label and no body, by its node.
fn node_kind(forms: &Forms, node: u32) -> Option<FunKind>
    ensures { result ≡ option_and_then (λ (form : Form). kind_by form.kind) (form_at forms.now node) }
{
    match forms.nodes.get(node as usize) {
        Some(form) => kind_by(&form.kind),
        None => None,
    }
}

fn kind_by(kind: &Kind) -> Option<FunKind>
    ensures { result ≡ kind_by kind.now }
{
    match kind {
        Kind::Reach(Block::Query, _, _) => Some(FunKind::Query),
        Kind::Reach(Block::TableRead, _, _) => Some(FunKind::TableRead),
        Kind::Reach(Block::Insert, _, _) => Some(FunKind::Insert),
        Kind::Reach(Block::Update, _, _) => Some(FunKind::Update),
        Kind::Reach(Block::Delete, _, _) => Some(FunKind::Delete),
        _ => None,
    }
}

/// Where it runs.
fn place_in(kind: FunKind, body: &Option<Body>) -> Loc
    ensures { result ≡ place_in kind body.now }
{
    match (body, kind) {
        (Some(body), _) => body.place,
        (None, FunKind::Print) => Loc::Client,
        (None, _) => Loc::Server,
    }
}

/// The name of what has a label.
fn name_in(alloc: Global, forms: &Forms, form: &LabelForm, kind: FunKind) -> Result<Text, NoMemory>
    ensures { IfOk result (λ name. name_in forms.now form.now kind ≡ Some name) }
{
    let mut name = owner_in(alloc, forms, form, kind)?;
    name.push(suffix(kind))?;
    Ok(name)
}

/// The name of the instance that has the label, or inside which it stands.
pub fn owner_in(
    alloc: Global,
    forms: &Forms,
    form: &LabelForm,
    kind: FunKind,
) -> Result<Text, NoMemory>
    ensures { IfOk result (λ owner. owner_in forms.now form.now kind ≡ Some owner) }
{
    match kind {
        FunKind::Print => Text::from_str(alloc, "print"),
        FunKind::Top
        | FunKind::Lambda
        | FunKind::Query
        | FunKind::TableRead
        | FunKind::Insert
        | FunKind::Update
        | FunKind::Delete => title(alloc, forms, form.owner),
    }
}

/// The name of an instance.
pub fn title(alloc: Global, forms: &Forms, instance: u32) -> Result<Text, NoMemory>
    ensures { IfOk result (λ title. slice_get forms.now.titles instance ≡ Some title) }
{
    match forms.titles.get(instance as usize) {
        Some(title) => title.copy(alloc),
        None => Err(NoMemory),
    }
}
