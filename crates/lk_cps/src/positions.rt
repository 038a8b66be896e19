//! What the continuations of a node's positions keep, from the last to the first.

ghost use Rattle.lk_cps.specs.Live.{IsContOf, LiveBehind};
ghost use Rattle.lk_cps.specs.Steps.{HasLooked, LooksAt};
ghost use Rattle.lk_ir.specs.LetNormal.{plain_in};
ghost use Rattle.lk_ir.specs.Operations.{is_plain};
ghost use Rattle.lk_ir.specs.Tables.{form_at};
ghost use Rattle.lk_ir.specs.Uses.{turned};
ghost use Rattle.std.specs.Prelude.{◌≡◌, [], IfOk};

use crate::live::Live;
use crate::table::Table;
use lk_ast::{List, NoMemory};
use lk_ir::{Cont, Form, Forms, Kind, Op};
use std::alloc::Global;

/// The continuations of some last positions, the last one first, whose places in the order aren't known yet; and the names that
/// are used from there on.
#[derive(Drop)]
pub struct Looked {
    pub of: List<Option<Cont>>,
    pub live: Live,
}

/// Whether a node has a value without a step.
fn is_plain(forms: &Forms, node: u32) -> bool
    ensures { result ≡ plain_in forms.now (form_at forms.now node) }
{
    match forms.nodes.get(node as usize) {
        Some(form) => has_value(&form.kind),
        None => false,
    }
}

/// Whether nodes of this kind have a value without a step.
fn has_value(kind: &Kind) -> bool
    ensures { result ≡ is_plain kind.now }
{
    match kind {
        Kind::Op(op) => matches!(op, Op::Int(_) | Op::Text(_) | Op::Bool(_)),
        Kind::Name(_) | Kind::Function(_) | Kind::Lambda(_, _) => true,
        Kind::Call(_)
        | Kind::Apply
        | Kind::Bind(_)
        | Kind::Then
        | Kind::Choose(_)
        | Kind::Print
        | Kind::Switch(_, _)
        | Kind::For(_)
        | Kind::Reach(_, _, _) => false,
    }
}

/// The body of a `for`.
fn turned(form: &Form) -> Option<u32>
    ensures { result ≡ turned form.now.kind form.now.tails }
{
    match (&form.kind, form.tails.as_slice()) {
        (Kind::For(_), [body]) => Some(*body),
        _ => None,
    }
}

/// The continuation of what is at this node, if it has one. `NoMemory` also where there is no more room for the names that it keeps.
fn cont_of(
    alloc: Global,
    forms: &Forms,
    node: u32,
    live: &Live,
    room: &mut usize,
) -> Result<Option<Cont>, NoMemory>
    ensures { IfOk result (IsContOf forms.now node live.now) }
{
    if is_plain(forms, node) {
        return Ok(None);
    }
    *room = room.checked_sub(live.len()).ok_or(NoMemory)?;
    let keeps = live.kept(alloc)?;
    Ok(Some(Cont { order: 0, keeps }))
}

/// Behind all positions: the continuation of the body of a `for`.
fn look_behind(
    alloc: Global,
    forms: &Forms,
    form: &Form,
    room: &mut usize,
    live: Live,
) -> Result<Looked, NoMemory>
    requires { LiveBehind forms.now form.now [] live }
    ensures { IfOk result (HasLooked forms.now form.now []) }
{
    let mut of = List::new(alloc);
    match turned(form) {
        Some(body) => {
            let cont = cont_of(alloc, forms, body, &live, room)?;
            of.push(cont)?;
            Ok(Looked { of, live })
        }
        None => Ok(Looked { of, live }),
    }
}

/// A position before those that have been looked at.
fn look_at(
    alloc: Global,
    table: &mut Table,
    node: u32,
    room: &mut usize,
    looked: Looked,
) -> Result<Looked, NoMemory>
    ensures table { table.new ≡ table.old }
    ensures step { IfOk result (LooksAt table.old node looked) }
{
    let Looked { mut of, live } = looked;
    let cont = cont_of(alloc, table.forms(), node, &live, room)?;
    of.push(cont)?;
    let names = table.take(node)?;
    let both = names.join(live)?;
    Ok(Looked { of, live: both })
}

/// All positions of a node, behind which these names are used.
pub fn look(
    alloc: Global,
    table: &mut Table,
    form: &Form,
    room: &mut usize,
    live: Live,
) -> Result<Looked, NoMemory>
    requires { LiveBehind table.old form.now [] live }
    ensures table { table.new ≡ table.old }
    ensures looked { IfOk result (HasLooked table.old form.now form.now.parts) }
{
    let mut looked = look_behind(alloc, table.forms(), form, room, live)?;
    for i in (0..form.parts.len()).rev() {
        looked = look_at(alloc, table, *form.parts.at(i), room, looked)?;
    }
    Ok(looked)
}
