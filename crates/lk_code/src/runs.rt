//! What a place can run.

ghost use Rattle.lk_code.specs.Running.{FramesRun, HasCode, HasHome, IsInBody, LabelsRun, RunsAt, is_at, is_code};
ghost use Rattle.lk_code.specs.Tables.{block_at, cont_at};
ghost use Rattle.std.specs.Option.{option_copied};
ghost use Rattle.std.specs.Prelude.{◌≡◌, ◌↔◌, IsSome, IsTrue, true};

use crate::code::Code;
use crate::infos::{FunInfo, FunKind};
use crate::look::{body_at, body_of, cont_at, form_at, home_in};
use crate::tables::{BlockCode, Home};
use lk_ast::Loc;

/// Whether all is there that a place runs: the bodies of the functions of this place, and of those without one; at the server what reads
/// and changes tables; and for each frame of these places that is no return a position in such a body. Takes no memory.
pub fn runs_at(c: &Code, place: Loc) -> bool
    ensures { IsTrue result ↔ RunsAt c.now place }
{
    labels_run_at(c, place) && frames_run_at(c, place)
}

/// Whether each label of this place has what it runs.
fn labels_run_at(c: &Code, place: Loc) -> bool
    ensures { IsTrue result ↔ LabelsRun c.now place }
{
    for (label, info) in c.tables().funs.as_slice().iter().enumerate() {
        if !label_runs(c, place, label, info) {
            return false;
        }
    }
    true
}

/// Whether the label has what it runs, if it is of this place.
fn label_runs(c: &Code, place: Loc, label: usize, info: &FunInfo) -> bool
    ensures { IsTrue result ↔ (is_at info.now.place place ≡ true → HasCode c.now label info.now.kind) }
{
    !is_at(info.place, place) || has_code(c, label, info.kind)
}

/// Whether each frame of this place that is no return has a home.
fn frames_run_at(c: &Code, place: Loc) -> bool
    ensures { IsTrue result ↔ FramesRun c.now place }
{
    let first = c.tables().funs.len();
    for (number, info) in c.tables().frames.as_slice().iter().enumerate() {
        if first <= number && is_at(info.place, place) && !has_home(c, number) {
            return false;
        }
    }
    true
}

/// Whether what has this mark runs at the place.
pub fn is_at(mark: Loc, place: Loc) -> bool
    ensures { result ≡ is_at mark place }
{
    match (mark, place) {
        (Loc::Any, _) | (Loc::Client, Loc::Client) | (Loc::Server, Loc::Server) => true,
        _ => false,
    }
}

/// Whether what a label of this kind runs is there.
fn has_code(c: &Code, label: usize, kind: FunKind) -> bool
    ensures { IsTrue result ↔ HasCode c.now label kind }
{
    match kind {
        FunKind::Print => true,
        FunKind::Top | FunKind::Lambda => body_of(c.tables().forms.get(), label).is_some(),
        FunKind::Query | FunKind::TableRead | FunKind::Insert | FunKind::Update | FunKind::Delete =>
            is_code(kind, block_at(c, label)),
    }
}

/// Whether it is what a label of this kind runs.
fn is_code(kind: FunKind, block: Option<&BlockCode>) -> bool
    ensures { result ≡ is_code kind (option_copied block.entry) }
{
    match (kind, block) {
        (FunKind::Query | FunKind::TableRead, Some(BlockCode::Select(_))) => true,
        (FunKind::Insert, Some(BlockCode::Insert(_))) => true,
        (FunKind::Update, Some(BlockCode::Update(_, _))) => true,
        (FunKind::Delete, Some(BlockCode::Delete(_, _))) => true,
        _ => false,
    }
}

/// What this label runs at the server, if it is there.
fn block_at(c: &Code, label: usize) -> Option<&BlockCode>
    ensures { option_copied result ≡ block_at c.now label }
{
    match c.blocks().get(label) {
        Some(Some(block)) => Some(block),
        _ => None,
    }
}

/// Whether the frame is that of a position in a body that is there.
fn has_home(c: &Code, number: usize) -> bool
    ensures { IsTrue result ↔ HasHome c.now number }
{
    match home_in(c.tables(), number) {
        Some(home) => has_position(c, home) && is_in_body(c, home),
        None => false,
    }
}

/// Whether the position has a continuation.
fn has_position(c: &Code, home: Home) -> bool
    ensures { IsTrue result ↔ IsSome (cont_at c.now.tables home) }
{
    cont_at(c.tables(), home.node, home.position as usize).is_some()
}

/// Whether the node stands in a body that is there.
fn is_in_body(c: &Code, home: Home) -> bool
    ensures { IsTrue result ↔ IsInBody c.now home.node }
{
    let forms = c.tables().forms.get();
    match form_at(forms, home.node) {
        Some(form) => body_at(forms, form.within).is_some(),
        None => false,
    }
}
