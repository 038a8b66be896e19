//! The mode `ground`: what is shown of the ground program of a text.

ghost use Rattle.lk_infer.specs.Inferred.{HasTypes};

use crate::case::Case;
use crate::changes::changes_lines;
use crate::compare::compare_printed;
use crate::forms::forms_lines;
use crate::instances::{calls_lines, counts_line, types_lines};
use crate::reader::read_case;
use crate::run::Run;
use crate::steps::steps_lines;
use lk_ast::{Bytes, NoMemory, Span};
use lk_ground::GroundProgram;
use lk_infer::{InferError, Typed, infer};
use lk_mono::{MonoError, ShapeKind, ground};
use lk_names::{Scoped, resolve};
use lk_parse::parse;
use std::alloc::Global;

/// What is shown of a ground program.
#[derive(Clone, Copy)]
enum View {
    /// Its instances, each with its type and the places of what it uses.
    Calls,
    /// Its instances, each with the types of its nodes.
    Types,
    /// How many instances there are, and how many helpers.
    Counts,
    /// Its updates and deletions as SQL.
    Changes,
    /// The table of nodes that it becomes.
    Forms,
    /// The steps of a machine that runs its code, which begins as the other words say.
    Steps,
    /// Nothing, since there is no view of that name.
    Unknown,
}

/// In what the case of these lines comes out otherwise than they say, a line for each: the first word of a run says what is
/// shown of the text's ground program.
pub fn differences(alloc: Global, settings: &str, lines: &str) -> Result<Vec<String>, NoMemory> {
    let mut told = Vec::new(alloc);
    let case = read_case(alloc, settings, lines, &mut told)?;
    let text = text_of(alloc, &case)?;
    if case.runs.is_empty() {
        told.push(format!(in alloc; "nothing is shown")?)?;
    }
    for run in case.runs.iter() {
        compare(alloc, run, text.as_slice(), &mut told)?;
    }
    Ok(told)
}

/// Tells what is shown of this text where that isn't what the run says.
fn compare(alloc: Global, run: &Run, text: &[u8], told: &mut Vec<String>) -> Result<(), NoMemory> {
    let shown = match view_of(run) {
        View::Steps => steps_lines(alloc, run.words.get(1..).unwrap_or(&[]), text)?,
        view => shown(alloc, view, text)?,
    };
    compare_printed(alloc, run, shown.as_bytes(), told)
}

/// The text of the first file, with what stands before and behind it.
fn text_of(alloc: Global, case: &Case) -> Result<Bytes, NoMemory> {
    let mut text = Bytes::new(alloc);
    text.push_slice(case.before.as_bytes())?;
    if let Some(file) = case.files.first() {
        text.push_slice(file.content.as_bytes())?;
    }
    text.push_slice(case.behind.as_bytes())?;
    Ok(text)
}

/// The view that the first word of a run names.
fn view_of(run: &Run) -> View {
    let Some(word) = run.words.first() else {
        return View::Unknown;
    };
    match word.as_bytes() {
        b"calls" => View::Calls,
        b"types" => View::Types,
        b"counts" => View::Counts,
        b"changes" => View::Changes,
        b"forms" => View::Forms,
        b"steps" => View::Steps,
        _ => View::Unknown,
    }
}

/// What is shown of the ground program of a text, or why it has none.
fn shown(alloc: Global, view: View, text: &[u8]) -> Result<String, NoMemory> {
    let Ok(program) = parse(alloc, text) else {
        return line(alloc, "not parsed");
    };
    let Ok(program) = resolve(alloc, program) else {
        return line(alloc, "names not bound");
    };
    typed_shown(alloc, view, &program)
}

/// The same of a program whose names are bound.
fn typed_shown(alloc: Global, view: View, program: &Scoped) -> Result<String, NoMemory> {
    match infer(alloc, program) {
        Ok(typed) => ground_shown(alloc, view, program, &typed),
        Err(InferError::IllTyped(at)) => line_at(alloc, "not typed", at),
        Err(InferError::TypeTooLarge(at)) => line_at(alloc, "too large as typed", at),
        Err(InferError::NoMemory) => Err(NoMemory),
    }
}

/// The same of a typed program.
fn ground_shown(
    alloc: Global,
    view: View,
    program: &Scoped,
    typed: &Typed,
) -> Result<String, NoMemory>
    requires { HasTypes program.now typed.now.schemes typed.now.types }
{
    match ground(alloc, program, typed) {
        Ok(program) => lines_of(alloc, view, &program),
        Err(MonoError::TypeTooLarge(at)) => line_at(alloc, "TypeTooLarge", at),
        Err(MonoError::TooManyInstances) => line(alloc, "TooManyInstances"),
        Err(MonoError::Shape(kind, at)) => line_at(alloc, kind_name(kind), at),
        Err(MonoError::NoMemory) => Err(NoMemory),
    }
}

/// The lines of a ground program.
fn lines_of(alloc: Global, view: View, program: &GroundProgram) -> Result<String, NoMemory> {
    match view {
        View::Calls => calls_lines(alloc, program),
        View::Types => types_lines(alloc, program),
        View::Counts => counts_line(alloc, program),
        View::Changes => changes_lines(alloc, program),
        View::Forms => forms_lines(alloc, program),
        View::Steps | View::Unknown => line(alloc, "no such view"),
    }
}

/// The name of a shape.
fn kind_name(kind: ShapeKind) -> &'static str {
    match kind {
        ShapeKind::MainType => "MainType",
        ShapeKind::EqualityAtFunction => "EqualityAtFunction",
        ShapeKind::OrderAtNonBase => "OrderAtNonBase",
        ShapeKind::QueryNotFlat => "QueryNotFlat",
        ShapeKind::QueryCapture => "QueryCapture",
    }
}

/// A line.
fn line(alloc: Global, text: &str) -> Result<String, NoMemory> {
    Ok(format!(in alloc; "{text}\n")?)
}

/// A line of a name and a place.
fn line_at(alloc: Global, name: &str, at: Span) -> Result<String, NoMemory> {
    Ok(format!(in alloc; "{name} {} {}\n", at.start, at.end)?)
}
