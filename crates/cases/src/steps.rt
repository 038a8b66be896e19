//! What a machine answers, step by step, that runs the code of a text.

ghost use Rattle.lk_code.specs.Running.{is_at};
ghost use Rattle.lk_code.specs.TypedLaw.{IsWhole};
ghost use Rattle.lk_code.specs.declared.infos.FunKind.TheVariants as fun;
ghost use Rattle.lk_machine.specs.Typed.{IsPlace, MayStart, MaySteps};
ghost use Rattle.lk_types.specs.declared.ground.Ground.{Ground};
ghost use Rattle.std.specs.Prelude.{◌≡◌, true, IfOk, IfSome, IsTrue, None, OnOk};

use case_files::Content;
use lk_ast::{Base, FunValue, List, Loc, NoMemory, Text, Value, holds_function, value_text};
use lk_code::{Code, Frame, FunInfo, FunKind, args_fit, fun_of, sound_laws};
use lk_compile::compile;
use lk_machine::{Machine, Next};
use std::alloc::Global;
use std::{mem, str};

/// How many steps are shown at most.
const STEPS: u32 = 100;

/// Where a machine begins: at a place, with what has a label, on arguments.
struct Start {
    place: Loc,
    label: u32,
    args: List<Value>,
}

impl Drop for Start {
    fn drop(self) {
        let Self {
            place: _,
            label: _,
            args: _,
        } = self;
    }
}

/// What each step answers of the machine that begins as the words say: with a place, a label and its arguments, of which `@3@2` is the
/// function with label 3 that keeps the one with label 2, and any other word a text.
pub fn steps_lines(alloc: Global, words: &[Content], text: &[u8]) -> Result<String, NoMemory> {
    sound_laws();
    let Ok(code) = compile(alloc, text) else {
        return line(alloc, "no code");
    };
    match start_of(alloc, words)? {
        Some(start) => steps_from(alloc, &code, start),
        None => line(alloc, "no place and label"),
    }
}

/// What the words say of the beginning.
fn start_of(alloc: Global, words: &[Content]) -> Result<Option<Start>, NoMemory>
    ensures { IfOk result (λ found. IfSome found (λ start. IsPlace start.place)) }
{
    let mut start = Start {
        place: Loc::Any,
        label: 0,
        args: List::new(alloc),
    };
    for (i, word) in words.iter().enumerate() {
        let word = str::from_utf8(word.as_bytes()).unwrap_or("no text");
        match i {
            0 => start.place = place_of(word),
            1 => start.label = word.parse::<u32>().unwrap_or(u32::MAX),
            _ => start.args.push(argument(alloc, word)?)?,
        }
    }
    match start.place {
        Loc::Any => Ok(None),
        _ => Ok(Some(start)),
    }
}

/// The place of this name, if one has it.
fn place_of(word: &str) -> Loc {
    match word.as_bytes() {
        b"client" => Loc::Client,
        b"server" => Loc::Server,
        _ => Loc::Any,
    }
}

/// The value that a word says.
fn argument(alloc: Global, word: &str) -> Result<Value, NoMemory> {
    match word.split_once('@') {
        Some((_, labels)) => function(alloc, labels),
        None => Ok(Value::Base(Base::Text(Text::from_str(alloc, word)?))),
    }
}

/// The function with a label, which keeps the one with the other label, if there is one.
fn function(alloc: Global, labels: &str) -> Result<Value, NoMemory> {
    let (own, kept) = labels.split_once('@').unwrap_or((labels, ""));
    let mut env = List::new(alloc);
    if let Ok(site) = kept.parse::<u32>() {
        let none = List::new(alloc);
        env.push(Value::Fun(FunValue { site, env: none }))?;
    }
    let site = own.parse::<u32>().unwrap_or(u32::MAX);
    Ok(Value::Fun(FunValue { site, env }))
}

/// A line for each step of the machine that begins so.
fn steps_from(alloc: Global, code: &Code, start: Start) -> Result<String, NoMemory>
    requires whole { IsWhole code.now.tables }
    requires place { IsPlace start.place }
{
    let mut start = start;
    let (place, label) = (start.place, start.label);
    if !may_start(code, place, label, start.args.as_slice()) {
        return line(alloc, "may not start");
    }
    let args = mem::replace(&mut start.args, List::new(alloc));
    let mut machine = Machine::start(alloc, code, place, label, args)?;
    let mut lines = String::new(alloc);
    for _ in 0..STEPS {
        match machine.step(alloc, code)? {
            Next::More => push_more(alloc, &mut lines, &mut machine)?,
            last => {
                push_last(alloc, &mut lines, last, machine)?;
                return Ok(lines);
            }
        }
    }
    Ok(lines)
}

/// Whether a machine may begin so.
fn may_start(code: &Code, place: Loc, label: u32, args: &[Value]) -> bool
    requires place { IsPlace place }
    ensures { IsTrue result → (u : Ground) × MayStart code.now.tables place label args.now u }
{
    match fun_of(code, label) {
        Some(info) => runs_at(info, place) && args_fit(code, info, args),
        None => false,
    }
}

/// Whether what has a label runs at the place, and isn't `print`.
fn runs_at(info: &FunInfo, place: Loc) -> bool
    ensures { IsTrue result → (is_at info.now.place place ≡ true) × (info.now.kind ≡ fun.Print → ⊥) }
{
    match (info.kind, info.place, place) {
        (FunKind::Print, _, _) => false,
        (_, Loc::Any, _) | (_, Loc::Client, Loc::Client) | (_, Loc::Server, Loc::Server) => true,
        _ => false,
    }
}

/// `more`, and the text that was printed.
fn push_more(alloc: Global, lines: &mut String, machine: &mut Machine) -> Result<(), NoMemory>
    ensures { OnOk result (machine.new ≡ record machine.old { printed = None }) }
{
    lines.push_str("more\n")?;
    if let Some(text) = machine.take_printed() {
        lines.push_str(format!(in alloc; "print {}\n", text.as_str())?.as_str())?;
    }
    Ok(())
}

/// What the last step answers, and the frames that wait then.
fn push_last(
    alloc: Global,
    lines: &mut String,
    last: Next,
    machine: Machine,
) -> Result<(), NoMemory> {
    match last {
        Next::More => Ok(()),
        Next::Ended(value) => {
            lines.push_str("ended")?;
            push_value(alloc, lines, &value)?;
            Ok(lines.push_str("\n")?)
        }
        Next::Trapped(_) => Ok(lines.push_str("trapped\n")?),
        Next::CallOut(label, args) => {
            push_asked(alloc, lines, "call", label, args.as_slice())?;
            push_frames(alloc, lines, machine.into_frames().as_slice())
        }
        Next::Db(label, args) => push_asked(alloc, lines, "tables", label, args.as_slice()),
    }
}

/// A word, a label and its arguments.
fn push_asked(
    alloc: Global,
    lines: &mut String,
    word: &str,
    label: u32,
    args: &[Value],
) -> Result<(), NoMemory> {
    lines.push_str(format!(in alloc; "{word} {label}")?.as_str())?;
    for value in args {
        push_value(alloc, lines, value)?;
    }
    Ok(lines.push_str("\n")?)
}

/// A line for each frame, with its number and the values that it holds.
fn push_frames(alloc: Global, lines: &mut String, frames: &[Frame]) -> Result<(), NoMemory> {
    for frame in frames {
        push_asked(alloc, lines, "frame", frame.number, frame.env.as_slice())?;
    }
    Ok(())
}

/// A value behind a space: a function by its label, and the labels of functions that it keeps; any other as JSON.
fn push_value(alloc: Global, lines: &mut String, value: &Value) -> Result<(), NoMemory> {
    match value {
        Value::Fun(function) => {
            let site = function.site;
            lines.push_str(format!(in alloc; " @{site}")?.as_str())?;
            push_kept(alloc, lines, function.env.as_slice())
        }
        _ if holds_function(value) => Ok(lines.push_str(" functions")?),
        _ => {
            let text = value_text(alloc, value)?;
            Ok(lines.push_str(format!(in alloc; " {}", text.as_str())?.as_str())?)
        }
    }
}

/// The labels of functions that are kept.
fn push_kept(alloc: Global, lines: &mut String, kept: &[Value]) -> Result<(), NoMemory> {
    for value in kept {
        if let Value::Fun(function) = value {
            let site = function.site;
            lines.push_str(format!(in alloc; "@{site}")?.as_str())?;
        }
    }
    Ok(())
}

/// A line.
fn line(alloc: Global, text: &str) -> Result<String, NoMemory> {
    Ok(format!(in alloc; "{text}\n")?)
}
