//! Waiting frames.

ghost use Rattle.lk_code.specs.TypedLaw.{IsWhole};
ghost use Rattle.lk_code.specs.Meaning.{kept_names, language};
ghost use Rattle.lk_code.specs.Values.{IsFun};
ghost use Rattle.lk_fits.specs.Values.{Fits};
ghost use Rattle.lk_ir.specs.LetNormal.{under};
ghost use Rattle.lk_machine.specs.Moves.{HandsTo, Leads, MayMove, Moves, Resumes, ResumesPart, goes_behind};
ghost use Rattle.lk_moves.specs.Frames.{resumed};
ghost use Rattle.lk_machine.specs.Going.{forward, is_turn, left_round, lists_held, turned_round, waiting};
ghost use Rattle.std.specs.Prelude.{◌≡◌, ◌≤◌, ◌∷◌, ◌++◌, [], IfOk, drop, length, take};

use crate::look::{cont_at, form_at, home_of, names_of};
use crate::scope::Scope;
use crate::state::{Held, Next, State};
use crate::values::{first, joined, list_of, one, reversed};
use lk_ast::{List, NoMemory, Value};
use lk_code::{CodeTables, Frame, Home};
use lk_ir::{Cont, Form, Kind};
use std::alloc::Global;
use std::mem;

impl State {
    /// Gives the next frame the value that it waits for.
    pub fn hand(
        &mut self,
        alloc: Global,
        tables: &CodeTables,
        value: Value,
    ) -> Result<Next, NoMemory>
        requires run { IsWhole tables.now }
        requires typed { MayMove tables.now (Fits (IsFun tables.now) value) self.old }
        ensures leads { IfOk result (HandsTo tables.now self.old value self.new) }
        ensures kept { IfOk result (Moves tables.now (Fits (IsFun tables.now) value) self.old self.new) }
    {
        if self.stack.len() == 1 {
            return Ok(Next::Ended(value));
        }
        let Some(frame) = self.stack.pop() else {
            unreachable!();
        };
        let Some(home) = home_of(tables, frame.number) else {
            unreachable!();
        };
        let position = home.position as usize;
        let Some(form) = form_at(tables.forms.get(), home.node) else {
            unreachable!();
        };
        let Some(cont) = cont_at(tables, home.node, position) else {
            unreachable!();
        };
        let env = env_of(alloc, frame);
        if position < form.parts.len() {
            self.resume_part(alloc, tables, home, cont, env, value)
        } else {
            self.resume_turn(alloc, tables, home.node, form, cont, env, value)
        }
    }

    /// Goes on with a node behind a position.
    fn resume_part(
        &mut self,
        alloc: Global,
        tables: &CodeTables,
        home: Home,
        cont: &Cont,
        env: List<Value>,
        value: Value,
    ) -> Result<Next, NoMemory>
        requires run { IsWhole tables.now }
        requires typed { MayMove tables.now (ResumesPart tables.now self.old.place home cont.now env value) self.old }
        ensures leads { IfOk result (Leads tables.now self.old (resumed (language tables.now) (under (kept_names tables.now cont.now (drop home.position env)) home.node) (take home.position env ++ value ∷ []) self.old.place) self.new) }
        ensures kept { IfOk result (Moves tables.now (ResumesPart tables.now self.old.place home cont.now env value) self.old self.new) }
    {
        let (mut done, kept) = cut(env, home.position as usize)?;
        done.push(value)?;
        let names = names_of(alloc, cont.keeps.as_slice())?;
        let scope = Scope::new(alloc).bind_each(names.as_slice(), kept)?;
        let held = Held {
            node: home.node,
            scope,
            done,
        };
        self.go_on(alloc, tables, held)
    }

    /// Goes on with the elements of a `for` that are left, behind the list of a body.
    fn resume_turn(
        &mut self,
        alloc: Global,
        tables: &CodeTables,
        node: u32,
        form: &Form,
        cont: &Cont,
        env: List<Value>,
        value: Value,
    ) -> Result<Next, NoMemory>
        requires run { IsWhole tables.now }
        requires typed { MayMove tables.now (Resumes tables.now self.old.place (record { node = node; position = length form.now.parts }) form.now cont.now (left_round env) value) self.old }
        ensures leads { IfOk result (Leads tables.now self.old (goes_behind tables.now self.old.place node form.now cont.now (left_round env) value) self.new) }
        ensures kept { IfOk result (Moves tables.now (Resumes tables.now self.old.place (record { node = node; position = length form.now.parts }) form.now cont.now (left_round env) value) self.old self.new) }
    {
        let Kind::For(name) = &form.kind else {
            unreachable!();
        };
        let Some(body) = one(form.tails.as_slice()) else {
            unreachable!();
        };
        let Some(values) = list_of(value) else {
            unreachable!();
        };
        let Some((made, left, kept)) = lists_held(env) else {
            unreachable!();
        };
        let made = joined(made, values)?;
        self.turn(
            alloc, tables, node, form, cont, *name, body, made, left, kept,
        )
    }
}

/// What the frame of a `for` holds: the list made so far, the elements left, and what it keeps.
fn lists_held(env: List<Value>) -> Option<(List<Value>, List<Value>, List<Value>)>
    ensures { result ≡ lists_held env }
{
    let (made, others) = first(env)?;
    let (left, kept) = first(others)?;
    Some((list_of(made)?, list_of(left)?, kept))
}

/// The values that a frame holds.
fn env_of(alloc: Global, frame: Frame) -> List<Value>
    ensures { result ≡ frame.env }
{
    let mut frame = frame;
    mem::replace(&mut frame.env, List::new(alloc))
}

/// The first values of a list, as many as this, and the others.
fn cut(values: List<Value>, many: usize) -> Result<(List<Value>, List<Value>), NoMemory>
    requires { many ≤ length values }
    ensures { IfOk result (λ both. both ≡ (take many values, drop many values)) }
{
    let mut first = values.into_vec();
    let others = first.split_off(many)?;
    Ok((List::from_vec(first), List::from_vec(others)))
}

/// Frames in the other order, each as others see it, or as the machine holds it.
pub fn turned(
    alloc: Global,
    tables: &CodeTables,
    frames: List<Frame>,
) -> Result<List<Frame>, NoMemory>
    ensures { IfOk result (λ stack. stack ≡ waiting tables.now frames) }
{
    let mut turned = List::new(alloc);
    let mut frames = frames;
    while let Some(frame) = frames.pop() {
        turned.push(forward(alloc, tables, frame)?)?;
    }
    Ok(turned)
}

/// A frame as others see it, or as the machine holds it: that of a `for` at its body with the elements left turned round.
fn forward(alloc: Global, tables: &CodeTables, frame: Frame) -> Result<Frame, NoMemory>
    ensures { IfOk result (λ other. other ≡ forward tables.now frame) }
{
    if is_turn(tables, &frame) {
        let number = frame.number;
        let env = left_round(env_of(alloc, frame))?;
        Ok(Frame { number, env })
    } else {
        Ok(frame)
    }
}

/// Whether the frame waits at the body of a `for`.
fn is_turn(tables: &CodeTables, frame: &Frame) -> bool
    ensures { result ≡ is_turn tables.now frame.now }
{
    match home_of(tables, frame.number) {
        Some(home) => match form_at(tables.forms.get(), home.node) {
            Some(form) => home.position as usize >= form.parts.len(),
            None => false,
        },
        None => false,
    }
}

/// The values that the frame of a `for` holds, with the elements left in the other order.
fn left_round(env: List<Value>) -> Result<List<Value>, NoMemory>
    ensures { IfOk result (λ other. other ≡ left_round env) }
{
    let mut values = env.into_vec();
    if values.len() < 2 {
        return Ok(List::from_vec(values));
    }
    let left = values.remove(1);
    values.insert(1, turned_round(left))?;
    Ok(List::from_vec(values))
}

/// A list in the other order.
fn turned_round(value: Value) -> Value
    ensures { result ≡ turned_round value }
{
    match value {
        Value::List(values) => Value::List(reversed(values)),
        other => other,
    }
}
