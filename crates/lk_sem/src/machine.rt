//! The evaluation of a program by a machine. What waits stands in a list of its own and not on the machine's own stack,
//! since fuel for a million nodes allows a depth of half a million, and of a million with calls back and forth.

ghost use Rattle.std.specs.Prelude.{◌≡◌, ◌++◌, ◌<◌, ◌≤◌, ◌+◌, ◌*◌, length, IfOk};
ghost use Rattle.lk_evaluation.specs.Evaluation as spec;
ghost use Rattle.lk_ast.specs.Rows.{rows_value as value_of_rows};
ghost use Rattle.lk_operators.specs.Values.{list_in, unit as unit_value};

use crate::act::{Act, act_of};
use crate::run::Halt;
use crate::syntax::part;
use lk_ast::{
    Event, Expr, List, Loc, NoMemory, ReadEvent, Row, Span, Text, Value, WriteEvent, rows_value,
};
use lk_index::Index;
use lk_locals::Locals;
use std::alloc::Global;

/// A node whose first parts have these values, at the next of them.
#[derive(Drop)]
pub struct Waiting<'p> {
    pub expr: &'p Expr,
    pub done: List<Value>,
    pub scope: Locals<'p>,
    pub place: Loc,
}

/// A `for` at its body, with the elements that are left, the last first, and the list made so far.
#[derive(Drop)]
pub struct Turns<'p> {
    pub at: Span,
    pub name: &'p str,
    pub left: List<Value>,
    pub body: &'p Expr,
    pub scope: Locals<'p>,
    pub place: Loc,
    pub made: List<Value>,
}

/// What waits for a value: a node, a `for`, or a call that goes back to that place.
#[derive(Drop)]
pub enum Frame<'p> {
    Part(Waiting<'p>),
    Turn(Turns<'p>),
    Back(Loc),
}

/// What comes next: a node is entered, a value goes to the last frame, tables are read or written for what begins at that
/// place in the text and the value goes back to that place, or the evaluation ends without a value.
#[derive(Drop)]
pub enum Next<'p> {
    Enter(&'p Expr, Locals<'p>, Loc),
    Give(Value),
    Read(Loc, u32, List<Value>),
    Write(Loc, u32, List<Value>),
    Stop(Halt),
}

/// The frames that wait, the last of which waits for the next value; the events so far, and the fuel left.
#[derive(Drop)]
pub struct Machine<'p> {
    pub stack: List<Frame<'p>>,
    pub log: List<Event>,
    pub fuel: u64,
}

impl<'p> Machine<'p> {
    ghost use Rattle.lk_sem.specs.Acts.{IsAct};
    ghost use Rattle.lk_evaluation.specs.Evaluation.{eval, perform, each};
    ghost use Rattle.lk_sem.specs.Frames.{resumed, returned};
    ghost use Rattle.lk_sem.specs.Machine.{Falls, Leads, after_read, after_write, bodies, frame_rest, weight};
    ghost use Rattle.lk_evaluation.specs.Source.{Point, source, under};

    /// Enters a node.
    pub fn enter(
        &mut self,
        alloc: Global,
        index: &Index<'p>,
        e: &'p Expr,
        scope: Locals<'p>,
        place: Loc,
    ) -> Result<Next<'p>, NoMemory>
        ensures leads { IfOk result (λ next. Leads index.now self.old
            (eval (source index.now) (under scope.entry e.now) place)
            self.new next) }
        ensures falls { IfOk result (λ next. weight self.new next < 4 * self.old.fuel + 2 * length self.old.stack + 1) }
    {
        if self.fuel == 0 {
            return Ok(Next::Stop(Halt::Spent));
        }
        self.fuel -= 1;
        let done = List::new(alloc);
        self.go_on(alloc, index, e, done, scope, place)
    }

    /// Goes on with the next part of a node, or with its act.
    fn go_on(
        &mut self,
        alloc: Global,
        index: &Index<'p>,
        e: &'p Expr,
        done: List<Value>,
        scope: Locals<'p>,
        place: Loc,
    ) -> Result<Next<'p>, NoMemory>
        ensures leads { IfOk result (λ next. Leads index.now self.old
            (resumed (source index.now) (under scope.entry e.now) done place)
            self.new next) }
        ensures falls { IfOk result (Falls self.old self.new) }
    {
        match part(e, done.len()) {
            Some(next) => {
                let shared = scope.share()?;
                let waiting = Waiting {
                    expr: e,
                    done,
                    scope,
                    place,
                };
                self.stack.push(Frame::Part(waiting))?;
                Ok(Next::Enter(next, shared, place))
            }
            None => {
                let act = act_of(alloc, index, e, scope, done)?;
                self.perform(alloc, index, e.span, place, act)
            }
        }
    }

    /// Does what a node does; `at` is the node's span.
    fn perform(
        &mut self,
        alloc: Global,
        index: &Index<'p>,
        at: Span,
        place: Loc,
        act: Act<'p>,
    ) -> Result<Next<'p>, NoMemory>
        ensures leads { IfOk result (λ next. (a : spec.Act Point) → IsAct at act.entry a → Leads index.now self.old (perform (source index.now) (eval (source index.now)) place a)
            self.new next) }
        ensures falls { IfOk result (Falls self.old self.new) }
    {
        match act {
            Act::Give(value) => Ok(Next::Give(value)),
            Act::Tail(e, scope) => Ok(Next::Enter(e, scope, place)),
            Act::Goto(mark, body, scope) => self.go_to(index, place, mark, body, scope),
            Act::Print(text) => self.print(alloc, index, place, text),
            Act::Each(name, values, body, scope) => {
                let mut left = values.into_vec();
                left.reverse();
                let turns = Turns {
                    at,
                    name,
                    left: List::from_vec(left),
                    body,
                    scope,
                    place,
                    made: List::new(alloc),
                };
                self.turn(alloc, index, turns)
            }
            Act::Read(args) => self.read(index, place, at.start, args),
            Act::Write(args) => self.write(index, place, at.start, args),
            Act::Fails(trap) => Ok(Next::Stop(Halt::Trap(trap))),
            Act::Lacks => Ok(Next::Stop(Halt::Stuck(at))),
        }
    }

    /// Enters the body of a function of that mark.
    fn go_to(
        &mut self,
        index: &Index<'p>,
        place: Loc,
        mark: Loc,
        body: &'p Expr,
        scope: Locals<'p>,
    ) -> Result<Next<'p>, NoMemory>
        ensures leads { IfOk result (λ next. (f : _) (args : _) → Leads index.now self.old (perform (source index.now) (eval (source index.now)) place (spec.Goto mark f args (under scope.entry body.now)))
            self.new next) }
        ensures falls { IfOk result (Falls self.old self.new) }
    {
        match (place, mark) {
            (Loc::Client, Loc::Server) => {
                self.log.push(Event::Enter)?;
                self.stack.push(Frame::Back(place))?;
                Ok(Next::Enter(body, scope, mark))
            }
            (Loc::Server, Loc::Client) => {
                self.log.push(Event::Leave)?;
                self.stack.push(Frame::Back(place))?;
                Ok(Next::Enter(body, scope, mark))
            }
            _ => Ok(Next::Enter(body, scope, place)),
        }
    }

    /// Prints at the client, where control goes and comes back from.
    fn print(
        &mut self,
        alloc: Global,
        index: &Index<'p>,
        place: Loc,
        text: Text,
    ) -> Result<Next<'p>, NoMemory>
        ensures leads { IfOk result (λ next. Leads index.now self.old
            (perform (source index.now) (eval (source index.now)) place (spec.Uses Loc.Client (spec.Printing text)))
            self.new next) }
        ensures falls { IfOk result (Falls self.old self.new) }
    {
        match place {
            Loc::Server => {
                self.log.push(Event::Leave)?;
                self.log.push(Event::Print(text))?;
                self.log.push(Event::Enter)?;
                Ok(Next::Give(unit(alloc)))
            }
            _ => {
                self.log.push(Event::Print(text))?;
                Ok(Next::Give(unit(alloc)))
            }
        }
    }

    /// Reads tables at the server, where control goes from the client.
    fn read(
        &mut self,
        index: &Index<'p>,
        place: Loc,
        site: u32,
        args: List<Value>,
    ) -> Result<Next<'p>, NoMemory>
        ensures leads { IfOk result (λ next. Leads index.now self.old
            (perform (source index.now) (eval (source index.now)) place (spec.Uses Loc.Server (spec.Reading site args)))
            self.new next) }
        ensures falls { IfOk result (Falls self.old self.new) }
    {
        match place {
            Loc::Client => {
                self.log.push(Event::Enter)?;
                Ok(Next::Read(Loc::Client, site, args))
            }
            _ => Ok(Next::Read(Loc::Any, site, args)),
        }
    }

    /// Writes a table at the server, where control goes from the client.
    fn write(
        &mut self,
        index: &Index<'p>,
        place: Loc,
        site: u32,
        args: List<Value>,
    ) -> Result<Next<'p>, NoMemory>
        ensures leads { IfOk result (λ next. Leads index.now self.old
            (perform (source index.now) (eval (source index.now)) place (spec.Uses Loc.Server (spec.Writing site args)))
            self.new next) }
        ensures falls { IfOk result (Falls self.old self.new) }
    {
        match place {
            Loc::Client => {
                self.log.push(Event::Enter)?;
                Ok(Next::Write(Loc::Client, site, args))
            }
            _ => Ok(Next::Write(Loc::Any, site, args)),
        }
    }

    /// Enters the body for the next element, or has the list that was made.
    fn turn(
        &mut self,
        alloc: Global,
        index: &Index<'p>,
        turns: Turns<'p>,
    ) -> Result<Next<'p>, NoMemory>
        ensures leads { IfOk result (λ next. Leads index.now self.old
            (each (source index.now) (eval (source index.now)) turns.entry.at (bodies turns.entry) turns.entry.place turns.entry.made)
            self.new next) }
        ensures falls { IfOk result (Falls self.old self.new) }
    {
        let mut turns = turns;
        match turns.left.pop() {
            Some(value) => {
                let inner = turns.scope.share()?.bind(alloc, turns.name, value)?;
                let next = Next::Enter(turns.body, inner, turns.place);
                self.stack.push(Frame::Turn(turns))?;
                Ok(next)
            }
            None => Ok(Next::Give(Value::List(turns.made))),
        }
    }

    /// Puts the list of a body after those made so far.
    fn take(
        &mut self,
        alloc: Global,
        index: &Index<'p>,
        turns: Turns<'p>,
        value: Value,
    ) -> Result<Next<'p>, NoMemory>
        ensures leads { IfOk result (λ next. Leads index.now self.old
            (frame_rest index.now (Frame.Turn turns.entry) value)
            self.new next) }
        ensures falls { IfOk result (Falls self.old self.new) }
    {
        match list_of(value) {
            Some(values) => {
                let made = joined(turns.made, values)?;
                self.turn(alloc, index, Turns { made, ..turns })
            }
            None => Ok(Next::Stop(Halt::Stuck(turns.at))),
        }
    }

    /// Goes back to the place of a call with its value.
    fn come_back(
        &mut self,
        index: &Index<'p>,
        place: Loc,
        value: Value,
    ) -> Result<Next<'p>, NoMemory>
        ensures leads { IfOk result (λ next. Leads index.now self.old
            (returned place value)
            self.new next) }
        ensures falls { IfOk result (λ next. weight self.new next ≤ 4 * self.old.fuel + 2 * length self.old.stack + 2) }
    {
        match place {
            Loc::Client => {
                self.log.push(Event::Leave)?;
                Ok(Next::Give(value))
            }
            Loc::Server => {
                self.log.push(Event::Enter)?;
                Ok(Next::Give(value))
            }
            Loc::Any => Ok(Next::Give(value)),
        }
    }

    /// Goes back to that place with the answer of a reading.
    pub fn answered(
        &mut self,
        alloc: Global,
        index: &Index<'p>,
        back: Loc,
        site: u32,
        args: List<Value>,
        answer: List<Row>,
    ) -> Result<Next<'p>, NoMemory>
        ensures leads { IfOk result (λ next. Leads index.now (after_read site args answer self.old)
            (returned back (value_of_rows answer))
            self.new next) }
        ensures falls { IfOk result (λ next. weight self.new next ≤ 4 * self.old.fuel + 2 * length self.old.stack + 2) }
    {
        let value = rows_value(alloc, answer.as_slice())?;
        self.log
            .push(Event::Read(ReadEvent { site, args, answer }))?;
        self.come_back(index, back, value)
    }

    /// Goes back to that place from a writing.
    pub fn written(
        &mut self,
        alloc: Global,
        index: &Index<'p>,
        back: Loc,
        site: u32,
        args: List<Value>,
    ) -> Result<Next<'p>, NoMemory>
        ensures leads { IfOk result (λ next. Leads index.now (after_write site args self.old)
            (returned back unit_value)
            self.new next) }
        ensures falls { IfOk result (λ next. weight self.new next ≤ 4 * self.old.fuel + 2 * length self.old.stack + 2) }
    {
        self.log.push(Event::Write(WriteEvent { site, args }))?;
        self.come_back(index, back, unit(alloc))
    }

    /// Gives a frame the value that it waits for.
    pub fn give(
        &mut self,
        alloc: Global,
        index: &Index<'p>,
        frame: Frame<'p>,
        value: Value,
    ) -> Result<Next<'p>, NoMemory>
        ensures leads { IfOk result (λ next. Leads index.now self.old
            (frame_rest index.now frame.entry value)
            self.new next) }
        ensures falls { IfOk result (Falls self.old self.new) }
    {
        match frame {
            Frame::Part(waiting) => {
                let Waiting {
                    expr,
                    mut done,
                    scope,
                    place,
                } = waiting;
                done.push(value)?;
                self.go_on(alloc, index, expr, done, scope, place)
            }
            Frame::Turn(turns) => self.take(alloc, index, turns, value),
            Frame::Back(place) => self.come_back(index, place, value),
        }
    }
}

fn list_of(value: Value) -> Option<List<Value>>
    ensures { result ≡ list_in value }
{
    match value {
        Value::List(values) => Some(values),
        _ => None,
    }
}

fn unit(alloc: Global) -> Value
    ensures { result ≡ unit_value }
{
    Value::Fields(List::new(alloc))
}

fn joined(values: List<Value>, more: List<Value>) -> Result<List<Value>, NoMemory>
    ensures { IfOk result (λ all. all ≡ values ++ more) }
{
    let mut values = values.into_vec();
    let mut more = more.into_vec();
    values.append(&mut more)?;
    Ok(List::from_vec(values))
}
