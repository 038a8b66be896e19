//! What a machine does behind the beginning of a step, up to where the next step begins.

ghost use Rattle.lk_ast.specs.declared.place.Loc.TheVariants.{Client};
ghost use Rattle.lk_code.specs.TypedLaw.{IsWhole, Reaches};
ghost use Rattle.lk_code.specs.Meaning.{language};
ghost use Rattle.lk_code.specs.Values.{IsFun};
ghost use Rattle.lk_evaluation.specs.Evaluation as spec;
ghost use Rattle.lk_evaluation.specs.Run.{Goes};
ghost use Rattle.lk_fits.specs.Values.{Fits};
ghost use Rattle.lk_code.specs.Tables.{cont_at};
ghost use Rattle.lk_ir.specs.Continuing.{narrowed};
ghost use Rattle.lk_ir.specs.Environments.{Env};
ghost use Rattle.lk_ir.specs.LetNormal.{Point, reach, under};
ghost use Rattle.lk_ir.specs.Tables.{body_at, form_at};
ghost use Rattle.lk_ir.specs.declared.nodes.Kept.{Kept};
ghost use Rattle.lk_ir.specs.declared.nodes.Kind.TheVariants as kind;
ghost use Rattle.lk_machine.specs.Acts.{IsAct, called};
ghost use Rattle.lk_machine.specs.Moves.{ActsAt, EntersTo, GoesWith, IsTold, Leads, MayMove, Moves, performed};
ghost use Rattle.lk_machine.specs.Typed.{IsNext, IsNextPlain, IsNodeOf};
ghost use Rattle.lk_moves.specs.Frames.{resumed};
ghost use Rattle.lk_types.specs.declared.ground.Ground.{Ground};
ghost use Rattle.std.specs.Prelude.{ℕ, Some, List, ◌≡◌, ◌++◌, IfOk, OnOk, [], ◌∷◌, ◌+◌, length};

use crate::act::{Act, Node, act_of};
use crate::look::{cont_at, form_at, names_of, part_at};
use crate::plain::plain_act;
use crate::scope::Scope;
use crate::state::{Held, Next, Now, State};
use crate::values::{joined, unit};
use lk_ast::{Base, List, Loc, NoMemory, Text, Value};
use lk_code::{CodeTables, Frame, is_at};
use lk_ir::{Block, Body, Form};
use std::alloc::Global;

impl State {
    /// Goes on with the next position of a node, or with its act.
    pub fn go_on(
        &mut self,
        alloc: Global,
        tables: &CodeTables,
        held: Held,
    ) -> Result<Next, NoMemory>
        requires run { IsWhole tables.now }
        requires typed { MayMove tables.now (λ t. IsNodeOf tables.now self.old.place t held) self.old }
        ensures leads { IfOk result (Leads tables.now self.old (resumed (language tables.now) (under held.scope held.node) held.done self.old.place) self.new) }
        ensures kept { IfOk result (Moves tables.now (λ t. IsNodeOf tables.now self.old.place t held) self.old self.new) }
    {
        let forms = tables.forms.get();
        let Some(form) = form_at(forms, held.node) else {
            unreachable!();
        };
        match form.parts.get(held.done.len()) {
            Some(part) => self.wait(alloc, tables, *part, held),
            None => {
                let Held { node, scope, done } = held;
                let scope = behind(alloc, tables, node, form.parts.len(), scope)?;
                let act = act_of(alloc, Node { forms, form }, scope, done)?;
                self.perform(alloc, tables, node, form, act)
            }
        }
    }

    /// Enters the next position of a node, which is plain.
    pub fn enter_part(
        &mut self,
        alloc: Global,
        tables: &CodeTables,
        held: Held,
    ) -> Result<Next, NoMemory>
        requires run { IsWhole tables.now }
        requires typed { MayMove tables.now (λ t. IsNodeOf tables.now self.old.place t held × IsNextPlain tables.now held) self.old }
        ensures leads { IfOk result (EntersTo tables.now self.old (resumed (language tables.now) (under held.scope held.node) held.done self.old.place) self.new) }
        ensures kept { IfOk result (Moves tables.now (λ t. IsNodeOf tables.now self.old.place t held × IsNextPlain tables.now held) self.old self.new) }
    {
        let forms = tables.forms.get();
        let Some(form) = part_at(forms, held.node, held.done.len()) else {
            unreachable!();
        };
        match plain_act(alloc, Node { forms, form }, &held.scope)? {
            Act::Give(value) => {
                let mut held = held;
                held.done.push(value)?;
                self.go_on(alloc, tables, held)
            }
            _ => unreachable!(),
        }
    }

    /// Lets the node wait for a position, or holds it before a plain one.
    fn wait(
        &mut self,
        alloc: Global,
        tables: &CodeTables,
        part: u32,
        held: Held,
    ) -> Result<Next, NoMemory>
        requires run { IsWhole tables.now }
        requires next { IsNext tables.now held part }
        requires typed { MayMove tables.now (λ t. IsNodeOf tables.now self.old.place t held) self.old }
        ensures leads { IfOk result (Leads tables.now self.old (resumed (language tables.now) (under held.scope held.node) held.done self.old.place) self.new) }
        ensures kept { IfOk result (Moves tables.now (λ t. IsNodeOf tables.now self.old.place t held) self.old self.new) }
    {
        let Some(cont) = cont_at(tables, held.node, held.done.len()) else {
            self.now = Now::Hold(held);
            return Ok(Next::More);
        };
        let Held {
            node: _,
            scope,
            done,
        } = held;
        let names = names_of(alloc, cont.keeps.as_slice())?;
        let Some(kept) = scope.copies(alloc, names.as_slice())? else {
            unreachable!();
        };
        let env = joined(done, kept)?;
        self.push(tables, cont.order, env)?;
        self.now = Now::Enter(part, scope);
        Ok(Next::More)
    }

    /// One more frame that waits, of the continuation with this place among all.
    pub fn push(
        &mut self,
        tables: &CodeTables,
        order: u32,
        env: List<Value>,
    ) -> Result<(), NoMemory>
        ensures { OnOk result (self.new ≡ record self.old { stack = self.old.stack ++ record { number = length tables.now.funs + order; env = env } ∷ [] }) }
    {
        let Ok(first) = u32::try_from(tables.funs.len()) else {
            return Err(NoMemory);
        };
        let Some(number) = first.checked_add(order) else {
            return Err(NoMemory);
        };
        self.stack.push(Frame { number, env })
    }

    /// Does what a node does.
    fn perform(
        &mut self,
        alloc: Global,
        tables: &CodeTables,
        node: u32,
        form: &Form,
        act: Act,
    ) -> Result<Next, NoMemory>
        requires run { IsWhole tables.now }
        requires there { form_at tables.now.forms node ≡ Some form.now }
        requires acts { (names : Env) × (a : spec.Act Point) × IsAct tables.now.forms form.now names act a × MayMove tables.now (λ t. ActsAt tables.now self.old.place a t × IsTold tables.now self.old.place node form.now act t) self.old }
        ensures leads { IfOk result (λ next. (names : Env) (a : spec.Act Point) → IsAct tables.now.forms form.now names act.entry a → Leads tables.now self.old (performed tables.now self.old.place a) self.new next) }
        ensures kept { IfOk result (λ next. (names : Env) (a : spec.Act Point) → IsAct tables.now.forms form.now names act.entry a → Moves tables.now (λ t. ActsAt tables.now self.old.place a t × IsTold tables.now self.old.place node form.now act.entry t) self.old self.new next) }
    {
        match act {
            Act::Give(value) => Ok(self.has(tables, value)),
            Act::Tail(node, scope) => {
                self.now = Now::Enter(node, scope);
                Ok(Next::More)
            }
            Act::Goto(label, body, env, args) => self.go_to(alloc, tables, label, body, env, args),
            Act::Print(text) => self.print(alloc, tables, text),
            Act::Each(name, body, values, scope) => {
                self.each(alloc, tables, node, form, name, body, values, scope)
            }
            Act::Reach(block, label, args) => Ok(self.reach(tables, form, block, label, args)),
            Act::Fails(trap) => Ok(Next::Trapped(trap)),
            Act::Lacks => unreachable!(),
        }
    }

    /// Has a value, which ends a session at the client where no frame of the code waits for it.
    pub fn has(&mut self, tables: &CodeTables, value: Value) -> Next
        requires run { IsWhole tables.now }
        requires typed { MayMove tables.now (Fits (IsFun tables.now) value) self.old }
        ensures leads { Leads tables.now self.old (Goes value) self.new result }
        ensures kept { Moves tables.now (Fits (IsFun tables.now) value) self.old self.new result }
        ensures only { GoesWith self.old value self.new result }
    {
        match self.place {
            Loc::Client if self.stack.len() == 1 => Next::Ended(value),
            _ => {
                self.now = Now::Give(value);
                Next::More
            }
        }
    }

    /// Enters the body of what has a label, or is to cross to the other place.
    fn go_to(
        &mut self,
        alloc: Global,
        tables: &CodeTables,
        label: u32,
        body: &Body,
        env: List<Value>,
        args: List<Value>,
    ) -> Result<Next, NoMemory>
        requires run { IsWhole tables.now }
        requires body { body_at tables.now.forms label ≡ Some body.now }
        requires acts { MayMove tables.now (ActsAt tables.now self.old.place (called label body.now env args)) self.old }
        ensures leads { IfOk result (Leads tables.now self.old (performed tables.now self.old.place (called label body.now env args)) self.new) }
        ensures kept { IfOk result (Moves tables.now (ActsAt tables.now self.old.place (called label body.now env args)) self.old self.new) }
    {
        if is_at(body.place, self.place) {
            let scope = Scope::new(alloc).bind_each(body.names.as_slice(), env)?;
            let scope = scope.bind_each(body.params.as_slice(), args)?;
            self.now = Now::Enter(body.root, scope);
            Ok(Next::More)
        } else {
            self.now = Now::Cross(label, joined(env, args)?);
            Ok(Next::More)
        }
    }

    /// Prints at the client, or is to cross to it.
    fn print(&mut self, alloc: Global, tables: &CodeTables, text: Text) -> Result<Next, NoMemory>
        requires run { IsWhole tables.now }
        requires acts { MayMove tables.now (ActsAt tables.now self.old.place (spec.Uses Client (spec.Printing text))) self.old }
        ensures leads { IfOk result (Leads tables.now self.old (performed tables.now self.old.place (spec.Uses Client (spec.Printing text))) self.new) }
        ensures kept { IfOk result (Moves tables.now (ActsAt tables.now self.old.place (spec.Uses Client (spec.Printing text))) self.old self.new) }
    {
        match self.place {
            Loc::Server => {
                let mut args = List::new(alloc);
                args.push(Value::Base(Base::Text(text)))?;
                self.now = Now::Cross(0, args);
                Ok(Next::More)
            }
            _ => {
                let next = self.has(tables, unit(alloc));
                self.printed = Some(text);
                Ok(next)
            }
        }
    }

    /// Asks for tables at the server, or is to cross to it.
    fn reach(
        &mut self,
        tables: &CodeTables,
        form: &Form,
        block: Block,
        label: u32,
        args: List<Value>,
    ) -> Next
        requires run { IsWhole tables.now }
        requires at { (n : ℕ) × (kept : List Kept) × (form_at tables.now.forms n ≡ Some form.now) × (form.now.kind ≡ kind.Reach block label kept) }
        requires acts { MayMove tables.now (λ t. Reaches tables.now label t (reach form.now.at block (Some args) args)) self.old }
        ensures leads { Leads tables.now self.old (performed tables.now self.old.place (reach form.now.at block (Some args) args)) self.new result }
        ensures kept { Moves tables.now (λ t. Reaches tables.now label t (reach form.now.at block (Some args) args)) self.old self.new result }
    {
        match self.place {
            Loc::Client => {
                self.now = Now::Cross(label, args);
                Next::More
            }
            _ => {
                self.now = Now::Waits;
                Next::Db(label, args)
            }
        }
    }
}

/// What is left of the names behind all positions of a node: of a `for`, what its body uses.
fn behind(
    alloc: Global,
    tables: &CodeTables,
    node: u32,
    positions: usize,
    scope: Scope,
) -> Result<Scope, NoMemory>
    ensures { IfOk result (λ left. left ≡ narrowed (cont_at tables.now (record { node = node; position = positions })) scope) }
{
    match cont_at(tables, node, positions) {
        Some(cont) => {
            let names = names_of(alloc, cont.keeps.as_slice())?;
            scope.only(alloc, names.as_slice())
        }
        None => Ok(scope),
    }
}
