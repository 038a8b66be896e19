//! The turns of a `for`.

ghost use Rattle.lk_code.specs.TypedLaw.{IsWhole};
ghost use Rattle.lk_code.specs.Meaning.{kept_names, language};
ghost use Rattle.lk_evaluation.specs.Evaluation.{each, eval};
ghost use Rattle.lk_ir.specs.LetNormal.{under};
ghost use Rattle.lk_ir.specs.Environments.{bind};
ghost use Rattle.lk_machine.specs.Acts.{each_of};
ghost use Rattle.lk_machine.specs.Going.{bodies};
ghost use Rattle.lk_machine.specs.Moves.{ActsAt, EntersTo, Leads, MayMove, Moves, performed};
ghost use Rattle.lk_machine.specs.Typed.{AreTurnsOf, IsForOf, IsTurning};
ghost use Rattle.std.specs.Prelude.{◌≡◌, [], IfOk, map, reverse};

use crate::act::{Act, Node};
use crate::look::{cont_at, form_at, names_of};
use crate::plain::plain_act;
use crate::scope::Scope;
use crate::state::{Next, Now, State, Turns};
use crate::values::{joined, list_of, reversed};
use lk_ast::{List, NoMemory, Value, copy_values};
use lk_code::CodeTables;
use lk_ir::{Cont, Form};
use std::alloc::Global;

impl State {
    /// Goes on with the body of a `for` for each of these values.
    pub fn each(
        &mut self,
        alloc: Global,
        tables: &CodeTables,
        node: u32,
        form: &Form,
        name: u32,
        body: u32,
        values: List<Value>,
        scope: Scope,
    ) -> Result<Next, NoMemory>
        requires run { IsWhole tables.now }
        requires typed { MayMove tables.now (λ t. ActsAt tables.now self.old.place (each_of form.now.at name body values scope) t × IsForOf tables.now self.old.place t node form.now name body values scope) self.old }
        ensures leads { IfOk result (Leads tables.now self.old (performed tables.now self.old.place (each_of form.now.at name body values scope)) self.new) }
        ensures kept { IfOk result (Moves tables.now (λ t. ActsAt tables.now self.old.place (each_of form.now.at name body values scope) t × IsForOf tables.now self.old.place t node form.now name body values scope) self.old self.new) }
    {
        let left = reversed(values);
        let made = List::new(alloc);
        let Some(cont) = cont_at(tables, node, form.parts.len()) else {
            let turns = Turns {
                at: form.at,
                name,
                body,
                left,
                scope,
                made,
            };
            return Ok(self.turn_plainly(tables, turns));
        };
        let names = names_of(alloc, cont.keeps.as_slice())?;
        let Some(kept) = scope.copies(alloc, names.as_slice())? else {
            unreachable!();
        };
        self.turn(
            alloc, tables, node, form, cont, name, body, made, left, kept,
        )
    }

    /// Lets a `for` wait for its body at the next element, or has the list that was made.
    pub fn turn(
        &mut self,
        alloc: Global,
        tables: &CodeTables,
        node: u32,
        form: &Form,
        cont: &Cont,
        name: u32,
        body: u32,
        made: List<Value>,
        left: List<Value>,
        kept: List<Value>,
    ) -> Result<Next, NoMemory>
        requires run { IsWhole tables.now }
        requires typed { MayMove tables.now (λ t. IsTurning tables.now self.old.place t node form.now name body cont.now made left kept) self.old }
        ensures leads { IfOk result (Leads tables.now self.old (each (language tables.now) (eval (language tables.now)) form.now.at (map (λ v. under (bind name v (kept_names tables.now cont.now kept)) body) (reverse left)) self.old.place made) self.new) }
        ensures kept { IfOk result (Moves tables.now (λ t. IsTurning tables.now self.old.place t node form.now name body cont.now made left kept) self.old self.new) }
    {
        let mut left = left;
        let Some(value) = left.pop() else {
            return Ok(self.has(tables, Value::List(made)));
        };
        let names = names_of(alloc, cont.keeps.as_slice())?;
        let again = copy_values(alloc, kept.as_slice())?;
        let scope = Scope::new(alloc).bind_each(names.as_slice(), again)?;
        let inner = scope.bind(name, value)?;
        let mut env = List::new(alloc);
        env.push(Value::List(made))?;
        env.push(Value::List(left))?;
        let env = joined(env, kept)?;
        self.push(tables, cont.order, env)?;
        self.now = Now::Enter(body, inner);
        Ok(Next::More)
    }

    /// Is to enter a plain body for the next element, or has the list that was made.
    fn turn_plainly(&mut self, tables: &CodeTables, turns: Turns) -> Next
        requires run { IsWhole tables.now }
        requires typed { MayMove tables.now (λ t. AreTurnsOf tables.now t turns) self.old }
        ensures leads { Leads tables.now self.old (each (language tables.now) (eval (language tables.now)) turns.at (bodies turns) self.old.place turns.made) self.new result }
        ensures kept { Moves tables.now (λ t. AreTurnsOf tables.now t turns) self.old self.new result }
    {
        if turns.left.is_empty() {
            self.has(tables, Value::List(turns.made))
        } else {
            self.now = Now::Turn(turns);
            Next::More
        }
    }

    /// Enters a plain body for the next element.
    pub fn enter_plainly(
        &mut self,
        alloc: Global,
        tables: &CodeTables,
        turns: Turns,
    ) -> Result<Next, NoMemory>
        requires run { IsWhole tables.now }
        requires typed { MayMove tables.now (λ t. AreTurnsOf tables.now t turns) self.old }
        requires left { turns.left ≡ [] → ⊥ }
        ensures leads { IfOk result (EntersTo tables.now self.old (each (language tables.now) (eval (language tables.now)) turns.at (bodies turns) self.old.place turns.made) self.new) }
        ensures kept { IfOk result (Moves tables.now (λ t. AreTurnsOf tables.now t turns) self.old self.new) }
    {
        let Turns {
            at,
            name,
            body,
            mut left,
            scope,
            made,
        } = turns;
        let Some(value) = left.pop() else {
            unreachable!();
        };
        let scope = scope.bind(name, value)?;
        let forms = tables.forms.get();
        let Some(form) = form_at(forms, body) else {
            unreachable!();
        };
        match plain_act(alloc, Node { forms, form }, &scope)? {
            Act::Give(value) => {
                let Some(values) = list_of(value) else {
                    unreachable!();
                };
                let turns = Turns {
                    at,
                    name,
                    body,
                    left,
                    scope,
                    made: joined(made, values)?,
                };
                Ok(self.turn_plainly(tables, turns))
            }
            _ => unreachable!(),
        }
    }
}
