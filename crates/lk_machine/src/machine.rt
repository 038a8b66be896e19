//! Machines.

ghost use Rattle.lk_code.specs.Chains.{ChainFits};
ghost use Rattle.lk_code.specs.Meaning.{does, rest};
ghost use Rattle.lk_code.specs.TypedLaw.{IsWhole};
ghost use Rattle.lk_fits.specs.Values.{Fits};
ghost use Rattle.lk_code.specs.Values.{IsFun};
ghost use Rattle.lk_ir.specs.Tables.{body_at as body_of_label};
ghost use Rattle.lk_machine.specs.Going.{begun, doing, given, waiting};
ghost use Rattle.lk_code.specs.declared.tables.CodeTables.{CodeTables as Tables};
ghost use Rattle.lk_code.specs.declared.tables.Frame.{Frame as TheFrame};
ghost use Rattle.lk_machine.specs.Stepped.{GoesOn, Stepped};
ghost use Rattle.lk_machine.specs.Typed.{AreFrames, IsOf, IsPlace, Leaves, MayStart, MaySteps};
ghost use Rattle.lk_machine.specs.declared.state.Next.{Next as TheNext};
ghost use Rattle.lk_machine.specs.declared.state.Next.TheVariants as next;
ghost use Rattle.lk_machine.specs.declared.state.Now.TheVariants as now;
ghost use Rattle.lk_ast.specs.declared.place.Loc.TheVariants as loc;
ghost use Rattle.lk_evaluation.specs.Run.{Run};
ghost use Rattle.lk_types.specs.declared.ground.Ground.{Ground};
ghost use Rattle.std.specs.Option.{option_copied};
ghost use Rattle.std.specs.Prelude.{◌≡◌, ◌≤◌, ◌∷◌, None, Some, IfOk, IfSome, length};

use crate::frames::turned;
use crate::look::body_at;
use crate::scope::Scope;
use crate::state::{Held, Next, Now, State};
use lk_ast::{List, Loc, NoMemory, Text, Value};
use lk_code::{Code, CodeTables, Frame};
use lk_ir::Forms;
use std::alloc::Global;
use std::marker::Model;
use std::mem;

/// A machine that runs code at a place. Contracts see all that it holds.
#[derive(Drop)]
pub struct Machine {
    state: State,
}

impl Model for Machine {
    ghost use Rattle.lk_ast.specs.contracts.value.Value as v;
    ghost use Rattle.lk_machine.specs.contracts.scope.Scope as s;
    ghost use Rattle.lk_machine.specs.declared.state.State.{State as TheState};
    ghost use Rattle.std.specs.Coded.{codes};

    ghost Value = { TheState };

    ghost coded = { Prim.hlevel (codes, v.the_row.coded, s.the_row.coded) };

    ghost view = { λ machine. machine.state };
}

impl Machine {
    /// A machine that begins with what has a label, of this place or of any, on these values, those that a lambda keeps first.
    pub fn start(
        alloc: Global,
        c: &Code,
        place: Loc,
        label: u32,
        args: List<Value>,
    ) -> Result<Machine, NoMemory>
        requires run { IsWhole c.now.tables }
        requires place { IsPlace place }
        requires fit { (u : Ground) × MayStart c.now.tables place label args u }
        ensures going { IfOk result (λ m. (r : Run) → doing c.now.tables m r ≡ does c.now.tables label args place r) }
        ensures typed { IfOk result (λ m. (u : Ground) → MayStart c.now.tables place label args u → MaySteps c.now.tables m u) }
        ensures place { IfOk result (λ m. m.place ≡ place) }
        ensures on { IfOk result (λ m. place ≡ loc.Client → GoesOn c.now.tables m) }
    {
        let mut stack = List::new(alloc);
        stack.push(Frame {
            number: label,
            env: List::new(alloc),
        })?;
        let now = beginning(alloc, c.tables().forms.get(), label, args)?;
        let state = State {
            place,
            stack,
            now,
            printed: None,
        };
        Ok(Machine { state })
    }

    /// A machine that gives frames of this place or of any, the next one first, the value that they wait for.
    pub fn resume(
        alloc: Global,
        c: &Code,
        place: Loc,
        frames: List<Frame>,
        value: Value,
    ) -> Result<Machine, NoMemory>
        requires run { IsWhole c.now.tables }
        requires place { IsPlace place }
        requires fit { (t : Ground) × (u : Ground) × AreFrames c.now.tables place frames t u × Fits (IsFun c.now.tables) value t }
        ensures going { IfOk result (λ m. (r : Run) → doing c.now.tables m r ≡ rest c.now.tables frames place value r) }
        ensures typed { IfOk result (λ m. (t u : Ground) → AreFrames c.now.tables place frames t u → Fits (IsFun c.now.tables) value t → MaySteps c.now.tables m u) }
        ensures place { IfOk result (λ m. m.place ≡ place) }
        ensures on { IfOk result (λ m. place ≡ loc.Client → (f g : TheFrame) (fs : _) → frames ≡ f ∷ g ∷ fs → GoesOn c.now.tables m) }
    {
        let stack = turned(alloc, c.tables(), frames)?;
        let state = State {
            place,
            stack,
            now: Now::Give(value),
            printed: None,
        };
        Ok(Machine { state })
    }

    /// One step. Where the answer is Db, the machine waits for a value: `give` has it. Behind a call of the other place, an end, or a want
    /// of memory it makes no step more.
    pub fn step(&mut self, alloc: Global, c: &Code) -> Result<Next, NoMemory>
        requires run { IsWhole c.now.tables }
        requires typed { (u : Ground) × MaySteps c.now.tables self.old u }
        ensures stepped { IfOk result (Stepped c.now.tables self.old self.new) }
        ensures kept { IfOk result (λ answer. (u : Ground) → MaySteps c.now.tables self.old u → Leaves c.now.tables self.new u answer) }
        ensures on { IfOk result (λ answer. self.old.place ≡ loc.Client → answer ≡ next.More → GoesOn c.now.tables self.new) }
        ensures place { IfOk result (λ answer. self.new.place ≡ self.old.place) }
    {
        self.state.step(alloc, c)
    }

    /// The value that tables have answered, or the unit value where they were changed. Takes no memory.
    pub fn give(&mut self, value: Value)
        requires { self.old.now ≡ now.Waits }
        ensures now { self.new ≡ record self.old { now = now.Give value } }
        ensures going { (c : Tables) (r : Run) → doing c self.new r ≡ given c self.old value r }
        ensures typed { (c : Tables) (t u : Ground) → IsOf c self.old t u → Fits (IsFun c) value t → MaySteps c self.new u }
    {
        self.state.now = Now::Give(value);
    }

    /// The frames that wait behind the call that the last step answered, the next one first. Takes no memory.
    pub fn into_frames(self) -> List<Frame>
        ensures { result ≡ self.stack }
    {
        let Machine { state } = self;
        let State {
            place: _,
            stack,
            now: _,
            printed: _,
        } = state;
        stack
    }

    /// What the last step has printed at the client, once. Takes no memory.
    pub fn take_printed(&mut self) -> Option<Text>
        ensures printed { result ≡ self.old.printed }
        ensures left { self.new ≡ record self.old { printed = None } }
    {
        mem::replace(&mut self.state.printed, None)
    }
}

/// What comes first where what has this label is called with these arguments, those that a lambda keeps first.
fn beginning(alloc: Global, forms: &Forms, label: u32, args: List<Value>) -> Result<Now, NoMemory>
    requires long { IfSome (body_of_label forms.now label) (λ b. length b.params ≤ length args) }
    ensures { IfOk result (λ now. now ≡ begun (body_of_label forms.now label) label args) }
{
    let Some(body) = body_at(forms, label) else {
        return Ok(Now::First(label, args));
    };
    let mut kept = args.into_vec();
    let Some(at) = kept.len().checked_sub(body.params.len()) else {
        unreachable!();
    };
    let passed = kept.split_off(at)?;
    let scope = Scope::new(alloc).bind_each(body.names.as_slice(), List::from_vec(kept))?;
    let scope = scope.bind_each(body.params.as_slice(), List::from_vec(passed))?;
    Ok(Now::Enter(body.root, scope))
}

impl State {
    /// One step, by what it begins with.
    fn step(&mut self, alloc: Global, c: &Code) -> Result<Next, NoMemory>
        requires run { IsWhole c.now.tables }
        requires typed { (u : Ground) × MaySteps c.now.tables self.old u }
        ensures stepped { IfOk result (Stepped c.now.tables self.old self.new) }
        ensures kept { IfOk result (λ answer. (u : Ground) → MaySteps c.now.tables self.old u → Leaves c.now.tables self.new u answer) }
        ensures place { IfOk result (λ answer. self.new.place ≡ self.old.place) }
    {
        let tables = c.tables();
        self.printed = None;
        match mem::replace(&mut self.now, Now::Over) {
            Now::Enter(node, scope) => {
                let done = List::new(alloc);
                self.go_on(alloc, tables, Held { node, scope, done })
            }
            Now::Hold(held) => self.enter_part(alloc, tables, held),
            Now::Turn(turns) => self.enter_plainly(alloc, tables, turns),
            Now::Give(value) => self.hand(alloc, tables, value),
            Now::Cross(label, args) => self.cross(alloc, tables, label, args),
            Now::First(label, args) => {
                self.now = Now::Waits;
                Ok(Next::Db(label, args))
            }
            Now::Waits | Now::Over => unreachable!(),
        }
    }

    /// Crosses to the other place, with the frames as others see them.
    fn cross(
        &mut self,
        alloc: Global,
        tables: &CodeTables,
        label: u32,
        args: List<Value>,
    ) -> Result<Next, NoMemory>
        ensures { IfOk result (λ answer. (answer ≡ next.CallOut label args) × (self.new ≡ record self.old { stack = waiting tables.now self.old.stack })) }
    {
        let stack = mem::replace(&mut self.stack, List::new(alloc));
        self.stack = turned(alloc, tables, stack)?;
        Ok(Next::CallOut(label, args))
    }
}
