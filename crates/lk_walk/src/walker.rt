//! What is noted on a walk through expressions.

ghost use Rattle.lk_typing.specs.Steps.{same_at};
ghost use Rattle.lk_typing.specs.Names.{types_of};
ghost use Rattle.lk_typing.specs.Walk.{params_from};
ghost use Rattle.lk_equations.specs.Forms.{as_told};
ghost use Rattle.lk_equations.specs.Made.{as_own};
ghost use Rattle.lk_walk.specs.Went.{bound_all, entered, left_by, numbered, said, settled, told_by, unbound};
ghost use Rattle.std.specs.Prelude.{◌≡◌, ◌+◌, ◌++◌, drop, length, IfOk, OnOk};

use lk_ast::{List, NoMemory, Span, Word};
use lk_equations::{Own, Scope, Told, moved};
use lk_types::{Equation, Ty};
use lk_typing::{Said, Step};
use std::alloc::Global;
use std::mem;

/// What is noted on a walk through expressions.
#[derive(Drop)]
pub struct Walker<'p> {
    /// What the local names in scope stand for.
    pub names: Scope<'p, Ty>,
    /// The types of the nodes that were entered, in text order. That of a node is known once it is left.
    pub types: List<Ty>,
    /// What was said.
    pub steps: List<Step>,
    /// The next number for a variable.
    pub next: u32,
}

/// Equations that are said at a place of the text.
fn say_all(steps: &mut List<Step>, at: Span, equations: List<Equation>) -> Result<(), NoMemory>
    ensures { OnOk result (steps.new ≡ steps.old ++ same_at at equations) }
{
    for equation in equations.into_vec() {
        let said = Said::Same(equation);
        steps.push(Step { at, said })?;
    }
    Ok(())
}

/// The types of parameters whose variables have the numbers from there on.
pub fn new_types(alloc: Global, params: &[Word], first: u32) -> Result<List<Ty>, NoMemory>
    ensures { IfOk result (λ types. types ≡ types_of (params_from first params.now)) }
{
    let mut types = List::new(alloc);
    let mut number = first;
    for _param in params {
        types.push(Ty::Var(number))?;
        number = moved(number, 1)?;
    }
    Ok(types)
}

/// Parameters whose variables have the numbers from there on, the first one last: of two with one name the first counts.
/// The answer is the next number.
pub fn push_params<'p>(
    names: &mut Scope<'p, Ty>,
    params: &'p [Word],
    first: u32,
) -> Result<u32, NoMemory>
    ensures names { OnOk result (names.new ≡ params_from first params.now ++ names.old) }
    ensures next { IfOk result (λ next. next ≡ length params.now + first) }
{
    let count = u32::try_from(params.len()).ok().ok_or(NoMemory)?;
    let next = moved(first, count)?;
    let mut number = next;
    let mut rest = params;
    while let Some((param, front)) = rest.split_last() {
        number -= 1;
        names.push(param.text.as_str(), Ty::Var(number))?;
        rest = front;
    }
    Ok(next)
}

/// Takes names away, those that came last.
fn drop_names(names: &mut Scope<Ty>, count: usize)
    ensures { names.new ≡ drop count names.old }
{
    for _i in 0..count {
        names.pop();
    }
}

impl<'p> Walker<'p> {
    /// A number for a new variable.
    pub fn number(&mut self) -> Result<u32, NoMemory>
        ensures next { OnOk result (self.new ≡ numbered self.old) }
        ensures number { IfOk result (λ number. number ≡ self.old.next) }
    {
        let number = self.next;
        self.next = number.checked_add(1).ok_or(NoMemory)?;
        Ok(number)
    }

    /// Names of parameters, each of some type. The answer is their types.
    pub fn bind_all(&mut self, alloc: Global, params: &'p [Word]) -> Result<List<Ty>, NoMemory>
        ensures bound { OnOk result (self.new ≡ bound_all params.now self.old) }
        ensures types { IfOk result (λ types. types ≡ types_of (params_from self.old.next params.now)) }
    {
        let first = self.next;
        let types = new_types(alloc, params, first)?;
        self.next = push_params(&mut self.names, params, first)?;
        Ok(types)
    }

    /// Takes names away, those that came last.
    pub fn unbind(&mut self, count: usize)
        ensures { self.new ≡ unbound count self.old }
    {
        drop_names(&mut self.names, count);
    }

    /// Says equations, and goes on with the number behind them.
    pub fn tell(&mut self, at: Span, told: Told) -> Result<(), NoMemory>
        ensures { OnOk result (self.new ≡ told_by at (as_told told) self.old) }
    {
        self.next = told.next;
        self.say(at, told.equations)
    }

    /// Enters a node. The answer is its place among the nodes.
    pub fn enter(&mut self) -> Result<usize, NoMemory>
        ensures entered { OnOk result (self.new ≡ entered self.old) }
        ensures slot { IfOk result (λ slot. slot ≡ length self.old.types) }
    {
        let slot = self.types.len();
        self.types.push(Ty::Int)?;
        Ok(slot)
    }

    /// Says equations at a place of the text.
    pub fn say(&mut self, at: Span, equations: List<Equation>) -> Result<(), NoMemory>
        ensures { OnOk result (self.new ≡ said at equations self.old) }
    {
        say_all(&mut self.steps, at, equations)
    }

    /// Leaves a node, of which this is said. The answer is the number of the variable for its type.
    pub fn leave(&mut self, alloc: Global, at: Span, slot: usize, own: Own) -> Result<u32, NoMemory>
        ensures left { OnOk result (self.new ≡ left_by at slot (as_own own) self.old) }
        ensures number { IfOk result (λ number. number ≡ own.next) }
    {
        let number = own.next;
        self.next = number.checked_add(1).ok_or(NoMemory)?;
        self.say(at, own.equations)?;
        self.steps.push(Step {
            at,
            said: Said::Typed(number, own.ty),
        })?;
        self.settle(alloc, slot, number);
        Ok(number)
    }

    /// Notes the variable for the type of the node at this place among the nodes.
    fn settle(&mut self, alloc: Global, slot: usize, number: u32)
        ensures { self.new ≡ settled slot number self.old }
    {
        let mut types = mem::replace(&mut self.types, List::new(alloc)).into_vec();
        if slot < types.len() {
            types[slot] = Ty::Var(number);
        }
        self.types = List::from_vec(types);
    }
}
