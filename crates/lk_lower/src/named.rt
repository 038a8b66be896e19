//! Nodes that name locals, or functions of the program.

ghost use Rattle.lk_ast.specs.declared.expression.Expr.{Expr as TheExpr};
ghost use Rattle.lk_ast.specs.declared.expression.Node.TheOpen.{Node-F};
ghost use Rattle.lk_ast.specs.declared.place.Word.{Word as TheWord};
ghost use Rattle.lk_lower.specs.Lowering.{last_name, text_of};
ghost use Rattle.lk_lower.specs.Steps.{AreCases, IsAnywhere, IsNamed, case_seen, form_seen, past};
ghost use Rattle.lk_lower.specs.Walked.{state_of};
ghost use Rattle.std.specs.Option.{option_copied, option_map};
ghost use Rattle.std.specs.Prelude.{◌≡◌, ℕ, IfOk, List as TheList, OnOk};

use crate::locals::{place_of, some_place};
use crate::walk::{Walk, take_type, take_use};
use lk_ast::{Case, LastCase, List, NoMemory, Text, Word};
use lk_ir::{CaseForm, Kind};
use std::alloc::Global;

/// The place of a name, behind the type of its node.
fn name_place(name: &Text, walk: &mut Walk) -> Result<u32, NoMemory>
    ensures name { IfOk result (λ place. IsNamed (state_of walk.old).locals place name.now) }
    ensures state { OnOk result (state_of walk.new ≡ past 1 0 (state_of walk.old)) }
{
    let place = place_of(walk.locals, name.as_str())?;
    take_type(walk);
    Ok(place)
}

/// A local name.
pub fn local(name: &Text, walk: &mut Walk) -> Result<Kind, NoMemory>
    ensures { IfOk result (λ kind. IsAnywhere (Node-F.Name name.now) (state_of walk.old) kind (state_of walk.new)) }
{
    Ok(Kind::Name(name_place(name, walk)?))
}

/// The value of a function.
pub fn function(walk: &mut Walk) -> Result<Kind, NoMemory>
    ensures { IfOk result (λ kind. (h : TheList ℕ) → IsAnywhere (Node-F.Function h) (state_of walk.old) kind (state_of walk.new)) }
{
    Ok(Kind::Function(take_use(walk)?))
}

/// A call of a function.
pub fn call(walk: &mut Walk) -> Result<Kind, NoMemory>
    ensures { IfOk result (λ kind. (h : TheWord) (args : TheList TheExpr) → IsAnywhere (Node-F.Call h args) (state_of walk.old) kind (state_of walk.new)) }
{
    Ok(Kind::Call(take_use(walk)?))
}

/// A statement with a name.
pub fn bind(name: &Word, walk: &mut Walk) -> Result<Kind, NoMemory>
    ensures { IfOk result (λ kind. (e rest : TheExpr) → IsAnywhere (Node-F.Var name.now e rest) (state_of walk.old) kind (state_of walk.new)) }
{
    Ok(Kind::Bind(name_place(&name.text, walk)?))
}

/// A loop over a list.
pub fn list_loop(name: &Word, walk: &mut Walk) -> Result<Kind, NoMemory>
    ensures { IfOk result (λ kind. (e body : TheExpr) → IsAnywhere (Node-F.ForList name.now e body) (state_of walk.old) kind (state_of walk.new)) }
{
    Ok(Kind::For(name_place(&name.text, walk)?))
}

/// A loop over a table.
pub fn table_loop(name: &Word, walk: &mut Walk) -> Result<Kind, NoMemory>
    ensures { IfOk result (λ kind. (rows body : TheExpr) → IsAnywhere (Node-F.ForTable name.now rows body) (state_of walk.old) kind (state_of walk.new)) }
{
    Ok(Kind::For(name_place(&name.text, walk)?))
}

/// A switch over these cases.
pub fn switch(
    alloc: Global,
    cases: &List<Case>,
    last: &Option<LastCase>,
    walk: &mut Walk,
) -> Result<Kind, NoMemory>
    ensures { IfOk result (λ kind. (e : TheExpr) → IsAnywhere (Node-F.Switch e cases.now last.now) (state_of walk.old) kind (state_of walk.new)) }
{
    let forms = case_forms(alloc, walk.locals, cases.as_slice())?;
    let name = some_place(walk.locals, last_name(last))?;
    take_type(walk);
    Ok(Kind::Switch(forms, name))
}

/// The name that the last case binds.
fn last_name(last: &Option<LastCase>) -> Option<&Word>
    ensures { option_map text_of (option_copied result) ≡ option_map last_name last.now }
{
    match last {
        Some(last) => Some(&last.name),
        None => None,
    }
}

/// Cases with the places of the names that they bind.
fn case_forms(alloc: Global, locals: &[Text], cases: &[Case]) -> Result<List<CaseForm>, NoMemory>
    ensures { IfOk result (AreCases locals.now cases.now) }
{
    let mut forms = List::new(alloc);
    for case in cases {
        forms.push(case_form(alloc, locals, case)?)?;
    }
    Ok(forms)
}

fn case_form(alloc: Global, locals: &[Text], case: &Case) -> Result<CaseForm, NoMemory>
    ensures { IfOk result (λ form. form_seen locals.now form ≡ case_seen case.now) }
{
    let name = some_place(locals, case.name.as_ref())?;
    let tag = case.tag.text.copy(alloc)?;
    Ok(CaseForm { tag, name })
}
