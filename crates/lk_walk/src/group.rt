//! The walk through the functions of a declaration.

ghost use Rattle.lk_typing.specs.Groups.{group_types, group_walked};
ghost use Rattle.lk_walk.specs.Members.{all_shown, function_went, functions_went, shown};
ghost use Rattle.std.specs.Prelude.{◌≡◌, IfOk, OnOk};

use crate::context::Context;
use crate::expression::expr;
use crate::member::{Member, function_types, is_mutual, members_of, own_functions, told_before};
use crate::walker::{Walker, push_params};
use lk_ast::{Decl, List, NoMemory, functions_in};
use lk_equations::{Globals, Known, Scope, Tables, any_effects, moved, one, same};
use lk_types::Ty;
use lk_typing::Step;
use std::alloc::Global;

/// What a walk through the functions of a declaration says: the types of the functions, those of the nodes in text order,
/// each before those of the nodes in it, and what is said of them.
#[derive(Drop)]
pub struct GroupWalk {
    pub functions: List<Ty>,
    pub nodes: List<Ty>,
    pub steps: List<Step>,
}

/// Walks through the functions of a declaration, where functions of earlier ones have these schemes.
pub fn walk_group<'p>(
    alloc: Global,
    earlier: &Scope<'p, Known>,
    tables: &Tables<'p>,
    decl: &'p Decl,
) -> Result<GroupWalk, NoMemory>
    ensures functions { IfOk result (λ g. g.functions ≡ group_types decl.now) }
    ensures nodes { IfOk result (λ g. g.nodes ≡ (group_walked earlier.now tables.now decl.now).nodes) }
    ensures steps { IfOk result (λ g. g.steps ≡ (group_walked earlier.now tables.now decl.now).steps) }
{
    let group = members_of(alloc, functions_in(decl))?;
    let own = own_functions(alloc, group.all.as_slice())?;
    let globals = Globals {
        own,
        earlier,
        tables,
    };
    let mut walker = Walker {
        names: Scope::new(alloc),
        types: List::new(alloc),
        steps: List::new(alloc),
        next: group.next,
    };
    let all = group.all.as_slice();
    walk_members(alloc, &globals, &mut walker, all, is_mutual(decl))?;
    let functions = function_types(alloc, all)?;
    let Walker { types, steps, .. } = walker;
    Ok(GroupWalk {
        functions,
        nodes: types,
        steps,
    })
}

/// Walks through functions, one after another.
fn walk_members<'p>(
    alloc: Global,
    globals: &Globals,
    walker: &mut Walker<'p>,
    members: &[Member<'p>],
    in_mutual: bool,
) -> Result<(), NoMemory>
    ensures { OnOk result (walker.new ≡ functions_went globals.now in_mutual (all_shown members.now) walker.old) }
{
    for member in members {
        walk_member(alloc, globals, walker, member, in_mutual)?;
    }
    Ok(())
}

/// Walks through a function.
fn walk_member<'p>(
    alloc: Global,
    globals: &Globals,
    walker: &mut Walker<'p>,
    member: &Member<'p>,
    in_mutual: bool,
) -> Result<(), NoMemory>
    ensures { OnOk result (walker.new ≡ function_went globals.now in_mutual (shown member.now) walker.old) }
{
    let f = member.function;
    let params = f.params.as_slice();
    let before = told_before(alloc, in_mutual, f, member.first, walker.next)?;
    walker.tell(f.name.at, before)?;
    push_params(&mut walker.names, params, moved(member.first, 2)?)?;
    let context = Context {
        globals,
        effects: &any_effects(alloc, member.first),
    };
    let body = expr(alloc, &context, walker, &f.body)?;
    walker.unbind(params.len());
    let answer = Ty::Var(moved(member.first, 1)?);
    let answers = one(alloc, same(answer, Ty::Var(body)))?;
    walker.say(f.name.at, answers)
}
