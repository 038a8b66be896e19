//! What is said of expressions that bind no name, by their operators.

ghost use Rattle.std.specs.Prelude.{◌≡◌, ◌∷◌, [], IfOk};
ghost use Rattle.lk_ast.specs.declared.expression.Node.{out-Node};
ghost use Rattle.lk_types.specs.declared.ty.Effects.{Effects as TheEffects};
ghost use Rattle.lk_types.specs.declared.ty.Ty.{Ty};
ghost use Rattle.lk_typing.specs.Heads.{head};
ghost use Rattle.lk_typing.specs.Names.{Named, Entry};
ghost use Rattle.lk_typing.specs.Typing.{label_of, expr_of};
ghost use Rattle.lk_equations.specs.Fixed.{fixed_at, IsSaid};
ghost use Rattle.lk_equations.specs.Made.{as_own};
ghost use Rattle.lk_equations.specs.Seen.{functions_seen, own_at};

use crate::functions::{applied, called, local, used};
use crate::operators::{
    acting, append, both, choice, comparison, cons, division, filter, from_base, from_list,
    part_of_list, projection, sequence, tagged,
};
use crate::own::{Globals, Own, never, only};
use crate::records::{closed_record, extended, inserted, items, rows};
use crate::scope::Scope;
use crate::unknowns::{list_of, unit};
use lk_ast::{List, NoMemory, Node};
use lk_types::{Effect, Effects, Ty};
use std::alloc::Global;

/// What is said of an expression that binds no name, whose parts have these types.
pub fn own_of(
    alloc: Global,
    globals: &Globals,
    names: &Scope<Ty>,
    effects: &Effects,
    node: &Node,
    types: List<Ty>,
    next: u32,
) -> Result<Own, NoMemory>
    ensures { IfOk result (λ made. as_own made ≡ own_at (functions_seen globals.now.own globals.now.earlier.now) globals.now.tables.now names.now effects.now (head label_of expr_of (out-Node node.now)) types next) }
{
    match node {
        Node::Call(name, _) => {
            let function = used(alloc, globals, name.text.as_str(), next)?;
            called(alloc, effects, types, function)
        }
        Node::Apply(..) => match types.as_slice() {
            [function, args @ ..] => applied(alloc, effects, function, args, next),
            [] => never(alloc, next),
        },
        Node::Record(parts) => {
            let parts = parts.as_slice();
            closed_record(alloc, parts, types.as_slice(), next)
        }
        Node::Extend(parts, _) => {
            let parts = parts.as_slice();
            extended(alloc, parts, types.as_slice(), next)
        }
        Node::List(_) => items(alloc, types, next),
        _ => fixed(alloc, globals, names, effects, node, types.as_slice(), next),
    }
}

/// What is said of an operator that has a number of parts.
#[tactic(auto, using(crate::proofs::Counts::too_many))]
fn fixed(
    alloc: Global,
    globals: &Globals,
    names: &Scope<Ty>,
    effects: &Effects,
    node: &Node,
    types: &[Ty],
    next: u32,
) -> Result<Own, NoMemory>
    ensures { IfOk result (λ made. as_own made ≡ fixed_at (functions_seen globals.now.own globals.now.earlier.now) globals.now.tables.now names.now effects.now (head label_of expr_of (out-Node node.now)) types.now next) }
{
    match types {
        [] => leaf(alloc, globals, names, effects, node, next),
        [a] => unary(alloc, globals, effects, node, a, next),
        [a, b] => binary(alloc, effects, node, a, b, next),
        [a, b, c] => ternary(alloc, node, a, b, c, next),
        _ => never(alloc, next),
    }
}

/// What is said of an expression without parts.
fn leaf(
    alloc: Global,
    globals: &Globals,
    names: &Scope<Ty>,
    effects: &Effects,
    node: &Node,
    next: u32,
) -> Result<Own, NoMemory>
    ensures { IfOk result (λ made. as_own made ≡ fixed_at (functions_seen globals.now.own globals.now.earlier.now) globals.now.tables.now names.now effects.now (head label_of expr_of (out-Node node.now)) [] next) }
{
    match node {
        Node::Int(_) => Ok(only(alloc, Ty::Int, next)),
        Node::Text(_) => Ok(only(alloc, Ty::Text, next)),
        Node::Bool(_) => Ok(only(alloc, Ty::Bool, next)),
        Node::Name(name) => local(alloc, names, name.as_str(), next),
        Node::Function(name) => used(alloc, globals, name.as_str(), next),
        Node::Table(name) => {
            let name = name.text.as_str();
            rows(alloc, globals.tables, effects, name, next)
        }
        _ => never(alloc, next),
    }
}

/// What is said of an expression with one part.
fn unary(
    alloc: Global,
    globals: &Globals,
    effects: &Effects,
    node: &Node,
    a: &Ty,
    next: u32,
) -> Result<Own, NoMemory>
    ensures { IfOk result (λ made. (functions : Named (Entry Ty)) (names : Named Ty) → as_own made ≡ fixed_at functions globals.now.tables.now names effects.now (head label_of expr_of (out-Node node.now)) (a.now ∷ []) next) }
{
    match node {
        Node::Neg(_) => from_base(alloc, Ty::Int, Ty::Int, a, next),
        Node::Not(_) => from_base(alloc, Ty::Bool, Ty::Bool, a, next),
        Node::Hd(_) => part_of_list(alloc, effects, Ty::Var(next), a, next),
        Node::Tl(_) => {
            let rest = list_of(alloc, Ty::Var(next))?;
            part_of_list(alloc, effects, rest, a, next)
        }
        Node::Empty(_) => from_list(alloc, Ty::Bool, a, next),
        Node::IntToString(_) => {
            let said = from_base(alloc, Ty::Int, Ty::Text, a, next)?;
            acting(alloc, said, effects, Effect::Local)
        }
        Node::Print(_) => {
            let said = from_base(alloc, Ty::Text, unit(alloc), a, next)?;
            acting(alloc, said, effects, Effect::Print)
        }
        Node::Project(_, label) => projection(alloc, label.text.as_str(), a, next),
        Node::Tag(tag, _) => tagged(alloc, tag.text.as_str(), a, next),
        Node::Insert(name, _) => {
            let name = name.text.as_str();
            inserted(alloc, globals.tables, effects, name, a, next)
        }
        _ => never(alloc, next),
    }
}

/// What is said of an expression with two parts.
fn binary(
    alloc: Global,
    effects: &Effects,
    node: &Node,
    a: &Ty,
    b: &Ty,
    next: u32,
) -> Result<Own, NoMemory>
    ensures { IfOk result (λ made. IsSaid effects.now (head label_of expr_of (out-Node node.now)) (a.now ∷ b.now ∷ []) next (as_own made)) }
{
    match node {
        Node::Seq(..) => sequence(alloc, a, b, next),
        Node::And(..) | Node::Or(..) => both(alloc, Ty::Bool, Ty::Bool, a, b, next),
        Node::Concat(..) => both(alloc, Ty::Text, Ty::Text, a, b, next),
        Node::Append(..) => append(alloc, a, b, next),
        Node::Cons(..) => cons(alloc, effects, a, b, next),
        Node::Add(..) | Node::Sub(..) | Node::Mul(..) => {
            both(alloc, Ty::Int, Ty::Int, a, b, next)
        }
        Node::Div(..) | Node::Mod(..) => division(alloc, effects, a, b, next),
        Node::Eq(..) | Node::Ne(..) | Node::Lt(..) | Node::Le(..) | Node::Gt(..) | Node::Ge(..) =>
            comparison(alloc, a, b, next),
        Node::Where(..) => filter(alloc, a, b, next),
        _ => never(alloc, next),
    }
}

/// What is said of an expression with three parts.
fn ternary(alloc: Global, node: &Node, a: &Ty, b: &Ty, c: &Ty, next: u32) -> Result<Own, NoMemory>
    ensures { IfOk result (λ made. (effects : TheEffects) → IsSaid effects (head label_of expr_of (out-Node node.now)) (a.now ∷ b.now ∷ c.now ∷ []) next (as_own made)) }
{
    match node {
        Node::If(..) => choice(alloc, a, b, c, next),
        _ => never(alloc, next),
    }
}
