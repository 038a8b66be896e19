//! Inference for the functions of one declaration.

ghost use Rattle.lk_ast.specs.declared.place.Span.{Span as TheSpan};
ghost use Rattle.lk_infer.specs.Inferred.{IsInferred};
ghost use Rattle.lk_infer.specs.LacksInOrder.{IsSchemeInOrder};
ghost use Rattle.lk_infer.specs.Refusals.{AllFine, IsIllTyped, IsTooLarge};
ghost use Rattle.lk_infer.specs.Walked.{IsPlain, IsSolved};
ghost use Rattle.lk_infer.specs.declared.error.InferError.TheVariants as errors;
ghost use Rattle.lk_types.specs.Each.{Each};
ghost use Rattle.lk_typing.specs.EffectRows.{IsEvenScheme};
ghost use Rattle.lk_typing.specs.Groups.{group_walked};
ghost use Rattle.std.specs.Prelude.{◌≡◌, false, Err, IfOk};

use crate::error::InferError;
use crate::late::{first_node, refuse_late};
use crate::schemes::schemes_of;
use crate::solving::solve_walk;
use lk_ast::{Decl, List};
use lk_equations::{Known, Scope, Tables};
use lk_types::{Scheme, Types};
use lk_typing::typing_laws;
use lk_walk::{GroupWalk, walk_group};
use std::alloc::Global;

/// What is inferred of the functions of a declaration.
#[derive(Drop)]
pub struct Group {
    /// The scheme of each function, in text order.
    pub schemes: List<Scheme>,
    /// The type of each node, in pre-order.
    pub types: Types,
}

/// Schemes of the functions and types of the nodes, by what a walk says of them.
fn generalise(alloc: Global, walk: GroupWalk) -> Result<Group, InferError>
    requires functions { Each IsPlain walk.functions }
    requires nodes { Each IsPlain walk.nodes }
    ensures solved { IfOk result (λ group. IsSolved walk group.schemes group.types) }
    ensures in_order { IfOk result (λ group. Each IsSchemeInOrder group.schemes) }
    ensures fine { IfOk result (λ group. AllFine false walk.steps) }
    ensures ill_typed { (at : TheSpan) → result ≡ Err (errors.IllTyped at) → IsIllTyped false walk.steps at }
    ensures too_large { (at : TheSpan) → result ≡ Err (errors.TypeTooLarge at) → IsTooLarge false walk.steps at }
{
    let functions = walk.functions.len();
    let nodes = walk.nodes.len();
    let all = solve_walk(alloc, walk)?;
    let schemes = schemes_of(alloc, &all, functions)?;
    let types = all.into_part(functions, nodes)?;
    Ok(Group { schemes, types })
}

/// What is inferred of the functions of a declaration, after functions with schemes. `large` says whether a type of a node before
/// it is too large.
pub fn infer_group<'p>(
    alloc: Global,
    earlier: &Scope<'p, Known>,
    tables: &Tables<'p>,
    decl: &'p Decl,
    large: bool,
) -> Result<Group, InferError>
    requires { Each (λ entry. IsEvenScheme entry.1) earlier.now }
    ensures inferred { IfOk result (λ group. IsInferred earlier.now tables.now decl.now group.schemes group.types) }
    ensures even { IfOk result (λ group. Each IsEvenScheme group.schemes) }
    ensures in_order { IfOk result (λ group. Each IsSchemeInOrder group.schemes) }
    ensures fine { IfOk result (λ group. AllFine large (group_walked earlier.now tables.now decl.now).steps) }
    ensures ill_typed { (at : TheSpan) → result ≡ Err (errors.IllTyped at) → IsIllTyped large (group_walked earlier.now tables.now decl.now).steps at }
    ensures too_large { (at : TheSpan) → result ≡ Err (errors.TypeTooLarge at) → IsTooLarge large (group_walked earlier.now tables.now decl.now).steps at }
{
    typing_laws();
    let walk = walk_group(alloc, earlier, tables, decl)?;
    if !large {
        return generalise(alloc, walk);
    }
    match first_node(walk.steps.as_slice()) {
        Some(first) => Err(refuse_late(alloc, walk, first)),
        None => generalise(alloc, walk),
    }
}
