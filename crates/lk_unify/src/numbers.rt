//! Numbers of variables for the classes of which nothing is known.

ghost use Rattle.std.specs.Prelude.{◌≡◌, ℕ, ◌<◌, ◌≤◌, ◌+◌, IfOk, IsTrue, false, true, None, length};
ghost use Rattle.lk_classes.specs.Classes.{class_at};
ghost use Rattle.lk_arena.specs.Kinds.{Kind};
ghost use Rattle.lk_unify.specs.Loading.{node_for, IsKinded, IsLoader};
ghost use Rattle.lk_unify.specs.Reading.{is_own_class, name_in, IsNaming, IsUnused};

use crate::loader::Loader;
use lk_arena::is_loose;
use lk_ast::NoMemory;
use lk_types::Variable;
use std::alloc::Global;

/// Whether no variable with this number has a node.
fn is_unused(loader: &Loader, number: u32) -> bool
    ensures { IsTrue result → IsUnused loader.now number }
{
    if loader.node_for(Variable::Plain(number)).is_some() {
        return false;
    }
    if loader.node_for(Variable::Row(number)).is_some() {
        return false;
    }
    loader.node_for(Variable::Effects(number)).is_none()
}

/// A number from this one on, with which no variable has a node. Refused where none is left.
fn next_unused(loader: &Loader, from: u32) -> Result<u32, NoMemory>
    ensures unused { IfOk result (λ number. IsUnused loader.now number) }
    ensures from { IfOk result (λ number. from ≤ number) }
{
    let mut number = from;
    'up: while !is_unused(loader, number) {
        let Some(next) = number.checked_add(1) else {
            return Err(NoMemory);
        };
        number = next;
    }
    Ok(number)
}

/// Whether the node names a class of which nothing is known.
fn is_own(loader: &Loader, node: usize) -> bool
    requires whole { IsLoader loader.now }
    requires node { node < length loader.now.arena.shapes }
    ensures { result ≡ is_own_class loader.now node }
{
    loader.arena.class_of(node) == node && is_loose(loader.arena.shape_of(node))
}

/// A number for each class of which nothing is known, each another one, and none that a variable with a node has. Which they are,
/// and which number the other nodes get, is left open. Refused where no number is left.
pub fn numbers_for(alloc: Global, loader: &Loader) -> Result<Vec<u32>, NoMemory>
    requires { IsLoader loader.now }
    ensures count { IfOk result (λ numbers. length numbers.items ≡ length loader.now.arena.shapes) }
    ensures naming { IfOk result (λ numbers. (kind : ℕ → Kind) → IsKinded loader.now kind → (owner : ℕ → ℕ) × IsNaming loader.now kind (name_in numbers.items) owner) }
{
    let mut numbers = Vec::new(alloc);
    let mut next = 0;
    for node in 0..loader.arena.shapes.len() {
        if is_own(loader, node) {
            let number = next_unused(loader, next)?;
            let Some(after) = number.checked_add(1) else {
                return Err(NoMemory);
            };
            numbers.push(number)?;
            next = after;
        } else {
            numbers.push(0)?;
        }
    }
    Ok(numbers)
}
