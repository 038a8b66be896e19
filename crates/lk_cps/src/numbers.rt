//! The places of continuations in the order of all.

ghost use Rattle.lk_cps.specs.Live.{forward};
ghost use Rattle.lk_cps.specs.Numbered.{AreNumbered, IsNumbered};
ghost use Rattle.std.specs.Prelude.{[], ◌∷◌, IfOk, reverse};

use lk_ast::{List, NoMemory};
use lk_ir::{Cont, Conts};
use std::alloc::Global;

/// A continuation with the next number, if there is one.
fn number_one(cont: Option<Cont>, next: &mut u32) -> Result<Option<Cont>, NoMemory>
    ensures { IfOk result (λ numbered. IsNumbered next.old (cont ∷ []) next.new (numbered ∷ [])) }
{
    match cont {
        Some(mut cont) => {
            cont.order = *next;
            *next = next.checked_add(1).ok_or(NoMemory)?;
            Ok(Some(cont))
        }
        None => Ok(None),
    }
}

/// The continuations of a node, which come from the last to the first, with the next numbers.
fn number_node(
    alloc: Global,
    mut backwards: List<Option<Cont>>,
    next: &mut u32,
) -> Result<Conts, NoMemory>
    ensures { IfOk result (λ conts. IsNumbered next.old (reverse backwards) next.new conts.of) }
{
    let mut of = List::new(alloc);
    while let Some(cont) = backwards.pop() {
        let numbered = number_one(cont, next)?;
        of.push(numbered)?;
    }
    Ok(Conts { of })
}

/// The continuations of all nodes, which come from the last to the first, with their numbers.
pub fn number_all(
    alloc: Global,
    mut backwards: List<List<Option<Cont>>>,
) -> Result<List<Conts>, NoMemory>
    ensures { IfOk result (AreNumbered (forward backwards)) }
{
    let mut all = List::new(alloc);
    let mut next: u32 = 0;
    while let Some(of) = backwards.pop() {
        let conts = number_node(alloc, of, &mut next)?;
        all.push(conts)?;
    }
    Ok(all)
}
