//! The positions that frames wait at.

ghost use Rattle.lk_defun.specs.Numbers.{home_at, homes_at, homes_from};
ghost use Rattle.std.specs.Prelude.{◌≡◌, ◌++◌, IfOk, OnOk};

use lk_ast::{List, NoMemory};
use lk_code::Home;
use lk_ir::{Cont, Conts};
use std::alloc::Global;

/// The positions with continuations, in the order of nodes and positions.
pub fn all_homes(alloc: Global, all: &[Conts]) -> Result<List<Home>, NoMemory>
    ensures { IfOk result (λ homes. homes ≡ homes_from 0 all.now) }
{
    let mut homes = List::new(alloc);
    let mut node: u32 = 0;
    for conts in all {
        push_homes(&mut homes, node, conts.of.as_slice())?;
        node = node.checked_add(1).ok_or(NoMemory)?;
    }
    Ok(homes)
}

/// Adds those of a node.
fn push_homes(homes: &mut List<Home>, node: u32, conts: &[Option<Cont>]) -> Result<(), NoMemory>
    ensures { OnOk result (homes.new ≡ homes.old ++ homes_at node 0 conts.now) }
{
    let mut position: u32 = 0;
    for cont in conts {
        push_home(homes, node, position, cont)?;
        position = position.checked_add(1).ok_or(NoMemory)?;
    }
    Ok(())
}

/// Adds this position, if it has a continuation.
fn push_home(
    homes: &mut List<Home>,
    node: u32,
    position: u32,
    cont: &Option<Cont>,
) -> Result<(), NoMemory>
    ensures { OnOk result (homes.new ≡ homes.old ++ home_at node position cont.now) }
{
    match cont {
        Some(_) => homes.push(Home { node, position }),
        None => Ok(()),
    }
}
