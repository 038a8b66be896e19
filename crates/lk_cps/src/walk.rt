//! The walk over all nodes, from the last to the first.

ghost use Rattle.lk_cps.specs.Live.{AllConts, forward};
ghost use Rattle.lk_cps.specs.Steps.{AreContsOf};
ghost use Rattle.std.specs.Prelude.{◌≡◌, ◌<◌, IfOk, length};

use crate::positions::{Looked, look};
use crate::table::Table;
use crate::tails::behind;
use lk_ast::{List, NoMemory};
use lk_ir::Cont;
use std::alloc::Global;

/// How many names all continuations of a program keep together, at most.
const MOST_KEPT: usize = 1 << 22;

/// The continuations of a node, the last one first, without their places in the order of all.
fn node(
    alloc: Global,
    table: &mut Table,
    number: usize,
    room: &mut usize,
) -> Result<List<Option<Cont>>, NoMemory>
    requires { number < length table.old.nodes }
    ensures table { table.new ≡ table.old }
    ensures conts { IfOk result (AreContsOf table.old number) }
{
    let form = table.forms().nodes.at(number);
    let live = behind(alloc, table, form)?;
    let found = look(alloc, table, form, room, live)?;
    let Looked { of, live } = found;
    table.put(number, live);
    Ok(of)
}

/// The continuations of all nodes, from the last to the first.
pub fn walk_nodes(alloc: Global, table: &mut Table) -> Result<List<List<Option<Cont>>>, NoMemory>
    ensures table { table.new ≡ table.old }
    ensures conts { IfOk result (λ all. AllConts table.old table.old.nodes (forward all)) }
{
    let mut room = MOST_KEPT;
    let mut all = List::new(alloc);
    for number in (0..table.forms().nodes.len()).rev() {
        let of = node(alloc, table, number, &mut room)?;
        all.push(of)?;
    }
    Ok(all)
}
