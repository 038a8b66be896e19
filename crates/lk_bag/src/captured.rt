//! The names under which a block captured values.

ghost use Rattle.lk_bag.specs.Legal.{captured_in, names_in};
ghost use Rattle.lk_index.specs.Free.{texts};
ghost use Rattle.std.specs.Prelude.{◌≡◌, IfOk};

use lk_ast::{Expr, List, NoMemory, Node, Value, copy_values};
use lk_index::{captured_change, captured_query};
use lk_locals::Locals;
use std::alloc::Global;

/// The names that a query, an update or a deletion captures, and none of what captures nothing.
fn captured_in<'p>(alloc: Global, block: &'p Expr) -> Result<List<&'p str>, NoMemory>
    ensures { IfOk result (λ names. texts names ≡ captured_in block.now) }
{
    match block.node.get() {
        Node::Query(_, e) => captured_query(alloc, e),
        Node::Update(change) => captured_change(alloc, change),
        Node::Delete(change) => captured_change(alloc, change),
        _ => Ok(List::new(alloc)),
    }
}

/// These names for the values that the block captured.
pub fn names_in<'p>(alloc: Global, block: &'p Expr, args: &[Value]) -> Result<Locals<'p>, NoMemory>
    ensures { IfOk result (λ names. names ≡ names_in block.now args.now) }
{
    let names = captured_in(alloc, block)?;
    let args = copy_values(alloc, args)?;
    let none = Locals::new(alloc)?;
    none.bind_each(alloc, names.as_slice(), args)
}
