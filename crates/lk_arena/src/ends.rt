//! Which ends of rows were open once: a class that is the row without fields now has a node of which nothing is known by itself.

ghost use Rattle.std.specs.Prelude.{IfOk, length};
ghost use Rattle.lk_classes.specs.Classes.{AreClasses};
ghost use Rattle.lk_arena.specs.Counting.{end_at, AreEnds, CountOnceOpen};

use crate::kind::is_open;
use crate::node::Shape;
use lk_ast::NoMemory;
use lk_classes::Classes;
use std::alloc::Global;

/// What the closed ends of rows count, each at the name of its class: one where the class has a node that is an open row by itself,
/// and else nothing.
pub fn once_open(alloc: Global, shapes: &[Shape], classes: &Classes) -> Result<Vec<usize>, NoMemory>
    requires { AreClasses (length shapes.now) classes.now }
    ensures ends { IfOk result (λ ends. AreEnds shapes.now ends.items) }
    ensures once { IfOk result (λ ends. CountOnceOpen shapes.now classes.now (end_at ends.items)) }
{
    let mut ends = vec![in alloc; 0; shapes.len()]?;
    for i in 0..shapes.len() {
        if is_open(&shapes[i]) {
            ends[classes.name_of(i)] = 1;
        }
    }
    Ok(ends)
}
