//! The nodes in an order in which parts come first, where no class is a part of itself, by a search that goes down from each
//! node. Only that they are nodes is promised: what ranks them tests each (`order`).

ghost use Rattle.std.specs.Prelude.{ℕ, ◌+◌, ◌^◌, ◌<◌, length, IfOk, IfSome};
ghost use Rattle.lk_classes.specs.Classes.{AreClasses};
ghost use Rattle.lk_arena.specs.Order.{IsSearch};
ghost use Rattle.lk_arena.specs.Shapes.{parts_of, AllBelow, AreNodes};

use crate::node::Shape;
use lk_ast::NoMemory;
use lk_classes::Classes;
use std::alloc::Global;

/// How often each node was looked at, the nodes on the way down, and those whose parts are all done, parts first.
#[derive(Drop)]
struct Search {
    looks: Vec<usize>,
    path: Vec<usize>,
    done: Vec<usize>,
}

/// The part of a shape with this number, if it has so many.
fn part_at(shape: &Shape, k: usize) -> Option<usize>
    ensures below { IfSome result (λ part. k < length (parts_of shape.now)) }
    ensures range { k < 2 ^ 64 }
    ensures room { IfSome result (λ part. k + 1 < 2 ^ 64) }
    ensures part { (n : ℕ) → AllBelow n (parts_of shape.now) → IfSome result (λ part. part < n) }
{
    match shape {
        Shape::Made(_, parts) => parts.as_slice().get(k).copied(),
        Shape::Row(fields, tail) => {
            if k == 0 {
                return Some(*tail);
            }
            let fields = fields.as_slice();
            if k > fields.len() {
                return None;
            }
            Some(fields[k - 1].node)
        }
        _ => None,
    }
}

/// Goes down from the nodes on the path to all that weren't looked at yet.
fn go_down(shapes: &[Shape], classes: &Classes, search: &mut Search) -> Result<(), NoMemory>
    requires nodes { AreNodes shapes.now }
    requires classes { AreClasses (length shapes.now) classes.now }
    requires search { IsSearch (length shapes.now) search.old.looks.items search.old.path.items search.old.done.items }
    ensures { IfOk result (λ _. IsSearch (length shapes.now) search.new.looks.items search.new.path.items search.new.done.items) }
{
    'down: while let Some(node) = search.path.pop() {
        let looks = search.looks[node];
        search.looks[node] = looks.saturating_add(1);
        match part_at(&shapes[node], looks) {
            Some(part) => {
                search.path.push(node)?;
                let class = classes.name_of(part);
                if search.looks[class] == 0 {
                    search.path.push(class)?;
                }
            }
            None => search.done.push(node)?,
        }
    }
    Ok(())
}

/// All nodes, parts first where no class is a part of itself.
pub fn depth_order(
    alloc: Global,
    shapes: &[Shape],
    classes: &Classes,
) -> Result<Vec<usize>, NoMemory>
    requires nodes { AreNodes shapes.now }
    requires classes { AreClasses (length shapes.now) classes.now }
    ensures { IfOk result (λ order. AllBelow (length shapes.now) order.items) }
{
    let mut search = Search {
        looks: vec![in alloc; 0; shapes.len()]?,
        path: Vec::new(alloc),
        done: Vec::new(alloc),
    };
    for i in 0..shapes.len() {
        if search.looks[i] == 0 {
            search.path.push(i)?;
            go_down(shapes, classes, &mut search)?;
        }
    }
    Ok(search.done)
}
