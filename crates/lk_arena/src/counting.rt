//! How many nodes there are in what the classes stand for.

ghost use Rattle.std.specs.Prelude.{◌≡◌, ◌<◌, ◌≤◌, ◌+◌, length, IfOk};
ghost use Rattle.lk_classes.specs.Classes.{AreClasses};
ghost use Rattle.lk_types.specs.Each.{Each};
ghost use Rattle.lk_arena.specs.Counting.{count_at as the_count_at, effect_count, end_at, field_sum, part_sum, saturated, type_count, type_sum, AreCountsOf, AreEnds, IsPartsFirst};
ghost use Rattle.lk_arena.specs.Shapes.{parts_of, AllBelow, AreNodes};

use crate::node::{Field, Head, Shape};
use lk_ast::NoMemory;
use lk_classes::Classes;
use lk_types::MOST_NODES;
use std::alloc::Global;

/// How many nodes: of a type or a row of fields, and of a row of effects, in which an effect counts one and its unit type nothing.
/// From `most_nodes + 1` on it is only that.
#[derive(Clone, Copy)]
pub struct Count {
    pub as_type: usize,
    pub as_effects: usize,
}

/// The first number of nodes that is too many, which stands for all of those.
const TOO_MANY: usize = MOST_NODES + 1;

/// The sum of two numbers of nodes.
fn add(m: usize, n: usize) -> usize
    ensures { result ≡ saturated (m + n) }
{
    m.saturating_add(n).min(TOO_MANY)
}

/// The count of a node's class.
pub fn count_at(node: usize, classes: &Classes, counts: &[Count]) -> Count
    requires node { node < length classes.now }
    requires classes { AreClasses (length counts.now) classes.now }
    ensures { result ≡ the_count_at classes.now counts.now node }
{
    counts[classes.name_of(node)]
}

/// So many nodes and those of types.
fn add_types(start: usize, types: &[usize], classes: &Classes, counts: &[Count]) -> usize
    requires types { AllBelow (length classes.now) types.now }
    requires classes { AreClasses (length counts.now) classes.now }
    ensures { result ≡ saturated (start + type_sum (the_count_at classes.now counts.now) types.now) }
{
    let mut total = add(start, 0);
    for ty in types {
        total = add(total, count_at(*ty, classes, counts).as_type);
    }
    total
}

/// So many nodes and those of fields.
fn add_fields(start: usize, fields: &[Field], classes: &Classes, counts: &[Count]) -> usize
    requires fields { Each (λ f. f.node < length classes.now) fields.now }
    requires classes { AreClasses (length counts.now) classes.now }
    ensures { result ≡ saturated (start + field_sum (the_count_at classes.now counts.now) fields.now) }
{
    let mut total = add(start, 0);
    for field in fields {
        total = add(add(total, 1), count_at(field.node, classes, counts).as_type);
    }
    total
}

/// The nodes of a function, by its parts.
fn count_function(parts: &[usize], classes: &Classes, counts: &[Count]) -> usize
    requires parts { AllBelow (length classes.now) parts.now }
    requires classes { AreClasses (length counts.now) classes.now }
    ensures { result ≡ saturated (1 + part_sum (the_count_at classes.now counts.now) Head.Fun parts.now) }
{
    match parts.split_first() {
        Some((effects, types)) => add_types(
            add(1, count_at(*effects, classes, counts).as_effects),
            types,
            classes,
            counts,
        ),
        None => 1,
    }
}

/// The nodes of a type with a constructor and these parts.
fn count_made(head: Head, parts: &[usize], classes: &Classes, counts: &[Count]) -> usize
    requires parts { AllBelow (length classes.now) parts.now }
    requires classes { AreClasses (length counts.now) classes.now }
    ensures { result ≡ saturated (1 + part_sum (the_count_at classes.now counts.now) head parts.now) }
{
    match head {
        Head::Fun => count_function(parts, classes, counts),
        _ => add_types(1, parts, classes, counts),
    }
}

/// The count of a node by those of its parts. A closed end of a row counts `closed`.
fn count_of(shape: &Shape, classes: &Classes, counts: &[Count], closed: usize) -> Count
    requires parts { AllBelow (length classes.now) (parts_of shape.now) }
    requires classes { AreClasses (length counts.now) classes.now }
    requires closed { closed ≤ 1 }
    ensures as_type { result.as_type ≡ saturated (type_count closed (the_count_at classes.now counts.now) shape.now) }
    ensures as_effects { result.as_effects ≡ saturated (effect_count closed (the_count_at classes.now counts.now) shape.now) }
{
    match shape {
        Shape::Free => Count {
            as_type: 1,
            as_effects: 0,
        },
        Shape::Open => Count {
            as_type: 1,
            as_effects: 1,
        },
        Shape::Empty => Count {
            as_type: closed,
            as_effects: closed,
        },
        Shape::Made(head, parts) => Count {
            as_type: count_made(*head, parts.as_slice(), classes, counts),
            as_effects: 0,
        },
        Shape::Row(fields, tail) => {
            let rest = count_at(*tail, classes, counts);
            Count {
                as_type: add_fields(rest.as_type, fields.as_slice(), classes, counts),
                as_effects: add(fields.len(), rest.as_effects),
            }
        }
    }
}

/// The counts of the classes, each at the number that names it, by an order in which parts come first. A closed end of a row counts
/// what stands in `ends` at the name of its class.
pub fn counts(
    alloc: Global,
    shapes: &[Shape],
    classes: &Classes,
    order: &[usize],
    ends: &[usize],
) -> Result<Vec<Count>, NoMemory>
    requires nodes { AreNodes shapes.now }
    requires classes { AreClasses (length shapes.now) classes.now }
    requires order { IsPartsFirst shapes.now classes.now order.now }
    requires ends { AreEnds shapes.now ends.now }
    ensures count { IfOk result (λ counts. length counts.items ≡ length shapes.now) }
    ensures counts { IfOk result (λ counts. AreCountsOf (end_at ends.now) shapes.now classes.now counts.items) }
{
    let none = Count {
        as_type: 0,
        as_effects: 0,
    };
    let mut counts = vec![in alloc; none; shapes.len()]?;
    for node in order {
        counts[*node] = count_of(&shapes[*node], classes, counts.as_slice(), ends[*node]);
    }
    Ok(counts)
}
