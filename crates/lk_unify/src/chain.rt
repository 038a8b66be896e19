//! Rows of effects read down their tails.

ghost use Rattle.std.specs.FinMap as fin;
ghost use Rattle.std.specs.List.{filter};
ghost use Rattle.std.specs.Prelude.{◌≡◌, ℕ, List, is_some, IfOk};
ghost use Rattle.lk_arena.specs.Kinds.{OfEffects};
ghost use Rattle.lk_unify.specs.Models.{IsOwn};
ghost use Rattle.lk_arena.specs.Openings.{effects_type};
ghost use Rattle.lk_unify.specs.Reading.{CanRead, effects_in, name_in, row_in};
ghost use Rattle.lk_arena.specs.Values.{Value};

use crate::load::label_of;
use lk_arena::{Arena, Shape, node_of};
use lk_ast::{List, NoMemory, Text};
use lk_types::{Effect, Effects, RowTail};
use std::alloc::Global;

/// All effects, in byte order.
const EFFECTS: [Effect; 7] = [
    Effect::Local,
    Effect::Move,
    Effect::Print,
    Effect::Rec,
    Effect::Scan,
    Effect::Trap,
    Effect::Write,
];

/// Whether a row of effects has this label.
fn row_has(arena: &Arena, numbers: &[u32], fuel: usize, node: usize, label: &Text) -> bool
    requires { CanRead arena.now numbers.now fuel node OfEffects }
    ensures { (u : ℕ → Value) → IsOwn arena.now.shapes arena.now.classes (name_in numbers.now) u → result ≡ is_some (fin.get (row_in (u node)).fields label.now) }
{
    match arena.shape_of(arena.class_of(node)) {
        Shape::Row(own, tail) => {
            if node_of(own.as_slice(), label).is_some() {
                return true;
            }
            row_has(arena, numbers, fuel - 1, *tail, label)
        }
        _ => false,
    }
}

/// Where a row of effects ends.
fn end_of(arena: &Arena, numbers: &[u32], fuel: usize, node: usize) -> RowTail
    requires { CanRead arena.now numbers.now fuel node OfEffects }
    ensures { (u : ℕ → Value) → IsOwn arena.now.shapes arena.now.classes (name_in numbers.now) u → result ≡ (row_in (u node)).tail }
{
    let class = arena.class_of(node);
    match arena.shape_of(class) {
        Shape::Open => RowTail::Var(numbers[class]),
        Shape::Row(_, tail) => end_of(arena, numbers, fuel - 1, *tail),
        _ => RowTail::Closed,
    }
}

/// The effects of a row, in byte order.
fn labels_of(
    alloc: Global,
    arena: &Arena,
    numbers: &[u32],
    fuel: usize,
    node: usize,
) -> Result<List<Effect>, NoMemory>
    requires { CanRead arena.now numbers.now fuel node OfEffects }
    ensures { IfOk result (λ labels. (u : ℕ → Value) → IsOwn arena.now.shapes arena.now.classes (name_in numbers.now) u → labels ≡ filter (effects_in (row_in (u node))).labels EFFECTS) }
{
    let mut labels = List::new(alloc);
    for effect in &EFFECTS {
        let word = label_of(alloc, *effect)?;
        if row_has(arena, numbers, fuel, node, &word) {
            labels.push(*effect)?;
        }
    }
    Ok(labels)
}

/// The effects of a node.
pub fn read_effects(
    alloc: Global,
    arena: &Arena,
    numbers: &[u32],
    fuel: usize,
    node: usize,
) -> Result<Effects, NoMemory>
    requires { CanRead arena.now numbers.now fuel node OfEffects }
    ensures { IfOk result (λ effects. (u : ℕ → Value) → IsOwn arena.now.shapes arena.now.classes (name_in numbers.now) u → effects ≡ effects_type (effects_in (row_in (u node)))) }
{
    let labels = labels_of(alloc, arena, numbers, fuel, node)?;
    Ok(Effects {
        labels,
        tail: end_of(arena, numbers, fuel, node),
    })
}
