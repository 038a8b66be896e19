//! Types read back as levels, one for each class of types, so that what stands in several types is there once.

ghost use Rattle.std.specs.Prelude.{◌≡◌, ◌++◌, ◌∷◌, [], ℕ, ◌<◌, IfOk, OnOk, length, map};
ghost use Rattle.lk_arena.specs.Counting.{IsAmong};
ghost use Rattle.lk_arena.specs.Shapes.{parts_of, shape_at, IsArena};
ghost use Rattle.lk_arena.specs.Values.{Value};
ghost use Rattle.lk_types.specs.Each.{Each};
ghost use Rattle.lk_unify.specs.Levels.{end_at, place_of, placed_row, row_level, with_places, AreRead, CanMakeLevel, CanReadAll, CanReadNodes, IsLevelFor, IsMadeLevel};
ghost use Rattle.lk_unify.specs.Models.{IsOwn};
ghost use Rattle.lk_unify.specs.Reading.{name_in, type_in};

use crate::chain::read_effects;
use crate::row_places::RowPlaces;
use lk_arena::{Arena, Field, Head, Shape};
use lk_ast::{List, NoMemory};
use lk_types::{Level, LevelRow, RowTail, Types};
use std::alloc::Global;

/// The places of nodes.
fn places_of(
    alloc: Global,
    arena: &Arena,
    places: &[u32],
    nodes: &[usize],
) -> Result<Vec<u32>, NoMemory>
    requires arena { IsArena arena.now.shapes arena.now.classes }
    requires places { length places.now ≡ length arena.now.shapes }
    requires nodes { Each (λ n. n < length arena.now.shapes) nodes.now }
    ensures { IfOk result (λ all. all.items ≡ map (place_of arena.now places.now) nodes.now) }
{
    let mut all = Vec::new(alloc);
    for node in nodes {
        all.push(places[arena.class_of(*node)])?;
    }
    Ok(all)
}

/// Puts the places of fields under their labels.
fn put_fields(
    alloc: Global,
    arena: &Arena,
    places: &[u32],
    own: &[Field],
    row: &mut RowPlaces,
) -> Result<(), NoMemory>
    requires arena { IsArena arena.now.shapes arena.now.classes }
    requires places { length places.now ≡ length arena.now.shapes }
    requires nodes { Each (λ f. f.node < length arena.now.shapes) own.now }
    ensures { OnOk result (row.new ≡ with_places arena.now places.now own.now row.old) }
{
    for field in own {
        let place = places[arena.class_of(field.node)];
        row.put(field.label.copy(alloc)?, place)?;
    }
    Ok(())
}

/// The row that has these places and ends at this node.
fn ended_row(
    alloc: Global,
    arena: &Arena,
    numbers: &[u32],
    row: RowPlaces,
    end: usize,
) -> Result<LevelRow, NoMemory>
    requires arena { IsArena arena.now.shapes arena.now.classes }
    requires numbers { length numbers.now ≡ length arena.now.shapes }
    requires end { end < length arena.now.shapes }
    ensures { IfOk result (λ made. made ≡ placed_row row (end_at arena.now numbers.now end)) }
{
    let class = arena.class_of(end);
    match arena.shape_of(class) {
        Shape::Open => row.into_row(alloc, RowTail::Var(numbers[class])),
        _ => row.into_row(alloc, RowTail::Closed),
    }
}

/// The row of a node, with the fields of the rows behind it, at most so many.
fn level_row(
    alloc: Global,
    arena: &Arena,
    numbers: &[u32],
    places: &[u32],
    fuel: usize,
    node: usize,
) -> Result<LevelRow, NoMemory>
    requires nodes { CanReadNodes arena.now numbers.now fuel }
    requires places { length places.now ≡ length arena.now.shapes }
    requires node { node < length arena.now.shapes }
    ensures { IfOk result (λ row. row ≡ row_level arena.now numbers.now places.now fuel node) }
{
    let mut row = RowPlaces::new(alloc);
    let mut end = node;
    for _link in 0..fuel {
        match arena.shape_of(arena.class_of(end)) {
            Shape::Row(own, tail) => {
                put_fields(alloc, arena, places, own.as_slice(), &mut row)?;
                end = *tail;
            }
            _ => return ended_row(alloc, arena, numbers, row, end),
        }
    }
    ended_row(alloc, arena, numbers, row, end)
}

/// The level of a function with these parts.
fn function_level(
    alloc: Global,
    arena: &Arena,
    numbers: &[u32],
    places: &[u32],
    fuel: usize,
    parts: &[usize],
) -> Result<Level, NoMemory>
    requires nodes { CanReadNodes arena.now numbers.now fuel }
    requires places { length places.now ≡ length arena.now.shapes }
    requires below { Each (λ p. p < length arena.now.shapes) parts.now }
    requires parts { CanMakeLevel arena.now numbers.now fuel Head.Fun parts.now }
    ensures { IfOk result (λ level. IsMadeLevel arena.now numbers.now places.now fuel Head.Fun parts.now level) }
{
    let effects = read_effects(alloc, arena, numbers, fuel, parts[0])?;
    let params = places_of(alloc, arena, places, &parts[2..])?;
    let answer = places[arena.class_of(parts[1])];
    Ok(Level::Fun(List::from_vec(params), effects, answer))
}

/// The level of a constructor with these parts.
fn made_level(
    alloc: Global,
    arena: &Arena,
    numbers: &[u32],
    places: &[u32],
    fuel: usize,
    head: Head,
    parts: &[usize],
) -> Result<Level, NoMemory>
    requires nodes { CanReadNodes arena.now numbers.now fuel }
    requires places { length places.now ≡ length arena.now.shapes }
    requires below { Each (λ p. p < length arena.now.shapes) parts.now }
    requires parts { CanMakeLevel arena.now numbers.now fuel head parts.now }
    ensures { IfOk result (λ level. IsMadeLevel arena.now numbers.now places.now fuel head parts.now level) }
{
    match head {
        Head::Int => Ok(Level::Int),
        Head::Bool => Ok(Level::Bool),
        Head::Text => Ok(Level::Text),
        Head::List => Ok(Level::List(places[arena.class_of(parts[0])])),
        Head::Fields => {
            let row = level_row(alloc, arena, numbers, places, fuel, parts[0])?;
            Ok(Level::Fields(row))
        }
        Head::Tags => {
            let row = level_row(alloc, arena, numbers, places, fuel, parts[0])?;
            Ok(Level::Tags(row))
        }
        Head::Fun => function_level(alloc, arena, numbers, places, fuel, parts),
    }
}

/// The level of a class, if it is one of types.
fn level_of(
    alloc: Global,
    arena: &Arena,
    numbers: &[u32],
    places: &[u32],
    fuel: usize,
    class: usize,
) -> Result<Option<Level>, NoMemory>
    requires nodes { CanReadNodes arena.now numbers.now fuel }
    requires places { length places.now ≡ length arena.now.shapes }
    requires class { class < length arena.now.shapes }
    ensures { IfOk result (λ level. IsLevelFor arena.now numbers.now places.now fuel class (shape_at arena.now.shapes class) level) }
{
    match arena.shape_of(class) {
        Shape::Made(head, parts) => {
            made_level(alloc, arena, numbers, places, fuel, *head, parts.as_slice()).map(Some)
        }
        Shape::Free => Ok(Some(Level::Var(numbers[class]))),
        Shape::Open => Ok(None),
        Shape::Empty => Ok(None),
        Shape::Row(_, _) => Ok(None),
    }
}

/// The levels of the classes of types that are done, and the place of each.
#[derive(Drop)]
struct Done {
    levels: Vec<Level>,
    places: Vec<u32>,
}

/// The place behind levels.
fn place_behind(levels: &[Level]) -> Result<u32, NoMemory>
    ensures { IfOk result (λ place. place ≡ length levels.now) }
{
    u32::try_from(levels.len()).map_err(|_| NoMemory)
}

/// One more class, if the node names one: its level, if it is one of types.
fn add_class(
    alloc: Global,
    arena: &Arena,
    numbers: &[u32],
    fuel: usize,
    done: &mut Done,
    node: usize,
) -> Result<(), NoMemory>
    requires nodes { CanReadNodes arena.now numbers.now fuel }
    requires places { length done.old.places.items ≡ length arena.now.shapes }
    requires node { node < length arena.now.shapes }
    ensures places { OnOk result (length done.new.places.items ≡ length arena.now.shapes) }
    ensures read { OnOk result ((before : List ℕ) → AreRead arena.now numbers.now done.old.levels.items done.old.places.items before → Each (IsAmong arena.now.classes before) (parts_of (shape_at arena.now.shapes node)) → AreRead arena.now numbers.now done.new.levels.items done.new.places.items (before ++ node ∷ [])) }
{
    if arena.class_of(node) != node {
        return Ok(());
    }
    let Some(level) = level_of(alloc, arena, numbers, done.places.as_slice(), fuel, node)? else {
        return Ok(());
    };
    done.places[node] = place_behind(done.levels.as_slice())?;
    done.levels.push(level)?;
    Ok(())
}

/// The types of nodes.
pub fn read_levels(
    alloc: Global,
    arena: &Arena,
    numbers: &[u32],
    order: &[usize],
    nodes: &[usize],
) -> Result<Types, NoMemory>
    requires { CanReadAll arena.now numbers.now order.now nodes.now }
    ensures { IfOk result (λ types. (u : ℕ → Value) → IsOwn arena.now.shapes arena.now.classes (name_in numbers.now) u → types ≡ map (λ p. type_in (u p)) nodes.now) }
{
    let mut done = Done {
        levels: Vec::new(alloc),
        places: vec![in alloc; 0; arena.shapes.len()]?,
    };
    for node in order {
        add_class(alloc, arena, numbers, order.len(), &mut done, *node)?;
    }
    let Done { levels, places } = done;
    let roots = places_of(alloc, arena, places.as_slice(), nodes)?;
    Ok(Types::of(levels, roots))
}
