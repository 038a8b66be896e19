//! How many nodes types by levels have.

ghost use Rattle.lk_types.specs.Each.{Each};
ghost use Rattle.lk_types.specs.Levels.{at, built, made, row_made, AreBelow, IsBelow, row_parts};
ghost use Rattle.lk_types.specs.Counts.{AreCounts, IsCount, is_over, part_nodes};
ghost use Rattle.lk_types.specs.Sizes.{effects_nodes, nodes, one, row_nodes_with, tail_nodes};
ghost use Rattle.lk_types.specs.declared.ty.Ty.{Ty as TheTy};
ghost use Rattle.lk_types.specs.declared.ty.Variable.{Variable as TheVariable};
ghost use Rattle.std.specs.List.{list_any};
ghost use Rattle.std.specs.Prelude.{◌≡◌, ℕ, ◌+◌, ◌<◌, IfOk, List, length, map, sum};

use crate::levels::{Level, LevelField, LevelRow};
use crate::ty::{Effects, MOST_NODES, RowTail};
use lk_ast::NoMemory;
use std::alloc::Global;

/// The number, or one more than a type may have nodes.
fn capped(n: usize) -> usize
    ensures { IsCount result n }
{
    if n > MOST_NODES { MOST_NODES + 1 } else { n }
}

/// What two parts have together.
fn both(a: usize, b: usize) -> usize
    ensures { (n m : ℕ) → IsCount a n → IsCount b m → IsCount result (n + m) }
{
    match a.checked_add(b) {
        Some(sum) => capped(sum),
        None => MOST_NODES + 1,
    }
}

/// The nodes of the types at these places.
fn count_all(places: &[u32], counts: &[usize]) -> usize
    requires { Each (λ n. n < length counts.now) places.now }
    ensures { (ts : List TheTy) → AreCounts counts.now ts → IsCount result (sum (map (λ n. nodes (at ts n)) places.now)) }
{
    let mut total = 0;
    for place in places {
        total = both(total, counts[*place as usize]);
    }
    total
}

/// The nodes of fields, whose labels count, too.
fn count_fields(fields: &[LevelField], counts: &[usize]) -> usize
    requires { Each (λ n. n < length counts.now) (map (λ f. f.part) fields.now) }
    ensures { (ts : List TheTy) → AreCounts counts.now ts → IsCount result (sum (map (part_nodes ts) fields.now)) }
{
    let mut total = 0;
    for field in fields {
        total = both(total, both(1, counts[field.part as usize]));
    }
    total
}

/// The variable of a tail, if it has one.
fn count_tail(tail: RowTail) -> usize
    ensures { (kind : ℕ → TheVariable) → IsCount result (tail_nodes one kind tail) }
{
    match tail {
        RowTail::Closed => 0,
        RowTail::Var(_) => 1,
    }
}

fn count_effects(effects: &Effects) -> usize
    ensures { IsCount result (effects_nodes one effects.now) }
{
    both(capped(effects.labels.len()), count_tail(effects.tail))
}

fn count_row(row: &LevelRow, counts: &[usize]) -> usize
    requires { Each (λ n. n < length counts.now) (row_parts row.now) }
    ensures { (ts : List TheTy) → AreCounts counts.now ts → IsCount result (row_nodes_with one (row_made ts row.now)) }
{
    both(
        count_fields(row.fields.as_slice(), counts),
        count_tail(row.tail),
    )
}

/// The nodes of a level's type, from those of its parts.
fn count_level(level: &Level, counts: &[usize]) -> usize
    requires { IsBelow (length counts.now) level.now }
    ensures { (ts : List TheTy) → AreCounts counts.now ts → IsCount result (nodes (made ts level.now)) }
{
    match level {
        Level::Int => 1,
        Level::Bool => 1,
        Level::Text => 1,
        Level::List(part) => both(1, counts[*part as usize]),
        Level::Fields(row) => both(1, count_row(row, counts)),
        Level::Tags(row) => both(1, count_row(row, counts)),
        Level::Fun(params, effects, part) => {
            let rest = both(count_effects(effects), counts[*part as usize]);
            both(1, both(count_all(params.as_slice(), counts), rest))
        }
        Level::Var(_) => 1,
    }
}

/// The nodes of each level's type.
pub fn level_counts(alloc: Global, levels: &[Level]) -> Result<Vec<usize>, NoMemory>
    requires { AreBelow levels.now }
    ensures { IfOk result (λ counts. (length counts.items ≡ length levels.now) × AreCounts counts.items (built levels.now)) }
{
    let mut counts = Vec::new(alloc);
    for level in levels {
        let count = count_level(level, counts.as_slice());
        counts.push(count)?;
    }
    Ok(counts)
}

/// Whether there is more than a type may have at one of these places.
pub fn any_over(counts: &[usize], places: &[u32]) -> bool
    requires { Each (λ n. n < length counts.now) places.now }
    ensures { result ≡ list_any (is_over counts.now) places.now }
{
    for place in places {
        if counts[*place as usize] > MOST_NODES {
            return true;
        }
    }
    false
}
