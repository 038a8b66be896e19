//! How many branches the normal forms of parts have.

ghost use Rattle.lk_norm.specs.Capped.{capped, capped_level, count_at};
ghost use Rattle.lk_query.specs.Branches.{counts};
ghost use Rattle.std.specs.Prelude.{◌≡◌, ℕ, IfOk};

use lk_ast::{List, NoMemory};
use lk_query::Part;
use std::alloc::Global;

/// How many branches the normal form of each part has, and 1,025 where there are more.
pub fn branch_counts(alloc: Global, parts: &[Part]) -> Result<List<u32>, NoMemory>
    ensures { IfOk result (λ found. (n : ℕ) → count_at found n ≡ capped (counts parts.now n)) }
{
    let mut found = List::new(alloc);
    for part in parts {
        let count = branch_count(found.as_slice(), part);
        found.push(count)?;
    }
    Ok(found)
}

/// How many a part has, by the counts of the parts before it.
fn branch_count(found: &[u32], part: &Part) -> u32
    ensures { result ≡ capped_level (count_at found.now) 0 part.now }
{
    match part {
        Part::If(_, a, b) | Part::Append(a, b) => cap(
            own(found, *a) as u64 + own(found, *b) as u64,
        ),
        Part::Items(items) => cap(items.len() as u64),
        Part::ForList(list, _, body) => cap(own(found, *list) as u64 * own(found, *body) as u64),
        Part::Table(_, _) => 1,
        Part::Where(_, list) => own(found, *list),
        Part::Lit(_)
        | Part::Bound
        | Part::Case(_, _, _)
        | Part::IfRow(_, _, _, _)
        | Part::One(_, _)
        | Part::Two(_, _, _)
        | Part::EqRows(_, _, _)
        | Part::Empty(_, _)
        | Part::Record(_)
        | Part::Extend(_, _, _)
        | Part::Project(_, _) => 0,
    }
}

/// The count of a part, and 0 where there is none yet.
pub fn own(found: &[u32], at: u32) -> u32
    ensures { result ≡ count_at found.now at }
{
    match found.get(at as usize) {
        Some(count) => *count,
        None => 0,
    }
}

/// At most 1,025.
fn cap(count: u64) -> u32
    ensures { result ≡ capped count }
{
    if count < 1025 { count as u32 } else { 1025 }
}
