//! Copies of levels, their parts at other places.

ghost use Rattle.lk_types.specs.Each.{Each};
ghost use Rattle.lk_types.specs.Levels.{level_renumbered};
ghost use Rattle.lk_types.specs.Moves.{renumbered};
ghost use Rattle.lk_types.specs.Places.{kept};
ghost use Rattle.std.specs.Prelude.{◌≡◌, ◌<◌, IfOk, drop, length, map, take};

use crate::levels::Level;
use crate::places::Places;
use lk_ast::NoMemory;
use std::alloc::Global;

/// Where the parts of levels that are copied stand.
#[derive(Clone, Copy)]
pub enum Numbering<'a> {
    /// As many places further up.
    Behind(u32),
    /// Where they stand among these places.
    Among(&'a Places),
}

impl Numbering<'_> {
    /// The new place. There are not so many levels that it is too large.
    pub fn of(self, place: u32) -> Result<u32, NoMemory>
        ensures { IfOk result (λ number. number ≡ renumbered self.entry place) }
    {
        match self {
            Numbering::Behind(by) => Ok(by.checked_add(place).ok_or(NoMemory)?),
            Numbering::Among(places) => {
                Ok(u32::try_from(places.number_of(place)).map_err(|_| NoMemory)?)
            }
        }
    }
}

/// All the levels, each with its parts at their new places.
pub fn moved_levels(numbering: Numbering<'_>, levels: Vec<Level>) -> Result<Vec<Level>, NoMemory>
    ensures { IfOk result (λ all. all.items ≡ map (level_renumbered (renumbered numbering.entry)) levels.items) }
{
    let mut all = Vec::new(*levels.allocator());
    for level in levels {
        all.push(level.moved(numbering)?)?;
    }
    Ok(all)
}

/// The levels at these places alone, each with its parts where they stand among them.
pub fn kept_levels(alloc: Global, levels: &[Level], places: &Places) -> Result<Vec<Level>, NoMemory>
    requires { Each (λ p. p < length levels.now) places.now.items.items }
    ensures { IfOk result (λ all. all.items ≡ kept levels.now places.now.items.items) }
{
    let mut all = Vec::new(alloc);
    for place in places.as_slice() {
        let level = levels[*place as usize].copy(alloc)?;
        all.push(level.moved(Numbering::Among(places))?)?;
    }
    Ok(all)
}

/// The new places of these.
pub fn moved_numbers(
    alloc: Global,
    numbering: Numbering<'_>,
    numbers: &[u32],
) -> Result<Vec<u32>, NoMemory>
    ensures { IfOk result (λ all. all.items ≡ map (renumbered numbering.entry) numbers.now) }
{
    let mut all = Vec::new(alloc);
    for number in numbers {
        all.push(numbering.of(*number)?)?;
    }
    Ok(all)
}

/// The numbers behind the first ones, as many as this.
pub fn some_numbers(numbers: &[u32], from: usize, count: usize) -> &[u32]
    ensures { result.now ≡ take count (drop from numbers.now) }
{
    let behind = &numbers[from.min(numbers.len())..];
    &behind[..count.min(behind.len())]
}

/// How many levels there are.
pub fn count_of(levels: &[Level]) -> Result<u32, NoMemory>
    ensures { IfOk result (λ count. count ≡ length levels.now) }
{
    u32::try_from(levels.len()).map_err(|_| NoMemory)
}
