//! The places of the levels that stand in some of the types.

ghost use Rattle.lk_types.specs.Levels.{parts_of, IsTable};
ghost use Rattle.lk_types.specs.Places.{ArePlaces, AreRising, number_in, with_keys};
ghost use Rattle.std.specs.Prelude.{◌≡◌, [], ◌∷◌, IfOk, OnOk, map};

use crate::levels::{Level, LevelField};
use lk_ast::NoMemory;
use std::alloc::Global;
use std::collections::BTreeSet;

/// Places of levels, each above the one before.
#[derive(Drop)]
pub struct Places {
    items: Vec<u32>,
    ghost rising: { AreRising items.items },
}

impl Places {
    /// The places of the roots and of all that they are made of. Only the levels there are looked at, however many others there are.
    pub fn below(alloc: Global, levels: &[Level], roots: &[u32]) -> Result<Places, NoMemory>
        requires { IsTable levels.now roots.now }
        ensures { IfOk result (λ places. ArePlaces levels.now roots.now places.items.items) }
    {
        let mut wanted = BTreeSet::new(alloc);
        add_all(&mut wanted, roots)?;
        let mut items = Vec::new(alloc);
        while let Some(place) = wanted.pop_last() {
            add_parts(&mut wanted, &levels[place as usize])?;
            items.push(place)?;
        }
        items.reverse();
        Ok(Places { items })
    }

    /// Where a place stands among these. How many there are, where it isn't one of them.
    pub fn number_of(&self, place: u32) -> usize
        ensures { result ≡ number_in self.now.items.items place }
    {
        match self.items.binary_search(&place) {
            Ok(number) => number,
            Err(_) => self.items.len(),
        }
    }

    /// From the lowest place up.
    pub fn as_slice(&self) -> &[u32]
        ensures { result.now ≡ self.now.items.items }
    {
        self.items.as_slice()
    }
}

/// Adds the places of a level's parts.
fn add_parts(wanted: &mut BTreeSet<u32>, level: &Level) -> Result<(), NoMemory>
    ensures { OnOk result (wanted.new.keys ≡ with_keys wanted.old.keys (parts_of level.now)) }
{
    match level {
        Level::Int | Level::Bool | Level::Text | Level::Var(_) => Ok(()),
        Level::List(part) => add(wanted, *part),
        Level::Fields(row) => add_fields(wanted, row.fields.as_slice()),
        Level::Tags(row) => add_fields(wanted, row.fields.as_slice()),
        Level::Fun(params, _, answer) => {
            add(wanted, *answer)?;
            add_all(wanted, params.as_slice())
        }
    }
}

fn add(wanted: &mut BTreeSet<u32>, place: u32) -> Result<(), NoMemory>
    ensures { OnOk result (wanted.new.keys ≡ with_keys wanted.old.keys (place ∷ [])) }
{
    wanted.insert(place)?;
    Ok(())
}

fn add_all(wanted: &mut BTreeSet<u32>, places: &[u32]) -> Result<(), NoMemory>
    ensures { OnOk result (wanted.new.keys ≡ with_keys wanted.old.keys places.now) }
{
    for place in places {
        wanted.insert(*place)?;
    }
    Ok(())
}

fn add_fields(wanted: &mut BTreeSet<u32>, fields: &[LevelField]) -> Result<(), NoMemory>
    ensures { OnOk result (wanted.new.keys ≡ with_keys wanted.old.keys (map (λ f. f.part) fields.now)) }
{
    for field in fields {
        wanted.insert(field.part)?;
    }
    Ok(())
}
