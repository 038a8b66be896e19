//! Ground types in a table, each once.

ghost use Rattle.lk_ground_types.specs.Grounds.{AreDistinct, AreGrounds, IsBelow, at, ground_made, key as the_key, types_of};
ghost use Rattle.lk_ground_types.specs.Sizes.{fits as the_fits};
ghost use Rattle.lk_types.specs.declared.ground.Ground.{Ground as TheGround};
ghost use Rattle.std.specs.FinMap as finite;
ghost use Rattle.std.specs.Prelude.{◌≡◌, ◌⊎◌, ◌++◌, ◌∷◌, ◌<◌, [], ◌≤◌, IfNone, IfOk, IfSome, List as TheList, None, OnErr, length};

use crate::entries::{Entry, entry_of};
use crate::ground_level::{GroundLevel, key_of};
use crate::numbers_by_key::NumbersByKey;
use lk_ast::{List, NoMemory};
use lk_types::{Ground, MOST_NODES};
use std::alloc::Global;
use std::marker::Model;

/// Ground types, each of which stands once and is named by its number. Contracts see the list of them.
pub struct Grounds {
    entries: Vec<Entry>,
    numbers: NumbersByKey,
}

impl Drop for Grounds {
    /// Types own their parts, one inside another, thousands deep. From the last one on each is dropped while its parts, which have
    /// lower numbers, are still owned by the table, so that dropping goes no deeper than a level.
    fn drop(self) {
        let Grounds {
            mut entries,
            numbers: _,
        } = self;
        while let Some(entry) = entries.pop() {
            drop(entry);
        }
    }
}

impl Model for Grounds {
    ghost use Rattle.lk_ground_types.specs.Grounds.{AreGrounds, types_of};
    ghost use Rattle.lk_types.specs.contracts.ground.Ground as g;
    ghost use Rattle.lk_types.specs.declared.ground.Ground.{Ground as TheGround};
    ghost use Rattle.std.specs.Coded.{coded_list};
    ghost use Rattle.std.specs.Prelude.{List};

    ghost Value = { List TheGround };

    ghost coded = { coded_list g.the_row.coded };

    ghost view = { λ grounds. types_of grounds.entries.items };

    ghost invariant = { λ grounds. AreGrounds grounds.entries.items grounds.numbers };
}

impl Grounds {
    /// No types, which takes no memory.
    pub fn new(alloc: Global) -> Grounds
        ensures { result ≡ [] }
    {
        Grounds {
            entries: Vec::new(alloc),
            numbers: NumbersByKey::new(alloc),
        }
    }

    /// The type of that number. It may be far too large to be walked: `fits` says whether it isn't.
    pub fn get(&self, number: u32) -> &Ground
        requires { number < length self.now }
        ensures { result.now ≡ at self.now number }
    {
        &self.entries[number as usize].ty
    }

    /// The level of the type of that number, if there is one.
    pub(crate) fn level(&self, number: u32) -> Option<&GroundLevel>
        ensures made { IfSome result (λ level. ground_made self.now level.now ≡ at self.now number) }
        ensures below { IfSome result (λ level. IsBelow number level.now) }
        ensures within { IfSome result (λ level. number < length self.now) }
        ensures none { IfNone result (length self.now ≤ number) }
    {
        match self.entries.as_slice().get(number as usize) {
            Some(entry) => Some(&entry.level),
            None => None,
        }
    }

    /// Whether the type of that number has no more nodes than a type may have.
    pub fn fits(&self, number: u32) -> bool
        requires { number < length self.now }
        ensures { result ≡ the_fits (at self.now number) }
    {
        self.entries[number as usize].nodes <= MOST_NODES
    }

    /// No type has two numbers, as a fact. A call does nothing.
    pub fn distinct(&self)
        ensures { AreDistinct self.now }
    {
        // this lets the check see what holds of the entries
        let _ = &self.entries;
    }

    /// The number of the type that this level makes, which is put behind the others where it isn't there. `NoMemory` where memory
    /// runs out, and where there are 2^32 types: the table is left as it is.
    pub fn add(&mut self, alloc: Global, level: GroundLevel) -> Result<u32, NoMemory>
        requires { IsBelow (length self.old) level }
        ensures within { IfOk result (λ number. number < length self.new) }
        ensures made { IfOk result (λ number. at self.new number ≡ ground_made self.old level) }
        ensures added { IfOk result (λ number. (self.new ≡ self.old) ⊎ (self.new ≡ self.old ++ ground_made self.old level ∷ [])) }
        ensures kept { OnErr result (self.new ≡ self.old) }
        ensures more { (rest : TheList TheGround) × (self.new ≡ self.old ++ rest) }
    {
        enter(alloc, &mut self.entries, &mut self.numbers, level)
    }
}

/// The number of the type that this level makes, which is put behind the others where it isn't there.
fn enter(
    alloc: Global,
    entries: &mut Vec<Entry>,
    numbers: &mut NumbersByKey,
    level: GroundLevel,
) -> Result<u32, NoMemory>
    requires table { AreGrounds entries.old.items numbers.old }
    requires below { IsBelow (length entries.old.items) level }
    ensures table { AreGrounds entries.new.items numbers.new }
    ensures within { IfOk result (λ number. number < length (types_of entries.new.items)) }
    ensures made { IfOk result (λ number. at (types_of entries.new.items) number ≡ ground_made (types_of entries.old.items) level) }
    ensures added { IfOk result (λ number. (types_of entries.new.items ≡ types_of entries.old.items) ⊎ (types_of entries.new.items ≡ types_of entries.old.items ++ ground_made (types_of entries.old.items) level ∷ [])) }
    ensures kept { OnErr result (entries.new.items ≡ entries.old.items) }
{
    let key = key_of(alloc, &level)?;
    match numbers.get(key.as_slice()) {
        Some(number) => Ok(number),
        None => push(alloc, entries, numbers, key, level),
    }
}

/// Puts the type of a level behind the others.
fn push(
    alloc: Global,
    entries: &mut Vec<Entry>,
    numbers: &mut NumbersByKey,
    key: List<u32>,
    level: GroundLevel,
) -> Result<u32, NoMemory>
    requires table { AreGrounds entries.old.items numbers.old }
    requires below { IsBelow (length entries.old.items) level }
    requires key { key ≡ the_key level }
    requires lacks { finite.get numbers.old (the_key level) ≡ None }
    ensures table { AreGrounds entries.new.items numbers.new }
    ensures within { IfOk result (λ number. number < length (types_of entries.new.items)) }
    ensures made { IfOk result (λ number. at (types_of entries.new.items) number ≡ ground_made (types_of entries.old.items) level) }
    ensures added { IfOk result (λ number. types_of entries.new.items ≡ types_of entries.old.items ++ ground_made (types_of entries.old.items) level ∷ []) }
    ensures kept { OnErr result (entries.new.items ≡ entries.old.items) }
{
    let before = entries.as_slice();
    let number = number_of(before.len())?;
    let entry = entry_of(alloc, before, level)?;
    entries.push(entry)?;
    match numbers.put(key, number) {
        Ok(()) => Ok(number),
        Err(error) => {
            entries.truncate(number as usize);
            Err(error)
        }
    }
}

/// The same number, where it isn't too large for one.
fn number_of(count: usize) -> Result<u32, NoMemory>
    ensures { IfOk result (λ number. number ≡ count) }
{
    u32::try_from(count).map_err(|_| NoMemory)
}
