//! Lists of instances in which each is found by its function and its type.

ghost use Rattle.lk_mono.specs.Places.{FindsUses, is_use};
ghost use Rattle.std.specs.List.{position};
ghost use Rattle.std.specs.Prelude.{◌≡◌, ◌++◌, ◌<◌, [], ◌∷◌, None, OnOk, Some, length, slice_get};

use crate::queue::Use;
use lk_ast::{List, NoMemory, Text};
use std::alloc::Global;
use std::collections::BTreeMap;
use std::marker::Model;

/// Instances, and the place of each by the name of its function and the number of its type. Contracts see the list of them.
#[derive(Drop)]
pub struct Listed<'p> {
    uses: List<Use<'p>>,
    places: BTreeMap<(&'p str, u32), usize>,
}

impl<'p> Model for Listed<'p> {
    ghost use Rattle.lk_mono.specs.Places.{FindsUses};
    ghost use Rattle.lk_mono.specs.declared.queue.Use.{Use as TheUse};
    ghost use Rattle.lk_types.specs.contracts.ground.Ground as ground;
    ghost use Rattle.std.specs.Coded.{codes};
    ghost use Rattle.std.specs.Prelude.{List};

    ghost Value = { List TheUse };

    ghost coded = { Prim.hlevel (codes, ground.the_row.coded) };

    ghost view = { λ listed. listed.uses };

    ghost invariant = { λ listed. FindsUses listed.places listed.uses };
}

impl<'p> Listed<'p> {
    /// No instance, which takes no memory.
    pub fn new(alloc: Global) -> Listed<'p>
        ensures { result ≡ [] }
    {
        Listed {
            uses: List::new(alloc),
            places: BTreeMap::new(alloc),
        }
    }

    /// How many instances there are.
    pub fn len(&self) -> usize
        ensures { result ≡ length self.now }
    {
        self.uses.len()
    }

    /// The instance at this place, which is within the list.
    pub fn at(&self, place: usize) -> &Use<'p>
        requires { place < length self.now }
        ensures { slice_get self.now place ≡ Some result.now }
    {
        self.uses.at(place)
    }

    /// The place of the first instance of this function at the type of that number.
    pub fn place(&self, name: &'p Text, number: u32) -> Option<usize>
        ensures { result ≡ position (is_use name.now number) self.now }
    {
        self.places.get(&(name.as_str(), number)).copied()
    }

    /// Puts an instance that isn't there behind the others, or is refused for want of memory.
    pub fn push(&mut self, usage: Use<'p>) -> Result<(), NoMemory>
        requires { position (is_use usage.name.now usage.number) self.old ≡ None }
        ensures { OnOk result (self.new ≡ self.old ++ usage.entry ∷ []) }
    {
        let key = (usage.name.as_str(), usage.number);
        let place = self.uses.len();
        self.uses.push(usage)?;
        match self.places.insert(key, place) {
            Ok(_) => Ok(()),
            Err(_) => {
                self.uses.pop();
                Err(NoMemory)
            }
        }
    }

    /// The instances without their places.
    pub fn into_list(self) -> List<Use<'p>>
        ensures { result ≡ self.entry }
    {
        let Listed {
            uses,
            places: _places,
        } = self;
        uses
    }
}
