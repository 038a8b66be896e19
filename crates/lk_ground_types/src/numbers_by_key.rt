//! Numbers under keys.

ghost use Rattle.lk_ground_types.specs.Grounds.{Numbers};
ghost use Rattle.std.specs.FinMap as finite;
ghost use Rattle.std.specs.Prelude.{◌≡◌, OnErr, OnOk};

use lk_ast::{List, NoMemory};
use std::alloc::Global;
use std::collections::BTreeMap;
use std::marker::Model;

/// Numbers under keys that are numbers, too.
#[derive(Drop)]
pub struct NumbersByKey {
    numbers: BTreeMap<Vec<u32>, u32>,
}

impl Model for NumbersByKey {
    ghost use Rattle.lk_ground_types.specs.Grounds.{Numbers};
    ghost use Rattle.std.specs.Coded.{coded_list, coded_ℕ};
    ghost use Rattle.std.specs.FinMap as finite;
    ghost use Rattle.std.specs.Prelude.{map};

    ghost Value = { Numbers };

    ghost coded = { finite.code (coded_list coded_ℕ) coded_ℕ };

    ghost view = { λ by_key. finite.from_entries (map (λ e. (e.0.items, e.1)) by_key.numbers.entries) };
}

impl NumbersByKey {
    /// No number yet.
    pub fn new(alloc: Global) -> NumbersByKey
        ensures { result ≡ finite.empty }
    {
        NumbersByKey {
            numbers: BTreeMap::new(alloc),
        }
    }

    /// The number under a key.
    pub fn get(&self, key: &[u32]) -> Option<u32>
        ensures { result ≡ finite.get self.now key.now }
    {
        self.numbers.get(key).copied()
    }

    /// A number under a key.
    pub fn put(&mut self, key: List<u32>, number: u32) -> Result<(), NoMemory>
        ensures put { OnOk result (self.new ≡ finite.insert self.old key number) }
        ensures kept { OnErr result (self.new ≡ self.old) }
    {
        self.numbers.insert(key.into_vec(), number)?;
        Ok(())
    }
}
