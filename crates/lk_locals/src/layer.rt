//! One layer of local names.

ghost use Rattle.std.specs.Option.{option_copied};
ghost use Rattle.std.specs.Prelude.{◌≡◌, OnOk};
ghost use Rattle.lk_locals.specs.Names.{bind, lookup, no_names};

use lk_ast::{NoMemory, Value};
use std::alloc::Global;
use std::collections::BTreeMap;
use std::marker::Model;

/// Names with their values.
#[derive(Drop)]
pub struct Layer<'p> {
    values: BTreeMap<&'p str, Value>,
}

impl<'p> Model for Layer<'p> {
    ghost use Rattle.std.specs.Prelude.{map};
    ghost use Rattle.std.specs.Coded.{coded_list, coded_ℕ};
    ghost use Rattle.std.specs.FinMap as finite;
    ghost use Rattle.lk_ast.specs.contracts.value.Value as v;
    ghost use Rattle.lk_locals.specs.Names.{Names};

    ghost Value = { Names };

    ghost coded = { finite.code (coded_list coded_ℕ) v.the_row.coded };

    ghost view = { λ layer. finite.from_entries (map (λ e. (e.0.now, e.1)) layer.values.entries) };
}

impl<'p> Layer<'p> {
    /// No name yet.
    pub fn new(alloc: Global) -> Layer<'p>
        ensures { result ≡ no_names }
    {
        Layer {
            values: BTreeMap::new(alloc),
        }
    }

    /// The value of a name.
    pub fn get(&self, name: &str) -> Option<&Value>
        ensures { option_copied result ≡ lookup self.now name.now }
    {
        self.values.get(name)
    }

    /// One more name, in place of an equal one.
    pub fn insert(&mut self, name: &'p str, value: Value) -> Result<(), NoMemory>
        ensures { OnOk result (self.new ≡ bind name.now value self.old) }
    {
        self.values.insert(name, value)?;
        Ok(())
    }
}
