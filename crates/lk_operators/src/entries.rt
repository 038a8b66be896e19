//! Values under labels.

ghost use Rattle.std.specs.Prelude.{◌≡◌, IfOk, OnOk};
ghost use Rattle.std.specs.FinMap as finite;
ghost use Rattle.lk_operators.specs.Records.{entries_of, fields_in_order};

use lk_ast::{Field, List, NoMemory, Text, Value};
use std::alloc::Global;
use std::collections::BTreeMap;
use std::marker::Model;

/// The entries of a record: a map from labels to values.
#[derive(Drop)]
pub struct Entries {
    values: BTreeMap<String, Value>,
}

impl Model for Entries {
    ghost use Rattle.std.specs.Prelude.{map, string_bytes};
    ghost use Rattle.std.specs.Coded.{coded_list, coded_ℕ};
    ghost use Rattle.std.specs.FinMap as finite;
    ghost use Rattle.lk_ast.specs.contracts.value.Value as v;
    ghost use Rattle.lk_operators.specs.Records.{Entries as TheEntries};

    ghost Value = { TheEntries };

    ghost coded = { finite.code (coded_list coded_ℕ) v.the_row.coded };

    ghost view = { λ e. finite.from_sorted (map (λ x. (string_bytes x.0, x.1)) e.values.entries) };
}

impl Entries {
    /// No entry yet.
    fn new(alloc: Global) -> Entries
        ensures { result ≡ finite.empty }
    {
        Entries {
            values: BTreeMap::new(alloc),
        }
    }

    /// The value under a label, in place of one that is there.
    fn insert(&mut self, alloc: Global, label: &str, value: Value) -> Result<(), NoMemory>
        ensures { OnOk result (self.new ≡ finite.insert self.old label.now value) }
    {
        let label = String::from_str(alloc, label)?;
        self.values.insert(label, value)?;
        Ok(())
    }

    /// How many entries there are.
    pub fn len(&self) -> usize
        ensures { result ≡ finite.len self.now }
    {
        self.values.len()
    }

    /// The fields put in one after the other.
    pub fn from_fields(alloc: Global, fields: List<Field>) -> Result<Entries, NoMemory>
        ensures { IfOk result (λ made. made ≡ entries_of fields) }
    {
        let mut entries = Entries::new(alloc);
        for field in fields.into_vec() {
            let (label, value) = field.into_parts();
            entries.insert(alloc, label.as_str(), value)?;
        }
        Ok(entries)
    }

    /// The entries as fields, in byte order of their labels.
    pub fn into_fields(self, alloc: Global) -> Result<List<Field>, NoMemory>
        ensures { IfOk result (λ fields. fields ≡ fields_in_order self) }
    {
        let mut fields = List::new(alloc);
        for (label, value) in self.values {
            let label = Text::from_string(label);
            fields.push(Field { label, value })?;
        }
        Ok(fields)
    }
}
