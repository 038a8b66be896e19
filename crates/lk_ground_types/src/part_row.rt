//! Rows of types that are named by their numbers.

ghost use Rattle.lk_ground_types.specs.Grounds.{Parts, parts_in, row_of_parts};
ghost use Rattle.std.specs.FinMap as finite;
ghost use Rattle.std.specs.Prelude.{◌≡◌, IfOk, OnOk};

use crate::ground_level::GroundPart;
use lk_ast::{List, NoMemory, Text};
use std::alloc::Global;
use std::collections::BTreeMap;
use std::marker::Model;

/// Numbers of types under labels.
#[derive(Drop)]
pub struct PartRow {
    parts: BTreeMap<String, u32>,
}

impl Model for PartRow {
    ghost use Rattle.lk_ground_types.specs.Grounds.{Parts};
    ghost use Rattle.std.specs.Coded.{coded_list, coded_ℕ};
    ghost use Rattle.std.specs.FinMap as finite;
    ghost use Rattle.std.specs.Prelude.{map, string_bytes};

    ghost Value = { Parts };

    ghost coded = { finite.code (coded_list coded_ℕ) coded_ℕ };

    ghost view = { λ row. finite.from_entries (map (λ e. (string_bytes e.0, e.1)) row.parts.entries) };
}

impl PartRow {
    /// No type yet.
    pub fn new(alloc: Global) -> PartRow
        ensures { result ≡ finite.empty }
    {
        PartRow {
            parts: BTreeMap::new(alloc),
        }
    }

    /// The row of these parts, the first one where a label comes twice. `NoMemory` where memory runs out.
    pub fn of(alloc: Global, parts: &[GroundPart]) -> Result<PartRow, NoMemory>
        ensures { IfOk result (λ row. row ≡ row_of_parts parts.now) }
    {
        let mut row = PartRow::new(alloc);
        for i in (0..parts.len()).rev() {
            let part = &parts[i];
            row.put(alloc, part.label.as_str(), part.part)?;
        }
        Ok(row)
    }

    /// One more type, in place of one with its label.
    pub fn put(&mut self, alloc: Global, label: &str, part: u32) -> Result<(), NoMemory>
        ensures { OnOk result (self.new ≡ finite.insert self.old label.now part) }
    {
        let label = String::from_str(alloc, label)?;
        self.parts.insert(label, part)?;
        Ok(())
    }

    /// Takes the type under a label out, if there is one.
    pub fn take(&mut self, label: &str) -> Option<u32>
        ensures taken { result ≡ finite.get self.old label.now }
        ensures left { self.new ≡ finite.remove self.old label.now }
    {
        self.parts.remove(label)
    }

    /// The same row once more. `NoMemory` where memory runs out.
    pub fn copy(&self, alloc: Global) -> Result<PartRow, NoMemory>
        ensures { IfOk result (λ row. row ≡ self.now) }
    {
        let mut row = PartRow::new(alloc);
        for (label, part) in self.parts.iter() {
            row.put(alloc, label.as_str(), *part)?;
        }
        Ok(row)
    }

    /// The types in byte order of their labels. `NoMemory` where memory runs out.
    pub fn into_parts(self, alloc: Global) -> Result<List<GroundPart>, NoMemory>
        ensures { IfOk result (λ parts. parts ≡ parts_in self) }
    {
        let mut parts = List::new(alloc);
        for (label, part) in self.parts {
            let label = Text::from_string(label);
            parts.push(GroundPart { label, part })?;
        }
        Ok(parts)
    }
}
