//! Rows as the places of their types under their labels.

ghost use Rattle.lk_unify.specs.Levels.{no_places, placed_row};
ghost use Rattle.std.specs.FinMap as finite;
ghost use Rattle.std.specs.Prelude.{◌≡◌, IfOk, OnOk};

use lk_ast::{List, NoMemory, Text};
use lk_types::{LevelField, LevelRow, RowTail};
use std::alloc::Global;
use std::collections::BTreeMap;
use std::marker::Model;

/// Places under their labels.
#[derive(Drop)]
pub struct RowPlaces {
    places: BTreeMap<Text, u32>,
}

impl Model for RowPlaces {
    ghost use Rattle.lk_types.specs.Rows.{label_order};
    ghost use Rattle.std.specs.Coded.{coded_list, coded_ℕ};
    ghost use Rattle.std.specs.FinMap as finite;
    ghost use Rattle.std.specs.Prelude.{ℕ};

    ghost Value = { finite.FinMap label_order ℕ };

    ghost coded = { finite.code (coded_list coded_ℕ) coded_ℕ };

    ghost view = { λ row. finite.from_sorted row.places.entries };
}

impl RowPlaces {
    /// No place yet.
    pub fn new(alloc: Global) -> RowPlaces
        ensures { result ≡ no_places }
    {
        RowPlaces {
            places: BTreeMap::new(alloc),
        }
    }

    /// One more place, instead of one with its label.
    pub fn put(&mut self, label: Text, place: u32) -> Result<(), NoMemory>
        ensures { OnOk result (self.new ≡ finite.insert self.old label place) }
    {
        self.places.insert(label, place)?;
        Ok(())
    }

    /// The row of a level, its fields in byte order of their labels.
    pub fn into_row(self, alloc: Global, tail: RowTail) -> Result<LevelRow, NoMemory>
        ensures { IfOk result (λ row. row ≡ placed_row self tail) }
    {
        let mut fields = List::new(alloc);
        for (label, part) in self.places {
            fields.push(LevelField { label, part })?;
        }
        Ok(LevelRow { fields, tail })
    }
}
