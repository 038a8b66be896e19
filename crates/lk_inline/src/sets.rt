//! What columns are set to, in byte order of the columns.

ghost use Rattle.lk_bodies.specs.Walk.{labelled};
ghost use Rattle.lk_inline.specs.Sets.{in_order, items_of, parts_by_label};
ghost use Rattle.std.specs.FinMap as finite;
ghost use Rattle.std.specs.Prelude.{◌≡◌, IfOk, OnOk, map};

use lk_ast::{List, NoMemory, PartExpr, Text};
use lk_bodies::labelled;
use lk_query::Labelled;
use std::alloc::Global;
use std::collections::BTreeMap;
use std::marker::Model;

/// Parts by the labels that they are under.
#[derive(Drop)]
struct PartsByLabel {
    parts: BTreeMap<String, u32>,
}

impl Model for PartsByLabel {
    ghost use Rattle.std.specs.Prelude.{ℕ, map, string_bytes};
    ghost use Rattle.std.specs.Coded.{coded_list, coded_ℕ};
    ghost use Rattle.std.specs.Cmp.Lexicographic.{slice_cmp};
    ghost use Rattle.std.specs.FinMap as finite;
    ghost use Rattle.std.specs.Ordering.{nat_cmp};

    ghost Value = { finite.FinMap (slice_cmp nat_cmp) ℕ };

    ghost coded = { finite.code (coded_list coded_ℕ) coded_ℕ };

    ghost view = { λ e. finite.from_sorted (map (λ x. (string_bytes x.0, x.1)) e.parts.entries) };
}

impl PartsByLabel {
    /// No part yet.
    fn new(alloc: Global) -> PartsByLabel
        ensures { result ≡ finite.empty }
    {
        PartsByLabel {
            parts: BTreeMap::new(alloc),
        }
    }

    /// A part under its label, in place of one that is there.
    fn insert(&mut self, alloc: Global, label: &str, part: u32) -> Result<(), NoMemory>
        ensures { OnOk result (self.new ≡ finite.insert self.old label.now part) }
    {
        let label = String::from_str(alloc, label)?;
        self.parts.insert(label, part)?;
        Ok(())
    }

    /// The parts in byte order of their labels.
    fn into_items(self, alloc: Global) -> Result<List<Labelled>, NoMemory>
        ensures { IfOk result (λ items. items ≡ items_of self) }
    {
        let mut items = List::new(alloc);
        for (label, part) in self.parts {
            let label = Text::from_string(label);
            items.push(Labelled { label, part })?;
        }
        Ok(items)
    }
}

/// The parts by their labels, the first where a label is there twice.
fn by_label(alloc: Global, items: &[Labelled]) -> Result<PartsByLabel, NoMemory>
    ensures { IfOk result (λ parts. parts ≡ parts_by_label items.now) }
{
    let mut parts = PartsByLabel::new(alloc);
    for item in items.iter().rev() {
        parts.insert(alloc, item.label.as_str(), item.part)?;
    }
    Ok(parts)
}

/// The parts in byte order of their labels, the first where a label is there twice.
fn in_order(alloc: Global, items: &[Labelled]) -> Result<List<Labelled>, NoMemory>
    ensures { IfOk result (λ ordered. ordered ≡ in_order items.now) }
{
    by_label(alloc, items)?.into_items(alloc)
}

/// What the columns of an update are set to, which are these parts, in byte order of the columns.
pub fn sets_of(alloc: Global, sets: &[PartExpr], parts: &[u32]) -> Result<List<Labelled>, NoMemory>
    ensures { IfOk result (λ items. items ≡ in_order (labelled (map (λ set. set.label.text) sets.now) parts.now)) }
{
    let items = labelled(alloc, sets, parts)?;
    in_order(alloc, items.as_slice())
}
