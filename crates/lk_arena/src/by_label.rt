//! Nodes of fields by their labels, found in a time that grows with the logarithm of the number of fields.

ghost use Rattle.std.specs.Prelude.{◌≡◌, ◌||◌, IfOk, None, OnOk, IsTrue, false, true};
ghost use Rattle.lk_types.specs.Each.{Each, OneOf};
ghost use Rattle.lk_types.specs.Rows.{Label};
ghost use Rattle.lk_arena.specs.Lookups.{HasNodes, is_label, is_noted};
ghost use Rattle.lk_arena.specs.Shapes.{found_at, IsDistinct};

use crate::node::Field;
use lk_ast::{NoMemory, Text};
use std::alloc::Global;
use std::collections::BTreeMap;
use std::marker::Model;

/// So many fields are looked through one by one, in which no map finds one sooner.
const FEW: usize = 16;

/// The node of the first field with this label, one by one.
pub fn node_of(fields: &[Field], label: &Text) -> Option<usize>
    ensures { result ≡ found_at fields.now label.now }
{
    for field in fields {
        if label.equals(&field.label) {
            return Some(field.node);
        }
    }
    None
}

/// The nodes of fields by their labels, that of the first where a label stands twice.
fn by_label<'f>(alloc: Global, fields: &'f [Field]) -> Result<BTreeMap<&'f str, usize>, NoMemory>
    ensures { IfOk result (λ nodes. HasNodes nodes fields.now) }
{
    let mut nodes = BTreeMap::new(alloc);
    for i in (0..fields.len()).rev() {
        let field = &fields[i];
        drop(nodes.insert(field.label.as_str(), field.node)?);
    }
    Ok(nodes)
}

/// Fields that are looked for by their labels. Contracts see the fields.
#[derive(Drop)]
pub struct Finder<'f> {
    fields: &'f [Field],
    nodes: Option<BTreeMap<&'f str, usize>>,
}

impl<'f> Model for Finder<'f> {
    ghost use Rattle.lk_arena.specs.Lookups.{MayHaveNodes};
    ghost use Rattle.lk_arena.specs.contracts.node.Field as f;
    ghost use Rattle.lk_arena.specs.declared.node.Field.{Field as TheField};
    ghost use Rattle.std.specs.Coded.{coded_list};
    ghost use Rattle.std.specs.Prelude.{List};

    ghost Value = { List TheField };

    ghost coded = { coded_list f.the_row.coded };

    ghost view = { λ finder. finder.fields.now };

    ghost invariant = { λ finder. MayHaveNodes finder.nodes finder.fields.now };
}

impl<'f> Finder<'f> {
    /// Fields in which labels are looked for so many times. There is a map where both are many.
    pub fn new(alloc: Global, fields: &'f [Field], times: usize) -> Result<Finder<'f>, NoMemory>
        ensures { IfOk result (λ finder. finder ≡ fields.now) }
    {
        if fields.len() <= FEW || times <= FEW {
            return Ok(Finder {
                fields,
                nodes: None,
            });
        }
        let nodes = by_label(alloc, fields)?;
        Ok(Finder {
            fields,
            nodes: Some(nodes),
        })
    }

    /// The node of the first field with this label.
    pub fn find(&self, label: &Text) -> Option<usize>
        ensures { result ≡ found_at self.now label.now }
    {
        match &self.nodes {
            None => node_of(self.fields, label),
            Some(nodes) => nodes.get(label.as_str()).copied(),
        }
    }

    /// Whether no field has the label of one of these.
    pub fn lack(&self, others: &[Field]) -> bool
        ensures { IsTrue result → Each (λ f. found_at self.now f.label ≡ None) others.now }
    {
        for other in others {
            if self.find(&other.label).is_some() {
                return false;
            }
        }
        true
    }
}

/// Whether no label stands twice in few fields.
fn are_few_distinct(fields: &[Field]) -> bool
    ensures distinct { IsTrue result → IsDistinct fields.now }
    ensures twice { (result ≡ false) → IsDistinct fields.now → ⊥ }
{
    for i in 0..fields.len() {
        if node_of(&fields[i + 1..], &fields[i].label).is_some() {
            return false;
        }
    }
    true
}

/// Whether no label stands twice in many fields.
fn are_many_distinct(alloc: Global, fields: &[Field]) -> Result<bool, NoMemory>
    ensures distinct { IfOk result (λ distinct. IsTrue distinct → IsDistinct fields.now) }
    ensures twice { IfOk result (λ distinct. (distinct ≡ false) → IsDistinct fields.now → ⊥) }
{
    let mut nodes = BTreeMap::new(alloc);
    for i in (0..fields.len()).rev() {
        let field = &fields[i];
        if nodes.insert(field.label.as_str(), field.node)?.is_some() {
            return Ok(false);
        }
    }
    Ok(true)
}

/// Whether no label stands twice.
pub fn are_distinct(alloc: Global, fields: &[Field]) -> Result<bool, NoMemory>
    ensures distinct { IfOk result (λ distinct. IsTrue distinct → IsDistinct fields.now) }
    ensures twice { IfOk result (λ distinct. (distinct ≡ false) → IsDistinct fields.now → ⊥) }
{
    if fields.len() <= FEW {
        return Ok(are_few_distinct(fields));
    }
    are_many_distinct(alloc, fields)
}

/// Notes the labels of fields.
pub fn note_labels<'f>(
    labels: &mut BTreeMap<&'f str, usize>,
    fields: &'f [Field],
) -> Result<(), NoMemory>
    ensures { OnOk result ((l : Label) → is_noted labels.new l ≡ (is_label fields.now l || is_noted labels.old l)) }
{
    for i in (0..fields.len()).rev() {
        let field = &fields[i];
        drop(labels.insert(field.label.as_str(), field.node)?);
    }
    Ok(())
}

/// Whether none of the labels of these fields is noted.
pub fn lacks_all(labels: &BTreeMap<&str, usize>, others: &[Field]) -> bool
    ensures lacks { IsTrue result → Each (λ f. is_noted labels.now f.label ≡ false) others.now }
    ensures has { (result ≡ false) → OneOf (λ f. is_noted labels.now f.label ≡ true) others.now }
{
    for other in others {
        if labels.contains_key(other.label.as_str()) {
            return false;
        }
    }
    true
}
