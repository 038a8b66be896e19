//! Local names with their values.

ghost use Rattle.std.specs.Option.{option_copied};
ghost use Rattle.std.specs.Prelude.{◌≡◌, IfOk, map, reverse};
ghost use Rattle.lk_locals.specs.Layers.{layered, over};
ghost use Rattle.lk_locals.specs.Names.{bind, bind_all, bind_each, lookup, lookup_all, no_names};

use crate::layer::Layer;
use lk_ast::{List, NoMemory, Shared, Value, Word, copy_value};
use std::alloc::Global;
use std::marker::Model;

/// The layers, the innermost last.
type Layers<'p> = List<Shared<Layer<'p>>>;

/// The values of local names. Several owners share the layers, and each of them only adds to those that are its own.
#[derive(Drop)]
pub struct Locals<'p> {
    layers: Shared<Layers<'p>>,
}

impl<'p> Model for Locals<'p> {
    ghost use Rattle.std.specs.Coded.{coded_list, coded_ℕ};
    ghost use Rattle.std.specs.FinMap as finite;
    ghost use Rattle.lk_ast.specs.contracts.value.Value as v;
    ghost use Rattle.lk_locals.specs.Layers.{layered};
    ghost use Rattle.lk_locals.specs.Names.{Names};

    ghost Value = { Names };

    ghost coded = { finite.code (coded_list coded_ℕ) v.the_row.coded };

    ghost view = { λ locals. layered locals.layers };
}

impl<'p> Locals<'p> {
    /// No name yet.
    pub fn new(alloc: Global) -> Result<Locals<'p>, NoMemory>
        ensures { IfOk result (λ locals. locals ≡ no_names) }
    {
        Ok(Locals {
            layers: Shared::new(alloc, List::new(alloc))?,
        })
    }

    /// One more owner of the same names.
    pub fn share(&self) -> Result<Locals<'p>, NoMemory>
        ensures { IfOk result (λ locals. locals ≡ self.now) }
    {
        Ok(Locals {
            layers: self.layers.share()?,
        })
    }

    /// The value of a name, the innermost of that word.
    pub fn get(&self, name: &str) -> Option<&Value>
        ensures { option_copied result ≡ lookup self.now name.now }
    {
        find(self.layers.get().as_slice(), name)
    }

    /// The values of several names, if each has one.
    pub fn get_all(&self, alloc: Global, names: &[&str]) -> Result<Option<List<Value>>, NoMemory>
        ensures { IfOk result (λ values. values ≡ lookup_all self.now (map (λ name. name.now) names.now)) }
    {
        let mut values = List::new(alloc);
        for name in names {
            match self.get(name) {
                Some(value) => values.push(copy_value(alloc, value)?)?,
                None => return Ok(None),
            }
        }
        Ok(Some(values))
    }

    /// One more name, which hides an outer one.
    pub fn bind(self, alloc: Global, name: &'p str, value: Value) -> Result<Locals<'p>, NoMemory>
        ensures { IfOk result (λ locals. locals ≡ bind name.now value self.entry) }
    {
        let Locals { layers } = self;
        let mut layers = own_layers(alloc, layers)?;
        let mut layer = own_layer(alloc, &mut layers)?;
        layer.insert(name, value)?;
        layers.push(Shared::new(alloc, layer)?)?;
        Ok(Locals {
            layers: Shared::new(alloc, layers)?,
        })
    }

    /// Values under names, one after the other, as many as there are of both.
    pub fn bind_each(
        self,
        alloc: Global,
        names: &[&'p str],
        values: List<Value>,
    ) -> Result<Locals<'p>, NoMemory>
        ensures { IfOk result (λ locals. locals ≡ bind_each self.entry (map (λ name. name.now) names.now) values) }
    {
        let mut left = reversed(values);
        let mut locals = self;
        for name in names {
            let Some(value) = left.pop() else {
                return Ok(locals);
            };
            locals = locals.bind(alloc, name, value)?;
        }
        Ok(locals)
    }

    /// The arguments under the names of the parameters, where there are as many.
    pub fn bind_all(
        self,
        alloc: Global,
        params: &'p [Word],
        args: List<Value>,
    ) -> Result<Option<Locals<'p>>, NoMemory>
        ensures { IfOk result (λ locals. locals ≡ bind_all self.entry params.now args) }
    {
        if params.len() != args.len() {
            return Ok(None);
        }
        let mut left = reversed(args);
        let mut locals = self;
        for param in params {
            if let Some(arg) = left.pop() {
                locals = locals.bind(alloc, param.text.as_str(), arg)?;
            }
        }
        Ok(Some(locals))
    }
}

/// The value of a name in the innermost layer that has it.
fn find<'a>(layers: &'a [Shared<Layer>], name: &str) -> Option<&'a Value>
    ensures { option_copied result ≡ lookup (layered layers.now) name.now }
{
    for layer in layers.iter().rev() {
        if let Some(value) = layer.get().get(name) {
            return Some(value);
        }
    }
    None
}

/// The layers in a list that nobody else sees.
fn own_layers<'p>(alloc: Global, layers: Shared<Layers<'p>>) -> Result<Layers<'p>, NoMemory>
    ensures { IfOk result (λ own. own ≡ layers.entry) }
{
    match layers.try_unwrap() {
        Ok(layers) => Ok(layers),
        Err(shared) => share_layers(alloc, shared.get().as_slice()),
    }
}

fn share_layers<'p>(alloc: Global, layers: &[Shared<Layer<'p>>]) -> Result<Layers<'p>, NoMemory>
    ensures { IfOk result (λ own. own ≡ layers.now) }
{
    let mut own = List::new(alloc);
    for layer in layers {
        own.push(layer.share()?)?;
    }
    Ok(own)
}

/// Takes the innermost layer off where nobody else sees it, and else begins a new one.
fn own_layer<'p>(alloc: Global, layers: &mut Layers<'p>) -> Result<Layer<'p>, NoMemory>
    ensures { IfOk result (λ own. over (layered layers.new) own ≡ layered layers.old) }
{
    let Some(last) = layers.pop() else {
        return Ok(Layer::new(alloc));
    };
    match last.try_unwrap() {
        Ok(own) => Ok(own),
        Err(shared) => {
            layers.push(shared)?;
            Ok(Layer::new(alloc))
        }
    }
}

fn reversed(values: List<Value>) -> List<Value>
    ensures { result ≡ reverse values }
{
    let mut values = values.into_vec();
    values.reverse();
    List::from_vec(values)
}
