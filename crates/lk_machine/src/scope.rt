//! The values of local names, by number.

ghost use Rattle.lk_ir.specs.Continuing.{only};
ghost use Rattle.lk_ir.specs.Environments.{bind, bind_each, lookup, lookup_all, no_names};
ghost use Rattle.std.specs.FinMap as finite;
ghost use Rattle.std.specs.Option.{option_copied, option_map_or};
ghost use Rattle.std.specs.Prelude.{◌≡◌, IfOk};

use crate::values::reversed;
use lk_ast::{List, NoMemory, Value, copy_value};
use std::alloc::Global;
use std::collections::BTreeMap;
use std::marker::Model;

/// Local names with their values. Contracts see a finite map.
#[derive(Drop)]
pub struct Scope {
    values: BTreeMap<u32, Value>,
}

impl Model for Scope {
    ghost use Rattle.lk_ast.specs.contracts.value.Value as v;
    ghost use Rattle.lk_ir.specs.Environments.{Env};
    ghost use Rattle.std.specs.Coded.{coded_ℕ};
    ghost use Rattle.std.specs.FinMap as finite;

    ghost Value = { Env };

    ghost coded = { finite.code coded_ℕ v.the_row.coded };

    ghost view = { λ scope. finite.from_entries scope.values.entries };
}

impl Scope {
    /// No name yet.
    pub fn new(alloc: Global) -> Scope
        ensures { result ≡ no_names }
    {
        Scope {
            values: BTreeMap::new(alloc),
        }
    }

    /// The value of a name.
    pub fn get(&self, name: u32) -> Option<&Value>
        ensures { option_copied result ≡ lookup self.now name }
    {
        self.values.get(&name)
    }

    /// The values of several names once more, if each has one.
    pub fn copies(&self, alloc: Global, names: &[u32]) -> Result<Option<List<Value>>, NoMemory>
        ensures { IfOk result (λ values. values ≡ lookup_all self.now names.now) }
    {
        let mut values = List::new(alloc);
        for name in names {
            match self.get(*name) {
                Some(value) => values.push(copy_value(alloc, value)?)?,
                None => return Ok(None),
            }
        }
        Ok(Some(values))
    }

    /// These names alone.
    pub fn only(self, alloc: Global, names: &[u32]) -> Result<Scope, NoMemory>
        ensures { IfOk result (λ scope. scope ≡ only names.now self) }
    {
        let mut left = self;
        let mut kept = Scope::new(alloc);
        for name in names {
            let value = left.take(*name);
            kept = kept.bind_found(*name, value)?;
        }
        Ok(kept)
    }

    /// Takes out the value of a name.
    fn take(&mut self, name: u32) -> Option<Value>
        ensures value { result ≡ lookup self.old name }
        ensures left { self.new ≡ finite.remove self.old name }
    {
        self.values.remove(&name)
    }

    /// One more name, if it has a value.
    fn bind_found(self, name: u32, value: Option<Value>) -> Result<Scope, NoMemory>
        ensures { IfOk result (λ scope. scope ≡ option_map_or (λ v. bind name v self) value self) }
    {
        match value {
            Some(value) => self.bind(name, value),
            None => Ok(self),
        }
    }

    /// One more name, which hides an outer one.
    pub fn bind(self, name: u32, value: Value) -> Result<Scope, NoMemory>
        ensures { IfOk result (λ scope. scope ≡ bind name value self) }
    {
        let Scope { mut values } = self;
        drop(values.insert(name, value)?);
        Ok(Scope { values })
    }

    /// Values under names, one after the other, as many as there are of both.
    pub fn bind_each(self, names: &[u32], values: List<Value>) -> Result<Scope, NoMemory>
        ensures { IfOk result (λ scope. scope ≡ bind_each self names.now values) }
    {
        let mut left = reversed(values);
        let mut scope = self;
        for name in names {
            let Some(value) = left.pop() else {
                return Ok(scope);
            };
            scope = scope.bind(*name, value)?;
        }
        Ok(scope)
    }
}
