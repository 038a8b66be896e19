//! The local names in scope.

ghost use Rattle.std.specs.Prelude.{◌≡◌, not, IfOk, OnOk};
ghost use Rattle.std.specs.FinSet as set;
ghost use Rattle.lk_scope.specs.Names.{no_names, is_local, bind, bind_all, bind_some};
ghost use Rattle.std.specs.Option.{option_copied};
ghost use Rattle.lk_scope.specs.Leaving.{without};

use lk_ast::{List, NoMemory, Text, Word};
use std::alloc::Global;
use std::collections::BTreeSet;
use std::marker::Model;

/// A set of names, as of the local names in scope. Where memory runs out in a method, the set and what was noted are of no
/// use any more: nothing is said of them.
#[derive(Drop)]
pub struct Names {
    names: BTreeSet<String>,
}

impl Model for Names {
    ghost use Rattle.std.specs.Prelude.{map, string_bytes};
    ghost use Rattle.std.specs.Coded.{coded_list, coded_ℕ};
    ghost use Rattle.std.specs.FinSet as set;
    ghost use Rattle.lk_scope.specs.Names.{Names as TheNames};

    ghost Value = { TheNames };

    ghost coded = { set.code (coded_list coded_ℕ) };

    ghost view = { λ names. set.from_list (map string_bytes names.names.keys) };
}

impl Names {
    /// No name yet.
    pub fn new(alloc: Global) -> Names
        ensures { result ≡ no_names }
    {
        Names {
            names: BTreeSet::new(alloc),
        }
    }

    /// Whether a local name of this word is in scope.
    pub fn has(&self, name: &str) -> bool
        ensures { result ≡ is_local self.now name.now }
    {
        self.names.contains(name)
    }

    /// One more name. The answer is whether it was a new one.
    pub fn insert(&mut self, alloc: Global, name: &str) -> Result<bool, NoMemory>
        ensures inserted { OnOk result (self.new ≡ set.insert self.old name.now) }
        ensures added { IfOk result (λ added. added ≡ not (is_local self.old name.now)) }
    {
        let text = String::from_str(alloc, name)?;
        Ok(self.names.insert(text)?)
    }

    /// Without this name.
    fn remove(&mut self, name: &str)
        ensures { self.new ≡ set.remove self.old name.now }
    {
        self.names.remove(name);
    }

    /// One more name, noted unless it was there.
    pub fn enter(
        &mut self,
        alloc: Global,
        noted: &mut List<Text>,
        name: &Word,
    ) -> Result<(), NoMemory>
        ensures entered { OnOk result (self.new ≡ bind name.now self.old) }
        ensures noted { OnOk result (without noted.new self.new ≡ without noted.old self.old) }
    {
        if self.insert(alloc, name.text.as_str())? {
            noted.push(name.text.copy(alloc)?)?;
            Ok(())
        } else {
            Ok(())
        }
    }

    /// One more name or none, noted unless it was there.
    pub fn enter_some(
        &mut self,
        alloc: Global,
        noted: &mut List<Text>,
        name: Option<&Word>,
    ) -> Result<(), NoMemory>
        ensures entered { OnOk result (self.new ≡ bind_some (option_copied name.entry) self.old) }
        ensures noted { OnOk result (without noted.new self.new ≡ without noted.old self.old) }
    {
        match name {
            None => Ok(()),
            Some(name) => self.enter(alloc, noted, name),
        }
    }

    /// More names, noted unless they were there.
    pub fn enter_all(
        &mut self,
        alloc: Global,
        noted: &mut List<Text>,
        words: &[Word],
    ) -> Result<(), NoMemory>
        ensures entered { OnOk result (self.new ≡ bind_all words.now self.old) }
        ensures noted { OnOk result (without noted.new self.new ≡ without noted.old self.old) }
    {
        for word in words {
            self.enter(alloc, noted, word)?;
        }
        Ok(())
    }

    /// Without the noted names.
    pub fn leave(&mut self, noted: List<Text>)
        ensures { self.new ≡ without noted self.old }
    {
        let mut left = noted;
        while let Some(name) = left.pop() {
            self.remove(name.as_str());
        }
    }
}
