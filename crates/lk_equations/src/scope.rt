//! What names stand for, where a later entry hides an earlier one.

ghost use Rattle.std.specs.Option.{option_copied};
ghost use Rattle.std.specs.Prelude.{◌≡◌, [], ◌∷◌, drop, OnOk};
ghost use Rattle.lk_typing.specs.Names.{named};

use lk_ast::NoMemory;
use std::alloc::Global;
use std::collections::BTreeMap;
use std::marker::Model;

/// A name with what it stands for, and the place of the entry of the same name that it hides.
#[derive(Drop)]
struct Entry<'p, T> {
    name: &'p str,
    value: T,
    hidden: Option<usize>,
}

/// What names stand for. A later entry hides an earlier one of the same name.
///
/// A look-up takes the logarithm of the number of entries: `last` has the place of the last entry of each name.
#[derive(Drop)]
pub struct Scope<'p, T> {
    entries: Vec<Entry<'p, T>>,
    last: BTreeMap<&'p str, usize>,
}

impl<'p, T> Model for Scope<'p, T> {
    ghost use Rattle.std.specs.Coded.{coded_list, coded_ℕ, coded×};
    ghost use Rattle.lk_typing.specs.Names.{Named};
    ghost use Rattle.lk_equations.specs.Places.{links, seen, IsIndex};

    ghost Value = { Named T };

    ghost coded = { coded_list (coded× (coded_list coded_ℕ) T.code) };

    ghost view = { λ scope. seen scope.entries.items };

    ghost invariant = { λ scope. IsIndex scope.last (links scope.entries.items) };
}

impl<'p, T> Scope<'p, T> {
    /// No name yet.
    pub fn new(alloc: Global) -> Scope<'p, T>
        ensures { result ≡ [] }
    {
        Scope {
            entries: Vec::new(alloc),
            last: BTreeMap::new(alloc),
        }
    }

    /// What a name stands for.
    pub fn get(&self, name: &str) -> Option<&T>
        ensures { option_copied result ≡ named name.now self.now }
    {
        match self.last.get(name) {
            Some(place) => Some(&self.entries[*place].value),
            None => None,
        }
    }
}

impl<'p, T: Drop> Scope<'p, T> {
    /// One more name, which hides an earlier equal one.
    pub fn push(&mut self, name: &'p str, value: T) -> Result<(), NoMemory>
        ensures { OnOk result (self.new ≡ (name.now, value) ∷ self.old) }
    {
        let place = self.entries.len();
        let hidden = self.last.get(name).copied();
        self.entries.push(Entry {
            name,
            value,
            hidden,
        })?;
        match self.last.insert(name, place) {
            Ok(_) => Ok(()),
            Err(_) => {
                self.entries.pop();
                Err(NoMemory)
            }
        }
    }

    /// Takes the name away that came last.
    pub fn pop(&mut self)
        ensures { self.new ≡ drop 1 self.old }
    {
        let Some(entry) = self.entries.pop() else {
            return;
        };
        match entry.hidden {
            Some(place) => {
                if let Some(last) = self.last.get_mut(entry.name) {
                    *last = place;
                }
            }
            None => {
                self.last.remove(entry.name);
            }
        }
    }
}
