//! Names with the numbers of their types.

ghost use Rattle.lk_cps.specs.Live.{Joins, KeepsAll, Leaves, Puts, type_in};
ghost use Rattle.std.specs.Prelude.{◌≡◌, [], length, IfOk, OnOk};

use lk_ast::{List, NoMemory};
use lk_ir::Kept;
use std::alloc::Global;
use std::collections::BTreeMap;
use std::marker::Model;

/// Names with the numbers of their types. Contracts see a list of them, in the order of names.
#[derive(Drop)]
pub struct Live {
    types: BTreeMap<u32, u32>,
}

impl Model for Live {
    ghost use Rattle.lk_cps.specs.Live.{Live as TheLive, Rises};
    ghost use Rattle.std.specs.Coded.{codes};

    ghost Value = { TheLive };

    ghost coded = { Prim.hlevel codes };

    ghost view = { λ live. live.types.entries };

    ghost invariant = { λ live. Rises live.types.entries };
}

impl Live {
    /// No name, which takes no memory.
    pub fn new(alloc: Global) -> Live
        ensures { result ≡ [] }
    {
        Live {
            types: BTreeMap::new(alloc),
        }
    }

    /// How many names there are.
    pub fn len(&self) -> usize
        ensures { result ≡ length self.now }
    {
        self.types.len()
    }

    /// The number of the type of a name.
    pub fn get(&self, name: u32) -> Option<u32>
        ensures { result ≡ type_in self.now name }
    {
        self.types.get(&name).copied()
    }

    /// A name more, in place of an equal one.
    pub fn put(&mut self, name: u32, ty: u32) -> Result<(), NoMemory>
        ensures { OnOk result (Puts self.old name ty self.new) }
    {
        drop(self.types.insert(name, ty)?);
        Ok(())
    }

    /// All but this name.
    pub fn without(self, bound: Option<u32>) -> Live
        ensures { Leaves self bound result }
    {
        let Live { mut types } = self;
        match bound {
            Some(name) => {
                types.remove(&name);
                Live { types }
            }
            None => Live { types },
        }
    }

    /// The names of both. The fewer ones are put to the others, so that no text takes the square of its names.
    pub fn join(self, other: Live) -> Result<Live, NoMemory>
        ensures { IfOk result (Joins self other) }
    {
        if self.len() < other.len() {
            put_all(other, self)
        } else {
            put_all(self, other)
        }
    }

    /// All of them, in order.
    pub fn kept(&self, alloc: Global) -> Result<List<Kept>, NoMemory>
        ensures { IfOk result (KeepsAll self.now) }
    {
        let mut kept = List::new(alloc);
        for (name, ty) in &self.types {
            kept.push(Kept {
                name: *name,
                ty: *ty,
            })?;
        }
        Ok(kept)
    }
}

/// The names of both.
fn put_all(mut names: Live, more: Live) -> Result<Live, NoMemory>
    ensures { IfOk result (Joins names more) }
{
    for (name, ty) in more.types {
        names.put(name, ty)?;
    }
    Ok(names)
}
