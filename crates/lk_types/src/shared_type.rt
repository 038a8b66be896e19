//! A type by levels that may have several owners.

ghost use Rattle.lk_types.specs.Names.{place_in};
ghost use Rattle.lk_types.specs.Renamed.{renamed};
ghost use Rattle.std.specs.Prelude.{◌≡◌, ◌<◌, IfOk, Some, length, slice_get};

use crate::levels::Types;
use crate::names::Names;
use crate::one_type::OneType;
use crate::ty::Ty;
use lk_ast::{NoMemory, Shared};
use std::alloc::Global;
use std::marker::Model;

/// One of some types, which may have several owners. So one more owner takes no room for the types. Contracts see the one type.
#[derive(Drop)]
pub struct SharedType {
    types: Shared<Types>,
    number: usize,
}

impl Model for SharedType {
    ghost use Rattle.lk_types.specs.Levels.{at};
    ghost use Rattle.lk_types.specs.contracts.ty.Ty as t;
    ghost use Rattle.lk_types.specs.declared.ty.Ty.{Ty as TheTy};
    ghost use Rattle.std.specs.Prelude.{◌<◌, length};

    ghost Value = { TheTy };

    ghost coded = { t.the_row.coded };

    ghost view = { λ shared. at shared.types shared.number };

    ghost invariant = { λ shared. shared.number < length shared.types };
}

impl SharedType {
    /// The one of that number.
    pub fn of(types: Shared<Types>, number: usize) -> SharedType
        requires { number < length types }
        ensures { slice_get types number ≡ Some result }
    {
        SharedType { types, number }
    }

    /// One more owner of the types.
    pub fn share(&self) -> Result<SharedType, NoMemory>
        ensures { IfOk result (λ other. other ≡ self.now) }
    {
        Ok(SharedType {
            types: self.types.share()?,
            number: self.number,
        })
    }

    /// The type, written out. Whoever asks for it knows that it isn't too large.
    pub fn tree(&self, alloc: Global) -> Result<Ty, NoMemory>
        ensures { IfOk result (λ ty. ty ≡ self.now) }
    {
        self.types.get().tree(alloc, self.number)
    }

    /// The type with new numbers for its variables, where the one that comes first in `names` gets `first`.
    pub fn renamed(&self, alloc: Global, names: &Names, first: u32) -> Result<OneType, NoMemory>
        ensures { IfOk result (λ made. made ≡ renamed (place_in first names.now) self.now) }
    {
        let one = self.types.get().single(alloc, self.number)?;
        one.renamed(names, first)
    }
}
