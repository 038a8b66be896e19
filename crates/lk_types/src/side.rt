//! Sides of equations.

ghost use Rattle.lk_types.specs.Names.{place_in};
ghost use Rattle.lk_types.specs.Renamed.{renamed};
ghost use Rattle.std.specs.Prelude.{◌≡◌, IfOk, IfSome};

use crate::levels::Types;
use crate::names::Names;
use crate::one_type::OneType;
use crate::shared_type::SharedType;
use crate::ty::Ty;
use lk_ast::{NoMemory, Shared};
use std::alloc::Global;
use std::marker::Model;

/// Where the type of a side comes from.
enum Source {
    Written(Ty),
    /// A shared type, the numbers of its variables from 1 on, and the number that the first of them gets.
    Instance(SharedType, Shared<Names>, u32),
}

impl Drop for Source {
    fn drop(self) {
        match self {
            Self::Written(_) => {}
            Self::Instance(_, _, _) => {}
        }
    }
}

/// A side of an equation: a type that is written out, or a shared one with new numbers for its variables, which takes no room for the
/// type. Contracts see the type.
#[derive(Drop)]
pub struct Side {
    source: Source,
}

impl Model for Side {
    ghost use Rattle.lk_types.specs.contracts.ty.Ty as t;
    ghost use Rattle.lk_types.specs.declared.ty.Ty.{Ty as TheTy};

    ghost Value = { TheTy };

    ghost coded = { t.the_row.coded };

    ghost use Rattle.lk_types.specs.Sides.{source_type};

    ghost view = { λ side. source_type side.source };
}

impl Side {
    /// A type that is written out.
    pub fn of(ty: Ty) -> Side
        ensures { result ≡ ty }
    {
        Side {
            source: Source::Written(ty),
        }
    }

    /// The type with new numbers for its variables, where the one that comes first in `names` gets `first`.
    pub fn instance(ty: SharedType, names: Shared<Names>, first: u32) -> Side
        ensures { result ≡ renamed (place_in first names) ty }
    {
        Side {
            source: Source::Instance(ty, names, first),
        }
    }

    /// The type, if it is written out.
    pub fn written(&self) -> Option<&Ty>
        ensures { IfSome result (λ ty. ty.now ≡ self.now) }
    {
        match &self.source {
            Source::Written(ty) => Some(ty),
            Source::Instance(_, _, _) => None,
        }
    }

    /// The type by its levels.
    pub fn one_type(&self, alloc: Global) -> Result<OneType, NoMemory>
        ensures { IfOk result (λ one. one ≡ self.now) }
    {
        match &self.source {
            Source::Written(ty) => Types::of_tree(alloc, ty)?.single(alloc, 0),
            Source::Instance(ty, names, first) => ty.renamed(alloc, names.get(), *first),
        }
    }

    /// The type, written out. Whoever asks for it knows that it isn't too large.
    pub fn tree(&self, alloc: Global) -> Result<Ty, NoMemory>
        ensures { IfOk result (λ ty. ty ≡ self.now) }
    {
        self.one_type(alloc)?.tree(alloc)
    }
}
