//! One type by levels.

ghost use Rattle.lk_types.specs.Levels.{at, built, AreBelow};
ghost use Rattle.lk_types.specs.Names.{place_in};
ghost use Rattle.lk_types.specs.OneTypes.{level_renamed, IsThin};
ghost use Rattle.lk_types.specs.Renamed.{renamed};
ghost use Rattle.std.specs.Prelude.{◌≡◌, ◌<◌, IfOk, length, map};

use crate::levels::{Level, tree_at};
use crate::moves::{Numbering, kept_levels};
use crate::names::Names;
use crate::places::Places;
use crate::ty::Ty;
use lk_ast::NoMemory;
use std::alloc::Global;
use std::marker::Model;

/// One type by levels, each of which stands in it. Contracts see the type.
#[derive(Drop)]
pub struct OneType {
    levels: Vec<Level>,
    root: u32,
}

impl Model for OneType {
    ghost use Rattle.lk_types.specs.Levels.{at, built};
    ghost use Rattle.lk_types.specs.OneTypes.{IsThin};
    ghost use Rattle.lk_types.specs.contracts.ty.Ty as t;
    ghost use Rattle.lk_types.specs.declared.ty.Ty.{Ty as TheTy};

    ghost Value = { TheTy };

    ghost coded = { t.the_row.coded };

    ghost view = { λ one. at (built one.levels.items) one.root };

    ghost invariant = { λ one. IsThin one.levels.items one.root };
}

impl OneType {
    /// The type at that place, of all these levels with those that stand in it alone.
    pub fn of(alloc: Global, levels: &[Level], root: u32) -> Result<OneType, NoMemory>
        requires { AreBelow levels.now × (root < length levels.now) }
        ensures { IfOk result (λ one. one ≡ at (built levels.now) root) }
    {
        let roots = [root];
        let places = Places::below(alloc, levels, &roots)?;
        let kept = kept_levels(alloc, levels, &places)?;
        let number = Numbering::Among(&places).of(root)?;
        Ok(OneType {
            levels: kept,
            root: number,
        })
    }

    /// The levels, and the place of the type among them.
    pub fn parts(&self) -> (&[Level], u32)
        ensures thin { IsThin result.0.now result.1 }
        ensures is { at (built result.0.now) result.1 ≡ self.now }
    {
        (self.levels.as_slice(), self.root)
    }

    /// The type, written out.
    pub fn tree(&self, alloc: Global) -> Result<Ty, NoMemory>
        ensures { IfOk result (λ ty. ty ≡ self.now) }
    {
        tree_at(alloc, self.levels.as_slice(), self.root as usize)
    }

    /// The type with new numbers for its variables, where the one that comes first in `names` gets `first`.
    pub fn renamed(self, names: &Names, first: u32) -> Result<OneType, NoMemory>
        ensures { IfOk result (λ made. made ≡ renamed (place_in first names.now) self) }
    {
        let OneType { levels, root } = self;
        let made = renamed_levels(levels, names, first)?;
        Ok(OneType { levels: made, root })
    }
}

/// The levels with new numbers for their variables.
fn renamed_levels(levels: Vec<Level>, names: &Names, first: u32) -> Result<Vec<Level>, NoMemory>
    ensures { IfOk result (λ all. all.items ≡ map (level_renamed (place_in first names.now)) levels.items) }
{
    let mut all = Vec::new(*levels.allocator());
    for level in levels {
        all.push(level.renamed(names, first)?)?;
    }
    Ok(all)
}
