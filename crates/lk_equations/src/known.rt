//! Functions of earlier groups.

ghost use Rattle.lk_equations.specs.Numbered.{HasNumbers};
ghost use Rattle.std.specs.Prelude.{◌≡◌, IfOk};

use crate::renamed::scheme_names;
use lk_ast::{NoMemory, Shared};
use lk_types::{Names, Scheme};
use std::alloc::Global;
use std::marker::Model;

/// The scheme of a function of an earlier group, with the numbers of its variables, which all its instances share. Contracts see the
/// scheme.
#[derive(Drop)]
pub struct Known {
    scheme: Scheme,
    names: Shared<Names>,
}

impl Model for Known {
    ghost use Rattle.lk_equations.specs.Numbered.{HasNumbers};
    ghost use Rattle.lk_types.specs.contracts.scheme.Scheme as s;
    ghost use Rattle.lk_types.specs.declared.scheme.Scheme.{Scheme as TheScheme};

    ghost Value = { TheScheme };

    ghost coded = { s.the_row.coded };

    ghost view = { λ known. known.scheme };

    ghost invariant = { λ known. HasNumbers known.names known.scheme };
}

impl Known {
    /// A function with this scheme.
    pub fn of(alloc: Global, scheme: Scheme) -> Result<Known, NoMemory>
        ensures { IfOk result (λ known. known ≡ scheme) }
    {
        let names = scheme_names(alloc, &scheme)?;
        let shared = Shared::new(alloc, names)?;
        Ok(Known {
            scheme,
            names: shared,
        })
    }

    /// The scheme, and the numbers of its variables.
    pub fn parts(&self) -> (&Scheme, &Shared<Names>)
        ensures scheme { result.0.now ≡ self.now }
        ensures numbers { HasNumbers result.1.now self.now }
    {
        (&self.scheme, &self.names)
    }
}
