//! Programs as tables of nodes.

ghost use Rattle.std.specs.Prelude.{◌≡◌, ◌<◌, ◌↔◌, IsSome, length};
ghost use Rattle.lk_ir.specs.Tables.{HasBodies, place_of};

use crate::nodes::{Conts, Forms};
use lk_ast::{List, Loc, Shared};
use std::marker::Model;

/// A ground program as a table of nodes, without continuations. Contracts see the table.
#[derive(Drop)]
pub struct Ir {
    forms: Shared<Forms>,
}

impl Model for Ir {
    ghost use Rattle.lk_ir.specs.Tables.{HasBodies};
    ghost use Rattle.lk_ir.specs.declared.nodes.Forms.{Forms as TheForms};
    ghost use Rattle.lk_types.specs.contracts.ground.Ground as g;
    ghost use Rattle.std.specs.Coded.{codes};

    ghost Value = { TheForms };

    ghost coded = { Prim.hlevel (codes, g.the_row.coded) };

    ghost view = { λ ir. ir.forms };

    ghost invariant = { λ ir. HasBodies ir.forms };
}

impl Ir {
    /// This table, whose instances can be counted and have bodies.
    pub fn new(forms: Shared<Forms>) -> Ir
        requires { HasBodies forms }
        ensures { result ≡ forms }
    {
        Ir { forms }
    }

    /// The table.
    pub fn forms(&self) -> &Shared<Forms>
        ensures { result.now ≡ self.now }
    {
        &self.forms
    }

    /// How many instances there are.
    pub fn fun_count(&self) -> u32
        ensures { result ≡ length self.now.wholes }
    {
        self.forms.get().wholes.len() as u32
    }

    /// Where the body of an instance runs; none exactly where there is no instance of this number.
    #[tactic(auto, using(crate::proofs::Places::place_there))]
    pub fn fun_place(&self, number: u32) -> Option<Loc>
        ensures place { result ≡ place_of self.now number }
        ensures there { IsSome result ↔ number < length self.now.wholes }
    {
        place_of(self.forms.get(), number)
    }
}

/// Where the body of an instance runs, if it has one.
fn place_of(forms: &Forms, number: u32) -> Option<Loc>
    ensures { result ≡ place_of forms.now number }
{
    let label = forms.wholes.get(number as usize)?;
    let whole = forms.labels.get(*label as usize)?;
    match &whole.body {
        Some(body) => Some(body.place),
        None => None,
    }
}

/// The same with continuations: for each node those of its positions, and for each label the numbers of the types of what a lambda
/// captures.
#[derive(Drop)]
pub struct CpsProgram {
    pub forms: Shared<Forms>,
    pub conts: Shared<List<Conts>>,
    pub envs: Shared<List<List<u32>>>,
}
