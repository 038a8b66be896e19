//! What stands for the variables of a type.

ghost use Rattle.lk_ground_types.specs.Bound.{AreWithin, IsRowWithin, grounding_in, is_listed, with_effects, with_plain, with_row};
ghost use Rattle.lk_ground_types.specs.Grounds.{at, row_in};
ghost use Rattle.lk_ground_types.specs.Least.{AreSameAt, IsLeastBut, least};
ghost use Rattle.lk_types.specs.Grounding.{Grounding, under};
ghost use Rattle.lk_types.specs.Variables.{variables_of};
ghost use Rattle.lk_types.specs.declared.ground.Ground.{Ground as TheGround};
ghost use Rattle.std.specs.Prelude.{◌≡◌, ◌<◌, ℕ, IfOk, List as TheList, OnOk, Some, length};

use crate::grounds::Grounds;
use crate::matching::match_type;
use crate::part_row::PartRow;
use lk_ast::{List, NoMemory};
use lk_types::{Effect, Ty};
use std::alloc::Global;
use std::collections::BTreeMap;

/// What stands for variables, by their numbers, and the least for all others: `()`, no fields or no effects. Types are named by
/// their numbers in a table.
#[derive(Drop)]
pub struct Bindings {
    pub plain: BTreeMap<u32, u32>,
    pub rows: BTreeMap<u32, PartRow>,
    pub effects: BTreeMap<u32, List<Effect>>,
}

impl Bindings {
    /// The least for all variables.
    pub fn none(alloc: Global) -> Bindings
        ensures least { (ts : TheList TheGround) → grounding_in ts result ≡ least }
        ensures within { (k : ℕ) → AreWithin k result }
    {
        Bindings {
            plain: BTreeMap::new(alloc),
            rows: BTreeMap::new(alloc),
            effects: BTreeMap::new(alloc),
        }
    }

    /// What stands for the variables of a type where it becomes the ground type of that number, and the least for all others.
    /// `NoMemory` where memory runs out.
    pub fn of(
        alloc: Global,
        grounds: &Grounds,
        body: &Ty,
        number: u32,
    ) -> Result<Bindings, NoMemory>
        requires { number < length grounds.now }
        ensures least { IfOk result (λ bindings. IsLeastBut (variables_of body.now) (grounding_in grounds.now bindings)) }
        ensures same { IfOk result (λ bindings. (σ : Grounding) → under σ body.now ≡ Some (at grounds.now number) → AreSameAt (variables_of body.now) (grounding_in grounds.now bindings) σ) }
        ensures within { IfOk result (AreWithin (length grounds.now)) }
    {
        let mut bindings = Bindings::none(alloc);
        match_type(alloc, &mut bindings, grounds, body, number)?;
        Ok(bindings)
    }

    /// This type for the variable of a type.
    pub(crate) fn bind_plain(&mut self, variable: u32, number: u32) -> Result<(), NoMemory>
        ensures bound { OnOk result ((ts : TheList TheGround) → grounding_in ts self.new ≡ with_plain variable (at ts number) (grounding_in ts self.old)) }
        ensures within { OnOk result ((k : ℕ) → number < k → AreWithin k self.old → AreWithin k self.new) }
    {
        self.plain.insert(variable, number)?;
        Ok(())
    }

    /// These fields for the variable of a row.
    pub(crate) fn bind_row(&mut self, variable: u32, row: PartRow) -> Result<(), NoMemory>
        ensures bound { OnOk result ((ts : TheList TheGround) → grounding_in ts self.new ≡ with_row variable (row_in ts row) (grounding_in ts self.old)) }
        ensures within { OnOk result ((k : ℕ) → IsRowWithin k row → AreWithin k self.old → AreWithin k self.new) }
    {
        drop(self.rows.insert(variable, row)?);
        Ok(())
    }

    /// These effects for the variable of effects.
    pub(crate) fn bind_effects(
        &mut self,
        variable: u32,
        labels: List<Effect>,
    ) -> Result<(), NoMemory>
        ensures bound { OnOk result ((ts : TheList TheGround) → grounding_in ts self.new ≡ with_effects variable (is_listed labels) (grounding_in ts self.old)) }
        ensures within { OnOk result ((k : ℕ) → AreWithin k self.old → AreWithin k self.new) }
    {
        drop(self.effects.insert(variable, labels)?);
        Ok(())
    }
}
