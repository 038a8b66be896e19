//! The numbers of variables, from 1 on.

use crate::ty::{RowTail, Variable};
use lk_ast::NoMemory;
use std::alloc::Global;
use std::collections::BTreeMap;

/// The numbers of some variables, from 1 on.
#[derive(Drop)]
pub struct Names {
    numbers: BTreeMap<Variable, usize>,
}

impl Names {
    ghost use Rattle.lk_types.specs.Names.{count, number, place_in};
    ghost use Rattle.lk_types.specs.Renamed.{tail_renamed};
    ghost use Rattle.lk_types.specs.TypeText.{number_in};
    ghost use Rattle.lk_types.specs.Variables.{firsts};
    ghost use Rattle.lk_types.specs.declared.ty.Variable.TheVariants as variable;
    ghost use Rattle.lk_types.specs.declared.ty.Variable.{Variable as TheVariable};
    ghost use Rattle.std.specs.Prelude.{◌≡◌, IfOk, length};

    /// The numbers of these variables, in the order in which they come first.
    pub fn of(alloc: Global, variables: &[Variable]) -> Result<Names, NoMemory>
        ensures numbers { IfOk result (λ names. (x : TheVariable) → number names x ≡ number_in (firsts variables.now) x) }
        ensures count { IfOk result (λ names. count names ≡ length (firsts variables.now)) }
    {
        let mut names = Names {
            numbers: BTreeMap::new(alloc),
        };
        for variable in variables {
            let number = names.number(*variable);
            names.numbers.insert(*variable, number)?;
        }
        Ok(names)
    }

    /// How many variables have a number.
    pub fn count(&self) -> usize
        ensures { result ≡ count self.now }
    {
        self.numbers.len()
    }

    /// The new number of a variable, where the one that comes first gets `first`.
    pub fn place(&self, first: u32, variable: Variable) -> Result<u32, NoMemory>
        ensures { IfOk result (λ made. made ≡ place_in first self.now variable) }
    {
        let before = self.number(variable).saturating_sub(1);
        let before = u32::try_from(before).map_err(|_| NoMemory)?;
        before.checked_add(first).ok_or(NoMemory)
    }

    /// The end of a row of fields with the new number of its variable.
    pub fn row_end(&self, first: u32, tail: RowTail) -> Result<RowTail, NoMemory>
        ensures { IfOk result (λ made. made ≡ tail_renamed (place_in first self.now) variable.Row tail) }
    {
        match tail {
            RowTail::Closed => Ok(RowTail::Closed),
            RowTail::Var(number) => Ok(RowTail::Var(self.place(first, Variable::Row(number))?)),
        }
    }

    /// The end of a row of effects with the new number of its variable.
    pub fn effects_end(&self, first: u32, tail: RowTail) -> Result<RowTail, NoMemory>
        ensures { IfOk result (λ made. made ≡ tail_renamed (place_in first self.now) variable.Effects tail) }
    {
        match tail {
            RowTail::Closed => Ok(RowTail::Closed),
            RowTail::Var(number) => Ok(RowTail::Var(self.place(first, Variable::Effects(number))?)),
        }
    }

    /// The number of a variable, or the next one where it has none.
    pub fn number(&self, variable: Variable) -> usize
        ensures { result ≡ number self.now variable }
    {
        match self.numbers.get(&variable) {
            Some(number) => *number,
            None => self.numbers.len() + 1,
        }
    }
}
