//! The parts of a query or a change, and what they stand for.

ghost use Rattle.lk_norm.specs.Capped.{capped};
ghost use Rattle.lk_norm.specs.Captured.{names_from};
ghost use Rattle.lk_norm.specs.Normal.{norm_level, norms};
ghost use Rattle.lk_norm.specs.Scopes.{names_in, of_captured, stands, width};
ghost use Rattle.lk_query.specs.Branches.{counts};
ghost use Rattle.lk_query.specs.Captured.{bindings_from};
ghost use Rattle.lk_query.specs.declared.part.Part.{Part};
ghost use Rattle.std.specs.Option.{option_copied};
ghost use Rattle.std.specs.Prelude.{◌≡◌, IfOk, List, slice_get};

use crate::counting::{branch_counts, own};
use crate::names::{Meant, Scope};
use lk_ast::{List, NoMemory};
use lk_query::{Captured, OrderedParts, Part};
use std::alloc::Global;
use std::marker::Model;

/// Parts, with how many branches each has. Contracts see the parts.
#[derive(Drop)]
pub struct Over<'a> {
    pub alloc: Global,
    parts: &'a OrderedParts,
    branches: List<u32>,
}

impl<'a> Model for Over<'a> {
    ghost use Rattle.lk_norm.specs.Capped.{capped, count_at};
    ghost use Rattle.lk_query.specs.Branches.{counts};
    ghost use Rattle.lk_query.specs.declared.part.Part.{Part};
    ghost use Rattle.std.specs.Prelude.{◌≡◌, ℕ, List};

    ghost Value = { List Part };

    ghost view = { λ over. over.parts.now };

    ghost invariant = { λ over. (n : ℕ) → count_at over.branches n ≡ capped (counts over.parts.now n) };
}

impl<'a> Over<'a> {
    /// These parts.
    pub fn new(alloc: Global, parts: &'a OrderedParts) -> Result<Over<'a>, NoMemory>
        ensures { IfOk result (λ over. over ≡ parts.now) }
    {
        let branches = branch_counts(alloc, parts.as_slice())?;
        Ok(Over {
            alloc,
            parts,
            branches,
        })
    }

    /// How many branches a part has, and 1,025 where there are more.
    pub fn count(&self, at: u32) -> u32
        ensures { result ≡ capped (counts self.now at) }
    {
        own(self.branches.as_slice(), at)
    }

    /// The part of that number.
    pub fn part(&self, at: u32) -> Result<&'a Part, NoMemory>
        ensures { IfOk result (λ part. norms self.now at ≡ norm_level (norms self.now) at part.now) }
    {
        match item(self.parts.as_slice(), at) {
            Some(part) => Ok(part),
            None => Err(NoMemory),
        }
    }

    /// What a number stands for in a scope.
    #[tactic(auto, unfolding(crate::specs::Scopes::names_in))]
    pub fn meant<'s>(&self, scope: &'s Scope<'s>, n: u32) -> Result<Meant<'s>, NoMemory>
        ensures { IfOk result (λ meant. names_in self.now scope.now n ≡ stands self.now meant) }
    {
        match scope {
            Scope::Captured(first, captured) => self.captured(*first, captured, n),
            Scope::Row(x, item, count, inner, outer) => {
                if n == *x {
                    Ok(Meant::Row(*item, *count, inner))
                } else {
                    self.meant(outer, n)
                }
            }
            Scope::Columns(x, generator, labels, outer) => {
                if n == *x {
                    Ok(Meant::Columns(*generator, labels))
                } else {
                    self.meant(outer, n)
                }
            }
        }
    }

    /// What a number stands for among captured values, which are bound to the numbers from the first one on.
    #[tactic(auto, using(crate::proofs::Making::captured_step))]
    fn captured<'s>(
        &self,
        first: u32,
        captured: &'s [Captured],
        n: u32,
    ) -> Result<Meant<'s>, NoMemory>
        ensures { IfOk result (λ meant. names_from 1 (bindings_from first captured.now) n ≡ stands self.now meant) }
    {
        let mut number = first;
        let mut next = 1u32;
        for one in captured {
            if n == number {
                return Ok(parameters(one, next));
            }
            number = number.checked_add(1).ok_or(NoMemory)?;
            next = next.checked_add(width(one)?).ok_or(NoMemory)?;
        }
        Ok(Meant::Nothing)
    }
}

/// The part of that number, if there is one.
fn item(parts: &[Part], at: u32) -> Option<&Part>
    ensures { option_copied result ≡ slice_get parts.now at }
{
    parts.get(at as usize)
}

/// How many parameters a captured value is.
fn width(captured: &Captured) -> Result<u32, NoMemory>
    ensures { IfOk result (λ n. n ≡ width captured.now) }
{
    match captured {
        Captured::Base(_) => Ok(1),
        Captured::Row(columns) => Ok(u32::try_from(columns.len()).map_err(|_| NoMemory)?),
    }
}

/// A captured value as parameters from this one on.
fn parameters<'s>(captured: &'s Captured, next: u32) -> Meant<'s>
    ensures { (parts : List Part) → stands parts result ≡ of_captured next captured.now }
{
    match captured {
        Captured::Base(_) => Meant::Param(next),
        Captured::Row(columns) => Meant::Params(next, columns.as_slice()),
    }
}
