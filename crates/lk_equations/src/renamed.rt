//! The numbers of the variables of schemes.

ghost use Rattle.std.specs.Prelude.{◌≡◌, ◌+◌, ◌++◌, IfOk, OnOk, length, map};
ghost use Rattle.lk_types.specs.Names.{count, number};
ghost use Rattle.lk_types.specs.Renamed.{scheme_variables};
ghost use Rattle.lk_types.specs.TypeText.{number_in};
ghost use Rattle.lk_types.specs.Variables.{firsts};
ghost use Rattle.lk_types.specs.declared.ty.Variable.{Variable as TheVariable};
ghost use Rattle.lk_types.specs.declared.ty.Variable.TheVariants as variable;

use lk_ast::{List, NoMemory};
use lk_types::{Lack, Names, Scheme, Variable, push_variables};
use std::alloc::Global;

/// A number moved up, or a refusal where there is none.
pub fn moved(number: u32, by: u32) -> Result<u32, NoMemory>
    ensures { IfOk result (λ made. made ≡ by + number) }
{
    by.checked_add(number).ok_or(NoMemory)
}

/// Adds the row variables that lack labels.
fn push_lacking(found: &mut List<Variable>, lacks: &[Lack]) -> Result<(), NoMemory>
    ensures { OnOk result (found.new ≡ found.old ++ map (λ lack. variable.Row lack.var) lacks.now) }
{
    for lack in lacks {
        found.push(Variable::Row(lack.var))?;
    }
    Ok(())
}

/// The numbers of the variables of a scheme, from 1 on, in the order in which they come first.
pub fn scheme_names(alloc: Global, scheme: &Scheme) -> Result<Names, NoMemory>
    ensures numbers { IfOk result (λ names. (x : TheVariable) → number names x ≡ number_in (firsts (scheme_variables scheme.now)) x) }
    ensures count { IfOk result (λ names. count names ≡ length (firsts (scheme_variables scheme.now))) }
{
    let mut found = List::new(alloc);
    let body = scheme.body.tree(alloc)?;
    push_variables(&mut found, &body)?;
    push_lacking(&mut found, scheme.lacks.as_slice())?;
    Names::of(alloc, found.as_slice())
}
