//! The variables of a type, where they stand.

ghost use Rattle.lk_types.specs.Variables.{joined, tail_variable, variables_of, variables_of_field, variables_of_row};
ghost use Rattle.lk_types.specs.declared.ty.Variable.TheVariants as variable;
ghost use Rattle.std.specs.List.{cons_option};
ghost use Rattle.std.specs.Prelude.{◌≡◌, [], ◌++◌, OnOk, flat_map};

use crate::ty::{RowTail, Ty, TyField, TyRow, Variable};
use lk_ast::{List, NoMemory};

impl RowTail {
    /// The variable of the tail of a row of fields.
    pub fn of_row(self) -> Option<Variable>
        ensures { result ≡ tail_variable variable.Row self }
    {
        match self {
            RowTail::Closed => None,
            RowTail::Var(number) => Some(Variable::Row(number)),
        }
    }

    /// The variable of the tail of a row of effects.
    pub fn of_effects(self) -> Option<Variable>
        ensures { result ≡ tail_variable variable.Effects self }
    {
        match self {
            RowTail::Closed => None,
            RowTail::Var(number) => Some(Variable::Effects(number)),
        }
    }
}

/// Adds the variables of a type, each where it stands in the text.
#[cycle(variables)]
#[tactic(auto, using(crate::proofs::Lists::behind_both, crate::proofs::Unfold::variables_list, crate::proofs::Unfold::variables_fields, crate::proofs::Unfold::variables_tags, crate::proofs::Unfold::variables_function, crate::proofs::Unfold::variables_variable))]
pub fn push_variables(found: &mut List<Variable>, ty: &Ty) -> Result<(), NoMemory>
    ensures { OnOk result (found.new ≡ found.old ++ variables_of ty.now) }
{
    match ty {
        Ty::Int | Ty::Bool | Ty::Text => Ok(()),
        Ty::List(item) => push_variables(found, item.get()),
        Ty::Fields(row) | Ty::Tags(row) => push_row(found, row),
        Ty::Fun(params, effects, answer) => {
            push_all(found, params.as_slice())?;
            push_tail(found, effects.tail.of_effects())?;
            push_variables(found, answer.get())
        }
        Ty::Var(number) => found.push(Variable::Plain(*number)),
    }
}

#[cycle(variables)]
fn push_all(found: &mut List<Variable>, types: &[Ty]) -> Result<(), NoMemory>
    ensures { OnOk result (found.new ≡ found.old ++ flat_map variables_of types.now) }
{
    for ty in types {
        push_variables(found, ty)?;
    }
    Ok(())
}

#[cycle(variables)]
#[tactic(auto, using(crate::proofs::Lists::behind_both, crate::proofs::Unfold::variables_row))]
fn push_row(found: &mut List<Variable>, row: &TyRow) -> Result<(), NoMemory>
    ensures { OnOk result (found.new ≡ found.old ++ variables_of_row row.now) }
{
    push_fields(found, row.fields.as_slice())?;
    push_tail(found, row.tail.of_row())
}

#[cycle(variables)]
fn push_fields(found: &mut List<Variable>, fields: &[TyField]) -> Result<(), NoMemory>
    ensures { OnOk result (found.new ≡ found.old ++ flat_map variables_of_field fields.now) }
{
    for field in fields {
        push_field(found, field)?;
    }
    Ok(())
}

#[cycle(variables)]
#[tactic(auto, using(crate::proofs::Unfold::variables_field))]
fn push_field(found: &mut List<Variable>, field: &TyField) -> Result<(), NoMemory>
    ensures { OnOk result (found.new ≡ found.old ++ variables_of_field field.now) }
{
    push_variables(found, &field.ty)
}

/// The variable of a tail, if it has one.
fn push_tail(found: &mut List<Variable>, tail: Option<Variable>) -> Result<(), NoMemory>
    ensures { OnOk result (found.new ≡ found.old ++ cons_option tail []) }
{
    match tail {
        None => Ok(()),
        Some(variable) => found.push(variable),
    }
}
