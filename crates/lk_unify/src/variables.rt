//! The variables of equations.

ghost use Rattle.std.specs.BTreeSet.{IsFromIterResult};
ghost use Rattle.std.specs.List.{cons_option};
ghost use Rattle.std.specs.Prelude.{◌≡◌, [], ◌++◌, IfOk, OnOk, flat_map};
ghost use Rattle.lk_types.specs.Each.{Each, OneOf};
ghost use Rattle.lk_types.specs.Variables.{equation_variables, variables_of};
ghost use Rattle.lk_unify.specs.Images.{variable_order};
ghost use Rattle.lk_unify.specs.LevelLoading.{level_variables};

use lk_ast::{List, NoMemory};
use lk_types::{Equation, Level, Side, Variable, push_variables};
use std::alloc::Global;
use std::collections::BTreeSet;

/// Adds the variables of a side.
fn push_side(alloc: Global, variables: &mut List<Variable>, side: &Side) -> Result<(), NoMemory>
    ensures { OnOk result (variables.new ≡ variables.old ++ variables_of side.now) }
{
    if let Some(ty) = side.written() {
        return push_variables(variables, ty);
    }
    let ty = side.tree(alloc)?;
    push_variables(variables, &ty)
}

/// Adds a variable, if there is one.
fn push_variable(variables: &mut List<Variable>, variable: Option<Variable>) -> Result<(), NoMemory>
    ensures { OnOk result (variables.new ≡ variables.old ++ cons_option variable []) }
{
    match variable {
        None => Ok(()),
        Some(variable) => variables.push(variable),
    }
}

/// Adds the variables of a level itself.
fn push_level(variables: &mut List<Variable>, level: &Level) -> Result<(), NoMemory>
    ensures { OnOk result (variables.new ≡ variables.old ++ level_variables level.now) }
{
    match level {
        Level::Int | Level::Bool | Level::Text | Level::List(_) => Ok(()),
        Level::Fields(row) | Level::Tags(row) => push_variable(variables, row.tail.of_row()),
        Level::Fun(_, effects, _) => push_variable(variables, effects.tail.of_effects()),
        Level::Var(number) => variables.push(Variable::Plain(*number)),
    }
}

/// Adds the variables of levels.
fn push_levels(variables: &mut List<Variable>, levels: &[Level]) -> Result<(), NoMemory>
    ensures { OnOk result (variables.new ≡ variables.old ++ flat_map level_variables levels.now) }
{
    for level in levels {
        push_level(variables, level)?;
    }
    Ok(())
}

/// Variables among which are those of a side: of a type that is written out where they stand, of another one where they stand in its
/// levels.
pub fn side_variables(alloc: Global, side: &Side) -> Result<List<Variable>, NoMemory>
    ensures { IfOk result (λ variables. Each (λ x. OneOf (λ y. y ≡ x) variables) (variables_of side.now)) }
{
    let mut variables = List::new(alloc);
    if let Some(ty) = side.written() {
        push_variables(&mut variables, ty)?;
        return Ok(variables);
    }
    let one = side.one_type(alloc)?;
    let table = one.parts();
    push_levels(&mut variables, table.0)?;
    Ok(variables)
}

/// The variables of all equations, each where it stands in the text.
fn variables_in(alloc: Global, equations: &[Equation]) -> Result<List<Variable>, NoMemory>
    ensures { IfOk result (λ variables. variables ≡ equation_variables equations.now) }
{
    let mut variables = List::new(alloc);
    for equation in equations {
        push_side(alloc, &mut variables, &equation.left)?;
        push_side(alloc, &mut variables, &equation.right)?;
    }
    Ok(variables)
}

/// The set of these variables.
fn set_of(alloc: Global, variables: &[Variable]) -> Result<BTreeSet<Variable>, NoMemory>
    ensures { IfOk result (IsFromIterResult variable_order variables.now) }
{
    Ok(variables.iter().copied().collect(alloc)?)
}

/// The variables of a set in its order.
fn items_of(alloc: Global, variables: &BTreeSet<Variable>) -> Result<List<Variable>, NoMemory>
    ensures { IfOk result (λ items. items ≡ variables.now.keys) }
{
    let items: Vec<Variable> = variables.iter().copied().collect(alloc)?;
    Ok(List::from_vec(items))
}

/// The variables of all equations, each once.
pub fn distinct_variables(alloc: Global, equations: &[Equation]) -> Result<List<Variable>, NoMemory>
    ensures all { IfOk result (λ variables. Each (λ x. OneOf (λ y. y ≡ x) variables) (equation_variables equations.now)) }
    ensures only { IfOk result (λ variables. Each (λ x. OneOf (λ y. y ≡ x) (equation_variables equations.now)) variables) }
{
    let variables = variables_in(alloc, equations)?;
    let set = set_of(alloc, variables.as_slice())?;
    items_of(alloc, &set)
}
