//! The schemes of functions, made of their types.

ghost use Rattle.lk_infer.specs.Generalised.{AreGeneralised};
ghost use Rattle.lk_infer.specs.LacksInOrder.{AreInOrder, has_row, lacks_for, row_number, scheme_for};
ghost use Rattle.lk_types.specs.Each.{Each};
ghost use Rattle.std.specs.BTreeSet.{IsFromIterResult, contains};
ghost use Rattle.std.specs.List.{filter_map};
ghost use Rattle.std.specs.Ordering.{nat_cmp};
ghost use Rattle.std.specs.Prelude.{◌≡◌, ◌≤◌, ℕ, IfOk, length, map, take};

use crate::lacks::{Shown, all_shown, insert_shown};
use lk_ast::{List, NoMemory, Shared};
use lk_types::{Lack, Scheme, SharedType, Ty, Types, Variable, push_variables};
use std::alloc::Global;
use std::collections::BTreeSet;

/// The schemes of the first of these types. The variables of rows lack what any of the types shows.
pub fn schemes_of(alloc: Global, types: &Types, count: usize) -> Result<List<Scheme>, NoMemory>
    requires { count ≤ length types.now }
    ensures schemes { IfOk result (λ schemes. AreGeneralised types.now (take count types.now) schemes) }
    ensures ordered { IfOk result (λ schemes. Each (λ scheme. AreInOrder scheme.lacks) schemes) }
{
    let all = all_shown(alloc, types)?;
    schemes_for(alloc, types, count, &all)
}

/// The schemes of the first of these types, where their variables of rows lack what is shown.
fn schemes_for(
    alloc: Global,
    types: &Types,
    count: usize,
    all: &Shown,
) -> Result<List<Scheme>, NoMemory>
    requires { count ≤ length types.now }
    ensures { IfOk result (λ schemes. schemes ≡ map (scheme_for all.now) (take count types.now)) }
{
    let bodies = Shared::new(alloc, types.part(alloc, 0, count)?)?;
    schemes_with(alloc, &bodies, all)
}

/// The schemes of these types, where their variables of rows lack what is shown.
fn schemes_with(
    alloc: Global,
    bodies: &Shared<Types>,
    all: &Shown,
) -> Result<List<Scheme>, NoMemory>
    ensures { IfOk result (λ schemes. schemes ≡ map (scheme_for all.now) bodies.now) }
{
    let mut schemes = List::new(alloc);
    for number in 0..bodies.get().len() {
        let body = SharedType::of(bodies.share()?, number);
        schemes.push(scheme_of(alloc, body, all)?)?;
    }
    Ok(schemes)
}

/// The scheme of a type, where its variables of rows lack what is shown, but for what it shows itself.
fn scheme_of(alloc: Global, body: SharedType, all: &Shown) -> Result<Scheme, NoMemory>
    ensures { IfOk result (λ scheme. scheme ≡ scheme_for all.now body) }
{
    let tree = body.tree(alloc)?;
    let lacks = lacks_of(alloc, &tree, all)?;
    Ok(Scheme { body, lacks })
}

/// What the variables of rows of a type lack because of what is shown, but for what it shows itself.
fn lacks_of(alloc: Global, body: &Ty, all: &Shown) -> Result<List<Lack>, NoMemory>
    ensures { IfOk result (λ lacks. lacks ≡ lacks_for all.now body.now) }
{
    let rows = rows_of(alloc, body)?;
    let mut own = Shown::new(alloc);
    insert_shown(alloc, &mut own, body)?;
    all.without(alloc, &rows, &own)
}

/// The numbers of the variables of rows of a type.
fn rows_of(alloc: Global, ty: &Ty) -> Result<BTreeSet<u32>, NoMemory>
    ensures { IfOk result (λ rows. (n : ℕ) → contains nat_cmp rows n ≡ has_row n ty.now) }
{
    let mut variables = List::new(alloc);
    push_variables(&mut variables, ty)?;
    numbers_of(alloc, variables.as_slice())
}

/// The numbers of those variables that are variables of rows.
fn numbers_of(alloc: Global, variables: &[Variable]) -> Result<BTreeSet<u32>, NoMemory>
    ensures { IfOk result (IsFromIterResult nat_cmp (filter_map row_number variables.now)) }
{
    Ok(
        variables
            .iter()
            .copied()
            .filter_map(number_of_row)
            .collect(alloc)?,
    )
}

/// The number of a variable of a row.
fn number_of_row(variable: Variable) -> Option<u32>
    ensures { result ≡ row_number variable }
{
    match variable {
        Variable::Row(number) => Some(number),
        Variable::Plain(_) | Variable::Effects(_) => None,
    }
}
