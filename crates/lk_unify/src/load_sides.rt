//! Sides of equations as nodes.

ghost use Rattle.std.specs.Prelude.{IfOk};
ghost use Rattle.lk_arena.specs.Kinds.{OfTypes};
ghost use Rattle.lk_unify.specs.Loading.{type_meaning, IsLoader, Loaded, LoadedEquation};

use crate::load::load_type;
use crate::load_levels::load_levels;
use crate::loader::Loader;
use lk_arena::Pair;
use lk_ast::NoMemory;
use lk_types::{Equation, Side};
use std::alloc::Global;

/// Makes nodes for a side of an equation: of a type that is written out as it stands, of another one a node for each of its levels.
fn load_side(alloc: Global, loader: &mut Loader, side: &Side) -> Result<Option<usize>, NoMemory>
    requires { IsLoader loader.old }
    ensures { IfOk result (λ answer. Loaded loader.old loader.new OfTypes (type_meaning side.now) answer) }
{
    if let Some(ty) = side.written() {
        return load_type(alloc, loader, ty);
    }
    let one = side.one_type(alloc)?;
    let table = one.parts();
    load_levels(alloc, loader, table.0, table.1)
}

/// Makes nodes for the sides of an equation. The answer is the two nodes, or none where a row in a side has a label twice.
pub fn load_equation(
    alloc: Global,
    loader: &mut Loader,
    equation: &Equation,
) -> Result<Option<Pair>, NoMemory>
    requires { IsLoader loader.old }
    ensures { IfOk result (λ answer. LoadedEquation loader.old loader.new equation.now answer) }
{
    let Some(left) = load_side(alloc, loader, &equation.left)? else {
        return Ok(None);
    };
    let Some(right) = load_side(alloc, loader, &equation.right)? else {
        return Ok(None);
    };
    Ok(Some(Pair { left, right }))
}
