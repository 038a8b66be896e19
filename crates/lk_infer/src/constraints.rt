//! The constraints that a walk gives.

ghost use Rattle.lk_infer.specs.Refusals.{constraint_of, constraints_of};
ghost use Rattle.lk_infer.specs.Walked.{asked, places_of};
ghost use Rattle.std.specs.Prelude.{◌≡◌, ◌++◌, IfOk, OnOk, map};

use lk_ast::{List, NoMemory, Span};
use lk_equations::copy_type;
use lk_types::{Equation, Side, Ty};
use lk_typing::{Said, Step};
use lk_unify::{Constraint, Sizing};
use std::alloc::Global;

/// A type that is only read back.
fn asked(alloc: Global, ty: Ty) -> Result<Constraint, NoMemory>
    ensures { IfOk result (λ constraint. constraint ≡ asked ty) }
{
    let left = copy_type(alloc, &ty)?;
    Ok(Constraint {
        equation: Equation {
            left: Side::of(left),
            right: Side::of(ty),
        },
        sizing: Sizing::Never,
    })
}

/// Adds types that are only read back.
pub fn push_asked(
    alloc: Global,
    constraints: &mut List<Constraint>,
    types: List<Ty>,
) -> Result<(), NoMemory>
    ensures { OnOk result (constraints.new ≡ constraints.old ++ map asked types) }
{
    for ty in types.into_vec() {
        constraints.push(asked(alloc, ty)?)?;
    }
    Ok(())
}

/// What a step says, as a constraint.
fn constraint_of(said: Said) -> Constraint
    ensures { result ≡ constraint_of (record { at = record { start = 0; end = 0 }; said = said }) }
{
    match said {
        Said::Same(equation) => Constraint {
            equation,
            sizing: Sizing::Always,
        },
        Said::Typed(number, ty) => Constraint {
            equation: Equation {
                left: Side::of(Ty::Var(number)),
                right: ty,
            },
            sizing: Sizing::Late,
        },
    }
}

/// Adds what the steps say. The answer is the places at which they say it.
pub fn push_steps(
    alloc: Global,
    constraints: &mut List<Constraint>,
    steps: List<Step>,
) -> Result<List<Span>, NoMemory>
    ensures said { OnOk result (constraints.new ≡ constraints.old ++ constraints_of steps) }
    ensures places { IfOk result (λ places. places ≡ places_of steps) }
{
    let mut places = List::new(alloc);
    for step in steps.into_vec() {
        let Step { at, said } = step;
        places.push(at)?;
        constraints.push(constraint_of(said))?;
    }
    Ok(places)
}
