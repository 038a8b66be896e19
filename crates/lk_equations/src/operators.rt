//! What is said of operators, by the types of their operands.

ghost use Rattle.std.specs.Prelude.{◌≡◌, ◌∷◌, ◌++◌, ◌+◌, [], IfOk};
ghost use Rattle.lk_types.specs.declared.ty.Effect.TheVariants as effect;
ghost use Rattle.lk_types.specs.declared.ty.RowTail.TheVariants.{Var};
ghost use Rattle.lk_types.specs.declared.ty.Ty.TheVariants as ty;
ghost use Rattle.lk_typing.specs.Equations.{own as the_own};
ghost use Rattle.lk_typing.specs.Unknowns.{has as the_has, record_of as the_record_of, same as the_same, unit as the_unit, variant_of as the_variant_of};
ghost use Rattle.lk_equations.specs.Made.{as_own};

use crate::copies::copy_type;
use crate::own::{Own, one, only, three, two};
use crate::renamed::moved;
use crate::unknowns::{field_before, has, list_of, same, unit};
use lk_ast::NoMemory;
use lk_types::{Effect, Effects, RowTail, Side, Ty};
use std::alloc::Global;

/// Both operands are of a base type, and so is what the operator makes of them.
pub fn both(
    alloc: Global,
    operands: Ty,
    made: Ty,
    a: &Ty,
    b: &Ty,
    next: u32,
) -> Result<Own, NoMemory>
    ensures { IfOk result (λ own. as_own own ≡ the_own made (the_same a.now operands ∷ the_same b.now operands ∷ []) next) }
{
    let first = same(copy_type(alloc, a)?, copy_type(alloc, &operands)?);
    let second = same(copy_type(alloc, b)?, operands);
    Ok(Own {
        ty: Side::of(made),
        equations: two(alloc, first, second)?,
        next,
    })
}

/// `a / b`, which has no value where `b` is zero.
pub fn division(
    alloc: Global,
    effects: &Effects,
    a: &Ty,
    b: &Ty,
    next: u32,
) -> Result<Own, NoMemory>
    ensures { IfOk result (λ own. as_own own ≡ the_own ty.Int (the_same a.now ty.Int ∷ the_same b.now ty.Int ∷ the_has effects.now effect.Trap next ∷ []) (1 + next)) }
{
    let first = same(copy_type(alloc, a)?, Ty::Int);
    let second = same(copy_type(alloc, b)?, Ty::Int);
    let traps = has(alloc, effects, Effect::Trap, next)?;
    Ok(Own {
        ty: Side::of(Ty::Int),
        equations: three(alloc, first, second, traps)?,
        next: moved(next, 1)?,
    })
}

/// `a == b`.
pub fn comparison(alloc: Global, a: &Ty, b: &Ty, next: u32) -> Result<Own, NoMemory>
    ensures { IfOk result (λ own. as_own own ≡ the_own ty.Bool (the_same a.now b.now ∷ []) next) }
{
    let both = same(copy_type(alloc, a)?, copy_type(alloc, b)?);
    Ok(Own {
        ty: Side::of(Ty::Bool),
        equations: one(alloc, both)?,
        next,
    })
}

/// `a; b`.
pub fn sequence(alloc: Global, a: &Ty, b: &Ty, next: u32) -> Result<Own, NoMemory>
    ensures { IfOk result (λ own. as_own own ≡ the_own b.now (the_same a.now the_unit ∷ []) next) }
{
    let first = same(copy_type(alloc, a)?, unit(alloc));
    Ok(Own {
        ty: Side::of(copy_type(alloc, b)?),
        equations: one(alloc, first)?,
        next,
    })
}

/// `a ++ b`.
pub fn append(alloc: Global, a: &Ty, b: &Ty, next: u32) -> Result<Own, NoMemory>
    ensures { IfOk result (λ own. as_own own ≡ the_own a.now (the_same a.now (ty.List (ty.Var next)) ∷ the_same b.now a.now ∷ []) (1 + next)) }
{
    let first = same(copy_type(alloc, a)?, list_of(alloc, Ty::Var(next))?);
    let second = same(copy_type(alloc, b)?, copy_type(alloc, a)?);
    Ok(Own {
        ty: Side::of(copy_type(alloc, a)?),
        equations: two(alloc, first, second)?,
        next: moved(next, 1)?,
    })
}

/// `a :: b`.
pub fn cons(alloc: Global, effects: &Effects, a: &Ty, b: &Ty, next: u32) -> Result<Own, NoMemory>
    ensures { IfOk result (λ own. as_own own ≡ the_own b.now (the_same b.now (ty.List a.now) ∷ the_has effects.now effect.Local next ∷ []) (1 + next)) }
{
    let item = copy_type(alloc, a)?;
    let list = same(copy_type(alloc, b)?, list_of(alloc, item)?);
    let by_client = has(alloc, effects, Effect::Local, next)?;
    Ok(Own {
        ty: Side::of(copy_type(alloc, b)?),
        equations: two(alloc, list, by_client)?,
        next: moved(next, 1)?,
    })
}

/// `where (c) a`.
pub fn filter(alloc: Global, c: &Ty, a: &Ty, next: u32) -> Result<Own, NoMemory>
    ensures { IfOk result (λ own. as_own own ≡ the_own (ty.List (ty.Var next)) (the_same c.now ty.Bool ∷ the_same a.now (ty.List (ty.Var next)) ∷ []) (1 + next)) }
{
    let first = same(copy_type(alloc, c)?, Ty::Bool);
    let second = same(copy_type(alloc, a)?, list_of(alloc, Ty::Var(next))?);
    Ok(Own {
        ty: Side::of(list_of(alloc, Ty::Var(next))?),
        equations: two(alloc, first, second)?,
        next: moved(next, 1)?,
    })
}

/// `if (c) { d } else { e }`.
pub fn choice(alloc: Global, c: &Ty, d: &Ty, e: &Ty, next: u32) -> Result<Own, NoMemory>
    ensures { IfOk result (λ own. as_own own ≡ the_own d.now (the_same c.now ty.Bool ∷ the_same d.now e.now ∷ []) next) }
{
    let test = same(copy_type(alloc, c)?, Ty::Bool);
    let both = same(copy_type(alloc, d)?, copy_type(alloc, e)?);
    Ok(Own {
        ty: Side::of(copy_type(alloc, d)?),
        equations: two(alloc, test, both)?,
        next,
    })
}

/// The operand is of a base type, and so is what the operator makes of it.
pub fn from_base(alloc: Global, operand: Ty, made: Ty, a: &Ty, next: u32) -> Result<Own, NoMemory>
    ensures { IfOk result (λ own. as_own own ≡ the_own made (the_same a.now operand ∷ []) next) }
{
    let a = copy_type(alloc, a)?;
    Ok(Own {
        ty: Side::of(made),
        equations: one(alloc, same(a, operand))?,
        next,
    })
}

/// The same for an operator with an effect.
pub fn acting(alloc: Global, said: Own, effects: &Effects, effect: Effect) -> Result<Own, NoMemory>
    ensures { IfOk result (λ own. as_own own ≡ the_own said.ty (said.equations ++ the_has effects.now effect said.next ∷ []) (1 + said.next)) }
{
    let Own {
        ty,
        mut equations,
        next,
    } = said;
    equations.push(has(alloc, effects, effect, next)?)?;
    Ok(Own {
        ty,
        equations,
        next: moved(next, 1)?,
    })
}

/// The operand is a list of any items.
pub fn from_list(alloc: Global, made: Ty, a: &Ty, next: u32) -> Result<Own, NoMemory>
    ensures { IfOk result (λ own. as_own own ≡ the_own made (the_same a.now (ty.List (ty.Var next)) ∷ []) (1 + next)) }
{
    let list = same(copy_type(alloc, a)?, list_of(alloc, Ty::Var(next))?);
    Ok(Own {
        ty: Side::of(made),
        equations: one(alloc, list)?,
        next: moved(next, 1)?,
    })
}

/// A part of a list that may have none: its first item, or what is left.
pub fn part_of_list(
    alloc: Global,
    effects: &Effects,
    made: Ty,
    a: &Ty,
    next: u32,
) -> Result<Own, NoMemory>
    ensures { IfOk result (λ own. as_own own ≡ the_own made (the_same a.now (ty.List (ty.Var next)) ∷ the_has effects.now effect.Trap (1 + next) ∷ the_has effects.now effect.Local (2 + next) ∷ []) (3 + next)) }
{
    let list = from_list(alloc, made, a, next)?;
    let trapping = acting(alloc, list, effects, Effect::Trap)?;
    acting(alloc, trapping, effects, Effect::Local)
}

/// `a.l`.
pub fn projection(alloc: Global, label: &str, a: &Ty, next: u32) -> Result<Own, NoMemory>
    ensures { IfOk result (λ own. as_own own ≡ the_own (ty.Var next) (the_same a.now (the_record_of ((label.now, ty.Var next) ∷ []) (Var (1 + next))) ∷ []) (2 + next)) }
{
    let a = copy_type(alloc, a)?;
    let tail = RowTail::Var(moved(next, 1)?);
    let row = field_before(alloc, label, Ty::Var(next), tail)?;
    Ok(Own {
        ty: Side::of(Ty::Var(next)),
        equations: one(alloc, same(a, Ty::Fields(row)))?,
        next: moved(next, 2)?,
    })
}

/// `T(a)`.
pub fn tagged(alloc: Global, tag: &str, a: &Ty, next: u32) -> Result<Own, NoMemory>
    ensures { IfOk result (λ own. as_own own ≡ the_own (the_variant_of ((tag.now, a.now) ∷ []) (Var next)) [] (1 + next)) }
{
    let a = copy_type(alloc, a)?;
    let row = field_before(alloc, tag, a, RowTail::Var(next))?;
    Ok(only(alloc, Ty::Tags(row), moved(next, 1)?))
}
