//! What queries and changes capture.

ghost use Rattle.lk_bodies.specs.Captured.{bound_parts, captured_at, captured_by, numbered};
ghost use Rattle.lk_bodies.specs.CapturedSeen.{typed};
ghost use Rattle.lk_bodies.specs.UsesSeen.{seen_uses};
ghost use Rattle.lk_index.specs.Free.{texts};
ghost use Rattle.lk_typing.specs.Names.{named};
ghost use Rattle.std.specs.Option.{option_copied};
ghost use Rattle.std.specs.Prelude.{◌≡◌, IfOk};

use crate::shapes::{columns_of, kind_of};
use crate::uses::NameUse;
use lk_ast::{BaseKind, List, NoMemory};
use lk_equations::Scope;
use lk_ground_types::is_base;
use lk_query::{Captured, Part};
use lk_types::Ground;
use std::alloc::Global;

/// What a query captures of a name whose first use has this type.
fn captured_by(alloc: Global, ty: Option<&Ground>) -> Result<Captured, NoMemory>
    ensures { IfOk result (λ captured. captured ≡ captured_by (option_copied ty.entry)) }
{
    match ty {
        None => Ok(Captured::Base(BaseKind::Int)),
        Some(ty) => {
            if is_base(ty) {
                Ok(Captured::Base(kind_of(ty)))
            } else {
                Ok(Captured::Row(columns_of(alloc, ty)?))
            }
        }
    }
}

/// The types of names. The first use of a name is the last to come, so that it hides the others.
fn first_types<'g, 'p>(
    alloc: Global,
    uses: &[NameUse<'g, 'p>],
) -> Result<Scope<'p, &'g Ground>, NoMemory>
    ensures { IfOk result (λ types. typed types ≡ seen_uses uses.now) }
{
    let mut types = Scope::new(alloc);
    for i in (0..uses.len()).rev() {
        let found = &uses[i];
        types.push(found.name, found.ty)?;
    }
    Ok(types)
}

/// The type of a name.
#[tactic(auto, using(crate::proofs::Filling::named_typed))]
fn type_of<'g>(types: &Scope<'_, &'g Ground>, name: &str) -> Option<&'g Ground>
    ensures { option_copied result ≡ named name.now (typed types.now) }
{
    types.get(name).copied()
}

/// What a query captures: these names, each by the type of its first use.
pub fn captured_at(
    alloc: Global,
    uses: &[NameUse],
    names: &[&str],
) -> Result<List<Captured>, NoMemory>
    ensures { IfOk result (λ captured. captured ≡ captured_at (seen_uses uses.now) (texts names.now)) }
{
    let types = first_types(alloc, uses)?;
    let mut captured = List::new(alloc);
    for name in names {
        captured.push(captured_by(alloc, type_of(&types, name))?)?;
    }
    Ok(captured)
}

/// These names with the numbers from the first one on.
pub fn numbered<'p>(
    alloc: Global,
    first: u32,
    names: &[&'p str],
) -> Result<Scope<'p, u32>, NoMemory>
    ensures { IfOk result (λ numbers. numbers ≡ numbered first (texts names.now)) }
{
    let mut numbers = Scope::new(alloc);
    for i in (0..names.len()).rev() {
        let number = u32::try_from(i).map_err(|_| NoMemory)?;
        let number = number.checked_add(first).ok_or(NoMemory)?;
        numbers.push(names[i], number)?;
    }
    Ok(numbers)
}

/// A part for each name.
pub fn bound_parts(alloc: Global, names: &[&str]) -> Result<List<Part>, NoMemory>
    ensures { IfOk result (λ parts. parts ≡ bound_parts (texts names.now)) }
{
    let mut parts = List::new(alloc);
    for _name in names {
        parts.push(Part::Bound)?;
    }
    Ok(parts)
}
