//! Ground types in a list, each once.

ghost use Rattle.lk_ground_types.specs.Grounds.{AreDistinct};
ghost use Rattle.lk_lower.specs.Hints.{hint as the_hint};
ghost use Rattle.lk_lower.specs.Once.{AreHinted, IsNew};
ghost use Rattle.lk_types.specs.declared.ground.Ground.{Ground as TheGround};
ghost use Rattle.std.specs.Prelude.{◌≡◌, ◌↔◌, ◌++◌, [], IfNone, IfOk, IfSome, IsTrue, List as TheList, Some, slice_get};

use crate::hints::hint_of;
use lk_ast::{List, NoMemory};
use lk_ground_types::share_type;
use lk_ir::same_type;
use lk_types::Ground;
use std::alloc::Global;
use std::collections::BTreeMap;
use std::marker::Model;

/// Types, each of which stands once, and under the hint of each the number of the last one with this hint. Contracts see the list of
/// the types.
#[derive(Drop)]
pub struct TypeTable {
    types: List<Ground>,
    numbers: BTreeMap<u64, u32>,
}

impl Model for TypeTable {
    ghost use Rattle.lk_lower.specs.Once.{AreHinted};
    ghost use Rattle.lk_types.specs.contracts.ground.Ground as g;
    ghost use Rattle.lk_types.specs.declared.ground.Ground.{Ground as TheGround};
    ghost use Rattle.std.specs.Coded.{coded_list};
    ghost use Rattle.std.specs.Prelude.{List};

    ghost Value = { List TheGround };

    ghost coded = { coded_list g.the_row.coded };

    ghost view = { λ table. table.types };

    ghost invariant = { λ table. AreHinted table.types table.numbers };
}

impl TypeTable {
    /// No types.
    pub fn new(alloc: Global) -> TypeTable
        ensures { result ≡ [] }
    {
        TypeTable {
            types: List::new(alloc),
            numbers: BTreeMap::new(alloc),
        }
    }

    /// The types.
    pub fn into_types(self) -> List<Ground>
        ensures is { result ≡ self }
        ensures distinct { AreDistinct result }
    {
        let TypeTable { types, numbers: _ } = self;
        types
    }

    /// The number of a type, which is put behind the others where it isn't there.
    pub fn number(&mut self, ty: &Ground) -> Result<u32, NoMemory>
        ensures is { IfOk result (λ number. slice_get self.new number ≡ Some ty.now) }
        ensures more { (rest : TheList TheGround) × (self.new ≡ self.old ++ rest) }
    {
        enter(&mut self.types, &mut self.numbers, ty)
    }
}

/// The number of a type, which is put behind the others where it isn't there.
fn enter(
    types: &mut List<Ground>,
    numbers: &mut BTreeMap<u64, u32>,
    ty: &Ground,
) -> Result<u32, NoMemory>
    requires { AreHinted types.old numbers.old }
    ensures table { AreHinted types.new numbers.new }
    ensures is { IfOk result (λ number. slice_get types.new number ≡ Some ty.now) }
    ensures more { (rest : TheList TheGround) × (types.new ≡ types.old ++ rest) }
{
    let hint = hint_of(ty);
    match find(types, numbers, hint, ty) {
        Some(place) => Ok(number_of(place)?),
        None => push(types, numbers, hint, ty),
    }
}

/// The place of a type with this hint, if it is one of these.
fn find(types: &List<Ground>, numbers: &BTreeMap<u64, u32>, hint: u64, ty: &Ground) -> Option<usize>
    requires table { AreHinted types.now numbers.now }
    requires hint { hint ≡ the_hint ty.now }
    ensures is { IfSome result (λ place. slice_get types.now place ≡ Some ty.now) }
    ensures new { IfNone result (IsNew types.now ty.now) }
{
    match numbers.get(&hint).copied() {
        None => None,
        Some(number) => place_from(types, number as usize, ty),
    }
}

/// The place of a type, which is likely to be this one, if it is one of these.
fn place_from(types: &List<Ground>, likely: usize, ty: &Ground) -> Option<usize>
    ensures is { IfSome result (λ place. slice_get types.now place ≡ Some ty.now) }
    ensures new { IfNone result (IsNew types.now ty.now) }
{
    if is_at(types, likely, ty) {
        Some(likely)
    } else {
        place_of(types, ty)
    }
}

/// Whether the type at that place is this one.
fn is_at(types: &List<Ground>, place: usize, ty: &Ground) -> bool
    ensures { IsTrue result ↔ (slice_get types.now place ≡ Some ty.now) }
{
    match types.get(place) {
        Some(known) => same_type(known, ty),
        None => false,
    }
}

/// The place of a type, looked for among all of these.
fn place_of(types: &List<Ground>, ty: &Ground) -> Option<usize>
    ensures is { IfSome result (λ place. slice_get types.now place ≡ Some ty.now) }
    ensures new { IfNone result (IsNew types.now ty.now) }
{
    for i in 0..types.len() {
        if is_at(types, i, ty) {
            return Some(i);
        }
    }
    None
}

/// Puts a type with this hint, which isn't there, behind the others.
fn push(
    types: &mut List<Ground>,
    numbers: &mut BTreeMap<u64, u32>,
    hint: u64,
    ty: &Ground,
) -> Result<u32, NoMemory>
    requires table { AreHinted types.old numbers.old }
    requires hint { hint ≡ the_hint ty.now }
    requires new { IsNew types.old ty.now }
    ensures table { AreHinted types.new numbers.new }
    ensures is { IfOk result (λ number. slice_get types.new number ≡ Some ty.now) }
    ensures more { (rest : TheList TheGround) × (types.new ≡ types.old ++ rest) }
{
    let number = number_of(types.len())?;
    numbers.insert(hint, number)?;
    types.push(share_type(ty)?)?;
    Ok(number)
}

/// The same number, where it isn't too large for one.
fn number_of(place: usize) -> Result<u32, NoMemory>
    ensures { IfOk result (λ number. number ≡ place) }
{
    u32::try_from(place).map_err(|_| NoMemory)
}
