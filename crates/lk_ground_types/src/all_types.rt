//! What the types of a table become.

ghost use Rattle.lk_ground_types.specs.Becoming.{AreGround, AreRising, IsLabelBelow, Stand, bound_effects as the_effects, bound_number as the_number, bound_row as the_row, effects_made as the_effects_made, fields_put, level_of, number_at as the_number_at, part_at, row_made as the_row_made};
ghost use Rattle.lk_ground_types.specs.Bound.{AreWithin, grounding_in};
ghost use Rattle.lk_ground_types.specs.Grounds.{at, parts_in};
ghost use Rattle.lk_ground_types.specs.Made.{IsIfThere};
ghost use Rattle.lk_types.specs.Each.{Each};
ghost use Rattle.lk_types.specs.Grounding.{all_of, under};
ghost use Rattle.lk_types.specs.Levels.{AreBelow, IsBelow, made as the_made};
ghost use Rattle.lk_types.specs.declared.ground.Ground.{Ground as TheGround};
ghost use Rattle.lk_types.specs.declared.ty.RowTail.TheVariants as tails;
ghost use Rattle.lk_types.specs.declared.ty.Ty.{Ty as TheTy};
ghost use Rattle.std.specs.Option.{option_copied, option_map};
ghost use Rattle.std.specs.Prelude.{◌≡◌, ◌++◌, ◌<◌, ℕ, IfOk, IsTrue, List as TheList, OnOk, Some, length, map, slice_get};

use crate::bindings::Bindings;
use crate::effect_lists::in_order;
use crate::ground_level::{GroundLevel, GroundPart};
use crate::grounds::Grounds;
use crate::part_row::PartRow;
use lk_ast::{List, NoMemory};
use lk_types::{Effect, Effects, Level, LevelField, LevelRow, RowTail, Ty, Types};
use std::alloc::Global;
use std::cmp::Ordering;

/// The numbers of what the types of a table become with these bindings. Nothing is said of the number of one that becomes nothing,
/// since a row in it gets a label twice. `NoMemory` where memory runs out.
pub fn ground_all(
    alloc: Global,
    grounds: &mut Grounds,
    bindings: &Bindings,
    types: &Types,
) -> Result<List<u32>, NoMemory>
    requires { AreWithin (length grounds.old) bindings.now }
    ensures made { IfOk result (λ numbers. (ts : TheList TheGround) → all_of (map (under (grounding_in grounds.old bindings.now)) types.now) ≡ Some ts → map (at grounds.new) numbers ≡ ts) }
    ensures each { IfOk result (λ numbers. (i : ℕ) (ty : TheTy) (t : TheGround) → slice_get types.now i ≡ Some ty → under (grounding_in grounds.old bindings.now) ty ≡ Some t → option_map (at grounds.new) (slice_get numbers i) ≡ Some t) }
    ensures count { IfOk result (λ numbers. length numbers ≡ length types.now) }
    ensures within { IfOk result (Each (λ n. n < length grounds.new)) }
    ensures more { (rest : TheList TheGround) × (grounds.new ≡ grounds.old ++ rest) }
{
    let (levels, roots) = types.parts();
    let numbers = ground_levels(alloc, grounds, bindings, levels)?;
    numbers_at(alloc, numbers.as_slice(), roots)
}

/// The number of what a type becomes with these bindings. Nothing is said where it becomes nothing. `NoMemory` where memory runs out.
pub fn ground_one(
    alloc: Global,
    grounds: &mut Grounds,
    bindings: &Bindings,
    ty: &Ty,
) -> Result<u32, NoMemory>
    requires { AreWithin (length grounds.old) bindings.now }
    ensures made { IfOk result (λ number. (t : TheGround) → under (grounding_in grounds.old bindings.now) ty.now ≡ Some t → at grounds.new number ≡ t) }
    ensures within { IfOk result (λ number. number < length grounds.new) }
    ensures more { (rest : TheList TheGround) × (grounds.new ≡ grounds.old ++ rest) }
{
    let types = Types::of_tree(alloc, ty)?;
    let numbers = ground_all(alloc, grounds, bindings, &types)?;
    Ok(*numbers.at(0))
}

/// The numbers of what levels become.
fn ground_levels(
    alloc: Global,
    grounds: &mut Grounds,
    bindings: &Bindings,
    levels: &[Level],
) -> Result<List<u32>, NoMemory>
    requires within { AreWithin (length grounds.old) bindings.now }
    requires below { AreBelow levels.now }
    ensures made { IfOk result (AreGround bindings.now grounds.old grounds.new levels.now) }
    ensures more { (rest : TheList TheGround) × (grounds.new ≡ grounds.old ++ rest) }
{
    let mut numbers = List::new(alloc);
    for level in levels {
        let number = number_made(alloc, grounds, bindings, numbers.as_slice(), level)?;
        numbers.push(number)?;
    }
    Ok(numbers)
}

/// The number of what a level becomes, where those before it become these.
fn number_made(
    alloc: Global,
    grounds: &mut Grounds,
    bindings: &Bindings,
    numbers: &[u32],
    level: &Level,
) -> Result<u32, NoMemory>
    requires within { AreWithin (length grounds.old) bindings.now }
    requires numbers { Each (λ n. n < length grounds.old) numbers.now }
    requires below { IsBelow (length numbers.now) level.now }
    ensures stands { IfOk result (λ number. (types : TheList TheTy) → Stand (grounding_in grounds.old bindings.now) grounds.old types numbers.now → IsIfThere (under (grounding_in grounds.old bindings.now) (the_made types level.now)) (at grounds.new number)) }
    ensures within { IfOk result (λ number. number < length grounds.new) }
    ensures more { (rest : TheList TheGround) × (grounds.new ≡ grounds.old ++ rest) }
{
    match bound_number(bindings, level) {
        Some(number) => Ok(number),
        None => {
            let made = level_made(alloc, bindings, numbers, level)?;
            grounds.add(alloc, made)
        }
    }
}

/// The number of what stands for the variable of a type.
fn bound_number(bindings: &Bindings, level: &Level) -> Option<u32>
    ensures { result ≡ the_number bindings.now level.now }
{
    match level {
        Level::Var(variable) => bindings.plain.get(variable).copied(),
        _ => None,
    }
}

/// The number of what the level at a place becomes.
fn number_at(numbers: &[u32], place: u32) -> u32
    ensures { result ≡ the_number_at numbers.now place }
{
    numbers.get(place as usize).copied().unwrap_or(0)
}

/// What a level becomes, `()` for a variable.
fn level_made(
    alloc: Global,
    bindings: &Bindings,
    numbers: &[u32],
    level: &Level,
) -> Result<GroundLevel, NoMemory>
    ensures { IfOk result (λ made. made ≡ level_of bindings.now numbers.now level.now) }
{
    match level {
        Level::Int => Ok(GroundLevel::Int),
        Level::Bool => Ok(GroundLevel::Bool),
        Level::Text => Ok(GroundLevel::Text),
        Level::List(place) => Ok(GroundLevel::List(number_at(numbers, *place))),
        Level::Fields(row) => row_made(alloc, bindings, numbers, row).map(GroundLevel::Fields),
        Level::Tags(row) => row_made(alloc, bindings, numbers, row).map(GroundLevel::Tags),
        Level::Fun(params, effects, answer) => {
            let params = numbers_at(alloc, numbers, params.as_slice())?;
            let effects = effects_made(alloc, bindings, effects)?;
            Ok(GroundLevel::Fun(params, effects, number_at(numbers, *answer)))
        }
        Level::Var(_) => Ok(GroundLevel::Fields(List::new(alloc))),
    }
}

/// The numbers of what the levels at these places become.
fn numbers_at(alloc: Global, numbers: &[u32], places: &[u32]) -> Result<List<u32>, NoMemory>
    ensures { IfOk result (λ made. made ≡ map (the_number_at numbers.now) places.now) }
{
    let mut made = List::new(alloc);
    for place in places {
        made.push(number_at(numbers, *place))?;
    }
    Ok(made)
}

fn row_made(
    alloc: Global,
    bindings: &Bindings,
    numbers: &[u32],
    row: &LevelRow,
) -> Result<List<GroundPart>, NoMemory>
    ensures { IfOk result (λ parts. parts ≡ parts_in (the_row_made bindings.now numbers.now row.now)) }
{
    if is_in_order(row) {
        return parts_at(alloc, numbers, row.fields.as_slice());
    }
    let mut made = bound_row(alloc, bindings, row.tail)?;
    put_fields(alloc, numbers, &mut made, row.fields.as_slice())?;
    made.into_parts(alloc)
}

/// Whether a row is closed and its labels rise.
fn is_in_order(row: &LevelRow) -> bool
    ensures closed { IsTrue result → row.now.tail ≡ tails.Closed }
    ensures rising { IsTrue result → AreRising row.now.fields }
{
    match row.tail {
        RowTail::Closed => are_rising(row.fields.as_slice()),
        RowTail::Var(_) => false,
    }
}

/// Whether the labels of these fields rise.
fn are_rising(fields: &[LevelField]) -> bool
    ensures { IsTrue result → AreRising fields.now }
{
    for i in (0..fields.len()).rev() {
        if !is_label_below(&fields[i], fields.get(i + 1)) {
            return false;
        }
    }
    true
}

/// Whether the label of a field is below that of the one behind it, if there is one.
fn is_label_below(field: &LevelField, next: Option<&LevelField>) -> bool
    ensures { IsTrue result → IsLabelBelow field.now (option_copied next.entry) }
{
    match next {
        Some(next) => field.label.cmp(&next.label) == Ordering::Less,
        None => true,
    }
}

/// The parts that fields become, in the order of the fields.
fn parts_at(
    alloc: Global,
    numbers: &[u32],
    fields: &[LevelField],
) -> Result<List<GroundPart>, NoMemory>
    ensures { IfOk result (λ parts. parts ≡ map (part_at numbers.now) fields.now) }
{
    let mut parts = List::new(alloc);
    for field in fields {
        let label = field.label.copy(alloc)?;
        let part = number_at(numbers, field.part);
        parts.push(GroundPart { label, part })?;
    }
    Ok(parts)
}

/// Puts what fields become before others, the last one first.
fn put_fields(
    alloc: Global,
    numbers: &[u32],
    row: &mut PartRow,
    fields: &[LevelField],
) -> Result<(), NoMemory>
    ensures { OnOk result (row.new ≡ fields_put numbers.now fields.now row.old) }
{
    for i in (0..fields.len()).rev() {
        let field = &fields[i];
        row.put(alloc, field.label.as_str(), number_at(numbers, field.part))?;
    }
    Ok(())
}

/// What stands for the tail of a row.
fn bound_row(alloc: Global, bindings: &Bindings, tail: RowTail) -> Result<PartRow, NoMemory>
    ensures { IfOk result (λ row. row ≡ the_row bindings.now tail) }
{
    match tail {
        RowTail::Closed => Ok(PartRow::new(alloc)),
        RowTail::Var(variable) => match bindings.rows.get(&variable) {
            Some(row) => row.copy(alloc),
            None => Ok(PartRow::new(alloc)),
        },
    }
}

/// The effects that these become, in byte order.
fn effects_made(
    alloc: Global,
    bindings: &Bindings,
    effects: &Effects,
) -> Result<List<Effect>, NoMemory>
    ensures { IfOk result (λ made. made ≡ the_effects_made bindings.now effects.now) }
{
    in_order(
        alloc,
        effects.labels.as_slice(),
        bound_effects(bindings, effects.tail),
    )
}

/// What stands for the tail of effects.
fn bound_effects<'b>(bindings: &'b Bindings, tail: RowTail) -> &'b [Effect]
    ensures { result.now ≡ the_effects bindings.now tail }
{
    match tail {
        RowTail::Closed => &[],
        RowTail::Var(variable) => match bindings.effects.get(&variable) {
            Some(labels) => labels.as_slice(),
            None => &[],
        },
    }
}
