//! The parts of levels, by their forms.

ghost use Rattle.lk_ground_types.specs.Forms.{fields_in, function_in, item_in, tags_in};
ghost use Rattle.lk_ground_types.specs.Grounds.{ArePartsBelow, at, function_of, item_of, part_made, record_of, variant_of};
ghost use Rattle.lk_types.specs.Each.{Each};
ghost use Rattle.std.specs.Option.{option_map};
ghost use Rattle.std.specs.Prelude.{◌≡◌, ◌<◌, IfSome, length, map};

use crate::ground_level::{GroundLevel, GroundPart};
use crate::grounds::Grounds;
use lk_types::Effect;

fn level_item(level: &GroundLevel) -> Option<u32>
    ensures { result ≡ item_of level.now }
{
    match level {
        GroundLevel::List(part) => Some(*part),
        _ => None,
    }
}

fn level_record(level: &GroundLevel) -> Option<&[GroundPart]>
    ensures { option_map (λ parts. parts.now) result ≡ record_of level.now }
{
    match level {
        GroundLevel::Fields(parts) => Some(parts.as_slice()),
        _ => None,
    }
}

fn level_variant(level: &GroundLevel) -> Option<&[GroundPart]>
    ensures { option_map (λ parts. parts.now) result ≡ variant_of level.now }
{
    match level {
        GroundLevel::Tags(parts) => Some(parts.as_slice()),
        _ => None,
    }
}

fn level_function(level: &GroundLevel) -> Option<(&[u32], &[Effect], u32)>
    ensures { option_map (λ parts. (parts.0.now, parts.1.now, parts.2)) result ≡ function_of level.now }
{
    match level {
        GroundLevel::Fun(params, effects, answer) => {
            Some((params.as_slice(), effects.as_slice(), *answer))
        }
        _ => None,
    }
}

/// The number of the type of the items, of a list.
pub fn list_item(grounds: &Grounds, number: u32) -> Option<u32>
    ensures item { option_map (at grounds.now) result ≡ item_in (at grounds.now number) }
    ensures within { IfSome result (λ part. part < length grounds.now) }
{
    level_item(grounds.level(number)?)
}

/// The fields, of a record.
pub fn record_fields(grounds: &Grounds, number: u32) -> Option<&[GroundPart]>
    ensures fields { option_map (λ parts. map (part_made grounds.now) parts.now) result ≡ fields_in (at grounds.now number) }
    ensures within { IfSome result (λ parts. ArePartsBelow (length grounds.now) parts.now) }
{
    level_record(grounds.level(number)?)
}

/// The tags, of a variant.
pub fn variant_tags(grounds: &Grounds, number: u32) -> Option<&[GroundPart]>
    ensures tags { option_map (λ parts. map (part_made grounds.now) parts.now) result ≡ tags_in (at grounds.now number) }
    ensures within { IfSome result (λ parts. ArePartsBelow (length grounds.now) parts.now) }
{
    level_variant(grounds.level(number)?)
}

/// The parameters, effects and result, of a function.
pub fn function_parts(grounds: &Grounds, number: u32) -> Option<(&[u32], &[Effect], u32)>
    ensures function { option_map (λ parts. (map (at grounds.now) parts.0.now, parts.1.now, at grounds.now parts.2)) result ≡ function_in (at grounds.now number) }
    ensures within { IfSome result (λ parts. Each (λ n. n < length grounds.now) parts.0.now × (parts.2 < length grounds.now)) }
{
    level_function(grounds.level(number)?)
}
