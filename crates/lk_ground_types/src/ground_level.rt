//! One level of a ground type, whose parts are named by their numbers, and the key by which it is looked up.

ghost use Rattle.lk_ground_types.specs.Grounds.{effect_number as the_effect_number, key as the_key, label_key, part_key};
ghost use Rattle.std.specs.Prelude.{◌≡◌, [], ◌∷◌, ◌++◌, IfOk, OnOk, flat_map, map};

use lk_ast::{List, NoMemory, Text};
use lk_types::Effect;
use std::alloc::Global;

/// A field of a record or a tag of a variant, its type by number.
#[derive(Drop)]
pub struct GroundPart {
    pub label: Text,
    pub part: u32,
}

/// One level of a ground type. Fields, tags and effects stand in the order that the type has.
pub enum GroundLevel {
    Int,
    Bool,
    Text,
    List(u32),
    Fields(List<GroundPart>),
    Tags(List<GroundPart>),
    /// Parameters, effects and result.
    Fun(List<u32>, List<Effect>, u32),
}

impl Drop for GroundLevel {
    fn drop(self) {
        match self {
            Self::Int => {}
            Self::Bool => {}
            Self::Text => {}
            Self::List(_) => {}
            Self::Fields(_) => {}
            Self::Tags(_) => {}
            Self::Fun(_, _, _) => {}
        }
    }
}

/// The key of a level. `NoMemory` where memory runs out.
pub fn key_of(alloc: Global, level: &GroundLevel) -> Result<List<u32>, NoMemory>
    ensures { IfOk result (λ key. key ≡ the_key level.now) }
{
    match level {
        GroundLevel::Int => one(alloc, 0),
        GroundLevel::Bool => one(alloc, 1),
        GroundLevel::Text => one(alloc, 2),
        GroundLevel::List(part) => two(alloc, 3, *part),
        GroundLevel::Fields(parts) => row_key(alloc, 4, parts.as_slice()),
        GroundLevel::Tags(parts) => row_key(alloc, 5, parts.as_slice()),
        GroundLevel::Fun(params, effects, answer) => {
            function_key(alloc, params.as_slice(), effects.as_slice(), *answer)
        }
    }
}

fn one(alloc: Global, form: u32) -> Result<List<u32>, NoMemory>
    ensures { IfOk result (λ key. key ≡ form ∷ []) }
{
    let mut key = List::new(alloc);
    key.push(form)?;
    Ok(key)
}

fn two(alloc: Global, form: u32, part: u32) -> Result<List<u32>, NoMemory>
    ensures { IfOk result (λ key. key ≡ form ∷ part ∷ []) }
{
    let mut key = one(alloc, form)?;
    key.push(part)?;
    Ok(key)
}

fn row_key(alloc: Global, form: u32, parts: &[GroundPart]) -> Result<List<u32>, NoMemory>
    ensures { IfOk result (λ key. key ≡ form ∷ flat_map part_key parts.now) }
{
    let mut key = one(alloc, form)?;
    for part in parts {
        push_part(&mut key, part)?;
    }
    Ok(key)
}

fn push_part(key: &mut List<u32>, part: &GroundPart) -> Result<(), NoMemory>
    ensures { OnOk result (key.new ≡ key.old ++ part_key part.now) }
{
    key.push(part.part)?;
    push_label(key, part.label.as_str().as_bytes())
}

fn push_label(key: &mut List<u32>, label: &[u8]) -> Result<(), NoMemory>
    ensures { OnOk result (key.new ≡ key.old ++ label_key label.now) }
{
    for byte in label {
        key.push(*byte as u32 + 1)?;
    }
    key.push(0)
}

fn function_key(
    alloc: Global,
    params: &[u32],
    effects: &[Effect],
    answer: u32,
) -> Result<List<u32>, NoMemory>
    ensures { IfOk result (λ key. key ≡ 6 ∷ answer ∷ (map the_effect_number effects.now ++ 7 ∷ params.now)) }
{
    let mut key = two(alloc, 6, answer)?;
    push_effects(&mut key, effects)?;
    for param in params {
        key.push(*param)?;
    }
    Ok(key)
}

fn push_effects(key: &mut List<u32>, effects: &[Effect]) -> Result<(), NoMemory>
    ensures { OnOk result (key.new ≡ key.old ++ (map the_effect_number effects.now ++ 7 ∷ [])) }
{
    for effect in effects {
        key.push(effect_number(*effect))?;
    }
    key.push(7)
}

fn effect_number(effect: Effect) -> u32
    ensures { result ≡ the_effect_number effect }
{
    match effect {
        Effect::Local => 0,
        Effect::Move => 1,
        Effect::Print => 2,
        Effect::Rec => 3,
        Effect::Scan => 4,
        Effect::Trap => 5,
        Effect::Write => 6,
    }
}
