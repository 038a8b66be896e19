//! Numbers of types that are likely to differ where types do.

ghost use Rattle.lk_ground_types.specs.Grounds.{effect_number as the_effect_number};
ghost use Rattle.lk_lower.specs.Hints.{field_hint, hint, mix as the_mix, mix_all};
ghost use Rattle.std.specs.Prelude.{◌≡◌, map};

use lk_types::{Effect, Ground, GroundField};

/// One more number behind others. The factor is that of Fowler, Noll and Vo's sums of 64 bits.
#[tactic(auto, unfolding(crate::specs::Hints::mix))]
fn mix(sum: u64, more: u64) -> u64
    ensures { result ≡ the_mix sum more }
{
    (sum ^ more).wrapping_mul(1_099_511_628_211)
}

/// The hint of a type. Same types have the same one.
#[cycle(hints)]
#[tactic(auto, using(crate::proofs::HintLevels::hint_int, crate::proofs::HintLevels::hint_bool, crate::proofs::HintLevels::hint_text, crate::proofs::HintLevels::hint_list, crate::proofs::HintLevels::hint_fields, crate::proofs::HintLevels::hint_tags, crate::proofs::HintLevels::hint_function))]
pub fn hint_of(ty: &Ground) -> u64
    ensures { result ≡ hint ty.now }
{
    match ty {
        Ground::Int => 1,
        Ground::Bool => 2,
        Ground::Text => 3,
        Ground::List(item) => mix(4, hint_of(item.get())),
        Ground::Fields(fields) => of_fields(5, fields.get().as_slice()),
        Ground::Tags(tags) => of_fields(6, tags.get().as_slice()),
        Ground::Fun(params, effects, answer) => {
            let with_answer = mix(7, hint_of(answer.get()));
            let with_effects = of_effects(with_answer, effects.get().as_slice());
            of_types(with_effects, params.get().as_slice())
        }
    }
}

#[cycle(hints)]
fn of_fields(sum: u64, fields: &[GroundField]) -> u64
    ensures { result ≡ mix_all sum (map field_hint fields.now) }
{
    let mut mixed = sum;
    for field in fields {
        mixed = mix(mixed, of_field(field));
    }
    mixed
}

#[cycle(hints)]
#[tactic(auto, using(crate::proofs::HintLevels::hint_field))]
fn of_field(field: &GroundField) -> u64
    ensures { result ≡ field_hint field.now }
{
    let label = of_text(field.label.as_str().as_bytes());
    mix(label, hint_of(&field.ty))
}

#[cycle(hints)]
fn of_types(sum: u64, types: &[Ground]) -> u64
    ensures { result ≡ mix_all sum (map hint types.now) }
{
    let mut mixed = sum;
    for ty in types {
        mixed = mix(mixed, hint_of(ty));
    }
    mixed
}

fn of_text(bytes: &[u8]) -> u64
    ensures { result ≡ mix_all 8 bytes.now }
{
    let mut mixed = 8;
    for byte in bytes {
        mixed = mix(mixed, *byte as u64);
    }
    mixed
}

fn of_effects(sum: u64, effects: &[Effect]) -> u64
    ensures { result ≡ mix_all sum (map the_effect_number effects.now) }
{
    let mut mixed = sum;
    for effect in effects {
        mixed = mix(mixed, effect_number(*effect));
    }
    mixed
}

fn effect_number(effect: Effect) -> u64
    ensures { result ≡ the_effect_number effect }
{
    match effect {
        Effect::Local => 0,
        Effect::Move => 1,
        Effect::Print => 2,
        Effect::Rec => 3,
        Effect::Scan => 4,
        Effect::Trap => 5,
        Effect::Write => 6,
    }
}
