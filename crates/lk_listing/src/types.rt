//! Types on a line.

ghost use Rattle.lk_listing.specs.Listing.{env_text, signature_text, types_text};
ghost use Rattle.lk_types.specs.TypeText.{effect_word, effects_text, ground_text};
ghost use Rattle.std.specs.List.{join_by};
ghost use Rattle.std.specs.Prelude.{◌≡◌, ◌++◌, IfOk, None, OnOk, codes};

use crate::MOST_BYTES;
use lk_ast::{NoMemory, Text};
use lk_code::FunInfo;
use lk_types::{Effect, Ground, effect_word, print_ground};
use std::alloc::Global;

/// Adds a piece, as long as there is room.
pub fn add(text: &mut Text, piece: &str) -> Result<(), NoMemory>
    ensures { OnOk result (text.new ≡ text.old ++ piece.now) }
{
    match MOST_BYTES.checked_sub(piece.len()) {
        Some(most) if text.as_str().len() <= most => text.push(piece),
        _ => Err(NoMemory),
    }
}

/// `(T,T) {e,e}-> T`.
pub fn signature_of(alloc: Global, info: &FunInfo) -> Result<Text, NoMemory>
    ensures { IfOk result (λ text. text ≡ signature_text info.now) }
{
    let params = types_of(alloc, info.params.as_slice())?;
    let effects = effects_of(alloc, info.effects.as_slice())?;
    let result = print_ground(alloc, &info.result)?;
    let text = format!(in alloc;
        "({}) {}-> {}",
        params.as_str(),
        effects.as_str(),
        result.as_str()
    )?;
    Ok(Text::from_string(text))
}

/// `[T,T]`.
pub fn env_of(alloc: Global, types: &[Ground]) -> Result<Text, NoMemory>
    ensures { IfOk result (λ text. text ≡ env_text types.now) }
{
    let types = types_of(alloc, types)?;
    let text = format!(in alloc; "[{}]", types.as_str())?;
    Ok(Text::from_string(text))
}

/// `T,T`.
fn types_of(alloc: Global, types: &[Ground]) -> Result<Text, NoMemory>
    ensures { IfOk result (λ text. text ≡ types_text types.now) }
{
    let mut text = Text::new(alloc);
    write_types(alloc, &mut text, types)?;
    Ok(text)
}

#[tactic(auto, using(lk_types::proofs::Lists::texts_both))]
fn write_types(alloc: Global, text: &mut Text, types: &[Ground]) -> Result<(), NoMemory>
    ensures { OnOk result (text.new ≡ text.old ++ types_text types.now) }
{
    if let Some((first, rest)) = types.split_first() {
        write_type(alloc, text, first)?;
        for ty in rest {
            add(text, ",")?;
            write_type(alloc, text, ty)?;
        }
    }
    Ok(())
}

fn write_type(alloc: Global, text: &mut Text, ty: &Ground) -> Result<(), NoMemory>
    ensures { OnOk result (text.new ≡ text.old ++ ground_text ty.now) }
{
    add(text, print_ground(alloc, ty)?.as_str())
}

/// `{e,e}`, or nothing.
fn effects_of(alloc: Global, effects: &[Effect]) -> Result<Text, NoMemory>
    ensures { IfOk result (λ text. text ≡ effects_text effects.now None) }
{
    let mut text = Text::new(alloc);
    write_effects(&mut text, effects)?;
    Ok(text)
}

#[tactic(auto, using(lk_types::proofs::Lists::texts_both))]
fn write_effects(text: &mut Text, effects: &[Effect]) -> Result<(), NoMemory>
    ensures { OnOk result (text.new ≡ text.old ++ effects_text effects.now None) }
{
    if effects.is_empty() {
        return Ok(());
    }
    text.push("{")?;
    write_words(text, effects)?;
    text.push("}")
}

/// `e,e`.
#[tactic(auto, using(lk_types::proofs::Lists::texts_both))]
fn write_words(text: &mut Text, effects: &[Effect]) -> Result<(), NoMemory>
    ensures { OnOk result (text.new ≡ text.old ++ join_by effect_word (codes ",") effects.now) }
{
    if let Some((first, rest)) = effects.split_first() {
        text.push(effect_word(*first))?;
        for effect in rest {
            text.push(",")?;
            text.push(effect_word(*effect))?;
        }
    }
    Ok(())
}
