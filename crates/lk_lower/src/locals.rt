//! Local names as their places in the list of them.

ghost use Rattle.lk_index.specs.Free.{texts};
ghost use Rattle.lk_lower.specs.Lowering.{text_of};
ghost use Rattle.lk_lower.specs.Steps.{AreNamed, IsMaybeNamed, IsNamed};
ghost use Rattle.std.specs.Option.{option_copied, option_map};
ghost use Rattle.std.specs.Prelude.{◌≡◌, ◌↔◌, IfOk, IsTrue, map, slice_get};

use lk_ast::{List, NoMemory, Text, Word};
use std::alloc::Global;

/// The place of a name among these, which stand in byte order. `NoMemory` where it isn't one of them, which no name of a program is
/// that binds what it uses.
pub fn place_of(locals: &[Text], name: &str) -> Result<u32, NoMemory>
    ensures { IfOk result (λ place. IsNamed locals.now place name.now) }
{
    let Ok(place) = locals.binary_search_by(|local| local.as_str().cmp(name)) else {
        return Err(NoMemory);
    };
    at_place(locals, place, name)
}

/// This place, where the name stands there.
fn at_place(locals: &[Text], place: usize, name: &str) -> Result<u32, NoMemory>
    ensures { IfOk result (λ number. IsNamed locals.now number name.now) }
{
    let number = u32::try_from(place).map_err(|_| NoMemory)?;
    if is_at(locals, number, name) {
        Ok(number)
    } else {
        Err(NoMemory)
    }
}

/// Whether the name stands at this place.
fn is_at(locals: &[Text], place: u32, name: &str) -> bool
    ensures { IsTrue result → IsNamed locals.now place name.now }
{
    match text_at(locals, place as usize) {
        Some(local) => is_text(local, name),
        None => false,
    }
}

/// The text at this place, if there is one.
fn text_at(locals: &[Text], place: usize) -> Option<&Text>
    ensures { option_copied result ≡ slice_get locals.now place }
{
    locals.get(place)
}

/// Whether a text is this one.
fn is_text(text: &Text, other: &str) -> bool
    ensures { IsTrue result ↔ (text.now ≡ other.now) }
{
    text.as_str() == other
}

/// The places of names.
pub fn places_of(alloc: Global, locals: &[Text], names: &[&str]) -> Result<List<u32>, NoMemory>
    ensures { IfOk result (λ places. AreNamed locals.now places (texts names.now)) }
{
    let mut places = List::new(alloc);
    for name in names {
        places.push(place_of(locals, name)?)?;
    }
    Ok(places)
}

/// The places of words.
pub fn word_places(alloc: Global, locals: &[Text], words: &[Word]) -> Result<List<u32>, NoMemory>
    ensures { IfOk result (λ places. AreNamed locals.now places (map text_of words.now)) }
{
    let mut places = List::new(alloc);
    for word in words {
        places.push(place_of(locals, word.text.as_str())?)?;
    }
    Ok(places)
}

/// The place of a word, if there is one.
pub fn some_place(locals: &[Text], word: Option<&Word>) -> Result<Option<u32>, NoMemory>
    ensures { IfOk result (λ place. IsMaybeNamed locals.now place (option_map text_of (option_copied word.entry))) }
{
    match word {
        Some(word) => Ok(Some(place_of(locals, word.text.as_str())?)),
        None => Ok(None),
    }
}
