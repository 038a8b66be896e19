//! What types become where it is known what stands for their variables.

ghost use Rattle.lk_ground_types.specs.Bound.{AreWithin};
ghost use Rattle.std.specs.Prelude.{length};

use crate::reader::{read_equation, read_type};
use lk_ast::NoMemory;
use lk_ground_types::{
    Bindings, Grounds, effects_of, ground_one, has_function, is_base, is_flat, is_list,
    is_query_type,
};
use lk_types::{Effect, Equation, Ground, Ty, effect_word, print_ground};
use std::alloc::Global;

/// What is asked of a type.
#[derive(Clone, Copy)]
pub enum Asked {
    Type,
    Effects,
    Kinds,
}

/// The line of a case that says what stands for variables, if one does.
fn where_line(case: &str) -> Option<&str> {
    for line in case.split('\n') {
        if let Some(rest) = line.strip_prefix("where ") {
            return Some(rest);
        }
    }
    None
}

/// The answer to what is asked of a type, none where the text is no type.
pub fn ground_answer(
    alloc: Global,
    case: &str,
    asked: Asked,
    shown: &str,
) -> Result<Option<String>, NoMemory> {
    match read_type(alloc, shown) {
        None => Ok(None),
        Some(ty) => type_answer(alloc, case, asked, &ty),
    }
}

fn type_answer(
    alloc: Global,
    case: &str,
    asked: Asked,
    ty: &Ty,
) -> Result<Option<String>, NoMemory> {
    let mut grounds = Grounds::new(alloc);
    match where_line(case).and_then(|line| read_equation(alloc, line)) {
        None => answer(alloc, &mut grounds, &Bindings::none(alloc), asked, ty),
        Some(equation) => bound_answer(alloc, &mut grounds, &equation, asked, ty),
    }
}

/// The answer where the left side of an equation becomes the right one, which has no variables.
fn bound_answer(
    alloc: Global,
    grounds: &mut Grounds,
    equation: &Equation,
    asked: Asked,
    ty: &Ty,
) -> Result<Option<String>, NoMemory> {
    let none = Bindings::none(alloc);
    let left = equation.left.tree(alloc)?;
    let right = equation.right.tree(alloc)?;
    let right = ground_one(alloc, grounds, &none, &right)?;
    let bindings = Bindings::of(alloc, grounds, &left, right)?;
    answer(alloc, grounds, &bindings, asked, ty)
}

fn answer(
    alloc: Global,
    grounds: &mut Grounds,
    bindings: &Bindings,
    asked: Asked,
    ty: &Ty,
) -> Result<Option<String>, NoMemory>
    requires { AreWithin (length grounds.old) bindings.now }
{
    let number = ground_one(alloc, grounds, bindings, ty)?;
    let ground = grounds.get(number);
    match asked {
        Asked::Effects => effects_text(alloc, effects_of(ground)),
        Asked::Type | Asked::Kinds => ground_text(alloc, asked, grounds.fits(number), ground),
    }
}

/// The text of a type, or of its kinds, if it isn't too large.
fn ground_text(
    alloc: Global,
    asked: Asked,
    fits: bool,
    ground: &Ground,
) -> Result<Option<String>, NoMemory> {
    match (fits, asked) {
        (false, _) => Ok(Some(String::from_str(alloc, "too large")?)),
        (true, Asked::Kinds) => kinds_text(alloc, ground),
        (true, _) => printed(alloc, ground),
    }
}

fn printed(alloc: Global, ground: &Ground) -> Result<Option<String>, NoMemory> {
    let text = print_ground(alloc, ground)?;
    Ok(Some(String::from_str(alloc, text.as_str())?))
}

/// `e,e`, or `none`.
fn effects_text(alloc: Global, effects: &[Effect]) -> Result<Option<String>, NoMemory> {
    let mut text = String::new(alloc);
    for effect in effects {
        push_word(&mut text, ",", effect_word(*effect))?;
    }
    push_none(&mut text)?;
    Ok(Some(text))
}

/// The kinds that a type is of.
fn kinds_text(alloc: Global, ground: &Ground) -> Result<Option<String>, NoMemory> {
    let kinds = [
        (is_base(ground), "base"),
        (is_flat(ground), "flat"),
        (is_list(ground), "list"),
        (is_query_type(ground), "query"),
        (has_function(ground), "function"),
    ];
    let mut text = String::new(alloc);
    for (is_of_kind, word) in kinds {
        if is_of_kind {
            push_word(&mut text, " ", word)?;
        }
    }
    push_none(&mut text)?;
    Ok(Some(text))
}

/// Writes `none` where there is no word.
fn push_none(text: &mut String) -> Result<(), NoMemory> {
    if text.is_empty() {
        text.push_str("none")?;
    }
    Ok(())
}

/// Adds a word, behind this where it isn't the first.
fn push_word(text: &mut String, between: &str, word: &str) -> Result<(), NoMemory> {
    if !text.is_empty() {
        text.push_str(between)?;
    }
    text.push_str(word)?;
    Ok(())
}
