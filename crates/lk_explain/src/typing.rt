//! What is told of a program that isn't well typed.

use lk_ast::{Boxed, Decl, List, NoMemory, Program, Span};
use lk_infer::{Disagreement, first_disagreement};
use lk_names::resolve;
use lk_parse::parse;
use lk_types::{Effect, Effects, RowTail, Ty, effect_word, print_type};
use std::alloc::Global;

/// The most bytes of a type's text that is shown.
const SHOWN_BYTES: usize = 300;

/// The most bytes from the name of a declaration to the end of a place in it at which the types are looked for: where sizes are near
/// their limit, that may take time with the square of what stands before the place.
const TRIED_BYTES: u32 = 4_096;

/// What is wrong in a text that is a program and isn't well typed at this place: the two types that can't be one, as far as they are
/// known there, or the effect that can't be had.
pub fn ill_typed(alloc: Global, text: &[u8], at: Span) -> Result<String, NoMemory> {
    match types_at_odds(alloc, text, at)? {
        Some(Disagreement { left, right }) => match wanted_effect(&left, &right) {
            Some(effect) => {
                let word = effect_word(effect);
                Ok(format!(in alloc;
                    "this is not well typed: it has the effect `{word}`, which can't be had here"
                )?)
            }
            None => told_of(alloc, left, right),
        },
        None => Ok(format!(in alloc; "this is not well typed")?),
    }
}

/// The two types that can't be one, unless too much stands before the place.
fn types_at_odds(alloc: Global, text: &[u8], at: Span) -> Result<Option<Disagreement>, NoMemory> {
    let Ok(program) = parse(alloc, text) else {
        return Ok(None);
    };
    let Ok(scoped) = resolve(alloc, program) else {
        return Ok(None);
    };
    if is_late(scoped.program(), at) {
        return Ok(None);
    }
    first_disagreement(alloc, &scoped)
}

/// Whether many bytes stand between the name of a declaration and the end of a place in it.
fn is_late(program: &Program, at: Span) -> bool {
    let mut beginning = 0u32;
    for decl in program.decls.as_slice() {
        let start = start_of(decl);
        if start <= at.start {
            beginning = beginning.max(start);
        }
    }
    at.end.saturating_sub(beginning) > TRIED_BYTES
}

/// Where the name of a declaration begins, or that of the first of its functions.
fn start_of(decl: &Decl) -> u32 {
    match decl {
        Decl::Table(table) => table.name.at.start,
        Decl::Fun(function) => function.name.at.start,
        Decl::Mutual(functions) => match functions.as_slice().first() {
            Some(function) => function.name.at.start,
            None => 0,
        },
    }
}

/// The effect that is asked for, where effects are compared: they stand as those of functions without parameters.
fn wanted_effect(left: &Ty, right: &Ty) -> Option<Effect> {
    match (effects_alone(left), effects_alone(right)) {
        (Some(_), Some(wanted)) => wanted.labels.as_slice().first().copied(),
        _ => None,
    }
}

/// The effects of a function without parameters that gives `()`.
fn effects_alone(ty: &Ty) -> Option<&Effects> {
    match ty {
        Ty::Fun(parameters, effects, answer) if parameters.is_empty() && is_unit(answer.get()) =>
            Some(effects),
        _ => None,
    }
}

/// Whether this is the type of `()`.
fn is_unit(ty: &Ty) -> bool {
    match ty {
        Ty::Fields(row) => row.fields.is_empty() && row.tail == RowTail::Closed,
        _ => false,
    }
}

/// What is told of two types, whose variables have the same names in both.
fn told_of(alloc: Global, left: Ty, right: Ty) -> Result<String, NoMemory> {
    let first = print_type(alloc, &left)?;
    let both = print_type(alloc, &function(alloc, left, right)?)?;
    let second = behind_first(both.as_str(), first.as_str());
    if first.len() > SHOWN_BYTES || second.len() > SHOWN_BYTES {
        return Ok(format!(in alloc; "this is not well typed")?);
    }
    Ok(format!(in alloc;
        "this is not well typed: `{}` and `{second}` can't be one type here",
        first.as_str()
    )?)
}

/// The type of functions from the one type to the other without effects.
fn function(alloc: Global, left: Ty, right: Ty) -> Result<Ty, NoMemory> {
    let mut parameters = List::new(alloc);
    parameters.push(left)?;
    let effects = Effects {
        labels: List::new(alloc),
        tail: RowTail::Closed,
    };
    Ok(Ty::Fun(parameters, effects, Boxed::new(alloc, right)?))
}

/// The text of the second type in that of the function, `(FIRST) -> SECOND`.
fn behind_first<'t>(both: &'t str, first: &str) -> &'t str {
    match both.strip_prefix("(") {
        Some(rest) => rest
            .strip_prefix(first)
            .and_then(|rest| rest.strip_prefix(") -> "))
            .unwrap_or(both),
        None => both,
    }
}
