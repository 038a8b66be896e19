//! What could stand where a token can't.

use lk_ast::NoMemory;
use lk_parse::{ParseError, parse};
use std::alloc::Global;

/// The most bytes in front of a place at which it is tried what could stand there.
const TRIED_BYTES: usize = 16_384;

/// Of each kind of thing one token, and what is told of it. The first stands for all expressions, whose other beginnings aren't
/// tried where it fits.
const KINDS: [(&str, &str); 11] = [
    ("0", "an expression"),
    ("x", "a name"),
    ("A", "a tag"),
    ("Int", "a type"),
    ("where", "`where`"),
    ("orderby", "`orderby`"),
    ("(", "`(`"),
    ("[", "`[`"),
    ("[|", "`[|`"),
    ("{", "`{`"),
    ("fun", "`fun`"),
];

/// Signs and words that begin no expression, and what is told of them. The first stands for all operators.
const SIGNS: [(&str, &str); 25] = [
    ("+", "an operator such as `+`"),
    (")", "`)`"),
    ("}", "`}`"),
    ("]", "`]`"),
    ("|]", "`|]`"),
    (",", "`,`"),
    (";", "`;`"),
    (":", "`:`"),
    ("=", "`=`"),
    ("<-", "`<-`"),
    ("<--", "`<--`"),
    ("->", "`->`"),
    ("|", "`|`"),
    ("else", "`else`"),
    ("case", "`case`"),
    ("desc", "`desc`"),
    ("with", "`with`"),
    ("values", "`values`"),
    ("set", "`set`"),
    ("client", "`client`"),
    ("server", "`server`"),
    ("table", "`table`"),
    ("sig", "`sig`"),
    ("mutual", "`mutual`"),
    ("var", "`var`"),
];

/// Some of what could stand behind this text, which is the front of some program, in a few words. Nothing where it is too long to try
/// that.
pub fn expected(alloc: Global, front: &str) -> Result<String, NoMemory> {
    let mut told = Vec::new(alloc);
    if front.len() <= TRIED_BYTES {
        add_kinds(alloc, front, &mut told)?;
        for (token, name) in SIGNS.iter() {
            if fits(alloc, front, token)? {
                told.push(*name)?;
            }
        }
    }
    listed(alloc, told.as_slice())
}

/// Adds what is told of the kinds of things that could stand behind this text.
fn add_kinds(alloc: Global, front: &str, told: &mut Vec<&'static str>) -> Result<(), NoMemory> {
    for (token, name) in KINDS.iter() {
        if fits(alloc, front, token)? && !is_tag(token, told) {
            told.push(*name)?;
            if *token == "0" {
                return Ok(());
            }
        }
    }
    Ok(())
}

/// Whether a token is `Int` where it would be a tag, as any may stand there.
fn is_tag(token: &str, told: &[&'static str]) -> bool {
    match told.last() {
        Some(last) => token == "Int" && *last == "a tag",
        None => false,
    }
}

/// Whether some program begins with this text and this token, which stands in a line of its own, lest it end a comment.
fn fits(alloc: Global, front: &str, token: &str) -> Result<bool, NoMemory> {
    let text = format!(in alloc; "{front}\n{token}")?;
    match parse(alloc, text.as_str().as_bytes()) {
        Ok(_) => Ok(true),
        Err(ParseError::Unexpected(at)) => Ok(at.start == at.end),
        Err(ParseError::NoMemory) => Err(NoMemory),
        Err(_) => Ok(false),
    }
}

/// These with commas between them, and `or` in front of the last.
fn listed(alloc: Global, items: &[&'static str]) -> Result<String, NoMemory> {
    let mut text = String::new(alloc);
    let Some((last, others)) = items.split_last() else {
        return Ok(text);
    };
    if let Some((first, between)) = others.split_first() {
        text.push_str(first)?;
        for item in between {
            text.push_str(", ")?;
            text.push_str(item)?;
        }
        text.push_str(" or ")?;
    }
    text.push_str(last)?;
    Ok(text)
}
