//! What the layers answer to the text of a case.

use crate::line::Line;
use crate::program::{put_body, put_function_type, put_program, put_statements};
use crate::refusal::{put_name_refusal, put_refusal};
use crate::token::put_tokens;
use lk_ast::{NoMemory, Program, Text};
use lk_names::resolve;
use lk_parse::{ParseError, check_nesting, parse, tokens};
use lk_print::print;
use std::alloc::Global;

/// What a line asks of the program that a text is.
#[derive(Clone, Copy)]
pub enum Asked {
    /// Its tree.
    Tree,
    /// The tree of its one function's body.
    Body,
    /// The type that is written down of its one function.
    Type,
    /// How many statements stand before the last expression of its one function's body.
    Statements,
    /// How many declarations it has.
    Declarations,
    /// Nothing: the text is to be none.
    Refused,
    /// What is printed of it.
    Printed,
    /// How many bytes are printed of it.
    Length,
    /// Whether what is printed of it is the same program.
    Again,
}

/// What is asked by a line with this first word, if it asks that of a program.
pub fn asked_by(word: &str) -> Option<Asked> {
    match word {
        "tree" => Some(Asked::Tree),
        "body" => Some(Asked::Body),
        "type" => Some(Asked::Type),
        "statements" => Some(Asked::Statements),
        "declarations" => Some(Asked::Declarations),
        "refused" => Some(Asked::Refused),
        "length" => Some(Asked::Length),
        "again" => Some(Asked::Again),
        _ => None,
    }
}

/// Puts what is asked of the program that a text is, or why it is none.
pub fn put_answer(alloc: Global, line: &mut Line, asked: Asked, text: &[u8]) {
    match parse(alloc, text) {
        Ok(program) => put_asked(alloc, line, asked, &program),
        Err(refusal) => put_refusal(line, &refusal),
    }
}

fn put_asked(alloc: Global, line: &mut Line, asked: Asked, program: &Program) {
    match asked {
        Asked::Tree => put_program(line, program),
        Asked::Body => put_body(line, program),
        Asked::Type => put_function_type(line, program),
        Asked::Statements => put_statements(line, program),
        Asked::Declarations => line.put_count(program.decls.len() as u64),
        Asked::Refused => line.put("nothing"),
        Asked::Printed => put_text(alloc, line, program),
        Asked::Length => put_length(alloc, line, program),
        Asked::Again => put_again(alloc, line, program),
    }
}

/// Puts how many bytes are printed of a program.
fn put_length(alloc: Global, line: &mut Line, program: &Program) {
    match print(alloc, program) {
        Ok(text) => line.put_count(text.len() as u64),
        Err(NoMemory) => line.put_no_memory(),
    }
}

/// Puts what is printed of a program.
fn put_text(alloc: Global, line: &mut Line, program: &Program) {
    match print(alloc, program) {
        Ok(text) => line.put(text.as_str()),
        Err(NoMemory) => line.put_no_memory(),
    }
}

/// Puts `the same` where what is printed of a program is that program, and is printed alike.
fn put_again(alloc: Global, line: &mut Line, program: &Program) {
    match print(alloc, program) {
        Ok(text) => put_read_again(alloc, line, program, &text),
        Err(NoMemory) => line.put_no_memory(),
    }
}

fn put_read_again(alloc: Global, line: &mut Line, program: &Program, text: &Text) {
    match parse(alloc, text.as_str().as_bytes()) {
        Ok(again) => put_sameness(alloc, line, program, &again, text),
        Err(refusal) => put_refusal(line, &refusal),
    }
}

fn put_sameness(alloc: Global, line: &mut Line, program: &Program, again: &Program, text: &Text) {
    match is_same(alloc, program, again, text) {
        Ok(true) => line.put("the same"),
        Ok(false) => line.put("another program"),
        Err(NoMemory) => line.put_no_memory(),
    }
}

/// Whether the second program has the tree of the first one, but for places, and this text is printed of it.
fn is_same(
    alloc: Global,
    program: &Program,
    again: &Program,
    text: &Text,
) -> Result<bool, NoMemory> {
    let second = print(alloc, again)?;
    let tree = shown(alloc, program)?;
    let tree_again = shown(alloc, again)?;
    Ok(second.equals(text) && tree.as_str() == tree_again.as_str())
}

/// The line of a program.
fn shown(alloc: Global, program: &Program) -> Result<String, NoMemory> {
    let mut line = Line::new(alloc, false);
    put_program(&mut line, program);
    line.finished()
}

/// Puts the tokens of a text, or why it has none.
pub fn put_token_answer(alloc: Global, line: &mut Line, text: &[u8]) {
    match tokens(alloc, text) {
        Ok(found) => put_tokens(line, found.as_slice()),
        Err(refusal) => put_refusal(line, &refusal),
    }
}

/// Puts `light` where the tokens of a text don't nest too deep.
pub fn put_nesting_answer(alloc: Global, line: &mut Line, text: &[u8]) {
    match nesting(alloc, text) {
        Ok(()) => line.put("light"),
        Err(refusal) => put_refusal(line, &refusal),
    }
}

/// Reads the tokens of a text and how deeply they nest.
fn nesting(alloc: Global, text: &[u8]) -> Result<(), ParseError> {
    let found = tokens(alloc, text)?;
    check_nesting(alloc, found.as_slice())
}

/// Puts `bound` where each name of the program that a text is means something, once.
pub fn put_names_answer(alloc: Global, line: &mut Line, text: &[u8]) {
    match parse(alloc, text) {
        Ok(program) => put_bound(alloc, line, program),
        Err(refusal) => put_refusal(line, &refusal),
    }
}

fn put_bound(alloc: Global, line: &mut Line, program: Program) {
    match resolve(alloc, program) {
        Ok(_scoped) => line.put("bound"),
        Err(refusal) => put_name_refusal(line, refusal),
    }
}
