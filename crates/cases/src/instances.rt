//! Lines of the instances of a program.

use lk_ast::NoMemory;
use lk_ground::{GroundFun, GroundProgram};
use lk_types::{Ground, print_ground};
use std::alloc::Global;

/// A line for each instance, its type, and the places of what it uses; helpers are indented.
pub fn calls_lines(alloc: Global, program: &GroundProgram) -> Result<String, NoMemory> {
    let mut lines = String::new(alloc);
    push_calls(alloc, &mut lines, "", program.funs.as_slice())?;
    push_calls(alloc, &mut lines, "  ", program.helpers.as_slice())?;
    Ok(lines)
}

/// A line for each instance, and the types of its nodes; helpers are indented.
pub fn types_lines(alloc: Global, program: &GroundProgram) -> Result<String, NoMemory> {
    let mut lines = String::new(alloc);
    push_types(alloc, &mut lines, "", program.funs.as_slice())?;
    push_types(alloc, &mut lines, "  ", program.helpers.as_slice())?;
    Ok(lines)
}

/// How many instances there are, and how many helpers.
pub fn counts_line(alloc: Global, program: &GroundProgram) -> Result<String, NoMemory> {
    let funs = program.funs.len();
    let helpers = program.helpers.len();
    Ok(format!(in alloc; "{funs} {helpers}\n")?)
}

/// Puts a line for each instance onto others, its type and the places of what it uses.
fn push_calls(
    alloc: Global,
    lines: &mut String,
    front: &str,
    funs: &[GroundFun],
) -> Result<(), NoMemory> {
    for fun in funs {
        let name = fun.function.name.text.as_str();
        let ty = print_ground(alloc, &fun.ty)?;
        let places = places_text(alloc, fun.calls.as_slice())?;
        let line = format!(in alloc; "{front}{name} : {} uses{places}\n", ty.as_str())?;
        lines.push_str(line.as_str())?;
    }
    Ok(())
}

/// Places, each behind a space.
fn places_text(alloc: Global, places: &[u32]) -> Result<String, NoMemory> {
    let mut text = String::new(alloc);
    for place in places {
        let number = *place;
        text.push_str(format!(in alloc; " {number}")?.as_str())?;
    }
    Ok(text)
}

/// Puts a line for each instance onto others, and the types of its nodes.
fn push_types(
    alloc: Global,
    lines: &mut String,
    front: &str,
    funs: &[GroundFun],
) -> Result<(), NoMemory> {
    for fun in funs {
        let name = fun.function.name.text.as_str();
        let types = types_text(alloc, fun.types.as_slice())?;
        let line = format!(in alloc; "{front}{name} :{types}\n")?;
        lines.push_str(line.as_str())?;
    }
    Ok(())
}

/// Types, each behind a space, with a semicolon between two of them.
fn types_text(alloc: Global, types: &[Ground]) -> Result<String, NoMemory> {
    let mut text = String::new(alloc);
    let mut front = " ";
    for ty in types {
        let ty = print_ground(alloc, ty)?;
        text.push_str(front)?;
        text.push_str(ty.as_str())?;
        front = "; ";
    }
    Ok(text)
}
