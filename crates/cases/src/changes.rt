//! The SQL of updates and deletions, which no command prints.

use lk_ast::{List, NoMemory, Text};
use lk_ground::GroundProgram;
use lk_sql::{Change, Select, Sql};
use lk_sqltext::print_sql;
use lk_translate::{Code, TranslateError, Translated, translate};
use std::alloc::Global;

/// A line for each update and deletion of a ground program, the select of what is set where it changes a row, or why there are
/// none.
pub fn changes_lines(alloc: Global, program: &GroundProgram) -> Result<String, NoMemory> {
    match translate(alloc, program) {
        Ok(all) => lines(alloc, all),
        Err(TranslateError::TooLarge(_, _)) => Ok(format!(in alloc; "too large\n")?),
        Err(TranslateError::NoMemory) => Err(NoMemory),
    }
}

/// A line for each update and deletion among these.
fn lines(alloc: Global, all: List<Translated>) -> Result<String, NoMemory> {
    let mut lines = String::new(alloc);
    for one in all.into_vec() {
        let Translated { code, .. } = one;
        push_change(alloc, &mut lines, code)?;
    }
    Ok(lines)
}

/// Puts the line of an update or a deletion onto others; a query has none.
fn push_change(alloc: Global, lines: &mut String, code: Code) -> Result<(), NoMemory> {
    match code {
        Code::Select(_sql) => Ok(()),
        Code::Change(change) => push_text(alloc, lines, change),
    }
}

/// Puts the line of a change onto others.
fn push_text(alloc: Global, lines: &mut String, change: Change) -> Result<(), NoMemory> {
    let text = change_text(alloc, change)?;
    lines.push_str(text.as_str())?;
    lines.push('\n')?;
    Ok(())
}

/// A change as the select of what is set where it changes a row.
fn change_text(alloc: Global, change: Change) -> Result<Text, NoMemory> {
    let Change { cond, sets } = change;
    let froms = List::new(alloc);
    let outs = sets;
    let mut selects = List::new(alloc);
    selects.push(Select { froms, cond, outs })?;
    let keys = List::new(alloc);
    print_sql(alloc, &Sql { selects, keys })
}
