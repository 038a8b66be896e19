//! What is told of a text that isn't a tables file.

use crate::excerpts::shown_part;
use crate::messages::message;
use lk_ast::{BaseKind, Column, List, MOST_ROWS, NoMemory, Span, TableDef, Text};
use lk_bag::table_defs;
use lk_cli::{Source, Sources, TablesFault};
use lk_parse::parse;
use serde_json::{Category, Map, Value as Json};
use std::alloc::Global;
use std::collections::BTreeMap;

/// The message for a text that isn't a tables file: with the first table, row and column that are wrong, the members of the
/// object being looked at in byte order of their keys.
pub fn of_tables(alloc: Global, sources: &Sources, fault: TablesFault) -> Result<Text, NoMemory> {
    let (Some(program), Some(tables)) = (&sources.program, &sources.tables) else {
        return Ok(Text::new(alloc));
    };
    let file = tables.name.as_str();
    match fault {
        TablesFault::TooLong => message(alloc, file, "this has more than 16,777,216 bytes"),
        TablesFault::NotJson => message(alloc, file, not_json(alloc, tables)?.as_str()),
        TablesFault::UnknownTable | TablesFault::BadRows | TablesFault::TooManyRows => {
            message(alloc, file, first_wrong(alloc, program, tables)?.as_str())
        }
    }
}

/// Why a text isn't a JSON object.
fn not_json(alloc: Global, tables: &Source) -> Result<String, NoMemory> {
    let Ok(text) = str::from_utf8(tables.text.as_slice()) else {
        return Ok(format!(in alloc; "this isn't UTF-8")?);
    };
    match Json::from_str(alloc, text) {
        Ok(_) => Ok(format!(in alloc;
            "this is JSON, but no object from names of tables to their rows"
        )?),
        Err(error) => match error.classify() {
            Category::Memory => Err(NoMemory),
            _ => {
                let (line, column) = (error.line(), error.column());
                Ok(format!(in alloc; "this can't be read as JSON at line {line}, column {column}")?)
            }
        },
    }
}

/// What is wrong first in an object that isn't one from names of declared tables to their rows.
fn first_wrong(alloc: Global, program: &Source, tables: &Source) -> Result<String, NoMemory> {
    let defs = match parse(alloc, program.text.as_slice()) {
        Ok(program) => table_defs(alloc, &program)?,
        Err(_) => List::new(alloc),
    };
    let text = str::from_utf8(tables.text.as_slice()).unwrap_or("");
    if let Ok(file) = Json::from_str(alloc, text) {
        if let Some(wrong) = wrong_member(alloc, defs.as_slice(), &file)? {
            return Ok(wrong);
        }
    }
    Ok(format!(in alloc; "these aren't rows of the program's tables")?)
}

/// What is wrong with the first member of an object that isn't the rows of one of these tables.
fn wrong_member(alloc: Global, defs: &[TableDef], file: &Json) -> Result<Option<String>, NoMemory> {
    let Some(members) = file.as_object() else {
        return Ok(None);
    };
    let tables = by_name(alloc, defs)?;
    for (name, rows) in members.iter() {
        let wrong = match tables.get(name.as_str()) {
            Some(def) => wrong_rows(alloc, def, rows)?,
            None => Some(no_table(alloc, name.as_str())?),
        };
        if wrong.is_some() {
            return Ok(wrong);
        }
    }
    Ok(None)
}

/// Tables by their names.
fn by_name<'t>(
    alloc: Global,
    defs: &'t [TableDef],
) -> Result<BTreeMap<&'t str, &'t TableDef>, NoMemory> {
    let mut tables = BTreeMap::new(alloc);
    for def in defs {
        tables.insert(def.name.as_str(), def)?;
    }
    Ok(tables)
}

/// What is told of a name that no table has.
fn no_table(alloc: Global, name: &str) -> Result<String, NoMemory> {
    let name = quoted(alloc, name)?;
    Ok(format!(in alloc; "the program has no table `{}`", name.as_str())?)
}

/// A key of an object, as far as it is shown.
fn quoted(alloc: Global, key: &str) -> Result<Text, NoMemory> {
    let end = u32::try_from(key.len()).unwrap_or(u32::MAX);
    shown_part(alloc, key, Span { start: 0, end })
}

/// What is wrong with the rows of a table.
fn wrong_rows(alloc: Global, def: &TableDef, rows: &Json) -> Result<Option<String>, NoMemory> {
    let table = def.name.as_str();
    let Some(rows) = rows.as_array() else {
        return Ok(Some(format!(in alloc; "table `{table}`: its rows are no array")?));
    };
    let mut number = 1u64;
    for row in rows.iter() {
        if let Some(wrong) = wrong_row(alloc, def, row)? {
            return Ok(Some(format!(in alloc; "table `{table}`, row {number}: {wrong}")?));
        }
        number = number.wrapping_add(1);
    }
    let count = rows.len();
    if count as u64 > MOST_ROWS {
        return Ok(Some(format!(in alloc; "table `{table}` has {count} rows; 65,536 is the most")?));
    }
    Ok(None)
}

/// What is wrong with a row of a table.
fn wrong_row(alloc: Global, def: &TableDef, row: &Json) -> Result<Option<String>, NoMemory> {
    let Some(members) = row.as_object() else {
        return Ok(Some(format!(in alloc; "it is no object")?));
    };
    for column in def.columns.as_slice() {
        if let Some(wrong) = wrong_cell(alloc, column, row)? {
            return Ok(Some(wrong));
        }
    }
    if members.len() == def.columns.len() {
        return Ok(None);
    }
    wrong_key(alloc, def, members)
}

/// What is wrong with a row that has a member which is no column of the table.
fn wrong_key(
    alloc: Global,
    def: &TableDef,
    row: &Map<String, Json>,
) -> Result<Option<String>, NoMemory> {
    let mut labels = BTreeMap::new(alloc);
    for column in def.columns.as_slice() {
        labels.insert(column.label.as_str(), ())?;
    }
    for (key, _) in row.iter() {
        if labels.get(key.as_str()).is_none() {
            let key = quoted(alloc, key.as_str())?;
            return Ok(Some(format!(in alloc; "the table has no column `{}`", key.as_str())?));
        }
    }
    Ok(None)
}

/// What is wrong with what a row has for a column.
fn wrong_cell(alloc: Global, column: &Column, row: &Json) -> Result<Option<String>, NoMemory> {
    let label = column.label.as_str();
    match row.get(label) {
        None => Ok(Some(format!(in alloc; "it has no column `{label}`")?)),
        Some(value) if is_of(column.kind, value) => Ok(None),
        Some(_) => Ok(Some(format!(in alloc; "column `{label}`: {}", wanted(column.kind))?)),
    }
}

/// Whether a value is one of a column of that kind.
fn is_of(kind: BaseKind, value: &Json) -> bool {
    match kind {
        BaseKind::Int => value.is_i64(),
        BaseKind::Bool => value.is_boolean(),
        BaseKind::Text => value.is_string(),
    }
}

/// What a column of that kind wants.
fn wanted(kind: BaseKind) -> &'static str {
    match kind {
        BaseKind::Int => "this is no integer of 64 signed bits",
        BaseKind::Bool => "this is neither true nor false",
        BaseKind::Text => "this is no text",
    }
}
