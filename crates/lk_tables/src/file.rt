//! A tables file as rows.

ghost use Rattle.lk_tables.specs.Choices.{all_some};
ghost use Rattle.lk_tables.specs.Reading.{AreRowsOf, object_in, object_refusal as refusal_of_object, refusal, table_of, tables_in};
ghost use Rattle.lk_tables.specs.declared.error.TablesError.TheVariants.{NoMemory as no_memory, NotJson as not_json};
ghost use Rattle.serde_json.specs.Errors.{IsMemory};
ghost use Rattle.serde_json.specs.View.{view};
ghost use Rattle.std.specs.List.{AllZip};
ghost use Rattle.std.specs.Prelude.{◌≡◌, ◌⊎◌, IfErr, IfOk, None, Some};

use crate::checks::object_refusal;
use crate::error::TablesError;
use crate::rows::tables_of;
use lk_ast::{List, TableDef, TableRows};
use serde_json::{Category, Error, Value as Json};
use std::alloc::Global;

/// How many bytes a tables file may have.
const MAX_BYTES: usize = 16_777_216;

/// Each of these tables, in their order, with the rows that a tables file has for it, in the file's order; a table that is
/// missing in the file is empty. The file is the text of a JSON object (RFC 8259) from names of tables to arrays of rows,
/// each row an object with exactly the table's columns: an integer of 64 signed bits without fraction or exponent, a
/// truth value or a string. Of two members with one key the last counts.
///
/// Answers the first of these that applies: `TooLong` (more than 16,777,216 bytes), `NotJson` (no JSON object in UTF-8, or
/// one that nests more than 127 deep), and then, for each key in byte order, `UnknownTable`, `BadRows` and `TooManyRows`
/// (more than 65,536); or `NoMemory` at any time.
pub fn read_tables(
    alloc: Global,
    text: &[u8],
    tables: &[TableDef],
) -> Result<List<TableRows>, TablesError>
    ensures accepted { IfOk result (λ read. refusal tables.now text.now ≡ None) }
    ensures rows { IfOk result (λ read. tables_in tables.now text.now ≡ Some read) }
    ensures fit { IfOk result (λ read. AllZip AreRowsOf tables.now read) }
    ensures refused { IfErr result (λ error. (error ≡ no_memory) ⊎ (refusal tables.now text.now ≡ Some error)) }
{
    if text.len() > MAX_BYTES {
        return Err(TablesError::TooLong);
    }
    let file = read_object(alloc, text)?;
    accepted_tables(alloc, &file, tables)
}

/// Each table with the rows that the object has for it, or why a member of it isn't a table's rows.
fn accepted_tables(
    alloc: Global,
    file: &Json,
    tables: &[TableDef],
) -> Result<List<TableRows>, TablesError>
    ensures accepted { IfOk result (λ read. refusal_of_object tables.now (view file.now) ≡ None) }
    ensures rows { IfOk result (λ read. all_some (table_of (view file.now)) tables.now ≡ Some read) }
    ensures fit { IfOk result (λ read. AllZip AreRowsOf tables.now read) }
    ensures refused { IfErr result (λ error. (error ≡ no_memory) ⊎ (refusal_of_object tables.now (view file.now) ≡ Some error)) }
{
    if let Some(refusal) = object_refusal(alloc, tables, file)? {
        return Err(refusal);
    }
    match tables_of(alloc, file, tables)? {
        Some(read) => Ok(read),
        None => Err(TablesError::BadRows),
    }
}

/// The object that a text is.
fn read_object(alloc: Global, text: &[u8]) -> Result<Json, TablesError>
    ensures ok { IfOk result (λ file. object_in text.now ≡ Some (view file)) }
    ensures err { IfErr result (λ error. (error ≡ no_memory) ⊎ (error ≡ not_json × object_in text.now ≡ None)) }
{
    let Ok(text) = str::from_utf8(text) else {
        return Err(TablesError::NotJson);
    };
    match Json::from_str(alloc, text) {
        Ok(file) if file.is_object() => Ok(file),
        Ok(_) => Err(TablesError::NotJson),
        Err(error) => Err(read_refusal(&error)),
    }
}

fn read_refusal(error: &Error) -> TablesError
    ensures memory { IsMemory error.now → result ≡ no_memory }
    ensures text { ¬ IsMemory error.now → result ≡ not_json }
{
    match error.classify() {
        Category::Memory => TablesError::NoMemory,
        _ => TablesError::NotJson,
    }
}
