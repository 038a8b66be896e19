//! Tells in what a run came out otherwise than its case says.

ghost use Rattle.std.specs.Prelude.{◌≡◌, false};

use crate::run::{Held, Run};
use case_files::Content;
use lk_ast::{
    BaseKind, Column, List, NoMemory, Row, TableDef, Text, holds_function, rows_value, value_text,
};
use lk_cli::Refused;
use lk_explain::explain;
use lk_outside::{OutFault, Store};
use std::alloc::Global;

/// Tells what was printed where that isn't what the run says.
pub fn compare_printed(
    alloc: Global,
    run: &Run,
    printed: &[u8],
    told: &mut Vec<String>,
) -> Result<(), NoMemory> {
    if is_printed(run, printed) {
        return Ok(());
    }
    match str::from_utf8(printed) {
        Ok(printed) => told.push(format!(in alloc; "printed {printed:?}")?)?,
        Err(_) => told.push(format!(in alloc; "printed what is no text")?)?,
    }
    Ok(())
}

/// Whether this is one of the texts that the run says are printed.
fn is_printed(run: &Run, printed: &[u8]) -> bool {
    if run.printed.is_empty() {
        return printed.is_empty();
    }
    for text in run.printed.iter() {
        if is_text(text, printed, run.is_end_alone) {
            return true;
        }
    }
    false
}

/// Whether this is the text and a line feed, or ends with them. Where no line says anything of the text it is empty.
fn is_text(text: &Content, printed: &[u8], is_end_alone: bool) -> bool {
    if !text.has_begun() {
        return printed.is_empty();
    }
    let Some(lines) = printed.strip_suffix(b"\n") else {
        return false;
    };
    if is_end_alone {
        lines.ends_with(text.as_bytes())
    } else {
        lines == text.as_bytes()
    }
}

/// Tells the status where that isn't one of which the run says that it ends so.
pub fn compare_status(
    alloc: Global,
    run: &Run,
    status: u8,
    told: &mut Vec<String>,
) -> Result<(), NoMemory> {
    let status = u64::from(status);
    let is_wanted = if run.statuses.is_empty() {
        status == 0
    } else {
        run.statuses.contains(&status)
    };
    if !is_wanted {
        told.push(format!(in alloc; "status {status}")?)?;
    }
    Ok(())
}

/// Tells the message for a refusal where that isn't the one that the run asks for.
pub fn compare_message(
    alloc: Global,
    run: &Run,
    refused: Option<Refused>,
    told: &mut Vec<String>,
) -> Result<(), NoMemory> {
    if !run.message.has_begun() {
        return Ok(());
    }
    let message = message_of(alloc, refused)?;
    let message = message.as_str();
    if !is_text(&run.message, message.as_bytes(), false) {
        told.push(format!(in alloc; "told {message:?}")?)?;
    }
    Ok(())
}

/// The message for a refusal, if it is one.
fn message_of(alloc: Global, refused: Option<Refused>) -> Result<Text, NoMemory> {
    match refused {
        Some(refused) => explain(alloc, &refused),
        None => Ok(Text::new(alloc)),
    }
}

/// Tells that no store came back where the run says that one does.
pub fn compare_none(alloc: Global, run: &Run, told: &mut Vec<String>) -> Result<(), NoMemory> {
    if !run.held.is_empty() || names_store(run) {
        told.push(format!(in alloc; "no store came back")?)?;
    }
    Ok(())
}

/// Whether the run says that a store comes back with some name.
fn names_store(run: &Run) -> bool {
    for name in run.back.iter() {
        if !name.is_empty() {
            return true;
        }
    }
    false
}

/// Tells the name of the store that came back where that isn't the one that the run says.
fn compare_back(
    alloc: Global,
    run: &Run,
    name: &str,
    told: &mut Vec<String>,
) -> Result<(), NoMemory> {
    for want in run.back.iter() {
        if want.as_str() != name {
            told.push(format!(in alloc; "back {name}")?)?;
        }
    }
    Ok(())
}

/// Tells in what the store that came back differs.
pub fn compare_store(
    alloc: Global,
    run: &Run,
    store: &mut dyn Store,
    told: &mut Vec<String>,
) -> Result<(), NoMemory>
    requires { is_open store.old ≡ false }
    ensures { is_open store.new ≡ false }
{
    compare_back(alloc, run, store.name(), told)?;
    for held in run.held.iter() {
        compare_held(alloc, held, store, told)?;
    }
    Ok(())
}

/// Tells the rows of a table where those aren't the ones that are to be held.
fn compare_held(
    alloc: Global,
    held: &Held,
    store: &mut dyn Store,
    told: &mut Vec<String>,
) -> Result<(), NoMemory>
    requires { is_open store.old ≡ false }
    ensures { is_open store.new ≡ false }
{
    let rows = rows_held(alloc, held, store)?;
    if rows.as_str().as_bytes() != held.rows.as_bytes() {
        let table = held.table.as_str();
        told.push(format!(in alloc; "held {table} = {}", rows.as_str())?)?;
    }
    Ok(())
}

/// The rows of the table in a store, as JSON.
fn rows_held(alloc: Global, held: &Held, store: &mut dyn Store) -> Result<Text, NoMemory>
    requires { is_open store.old ≡ false }
    ensures { is_open store.new ≡ false }
{
    let table = table_of(alloc, held)?;
    rows_text(alloc, store, &table)
}

/// The table whose rows are held.
fn table_of(alloc: Global, held: &Held) -> Result<TableDef, NoMemory> {
    let mut columns = List::new(alloc);
    for column in held.columns.as_str().split(' ') {
        if !column.is_empty() {
            columns.push(column_of(alloc, column)?)?;
        }
    }
    let name = Text::from_str(alloc, held.table.as_str())?;
    Ok(TableDef { name, columns })
}

/// A column, as `n:Int`: numbers where no kind is told.
fn column_of(alloc: Global, text: &str) -> Result<Column, NoMemory> {
    let (label, kind) = text.split_once(':').unwrap_or((text, "Int"));
    let kind = match kind {
        "Bool" => BaseKind::Bool,
        "String" => BaseKind::Text,
        _ => BaseKind::Int,
    };
    let label = Text::from_str(alloc, label)?;
    Ok(Column { label, kind })
}

/// The rows of a table in a store as JSON, or why there are none. The transaction in which they are read is aborted.
fn rows_text(alloc: Global, store: &mut dyn Store, table: &TableDef) -> Result<Text, NoMemory>
    requires { is_open store.old ≡ false }
    ensures { is_open store.new ≡ false }
{
    match store.begin(alloc) {
        Ok(()) => {}
        Err(OutFault::NoMemory) => return Err(NoMemory),
        Err(OutFault::Failed) => return Text::from_str(alloc, "begin failed"),
    }
    let scanned = store.scan(alloc, table);
    store.abort();
    text_of(alloc, scanned)
}

/// Rows as JSON, or why there are none.
fn text_of(alloc: Global, scanned: Result<List<Row>, OutFault>) -> Result<Text, NoMemory> {
    match scanned {
        Ok(rows) => {
            let rows = rows_value(alloc, rows.as_slice())?;
            if holds_function(&rows) {
                return Text::from_str(alloc, "a function in a row");
            }
            value_text(alloc, &rows)
        }
        Err(OutFault::NoMemory) => Err(NoMemory),
        Err(OutFault::Failed) => Text::from_str(alloc, "scan failed"),
    }
}
