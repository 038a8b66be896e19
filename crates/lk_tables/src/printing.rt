//! Rows as a tables file.

ghost use Rattle.lk_ast.specs.JsonText.{base_data, members_of};
ghost use Rattle.lk_tables.specs.Law.{ReadsBack};
ghost use Rattle.lk_tables.specs.Words.{cells_fit_words, fits_word, table_fits_words};
ghost use Rattle.lk_tables.specs.Printing.{IsPrinted, IsSortedFrom, cell_entry, row_data};
ghost use Rattle.serde_json.specs.Data.{Data, array};
ghost use Rattle.serde_json.specs.View.{view, items_of};
ghost use Rattle.serde_json.specs.Written.{compact_text};
ghost use Rattle.std.specs.List.{list_all};
ghost use Rattle.std.specs.Prelude.{◌≡◌, All, IfOk, List, map, true};

use lk_ast::{Base, Cell, NoMemory, Row, TableRows, Text};
use serde_json::{Map, Value as Json};
use std::alloc::Global;

/// The tables as a tables file: the compact JSON text (RFC 8259) of an object from their names to arrays of their rows,
/// `{"things":[{"n":1,"word":"a"}]}`. Keys stand in byte order, and the rows of a table, repeats among them, in byte order
/// of their texts; of two tables with one name the later counts. Whoever declares the tables reads the same rows back.
pub fn print_tables(alloc: Global, tables: &[TableRows]) -> Result<Text, NoMemory>
    ensures text { IfOk result (λ text. (file : Data) × IsPrinted tables.now file × (text ≡ compact_text file)) }
    ensures reads_back { IfOk result (λ text. ReadsBack tables.now text) }
{
    let file = tables_json(alloc, tables)?;
    Ok(Text::from_string(file.to_string(alloc)?))
}

fn tables_json(alloc: Global, tables: &[TableRows]) -> Result<Json, NoMemory>
    ensures words { IfOk result (λ file. list_all table_fits_words tables.now ≡ true) }
    ensures printed { IfOk result (λ file. IsPrinted tables.now (view file)) }
{
    let mut members = Map::new(alloc);
    for table in tables {
        let rows = Json::Array(sorted_rows(alloc, table.rows.as_slice())?);
        serde_json::put(&mut members, alloc, table.name.as_str(), rows)?;
    }
    Ok(Json::Object(members))
}

/// A row with its text.
#[derive(Drop)]
struct WrittenRow {
    text: Text,
    row: Json,
}

/// The rows in byte order of their texts.
fn sorted_rows(alloc: Global, rows: &[Row]) -> Result<Vec<Json>, NoMemory>
    ensures words { IfOk result (λ sorted. list_all cells_fit_words rows.now ≡ true) }
    ensures sorted { IfOk result (λ sorted. IsSortedFrom (map row_data rows.now) (map view sorted.items)) }
{
    let mut written = written_rows(alloc, rows)?;
    written.sort_by(|one, other| one.text.as_str().cmp(other.text.as_str()))?;
    taken_rows(alloc, written)
}

fn taken_rows(alloc: Global, written: Vec<WrittenRow>) -> Result<Vec<Json>, NoMemory>
    ensures { IfOk result (λ rows. rows.items ≡ map (λ (one : WrittenRow). one.row) written.items) }
{
    Ok(written.into_iter().map(|one| one.row).collect(alloc)?)
}

fn written_rows(alloc: Global, rows: &[Row]) -> Result<Vec<WrittenRow>, NoMemory>
    ensures words { IfOk result (λ written. list_all cells_fit_words rows.now ≡ true) }
    ensures rows { IfOk result (λ written. map (λ (one : WrittenRow). view one.row) written.items ≡ map row_data rows.now) }
    ensures texts { IfOk result (λ written. All (λ (one : WrittenRow). one.text ≡ compact_text (view one.row)) written.items) }
{
    let mut written = Vec::new(alloc);
    for row in rows {
        let row = row_json(alloc, row)?;
        let text = Text::from_string(row.to_string(alloc)?);
        written.push(WrittenRow { text, row })?;
    }
    Ok(written)
}

fn row_json(alloc: Global, row: &Row) -> Result<Json, NoMemory>
    ensures words { IfOk result (λ json. cells_fit_words row.now ≡ true) }
    ensures shown { IfOk result (λ json. view json ≡ row_data row.now) }
{
    let mut members = Map::new(alloc);
    for cell in row.cells.as_slice() {
        let value = base_json(alloc, &cell.value)?;
        serde_json::put(&mut members, alloc, cell.label.as_str(), value)?;
    }
    Ok(Json::Object(members))
}

fn base_json(alloc: Global, base: &Base) -> Result<Json, NoMemory>
    ensures word { IfOk result (λ json. fits_word base.now ≡ true) }
    ensures shown { IfOk result (λ json. view json ≡ base_data base.now) }
{
    match base {
        Base::Int(number) => Ok(Json::from(*number)),
        Base::Bool(truth) => Ok(Json::Bool(*truth)),
        Base::Text(text) => Ok(Json::try_from_str(alloc, text.as_str())?),
    }
}
