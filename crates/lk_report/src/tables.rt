//! Lines of tables.

ghost use Rattle.std.specs.Prelude.{IfOk};
ghost use Rattle.lk_report.specs.Lines.{IsTablesLine};

use lk_ast::{NoMemory, TableRows, Text};
use lk_tables::print_tables;
use std::alloc::Global;

/// The line of the declared tables, if there are any.
pub fn line_of_tables(alloc: Global, tables: &[TableRows]) -> Result<Text, NoMemory>
    ensures { IfOk result (IsTablesLine tables.now) }
{
    if tables.is_empty() {
        return Ok(Text::new(alloc));
    }
    let object = print_tables(alloc, tables)?;
    let line = format!(in alloc; "tables {}\n", object.as_str())?;
    Ok(Text::from_string(line))
}
