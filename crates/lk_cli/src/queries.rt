//! What `sql` prints for a program.

ghost use Rattle.std.specs.Prelude.{◌≡◌, IfOk};
ghost use Rattle.lk_cli.specs.Report.{query_line, query_lines};

use lk_ast::{NoMemory, Text};
use lk_sqltext::print_sql;
use lk_translate::{Code, Translated};
use std::alloc::Global;

/// A line for each query and each reading of a table, in the order of their labels.
pub fn print_queries(alloc: Global, queries: &[Translated]) -> Result<Text, NoMemory>
    ensures { IfOk result (λ text. text ≡ query_lines queries.now) }
{
    let mut text = Text::new(alloc);
    for query in queries {
        text.push(line_of_query(alloc, query)?.as_str())?;
    }
    Ok(text)
}

/// `LABEL SQL`; an update or a deletion has no line.
fn line_of_query(alloc: Global, query: &Translated) -> Result<Text, NoMemory>
    ensures { IfOk result (λ line. line ≡ query_line query.now) }
{
    match &query.code {
        Code::Select(sql) => {
            let sql = print_sql(alloc, sql)?;
            let line = format!(in alloc; "{} {}\n", query.label, sql.as_str())?;
            Ok(Text::from_string(line))
        }
        Code::Change(_) => Ok(Text::new(alloc)),
    }
}
