//! Whole queries.

ghost use Rattle.lk_sql.specs.Text.{key_text, keys_text, sql_text};
ghost use Rattle.std.specs.List.{join_by};
ghost use Rattle.std.specs.Prelude.{◌≡◌, ◌++◌, IfOk, OnOk, codes};

use crate::literals::write_name;
use crate::selects::write_selects;
use lk_ast::{NoMemory, Text};
use lk_sql::{Key, Sql};
use std::alloc::Global;

/// The text of a query: its selects with ` UNION ALL ` between, and behind them the columns by which the rows are sorted, if
/// there are any, as in `SELECT t1."l" AS "l" FROM "t" AS t1 WHERE TRUE ORDER BY "l" DESC`.
pub fn print_sql(alloc: Global, sql: &Sql) -> Result<Text, NoMemory>
    ensures { IfOk result (λ text. text ≡ sql_text sql.now) }
{
    let mut text = Text::new(alloc);
    write_selects(alloc, &mut text, sql.selects.as_slice())?;
    write_keys(&mut text, sql.keys.as_slice())?;
    Ok(text)
}

/// ` ORDER BY "l", "m" DESC`, or nothing where there are no keys.
#[tactic(auto, using(crate::proofs::Lists::texts_both))]
fn write_keys(text: &mut Text, keys: &[Key]) -> Result<(), NoMemory>
    ensures { OnOk result (text.new ≡ text.old ++ keys_text keys.now) }
{
    if keys.is_empty() {
        return Ok(());
    }
    text.push(" ORDER BY ")?;
    write_each_key(text, keys)
}

/// `"l", "m" DESC`.
#[tactic(auto, using(crate::proofs::Lists::texts_both))]
fn write_each_key(text: &mut Text, keys: &[Key]) -> Result<(), NoMemory>
    ensures { OnOk result (text.new ≡ text.old ++ join_by key_text (codes ", ") keys.now) }
{
    if let Some((first, rest)) = keys.split_first() {
        write_key(text, first)?;
        for key in rest {
            text.push(", ")?;
            write_key(text, key)?;
        }
    }
    Ok(())
}

/// `"l"`, or `"l" DESC` where the order falls.
#[tactic(auto, using(crate::proofs::Lists::texts_both))]
fn write_key(text: &mut Text, key: &Key) -> Result<(), NoMemory>
    ensures { OnOk result (text.new ≡ text.old ++ key_text key.now) }
{
    write_name(text, &key.label)?;
    if key.desc {
        return text.push(" DESC");
    }
    Ok(())
}
