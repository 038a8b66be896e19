//! Columns that make a row.

ghost use Rattle.std.specs.Prelude.{◌≡◌, IfOk, is_some, map};
ghost use Rattle.lk_types.specs.Rows.{no_fields};
ghost use Rattle.lk_typing.specs.Names.{column as the_column};
ghost use Rattle.lk_typing.specs.Types.{with_fields};

use lk_ast::{BaseKind, ColumnDecl, NoMemory};
use std::alloc::Global;
use std::collections::BTreeMap;

/// Whether the columns make a row: no label is there twice.
pub fn make_row(alloc: Global, columns: &[ColumnDecl]) -> Result<bool, NoMemory>
    ensures { IfOk result (λ made. made ≡ is_some (with_fields (map the_column columns.now) no_fields)) }
{
    let mut row: BTreeMap<&str, BaseKind> = BTreeMap::new(alloc);
    for column in columns.iter().rev() {
        let twice = row.insert(column.label.text.as_str(), column.kind)?;
        if twice.is_some() {
            return Ok(false);
        }
    }
    Ok(true)
}
