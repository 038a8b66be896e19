//! The tables of a program by their names.

ghost use Rattle.lk_inline.specs.Tabled.{FindsTables};
ghost use Rattle.std.specs.Prelude.{IfOk};

use lk_ast::{List, NoMemory, TableDef};
use std::alloc::Global;
use std::collections::BTreeMap;

/// Tables by their names, the first where a name comes twice.
pub fn tables_by_name(
    alloc: Global,
    tables: List<TableDef>,
) -> Result<BTreeMap<String, TableDef>, NoMemory>
    ensures { IfOk result (λ map. FindsTables map tables) }
{
    let mut map = BTreeMap::new(alloc);
    let mut left = tables;
    while let Some(table) = left.pop() {
        let name = String::from_str(alloc, table.name.as_str())?;
        map.insert(name, table)?;
    }
    Ok(map)
}
