//! Tables by their names.

ghost use Rattle.lk_tables.specs.Named.{FindsNamed, HasPut, if_any, shown};
ghost use Rattle.lk_tables.specs.Reading.{is_named};
ghost use Rattle.std.specs.Option.{option_copied, option_map};
ghost use Rattle.std.specs.Prelude.{◌≡◌, IfOk, OnOk, filter};

use lk_ast::{List, NoMemory, TableDef};
use std::alloc::Global;
use std::collections::BTreeMap;
use std::marker::Model;

/// Tables by their names. Contracts see the list that they were made of.
#[derive(Drop)]
pub struct NamedTables<'t> {
    tables: &'t [TableDef],
    named: BTreeMap<&'t str, List<&'t TableDef>>,
}

impl<'t> Model for NamedTables<'t> {
    ghost use Rattle.lk_ast.specs.declared.table.TableDef.{TableDef as TheTable};
    ghost use Rattle.lk_tables.specs.Named.{FindsNamed};
    ghost use Rattle.std.specs.Prelude.{List};

    ghost Value = { List TheTable };

    ghost view = { λ it. it.tables.now };

    ghost invariant = { λ it. FindsNamed it.named it.tables.now };
}

impl<'t> NamedTables<'t> {
    /// These tables. `NoMemory` where memory runs out.
    pub fn new(alloc: Global, tables: &'t [TableDef]) -> Result<NamedTables<'t>, NoMemory>
        ensures { IfOk result (λ made. made ≡ tables.now) }
    {
        let named = by_name(alloc, tables)?;
        Ok(NamedTables { tables, named })
    }

    /// The tables of this name in their order, if there are any.
    pub fn get(&self, name: &str) -> Option<&List<&'t TableDef>>
        ensures { option_map shown (option_copied result) ≡ if_any (filter (is_named name.now) self.now) }
    {
        self.named.get(name)
    }
}

fn by_name<'t>(
    alloc: Global,
    tables: &'t [TableDef],
) -> Result<BTreeMap<&'t str, List<&'t TableDef>>, NoMemory>
    ensures { IfOk result (λ named. FindsNamed named tables.now) }
{
    let mut named = BTreeMap::new(alloc);
    for table in tables {
        put(alloc, &mut named, table)?;
    }
    Ok(named)
}

/// Puts a table behind those of its name.
fn put<'t>(
    alloc: Global,
    named: &mut BTreeMap<&'t str, List<&'t TableDef>>,
    table: &'t TableDef,
) -> Result<(), NoMemory>
    ensures { OnOk result (HasPut table.now named.old named.new) }
{
    let same = named
        .entry(table.name.as_str())?
        .or_insert(List::new(alloc));
    same.push(table)
}
