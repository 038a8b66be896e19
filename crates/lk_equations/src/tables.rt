//! The tables of a program by their names.

ghost use Rattle.std.specs.Option.{option_copied};
ghost use Rattle.std.specs.Prelude.{◌≡◌, IfOk, bytes_eq, find};
ghost use Rattle.lk_typing.specs.Names.{table_named};
ghost use Rattle.lk_ast.specs.Tables.{tables_of};

use crate::proper::make_row;
use crate::scope::Scope;
use lk_ast::{Decl, NoMemory, Program, TableDecl};
use std::alloc::Global;
use std::marker::Model;

/// The tables of a program, in text order.
#[derive(Drop)]
pub struct Tables<'p> {
    tables: Scope<'p, &'p TableDecl>,
}

impl<'p> Model for Tables<'p> {
    ghost use Rattle.std.specs.Prelude.{List, map};
    ghost use Rattle.std.specs.Coded.{coded_list};
    ghost use Rattle.lk_ast.specs.contracts.declaration.TableDecl as t;
    ghost use Rattle.lk_ast.specs.declared.declaration.TableDecl.{TableDecl as TheTable};
    ghost use Rattle.lk_equations.specs.Tabled.{AreNamed};

    ghost Value = { List TheTable };

    ghost coded = { coded_list t.the_row.coded };

    ghost view = { λ tables. map (λ entry. entry.1.now) tables.tables };

    ghost invariant = { λ tables. AreNamed tables.tables };
}

impl<'p> Tables<'p> {
    /// The tables of a program. The first of a name is the last to come, so that it hides the others.
    pub fn of(alloc: Global, program: &'p Program) -> Result<Tables<'p>, NoMemory>
        ensures { IfOk result (λ tables. tables ≡ tables_of program.now) }
    {
        let mut tables = Scope::new(alloc);
        for decl in program.decls.as_slice().iter().rev() {
            if let Decl::Table(table) = decl {
                tables.push(table.name.text.as_str(), table)?;
            }
        }
        Ok(Tables { tables })
    }

    /// The first table of that name, if its columns make a row.
    pub fn get(&self, alloc: Global, name: &str) -> Result<Option<&'p TableDecl>, NoMemory>
        ensures { IfOk result (λ found. option_copied found ≡ table_named self.now name.now) }
    {
        match self.first(name) {
            Some(table) => {
                if make_row(alloc, table.columns.as_slice())? {
                    Ok(Some(table))
                } else {
                    Ok(None)
                }
            }
            None => Ok(None),
        }
    }

    /// The first table of that name.
    fn first(&self, name: &str) -> Option<&'p TableDecl>
        ensures { option_copied result ≡ find (λ table. bytes_eq table.name.text name.now) self.now }
    {
        match self.tables.get(name) {
            Some(table) => Some(*table),
            None => None,
        }
    }
}
