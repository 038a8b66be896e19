//! The tables that a program declares.

ghost use Rattle.std.specs.FinMap as finite;
ghost use Rattle.std.specs.Prelude.{◌≡◌, ◌++◌, IfOk, OnOk, map};
ghost use Rattle.lk_ast.specs.Tables.{kinds as kinds_by_label, table_def as def_of, table_defs as defs_of, tables_in};
ghost use Rattle.lk_bag.specs.Columns.{columns_of};

use lk_ast::{
    BaseKind, Column, ColumnDecl, Decl, List, NoMemory, Program, TableDecl, TableDef, Text,
};
use std::alloc::Global;
use std::collections::BTreeMap;
use std::marker::Model;

/// The kinds of columns by their labels.
#[derive(Drop)]
struct Kinds {
    kinds: BTreeMap<String, BaseKind>,
}

impl Model for Kinds {
    ghost use Rattle.std.specs.Prelude.{map, string_bytes};
    ghost use Rattle.std.specs.Coded.{coded_list, coded_ℕ};
    ghost use Rattle.std.specs.Cmp.Lexicographic.{slice_cmp};
    ghost use Rattle.std.specs.FinMap as finite;
    ghost use Rattle.std.specs.Ordering.{nat_cmp};
    ghost use Rattle.lk_ast.specs.contracts.table.BaseKind as k;
    ghost use Rattle.lk_ast.specs.declared.table.BaseKind.{BaseKind as TheKind};

    ghost Value = { finite.FinMap (slice_cmp nat_cmp) TheKind };

    ghost coded = { finite.code (coded_list coded_ℕ) k.the_row.coded };

    ghost view = { λ e. finite.from_sorted (map (λ x. (string_bytes x.0, x.1)) e.kinds.entries) };
}

impl Kinds {
    /// No column yet.
    fn new(alloc: Global) -> Kinds
        ensures { result ≡ finite.empty }
    {
        Kinds {
            kinds: BTreeMap::new(alloc),
        }
    }

    /// The kind of a column, in place of one with that label that is there.
    fn insert(&mut self, alloc: Global, label: &str, kind: BaseKind) -> Result<(), NoMemory>
        ensures { OnOk result (self.new ≡ finite.insert self.old label.now kind) }
    {
        let label = String::from_str(alloc, label)?;
        self.kinds.insert(label, kind)?;
        Ok(())
    }

    /// The columns in byte order of their labels.
    fn into_columns(self, alloc: Global) -> Result<List<Column>, NoMemory>
        ensures { IfOk result (λ columns. columns ≡ columns_of self) }
    {
        let mut columns = List::new(alloc);
        for (label, kind) in self.kinds {
            let label = Text::from_string(label);
            columns.push(Column { label, kind })?;
        }
        Ok(columns)
    }
}

/// The kinds of columns by their labels, the first where a label is there twice.
fn kinds_of(alloc: Global, columns: &[ColumnDecl]) -> Result<Kinds, NoMemory>
    ensures { IfOk result (λ kinds. kinds ≡ kinds_by_label columns.now) }
{
    let mut kinds = Kinds::new(alloc);
    for column in columns.iter().rev() {
        kinds.insert(alloc, column.label.text.as_str(), column.kind)?;
    }
    Ok(kinds)
}

/// The definition of a table.
fn table_def(alloc: Global, table: &TableDecl) -> Result<TableDef, NoMemory>
    ensures { IfOk result (λ def. def ≡ def_of table.now) }
{
    let name = table.name.text.copy(alloc)?;
    let columns = kinds_of(alloc, table.columns.as_slice())?.into_columns(alloc)?;
    Ok(TableDef { name, columns })
}

/// The tables of a declaration too.
fn add_tables(alloc: Global, defs: &mut List<TableDef>, decl: &Decl) -> Result<(), NoMemory>
    ensures { OnOk result (defs.new ≡ defs.old ++ map def_of (tables_in decl.now)) }
{
    match decl {
        Decl::Table(table) => defs.push(table_def(alloc, table)?),
        Decl::Fun(_) => Ok(()),
        Decl::Mutual(_) => Ok(()),
    }
}

/// The definitions of the tables that a program declares, in text order. `NoMemory` where memory runs out.
pub fn table_defs(alloc: Global, program: &Program) -> Result<List<TableDef>, NoMemory>
    ensures { IfOk result (λ defs. defs ≡ defs_of program.now) }
{
    let mut defs = List::new(alloc);
    for decl in program.decls.as_slice() {
        add_tables(alloc, &mut defs, decl)?;
    }
    Ok(defs)
}
