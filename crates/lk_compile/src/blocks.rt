//! What labels run at the server.

ghost use Rattle.lk_compile.specs.Blocks.{AreRun, Changes, HasCode, OfAll, Runs, Takes};
ghost use Rattle.lk_translate.specs.declared.translated.Code.TheVariants as code;
ghost use Rattle.std.specs.Option.{option_copied};
ghost use Rattle.std.specs.Prelude.{◌≡◌, ◌==◌, IfOk, Some, bytes_eq, find, reverse};

use lk_ast::{Column, List, NoMemory, TableDef, Text};
use lk_code::{BlockCode, CodeTables, FunKind};
use lk_ir::Touched;
use lk_sql::{Change, Sql};
use lk_translate::{Code, Translated};
use std::alloc::Global;

/// Which tables labels change, and the tables of the program.
#[derive(Clone, Copy)]
struct Sources<'t> {
    touched: &'t [Touched],
    defs: &'t [TableDef],
}

/// How many columns are copied at the most: each label that changes a table has that table's.
const MOST_COLUMNS: usize = 4_194_304;

/// What each label runs at the server. What is translated comes in the order of labels. `NoMemory` also where as many labels change
/// tables as could have over 4,194,304 columns in all, and where a label has nothing to run, which isn't so in a program.
pub fn all_blocks(
    alloc: Global,
    tables: &CodeTables,
    defs: &[TableDef],
    queries: List<Translated>,
) -> Result<List<Option<BlockCode>>, NoMemory>
    ensures { IfOk result (AreRun tables.now.forms.tables defs.now queries tables.now.funs) }
{
    let sources = Sources {
        touched: tables.forms.get().tables.as_slice(),
        defs,
    };
    if !has_room(sources) {
        return Err(NoMemory);
    }
    let mut left = backwards(queries);
    let mut blocks = List::new(alloc);
    let mut label: u32 = 0;
    for info in tables.funs.as_slice() {
        blocks.push(block(alloc, sources, info.kind, label, &mut left)?)?;
        label = label.checked_add(1).ok_or(NoMemory)?;
    }
    Ok(blocks)
}

/// Whether there is room for the columns of each label that changes a table, if all had the most.
fn has_room(sources: Sources<'_>) -> bool {
    let mut most: usize = 0;
    for def in sources.defs {
        let count = def.columns.len();
        if most < count {
            most = count;
        }
    }
    match sources.touched.len().checked_mul(most) {
        Some(columns) => columns <= MOST_COLUMNS,
        None => false,
    }
}

/// The last one first.
fn backwards(queries: List<Translated>) -> List<Translated>
    ensures { result ≡ reverse queries }
{
    let mut queries = queries.into_vec();
    queries.reverse();
    List::from_vec(queries)
}

/// What a label of this kind runs at the server, if anything. What is translated for it is the last one that is left.
fn block(
    alloc: Global,
    sources: Sources<'_>,
    kind: FunKind,
    label: u32,
    left: &mut List<Translated>,
) -> Result<Option<BlockCode>, NoMemory>
    ensures runs { IfOk result (λ found. OfAll left.old (λ all. Runs sources.entry.touched.now sources.entry.defs.now all label kind found)) }
    ensures left { IfOk result (λ _. Takes left.old left.new) }
{
    match kind {
        FunKind::Print | FunKind::Top | FunKind::Lambda => Ok(None),
        FunKind::Query | FunKind::TableRead => {
            let sql = select(label, left)?;
            Ok(Some(BlockCode::Select(sql)))
        }
        FunKind::Insert => {
            let def = changed_table(alloc, sources, label)?;
            Ok(Some(BlockCode::Insert(def)))
        }
        FunKind::Update => {
            let change = change(label, left)?;
            let def = changed_table(alloc, sources, label)?;
            Ok(Some(BlockCode::Update(def, change)))
        }
        FunKind::Delete => {
            let change = change(label, left)?;
            let def = changed_table(alloc, sources, label)?;
            Ok(Some(BlockCode::Delete(def, change)))
        }
    }
}

/// The SQL of a query or a reading.
fn select(label: u32, left: &mut List<Translated>) -> Result<Sql, NoMemory>
    ensures code { IfOk result (λ sql. OfAll left.old (λ all. HasCode all label (code.Select sql))) }
    ensures left { IfOk result (λ _. Takes left.old left.new) }
{
    match next_code(label, left)? {
        Code::Select(sql) => Ok(sql),
        Code::Change(_) => Err(NoMemory),
    }
}

/// The change that an update or a deletion makes.
fn change(label: u32, left: &mut List<Translated>) -> Result<Change, NoMemory>
    ensures code { IfOk result (λ change. OfAll left.old (λ all. HasCode all label (code.Change change))) }
    ensures left { IfOk result (λ _. Takes left.old left.new) }
{
    match next_code(label, left)? {
        Code::Change(change) => Ok(change),
        Code::Select(_) => Err(NoMemory),
    }
}

/// The last one that is left, which has to be of this label.
#[tactic(auto, using(crate::proofs::Taking::has_taken, crate::proofs::Taking::one_taken))]
fn next_code(label: u32, left: &mut List<Translated>) -> Result<Code, NoMemory>
    ensures code { IfOk result (λ code. OfAll left.old (λ all. HasCode all label code)) }
    ensures left { IfOk result (λ _. Takes left.old left.new) }
{
    match left.pop() {
        Some(one) => code_of(one, label),
        None => Err(NoMemory),
    }
}

/// The code of one that is translated, if it is of this label.
fn code_of(one: Translated, label: u32) -> Result<Code, NoMemory>
    ensures { IfOk result (λ code. (one.label ≡ label) × (one.code ≡ code)) }
{
    let Translated {
        label: own,
        span: _,
        code,
    } = one;
    if own == label {
        Ok(code)
    } else {
        Err(NoMemory)
    }
}

/// The table that what has this label changes.
fn changed_table(alloc: Global, sources: Sources<'_>, label: u32) -> Result<TableDef, NoMemory>
    ensures { IfOk result (Changes sources.entry.touched.now sources.entry.defs.now label) }
{
    match touched_by(sources.touched, label) {
        Some(one) => table_named(alloc, sources.defs, &one.table),
        None => Err(NoMemory),
    }
}

/// The table of this name once more.
fn table_named(alloc: Global, defs: &[TableDef], name: &Text) -> Result<TableDef, NoMemory>
    ensures { IfOk result (λ def. find (λ other. bytes_eq other.name name.now) defs.now ≡ Some def) }
{
    match def_of(defs, name) {
        Some(def) => copy_def(alloc, def),
        None => Err(NoMemory),
    }
}

/// What is told of this label.
fn touched_by(touched: &[Touched], label: u32) -> Option<&Touched>
    ensures { option_copied result ≡ find (λ one. one.label == label) touched.now }
{
    touched.iter().find(|one| one.label == label)
}

/// The first table of this name.
fn def_of<'d>(defs: &'d [TableDef], name: &Text) -> Option<&'d TableDef>
    ensures { option_copied result ≡ find (λ other. bytes_eq other.name name.now) defs.now }
{
    defs.iter().find(|other| other.name.equals(name))
}

/// A table's name and columns once more.
fn copy_def(alloc: Global, def: &TableDef) -> Result<TableDef, NoMemory>
    ensures { IfOk result (λ copy. copy ≡ def.now) }
{
    Ok(TableDef {
        name: def.name.copy(alloc)?,
        columns: copy_columns(alloc, def.columns.as_slice())?,
    })
}

fn copy_columns(alloc: Global, columns: &[Column]) -> Result<List<Column>, NoMemory>
    ensures { IfOk result (λ copy. copy ≡ columns.now) }
{
    let mut copy = List::new(alloc);
    for column in columns {
        copy.push(copy_column(alloc, column)?)?;
    }
    Ok(copy)
}

fn copy_column(alloc: Global, column: &Column) -> Result<Column, NoMemory>
    ensures { IfOk result (λ copy. copy ≡ column.now) }
{
    Ok(Column {
        label: column.label.copy(alloc)?,
        kind: column.kind,
    })
}
