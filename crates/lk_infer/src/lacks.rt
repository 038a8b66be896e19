//! What variables of rows lack because of the rows that they end.

ghost use Rattle.lk_infer.specs.Generalised.{IsIn};
ghost use Rattle.lk_infer.specs.Lacks.{shown, shown_in_row, tail_lacks};
ghost use Rattle.lk_infer.specs.LacksInOrder.{has_lack, lack_of, level_lacks, marked_lacks, row_lacks, with_lack, with_lacks, AreInOrder};
ghost use Rattle.lk_types.specs.declared.ty.RowTail.TheVariants as tail;
ghost use Rattle.lk_types.specs.declared.scheme.Lack.{Lack as TheLack};
ghost use Rattle.std.specs.BTreeSet.{contains};
ghost use Rattle.std.specs.List.{filter};
ghost use Rattle.std.specs.Ordering.{nat_cmp};
ghost use Rattle.std.specs.Prelude.{◌≡◌, ◌↔◌, ◌&&◌, cond, not, [], IfOk, OnOk, flat_map, length, map};

use lk_ast::{List, NoMemory, Text};
use lk_types::{Lack, Level, LevelField, LevelRow, RowTail, Ty, TyField, TyRow, Types, marked};
use std::alloc::Global;
use std::collections::BTreeSet;
use std::marker::Model;

/// Labels that stand before variables of rows, in the order of the variables, then in byte order of the labels, each once.
/// Contracts see them as lacks.
#[derive(Drop)]
pub struct Shown {
    pairs: BTreeSet<(u32, String)>,
}

impl Model for Shown {
    ghost use Rattle.lk_infer.specs.LacksInOrder.{lack_of};
    ghost use Rattle.lk_types.specs.contracts.scheme.Lack as lack;
    ghost use Rattle.lk_types.specs.declared.scheme.Lack.{Lack};
    ghost use Rattle.std.specs.Coded.{coded_list};
    ghost use Rattle.std.specs.Prelude.{List, map};

    ghost Value = { List Lack };

    ghost coded = { coded_list lack.the_row.coded };

    ghost view = { λ shown. map lack_of shown.pairs.keys };
}

impl Shown {
    /// Nothing is shown yet.
    pub fn new(alloc: Global) -> Shown
        ensures { result ≡ [] }
    {
        Shown {
            pairs: BTreeSet::new(alloc),
        }
    }

    /// This label stands before this variable.
    fn insert(&mut self, alloc: Global, var: u32, label: &str) -> Result<(), NoMemory>
        ensures { OnOk result (self.new ≡ with_lack self.old (record { var = var; label = label.now })) }
    {
        let label = String::from_str(alloc, label)?;
        self.pairs.insert((var, label))?;
        Ok(())
    }

    /// Whether this label stands before this variable.
    fn has(&self, pair: &(u32, String)) -> bool
        ensures { result ≡ has_lack self.now (lack_of pair.now) }
    {
        self.pairs.contains(pair)
    }

    /// Those of these variables that `others` hasn't, as lacks.
    pub fn without(
        &self,
        alloc: Global,
        rows: &BTreeSet<u32>,
        others: &Shown,
    ) -> Result<List<Lack>, NoMemory>
        ensures { IfOk result (λ lacks. lacks ≡ filter (λ lack. contains nat_cmp rows.now lack.var && not (has_lack others.now lack)) self.now) }
    {
        let mut lacks = List::new(alloc);
        for pair in &self.pairs {
            if is_left(rows, others, pair) {
                let label = Text::from_str(alloc, pair.1.as_str())?;
                lacks.push(Lack { var: pair.0, label })?;
            }
        }
        Ok(lacks)
    }
}

/// Whether the variable is among these, and the label isn't shown.
fn is_left(rows: &BTreeSet<u32>, others: &Shown, pair: &(u32, String)) -> bool
    ensures { result ≡ (contains nat_cmp rows.now pair.now.0 && not (has_lack others.now (lack_of pair.now))) }
{
    rows.contains(&pair.0) && !others.has(pair)
}

/// What types show.
pub fn all_shown(alloc: Global, types: &Types) -> Result<Shown, NoMemory>
    ensures members { IfOk result (λ found. (lack : TheLack) → IsIn lack found ↔ IsIn lack (flat_map shown types.now)) }
    ensures ordered { IfOk result (λ found. AreInOrder found) }
{
    let table = types.parts();
    let marks = marked(alloc, table.0, table.1)?;
    let mut found = Shown::new(alloc);
    insert_marked(alloc, &mut found, table.0, marks.as_slice())?;
    Ok(found)
}

/// Adds the labels before the tails of the rows of marked levels.
fn insert_marked(
    alloc: Global,
    found: &mut Shown,
    levels: &[Level],
    marks: &[bool],
) -> Result<(), NoMemory>
    requires { length marks.now ≡ length levels.now }
    ensures { OnOk result (found.new ≡ with_lacks found.old (marked_lacks levels.now marks.now)) }
{
    for place in 0..levels.len() {
        insert_level(alloc, found, &levels[place], marks[place])?;
    }
    Ok(())
}

/// Adds the labels before the tail of a level's row, if it is marked.
fn insert_level(
    alloc: Global,
    found: &mut Shown,
    level: &Level,
    is_marked: bool,
) -> Result<(), NoMemory>
    ensures { OnOk result (found.new ≡ with_lacks found.old (cond is_marked (level_lacks level.now) [])) }
{
    if !is_marked {
        return Ok(());
    }
    match level {
        Level::Fields(row) | Level::Tags(row) => insert_level_row(alloc, found, row),
        Level::Int
        | Level::Bool
        | Level::Text
        | Level::List(_)
        | Level::Fun(_, _, _)
        | Level::Var(_) => Ok(()),
    }
}

/// Adds the labels before a tail.
fn insert_level_row(alloc: Global, found: &mut Shown, row: &LevelRow) -> Result<(), NoMemory>
    ensures { OnOk result (found.new ≡ with_lacks found.old (row_lacks row.now)) }
{
    match row.tail {
        RowTail::Closed => Ok(()),
        RowTail::Var(var) => insert_level_labels(alloc, found, row.fields.as_slice(), var),
    }
}

/// Adds the labels before a variable.
fn insert_level_labels(
    alloc: Global,
    found: &mut Shown,
    fields: &[LevelField],
    var: u32,
) -> Result<(), NoMemory>
    ensures { OnOk result (found.new ≡ with_lacks found.old (tail_lacks (map (λ f. f.label) fields.now) (tail.Var var))) }
{
    for field in fields {
        found.insert(alloc, var, field.label.as_str())?;
    }
    Ok(())
}

/// Adds what a type shows.
#[cycle(shown)]
#[tactic(auto, using(crate::proofs::LackSets::with_both, crate::proofs::ShownUnfold::shown_int, crate::proofs::ShownUnfold::shown_bool, crate::proofs::ShownUnfold::shown_text, crate::proofs::ShownUnfold::shown_list, crate::proofs::ShownUnfold::shown_fields, crate::proofs::ShownUnfold::shown_tags, crate::proofs::ShownUnfold::shown_function, crate::proofs::ShownUnfold::shown_variable))]
pub fn insert_shown(alloc: Global, found: &mut Shown, ty: &Ty) -> Result<(), NoMemory>
    ensures { OnOk result (found.new ≡ with_lacks found.old (shown ty.now)) }
{
    match ty {
        Ty::Int | Ty::Bool | Ty::Text | Ty::Var(_) => Ok(()),
        Ty::List(item) => insert_shown(alloc, found, item.get()),
        Ty::Fields(row) | Ty::Tags(row) => insert_row(alloc, found, row),
        Ty::Fun(params, _effects, answer) => {
            insert_all(alloc, found, params.as_slice())?;
            insert_shown(alloc, found, answer.get())
        }
    }
}

#[cycle(shown)]
#[tactic(auto, using(crate::proofs::LackSets::with_both))]
fn insert_all(alloc: Global, found: &mut Shown, types: &[Ty]) -> Result<(), NoMemory>
    ensures { OnOk result (found.new ≡ with_lacks found.old (flat_map shown types.now)) }
{
    for ty in types {
        insert_shown(alloc, found, ty)?;
    }
    Ok(())
}

#[cycle(shown)]
#[tactic(auto, using(crate::proofs::LackSets::with_both, crate::proofs::ShownUnfold::shown_row))]
fn insert_row(alloc: Global, found: &mut Shown, row: &TyRow) -> Result<(), NoMemory>
    ensures { OnOk result (found.new ≡ with_lacks found.old (shown_in_row row.now)) }
{
    let fields = row.fields.as_slice();
    insert_fields(alloc, found, fields)?;
    insert_labels(alloc, found, fields, row.tail)
}

#[cycle(shown)]
#[tactic(auto, using(crate::proofs::LackSets::with_both))]
fn insert_fields(alloc: Global, found: &mut Shown, fields: &[TyField]) -> Result<(), NoMemory>
    ensures { OnOk result (found.new ≡ with_lacks found.old (flat_map (λ f. shown f.ty) fields.now)) }
{
    for field in fields {
        insert_shown(alloc, found, &field.ty)?;
    }
    Ok(())
}

/// Adds the labels before a tail.
fn insert_labels(
    alloc: Global,
    found: &mut Shown,
    fields: &[TyField],
    tail: RowTail,
) -> Result<(), NoMemory>
    ensures { OnOk result (found.new ≡ with_lacks found.old (tail_lacks (map (λ f. f.label) fields.now) tail)) }
{
    match tail {
        RowTail::Closed => Ok(()),
        RowTail::Var(var) => insert_before(alloc, found, fields, var),
    }
}

/// Adds the labels before a variable.
fn insert_before(
    alloc: Global,
    found: &mut Shown,
    fields: &[TyField],
    var: u32,
) -> Result<(), NoMemory>
    ensures { OnOk result (found.new ≡ with_lacks found.old (tail_lacks (map (λ f. f.label) fields.now) (tail.Var var))) }
{
    for field in fields {
        found.insert(alloc, var, field.label.as_str())?;
    }
    Ok(())
}
