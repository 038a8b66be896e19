//! What stands at the place of a query, a reading of a table, an update or a deletion.

ghost use Rattle.lk_bodies.specs.Nodes.{query_nodes};
ghost use Rattle.lk_bodies.specs.Shapes.{labels};
ghost use Rattle.lk_bodies.specs.Walk.{table};
ghost use Rattle.lk_index.specs.Free.{texts};
ghost use Rattle.lk_inline.specs.Inlined.{change_at, first_columns, inlined_at, key_of, query_at, table_labels};
ghost use Rattle.lk_inline.specs.declared.error.InlineError.TheVariants as errors;
ghost use Rattle.lk_query.specs.declared.query.Inlined.TheVariants as inlined;
ghost use Rattle.lk_sites.specs.SiteSeen.{shown};
ghost use Rattle.lk_sound.specs.Tables.{table_at};
ghost use Rattle.std.specs.Option.{option_copied};
ghost use Rattle.std.specs.Prelude.{◌≡◌, ◌≤◌, ◌<◌, ◌∷◌, [], drop, map, IfErr, IfOk, Some};

use crate::error::InlineError;
use crate::sets::sets_of;
use crate::tables::tables_by_name;
use lk_ast::{ChangeExpr, Column, Expr, List, NoMemory, Node, SortKey, TableDef, Text, Word};
use lk_bag::table_defs;
use lk_bodies::{
    Over, Walked, bound_parts, captured_at, change_uses, count_nodes, element_columns, numbered,
    query_uses, table, walk_expr, walk_fields,
};
use lk_ground::GroundProgram;
use lk_index::{Index, captured_change, captured_query};
use lk_query::{Inlined, InlinedChange, OrderedParts, Query};
use lk_sites::QuerySite;
use lk_sql::Key;
use lk_types::Ground;
use std::alloc::Global;
use std::collections::BTreeMap;
use std::marker::Model;

/// How many nodes a query may have, with the bodies of what it calls.
const NODES: u32 = 65_536;

/// A ground program with its functions and tables by their names. Contracts see the ground program that it was made of.
#[derive(Drop)]
pub struct Inliner<'g, 'p> {
    program: &'g GroundProgram<'p>,
    index: Index<'p>,
    tables: BTreeMap<String, TableDef>,
}

impl<'g, 'p> Model for Inliner<'g, 'p> {
    ghost use Rattle.lk_ast.specs.Tables.{table_defs};
    ghost use Rattle.lk_ast.specs.contracts.expression.Expr as e;
    ghost use Rattle.lk_ast.specs.contracts.signature.SigType as ty;
    ghost use Rattle.lk_ground.specs.declared.program.GroundProgram.{GroundProgram as TheProgram};
    ghost use Rattle.lk_inline.specs.Tabled.{FindsTables};
    ghost use Rattle.lk_types.specs.contracts.ground.Ground as g;
    ghost use Rattle.std.specs.Coded.{codes};
    ghost use Rattle.std.specs.Prelude.{◌≡◌};

    ghost Value = { TheProgram };

    ghost coded = { Prim.hlevel (codes, e.the_row.coded, ty.the_row.coded, g.the_row.coded) };

    ghost view = { λ inliner. inliner.program.now };

    ghost invariant = { λ inliner. (inliner.index ≡ inliner.program.now.program.now) × FindsTables inliner.tables (table_defs inliner.program.now.program.now) };
}

impl<'g, 'p> Inliner<'g, 'p> {
    /// That of a ground program. `NoMemory` where memory runs out.
    pub fn new(alloc: Global, program: &'g GroundProgram<'p>) -> Result<Inliner<'g, 'p>, NoMemory>
        ensures { IfOk result (λ inliner. inliner ≡ program.now) }
    {
        let index = Index::new(alloc, program.program)?;
        let tables = tables_by_name(alloc, table_defs(alloc, program.program)?)?;
        Ok(Inliner {
            program,
            index,
            tables,
        })
    }

    /// What stands at a site. `TooManyNodes` where with the bodies of what it calls it has more than 65,536 nodes.
    /// `NoMemory` where memory runs out, or where parts and calls stand more than 4,096 deep in one another.
    pub fn inline(&self, alloc: Global, site: &QuerySite<'g, 'p>) -> Result<Inlined, InlineError>
        ensures inlined { IfOk result (λ found. inlined_at self.now.program.now self.now.helpers (shown site.now) ≡ Some found) }
        ensures counted { IfOk result (λ _. query_nodes self.now.program.now site.now.expr.now ≤ 65536) }
        ensures too_many { IfErr result (λ error. error ≡ errors.TooManyNodes → 65536 < query_nodes self.now.program.now site.now.expr.now) }
    {
        if count_nodes(&self.index, site.expr, NODES)?.is_none() {
            return Err(InlineError::TooManyNodes);
        }
        Ok(self.inlined(alloc, site)?)
    }

    /// What stands at a site.
    fn inlined(&self, alloc: Global, site: &QuerySite<'g, 'p>) -> Result<Inlined, NoMemory>
        ensures { IfOk result (λ found. inlined_at self.now.program.now self.now.helpers (shown site.now) ≡ Some found) }
    {
        match site.expr.node.get() {
            Node::Query(keys, body) => Ok(Inlined::Query(self.query(
                alloc,
                site,
                keys.as_slice(),
                body,
            )?)),
            Node::Table(name) => Ok(Inlined::Query(reading(alloc, site.types, name)?)),
            Node::Update(change) | Node::Delete(change) => {
                Ok(Inlined::Change(self.change(alloc, site, change)?))
            }
            _ => unreachable!(),
        }
    }

    /// A query with these keys and this body.
    fn query(
        &self,
        alloc: Global,
        site: &QuerySite<'g, 'p>,
        keys: &[SortKey],
        body: &'p Expr,
    ) -> Result<Query, NoMemory>
        ensures { IfOk result (λ query. inlined.Query query ≡ query_at self.now.program.now self.now.helpers (shown site.now) keys.now body.now) }
    {
        let names = captured_query(alloc, body)?;
        let uses = query_uses(alloc, body, behind_first(site.types))?;
        let captured = captured_at(alloc, uses.as_slice(), names.as_slice())?;
        let mut numbers = numbered(alloc, 0, names.as_slice())?;
        let mut walked = Walked {
            parts: bound_parts(alloc, names.as_slice())?,
            types: behind_first(site.types),
            calls: site.calls,
        };
        let over = self.over(alloc);
        let calls = self.index.function_count();
        let root = walk_expr(&over, calls, body, &mut numbers, &mut walked)?;
        let parts = OrderedParts::new(walked.parts);
        let columns = first_columns(alloc, site.types)?;
        let keys = keys_of(alloc, keys)?;
        Ok(Query {
            parts,
            root,
            captured,
            columns,
            keys,
        })
    }

    /// An update or a deletion.
    fn change(
        &self,
        alloc: Global,
        site: &QuerySite<'g, 'p>,
        change: &'p ChangeExpr,
    ) -> Result<InlinedChange, NoMemory>
        ensures { IfOk result (λ found. inlined.Change found ≡ change_at self.now.program.now self.now.helpers (shown site.now) change.now) }
    {
        let names = captured_change(alloc, change)?;
        let uses = change_uses(alloc, change, behind_first(site.types))?;
        let captured = captured_at(alloc, uses.as_slice(), names.as_slice())?;
        let bound = with_row(alloc, change.name.text.as_str(), names.as_slice())?;
        let mut numbers = numbered(alloc, 0, bound.as_slice())?;
        let mut walked = Walked {
            parts: bound_parts(alloc, bound.as_slice())?,
            types: behind_first(site.types),
            calls: site.calls,
        };
        let over = self.over(alloc);
        let calls = self.index.function_count();
        let cond = walk_expr(&over, calls, &change.cond, &mut numbers, &mut walked)?;
        let sets = change.sets.as_slice();
        let set = walk_fields(&over, calls, sets, &mut numbers, &mut walked)?;
        let sets = sets_of(alloc, sets, set.as_slice())?;
        let labels = table_labels(alloc, self.table(&change.table.text))?;
        let parts = OrderedParts::new(walked.parts);
        Ok(InlinedChange {
            parts,
            labels,
            captured,
            cond,
            sets,
        })
    }

    /// What walks are over.
    fn over(&self, alloc: Global) -> Over<'g, 'p>
        ensures { result.helpers.now ≡ self.now.helpers }
    {
        let helpers = self.program.helpers.as_slice();
        Over { alloc, helpers }
    }

    /// The first table of this name.
    fn table(&self, name: &Text) -> Option<&TableDef>
        ensures { option_copied result ≡ table_at self.now.program.now name.now }
    {
        self.tables.get(name.as_str())
    }
}

/// The reading of a table.
fn reading(alloc: Global, types: &[Ground], name: &Word) -> Result<Query, NoMemory>
    ensures { IfOk result (λ query. query ≡ record { parts = table types.now name.now.text ∷ []; root = 0; captured = []; columns = first_columns types.now; keys = [] }) }
{
    let mut parts = List::new(alloc);
    parts.push(table(alloc, types, &name.text)?)?;
    Ok(Query {
        parts: OrderedParts::new(parts),
        root: 0,
        captured: List::new(alloc),
        columns: first_columns(alloc, types)?,
        keys: List::new(alloc),
    })
}

/// The types behind the first one.
fn behind_first(types: &[Ground]) -> &[Ground]
    ensures { result.now ≡ drop 1 types.now }
{
    match types {
        [_, rest @ ..] => rest,
        [] => types,
    }
}

/// The columns of the records in a list of the first of these types.
fn first_columns(alloc: Global, types: &[Ground]) -> Result<List<Column>, NoMemory>
    ensures { IfOk result (λ columns. columns ≡ first_columns types.now) }
{
    match types.first() {
        None => Ok(List::new(alloc)),
        Some(ty) => element_columns(alloc, ty),
    }
}

/// The keys as a query of the database has them.
fn keys_of(alloc: Global, keys: &[SortKey]) -> Result<List<Key>, NoMemory>
    ensures { IfOk result (λ found. found ≡ map key_of keys.now) }
{
    let mut found = List::new(alloc);
    for key in keys {
        let label = key.label.text.copy(alloc)?;
        found.push(Key {
            label,
            desc: key.desc,
        })?;
    }
    Ok(found)
}

/// The labels of a table's columns, if there is a table.
fn table_labels(alloc: Global, table: Option<&TableDef>) -> Result<List<Text>, NoMemory>
    ensures { IfOk result (λ labels. labels ≡ table_labels (option_copied table.entry)) }
{
    match table {
        None => Ok(List::new(alloc)),
        Some(table) => labels(alloc, table.columns.as_slice()),
    }
}

/// The labels of columns.
fn labels(alloc: Global, columns: &[Column]) -> Result<List<Text>, NoMemory>
    ensures { IfOk result (λ found. found ≡ labels columns.now) }
{
    let mut labels = List::new(alloc);
    for column in columns {
        labels.push(column.label.copy(alloc)?)?;
    }
    Ok(labels)
}

/// These names behind that of a row.
fn with_row<'p>(alloc: Global, row: &'p str, names: &[&'p str]) -> Result<List<&'p str>, NoMemory>
    ensures { IfOk result (λ all. texts all ≡ row.now ∷ texts names.now) }
{
    let mut all = List::new(alloc);
    all.push(row)?;
    for name in names {
        all.push(*name)?;
    }
    Ok(all)
}
