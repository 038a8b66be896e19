//! What a program has at a name or a place, and its tables.

ghost use Rattle.std.specs.Option.{option_copied};
ghost use Rattle.std.specs.Prelude.{◌≡◌, IfOk};
ghost use Rattle.lk_ast.specs.Tables.{table_defs as defs_of};
ghost use Rattle.lk_bag.specs.Blocks.{block_at};
ghost use Rattle.lk_sem.specs.TablePlaces.{FindsPlaces};
ghost use Rattle.lk_sound.specs.Tables.{table_at};

use lk_ast::{Expr, List, NoMemory, Program, TableDef, Text};
use lk_bag::{Blocks, table_defs};
use lk_index::Index;
use std::alloc::Global;
use std::collections::BTreeMap;
use std::marker::Model;

/// The functions and lambdas of a program, what acts on tables in it, and its tables with their places by their names.
/// Contracts see the program that it was made of.
#[derive(Drop)]
pub struct Catalog<'p> {
    index: Index<'p>,
    blocks: Blocks<'p>,
    defs: List<TableDef>,
    places: BTreeMap<String, usize>,
}

impl<'p> Model for Catalog<'p> {
    ghost use Rattle.lk_ast.specs.Tables.{table_defs};
    ghost use Rattle.lk_ast.specs.contracts.expression.Expr as e;
    ghost use Rattle.lk_ast.specs.contracts.signature.SigType as ty;
    ghost use Rattle.lk_ast.specs.declared.declaration.Program.{Program as TheProgram};
    ghost use Rattle.lk_sem.specs.TablePlaces.{FindsPlaces};
    ghost use Rattle.std.specs.Coded.{codes};
    ghost use Rattle.std.specs.Prelude.{◌≡◌};

    ghost Value = { TheProgram };

    ghost coded = { Prim.hlevel (codes, e.the_row.coded, ty.the_row.coded) };

    ghost view = { λ catalog. catalog.index };

    ghost invariant = { λ catalog. (catalog.blocks ≡ catalog.index) × (catalog.defs ≡ table_defs catalog.index) × FindsPlaces catalog.places catalog.defs };
}

impl<'p> Catalog<'p> {
    /// That of a program. `NoMemory` where memory runs out.
    pub fn new(alloc: Global, program: &'p Program) -> Result<Catalog<'p>, NoMemory>
        ensures { IfOk result (λ catalog. catalog ≡ program.now) }
    {
        let index = Index::new(alloc, program)?;
        let blocks = Blocks::new(alloc, program)?;
        let defs = table_defs(alloc, program)?;
        let places = places_by_name(alloc, defs.as_slice())?;
        Ok(Catalog {
            index,
            blocks,
            defs,
            places,
        })
    }

    /// The functions and lambdas.
    pub fn index(&self) -> &Index<'p>
        ensures { result.now ≡ self.now }
    {
        &self.index
    }

    /// The tables, in text order.
    pub fn tables(&self) -> &[TableDef]
        ensures { result.now ≡ defs_of self.now }
    {
        self.defs.as_slice()
    }

    /// The first table of this name.
    pub fn table(&self, name: &Text) -> Option<&TableDef>
        ensures { option_copied result ≡ table_at self.now name.now }
    {
        match self.places.get(name.as_str()) {
            Some(place) => self.defs.get(*place),
            None => None,
        }
    }

    /// The first query, reading or change of tables that begins at this place.
    pub fn block(&self, site: u32) -> Option<&'p Expr>
        ensures { option_copied result ≡ block_at self.now site }
    {
        self.blocks.at(site)
    }
}

/// The places of tables by their names, the first where a name comes twice.
fn places_by_name(alloc: Global, defs: &[TableDef]) -> Result<BTreeMap<String, usize>, NoMemory>
    ensures { IfOk result (λ places. FindsPlaces places defs.now) }
{
    let mut places = BTreeMap::new(alloc);
    for place in (0..defs.len()).rev() {
        let name = String::from_str(alloc, defs[place].name.as_str())?;
        places.insert(name, place)?;
    }
    Ok(places)
}
