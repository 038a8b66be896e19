//! Types as levels whose parts are named by their places.

ghost use Rattle.lk_types.specs.Levels.{at, built, field_renumbered, level_renumbered, row_made, row_parts, row_renumbered, types_at, AreBelow, IsTable};
ghost use Rattle.lk_types.specs.Moves.{renumbered};
ghost use Rattle.lk_types.specs.Each.{Each};
ghost use Rattle.lk_types.specs.Names.{place_in};
ghost use Rattle.lk_types.specs.OneTypes.{level_renamed, level_row_renamed};
ghost use Rattle.lk_types.specs.Sizes.{most_nodes, nodes};
ghost use Rattle.std.specs.List.{list_any};
ghost use Rattle.std.specs.Prelude.{◌≡◌, ◌<◌, ◌++◌, ◌∷◌, [], drop, IfOk, OnOk, length, map, nat_lt, Some, slice_get, take};

use crate::counts::{any_over, level_counts};
use crate::moves::{Numbering, count_of, kept_levels, moved_levels, moved_numbers, some_numbers};
use crate::names::Names;
use crate::one_type::OneType;
use crate::places::Places;
use crate::planting::push_tree;
use crate::ty::{Effects, RowTail, Ty, TyField, TyRow, Variable};
use lk_ast::{Boxed, List, NoMemory, Text};
use std::alloc::Global;
use std::marker::Model;

/// A field whose type stands at that place.
#[derive(Drop)]
pub struct LevelField {
    pub label: Text,
    pub part: u32,
}

/// A row whose types stand at places.
#[derive(Drop)]
pub struct LevelRow {
    pub fields: List<LevelField>,
    pub tail: RowTail,
}

/// One level of a type, its parts by their places.
pub enum Level {
    Int,
    Bool,
    Text,
    List(u32),
    Fields(LevelRow),
    Tags(LevelRow),
    /// Parameters, effects and result.
    Fun(List<u32>, Effects, u32),
    Var(u32),
}

impl Drop for Level {
    fn drop(self) {
        match self {
            Self::Int => {}
            Self::Bool => {}
            Self::Text => {}
            Self::List(_) => {}
            Self::Fields(_) => {}
            Self::Tags(_) => {}
            Self::Fun(_, _, _) => {}
            Self::Var(_) => {}
        }
    }
}

impl Level {
    /// The level with new numbers for its variables.
    pub fn renamed(self, names: &Names, first: u32) -> Result<Level, NoMemory>
        ensures { IfOk result (λ made. made ≡ level_renamed (place_in first names.now) self) }
    {
        match self {
            Self::Int => Ok(Self::Int),
            Self::Bool => Ok(Self::Bool),
            Self::Text => Ok(Self::Text),
            Self::List(part) => Ok(Self::List(part)),
            Self::Fields(row) => row.renamed(names, first).map(Self::Fields),
            Self::Tags(row) => row.renamed(names, first).map(Self::Tags),
            Self::Fun(params, effects, part) => {
                let Effects { labels, tail } = effects;
                let tail = names.effects_end(first, tail)?;
                Ok(Self::Fun(params, Effects { labels, tail }, part))
            }
            Self::Var(number) => names.place(first, Variable::Plain(number)).map(Self::Var),
        }
    }
}

impl LevelRow {
    /// The row with a new number for the variable of its tail.
    fn renamed(self, names: &Names, first: u32) -> Result<LevelRow, NoMemory>
        ensures { IfOk result (λ made. made ≡ level_row_renamed (place_in first names.now) self) }
    {
        let LevelRow { fields, tail } = self;
        let tail = names.row_end(first, tail)?;
        Ok(LevelRow { fields, tail })
    }
}

impl Level {
    /// The level with its parts at their new places.
    pub fn moved(self, numbering: Numbering<'_>) -> Result<Level, NoMemory>
        ensures { IfOk result (λ moved. moved ≡ level_renumbered (renumbered numbering.entry) self) }
    {
        match self {
            Self::Int => Ok(Self::Int),
            Self::Bool => Ok(Self::Bool),
            Self::Text => Ok(Self::Text),
            Self::List(part) => numbering.of(part).map(Self::List),
            Self::Fields(row) => row.moved(numbering).map(Self::Fields),
            Self::Tags(row) => row.moved(numbering).map(Self::Tags),
            Self::Fun(params, effects, part) => {
                let part = numbering.of(part)?;
                let params = params.into_vec();
                let params = moved_numbers(*params.allocator(), numbering, params.as_slice())?;
                Ok(Self::Fun(List::from_vec(params), effects, part))
            }
            Self::Var(number) => Ok(Self::Var(number)),
        }
    }

    /// The same level once more.
    pub fn copy(&self, alloc: Global) -> Result<Level, NoMemory>
        ensures { IfOk result (λ copy. copy ≡ self.now) }
    {
        match self {
            Self::Int => Ok(Self::Int),
            Self::Bool => Ok(Self::Bool),
            Self::Text => Ok(Self::Text),
            Self::List(part) => Ok(Self::List(*part)),
            Self::Fields(row) => row.copy(alloc).map(Self::Fields),
            Self::Tags(row) => row.copy(alloc).map(Self::Tags),
            Self::Fun(params, effects, part) => {
                let params = Vec::from_slice(alloc, params.as_slice())?;
                let effects = effects.copy(alloc)?;
                Ok(Self::Fun(List::from_vec(params), effects, *part))
            }
            Self::Var(number) => Ok(Self::Var(*number)),
        }
    }
}

impl LevelRow {
    /// The row with its parts at their new places.
    fn moved(self, numbering: Numbering<'_>) -> Result<LevelRow, NoMemory>
        ensures { IfOk result (λ moved. moved ≡ row_renumbered (renumbered numbering.entry) self) }
    {
        let LevelRow { fields, tail } = self;
        let fields = moved_fields(fields.into_vec(), numbering)?;
        Ok(LevelRow { fields, tail })
    }

    /// The same row once more.
    fn copy(&self, alloc: Global) -> Result<LevelRow, NoMemory>
        ensures { IfOk result (λ copy. copy ≡ self.now) }
    {
        let mut fields = List::new(alloc);
        for field in self.fields.as_slice() {
            let label = field.label.copy(alloc)?;
            fields.push(LevelField {
                label,
                part: field.part,
            })?;
        }
        Ok(LevelRow {
            fields,
            tail: self.tail,
        })
    }
}

/// The fields with their parts at their new places.
fn moved_fields(
    fields: Vec<LevelField>,
    numbering: Numbering<'_>,
) -> Result<List<LevelField>, NoMemory>
    ensures { IfOk result (λ moved. moved ≡ map (field_renumbered (renumbered numbering.entry)) fields.items) }
{
    let mut moved = List::new(*fields.allocator());
    for LevelField { label, part } in fields {
        let part = numbering.of(part)?;
        moved.push(LevelField { label, part })?;
    }
    Ok(moved)
}

/// Types, of which what stands in several is there once. Contracts see the list of the types.
#[derive(Drop)]
pub struct Types {
    levels: Vec<Level>,
    roots: Vec<u32>,
}

impl Model for Types {
    ghost use Rattle.lk_types.specs.Levels.{IsTable, types_at};
    ghost use Rattle.lk_types.specs.contracts.ty.Ty as t;
    ghost use Rattle.lk_types.specs.declared.ty.Ty.{Ty as TheTy};
    ghost use Rattle.std.specs.Coded.{coded_list};
    ghost use Rattle.std.specs.Prelude.{List};

    ghost Value = { List TheTy };

    ghost coded = { coded_list t.the_row.coded };

    ghost view = { λ types. types_at types.levels.items types.roots.items };

    ghost invariant = { λ types. IsTable types.levels.items types.roots.items };
}

impl Types {
    /// No types, which takes no memory.
    pub fn new(alloc: Global) -> Types
        ensures { result ≡ [] }
    {
        Types {
            levels: Vec::new(alloc),
            roots: Vec::new(alloc),
        }
    }

    /// The types at these places among the levels.
    pub fn of(levels: Vec<Level>, roots: Vec<u32>) -> Types
        requires { IsTable levels.items roots.items }
        ensures { result ≡ types_at levels.items roots.items }
    {
        Types { levels, roots }
    }

    /// The table of this type alone. `NoMemory` where memory runs out.
    pub fn of_tree(alloc: Global, ty: &Ty) -> Result<Types, NoMemory>
        ensures { IfOk result (λ types. types ≡ ty.now ∷ []) }
    {
        let mut levels = Vec::new(alloc);
        let root = push_tree(alloc, &mut levels, ty)?;
        let mut roots = Vec::new(alloc);
        roots.push(root)?;
        Ok(Types { levels, roots })
    }

    /// How many types there are.
    pub fn len(&self) -> usize
        ensures { result ≡ length self.now }
    {
        self.roots.len()
    }

    /// The levels, and the places of the types among them.
    pub fn parts(&self) -> (&[Level], &[u32])
        ensures table { IsTable result.0.now result.1.now }
        ensures types { types_at result.0.now result.1.now ≡ self.now }
    {
        (self.levels.as_slice(), self.roots.as_slice())
    }

    /// The first types, as many as this.
    pub fn truncate(&mut self, count: usize)
        ensures { self.new ≡ take count self.old }
    {
        self.roots.truncate(count);
    }

    /// Whether one of the types has more nodes than a type may have.
    pub fn any_large(&self, alloc: Global) -> Result<bool, NoMemory>
        ensures { IfOk result (λ large. large ≡ list_any (λ t. nat_lt most_nodes (nodes t)) self.now) }
    {
        let counts = level_counts(alloc, self.levels.as_slice())?;
        Ok(any_over(counts.as_slice(), self.roots.as_slice()))
    }

    /// Those of the types behind the first ones, as many as this, with the levels that stand in them alone.
    pub fn part(&self, alloc: Global, from: usize, count: usize) -> Result<Types, NoMemory>
        ensures { IfOk result (λ part. part ≡ take count (drop from self.now)) }
    {
        let roots = some_numbers(self.roots.as_slice(), from, count);
        Types::thinned(alloc, self.levels.as_slice(), roots)
    }

    /// As `part`, but over all the levels, of which none is copied.
    pub fn into_part(self, from: usize, count: usize) -> Result<Types, NoMemory>
        ensures { IfOk result (λ part. part ≡ take count (drop from self)) }
    {
        let Types { levels, roots } = self;
        let alloc = *levels.allocator();
        let numbers = some_numbers(roots.as_slice(), from, count);
        let kept = Vec::from_slice(alloc, numbers)?;
        Ok(Types::of(levels, kept))
    }

    /// The types at these places, with the levels that stand in them alone.
    fn thinned(alloc: Global, levels: &[Level], roots: &[u32]) -> Result<Types, NoMemory>
        requires { IsTable levels.now roots.now }
        ensures { IfOk result (λ types. types ≡ types_at levels.now roots.now) }
    {
        let places = Places::below(alloc, levels, roots)?;
        let kept = kept_levels(alloc, levels, &places)?;
        let moved = moved_numbers(alloc, Numbering::Among(&places), roots)?;
        Ok(Types::of(kept, moved))
    }

    /// Adds other types behind these.
    pub fn append(&mut self, other: Types) -> Result<(), NoMemory>
        ensures { OnOk result (self.new ≡ self.old ++ other) }
    {
        let Types { levels, roots } = other;
        let by = count_of(self.levels.as_slice())?;
        let behind = Numbering::Behind(by);
        let mut levels = moved_levels(behind, levels)?;
        let mut roots = moved_numbers(*self.roots.allocator(), behind, roots.as_slice())?;
        self.levels.append(&mut levels)?;
        self.roots.append(&mut roots)?;
        Ok(())
    }

    /// The type of that number, with the levels that stand in it alone.
    pub fn single(&self, alloc: Global, number: usize) -> Result<OneType, NoMemory>
        requires { number < length self.now }
        ensures { IfOk result (λ one. slice_get self.now number ≡ Some one) }
    {
        OneType::of(alloc, self.levels.as_slice(), self.roots[number])
    }

    /// The type of that number, written out. Its size may be far more than that of the table: whoever asks for it knows that it isn't.
    pub fn tree(&self, alloc: Global, number: usize) -> Result<Ty, NoMemory>
        requires { number < length self.now }
        ensures { IfOk result (λ ty. slice_get self.now number ≡ Some ty) }
    {
        tree_at(alloc, self.levels.as_slice(), self.roots[number] as usize)
    }
}

/// The type at a place. Parts stand before it.
#[cycle(trees)]
pub fn tree_at(alloc: Global, levels: &[Level], place: usize) -> Result<Ty, NoMemory>
    requires { AreBelow levels.now × (place < length levels.now) }
    ensures { IfOk result (λ ty. ty ≡ at (built levels.now) place) }
{
    match &levels[place] {
        Level::Int => Ok(Ty::Int),
        Level::Bool => Ok(Ty::Bool),
        Level::Text => Ok(Ty::Text),
        Level::List(part) => {
            let item = tree_at(alloc, levels, *part as usize)?;
            Ok(Ty::List(Boxed::new(alloc, item)?))
        }
        Level::Fields(row) => Ok(Ty::Fields(row_at(alloc, levels, place, row)?)),
        Level::Tags(row) => Ok(Ty::Tags(row_at(alloc, levels, place, row)?)),
        Level::Fun(params, effects, part) => {
            let params = trees_at(alloc, levels, place, params.as_slice())?;
            let effects = effects.copy(alloc)?;
            let answer = tree_at(alloc, levels, *part as usize)?;
            Ok(Ty::Fun(params, effects, Boxed::new(alloc, answer)?))
        }
        Level::Var(number) => Ok(Ty::Var(*number)),
    }
}

#[cycle(trees)]
fn trees_at(
    alloc: Global,
    levels: &[Level],
    below: usize,
    places: &[u32],
) -> Result<List<Ty>, NoMemory>
    requires { AreBelow levels.now × (below < length levels.now) × Each (λ n. n < below) places.now }
    ensures { IfOk result (λ types. types ≡ types_at levels.now places.now) }
{
    let mut types = List::new(alloc);
    for place in places {
        types.push(tree_at(alloc, levels, *place as usize)?)?;
    }
    Ok(types)
}

#[cycle(trees)]
fn row_at(alloc: Global, levels: &[Level], below: usize, row: &LevelRow) -> Result<TyRow, NoMemory>
    requires { AreBelow levels.now × (below < length levels.now) × Each (λ n. n < below) (row_parts row.now) }
    ensures { IfOk result (λ made. made ≡ row_made (built levels.now) row.now) }
{
    let mut fields = List::new(alloc);
    for field in row.fields.as_slice() {
        let label = field.label.copy(alloc)?;
        let ty = tree_at(alloc, levels, field.part as usize)?;
        fields.push(TyField { label, ty })?;
    }
    Ok(TyRow {
        fields,
        tail: row.tail,
    })
}
