//! The selects of parts that are lists.

ghost use Rattle.lk_norm.specs.Made.{MakesBy};
ghost use Rattle.lk_norm.specs.Normal.{as_row, branch, columns_of, generator, next, norm_level, norms, select, selects};
ghost use Rattle.lk_norm.specs.Scopes.{names_in};
ghost use Rattle.lk_norm.specs.Walks.{Adds, all_paid, branch_at, branches_at, branches_of, froms_in, items_at, list_at, or_none, or_none_paid, row_of, tested_at, tests_in, then_at};
ghost use Rattle.lk_query.specs.Order.{bind};
ghost use Rattle.std.specs.List.{flat_map};
ghost use Rattle.std.specs.Prelude.{◌≡◌, ◌+◌, ◌++◌, ◌∷◌, [], false, ℕ, IfOk, length, map, true};

use crate::here::Here;
use crate::names::Scope;
use crate::over::Over;
use crate::places::{Froms, Place, Row, Tests, Then};
use crate::selects::{no_select, select};
use crate::stop::{Stop, charge};
use lk_ast::{Column, List, NoMemory, Text};
use lk_query::Part;
use lk_sql::Select;
use std::alloc::Global;

/// The selects of a list, where so many generators are outside of them: one for each branch, and one where there is none.
#[cycle(makes)]
#[tactic(auto, using(crate::proofs::Walking::some_selects, crate::proofs::Walking::some_paid))]
pub fn selects_of(
    here: &Here,
    room: usize,
    columns: &[Column],
    at: u32,
    left: &mut u64,
) -> Result<List<Select>, Stop>
    ensures { MakesBy result left.new (selects columns.now (branches_of here.now.over.now at here.now.count here.now.scope.now)) (all_paid (selects columns.now (branches_of here.now.over.now at here.now.count here.now.scope.now)) left.old) }
{
    let made = branches(here, room, at, left)?;
    or_none(here.alloc, columns, made, left)
}

/// The selects of a list, where so many generators are outside of them: one for each branch.
#[cycle(makes)]
#[tactic(auto, using(crate::proofs::Walking::each_one), unfolding(crate::specs::Walks::then_in, crate::specs::Walks::froms_in, crate::specs::Walks::tests_in))]
fn branches(here: &Here, room: usize, at: u32, left: &mut u64) -> Result<List<Select>, Stop>
    ensures { MakesBy result left.new (map select (branches_of here.now.over.now at here.now.count here.now.scope.now)) (all_paid (map select (branches_of here.now.over.now at here.now.count here.now.scope.now)) left.old) }
{
    let place = Place {
        outer: here.count,
        froms: &Froms::Nothing,
        tests: &Tests::Nothing,
        then: &Then::Select,
    };
    let mut selects = List::new(here.alloc);
    walk(here.over, room, at, &place, here.scope, &mut selects, left)?;
    Ok(selects)
}

/// These selects, or one that gives no row, of these columns, where there are none.
#[inline(never)]
fn or_none(
    alloc: Global,
    columns: &[Column],
    made: List<Select>,
    left: &mut u64,
) -> Result<List<Select>, Stop>
    ensures { MakesBy result left.new (or_none columns.now made) (or_none_paid columns.now made left.old) }
{
    match made.as_slice() {
        [] => {
            charge(left, 11)?;
            let mut selects = List::new(alloc);
            selects.push(no_select(alloc, columns, left)?)?;
            Ok(selects)
        }
        [_, ..] => Ok(made),
    }
}

/// Adds the selects of a list. There is room for so many parts in one another.
#[cycle(makes)]
fn walk<'s>(
    over: &Over,
    room: usize,
    at: u32,
    place: &Place<'s>,
    scope: &'s Scope<'s>,
    selects: &mut List<Select>,
    left: &mut u64,
) -> Result<(), Stop>
    ensures { Adds result selects.old selects.new left.new (flat_map (then_at over.now place.now) (branches_at over.now at place.now scope.now)) left.old }
{
    if room == 0 {
        return Err(Stop::NoMemory);
    }
    if over.count(at) == 0 {
        return Ok(());
    }
    let part = over.part(at)?;
    list(over, room - 1, at, part, &*place, &*scope, selects, left)
}

/// The same by the part.
#[cycle(makes)]
#[tactic(auto, using(crate::proofs::Walking::onto_nothing, crate::proofs::Walking::nothing_bound))]
fn list<'s>(
    over: &Over,
    room: usize,
    at: u32,
    part: &'s Part,
    place: &Place<'s>,
    scope: &'s Scope<'s>,
    selects: &mut List<Select>,
    left: &mut u64,
) -> Result<(), Stop>
    ensures { Adds result selects.old selects.new left.new (flat_map (then_at over.now place.now) (list_at place.now (norm_level (norms over.now) at part.now (names_in over.now scope.now)) (tests_in over.now place.now.tests.now))) left.old }
{
    match part {
        Part::If(c, a, b) => either(over, room, *c, *a, *b, place, scope, selects, left),
        Part::Items(items) => add_items(over, room, items.as_slice(), place, scope, selects, left),
        Part::Append(a, b) => both(over, room, *a, *b, place, scope, selects, left),
        Part::ForList(list, x, body) => {
            each(over, room, *list, *x, *body, place, scope, selects, left)
        }
        Part::Table(table, labels) => {
            add_table(over, room, table, labels.as_slice(), place, selects, left)
        }
        Part::Where(c, list) => under(over, room, *c, false, *list, place, scope, selects, left),
        Part::Bound
        | Part::Lit(_)
        | Part::Case(_, _, _)
        | Part::IfRow(_, _, _, _)
        | Part::One(_, _)
        | Part::Two(_, _, _)
        | Part::EqRows(_, _, _)
        | Part::Empty(_, _)
        | Part::Record(_)
        | Part::Extend(_, _, _)
        | Part::Project(_, _) => Ok(()),
    }
}

/// Adds the selects of the first list where a test is met, and those of the second where it isn't.
#[cycle(makes)]
#[tactic(auto, using(crate::proofs::Walking::flat_both, crate::proofs::Walking::all_both, crate::proofs::Walking::onto_both))]
#[inline(never)]
fn either<'s>(
    over: &Over,
    room: usize,
    c: u32,
    a: u32,
    b: u32,
    place: &Place<'s>,
    scope: &'s Scope<'s>,
    selects: &mut List<Select>,
    left: &mut u64,
) -> Result<(), Stop>
    ensures { Adds result selects.old selects.new left.new (flat_map (then_at over.now place.now) (tested_at over.now c false a place.now scope.now ++ tested_at over.now c true b place.now scope.now)) left.old }
{
    under(over, room, c, false, a, place, scope, selects, left)?;
    under(over, room, c, true, b, place, scope, selects, left)
}

/// Adds the selects of two lists.
#[cycle(makes)]
#[tactic(auto, using(crate::proofs::Walking::flat_both, crate::proofs::Walking::all_both, crate::proofs::Walking::onto_both))]
#[inline(never)]
fn both<'s>(
    over: &Over,
    room: usize,
    a: u32,
    b: u32,
    place: &Place<'s>,
    scope: &'s Scope<'s>,
    selects: &mut List<Select>,
    left: &mut u64,
) -> Result<(), Stop>
    ensures { Adds result selects.old selects.new left.new (flat_map (then_at over.now place.now) (branches_at over.now a place.now scope.now ++ branches_at over.now b place.now scope.now)) left.old }
{
    walk(over, room, a, place, scope, selects, left)?;
    walk(over, room, b, place, scope, selects, left)
}

/// Adds the selects of a list for each row of another one, which is bound to a number.
#[cycle(makes)]
#[tactic(auto, unfolding(crate::specs::Walks::then_in))]
#[inline(never)]
fn each<'s>(
    over: &Over,
    room: usize,
    list: u32,
    x: u32,
    body: u32,
    place: &Place<'s>,
    scope: &'s Scope<'s>,
    selects: &mut List<Select>,
    left: &mut u64,
) -> Result<(), Stop>
    ensures { Adds result selects.old selects.new left.new (flat_map (then_at over.now place.now) (flat_map (λ b. (norms over.now body (bind x (as_row (λ n. b.outs)) (names_in over.now scope.now))).list place.now.outer b.froms b.cond) (branches_at over.now list place.now scope.now))) left.old }
{
    let then = Then::Body(body, x, &*scope, place.then);
    let inner = Place {
        outer: place.outer,
        froms: place.froms,
        tests: place.tests,
        then: &then,
    };
    walk(over, room, list, &inner, &*scope, selects, left)
}

/// Adds what becomes of the rows of a table with these columns.
#[cycle(makes)]
#[tactic(auto, using(crate::proofs::Walking::onto_nothing), unfolding(crate::specs::Walks::froms_in))]
#[inline(never)]
fn add_table<'s>(
    over: &Over,
    room: usize,
    table: &'s Text,
    labels: &'s [Text],
    place: &Place<'s>,
    selects: &mut List<Select>,
    left: &mut u64,
) -> Result<(), Stop>
    ensures { Adds result selects.old selects.new left.new (flat_map (then_at over.now place.now) (branch (froms_in place.now.froms.now ++ generator (next place.now.outer (froms_in place.now.froms.now)) table.now ∷ []) (tests_in over.now place.now.tests.now) (columns_of (next place.now.outer (froms_in place.now.froms.now)) labels.now) ∷ [])) left.old }
{
    let number = generators(place)?.checked_add(1).ok_or(NoMemory)?;
    let froms = Froms::More(place.froms, number, &*table);
    let inner = Place {
        outer: place.outer,
        froms: &froms,
        tests: place.tests,
        then: place.then,
    };
    let row = Row::Columns(number, &*labels);
    add(over, room, row, &inner, selects, left)
}

/// Adds the selects of a list with one test more before it.
#[cycle(makes)]
#[tactic(auto, unfolding(crate::specs::Walks::tests_in))]
#[inline(never)]
fn under<'s>(
    over: &Over,
    room: usize,
    c: u32,
    negated: bool,
    at: u32,
    place: &Place<'s>,
    scope: &'s Scope<'s>,
    selects: &mut List<Select>,
    left: &mut u64,
) -> Result<(), Stop>
    ensures { Adds result selects.old selects.new left.new (flat_map (then_at over.now place.now) (tested_at over.now c negated at place.now scope.now)) left.old }
{
    let tests = Tests::More(place.tests, c, negated, generators(place)?, &*scope);
    let inner = Place {
        outer: place.outer,
        froms: place.froms,
        tests: &tests,
        then: place.then,
    };
    walk(over, room, at, &inner, &*scope, selects, left)
}

/// Adds what becomes of these records.
#[cycle(makes)]
#[tactic(auto, using(crate::proofs::Walking::all_both, crate::proofs::Walking::onto_both))]
#[inline(never)]
fn add_items<'s>(
    over: &Over,
    room: usize,
    items: &[u32],
    place: &Place<'s>,
    scope: &'s Scope<'s>,
    selects: &mut List<Select>,
    left: &mut u64,
) -> Result<(), Stop>
    ensures { Adds result selects.old selects.new left.new (flat_map (then_at over.now place.now) (items_at over.now items.now place.now scope.now)) left.old }
{
    let count = generators(place)?;
    for item in items {
        let row = Row::Part(*item, count, scope);
        add(over, room, row, place, selects, left)?;
    }
    Ok(())
}

/// Adds what becomes of a branch with this row.
#[cycle(makes)]
#[tactic(auto, unfolding(crate::specs::Walks::then_in))]
#[inline(never)]
fn add<'s>(
    over: &Over,
    room: usize,
    row: Row<'s>,
    place: &Place<'s>,
    selects: &mut List<Select>,
    left: &mut u64,
) -> Result<(), Stop>
    ensures { Adds result selects.old selects.new left.new (then_at over.now place.now (branch_at over.now row.entry place.now)) left.old }
{
    match place.then {
        Then::Select => add_select(over, room, &row, place, selects, left),
        Then::Body(body, x, names, rest) => {
            let scope = bound_to(*x, row, names);
            let inner = Place {
                outer: place.outer,
                froms: place.froms,
                tests: place.tests,
                then: rest,
            };
            walk(over, room, *body, &inner, &scope, selects, left)
        }
    }
}

/// Adds the select of a branch with this row.
#[cycle(makes)]
#[inline(never)]
fn add_select(
    over: &Over,
    room: usize,
    row: &Row,
    place: &Place,
    selects: &mut List<Select>,
    left: &mut u64,
) -> Result<(), Stop>
    ensures { Adds result selects.old selects.new left.new (select (branch_at over.now row.now place.now) ∷ []) left.old }
{
    charge(left, 11)?;
    selects.push(select(over, room, row, place, left)?)?;
    Ok(())
}

/// A scope with a row bound to a number.
#[tactic(auto, unfolding(crate::specs::Scopes::names_in))]
fn bound_to<'s>(x: u32, row: Row<'s>, names: &'s Scope<'s>) -> Scope<'s>
    ensures { (parts : List Part) → names_in parts result ≡ bind x (as_row (λ n. row_of parts row.entry)) (names_in parts names.now) }
{
    match row {
        Row::Part(item, count, inner) => Scope::Row(x, item, count, inner, names),
        Row::Columns(generator, labels) => Scope::Columns(x, generator, labels, names),
    }
}

/// How many generators are in scope behind those of a place.
fn generators(place: &Place) -> Result<u32, NoMemory>
    ensures { IfOk result (λ n. n ≡ place.now.outer + length (froms_in place.now.froms.now)) }
{
    Ok(
        place
            .outer
            .checked_add(from_count(place.froms)?)
            .ok_or(NoMemory)?,
    )
}

/// How many generators there are.
#[tactic(auto, using(crate::proofs::SelectTexts::one_more), unfolding(crate::specs::Walks::froms_in))]
fn from_count(froms: &Froms) -> Result<u32, NoMemory>
    ensures { IfOk result (λ n. n ≡ length (froms_in froms.now)) }
{
    match froms {
        Froms::Nothing => Ok(0),
        Froms::More(before, _, _) => Ok(from_count(before)?.checked_add(1).ok_or(NoMemory)?),
    }
}
