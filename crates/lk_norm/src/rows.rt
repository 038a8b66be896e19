//! The outputs of rows.

ghost use Rattle.lk_norm.specs.Made.{MakesBy};
ghost use Rattle.lk_norm.specs.Normal.{columns_of, norm_level, norms, output, outputs, scalar_in, scalar_or};
ghost use Rattle.lk_norm.specs.Scopes.{base_in, names_in, params_of, row_in, stands};
ghost use Rattle.lk_norm.specs.Walks.{MakesOuts, label_paid, labelled, outs_paid, row_of};
ghost use Rattle.lk_sql.specs.declared.tree.Scalar.TheVariants as scalars;
ghost use Rattle.std.specs.Prelude.{ℕ};

use crate::here::Here;
use crate::lengths::name_length;
use crate::names::Meant;
use crate::over::Over;
use crate::places::Row;
use crate::scalars::{choice, column, extended_cell, param, scalar};
use crate::stop::{Stop, charge};
use lk_ast::{Column, List, NoMemory, Text};
use lk_query::{Labelled, Part};
use lk_sql::{Out, Scalar};
use std::alloc::Global;

/// The outputs of a row.
#[cycle(makes)]
pub fn outs(over: &Over, room: usize, row: &Row, left: &mut u64) -> Result<List<Out>, Stop>
    ensures { MakesOuts result left.new (row_of over.now row.now) left.old }
{
    match row {
        Row::Part(item, count, scope) => {
            let here = Here {
                alloc: over.alloc,
                over: &*over,
                count: *count,
                scope,
            };
            part_outs(&here, room, *item, left)
        }
        Row::Columns(generator, labels) => column_outs(over.alloc, *generator, labels, left),
    }
}

/// The outputs of a record, where so many generators are in scope.
#[cycle(makes)]
fn part_outs(here: &Here, room: usize, at: u32, left: &mut u64) -> Result<List<Out>, Stop>
    ensures { MakesOuts result left.new (row_in here.now.over.now at here.now.count here.now.scope.now) left.old }
{
    if room == 0 {
        return Err(Stop::NoMemory);
    }
    let part = here.over.part(at)?;
    outs_of(here, room - 1, at, part, left)
}

/// The same by the part.
#[cycle(makes)]
fn outs_of(
    here: &Here,
    room: usize,
    at: u32,
    part: &Part,
    left: &mut u64,
) -> Result<List<Out>, Stop>
    ensures { MakesOuts result left.new ((norm_level (norms here.now.over.now) at part.now (names_in here.now.over.now here.now.scope.now)).row here.now.count) left.old }
{
    match part {
        Part::Bound => bound_outs(here, room, at, left),
        Part::Record(items) => {
            let items = items.as_slice();
            record_outs(here, room, items, left)
        }
        Part::IfRow(labels, c, a, b) => {
            let labels = labels.as_slice();
            choice_outs(here, room, labels, *c, *a, *b, left)
        }
        Part::Extend(labels, items, rest) => {
            let labels = labels.as_slice();
            let items = items.as_slice();
            extended_outs(here, room, labels, items, *rest, left)
        }
        Part::Lit(_)
        | Part::Case(_, _, _)
        | Part::If(_, _, _)
        | Part::One(_, _)
        | Part::Two(_, _, _)
        | Part::EqRows(_, _, _)
        | Part::Empty(_, _)
        | Part::Project(_, _)
        | Part::Items(_)
        | Part::Append(_, _)
        | Part::ForList(_, _, _)
        | Part::Table(_, _)
        | Part::Where(_, _) => Ok(List::new(here.alloc)),
    }
}

/// The outputs of what is bound to a number.
#[cycle(makes)]
#[inline(never)]
fn bound_outs(here: &Here, room: usize, n: u32, left: &mut u64) -> Result<List<Out>, Stop>
    ensures { (count : ℕ) → MakesOuts result left.new ((names_in here.now.over.now here.now.scope.now n).row count) left.old }
{
    match here.over.meant(here.scope, n)? {
        Meant::Nothing | Meant::Param(_) => Ok(List::new(here.alloc)),
        Meant::Params(first, columns) => param_outs(here.alloc, first, columns, left),
        Meant::Row(item, count, scope) => {
            let inner = Here {
                alloc: here.alloc,
                over: here.over,
                count,
                scope,
            };
            part_outs(&inner, room, item, left)
        }
        Meant::Columns(generator, labels) => { column_outs(here.alloc, generator, labels, left) }
    }
}

/// The outputs of the items of a record.
#[cycle(makes)]
#[inline(never)]
fn record_outs(
    here: &Here,
    room: usize,
    items: &[Labelled],
    left: &mut u64,
) -> Result<List<Out>, Stop>
    ensures { MakesOuts result left.new (outputs (norms here.now.over.now) items.now (names_in here.now.over.now here.now.scope.now) here.now.count) left.old }
{
    let mut list = List::new(here.alloc);
    for item in items {
        let scalar = scalar(here, room, item.part, left)?;
        list.push(out(here.alloc, &item.label, scalar, left)?)?;
    }
    Ok(list)
}

/// At each of these labels the second where the first is true, else the third.
#[cycle(makes)]
#[inline(never)]
fn choice_outs(
    here: &Here,
    room: usize,
    labels: &[Text],
    c: u32,
    a: u32,
    b: u32,
    left: &mut u64,
) -> Result<List<Out>, Stop>
    ensures { MakesOuts result left.new (labelled (λ label. scalars.Case (base_in here.now.over.now c here.now.count here.now.scope.now) (scalar_in (row_in here.now.over.now a here.now.count here.now.scope.now) label) (scalar_in (row_in here.now.over.now b here.now.count here.now.scope.now) label)) labels.now) left.old }
{
    let mut list = List::new(here.alloc);
    for label in labels {
        let scalar = choice(here, room, c, a, b, label, left)?;
        list.push(out(here.alloc, label, scalar, left)?)?;
    }
    Ok(list)
}

/// At each of these labels what is listed, or where nothing is, what is in the rest.
#[cycle(makes)]
#[inline(never)]
fn extended_outs(
    here: &Here,
    room: usize,
    labels: &[Text],
    items: &[Labelled],
    rest: u32,
    left: &mut u64,
) -> Result<List<Out>, Stop>
    ensures { MakesOuts result left.new (labelled (λ label. scalar_or (outputs (norms here.now.over.now) items.now (names_in here.now.over.now here.now.scope.now) here.now.count) (row_in here.now.over.now rest here.now.count here.now.scope.now) label) labels.now) left.old }
{
    let mut list = List::new(here.alloc);
    for label in labels {
        let scalar = extended_cell(here, room, items, rest, label, left)?;
        list.push(out(here.alloc, label, scalar, left)?)?;
    }
    Ok(list)
}

/// The columns of a generator.
#[inline(never)]
fn column_outs(
    alloc: Global,
    generator: u32,
    labels: &[Text],
    left: &mut u64,
) -> Result<List<Out>, Stop>
    ensures { MakesOuts result left.new (columns_of generator labels.now) left.old }
{
    let mut list = List::new(alloc);
    for label in labels {
        let scalar = column(alloc, generator, label, left)?;
        list.push(out(alloc, label, scalar, left)?)?;
    }
    Ok(list)
}

/// Parameters from the first one on, one for each of these columns.
#[inline(never)]
fn param_outs(
    alloc: Global,
    first: u32,
    columns: &[Column],
    left: &mut u64,
) -> Result<List<Out>, Stop>
    ensures { MakesOuts result left.new (params_of first columns.now) left.old }
{
    let mut list = List::new(alloc);
    let mut next = first;
    for column in columns {
        let scalar = param(alloc, next, left)?;
        list.push(out(alloc, &column.label, scalar, left)?)?;
        next = next.checked_add(1).ok_or(NoMemory)?;
    }
    Ok(list)
}

/// One output, behind its scalar.
#[inline(never)]
pub fn out(alloc: Global, label: &Text, scalar: Scalar, left: &mut u64) -> Result<Out, Stop>
    ensures { MakesBy result left.new (output label.now scalar) (label_paid label.now left.old) }
{
    charge(left, 6)?;
    charge(left, name_length(label)?)?;
    Ok(Out {
        label: label.copy(alloc)?,
        scalar,
    })
}
