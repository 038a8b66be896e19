//! The scalars of parts.

ghost use Rattle.lk_norm.specs.Made.{Makes, MakesBy, has_label, more_paid};
ghost use Rattle.lk_norm.specs.Normal.{equal_at, equal_from, equal_rows, negation, no_scalar, norm_level, norms, outputs, scalar_in, scalar_or, selects};
ghost use Rattle.lk_norm.specs.Scopes.{base_in, names_in, params_of, row_in};
ghost use Rattle.lk_norm.specs.Walks.{branches_of};
ghost use Rattle.lk_sql.specs.declared.tree.Scalar.TheVariants as scalars;
ghost use Rattle.std.specs.Prelude.{◌≡◌, ◌∷◌, ℕ, [], IfOk, if◌then◌else◌};

use crate::here::Here;
use crate::lengths::{base_length, generator_length, name_length, number_length, sign_length};
use crate::names::Meant;
use crate::stop::{Stop, charge};
use crate::walk::selects_of;
use lk_ast::{Base, Boxed, Column, List, NoMemory, Text, copy_base};
use lk_query::{Labelled, Part};
use lk_sql::{Scalar, SqlOp};
use std::alloc::Global;

/// The scalar of a base where so many generators are in scope. There is room for so many parts in one another.
#[cycle(makes)]
pub fn scalar(here: &Here, room: usize, at: u32, left: &mut u64) -> Result<Scalar, Stop>
    ensures { Makes result left.new (base_in here.now.over.now at here.now.count here.now.scope.now) left.old }
{
    if room == 0 {
        return Err(Stop::NoMemory);
    }
    let part = here.over.part(at)?;
    base(here, room - 1, at, part, left)
}

/// The same by the part.
#[cycle(makes)]
fn base(here: &Here, room: usize, at: u32, part: &Part, left: &mut u64) -> Result<Scalar, Stop>
    ensures { Makes result left.new ((norm_level (norms here.now.over.now) at part.now (names_in here.now.over.now here.now.scope.now)).base here.now.count) left.old }
{
    match part {
        Part::Lit(literal) => lit(here.alloc, literal, left),
        Part::Case(c, a, b) => base_choice(here, room, *c, *a, *b, left),
        Part::One(op, a) => one_base(here, room, *op, *a, left),
        Part::Two(op, a, b) => two_bases(here, room, *op, *a, *b, left),
        Part::Bound => bound(here, at, left),
        Part::EqRows(labels, a, b) => equal_rows(here, room, labels.as_slice(), *a, *b, left),
        Part::Project(row, label) => cell(here, room, *row, label, left),
        Part::Empty(columns, list) => is_empty(here, room, columns.as_slice(), *list, left),
        Part::If(_, _, _)
        | Part::IfRow(_, _, _, _)
        | Part::Record(_)
        | Part::Extend(_, _, _)
        | Part::Items(_)
        | Part::Append(_, _)
        | Part::ForList(_, _, _)
        | Part::Table(_, _)
        | Part::Where(_, _) => zero(left),
    }
}

/// The second base where the first is true, else the third.
#[cycle(makes)]
#[tactic(auto, using(crate::proofs::Budget::paid_case))]
#[inline(never)]
fn base_choice(
    here: &Here,
    room: usize,
    c: u32,
    a: u32,
    b: u32,
    left: &mut u64,
) -> Result<Scalar, Stop>
    ensures { Makes result left.new (scalars.Case (base_in here.now.over.now c here.now.count here.now.scope.now) (base_in here.now.over.now a here.now.count here.now.scope.now) (base_in here.now.over.now b here.now.count here.now.scope.now)) left.old }
{
    charge(left, 28)?;
    let c = scalar(here, room, c, left)?;
    let a = scalar(here, room, a, left)?;
    let b = scalar(here, room, b, left)?;
    Ok(case(here.alloc, c, a, b)?)
}

/// An operation on one base.
#[cycle(makes)]
#[tactic(auto, using(crate::proofs::Budget::paid_one))]
#[inline(never)]
fn one_base(here: &Here, room: usize, op: SqlOp, a: u32, left: &mut u64) -> Result<Scalar, Stop>
    ensures { Makes result left.new (scalars.Op op (base_in here.now.over.now a here.now.count here.now.scope.now ∷ [])) left.old }
{
    charge(left, sign_length(op) + 2)?;
    let a = scalar(here, room, a, left)?;
    Ok(one(here.alloc, op, a)?)
}

/// An operation on two bases.
#[cycle(makes)]
#[tactic(auto, using(crate::proofs::Budget::paid_two))]
#[inline(never)]
fn two_bases(
    here: &Here,
    room: usize,
    op: SqlOp,
    a: u32,
    b: u32,
    left: &mut u64,
) -> Result<Scalar, Stop>
    ensures { Makes result left.new (scalars.Op op (base_in here.now.over.now a here.now.count here.now.scope.now ∷ base_in here.now.over.now b here.now.count here.now.scope.now ∷ [])) left.old }
{
    charge(left, sign_length(op) + 2)?;
    let a = scalar(here, room, a, left)?;
    let b = scalar(here, room, b, left)?;
    Ok(two(here.alloc, op, a, b)?)
}

/// Whether a list is empty.
#[cycle(makes)]
#[tactic(auto, using(crate::proofs::SelectTexts::paid_empty))]
#[inline(never)]
fn is_empty(
    here: &Here,
    room: usize,
    columns: &[Column],
    list: u32,
    left: &mut u64,
) -> Result<Scalar, Stop>
    ensures { Makes result left.new (negation (scalars.Exists (selects columns.now (branches_of here.now.over.now list here.now.count here.now.scope.now)))) left.old }
{
    charge(left, 6)?;
    let selects = selects_of(here, room, columns, list, left)?;
    Ok(one(here.alloc, SqlOp::Not, Scalar::Exists(selects))?)
}

/// What a record has under a label, where so many generators are in scope.
#[cycle(makes)]
fn cell(here: &Here, room: usize, at: u32, label: &Text, left: &mut u64) -> Result<Scalar, Stop>
    ensures { Makes result left.new (scalar_in (row_in here.now.over.now at here.now.count here.now.scope.now) label.now) left.old }
{
    if room == 0 {
        return Err(Stop::NoMemory);
    }
    let part = here.over.part(at)?;
    cell_of(here, room - 1, at, part, label, left)
}

/// The same by the part.
#[cycle(makes)]
fn cell_of(
    here: &Here,
    room: usize,
    at: u32,
    part: &Part,
    label: &Text,
    left: &mut u64,
) -> Result<Scalar, Stop>
    ensures { Makes result left.new (scalar_in ((norm_level (norms here.now.over.now) at part.now (names_in here.now.over.now here.now.scope.now)).row here.now.count) label.now) left.old }
{
    match part {
        Part::Bound => bound_cell(here, room, at, label, left),
        Part::IfRow(labels, c, a, b) => { choice_cell(here, room, labels, *c, *a, *b, label, left) }
        Part::Record(items) => {
            let items = items.as_slice();
            item_cell(here, room, items, label, left)
        }
        Part::Extend(labels, items, rest) => {
            labelled_cell(here, room, labels, items, *rest, label, left)
        }
        Part::Lit(_)
        | Part::Case(_, _, _)
        | Part::If(_, _, _)
        | Part::One(_, _)
        | Part::Two(_, _, _)
        | Part::EqRows(_, _, _)
        | Part::Empty(_, _)
        | Part::Project(_, _)
        | Part::Items(_)
        | Part::Append(_, _)
        | Part::ForList(_, _, _)
        | Part::Table(_, _)
        | Part::Where(_, _) => zero(left),
    }
}

/// The second where the first is true, else the third, under a label that is among these.
#[cycle(makes)]
#[inline(never)]
fn choice_cell(
    here: &Here,
    room: usize,
    labels: &List<Text>,
    c: u32,
    a: u32,
    b: u32,
    label: &Text,
    left: &mut u64,
) -> Result<Scalar, Stop>
    ensures { Makes result left.new (if has_label labels.now label.now then scalars.Case (base_in here.now.over.now c here.now.count here.now.scope.now) (scalar_in (row_in here.now.over.now a here.now.count here.now.scope.now) label.now) (scalar_in (row_in here.now.over.now b here.now.count here.now.scope.now) label.now) else no_scalar) left.old }
{
    if !has(labels.as_slice(), label) {
        return zero(left);
    }
    choice(here, room, c, a, b, label, left)
}

/// The second where the first is true, else the third, under a label.
#[cycle(makes)]
#[tactic(auto, using(crate::proofs::Budget::paid_case))]
#[inline(never)]
pub fn choice(
    here: &Here,
    room: usize,
    c: u32,
    a: u32,
    b: u32,
    label: &Text,
    left: &mut u64,
) -> Result<Scalar, Stop>
    ensures { Makes result left.new (scalars.Case (base_in here.now.over.now c here.now.count here.now.scope.now) (scalar_in (row_in here.now.over.now a here.now.count here.now.scope.now) label.now) (scalar_in (row_in here.now.over.now b here.now.count here.now.scope.now) label.now)) left.old }
{
    charge(left, 28)?;
    let c = scalar(here, room, c, left)?;
    let a = cell(here, room, a, label, left)?;
    let b = cell(here, room, b, label, left)?;
    Ok(case(here.alloc, c, a, b)?)
}

/// What an extended record has under a label that is among these.
#[cycle(makes)]
#[inline(never)]
fn labelled_cell(
    here: &Here,
    room: usize,
    labels: &List<Text>,
    items: &List<Labelled>,
    rest: u32,
    label: &Text,
    left: &mut u64,
) -> Result<Scalar, Stop>
    ensures { Makes result left.new (if has_label labels.now label.now then scalar_or (outputs (norms here.now.over.now) items.now (names_in here.now.over.now here.now.scope.now) here.now.count) (row_in here.now.over.now rest here.now.count here.now.scope.now) label.now else no_scalar) left.old }
{
    if !has(labels.as_slice(), label) {
        return zero(left);
    }
    let items = items.as_slice();
    extended_cell(here, room, items, rest, label, left)
}

/// What is under the first item with the label.
#[cycle(makes)]
fn item_cell(
    here: &Here,
    room: usize,
    items: &[Labelled],
    label: &Text,
    left: &mut u64,
) -> Result<Scalar, Stop>
    ensures { Makes result left.new (scalar_in (outputs (norms here.now.over.now) items.now (names_in here.now.over.now here.now.scope.now) here.now.count) label.now) left.old }
{
    for item in items {
        if item.label.equals(label) {
            return scalar(here, room, item.part, left);
        }
    }
    zero(left)
}

/// What is under the first item with the label, or, where none has it, in the rest.
#[cycle(makes)]
pub fn extended_cell(
    here: &Here,
    room: usize,
    items: &[Labelled],
    rest: u32,
    label: &Text,
    left: &mut u64,
) -> Result<Scalar, Stop>
    ensures { Makes result left.new (scalar_or (outputs (norms here.now.over.now) items.now (names_in here.now.over.now here.now.scope.now) here.now.count) (row_in here.now.over.now rest here.now.count here.now.scope.now) label.now) left.old }
{
    for item in items {
        if item.label.equals(label) {
            return scalar(here, room, item.part, left);
        }
    }
    cell(here, room, rest, label, left)
}

/// What is under a label of what is bound to a number.
#[cycle(makes)]
#[tactic(auto, using(crate::proofs::Making::columns_in))]
#[inline(never)]
fn bound_cell(
    here: &Here,
    room: usize,
    n: u32,
    label: &Text,
    left: &mut u64,
) -> Result<Scalar, Stop>
    ensures { (count : ℕ) → Makes result left.new (scalar_in ((names_in here.now.over.now here.now.scope.now n).row count) label.now) left.old }
{
    match here.over.meant(here.scope, n)? {
        Meant::Nothing | Meant::Param(_) => zero(left),
        Meant::Params(first, columns) => param_cell(here.alloc, first, columns, label, left),
        Meant::Row(item, count, scope) => {
            let inner = Here {
                alloc: here.alloc,
                over: here.over,
                count,
                scope,
            };
            cell(&inner, room, item, label, left)
        }
        Meant::Columns(generator, labels) => {
            if !has(labels, label) {
                return zero(left);
            }
            column(here.alloc, generator, label, left)
        }
    }
}

/// Whether two records are equal at these labels.
#[cycle(makes)]
#[tactic(auto, using(crate::proofs::Making::paid_equal, crate::proofs::Budget::paid_true))]
#[inline(never)]
fn equal_rows(
    here: &Here,
    room: usize,
    labels: &[Text],
    a: u32,
    b: u32,
    left: &mut u64,
) -> Result<Scalar, Stop>
    ensures { Makes result left.new (equal_rows labels.now (row_in here.now.over.now a here.now.count here.now.scope.now) (row_in here.now.over.now b here.now.count here.now.scope.now)) left.old }
{
    let Some((first, rest)) = labels.split_first() else {
        charge(left, 4)?;
        return Ok(Scalar::Lit(Base::Bool(true)));
    };
    let first = equal_at(here, room, first, a, b, left)?;
    more_equal(here, room, first, rest, a, b, left)
}

/// Whether two records are equal at these labels too.
#[cycle(makes)]
#[inline(never)]
fn more_equal(
    here: &Here,
    room: usize,
    first: Scalar,
    labels: &[Text],
    a: u32,
    b: u32,
    left: &mut u64,
) -> Result<Scalar, Stop>
    ensures { MakesBy result left.new (equal_from first (row_in here.now.over.now a here.now.count here.now.scope.now) (row_in here.now.over.now b here.now.count here.now.scope.now) labels.now) (more_paid (row_in here.now.over.now a here.now.count here.now.scope.now) (row_in here.now.over.now b here.now.count here.now.scope.now) labels.now left.old) }
{
    let mut so_far = first;
    for label in labels {
        charge(left, 7)?;
        let next = equal_at(here, room, label, a, b, left)?;
        so_far = two(here.alloc, SqlOp::And, so_far, next)?;
    }
    Ok(so_far)
}

/// Whether two records are equal at a label.
#[cycle(makes)]
#[tactic(auto, using(crate::proofs::Budget::paid_two))]
#[inline(never)]
fn equal_at(
    here: &Here,
    room: usize,
    label: &Text,
    a: u32,
    b: u32,
    left: &mut u64,
) -> Result<Scalar, Stop>
    ensures { Makes result left.new (equal_at (row_in here.now.over.now a here.now.count here.now.scope.now) (row_in here.now.over.now b here.now.count here.now.scope.now) label.now) left.old }
{
    charge(left, sign_length(SqlOp::Eq) + 2)?;
    let a = cell(here, room, a, label, left)?;
    let b = cell(here, room, b, label, left)?;
    Ok(two(here.alloc, SqlOp::Eq, a, b)?)
}

/// The scalar of what is bound to a number.
fn bound(here: &Here, n: u32, left: &mut u64) -> Result<Scalar, Stop>
    ensures { (count : ℕ) → Makes result left.new ((names_in here.now.over.now here.now.scope.now n).base count) left.old }
{
    match here.over.meant(here.scope, n)? {
        Meant::Param(number) => param(here.alloc, number, left),
        Meant::Nothing | Meant::Params(_, _) | Meant::Row(_, _, _) | Meant::Columns(_, _) => {
            zero(left)
        }
    }
}

/// The parameter with a label, where there is one for each of these columns, from the first one on.
fn param_cell(
    alloc: Global,
    first: u32,
    columns: &[Column],
    label: &Text,
    left: &mut u64,
) -> Result<Scalar, Stop>
    ensures { Makes result left.new (scalar_in (params_of first columns.now) label.now) left.old }
{
    let mut next = first;
    for column in columns {
        if column.label.equals(label) {
            return param(alloc, next, left);
        }
        next = next.checked_add(1).ok_or(NoMemory)?;
    }
    zero(left)
}

/// A parameter.
#[tactic(auto, using(crate::proofs::Making::paid_param))]
pub fn param(alloc: Global, number: u32, left: &mut u64) -> Result<Scalar, Stop>
    ensures { Makes result left.new (scalars.Param number) left.old }
{
    charge(
        left,
        number_length(alloc, number)?
            .checked_add(1)
            .ok_or(NoMemory)?,
    )?;
    Ok(Scalar::Param(number))
}

/// A column.
#[tactic(auto, using(crate::proofs::Making::paid_column))]
#[inline(never)]
pub fn column(alloc: Global, generator: u32, label: &Text, left: &mut u64) -> Result<Scalar, Stop>
    ensures { Makes result left.new (scalars.Column generator label.now) left.old }
{
    let bytes = generator_length(alloc, generator)?;
    charge(left, bytes.checked_add(1).ok_or(NoMemory)?)?;
    charge(left, name_length(label)?)?;
    Ok(Scalar::Column(generator, label.copy(alloc)?))
}

/// Whether one of the labels is this one.
fn has(labels: &[Text], label: &Text) -> bool
    ensures { result ≡ has_label labels.now label.now }
{
    for one in labels {
        if one.equals(label) {
            return true;
        }
    }
    false
}

/// The scalar of what is no base.
#[tactic(auto, using(crate::proofs::Budget::paid_zero))]
pub fn zero(left: &mut u64) -> Result<Scalar, Stop>
    ensures { Makes result left.new no_scalar left.old }
{
    charge(left, 1)?;
    Ok(Scalar::Lit(Base::Int(0)))
}

/// A literal.
#[tactic(auto, using(crate::proofs::Budget::paid_lit))]
pub fn lit(alloc: Global, literal: &Base, left: &mut u64) -> Result<Scalar, Stop>
    ensures { Makes result left.new (scalars.Lit literal.now) left.old }
{
    charge(left, base_length(alloc, literal)?)?;
    Ok(Scalar::Lit(copy_base(alloc, literal)?))
}

/// An operation on one operand.
#[inline(never)]
pub fn one(alloc: Global, op: SqlOp, a: Scalar) -> Result<Scalar, NoMemory>
    ensures { IfOk result (λ s. s ≡ scalars.Op op (a ∷ [])) }
{
    let mut operands = List::new(alloc);
    operands.push(a)?;
    Ok(Scalar::Op(op, operands))
}

/// An operation on two operands.
#[inline(never)]
pub fn two(alloc: Global, op: SqlOp, a: Scalar, b: Scalar) -> Result<Scalar, NoMemory>
    ensures { IfOk result (λ s. s ≡ scalars.Op op (a ∷ b ∷ [])) }
{
    let mut operands = List::new(alloc);
    operands.push(a)?;
    operands.push(b)?;
    Ok(Scalar::Op(op, operands))
}

/// The second where the first is true, else the third.
#[inline(never)]
fn case(alloc: Global, c: Scalar, a: Scalar, b: Scalar) -> Result<Scalar, NoMemory>
    ensures { IfOk result (λ s. s ≡ scalars.Case c a b) }
{
    let c = Boxed::new(alloc, c)?;
    let a = Boxed::new(alloc, a)?;
    let b = Boxed::new(alloc, b)?;
    Ok(Scalar::Case(c, a, b))
}
