//! The selects of branches.

ghost use Rattle.lk_norm.specs.Made.{Makes, MakesBy, taken};
ghost use Rattle.lk_norm.specs.Normal.{generator, is_always, no_output, no_select, select, zero_of};
ghost use Rattle.lk_norm.specs.Walks.{MakesOuts, branch_at, cond_of, cond_paid, froms_in, froms_length, joined, joined_paid, select_paid, test_in, tests_in, whole, whole_paid, words_length};
ghost use Rattle.lk_sql.specs.Text.{from_text};
ghost use Rattle.lk_sql.specs.declared.tree.Scalar.TheVariants as scalars;
ghost use Rattle.std.specs.Prelude.{◌≡◌, ◌+◌, IfOk, length, map};

use crate::here::Here;
use crate::lengths::{generator_length, name_length};
use crate::over::Over;
use crate::places::{Froms, Place, Row, Tests};
use crate::rows::{out, outs};
use crate::scalars::{one, scalar, two, zero};
use crate::stop::{Stop, charge};
use lk_ast::{Base, BaseKind, Column, List, NoMemory, Text};
use lk_sql::{FromItem, Out, Scalar, Select, SqlOp};
use std::alloc::Global;

/// The select of a branch with this row.
#[cycle(makes)]
#[tactic(auto, using(crate::proofs::SelectTexts::paid_select, crate::proofs::SelectTexts::whole_of))]
pub fn select(
    over: &Over,
    room: usize,
    row: &Row,
    place: &Place,
    left: &mut u64,
) -> Result<Select, Stop>
    ensures { MakesBy result left.new (select (branch_at over.now row.now place.now)) (select_paid (select (branch_at over.now row.now place.now)) left.old) }
{
    let outs = outs(over, room, row, left)?;
    let froms = from_items(over.alloc, place.froms, left)?;
    charge(left, words_length(froms.as_slice(), outs.as_slice()))?;
    let cond = condition(over, room, place.tests, left)?;
    let cond = whole(cond, left)?;
    Ok(Select { froms, cond, outs })
}

/// How long the words around generators and outputs are.
fn words_length(froms: &[FromItem], outs: &[Out]) -> u64
    ensures { result ≡ words_length froms.now outs.now }
{
    match (froms, outs) {
        ([], []) => 14,
        ([], [_, ..]) => 12,
        ([_, ..], []) => 18,
        ([_, ..], [_, ..]) => 16,
    }
}

/// Generators, the outermost first.
#[tactic(auto, using(crate::proofs::SelectTexts::paid_froms, crate::proofs::Budget::taken_nothing), unfolding(crate::specs::Walks::froms_in))]
fn from_items(alloc: Global, froms: &Froms, left: &mut u64) -> Result<List<FromItem>, Stop>
    ensures { MakesBy result left.new (froms_in froms.now) (taken (froms_length (froms_in froms.now)) left.old) }
{
    match froms {
        Froms::Nothing => Ok(List::new(alloc)),
        Froms::More(before, var, table) => {
            let mut list = from_items(alloc, before, left)?;
            list.push(from_item(alloc, *var, table, left)?)?;
            Ok(list)
        }
    }
}

/// A generator.
#[tactic(auto, using(crate::proofs::SelectTexts::paid_from))]
fn from_item(alloc: Global, var: u32, table: &Text, left: &mut u64) -> Result<FromItem, Stop>
    ensures { MakesBy result left.new (generator var table.now) (taken (2 + length (from_text (generator var table.now))) left.old) }
{
    charge(left, 6)?;
    charge(left, name_length(table)?)?;
    charge(left, generator_length(alloc, var)?)?;
    Ok(FromItem {
        var,
        table: table.copy(alloc)?,
    })
}

/// The condition of tests, or `None` where it is TRUE.
#[cycle(makes)]
#[tactic(auto, using(crate::proofs::SelectTexts::cond_both, crate::proofs::SelectTexts::cond_both_paid), unfolding(crate::specs::Walks::tests_in))]
#[inline(never)]
fn condition(
    over: &Over,
    room: usize,
    tests: &Tests,
    left: &mut u64,
) -> Result<Option<Scalar>, Stop>
    ensures { MakesBy result left.new (cond_of (tests_in over.now tests.now)) (cond_paid (tests_in over.now tests.now) left.old) }
{
    match tests {
        Tests::Nothing => Ok(None),
        Tests::More(before, c, negated, count, scope) => {
            if room == 0 {
                return Err(Stop::NoMemory);
            }
            let so_far = condition(over, room - 1, before, left)?;
            let here = Here {
                alloc: over.alloc,
                over: &*over,
                count: *count,
                scope,
            };
            let next = test(&here, room - 1, *c, *negated, left)?;
            join(over.alloc, so_far, next, left)
        }
    }
}

/// A test, or `None` where it is TRUE.
#[cycle(makes)]
#[tactic(auto, using(crate::proofs::SelectTexts::paid_not, crate::proofs::SelectTexts::cond_not, crate::proofs::SelectTexts::paid_more))]
#[inline(never)]
fn test(
    here: &Here,
    room: usize,
    c: u32,
    negated: bool,
    left: &mut u64,
) -> Result<Option<Scalar>, Stop>
    ensures { MakesBy result left.new (cond_of (test_in here.now.over.now c negated here.now.count here.now.scope.now)) (cond_paid (test_in here.now.over.now c negated here.now.count here.now.scope.now) left.old) }
{
    if negated {
        charge(left, 6)?;
        let inner = scalar(here, room, c, left)?;
        return Ok(Some(one(here.alloc, SqlOp::Not, inner)?));
    }
    // TRUE is left out, so it may be longer than what is left.
    *left = left.checked_add(4).ok_or(NoMemory)?;
    let made = scalar(here, room, c, left)?;
    if is_always(&made) {
        return Ok(None);
    }
    charge(left, 4)?;
    Ok(Some(made))
}

/// Whether it is TRUE.
fn is_always(cond: &Scalar) -> bool
    ensures { result ≡ is_always cond.now }
{
    match cond {
        Scalar::Lit(Base::Bool(truth)) => *truth,
        Scalar::Lit(Base::Int(_))
        | Scalar::Lit(Base::Text(_))
        | Scalar::Param(_)
        | Scalar::Column(_, _)
        | Scalar::Op(_, _)
        | Scalar::Case(_, _, _)
        | Scalar::Exists(_) => false,
    }
}

/// Both conditions.
#[inline(never)]
fn join(
    alloc: Global,
    so_far: Option<Scalar>,
    next: Option<Scalar>,
    left: &mut u64,
) -> Result<Option<Scalar>, Stop>
    ensures { MakesBy result left.new (joined so_far next) (joined_paid so_far next left.old) }
{
    match (so_far, next) {
        (None, next) => Ok(next),
        (Some(so_far), None) => Ok(Some(so_far)),
        (Some(so_far), Some(next)) => {
            charge(left, 7)?;
            Ok(Some(two(alloc, SqlOp::And, so_far, next)?))
        }
    }
}

/// A condition, TRUE where there is none.
fn whole(cond: Option<Scalar>, left: &mut u64) -> Result<Scalar, Stop>
    ensures { MakesBy result left.new (whole cond) (whole_paid cond left.old) }
{
    match cond {
        Some(cond) => Ok(cond),
        None => {
            charge(left, 4)?;
            Ok(Scalar::Lit(Base::Bool(true)))
        }
    }
}

/// A select that gives no row, of these columns.
#[tactic(auto, using(crate::proofs::SelectTexts::paid_no_select))]
pub fn no_select(alloc: Global, columns: &[Column], left: &mut u64) -> Result<Select, Stop>
    ensures { MakesBy result left.new (no_select columns.now) (select_paid (no_select columns.now) left.old) }
{
    let outs = no_outs(alloc, columns, left)?;
    let froms = List::new(alloc);
    charge(left, words_length(froms.as_slice(), outs.as_slice()))?;
    charge(left, 5)?;
    let cond = Scalar::Lit(Base::Bool(false));
    Ok(Select { froms, cond, outs })
}

/// Outputs for these columns.
fn no_outs(alloc: Global, columns: &[Column], left: &mut u64) -> Result<List<Out>, Stop>
    ensures { MakesOuts result left.new (map no_output columns.now) left.old }
{
    let mut list = List::new(alloc);
    for column in columns {
        let scalar = zero_of(alloc, column.kind, left)?;
        list.push(out(alloc, &column.label, scalar, left)?)?;
    }
    Ok(list)
}

/// A literal of that kind.
#[tactic(auto, using(crate::proofs::Budget::paid_zero, crate::proofs::Budget::paid_lit))]
fn zero_of(alloc: Global, kind: BaseKind, left: &mut u64) -> Result<Scalar, Stop>
    ensures { Makes result left.new (scalars.Lit (zero_of kind)) left.old }
{
    match kind {
        BaseKind::Int => zero(left),
        BaseKind::Bool => {
            charge(left, 5)?;
            Ok(Scalar::Lit(Base::Bool(false)))
        }
        BaseKind::Text => {
            charge(left, 2)?;
            Ok(Scalar::Lit(Base::Text(Text::new(alloc))))
        }
    }
}
