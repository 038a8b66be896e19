//! The SQL of updates and deletions.

ghost use Rattle.lk_norm.specs.Changes.{MakesChange, MakesSets, RefusesChange, change_bytes, change_of};
ghost use Rattle.lk_norm.specs.Limits.{most_bytes};
ghost use Rattle.lk_norm.specs.Normal.{norms, outputs};
ghost use Rattle.lk_norm.specs.Scopes.{names_in};
ghost use Rattle.lk_norm.specs.Sql.{change_sql};
ghost use Rattle.std.specs.Prelude.{◌≡◌, ◌≤◌, IfErr, IfOk};

use crate::error::NormError;
use crate::here::Here;
use crate::limits::{MOST_BYTES, ROOM};
use crate::names::Scope;
use crate::over::Over;
use crate::scalars::scalar;
use crate::stop::Stop;
use lk_ast::List;
use lk_query::{InlinedChange, Labelled};
use lk_sql::{Change, Out};
use std::alloc::Global;

/// The SQL of an update or a deletion. `SqlTooLong` exactly where the texts of its scalars together have over 1,048,576 bytes,
/// and `Branches` never. `NoMemory` also where parts nest over 4,096 deep.
pub fn change(alloc: Global, change: &InlinedChange) -> Result<Change, NormError>
    ensures made { IfOk result (λ sql. sql ≡ change_sql change.now) }
    ensures fits { IfOk result (λ sql. change_bytes sql ≤ most_bytes) }
    ensures refused { IfErr result (λ error. RefusesChange error (change_sql change.now)) }
{
    let mut left = MOST_BYTES;
    match change_within(alloc, change, &mut left) {
        Ok(sql) => Ok(sql),
        Err(Stop::TooLong) => Err(NormError::SqlTooLong),
        Err(Stop::NoMemory) => Err(NormError::NoMemory),
    }
}

/// The same with so many bytes for the texts of its scalars.
#[tactic(auto, unfolding(crate::specs::Scopes::names_in))]
fn change_within(alloc: Global, change: &InlinedChange, left: &mut u64) -> Result<Change, Stop>
    ensures { MakesChange result left.new (change_sql change.now) left.old }
{
    let over = Over::new(alloc, &change.parts)?;
    let captured = Scope::Captured(1, change.captured.as_slice());
    let scope = Scope::Columns(0, 1, change.labels.as_slice(), &captured);
    change_in(&over, change, &scope, left)
}

/// The same by what names stand for.
fn change_in(
    over: &Over,
    change: &InlinedChange,
    scope: &Scope,
    left: &mut u64,
) -> Result<Change, Stop>
    ensures { MakesChange result left.new (change_of over.now change.now (names_in over.now scope.now)) left.old }
{
    let here = Here {
        alloc: over.alloc,
        over: &*over,
        count: 1,
        scope: &*scope,
    };
    let cond = scalar(&here, ROOM, change.cond, left)?;
    let sets = sets(&here, change.sets.as_slice(), left)?;
    Ok(Change { cond, sets })
}

/// What columns are set to.
fn sets(here: &Here, items: &[Labelled], left: &mut u64) -> Result<List<Out>, Stop>
    ensures { MakesSets result left.new (outputs (norms here.now.over.now) items.now (names_in here.now.over.now here.now.scope.now) here.now.count) left.old }
{
    let mut sets = List::new(here.alloc);
    for item in items {
        let scalar = scalar(here, ROOM, item.part, left)?;
        let label = item.label.copy(here.alloc)?;
        sets.push(Out { label, scalar })?;
    }
    Ok(sets)
}
