//! The SQL of queries.

ghost use Rattle.lk_norm.specs.Capped.{capped};
ghost use Rattle.lk_norm.specs.Limits.{IsShort, RefusedFor, branch_count};
ghost use Rattle.lk_norm.specs.Made.{MakesBy};
ghost use Rattle.lk_norm.specs.Sql.{query_sql};
ghost use Rattle.lk_norm.specs.Walks.{keys_length, keys_words, sql_over, sql_paid, total};
ghost use Rattle.lk_sql.specs.Text.{key_text, keys_text};
ghost use Rattle.std.specs.Prelude.{◌≡◌, ◌+◌, IfErr, IfOk, length};

use crate::error::NormError;
use crate::here::Here;
use crate::lengths::name_length;
use crate::limits::{MOST_BRANCHES, MOST_BYTES, ROOM};
use crate::names::Scope;
use crate::over::Over;
use crate::stop::{Stop, charge};
use crate::walk::selects_of;
use lk_ast::{Column, List, NoMemory};
use lk_query::{Captured, Query};
use lk_sql::{Key, Sql};
use std::alloc::Global;

/// How many branches the normal form of a query has, and 1,025 where there are more. It isn't made for that.
pub fn branches(alloc: Global, query: &Query) -> Result<u32, NoMemory>
    ensures { IfOk result (λ count. count ≡ capped (branch_count query.now)) }
{
    let over = Over::new(alloc, &query.parts)?;
    Ok(over.count(query.root))
}

/// The SQL of a query, its normal form, if that has 1,024 branches at most and a text of 1,048,576 bytes at most. What is longer
/// is refused before it is made. `NoMemory` also where parts nest over 4,096 deep.
pub fn normalise(alloc: Global, query: &Query) -> Result<Sql, NormError>
    ensures normal { IfOk result (λ sql. sql ≡ query_sql query.now) }
    ensures short { IfOk result (λ sql. IsShort query.now) }
    ensures refused { IfErr result (RefusedFor query.now) }
{
    let over = Over::new(alloc, &query.parts)?;
    if over.count(query.root) > MOST_BRANCHES {
        return Err(NormError::Branches);
    }
    let captured = query.captured.as_slice();
    let columns = query.columns.as_slice();
    let keys = query.keys.as_slice();
    // 11 bytes more, since the first select takes those of a ` UNION ALL ` too.
    let mut left = MOST_BYTES + 11;
    match within(&over, query.root, captured, columns, keys, &mut left) {
        Ok(sql) => Ok(sql),
        Err(Stop::TooLong) => Err(NormError::SqlTooLong),
        Err(Stop::NoMemory) => Err(NormError::NoMemory),
    }
}

/// The SQL, if there are as many bytes.
#[tactic(auto, unfolding(crate::specs::Scopes::names_in))]
fn within(
    over: &Over,
    root: u32,
    captured: &[Captured],
    columns: &[Column],
    keys: &[Key],
    left: &mut u64,
) -> Result<Sql, Stop>
    ensures { MakesBy result left.new (sql_over over.now root captured.now columns.now keys.now) (sql_paid (sql_over over.now root captured.now columns.now keys.now) left.old) }
{
    charge(left, keys_length(keys)?)?;
    let scope = Scope::Captured(0, captured);
    let here = Here {
        alloc: over.alloc,
        over: &*over,
        count: 0,
        scope: &scope,
    };
    let selects = selects_of(&here, ROOM, columns, root, left)?;
    let keys = copy_keys(over.alloc, keys)?;
    Ok(Sql { selects, keys })
}

/// How long keys are.
fn keys_length(keys: &[Key]) -> Result<u64, NoMemory>
    ensures { IfOk result (λ n. n ≡ keys_length keys.now) }
{
    let mut total = keys_words(keys);
    for key in keys {
        let one = key_length(key)?.checked_add(2).ok_or(NoMemory)?;
        total = total.checked_add(one).ok_or(NoMemory)?;
    }
    Ok(total)
}

/// How long the words around keys are, but for what stands between.
fn keys_words(keys: &[Key]) -> u64
    ensures { result ≡ keys_words keys.now }
{
    match keys {
        [] => 0,
        [_, ..] => 8,
    }
}

/// How long a key is.
#[tactic(auto, using(crate::proofs::SqlTexts::key_length))]
fn key_length(key: &Key) -> Result<u64, NoMemory>
    ensures { IfOk result (λ n. n ≡ length (key_text key.now)) }
{
    let name = name_length(&key.label)?;
    if key.desc {
        return Ok(name.checked_add(5).ok_or(NoMemory)?);
    }
    Ok(name)
}

/// The same keys once more.
fn copy_keys(alloc: Global, keys: &[Key]) -> Result<List<Key>, NoMemory>
    ensures { IfOk result (λ copies. copies ≡ keys.now) }
{
    let mut copies = List::new(alloc);
    for key in keys {
        copies.push(Key {
            label: key.label.copy(alloc)?,
            desc: key.desc,
        })?;
    }
    Ok(copies)
}
