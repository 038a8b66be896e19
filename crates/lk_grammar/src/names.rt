//! Names: parameters, places and keys.

ghost use Rattle.lk_grammar.specs.Reading.{names_turn, params_with, read_place, read_key, keys_turn, keys_with, order_with};
ghost use Rattle.lk_read.specs.Gives.{Gives};
ghost use Rattle.lk_read.specs.Reader.{many};
ghost use Rattle.lk_rows.specs.Reading.{comma};

use lk_ast::{List, Loc, SortKey, Token, Word};
use lk_read::{Stop, eat_name, eat_sign, eat_word, next_is_sign, next_is_word, word_of};
use std::alloc::Global;

/// `, x` behind these.
#[tactic(auto, unfolding(crate::specs::Reading::names_turn, lk_read::specs::Reader::bind, lk_read::specs::Reader::eat, lk_read::specs::Reader::give))]
fn next_name(
    alloc: Global,
    mut names: List<Word>,
    tokens: &[Token],
) -> Result<(List<Word>, &[Token]), Stop>
    ensures { Gives result (names_turn names tokens.now) }
{
    let (_comma, rest) = eat_sign(tokens, ",")?;
    let (name, rest) = eat_name(rest)?;
    names.push(word_of(alloc, name)?)?;
    Ok((names, rest))
}

/// All that are behind the first one.
fn more_names(
    alloc: Global,
    room: usize,
    first: List<Word>,
    tokens: &[Token],
) -> Result<(List<Word>, &[Token]), Stop>
    ensures { Gives result (many comma names_turn room first tokens.now) }
{
    let mut names = first;
    let mut rest = tokens;
    for _turn in 0..room {
        if !next_is_sign(rest, ",") {
            return Ok((names, rest));
        }
        let (next, after) = next_name(alloc, names, rest)?;
        names = next;
        rest = after;
    }
    if next_is_sign(rest, ",") {
        Err(Stop::Spent)
    } else {
        Ok((names, rest))
    }
}

/// The names before a `)`.
#[tactic(auto, unfolding(crate::specs::Reading::params_with, lk_read::specs::Reader::when, lk_read::specs::Reader::bind, lk_read::specs::Reader::eat, lk_read::specs::Reader::give))]
pub fn read_params(
    alloc: Global,
    room: usize,
    tokens: &[Token],
) -> Result<(List<Word>, &[Token]), Stop>
    ensures { Gives result (params_with room tokens.now) }
{
    let mut names = List::new(alloc);
    if next_is_sign(tokens, ")") {
        return Ok((names, tokens));
    }
    let (name, rest) = eat_name(tokens)?;
    names.push(word_of(alloc, name)?)?;
    more_names(alloc, room, names, rest)
}

/// `client`, `server` or nothing.
#[tactic(auto, unfolding(crate::specs::Reading::read_place, lk_read::specs::Reader::when, lk_read::specs::Reader::eat, lk_read::specs::Reader::give))]
pub fn read_place(tokens: &[Token]) -> Result<(Loc, &[Token]), Stop>
    ensures { Gives result (read_place tokens.now) }
{
    if next_is_word(tokens, "client") {
        let (_client, rest) = eat_word(tokens, "client")?;
        Ok((Loc::Client, rest))
    } else if next_is_word(tokens, "server") {
        let (_server, rest) = eat_word(tokens, "server")?;
        Ok((Loc::Server, rest))
    } else {
        Ok((Loc::Any, tokens))
    }
}

/// `l` or `l desc`.
#[tactic(auto, unfolding(crate::specs::Reading::read_key, lk_read::specs::Reader::when, lk_read::specs::Reader::eat, lk_read::specs::Reader::give))]
fn read_key(alloc: Global, tokens: &[Token]) -> Result<(SortKey, &[Token]), Stop>
    ensures { Gives result (read_key tokens.now) }
{
    let (name, rest) = eat_name(tokens)?;
    let label = word_of(alloc, name)?;
    if next_is_word(rest, "desc") {
        let (_desc, rest) = eat_word(rest, "desc")?;
        Ok((SortKey { label, desc: true }, rest))
    } else {
        Ok((SortKey { label, desc: false }, rest))
    }
}

/// `, l` behind these.
#[tactic(auto, unfolding(crate::specs::Reading::keys_turn, lk_read::specs::Reader::bind, lk_read::specs::Reader::eat, lk_read::specs::Reader::give))]
fn next_key(
    alloc: Global,
    mut keys: List<SortKey>,
    tokens: &[Token],
) -> Result<(List<SortKey>, &[Token]), Stop>
    ensures { Gives result (keys_turn keys tokens.now) }
{
    let (_comma, rest) = eat_sign(tokens, ",")?;
    let (key, rest) = read_key(alloc, rest)?;
    keys.push(key)?;
    Ok((keys, rest))
}

/// All that are behind the first one.
fn more_keys(
    alloc: Global,
    room: usize,
    first: List<SortKey>,
    tokens: &[Token],
) -> Result<(List<SortKey>, &[Token]), Stop>
    ensures { Gives result (many comma keys_turn room first tokens.now) }
{
    let mut keys = first;
    let mut rest = tokens;
    for _turn in 0..room {
        if !next_is_sign(rest, ",") {
            return Ok((keys, rest));
        }
        let (next, after) = next_key(alloc, keys, rest)?;
        keys = next;
        rest = after;
    }
    if next_is_sign(rest, ",") {
        Err(Stop::Spent)
    } else {
        Ok((keys, rest))
    }
}

/// `l, m desc`.
#[tactic(auto, unfolding(crate::specs::Reading::keys_with, lk_read::specs::Reader::bind))]
fn read_keys(
    alloc: Global,
    room: usize,
    tokens: &[Token],
) -> Result<(List<SortKey>, &[Token]), Stop>
    ensures { Gives result (keys_with room tokens.now) }
{
    let (key, rest) = read_key(alloc, tokens)?;
    let mut keys = List::new(alloc);
    keys.push(key)?;
    more_keys(alloc, room, keys, rest)
}

/// `orderby (l, m desc)` or nothing.
#[tactic(auto, unfolding(crate::specs::Reading::order_with, lk_read::specs::Reader::when, lk_read::specs::Reader::bind, lk_read::specs::Reader::eat, lk_read::specs::Reader::give))]
pub fn read_order(
    alloc: Global,
    room: usize,
    tokens: &[Token],
) -> Result<(List<SortKey>, &[Token]), Stop>
    ensures { Gives result (order_with room tokens.now) }
{
    if next_is_word(tokens, "orderby") {
        let (_orderby, rest) = eat_word(tokens, "orderby")?;
        let (_open, rest) = eat_sign(rest, "(")?;
        let (keys, rest) = read_keys(alloc, room, rest)?;
        let (_close, rest) = eat_sign(rest, ")")?;
        Ok((keys, rest))
    } else {
        Ok((List::new(alloc), tokens))
    }
}
