//! Literals, names, tags, and what stands between brackets.

ghost use Rattle.lk_grammar.specs.Reading.{tag_body_with, tag_with, part_with, parts_turn, parts_with, record_end_with, record_with, round_body_with, round_with, list_with, prefix_with, read_literal, read_name, primary_with, expr_at};
ghost use Rattle.lk_read.specs.Gives.{Gives};
ghost use Rattle.lk_read.specs.Reader.{many};
ghost use Rattle.lk_rows.specs.Reading.{comma};

use crate::blocks::read_block;
use crate::calls::read_args;
use crate::levels::read_expr;
use lk_ast::{List, PartExpr, Token};
use lk_parts::{
    Part, Start, eat_begin, is_bare_name, label_of, make_bare_tag, make_extended, make_list,
    make_literal, make_named, make_prefixed, make_record, make_tagged, make_unit_tag, make_wrapped,
    next_begins, part_of,
};
use lk_read::{
    Stop, eat_any_tag, eat_name, eat_sign, next_is_any_tag, next_is_name, next_is_sign, word_of,
};
use std::alloc::Global;

/// `()` or `(e)` behind a tag.
#[cycle(expressions)]
#[tactic(auto, unfolding(crate::specs::Reading::tag_body_with, lk_read::specs::Reader::when, lk_read::specs::Reader::bind, lk_read::specs::Reader::eat, lk_read::specs::Reader::give))]
fn read_tag_body<'a>(
    alloc: Global,
    room: usize,
    tag: &Token,
    tokens: &'a [Token],
) -> Result<(Part, &'a [Token]), Stop>
    ensures { Gives result (tag_body_with (expr_at room) tag.now tokens.now) }
{
    let (_open, rest) = eat_sign(tokens, "(")?;
    if next_is_sign(rest, ")") {
        let (last, rest) = eat_sign(rest, ")")?;
        Ok((make_unit_tag(alloc, tag, last)?, rest))
    } else {
        let (e, rest) = read_expr(alloc, room, rest)?;
        let (last, rest) = eat_sign(rest, ")")?;
        Ok((make_tagged(alloc, tag, e, last)?, rest))
    }
}

/// `T`, `T()` or `T(e)`.
#[cycle(expressions)]
#[tactic(auto, unfolding(crate::specs::Reading::tag_with, lk_read::specs::Reader::when, lk_read::specs::Reader::eat, lk_read::specs::Reader::give))]
fn read_tag(alloc: Global, room: usize, tokens: &[Token]) -> Result<(Part, &[Token]), Stop>
    ensures { Gives result (tag_with (expr_at room) tokens.now) }
{
    let (tag, rest) = eat_any_tag(tokens)?;
    if next_is_sign(rest, "(") {
        read_tag_body(alloc, room, tag, rest)
    } else {
        Ok((make_bare_tag(alloc, tag)?, rest))
    }
}

/// `l = e`.
#[cycle(expressions)]
#[tactic(auto, unfolding(crate::specs::Reading::part_with, lk_read::specs::Reader::bind, lk_read::specs::Reader::eat, lk_read::specs::Reader::give))]
fn read_part(alloc: Global, room: usize, tokens: &[Token]) -> Result<(PartExpr, &[Token]), Stop>
    ensures { Gives result (part_with (expr_at room) tokens.now) }
{
    let (name, rest) = eat_name(tokens)?;
    let (_equals, rest) = eat_sign(rest, "=")?;
    let (e, rest) = read_expr(alloc, room, rest)?;
    Ok((part_of(word_of(alloc, name)?, e), rest))
}

/// `, l = e` behind these.
#[cycle(expressions)]
#[tactic(auto, unfolding(crate::specs::Reading::parts_turn, lk_read::specs::Reader::bind, lk_read::specs::Reader::eat, lk_read::specs::Reader::give))]
fn next_part(
    alloc: Global,
    room: usize,
    mut parts: List<PartExpr>,
    tokens: &[Token],
) -> Result<(List<PartExpr>, &[Token]), Stop>
    ensures { Gives result (parts_turn (expr_at room) parts tokens.now) }
{
    let (_comma, rest) = eat_sign(tokens, ",")?;
    let (part, rest) = read_part(alloc, room, rest)?;
    parts.push(part)?;
    Ok((parts, rest))
}

/// All that are behind the first one.
#[cycle(expressions)]
fn more_parts(
    alloc: Global,
    room: usize,
    first: List<PartExpr>,
    tokens: &[Token],
) -> Result<(List<PartExpr>, &[Token]), Stop>
    ensures { Gives result (many comma (parts_turn (expr_at room)) room first tokens.now) }
{
    let mut parts = first;
    let mut rest = tokens;
    for _turn in 0..room {
        if !next_is_sign(rest, ",") {
            return Ok((parts, rest));
        }
        let (next, after) = next_part(alloc, room, parts, rest)?;
        parts = next;
        rest = after;
    }
    if next_is_sign(rest, ",") {
        Err(Stop::Spent)
    } else {
        Ok((parts, rest))
    }
}

/// `l = e, m = e`.
#[cycle(expressions)]
#[tactic(auto, unfolding(crate::specs::Reading::parts_with, lk_read::specs::Reader::bind))]
pub fn read_parts(
    alloc: Global,
    room: usize,
    tokens: &[Token],
) -> Result<(List<PartExpr>, &[Token]), Stop>
    ensures { Gives result (parts_with (expr_at room) room tokens.now) }
{
    let (part, rest) = read_part(alloc, room, tokens)?;
    let mut parts = List::new(alloc);
    parts.push(part)?;
    more_parts(alloc, room, parts, rest)
}

/// `)` or `| r)` of a record.
#[cycle(expressions)]
#[tactic(auto, unfolding(crate::specs::Reading::record_end_with, lk_read::specs::Reader::when, lk_read::specs::Reader::bind, lk_read::specs::Reader::eat, lk_read::specs::Reader::give))]
fn read_record_end<'a>(
    alloc: Global,
    room: usize,
    first: &Token,
    parts: List<PartExpr>,
    tokens: &'a [Token],
) -> Result<(Part, &'a [Token]), Stop>
    ensures { Gives result (record_end_with (expr_at room) first.now parts tokens.now) }
{
    if next_is_sign(tokens, "|") {
        let (_bar, rest) = eat_sign(tokens, "|")?;
        let (other, rest) = read_expr(alloc, room, rest)?;
        let (last, rest) = eat_sign(rest, ")")?;
        Ok((make_extended(alloc, first, parts, other, last)?, rest))
    } else {
        let (last, rest) = eat_sign(tokens, ")")?;
        Ok((make_record(alloc, first, parts, last)?, rest))
    }
}

/// A record whose first label is read.
#[cycle(expressions)]
#[tactic(auto, unfolding(crate::specs::Reading::record_with, lk_read::specs::Reader::given, lk_read::specs::Reader::stop, lk_read::specs::Reader::bind, lk_read::specs::Reader::eat))]
fn read_record<'a>(
    alloc: Global,
    room: usize,
    first: &Token,
    label: Part,
    tokens: &'a [Token],
) -> Result<(Part, &'a [Token]), Stop>
    ensures { Gives result (record_with (expr_at room) room first.now label tokens.now) }
{
    if !is_bare_name(&label) {
        return Err(Stop::At(tokens.len()));
    }
    let (_equals, rest) = eat_sign(tokens, "=")?;
    let (e, rest) = read_expr(alloc, room, rest)?;
    let label = label_of(alloc, &label)?;
    let mut parts = List::new(alloc);
    parts.push(part_of(label, e))?;
    let (parts, rest) = more_parts(alloc, room, parts, rest)?;
    read_record_end(alloc, room, first, parts, rest)
}

/// What stands behind a `(`, which isn't `)`.
#[cycle(expressions)]
#[tactic(auto, unfolding(crate::specs::Reading::round_body_with, lk_read::specs::Reader::when, lk_read::specs::Reader::bind, lk_read::specs::Reader::eat, lk_read::specs::Reader::give))]
fn read_round_body<'a>(
    alloc: Global,
    room: usize,
    first: &Token,
    tokens: &'a [Token],
) -> Result<(Part, &'a [Token]), Stop>
    ensures { Gives result (round_body_with (expr_at room) room first.now tokens.now) }
{
    let (e, rest) = read_expr(alloc, room, tokens)?;
    if next_is_sign(rest, "=") {
        read_record(alloc, room, first, e, rest)
    } else {
        let (last, rest) = eat_sign(rest, ")")?;
        Ok((make_wrapped(first, e, last), rest))
    }
}

/// `()`, `(e)` or a record.
#[cycle(expressions)]
#[tactic(auto, unfolding(crate::specs::Reading::round_with, lk_read::specs::Reader::when, lk_read::specs::Reader::eat, lk_read::specs::Reader::give))]
fn read_round(alloc: Global, room: usize, tokens: &[Token]) -> Result<(Part, &[Token]), Stop>
    ensures { Gives result (round_with (expr_at room) room tokens.now) }
{
    let (first, rest) = eat_sign(tokens, "(")?;
    if next_is_sign(rest, ")") {
        let (last, rest) = eat_sign(rest, ")")?;
        Ok((make_record(alloc, first, List::new(alloc), last)?, rest))
    } else {
        read_round_body(alloc, room, first, rest)
    }
}

/// `[e, e]`.
#[cycle(expressions)]
#[tactic(auto, unfolding(crate::specs::Reading::list_with, lk_read::specs::Reader::bind, lk_read::specs::Reader::eat, lk_read::specs::Reader::give))]
fn read_list(alloc: Global, room: usize, tokens: &[Token]) -> Result<(Part, &[Token]), Stop>
    ensures { Gives result (list_with (expr_at room) room tokens.now) }
{
    let (first, rest) = eat_sign(tokens, "[")?;
    let (items, rest) = read_args(alloc, room, "]", rest)?;
    let (last, rest) = eat_sign(rest, "]")?;
    Ok((make_list(alloc, first, items, last)?, rest))
}

/// `not(e)` and the like.
#[cycle(expressions)]
#[tactic(auto, unfolding(crate::specs::Reading::prefix_with, lk_read::specs::Reader::bind, lk_read::specs::Reader::eat, lk_read::specs::Reader::give))]
fn read_prefixed(alloc: Global, room: usize, tokens: &[Token]) -> Result<(Part, &[Token]), Stop>
    ensures { Gives result (prefix_with (expr_at room) tokens.now) }
{
    let (word, rest) = eat_begin(tokens, Start::Prefix)?;
    let (_open, rest) = eat_sign(rest, "(")?;
    let (e, rest) = read_expr(alloc, room, rest)?;
    let (last, rest) = eat_sign(rest, ")")?;
    Ok((make_prefixed(alloc, word, e, last)?, rest))
}

/// A number, a text, `true` or `false`.
#[tactic(auto, unfolding(crate::specs::Reading::read_literal, lk_read::specs::Reader::eat, lk_read::specs::Reader::give))]
fn read_literal(alloc: Global, tokens: &[Token]) -> Result<(Part, &[Token]), Stop>
    ensures { Gives result (read_literal tokens.now) }
{
    let (token, rest) = eat_begin(tokens, Start::Literal)?;
    Ok((make_literal(alloc, token)?, rest))
}

/// A name.
#[tactic(auto, unfolding(crate::specs::Reading::read_name, lk_read::specs::Reader::eat, lk_read::specs::Reader::give))]
fn read_name(alloc: Global, tokens: &[Token]) -> Result<(Part, &[Token]), Stop>
    ensures { Gives result (read_name tokens.now) }
{
    let (token, rest) = eat_name(tokens)?;
    Ok((make_named(alloc, token)?, rest))
}

/// A literal, a name, a tag, or what stands between brackets.
#[cycle(expressions)]
#[tactic(auto, unfolding(crate::specs::Reading::primary_with, lk_read::specs::Reader::when, lk_read::specs::Reader::stop))]
pub fn read_primary(alloc: Global, room: usize, tokens: &[Token]) -> Result<(Part, &[Token]), Stop>
    ensures { Gives result (primary_with (expr_at room) room tokens.now) }
{
    if next_begins(tokens, Start::Literal) {
        read_literal(alloc, tokens)
    } else if next_is_name(tokens) {
        read_name(alloc, tokens)
    } else if next_is_any_tag(tokens) {
        read_tag(alloc, room, tokens)
    } else if next_is_sign(tokens, "(") {
        read_round(alloc, room, tokens)
    } else if next_is_sign(tokens, "[") {
        read_list(alloc, room, tokens)
    } else if next_is_sign(tokens, "{") {
        read_block(alloc, room, tokens)
    } else if next_begins(tokens, Start::Prefix) {
        read_prefixed(alloc, room, tokens)
    } else {
        Err(Stop::At(tokens.len()))
    }
}
