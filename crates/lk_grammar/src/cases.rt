//! The cases of a switch.

ghost use Rattle.lk_grammar.specs.Reading.{tag_case_with, last_case_with, cases_turn, case_next, expr_at};
ghost use Rattle.lk_read.specs.Gives.{Gives};
ghost use Rattle.lk_read.specs.Reader.{many};

use crate::levels::read_expr;
use lk_ast::{Case, Token};
use lk_parts::{Cases, bare_case, goes_on, last_case, named_case};
use lk_read::{
    Stop, eat_any_tag, eat_name, eat_sign, eat_word, next_is_any_tag, next_is_sign, next_is_word,
};
use std::alloc::Global;

/// `(x) -> e` or `-> e` behind a tag.
#[cycle(expressions)]
#[tactic(auto, unfolding(crate::specs::Reading::tag_case_with, lk_read::specs::Reader::when, lk_read::specs::Reader::bind, lk_read::specs::Reader::eat, lk_read::specs::Reader::give))]
fn read_tag_case<'a>(
    alloc: Global,
    room: usize,
    tag: &Token,
    tokens: &'a [Token],
) -> Result<(Case, &'a [Token]), Stop>
    ensures { Gives result (tag_case_with (expr_at room) tag.now tokens.now) }
{
    if next_is_sign(tokens, "(") {
        let (_open, rest) = eat_sign(tokens, "(")?;
        let (name, rest) = eat_name(rest)?;
        let (_close, rest) = eat_sign(rest, ")")?;
        let (_arrow, rest) = eat_sign(rest, "->")?;
        let (e, rest) = read_expr(alloc, room, rest)?;
        Ok((named_case(alloc, tag, name, e)?, rest))
    } else {
        let (_arrow, rest) = eat_sign(tokens, "->")?;
        let (e, rest) = read_expr(alloc, room, rest)?;
        Ok((bare_case(alloc, tag, e)?, rest))
    }
}

/// `x -> e`, after all other cases.
#[cycle(expressions)]
#[tactic(auto, unfolding(crate::specs::Reading::last_case_with, lk_read::specs::Reader::bind, lk_read::specs::Reader::eat, lk_read::specs::Reader::give))]
fn read_last_case(
    alloc: Global,
    room: usize,
    cases: Cases,
    tokens: &[Token],
) -> Result<(Cases, &[Token]), Stop>
    ensures { Gives result (last_case_with (expr_at room) cases tokens.now) }
{
    let (name, rest) = eat_name(tokens)?;
    let (_arrow, rest) = eat_sign(rest, "->")?;
    let (e, rest) = read_expr(alloc, room, rest)?;
    let last = last_case(alloc, name, e)?;
    let list = cases.list;
    Ok((
        Cases {
            list,
            last: Some(last),
        },
        rest,
    ))
}

/// One more case, where no last one has come yet.
#[cycle(expressions)]
#[tactic(auto, unfolding(crate::specs::Reading::cases_turn, lk_read::specs::Reader::given, lk_read::specs::Reader::stop, lk_read::specs::Reader::when, lk_read::specs::Reader::bind, lk_read::specs::Reader::eat, lk_read::specs::Reader::give))]
fn next_case(
    alloc: Global,
    room: usize,
    cases: Cases,
    tokens: &[Token],
) -> Result<(Cases, &[Token]), Stop>
    ensures { Gives result (cases_turn (expr_at room) cases tokens.now) }
{
    if !goes_on(&cases) {
        return Err(Stop::At(tokens.len()));
    }
    let (_case, rest) = eat_word(tokens, "case")?;
    if next_is_any_tag(rest) {
        let (tag, rest) = eat_any_tag(rest)?;
        let (case, rest) = read_tag_case(alloc, room, tag, rest)?;
        let mut list = cases.list;
        list.push(case)?;
        Ok((Cases { list, last: None }, rest))
    } else {
        read_last_case(alloc, room, cases, rest)
    }
}

/// All cases.
#[cycle(expressions)]
pub fn more_cases(
    alloc: Global,
    room: usize,
    first: Cases,
    tokens: &[Token],
) -> Result<(Cases, &[Token]), Stop>
    ensures { Gives result (many case_next (cases_turn (expr_at room)) room first tokens.now) }
{
    let mut cases = first;
    let mut rest = tokens;
    for _turn in 0..room {
        if !next_is_word(rest, "case") {
            return Ok((cases, rest));
        }
        let (next, after) = next_case(alloc, room, cases, rest)?;
        cases = next;
        rest = after;
    }
    if next_is_word(rest, "case") {
        Err(Stop::Spent)
    } else {
        Ok((cases, rest))
    }
}
