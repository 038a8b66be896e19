//! Expressions, level by level.

ghost use Rattle.lk_grammar.specs.Reading.{operator_turn, operator_next, operand_over, left_with, join_over, compare_turn, comparison_over, unary_over, expr_at};
ghost use Rattle.lk_parts.specs.declared.operators.Level.TheVariants.{Join};
ghost use Rattle.lk_read.specs.Gives.{Gives};
ghost use Rattle.lk_read.specs.Reader.{many};

use crate::calls::read_postfix;
use crate::forms::read_form;
use lk_ast::Token;
use lk_parts::{
    Level, Part, Start, eat_operator, make_binary, make_negated, next_begins, next_is_operator,
    takes_comparison, takes_operator,
};
use lk_read::{Stop, eat_sign, next_is_sign};
use std::alloc::Global;

/// An expression off the front of the tokens, and the tokens that are left. The room is for nesting and turns.
#[cycle(expressions)]
#[tactic(auto, unfolding(crate::specs::Reading::expr_at, crate::specs::Reading::or_over, lk_read::specs::Reader::tired))]
pub fn read_expr(alloc: Global, room: usize, tokens: &[Token]) -> Result<(Part, &[Token]), Stop>
    ensures { Gives result (expr_at room tokens.now) }
{
    if room == 0 {
        return Err(Stop::Spent);
    }
    read_left(alloc, room - 1, Level::Or, tokens)
}

/// What stands between two operators of this level.
#[cycle(expressions)]
#[tactic(auto, unfolding(crate::specs::Reading::and_over, crate::specs::Reading::sum_over, crate::specs::Reading::product_over))]
fn read_operand(
    alloc: Global,
    room: usize,
    level: Level,
    tokens: &[Token],
) -> Result<(Part, &[Token]), Stop>
    ensures { Gives result (operand_over level (expr_at room) room tokens.now) }
{
    match level {
        Level::Or => read_left(alloc, room, Level::And, tokens),
        Level::And => read_comparison(alloc, room, tokens),
        Level::Comparison => read_join(alloc, room, room, tokens),
        Level::Join => read_left(alloc, room, Level::Sum, tokens),
        Level::Sum => read_left(alloc, room, Level::Product, tokens),
        Level::Product => read_unary(alloc, room, room, tokens),
    }
}

/// An operator of this level and its right operand, behind this left one.
#[cycle(expressions)]
#[tactic(auto, unfolding(crate::specs::Reading::operator_turn, lk_read::specs::Reader::given, lk_read::specs::Reader::stop, lk_read::specs::Reader::bind, lk_read::specs::Reader::eat, lk_read::specs::Reader::give))]
fn next_operand(
    alloc: Global,
    room: usize,
    level: Level,
    left: Part,
    tokens: &[Token],
) -> Result<(Part, &[Token]), Stop>
    ensures { Gives result (operator_turn level (operand_over level (expr_at room) room) left tokens.now) }
{
    if !takes_operator(&left) {
        return Err(Stop::At(tokens.len()));
    }
    let (sign, rest) = eat_operator(tokens, level)?;
    let (right, rest) = read_operand(alloc, room, level, rest)?;
    Ok((make_binary(alloc, level, left, sign, right)?, rest))
}

/// All that are behind the first one.
#[cycle(expressions)]
fn more_operands(
    alloc: Global,
    room: usize,
    level: Level,
    first: Part,
    tokens: &[Token],
) -> Result<(Part, &[Token]), Stop>
    ensures { Gives result (many (operator_next level) (operator_turn level (operand_over level (expr_at room) room)) room first tokens.now) }
{
    let mut left = first;
    let mut rest = tokens;
    for _turn in 0..room {
        if !next_is_operator(rest, level) {
            return Ok((left, rest));
        }
        let (next, after) = next_operand(alloc, room, level, left, rest)?;
        left = next;
        rest = after;
    }
    if next_is_operator(rest, level) {
        Err(Stop::Spent)
    } else {
        Ok((left, rest))
    }
}

/// Operands with operators of this level between them, from the left.
#[cycle(expressions)]
#[tactic(auto, unfolding(crate::specs::Reading::left_with, lk_read::specs::Reader::bind))]
fn read_left(
    alloc: Global,
    room: usize,
    level: Level,
    tokens: &[Token],
) -> Result<(Part, &[Token]), Stop>
    ensures { Gives result (left_with level (operand_over level (expr_at room) room) room tokens.now) }
{
    let (first, rest) = read_operand(alloc, room, level, tokens)?;
    more_operands(alloc, room, level, first, rest)
}

/// A comparison and its right operand, behind this left one.
#[cycle(expressions)]
#[tactic(auto, unfolding(crate::specs::Reading::compare_turn, lk_read::specs::Reader::given, lk_read::specs::Reader::stop, lk_read::specs::Reader::bind, lk_read::specs::Reader::eat, lk_read::specs::Reader::give))]
fn next_comparison(
    alloc: Global,
    room: usize,
    left: Part,
    tokens: &[Token],
) -> Result<(Part, &[Token]), Stop>
    ensures { Gives result (compare_turn (join_over (expr_at room) room room) left tokens.now) }
{
    if !takes_comparison(&left) {
        return Err(Stop::At(tokens.len()));
    }
    let (sign, rest) = eat_operator(tokens, Level::Comparison)?;
    let (right, rest) = read_operand(alloc, room, Level::Comparison, rest)?;
    Ok((
        make_binary(alloc, Level::Comparison, left, sign, right)?,
        rest,
    ))
}

/// `a == b` and the like.
#[cycle(expressions)]
#[tactic(auto, unfolding(crate::specs::Reading::comparison_over, crate::specs::Reading::comparison_with, lk_read::specs::Reader::bind, lk_read::specs::Reader::when, lk_read::specs::Reader::give))]
fn read_comparison(alloc: Global, room: usize, tokens: &[Token]) -> Result<(Part, &[Token]), Stop>
    ensures { Gives result (comparison_over (expr_at room) room tokens.now) }
{
    let (left, rest) = read_operand(alloc, room, Level::Comparison, tokens)?;
    if next_is_operator(rest, Level::Comparison) {
        next_comparison(alloc, room, left, rest)
    } else {
        Ok((left, rest))
    }
}

/// `::` and the like with what is at their right, behind this left operand.
#[cycle(expressions)]
#[tactic(auto, unfolding(crate::specs::Reading::operator_turn, lk_read::specs::Reader::given, lk_read::specs::Reader::stop, lk_read::specs::Reader::bind, lk_read::specs::Reader::eat, lk_read::specs::Reader::give))]
fn next_join(
    alloc: Global,
    room: usize,
    turns: usize,
    left: Part,
    tokens: &[Token],
) -> Result<(Part, &[Token]), Stop>
    ensures { Gives result (operator_turn Join (join_over (expr_at room) room turns) left tokens.now) }
{
    if !takes_operator(&left) {
        return Err(Stop::At(tokens.len()));
    }
    let (sign, rest) = eat_operator(tokens, Level::Join)?;
    let (right, rest) = read_join(alloc, room, turns, rest)?;
    Ok((make_binary(alloc, Level::Join, left, sign, right)?, rest))
}

/// `a :: b :: c` and the like, from the right.
#[cycle(expressions)]
#[tactic(auto, unfolding(crate::specs::Reading::join_over, crate::specs::Reading::join_with, lk_read::specs::Reader::bind, lk_read::specs::Reader::when, lk_read::specs::Reader::give, lk_read::specs::Reader::tired))]
fn read_join(
    alloc: Global,
    room: usize,
    turns: usize,
    tokens: &[Token],
) -> Result<(Part, &[Token]), Stop>
    ensures { Gives result (join_over (expr_at room) room turns tokens.now) }
{
    if turns == 0 {
        return Err(Stop::Spent);
    }
    let (left, rest) = read_operand(alloc, room, Level::Join, tokens)?;
    if next_is_operator(rest, Level::Join) {
        next_join(alloc, room, turns - 1, left, rest)
    } else {
        Ok((left, rest))
    }
}

/// `-e`, a form, or a value with calls and fields behind it.
#[cycle(expressions)]
#[tactic(auto, unfolding(crate::specs::Reading::unary_over, crate::specs::Reading::unary_with, lk_read::specs::Reader::bind, lk_read::specs::Reader::when, lk_read::specs::Reader::eat, lk_read::specs::Reader::give, lk_read::specs::Reader::tired))]
fn read_unary(
    alloc: Global,
    room: usize,
    turns: usize,
    tokens: &[Token],
) -> Result<(Part, &[Token]), Stop>
    ensures { Gives result (unary_over (expr_at room) room turns tokens.now) }
{
    if turns == 0 {
        return Err(Stop::Spent);
    }
    if next_is_sign(tokens, "-") {
        let (sign, rest) = eat_sign(tokens, "-")?;
        let (e, rest) = read_unary(alloc, room, turns - 1, rest)?;
        Ok((make_negated(alloc, sign, e)?, rest))
    } else if next_begins(tokens, Start::Form) {
        read_form(alloc, room, tokens)
    } else {
        read_postfix(alloc, room, tokens)
    }
}
