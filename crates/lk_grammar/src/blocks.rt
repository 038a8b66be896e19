//! Blocks.

ghost use Rattle.lk_grammar.specs.Reading.{let_with, statements_with, block_with, expr_at};
ghost use Rattle.lk_read.specs.Gives.{Gives};
ghost use Rattle.std.specs.Prelude.{[]};

use crate::levels::read_expr;
use lk_ast::{List, Token};
use lk_parts::{Part, Statement, make_braced, plain_statement, var_statement};
use lk_read::{Stop, eat_name, eat_sign, eat_word, next_is_sign, next_is_word};
use std::alloc::Global;

/// `var x = e;`.
#[cycle(expressions)]
#[tactic(auto, unfolding(crate::specs::Reading::let_with, lk_read::specs::Reader::bind, lk_read::specs::Reader::eat, lk_read::specs::Reader::give))]
fn read_let(alloc: Global, room: usize, tokens: &[Token]) -> Result<(Statement, &[Token]), Stop>
    ensures { Gives result (let_with (expr_at room) tokens.now) }
{
    let (word, rest) = eat_word(tokens, "var")?;
    let (name, rest) = eat_name(rest)?;
    let (_equals, rest) = eat_sign(rest, "=")?;
    let (e, rest) = read_expr(alloc, room, rest)?;
    let (_end, rest) = eat_sign(rest, ";")?;
    Ok((var_statement(alloc, word, name, e)?, rest))
}

/// The statements of a block, and the expression behind them.
#[cycle(expressions)]
fn read_statements(
    alloc: Global,
    room: usize,
    tokens: &[Token],
) -> Result<((List<Statement>, Part), &[Token]), Stop>
    ensures { Gives result (statements_with (expr_at room) room [] tokens.now) }
{
    let mut list = List::new(alloc);
    let mut rest = tokens;
    for _turn in 0..room {
        if next_is_word(rest, "var") {
            let (next, after) = read_let(alloc, room, rest)?;
            list.push(next)?;
            rest = after;
        } else {
            let (e, after) = read_expr(alloc, room, rest)?;
            if !next_is_sign(after, ";") {
                return Ok(((list, e), after));
            }
            let (_end, after) = eat_sign(after, ";")?;
            list.push(plain_statement(e))?;
            rest = after;
        }
    }
    Err(Stop::Spent)
}

/// `{ var x = e; e; e }`.
#[cycle(expressions)]
#[tactic(auto, unfolding(crate::specs::Reading::block_with, lk_read::specs::Reader::bind, lk_read::specs::Reader::eat, lk_read::specs::Reader::give))]
pub fn read_block(alloc: Global, room: usize, tokens: &[Token]) -> Result<(Part, &[Token]), Stop>
    ensures { Gives result (block_with (expr_at room) room tokens.now) }
{
    let (first, rest) = eat_sign(tokens, "{")?;
    let ((statements, e), rest) = read_statements(alloc, room, rest)?;
    let (last, rest) = eat_sign(rest, "}")?;
    Ok((make_braced(alloc, first, statements, e, last)?, rest))
}
