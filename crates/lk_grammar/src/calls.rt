//! Calls and fields.

ghost use Rattle.lk_grammar.specs.Reading.{args_turn, some_with, args_with, call_with, read_field, postfix_turn, is_postfix, postfix_next, postfix_with, primary_with, expr_at};
ghost use Rattle.lk_read.specs.Gives.{Gives};
ghost use Rattle.lk_read.specs.Reader.{many, peek};
ghost use Rattle.lk_rows.specs.Reading.{comma};
ghost use Rattle.std.specs.Prelude.{◌≡◌};

use crate::levels::read_expr;
use crate::primaries::read_primary;
use lk_ast::{Expr, List, Token};
use lk_parts::{Part, make_called, make_projected, takes_call};
use lk_read::{Stop, eat_name, eat_sign, is_sign, next_is_sign};
use std::alloc::Global;

/// `, e` behind these.
#[cycle(expressions)]
#[tactic(auto, unfolding(crate::specs::Reading::args_turn, lk_read::specs::Reader::bind, lk_read::specs::Reader::eat, lk_read::specs::Reader::give))]
fn next_arg(
    alloc: Global,
    room: usize,
    mut args: List<Expr>,
    tokens: &[Token],
) -> Result<(List<Expr>, &[Token]), Stop>
    ensures { Gives result (args_turn (expr_at room) args tokens.now) }
{
    let (_comma, rest) = eat_sign(tokens, ",")?;
    let (e, rest) = read_expr(alloc, room, rest)?;
    args.push(e.expr)?;
    Ok((args, rest))
}

/// All that are behind the first one.
#[cycle(expressions)]
fn more_args(
    alloc: Global,
    room: usize,
    first: List<Expr>,
    tokens: &[Token],
) -> Result<(List<Expr>, &[Token]), Stop>
    ensures { Gives result (many comma (args_turn (expr_at room)) room first tokens.now) }
{
    let mut args = first;
    let mut rest = tokens;
    for _turn in 0..room {
        if !next_is_sign(rest, ",") {
            return Ok((args, rest));
        }
        let (next, after) = next_arg(alloc, room, args, rest)?;
        args = next;
        rest = after;
    }
    if next_is_sign(rest, ",") {
        Err(Stop::Spent)
    } else {
        Ok((args, rest))
    }
}

/// `e, e`.
#[cycle(expressions)]
#[tactic(auto, unfolding(crate::specs::Reading::some_with, lk_read::specs::Reader::bind))]
fn some_args(alloc: Global, room: usize, tokens: &[Token]) -> Result<(List<Expr>, &[Token]), Stop>
    ensures { Gives result (some_with (expr_at room) room tokens.now) }
{
    let (e, rest) = read_expr(alloc, room, tokens)?;
    let mut args = List::new(alloc);
    args.push(e.expr)?;
    more_args(alloc, room, args, rest)
}

/// The expressions before this closing sign.
#[cycle(expressions)]
#[tactic(auto, unfolding(crate::specs::Reading::args_with, lk_read::specs::Reader::when, lk_read::specs::Reader::give))]
pub fn read_args<'a>(
    alloc: Global,
    room: usize,
    close: &str,
    tokens: &'a [Token],
) -> Result<(List<Expr>, &'a [Token]), Stop>
    ensures { Gives result (args_with close.now (expr_at room) room tokens.now) }
{
    if next_is_sign(tokens, close) {
        Ok((List::new(alloc), tokens))
    } else {
        some_args(alloc, room, tokens)
    }
}

/// `(e, e)` behind what is called.
#[cycle(expressions)]
#[tactic(auto, unfolding(crate::specs::Reading::call_with, lk_read::specs::Reader::given, lk_read::specs::Reader::stop, lk_read::specs::Reader::bind, lk_read::specs::Reader::eat, lk_read::specs::Reader::give))]
fn read_call(
    alloc: Global,
    room: usize,
    f: Part,
    tokens: &[Token],
) -> Result<(Part, &[Token]), Stop>
    ensures { Gives result (call_with (expr_at room) room f tokens.now) }
{
    if !takes_call(&f) {
        return Err(Stop::At(tokens.len()));
    }
    let (_open, rest) = eat_sign(tokens, "(")?;
    let (args, rest) = read_args(alloc, room, ")", rest)?;
    let (last, rest) = eat_sign(rest, ")")?;
    Ok((make_called(alloc, f, args, last)?, rest))
}

/// `.l` behind the record.
#[tactic(auto, unfolding(crate::specs::Reading::read_field, lk_read::specs::Reader::eat, lk_read::specs::Reader::give))]
fn read_field(alloc: Global, e: Part, tokens: &[Token]) -> Result<(Part, &[Token]), Stop>
    ensures { Gives result (read_field e tokens.now) }
{
    let (_dot, rest) = eat_sign(tokens, ".")?;
    let (label, rest) = eat_name(rest)?;
    Ok((make_projected(alloc, e, label)?, rest))
}

/// Whether a call or a field comes next.
fn next_is_postfix(tokens: &[Token]) -> bool
    ensures { result ≡ peek is_postfix tokens.now }
{
    match tokens {
        [token, ..] => is_sign(token, "(") || is_sign(token, "."),
        [] => false,
    }
}

/// A call or a field behind a value.
#[cycle(expressions)]
#[tactic(auto, unfolding(crate::specs::Reading::postfix_turn, lk_read::specs::Reader::when))]
fn next_postfix(
    alloc: Global,
    room: usize,
    e: Part,
    tokens: &[Token],
) -> Result<(Part, &[Token]), Stop>
    ensures { Gives result (postfix_turn (expr_at room) room e tokens.now) }
{
    if next_is_sign(tokens, "(") {
        read_call(alloc, room, e, tokens)
    } else {
        read_field(alloc, e, tokens)
    }
}

/// All that are behind the value.
#[cycle(expressions)]
fn more_postfix(
    alloc: Global,
    room: usize,
    first: Part,
    tokens: &[Token],
) -> Result<(Part, &[Token]), Stop>
    ensures { Gives result (many postfix_next (postfix_turn (expr_at room) room) room first tokens.now) }
{
    let mut e = first;
    let mut rest = tokens;
    for _turn in 0..room {
        if !next_is_postfix(rest) {
            return Ok((e, rest));
        }
        let (next, after) = next_postfix(alloc, room, e, rest)?;
        e = next;
        rest = after;
    }
    if next_is_postfix(rest) {
        Err(Stop::Spent)
    } else {
        Ok((e, rest))
    }
}

/// A value with calls and fields behind it.
#[cycle(expressions)]
#[tactic(auto, unfolding(crate::specs::Reading::postfix_with, lk_read::specs::Reader::bind))]
pub fn read_postfix(alloc: Global, room: usize, tokens: &[Token]) -> Result<(Part, &[Token]), Stop>
    ensures { Gives result (postfix_with (primary_with (expr_at room) room) (expr_at room) room tokens.now) }
{
    let (first, rest) = read_primary(alloc, room, tokens)?;
    more_postfix(alloc, room, first, rest)
}
