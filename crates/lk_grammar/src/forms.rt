//! Forms, which begin with a keyword.

ghost use Rattle.lk_grammar.specs.Reading.{if_with, list_loop_with, table_loop_with, for_with, where_with, insert_with, change_cond_with, change_with, update_with, delete_with, switch_with, query_with, lambda_with, form_with, expr_at};
ghost use Rattle.lk_read.specs.Gives.{Gives};

use crate::blocks::read_block;
use crate::cases::more_cases;
use crate::levels::read_expr;
use crate::names::{read_order, read_params, read_place};
use crate::primaries::read_parts;
use lk_ast::Token;
use lk_parts::{
    Change, Part, make_change, make_delete, make_if, make_insert, make_lambda, make_list_loop,
    make_query, make_switch, make_table_loop, make_update, make_where, no_cases, some_case,
};
use lk_read::{Stop, eat_name, eat_sign, eat_word, next_is_sign, next_is_word};
use std::alloc::Global;

/// `if (c) d else e`.
#[cycle(expressions)]
#[tactic(auto, unfolding(crate::specs::Reading::if_with, lk_read::specs::Reader::bind, lk_read::specs::Reader::eat, lk_read::specs::Reader::give))]
fn read_if(alloc: Global, room: usize, tokens: &[Token]) -> Result<(Part, &[Token]), Stop>
    ensures { Gives result (if_with (expr_at room) tokens.now) }
{
    let (word, rest) = eat_word(tokens, "if")?;
    let (_open, rest) = eat_sign(rest, "(")?;
    let (c, rest) = read_expr(alloc, room, rest)?;
    let (_close, rest) = eat_sign(rest, ")")?;
    let (d, rest) = read_expr(alloc, room, rest)?;
    let (_else, rest) = eat_word(rest, "else")?;
    let (e, rest) = read_expr(alloc, room, rest)?;
    Ok((make_if(alloc, word, c, d, e)?, rest))
}

/// `<- e) d` of a loop over a list.
#[cycle(expressions)]
#[tactic(auto, unfolding(crate::specs::Reading::list_loop_with, lk_read::specs::Reader::bind, lk_read::specs::Reader::eat, lk_read::specs::Reader::give))]
fn read_list_loop<'a>(
    alloc: Global,
    room: usize,
    word: &Token,
    name: &Token,
    tokens: &'a [Token],
) -> Result<(Part, &'a [Token]), Stop>
    ensures { Gives result (list_loop_with (expr_at room) word.now name.now tokens.now) }
{
    let (_arrow, rest) = eat_sign(tokens, "<-")?;
    let (e, rest) = read_expr(alloc, room, rest)?;
    let (_close, rest) = eat_sign(rest, ")")?;
    let (d, rest) = read_expr(alloc, room, rest)?;
    Ok((make_list_loop(alloc, word, name, e, d)?, rest))
}

/// `<-- t) d` of a loop over a table.
#[cycle(expressions)]
#[tactic(auto, unfolding(crate::specs::Reading::table_loop_with, lk_read::specs::Reader::bind, lk_read::specs::Reader::eat, lk_read::specs::Reader::give))]
fn read_table_loop<'a>(
    alloc: Global,
    room: usize,
    word: &Token,
    name: &Token,
    tokens: &'a [Token],
) -> Result<(Part, &'a [Token]), Stop>
    ensures { Gives result (table_loop_with (expr_at room) word.now name.now tokens.now) }
{
    let (_arrow, rest) = eat_sign(tokens, "<--")?;
    let (table, rest) = eat_name(rest)?;
    let (_close, rest) = eat_sign(rest, ")")?;
    let (d, rest) = read_expr(alloc, room, rest)?;
    Ok((make_table_loop(alloc, word, name, table, d)?, rest))
}

/// `for (x <- e) d` or `for (x <-- t) d`.
#[cycle(expressions)]
#[tactic(auto, unfolding(crate::specs::Reading::for_with, lk_read::specs::Reader::when, lk_read::specs::Reader::eat))]
fn read_for(alloc: Global, room: usize, tokens: &[Token]) -> Result<(Part, &[Token]), Stop>
    ensures { Gives result (for_with (expr_at room) tokens.now) }
{
    let (word, rest) = eat_word(tokens, "for")?;
    let (_open, rest) = eat_sign(rest, "(")?;
    let (name, rest) = eat_name(rest)?;
    if next_is_sign(rest, "<-") {
        read_list_loop(alloc, room, word, name, rest)
    } else {
        read_table_loop(alloc, room, word, name, rest)
    }
}

/// `where (c) e`.
#[cycle(expressions)]
#[tactic(auto, unfolding(crate::specs::Reading::where_with, lk_read::specs::Reader::bind, lk_read::specs::Reader::eat, lk_read::specs::Reader::give))]
fn read_where(alloc: Global, room: usize, tokens: &[Token]) -> Result<(Part, &[Token]), Stop>
    ensures { Gives result (where_with (expr_at room) tokens.now) }
{
    let (word, rest) = eat_word(tokens, "where")?;
    let (_open, rest) = eat_sign(rest, "(")?;
    let (c, rest) = read_expr(alloc, room, rest)?;
    let (_close, rest) = eat_sign(rest, ")")?;
    let (e, rest) = read_expr(alloc, room, rest)?;
    Ok((make_where(alloc, word, c, e)?, rest))
}

/// `insert t values e`.
#[cycle(expressions)]
#[tactic(auto, unfolding(crate::specs::Reading::insert_with, lk_read::specs::Reader::bind, lk_read::specs::Reader::eat, lk_read::specs::Reader::give))]
fn read_insert(alloc: Global, room: usize, tokens: &[Token]) -> Result<(Part, &[Token]), Stop>
    ensures { Gives result (insert_with (expr_at room) tokens.now) }
{
    let (word, rest) = eat_word(tokens, "insert")?;
    let (table, rest) = eat_name(rest)?;
    let (_values, rest) = eat_word(rest, "values")?;
    let (e, rest) = read_expr(alloc, room, rest)?;
    Ok((make_insert(alloc, word, table, e)?, rest))
}

/// `where (c)` of an update or a deletion.
#[cycle(expressions)]
#[tactic(auto, unfolding(crate::specs::Reading::change_cond_with, lk_read::specs::Reader::bind, lk_read::specs::Reader::eat, lk_read::specs::Reader::give))]
fn read_change_cond<'a>(
    alloc: Global,
    room: usize,
    name: &Token,
    table: &Token,
    tokens: &'a [Token],
) -> Result<(Change, &'a [Token]), Stop>
    ensures { Gives result (change_cond_with (expr_at room) name.now table.now tokens.now) }
{
    let (_where, rest) = eat_word(tokens, "where")?;
    let (_open, rest) = eat_sign(rest, "(")?;
    let (c, rest) = read_expr(alloc, room, rest)?;
    let (last, rest) = eat_sign(rest, ")")?;
    Ok((make_change(alloc, name, table, c, last)?, rest))
}

/// `(x <-- t) where (c)` of an update or a deletion.
#[cycle(expressions)]
#[tactic(auto, unfolding(crate::specs::Reading::change_with, lk_read::specs::Reader::eat))]
fn read_change(alloc: Global, room: usize, tokens: &[Token]) -> Result<(Change, &[Token]), Stop>
    ensures { Gives result (change_with (expr_at room) tokens.now) }
{
    let (_open, rest) = eat_sign(tokens, "(")?;
    let (name, rest) = eat_name(rest)?;
    let (_arrow, rest) = eat_sign(rest, "<--")?;
    let (table, rest) = eat_name(rest)?;
    let (_close, rest) = eat_sign(rest, ")")?;
    read_change_cond(alloc, room, name, table, rest)
}

/// `update (x <-- t) where (c) set (l = e)`.
#[cycle(expressions)]
#[tactic(auto, unfolding(crate::specs::Reading::update_with, lk_read::specs::Reader::bind, lk_read::specs::Reader::eat, lk_read::specs::Reader::give))]
fn read_update(alloc: Global, room: usize, tokens: &[Token]) -> Result<(Part, &[Token]), Stop>
    ensures { Gives result (update_with (expr_at room) room tokens.now) }
{
    let (word, rest) = eat_word(tokens, "update")?;
    let (change, rest) = read_change(alloc, room, rest)?;
    let (_set, rest) = eat_word(rest, "set")?;
    let (_open, rest) = eat_sign(rest, "(")?;
    let (sets, rest) = read_parts(alloc, room, rest)?;
    let (last, rest) = eat_sign(rest, ")")?;
    Ok((make_update(alloc, word, change, sets, last)?, rest))
}

/// `delete (x <-- t) where (c)`.
#[cycle(expressions)]
#[tactic(auto, unfolding(crate::specs::Reading::delete_with, lk_read::specs::Reader::bind, lk_read::specs::Reader::eat, lk_read::specs::Reader::give))]
fn read_delete(alloc: Global, room: usize, tokens: &[Token]) -> Result<(Part, &[Token]), Stop>
    ensures { Gives result (delete_with (expr_at room) tokens.now) }
{
    let (word, rest) = eat_word(tokens, "delete")?;
    let (change, rest) = read_change(alloc, room, rest)?;
    Ok((make_delete(alloc, word, change)?, rest))
}

/// `switch (e) { .. }`, with a case.
#[cycle(expressions)]
#[tactic(auto, unfolding(crate::specs::Reading::switch_with, lk_read::specs::Reader::given, lk_read::specs::Reader::stop, lk_read::specs::Reader::bind, lk_read::specs::Reader::eat, lk_read::specs::Reader::give))]
fn read_switch(alloc: Global, room: usize, tokens: &[Token]) -> Result<(Part, &[Token]), Stop>
    ensures { Gives result (switch_with (expr_at room) room tokens.now) }
{
    let (word, rest) = eat_word(tokens, "switch")?;
    let (_open, rest) = eat_sign(rest, "(")?;
    let (e, rest) = read_expr(alloc, room, rest)?;
    let (_close, rest) = eat_sign(rest, ")")?;
    let (_brace, rest) = eat_sign(rest, "{")?;
    let (cases, rest) = more_cases(alloc, room, no_cases(alloc), rest)?;
    if !some_case(&cases) {
        return Err(Stop::At(rest.len()));
    }
    let (last, rest) = eat_sign(rest, "}")?;
    Ok((make_switch(alloc, word, e, cases, last)?, rest))
}

/// `query orderby (l) { e }`.
#[cycle(expressions)]
#[tactic(auto, unfolding(crate::specs::Reading::query_with, lk_read::specs::Reader::bind, lk_read::specs::Reader::eat, lk_read::specs::Reader::give))]
fn read_query(alloc: Global, room: usize, tokens: &[Token]) -> Result<(Part, &[Token]), Stop>
    ensures { Gives result (query_with (expr_at room) room tokens.now) }
{
    let (word, rest) = eat_word(tokens, "query")?;
    let (keys, rest) = read_order(alloc, room, rest)?;
    let (block, rest) = read_block(alloc, room, rest)?;
    Ok((make_query(alloc, word, keys, block)?, rest))
}

/// `fun (x, y) server { e }`.
#[cycle(expressions)]
#[tactic(auto, unfolding(crate::specs::Reading::lambda_with, lk_read::specs::Reader::bind, lk_read::specs::Reader::eat, lk_read::specs::Reader::give))]
fn read_lambda(alloc: Global, room: usize, tokens: &[Token]) -> Result<(Part, &[Token]), Stop>
    ensures { Gives result (lambda_with (expr_at room) room tokens.now) }
{
    let (word, rest) = eat_word(tokens, "fun")?;
    let (_open, rest) = eat_sign(rest, "(")?;
    let (params, rest) = read_params(alloc, room, rest)?;
    let (_close, rest) = eat_sign(rest, ")")?;
    let (place, rest) = read_place(rest)?;
    let (block, rest) = read_block(alloc, room, rest)?;
    Ok((make_lambda(alloc, word, params, place, block)?, rest))
}

/// A form.
#[cycle(expressions)]
#[tactic(auto, unfolding(crate::specs::Reading::form_with, lk_read::specs::Reader::when))]
pub fn read_form(alloc: Global, room: usize, tokens: &[Token]) -> Result<(Part, &[Token]), Stop>
    ensures { Gives result (form_with (expr_at room) room tokens.now) }
{
    if next_is_word(tokens, "if") {
        read_if(alloc, room, tokens)
    } else if next_is_word(tokens, "for") {
        read_for(alloc, room, tokens)
    } else if next_is_word(tokens, "where") {
        read_where(alloc, room, tokens)
    } else if next_is_word(tokens, "insert") {
        read_insert(alloc, room, tokens)
    } else if next_is_word(tokens, "update") {
        read_update(alloc, room, tokens)
    } else if next_is_word(tokens, "delete") {
        read_delete(alloc, room, tokens)
    } else if next_is_word(tokens, "switch") {
        read_switch(alloc, room, tokens)
    } else if next_is_word(tokens, "query") {
        read_query(alloc, room, tokens)
    } else {
        read_lambda(alloc, room, tokens)
    }
}
