//! Declarations and programs, read token by token.

ghost use Rattle.lk_grammar.specs.Programs.{IsProgram};
ghost use Rattle.lk_grammar.specs.ReadingPrograms.{base_named, read_base, read_column, columns_turn, columns_with, table_with, sig_with, definition_with, signed_with, fun_with, funs_turn, fun_next, mutual_with, plain_with, decl_with, decls_turn, decl_next, decls_with, program_at, is_fun};
ghost use Rattle.lk_grammar.specs.Refusals.{IsRefused};
ghost use Rattle.lk_read.specs.Exact.{IsOnly};
ghost use Rattle.lk_read.specs.Gives.{Gives, GivesAll};
ghost use Rattle.lk_read.specs.Reader.{many, peek};
ghost use Rattle.lk_rows.specs.Reading.{comma};
ghost use Rattle.std.specs.Prelude.{◌≡◌, [], IfOk, IfErr};

use crate::blocks::read_block;
use crate::error::GrammarError;
use crate::names::{read_params, read_place};
use lk_ast::{BaseKind, ColumnDecl, Decl, FunDef, List, Program, Sig, TableDecl, Token};
use lk_read::{
    Stop, eat_name, eat_sign, eat_tag, eat_word, next_is_sign, next_is_tag, next_is_word, word_of,
};
use lk_rows::read_type;
use std::alloc::Global;

/// The base type with this name.
#[tactic(auto, unfolding(crate::specs::ReadingPrograms::base_named, lk_read::specs::Reader::eat, lk_read::specs::Reader::give))]
fn base_named<'a>(
    tokens: &'a [Token],
    name: &str,
    kind: BaseKind,
) -> Result<(BaseKind, &'a [Token]), Stop>
    ensures { Gives result (base_named name.now kind tokens.now) }
{
    let (_name, rest) = eat_tag(tokens, name)?;
    Ok((kind, rest))
}

/// `Int`, `Bool` or `String`.
#[tactic(auto, unfolding(crate::specs::ReadingPrograms::read_base, lk_read::specs::Reader::when))]
fn read_base(tokens: &[Token]) -> Result<(BaseKind, &[Token]), Stop>
    ensures { Gives result (read_base tokens.now) }
{
    if next_is_tag(tokens, "Int") {
        base_named(tokens, "Int", BaseKind::Int)
    } else if next_is_tag(tokens, "Bool") {
        base_named(tokens, "Bool", BaseKind::Bool)
    } else {
        base_named(tokens, "String", BaseKind::Text)
    }
}

/// `l : Int`.
#[tactic(auto, unfolding(crate::specs::ReadingPrograms::read_column, lk_read::specs::Reader::bind, lk_read::specs::Reader::eat, lk_read::specs::Reader::give))]
fn read_column(alloc: Global, tokens: &[Token]) -> Result<(ColumnDecl, &[Token]), Stop>
    ensures { Gives result (read_column tokens.now) }
{
    let (label, rest) = eat_name(tokens)?;
    let (_colon, rest) = eat_sign(rest, ":")?;
    let (kind, rest) = read_base(rest)?;
    let label = word_of(alloc, label)?;
    Ok((ColumnDecl { label, kind }, rest))
}

/// `, l : Int` behind these.
#[tactic(auto, unfolding(crate::specs::ReadingPrograms::columns_turn, lk_read::specs::Reader::bind, lk_read::specs::Reader::eat, lk_read::specs::Reader::give))]
fn next_column(
    alloc: Global,
    mut columns: List<ColumnDecl>,
    tokens: &[Token],
) -> Result<(List<ColumnDecl>, &[Token]), Stop>
    ensures { Gives result (columns_turn columns tokens.now) }
{
    let (_comma, rest) = eat_sign(tokens, ",")?;
    let (column, rest) = read_column(alloc, rest)?;
    columns.push(column)?;
    Ok((columns, rest))
}

/// All that are behind the first one.
fn more_columns(
    alloc: Global,
    room: usize,
    first: List<ColumnDecl>,
    tokens: &[Token],
) -> Result<(List<ColumnDecl>, &[Token]), Stop>
    ensures { Gives result (many comma columns_turn room first tokens.now) }
{
    let mut columns = first;
    let mut rest = tokens;
    for _turn in 0..room {
        if !next_is_sign(rest, ",") {
            return Ok((columns, rest));
        }
        let (next, after) = next_column(alloc, columns, rest)?;
        columns = next;
        rest = after;
    }
    if next_is_sign(rest, ",") {
        Err(Stop::Spent)
    } else {
        Ok((columns, rest))
    }
}

/// `l : Int, m : String`.
#[tactic(auto, unfolding(crate::specs::ReadingPrograms::columns_with, lk_read::specs::Reader::bind))]
fn read_columns(
    alloc: Global,
    room: usize,
    tokens: &[Token],
) -> Result<(List<ColumnDecl>, &[Token]), Stop>
    ensures { Gives result (columns_with room tokens.now) }
{
    let (column, rest) = read_column(alloc, tokens)?;
    let mut columns = List::new(alloc);
    columns.push(column)?;
    more_columns(alloc, room, columns, rest)
}

/// `table t with (l : Int);`.
#[tactic(auto, unfolding(crate::specs::ReadingPrograms::table_with, lk_read::specs::Reader::bind, lk_read::specs::Reader::eat, lk_read::specs::Reader::give))]
fn read_table(alloc: Global, room: usize, tokens: &[Token]) -> Result<(Decl, &[Token]), Stop>
    ensures { Gives result (table_with room tokens.now) }
{
    let (_table, rest) = eat_word(tokens, "table")?;
    let (name, rest) = eat_name(rest)?;
    let (_with, rest) = eat_word(rest, "with")?;
    let (_open, rest) = eat_sign(rest, "(")?;
    let (columns, rest) = read_columns(alloc, room, rest)?;
    let (_close, rest) = eat_sign(rest, ")")?;
    let (_end, rest) = eat_sign(rest, ";")?;
    let name = word_of(alloc, name)?;
    Ok((Decl::Table(TableDecl { name, columns }), rest))
}

/// `sig f : T;`.
#[tactic(auto, unfolding(crate::specs::ReadingPrograms::sig_with, lk_read::specs::Reader::bind, lk_read::specs::Reader::eat, lk_read::specs::Reader::give))]
fn read_sig(alloc: Global, room: usize, tokens: &[Token]) -> Result<(Sig, &[Token]), Stop>
    ensures { Gives result (sig_with room tokens.now) }
{
    let (_sig, rest) = eat_word(tokens, "sig")?;
    let (name, rest) = eat_name(rest)?;
    let (_colon, rest) = eat_sign(rest, ":")?;
    let (ty, rest) = read_type(alloc, room, rest)?;
    let (_end, rest) = eat_sign(rest, ";")?;
    let name = word_of(alloc, name)?;
    Ok((Sig { name, ty }, rest))
}

/// `fun f(x, y) client { e }`, which has this signature.
#[tactic(auto, unfolding(crate::specs::ReadingPrograms::definition_with, lk_read::specs::Reader::bind, lk_read::specs::Reader::eat, lk_read::specs::Reader::give))]
fn read_definition(
    alloc: Global,
    room: usize,
    sig: Option<Sig>,
    tokens: &[Token],
) -> Result<(FunDef, &[Token]), Stop>
    ensures { Gives result (definition_with room sig tokens.now) }
{
    let (_fun, rest) = eat_word(tokens, "fun")?;
    let (name, rest) = eat_name(rest)?;
    let (_open, rest) = eat_sign(rest, "(")?;
    let (params, rest) = read_params(alloc, room, rest)?;
    let (_close, rest) = eat_sign(rest, ")")?;
    let (place, rest) = read_place(rest)?;
    let (block, rest) = read_block(alloc, room, rest)?;
    let name = word_of(alloc, name)?;
    let body = block.expr;
    Ok((
        FunDef {
            name,
            sig,
            params,
            place,
            body,
        },
        rest,
    ))
}

/// A function behind its signature.
#[tactic(auto, unfolding(crate::specs::ReadingPrograms::signed_with, lk_read::specs::Reader::bind))]
fn read_signed(alloc: Global, room: usize, tokens: &[Token]) -> Result<(FunDef, &[Token]), Stop>
    ensures { Gives result (signed_with room tokens.now) }
{
    let (sig, rest) = read_sig(alloc, room, tokens)?;
    read_definition(alloc, room, Some(sig), rest)
}

/// A function, with its signature where it has one.
#[tactic(auto, unfolding(crate::specs::ReadingPrograms::fun_with, lk_read::specs::Reader::when))]
fn read_fun(alloc: Global, room: usize, tokens: &[Token]) -> Result<(FunDef, &[Token]), Stop>
    ensures { Gives result (fun_with room tokens.now) }
{
    if next_is_word(tokens, "sig") {
        read_signed(alloc, room, tokens)
    } else {
        read_definition(alloc, room, None, tokens)
    }
}

/// A function behind these.
#[tactic(auto, unfolding(crate::specs::ReadingPrograms::funs_turn, lk_read::specs::Reader::bind, lk_read::specs::Reader::give))]
fn next_fun(
    alloc: Global,
    room: usize,
    mut funs: List<FunDef>,
    tokens: &[Token],
) -> Result<(List<FunDef>, &[Token]), Stop>
    ensures { Gives result (funs_turn room funs tokens.now) }
{
    let (fun, rest) = read_fun(alloc, room, tokens)?;
    funs.push(fun)?;
    Ok((funs, rest))
}

/// Whether a function comes next.
fn next_is_fun(tokens: &[Token]) -> bool
    ensures { result ≡ peek is_fun tokens.now }
{
    match tokens {
        [token, ..] => lk_read::is_word(token, "sig") || lk_read::is_word(token, "fun"),
        [] => false,
    }
}

/// All that are behind the first one.
fn more_funs(
    alloc: Global,
    room: usize,
    first: List<FunDef>,
    tokens: &[Token],
) -> Result<(List<FunDef>, &[Token]), Stop>
    ensures { Gives result (many fun_next (funs_turn room) room first tokens.now) }
{
    let mut funs = first;
    let mut rest = tokens;
    for _turn in 0..room {
        if !next_is_fun(rest) {
            return Ok((funs, rest));
        }
        let (next, after) = next_fun(alloc, room, funs, rest)?;
        funs = next;
        rest = after;
    }
    if next_is_fun(rest) {
        Err(Stop::Spent)
    } else {
        Ok((funs, rest))
    }
}

/// `mutual { functions }`.
#[tactic(auto, unfolding(crate::specs::ReadingPrograms::mutual_with, lk_read::specs::Reader::bind, lk_read::specs::Reader::eat, lk_read::specs::Reader::give))]
fn read_mutual(alloc: Global, room: usize, tokens: &[Token]) -> Result<(Decl, &[Token]), Stop>
    ensures { Gives result (mutual_with room tokens.now) }
{
    let (_mutual, rest) = eat_word(tokens, "mutual")?;
    let (_open, rest) = eat_sign(rest, "{")?;
    let (fun, rest) = read_fun(alloc, room, rest)?;
    let mut funs = List::new(alloc);
    funs.push(fun)?;
    let (funs, rest) = more_funs(alloc, room, funs, rest)?;
    let (_close, rest) = eat_sign(rest, "}")?;
    Ok((Decl::Mutual(funs), rest))
}

/// A function as a declaration.
#[tactic(auto, unfolding(crate::specs::ReadingPrograms::plain_with, lk_read::specs::Reader::bind, lk_read::specs::Reader::give))]
fn read_plain(alloc: Global, room: usize, tokens: &[Token]) -> Result<(Decl, &[Token]), Stop>
    ensures { Gives result (plain_with room tokens.now) }
{
    let (fun, rest) = read_fun(alloc, room, tokens)?;
    Ok((Decl::Fun(fun), rest))
}

/// A declaration.
#[tactic(auto, unfolding(crate::specs::ReadingPrograms::decl_with, lk_read::specs::Reader::when))]
fn read_decl(alloc: Global, room: usize, tokens: &[Token]) -> Result<(Decl, &[Token]), Stop>
    ensures { Gives result (decl_with room tokens.now) }
{
    if next_is_word(tokens, "table") {
        read_table(alloc, room, tokens)
    } else if next_is_word(tokens, "mutual") {
        read_mutual(alloc, room, tokens)
    } else {
        read_plain(alloc, room, tokens)
    }
}

/// A declaration behind these.
#[tactic(auto, unfolding(crate::specs::ReadingPrograms::decls_turn, lk_read::specs::Reader::bind, lk_read::specs::Reader::give))]
fn next_decl(
    alloc: Global,
    room: usize,
    mut decls: List<Decl>,
    tokens: &[Token],
) -> Result<(List<Decl>, &[Token]), Stop>
    ensures { Gives result (decls_turn room decls tokens.now) }
{
    let (decl, rest) = read_decl(alloc, room, tokens)?;
    decls.push(decl)?;
    Ok((decls, rest))
}

/// Whether a token is left.
fn next_is_decl(tokens: &[Token]) -> bool
    ensures { result ≡ peek (decl_next []) tokens.now }
{
    match tokens {
        [_token, ..] => true,
        [] => false,
    }
}

/// All declarations.
fn read_decls(alloc: Global, room: usize, tokens: &[Token]) -> Result<(List<Decl>, &[Token]), Stop>
    ensures { Gives result (many decl_next (decls_turn room) room [] tokens.now) }
{
    let mut decls = List::new(alloc);
    let mut rest = tokens;
    for _turn in 0..room {
        if !next_is_decl(rest) {
            return Ok((decls, rest));
        }
        let (next, after) = next_decl(alloc, room, decls, rest)?;
        decls = next;
        rest = after;
    }
    if next_is_decl(rest) {
        Err(Stop::Spent)
    } else {
        Ok((decls, rest))
    }
}

/// The program that all tokens are.
#[tactic(auto, unfolding(crate::specs::ReadingPrograms::program_at, crate::specs::ReadingPrograms::decls_with, lk_read::specs::Reader::bind, lk_read::specs::Reader::give, lk_read::specs::Reader::finish))]
fn read_whole(alloc: Global, room: usize, tokens: &[Token]) -> Result<Program, Stop>
    ensures { GivesAll result (program_at room tokens.now) }
{
    let (decls, rest) = read_decls(alloc, room, tokens)?;
    if rest.is_empty() {
        Ok(Program { decls })
    } else {
        Err(Stop::At(rest.len()))
    }
}

/// The program that the tokens are, its names and calls as they stand: each name is a `Name`, each call an `Apply`. It calls
/// itself once for each level of nesting, so tokens from outside are to be weighed before.
///
/// # Errors
/// `Unexpected` where they are none, with the number of the first token with which they begin no program.
pub fn read_program(alloc: Global, tokens: &[Token]) -> Result<Program, GrammarError>
    // What is read is the program that the grammar gives the tokens, and it gives them no other.
    ensures found { IfOk result (λ program. IsOnly IsProgram tokens.now program) }
    // Refused is the first token that fits nowhere, and then the tokens are no program.
    ensures refused { IfErr result (λ why. IsRefused tokens.now why) }
{
    match read_whole(alloc, tokens.len() + 1, tokens) {
        Ok(program) => Ok(program),
        Err(Stop::At(left)) => Err(GrammarError::Unexpected((tokens.len() - left) as u64)),
        Err(Stop::NoMemory) => Err(GrammarError::NoMemory),
        Err(Stop::Spent) => unreachable!(),
    }
}
