//! The tokens of a text.

ghost use Rattle.lk_ast.specs.declared.token.Token.{Token as TheToken};
ghost use Rattle.lk_parse.specs.Refusals.{HasNoTokens};
ghost use Rattle.lk_parse.specs.Tokens.{HasTokens, IsFirstCharacter, LieBetween, Reads, text_limit, token_at};
ghost use Rattle.lk_parse.specs.declared.error.ParseError.TheVariants as refusal;
ghost use Rattle.std.specs.Prelude.{◌≡◌, ◌+◌, ◌<◌, ◌≤◌, ◌++◌, [], List, length, encode_utf8, IfOk, IfErr, OnOk, IsUtf8};

use crate::error::ParseError;
use crate::piece::{Piece, piece_in_front};
use lk_ast::{List, NoMemory, Span, Token};
use std::alloc::Global;
use std::str;

/// How many bytes a program's text can have.
const TEXT_LIMIT: usize = 1_048_576;

/// Adds the token that a piece at this place is, if it is one.
fn add(tokens: &mut List<Token>, at: u32, piece: Piece) -> Result<(), NoMemory>
    requires { at + piece.len ≤ text_limit }
    ensures { OnOk result (tokens.new ≡ tokens.old ++ token_at at piece.len piece.kind) }
{
    let Piece { len, kind } = piece;
    match kind {
        Some(kind) => {
            let end = at + len as u32;
            tokens.push(Token {
                span: Span { start: at, end },
                kind,
            })
        }
        None => Ok(()),
    }
}

/// How many bytes the first character has.
fn first_len(text: &str) -> u32
    requires { 0 < length text.now }
    ensures { IsFirstCharacter text.now result }
{
    match text.chars().next() {
        Some(first) => first.len_utf8() as u32,
        None => unreachable!(),
    }
}

/// The tokens of a text, or the first place where none begins.
fn read(alloc: Global, text: &str) -> Result<List<Token>, ParseError>
    requires { length text.now ≤ text_limit }
    ensures found { IfOk result (λ tokens. Reads 0 text.now tokens []) }
    ensures refused { IfErr result (HasNoTokens text.now) }
{
    let mut tokens = List::new(alloc);
    let mut at = 0;
    while at < text.len() {
        let rest = &text[at..];
        let start = at as u32;
        let Some(piece) = piece_in_front(alloc, rest)? else {
            let end = start + first_len(rest);
            return Err(ParseError::BadToken(Span { start, end }));
        };
        at += piece.len;
        add(&mut tokens, start, piece)?;
    }
    Ok(tokens)
}

/// The tokens of a program's text.
#[tactic(auto, using(crate::proofs::Refused::no_tokens_has_none))]
pub fn tokens(alloc: Global, text: &[u8]) -> Result<List<Token>, ParseError>
    // They are the text's tokens, which has no others.
    ensures found { IfOk result (HasTokens text.now) }
    ensures only { (others : List TheToken) → IfOk result (λ found. HasTokens text.now others → others ≡ found) }
    ensures in_order { IfOk result (λ found. LieBetween 0 found (length text.now)) }
    // When each refusal comes: of these reasons the first.
    ensures refused { IfErr result (HasNoTokens text.now) }
    // A text that has tokens is refused only for want of memory.
    ensures complete { (others : List TheToken) → IfErr result (λ why. HasTokens text.now others → why ≡ refusal.NoMemory) }
{
    if text.len() > TEXT_LIMIT {
        return Err(ParseError::TextTooLong(text.len() as u64));
    }
    match str::from_utf8(text) {
        Ok(text) => Ok(read(alloc, text)?),
        Err(error) => Err(ParseError::NotUtf8(error.valid_up_to() as u32)),
    }
}
