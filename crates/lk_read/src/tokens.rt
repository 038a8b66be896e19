//! Tests of tokens, and what the next one is.

ghost use Rattle.lk_read.specs.Kinds.{is_sign, is_word, is_tag, is_name, is_any_tag, word_of};
ghost use Rattle.lk_read.specs.Reader.{peek};
ghost use Rattle.std.specs.Prelude.{◌≡◌, IfOk};

use crate::tables::is_keyword;
use lk_ast::{NoMemory, Text, Token, TokenKind, Word};
use std::alloc::Global;

/// Whether a token is this sign.
#[tactic(auto, unfolding(crate::specs::Kinds::is_sign))]
pub fn is_sign(token: &Token, wanted: &str) -> bool
    ensures { result ≡ is_sign wanted.now token.now }
{
    match &token.kind {
        TokenKind::Sign(sign) => sign.as_str() == wanted,
        _ => false,
    }
}

/// Whether a token is this word.
#[tactic(auto, unfolding(crate::specs::Kinds::is_word))]
pub fn is_word(token: &Token, wanted: &str) -> bool
    ensures { result ≡ is_word wanted.now token.now }
{
    match &token.kind {
        TokenKind::Word(word) => word.as_str() == wanted,
        _ => false,
    }
}

/// Whether a token is this tag.
#[tactic(auto, unfolding(crate::specs::Kinds::is_tag))]
pub fn is_tag(token: &Token, wanted: &str) -> bool
    ensures { result ≡ is_tag wanted.now token.now }
{
    match &token.kind {
        TokenKind::Tag(tag) => tag.as_str() == wanted,
        _ => false,
    }
}

/// Whether a token is a word that can name something.
#[tactic(auto, unfolding(crate::specs::Kinds::is_name))]
pub fn is_name(token: &Token) -> bool
    ensures { result ≡ is_name token.now }
{
    match &token.kind {
        TokenKind::Word(word) => !is_keyword(word.as_str()),
        _ => false,
    }
}

/// Whether a token is a tag.
#[tactic(auto, unfolding(crate::specs::Kinds::is_any_tag))]
pub fn is_any_tag(token: &Token) -> bool
    ensures { result ≡ is_any_tag token.now }
{
    matches!(&token.kind, TokenKind::Tag(_))
}

/// Whether the next token is this sign.
pub fn next_is_sign(tokens: &[Token], wanted: &str) -> bool
    ensures { result ≡ peek (is_sign wanted.now) tokens.now }
{
    match tokens {
        [token, ..] => is_sign(token, wanted),
        [] => false,
    }
}

/// Whether the next token is this word.
pub fn next_is_word(tokens: &[Token], wanted: &str) -> bool
    ensures { result ≡ peek (is_word wanted.now) tokens.now }
{
    match tokens {
        [token, ..] => is_word(token, wanted),
        [] => false,
    }
}

/// Whether the next token is this tag.
pub fn next_is_tag(tokens: &[Token], wanted: &str) -> bool
    ensures { result ≡ peek (is_tag wanted.now) tokens.now }
{
    match tokens {
        [token, ..] => is_tag(token, wanted),
        [] => false,
    }
}

/// Whether the next token is a word that can name something.
pub fn next_is_name(tokens: &[Token]) -> bool
    ensures { result ≡ peek is_name tokens.now }
{
    match tokens {
        [token, ..] => is_name(token),
        [] => false,
    }
}

/// Whether the next token is a tag.
pub fn next_is_any_tag(tokens: &[Token]) -> bool
    ensures { result ≡ peek is_any_tag tokens.now }
{
    match tokens {
        [token, ..] => is_any_tag(token),
        [] => false,
    }
}

/// What a token says with its place, as a name, label or tag: nothing for an integer. Refused only for want of memory.
#[tactic(auto, unfolding(crate::specs::Kinds::word_of))]
pub fn word_of(alloc: Global, token: &Token) -> Result<Word, NoMemory>
    ensures { IfOk result (λ word. word ≡ word_of token.now) }
{
    let text = match &token.kind {
        TokenKind::Word(text)
        | TokenKind::Tag(text)
        | TokenKind::Text(text)
        | TokenKind::Sign(text) => text.copy(alloc)?,
        TokenKind::Int(_) => Text::new(alloc),
    };
    Ok(Word {
        at: token.span,
        text,
    })
}
