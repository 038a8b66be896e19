//! One piece of a text.

ghost use Rattle.lk_parse.specs.Scanner.{Begins, Finds};
ghost use Rattle.lk_parse.specs.declared.start.Start.TheVariants as start;
ghost use Rattle.lk_parse.specs.Pieces.{is_word_byte};
ghost use Rattle.std.specs.List.{prefix_len};
ghost use Rattle.std.specs.Prelude.{◌≡◌, take, IfOk};

use crate::literals::{integer, literal};
use crate::signs::sign_in_front;
use crate::start::{Start, line_len, start_of, word_len};
use lk_ast::{NoMemory, Text, TokenKind};
use std::alloc::Global;

/// A piece in front of a text: how many bytes it has, and what token it is, unless it is white space or a comment.
#[derive(Drop)]
pub struct Piece {
    pub len: usize,
    pub kind: Option<TokenKind>,
}

/// The comment in front.
fn comment(text: &str) -> Piece
    requires { Begins text.now start.Comment }
    ensures { Finds text.now (Some result) }
{
    let len = line_len(text.as_bytes());
    Piece { len, kind: None }
}

/// The letters, digits and `_` in front.
fn word_text(alloc: Global, text: &str) -> Result<Text, NoMemory>
    ensures { IfOk result (λ word. word ≡ take (prefix_len is_word_byte text.now) text.now) }
{
    let len = word_len(text.as_bytes());
    Text::from_str(alloc, &text[..len])
}

/// The word in front.
fn word(alloc: Global, text: &str) -> Result<Piece, NoMemory>
    requires { Begins text.now start.Word }
    ensures { IfOk result (λ piece. Finds text.now (Some piece)) }
{
    let word = word_text(alloc, text)?;
    let len = word.len();
    let kind = Some(TokenKind::Word(word));
    Ok(Piece { len, kind })
}

/// The tag in front.
fn tag(alloc: Global, text: &str) -> Result<Piece, NoMemory>
    requires { Begins text.now start.Tag }
    ensures { IfOk result (λ piece. Finds text.now (Some piece)) }
{
    let tag = word_text(alloc, text)?;
    let len = tag.len();
    let kind = Some(TokenKind::Tag(tag));
    Ok(Piece { len, kind })
}

/// The sign in front, if one stands there.
fn sign(alloc: Global, text: &str) -> Result<Option<Piece>, NoMemory>
    requires { Begins text.now start.Sign }
    ensures { IfOk result (Finds text.now) }
{
    let Some(sign) = sign_in_front(text.as_bytes()) else {
        return Ok(None);
    };
    let kind = Some(TokenKind::Sign(Text::from_str(alloc, sign)?));
    Ok(Some(Piece {
        len: sign.len(),
        kind,
    }))
}

/// The piece in front of a text, or `None` where none begins there.
pub fn piece_in_front(alloc: Global, text: &str) -> Result<Option<Piece>, NoMemory>
    ensures { IfOk result (Finds text.now) }
{
    let [first, ..] = text.as_bytes() else {
        return Ok(None);
    };
    match start_of(*first) {
        Start::White => Ok(Some(Piece { len: 1, kind: None })),
        Start::Comment => Ok(Some(comment(text))),
        Start::Word => Ok(Some(word(alloc, text)?)),
        Start::Tag => Ok(Some(tag(alloc, text)?)),
        Start::Int => Ok(integer(text)),
        Start::Text => literal(alloc, text),
        Start::Sign => sign(alloc, text),
    }
}
