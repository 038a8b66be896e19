//! Why a text isn't parsed.

ghost use Rattle.lk_parse.specs.declared.error.ParseError.TheVariants as errors;
ghost use Rattle.std.specs.Prelude.{◌≡◌};

use lk_ast::{NoMemory, Span};
use thiserror::Error;

/// Why a text isn't parsed, the reason that counts first being answered.
#[derive(Debug, Drop, Error)]
pub enum ParseError {
    /// The text has so many bytes, which is more than 1,048,576.
    #[error("the text has {0} bytes, which are too many")]
    TextTooLong(u64),
    /// The text isn't UTF-8 (RFC 3629): the first ill-formed sequence begins at this byte.
    #[error("the text is not UTF-8 at byte {0}")]
    NotUtf8(u32),
    /// At this character no token, white space or comment begins, the first one of which that is so.
    #[error("no token begins at byte {}", .0.start)]
    BadToken(Span),
    /// With this token the text's weight is first over 200: it nests too deep.
    #[error("the text nests too deep at byte {}", .0.start)]
    TooNested(Span),
    /// The text is no program: with the token of this span its tokens are first the beginning of none. At the text's end,
    /// where the span is empty, all tokens are such a beginning and more are needed.
    #[error("unexpected text at byte {}", .0.start)]
    Unexpected(Span),
    #[error("out of memory")]
    NoMemory,
}

impl From<NoMemory> for ParseError {
    ghost from_gives = { λ _ error. error ≡ errors.NoMemory };

    fn from(_error: NoMemory) -> ParseError {
        ParseError::NoMemory
    }
}
