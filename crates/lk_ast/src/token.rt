use crate::place::Span;
use crate::text::Text;

/// A token of a program's text: the bytes that it stands in, and what it is.
#[derive(Drop)]
pub struct Token {
    pub span: Span,
    pub kind: TokenKind,
}

/// What a token is.
pub enum TokenKind {
    /// A word from a small letter on, a keyword or a name.
    Word(Text),
    /// A word from a capital letter on.
    Tag(Text),
    /// An integer, which isn't negative: a minus before it is a sign.
    Int(i64),
    /// A text literal: what stands between its quotes, each escape as the character that it means.
    Text(Text),
    /// A bracket, an operator or another sign.
    Sign(Text),
}

impl Drop for TokenKind {
    fn drop(self) {
        match self {
            Self::Word(_) => {}
            Self::Tag(_) => {}
            Self::Int(_) => {}
            Self::Text(_) => {}
            Self::Sign(_) => {}
        }
    }
}
