//! Tokens as a line of text, such as `word x 0 1, sign + 2 3, int 1 4 5`.

use crate::line::Line;
use lk_ast::{Token, TokenKind};

/// Puts tokens, each with what it is and where it starts and ends.
pub fn put_tokens(line: &mut Line, tokens: &[Token]) {
    let mut is_first = true;
    for token in tokens {
        if !is_first {
            line.put(", ");
        }
        is_first = false;
        put_kind(line, &token.kind);
        line.put_span(token.span);
    }
}

fn put_kind(line: &mut Line, kind: &TokenKind) {
    match kind {
        TokenKind::Word(text) => put_two(line, "word ", text.as_str()),
        TokenKind::Tag(text) => put_two(line, "tag ", text.as_str()),
        TokenKind::Int(number) => put_int(line, *number),
        TokenKind::Text(text) => put_literal(line, text.as_str()),
        TokenKind::Sign(text) => put_two(line, "sign ", text.as_str()),
    }
}

fn put_two(line: &mut Line, what: &str, text: &str) {
    line.put(what);
    line.put(text);
}

fn put_int(line: &mut Line, number: i64) {
    line.put("int ");
    line.put_number(number);
}

fn put_literal(line: &mut Line, text: &str) {
    line.put("text ");
    line.put_quoted(text);
}
