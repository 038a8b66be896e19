//! Why a text is refused, as a line of text.

use crate::line::Line;
use lk_ast::Span;
use lk_names::NameError;
use lk_parse::ParseError;

/// Puts why a text isn't parsed.
pub fn put_refusal(line: &mut Line, refusal: &ParseError) {
    match refusal {
        ParseError::TextTooLong(bytes) => put_number(line, "TextTooLong ", *bytes),
        ParseError::NotUtf8(at) => put_number(line, "NotUtf8 ", u64::from(*at)),
        ParseError::BadToken(at) => put_at(line, "BadToken", *at),
        ParseError::TooNested(at) => put_at(line, "TooNested", *at),
        ParseError::Unexpected(at) => put_at(line, "Unexpected", *at),
        ParseError::NoMemory => line.put("NoMemory"),
    }
}

/// Puts why the names of a program aren't bound.
pub fn put_name_refusal(line: &mut Line, refusal: NameError) {
    match refusal {
        NameError::Unbound(at) => put_at(line, "Unbound", at),
        NameError::Twice(at) => put_at(line, "Twice", at),
        NameError::NoMain => line.put("NoMain"),
        NameError::NoMemory => line.put("NoMemory"),
    }
}

fn put_number(line: &mut Line, what: &str, number: u64) {
    line.put(what);
    line.put_count(number);
}

fn put_at(line: &mut Line, what: &str, at: Span) {
    line.put(what);
    line.put_span(at);
}
