//! Texts that are cut behind their tokens.

use crate::line::Line;
use crate::refusal::put_refusal;
use lk_ast::{NoMemory, Token};
use lk_parse::{ParseError, parse, tokens};
use std::alloc::Global;

/// Puts how many cuts of a text there are behind its tokens, but for its last one, if each of them with these bytes behind it
/// is refused at its end; else behind which token the first stands that isn't.
pub fn put_cuts(alloc: Global, line: &mut Line, text: &[u8], behind: &[u8]) {
    match tokens(alloc, text) {
        Ok(found) => put_cuts_behind(alloc, line, found.as_slice(), text, behind),
        Err(refusal) => put_refusal(line, &refusal),
    }
}

fn put_cuts_behind(alloc: Global, line: &mut Line, tokens: &[Token], text: &[u8], behind: &[u8]) {
    let mut cuts = 0u64;
    for token in tokens {
        let end = token.span.end as usize;
        if end < text.len() {
            match is_refused_at_end(alloc, &text[..end], behind) {
                Ok(true) => cuts = cuts.wrapping_add(1),
                Ok(false) => return put_other_cut(line, token),
                Err(NoMemory) => return line.put_no_memory(),
            }
        }
    }
    line.put_count(cuts);
}

fn put_other_cut(line: &mut Line, token: &Token) {
    line.put("none behind");
    line.put_span(token.span);
}

/// Whether a text of these two parts is refused at its end.
fn is_refused_at_end(alloc: Global, front: &[u8], behind: &[u8]) -> Result<bool, NoMemory> {
    let mut text = Vec::from_slice(alloc, front)?;
    text.extend_from_slice(behind)?;
    match parse(alloc, text.as_slice()) {
        Ok(_program) => Ok(false),
        Err(refusal) => Ok(is_at_end(&refusal, text.len())),
    }
}

fn is_at_end(refusal: &ParseError, end: usize) -> bool {
    match refusal {
        ParseError::Unexpected(at) => at.start as usize == end && at.end as usize == end,
        _ => false,
    }
}
