//! What is shown of a text.

ghost use Rattle.lk_explain.specs.Shown.{excerpt_of, first_shown, marked_of, marks_row, rows_of, shown, shown_part_of, span_chars, text_row};
ghost use Rattle.std.specs.Prelude.{◌≡◌, ◌-◌, IfOk, encode_utf8_all, chars, drop, map, string_bytes, take};

use crate::bytes::{bytes_before, bytes_from, char_count};
use crate::places::{line_before, line_behind, line_of};
use lk_ast::{NoMemory, Span, Text};
use std::alloc::{AllocError, Global};
use std::iter::repeat_n;

/// How many characters of a line are shown.
const SHOWN: usize = 120;

/// A line is shown from its beginning where fewer characters than this stand before the place.
const NEAR: usize = 100;

/// Else it is shown from this many characters before the place.
const LEAD: usize = 40;

/// How many characters of a span are shown by themselves.
const PART: usize = 40;

/// What a character is shown as: a control character (category Cc of Unicode) as a space.
fn shown(character: char) -> char
    ensures { result ≡ shown character }
{
    match character {
        '\0'..='\u{1f}' | '\u{7f}'..='\u{9f}' => ' ',
        _ => character,
    }
}

/// The number of the first character of a line that is shown.
fn first_shown(lead: usize) -> usize
    ensures { result ≡ first_shown lead }
{
    if lead < NEAR { 0 } else { lead - LEAD }
}

/// A line as it is shown.
fn text_row(alloc: Global, line: &str, first: usize) -> Result<String, AllocError>
    ensures { IfOk result (λ row. string_bytes row ≡ text_row line.now first) }
{
    line.chars()
        .map(|character| shown(character))
        .skip(first)
        .take(SHOWN)
        .collect(alloc)
}

/// The spaces and carets below it.
fn marks_row(alloc: Global, lead: usize, marked: usize, first: usize) -> Result<String, AllocError>
    ensures { IfOk result (λ row. string_bytes row ≡ marks_row lead marked first) }
{
    repeat_n(' ', lead)
        .chain(repeat_n('^', marked))
        .skip(first)
        .take(SHOWN)
        .collect(alloc)
}

/// A line with the marks below it.
fn rows_of(alloc: Global, line: &str, lead: usize, marked: usize) -> Result<Text, NoMemory>
    ensures { IfOk result (λ rows. rows ≡ rows_of line.now lead marked) }
{
    let first = first_shown(lead);
    let row = text_row(alloc, line, first)?;
    let marks = marks_row(alloc, lead, marked, first)?;
    Ok(Text::from_string(format!(in alloc; "{row}\n{marks}\n")?))
}

/// How many bytes a span has.
fn span_len(at: Span) -> usize
    ensures { result ≡ at.end - at.start }
{
    at.end.saturating_sub(at.start) as usize
}

/// How many characters of a span are marked.
fn marked_of(bytes: &[u8], at: Span) -> usize
    ensures { result ≡ marked_of bytes.now at }
{
    char_count(bytes_before(line_behind(bytes, at.start as usize), span_len(at))).max(1)
}

/// The line in which a span begins, and below it a caret for each character of the span in that line, one at least. Of a
/// long line only a part is shown, and control characters as spaces.
pub fn excerpt(alloc: Global, text: &str, at: Span) -> Result<Text, NoMemory>
    ensures { IfOk result (λ rows. rows ≡ excerpt_of text.now at) }
{
    let start = at.start as usize;
    let bytes = text.as_bytes();
    let lead = char_count(line_before(bytes, start));
    rows_of(alloc, line_of(text, start), lead, marked_of(bytes, at))
}

/// How many characters a span has.
fn span_chars(bytes: &[u8], at: Span) -> usize
    ensures { result ≡ span_chars bytes.now at }
{
    char_count(bytes_before(bytes_from(bytes, at.start as usize), span_len(at)))
}

/// So many characters of a text, from that one on, and as many as are shown.
fn shown_chars(alloc: Global, text: &str, first: usize, count: usize) -> Result<String, AllocError>
    ensures { IfOk result (λ made. string_bytes made ≡ encode_utf8_all (map shown (take 40 (take count (drop first (chars text.now)))))) }
{
    text.chars()
        .skip(first)
        .take(count)
        .take(PART)
        .map(|character| shown(character))
        .collect(alloc)
}

/// The first characters of a span, control characters as spaces, and `..` behind them where it has more.
pub fn shown_part(alloc: Global, text: &str, at: Span) -> Result<Text, NoMemory>
    ensures { IfOk result (λ part. part ≡ shown_part_of text.now at) }
{
    let bytes = text.as_bytes();
    let first = char_count(bytes_before(bytes, at.start as usize));
    let count = span_chars(bytes, at);
    let part = shown_chars(alloc, text, first, count)?;
    let more = if count > PART { ".." } else { "" };
    Ok(Text::from_string(format!(in alloc; "{part}{more}")?))
}
