//! Whole messages.

ghost use Rattle.lk_explain.specs.Shown.{message_of, placeless_of};
ghost use Rattle.std.specs.Prelude.{◌≡◌, IfOk};

use crate::excerpts::excerpt;
use crate::places::position_at;
use lk_ast::{NoMemory, Span, Text};
use std::alloc::Global;

/// A message on a place in a file's text: `FILE:LINE:COLUMN: WHAT`, and below it the excerpt. Each line ends in a line feed.
pub fn message_at(
    alloc: Global,
    file: &str,
    text: &str,
    at: Span,
    what: &str,
) -> Result<Text, NoMemory>
    ensures { IfOk result (λ message. message ≡ message_of file.now text.now at what.now) }
{
    let place = position_at(text, at.start as usize);
    let line = place.line;
    let column = place.column;
    let rows = excerpt(alloc, text, at)?;
    let rows = rows.as_str();
    Ok(Text::from_string(format!(in alloc; "{file}:{line}:{column}: {what}\n{rows}")?))
}

/// A message on a file that has no place: `FILE: WHAT` and a line feed.
pub fn message(alloc: Global, file: &str, what: &str) -> Result<Text, NoMemory>
    ensures { IfOk result (λ message. message ≡ placeless_of file.now what.now) }
{
    Ok(Text::from_string(format!(in alloc; "{file}: {what}\n")?))
}
