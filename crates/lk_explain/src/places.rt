//! Where a place in a text is.

ghost use Rattle.lk_explain.specs.Places.{line_before, line_behind, line_of, position_in};
ghost use Rattle.std.specs.Prelude.{◌≡◌};

use crate::bytes::{
    bytes_before, bytes_from, char_count, len_before_end, len_behind_feed, line_feeds,
};

/// A line and a column of a text, both counted from 1. Columns count characters.
#[derive(Clone, Copy)]
pub struct Position {
    pub line: u64,
    pub column: u64,
}

/// The bytes of a place's line before the place.
pub fn line_before(bytes: &[u8], at: usize) -> &[u8]
    ensures { result.now ≡ line_before bytes.now at }
{
    let front = bytes_before(bytes, at);
    bytes_from(front, front.len() - len_behind_feed(front))
}

/// The bytes of a place's line from the place on.
pub fn line_behind(bytes: &[u8], at: usize) -> &[u8]
    ensures { result.now ≡ line_behind bytes.now at }
{
    let rest = bytes_from(bytes, at);
    bytes_before(rest, len_before_end(rest))
}

/// The line and the column of a place, in bytes from the beginning of the text. A place behind its end counts as the end.
pub fn position_at(text: &str, at: usize) -> Position
    ensures { result ≡ position_in text.now at }
{
    let bytes = text.as_bytes();
    Position {
        line: 1 + line_feeds(bytes_before(bytes, at)) as u64,
        column: 1 + char_count(line_before(bytes, at)) as u64,
    }
}

/// The line in which a place is, without its end: from behind the last line feed before the place to the next line feed or
/// carriage return behind it.
pub fn line_of(text: &str, at: usize) -> &str
    ensures { result.now ≡ line_of text.now at }
{
    let bytes = text.as_bytes();
    let place = at.min(bytes.len());
    let start = place - len_behind_feed(bytes_before(bytes, place));
    let end = place + len_before_end(bytes_from(bytes, place));
    &text[start..end]
}
