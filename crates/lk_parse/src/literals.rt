//! Text literals and integers.

ghost use Rattle.lk_parse.specs.Pieces.{escaped, IsInteger};
ghost use Rattle.lk_parse.specs.Scanner.{Begins, Finds, MeansFirst, MeansNothing, Closes, NeverCloses};
ghost use Rattle.lk_parse.specs.declared.start.Start.TheVariants as start;
ghost use Rattle.std.specs.Char.{is_ascii_digit};
ghost use Rattle.std.specs.List.{AllPass};
ghost use Rattle.std.specs.Str.{byte};
ghost use Rattle.std.specs.Prelude.{◌≡◌, ◌<◌, ℕ, pos, length, slice_index, IsTrue, ◌↔◌, IfOk, IfSome, IfNone, IsUtf8, MatchOption};

use crate::piece::Piece;
use crate::start::{digits_len, is_plain};
use lk_ast::{NoMemory, Text, TokenKind};
use std::alloc::Global;

/// What a backslash and this byte stand for.
fn escaped(byte: u8) -> Option<u8>
    ensures { result ≡ escaped byte }
{
    match byte {
        b'"' | b'\\' => Some(byte),
        b'n' => Some(b'\n'),
        b'r' => Some(b'\r'),
        b't' => Some(b'\t'),
        _ => None,
    }
}

/// The byte that is meant by what stands in front, and how many bytes mean it.
fn first_meant(bytes: &[u8]) -> Option<(u8, usize)>
    ensures { MatchOption result (MeansNothing bytes.now) (λ first. MeansFirst bytes.now first.0 first.1) }
{
    let [first, ..] = bytes else {
        return None;
    };
    if *first == b'\\' {
        let [_, escape, ..] = bytes else {
            return None;
        };
        return Some((escaped(*escape)?, 2));
    }
    if !is_plain(*first) {
        return None;
    }
    Some((*first, 1))
}

/// What is meant by the bytes before a closing quote, and how many they are.
fn content(alloc: Global, bytes: &[u8]) -> Result<Option<(Vec<u8>, usize)>, NoMemory>
    ensures { IfOk result (λ found. MatchOption found (NeverCloses bytes.now) (λ content. Closes bytes.now content.1 content.0.items)) }
{
    let mut meant = Vec::new(alloc);
    let mut len = 0;
    while let Some((byte, more)) = first_meant(&bytes[len..]) {
        meant.push(byte)?;
        len += more;
    }
    match bytes.get(len) {
        Some(b'"') => Ok(Some((meant, len))),
        _ => Ok(None),
    }
}

/// The text of these bytes.
fn text_of(bytes: Vec<u8>) -> Text
    requires { IsUtf8 bytes.items }
    ensures { result ≡ bytes.items }
{
    match String::from_utf8(bytes) {
        Ok(text) => Text::from_string(text),
        Err(_) => unreachable!(),
    }
}

/// The text literal in front, where a quote stands.
pub fn literal(alloc: Global, text: &str) -> Result<Option<Piece>, NoMemory>
    requires { Begins text.now start.Text }
    ensures { IfOk result (Finds text.now) }
{
    let Some((meant, len)) = content(alloc, &text.as_bytes()[1..])? else {
        return Ok(None);
    };
    let kind = Some(TokenKind::Text(text_of(meant)));
    Ok(Some(Piece { len: len + 2, kind }))
}

/// Whether a zero stands before other digits.
fn has_leading_zero(digits: &[u8]) -> bool
    ensures { IsTrue result ↔ ((1 < length digits.now) × (slice_index digits.now 0 ≡ byte "0")) }
{
    digits.len() > 1 && digits[0] == b'0'
}

/// The integer that digits write, if they write one: a zero stands alone, and the greatest is 9223372036854775807.
fn value_of(digits: &str) -> Option<i64>
    requires some { 0 < length digits.now }
    requires digits { AllPass is_ascii_digit digits.now }
    ensures none { IfNone result ((n : ℕ) → ¬ (IsInteger digits.now n)) }
    ensures value { IfSome result (λ value. (n : ℕ) × (value ≡ pos n) × IsInteger digits.now n) }
{
    if has_leading_zero(digits.as_bytes()) {
        return None;
    }
    digits.parse().ok()
}

/// The integer in front, where a digit stands.
pub fn integer(text: &str) -> Option<Piece>
    requires { Begins text.now start.Int }
    ensures { Finds text.now result }
{
    let len = digits_len(text.as_bytes());
    let value = value_of(&text[..len])?;
    let kind = Some(TokenKind::Int(value));
    Some(Piece { len, kind })
}
