//! Bytes, and how far they go on.

ghost use Rattle.lk_parse.specs.Pieces.{is_no_feed, is_word_byte, is_plain};
ghost use Rattle.lk_parse.specs.Scanner.{start_of};
ghost use Rattle.std.specs.Char.{is_ascii_digit};
ghost use Rattle.std.specs.List.{prefix_len};
ghost use Rattle.std.specs.Prelude.{◌≡◌, ◌≤◌, length};

/// What a piece is that begins with a byte.
#[derive(Clone, Copy, Debug, PartialEq, Eq)]
pub enum Start {
    White,
    Comment,
    Word,
    Tag,
    Int,
    Text,
    /// A sign, or nothing.
    Sign,
}

/// What a piece is that begins with this byte.
pub fn start_of(byte: u8) -> Start
    ensures { result ≡ start_of byte }
{
    match byte {
        b' ' | b'\t' | b'\r' | b'\n' => Start::White,
        b'#' => Start::Comment,
        b'a'..=b'z' => Start::Word,
        b'A'..=b'Z' => Start::Tag,
        b'0'..=b'9' => Start::Int,
        b'"' => Start::Text,
        _ => Start::Sign,
    }
}

fn is_word_byte(byte: u8) -> bool
    ensures { result ≡ is_word_byte byte }
{
    byte.is_ascii_alphanumeric() || byte == b'_'
}

/// Whether a byte stands for itself in a text literal.
pub fn is_plain(byte: u8) -> bool
    ensures { result ≡ is_plain byte }
{
    byte != b'"' && byte != b'\\' && byte != b'\n' && byte != b'\r'
}

/// How many bytes in front can stand in a word.
pub fn word_len(bytes: &[u8]) -> usize
    ensures len { result ≡ prefix_len is_word_byte bytes.now }
    ensures fits { result ≤ length bytes.now }
{
    bytes.iter().take_while(|byte| is_word_byte(**byte)).count()
}

/// How many bytes in front are digits.
pub fn digits_len(bytes: &[u8]) -> usize
    ensures len { result ≡ prefix_len is_ascii_digit bytes.now }
    ensures fits { result ≤ length bytes.now }
{
    bytes
        .iter()
        .take_while(|byte| byte.is_ascii_digit())
        .count()
}

/// How many bytes stand before the end of the line.
pub fn line_len(bytes: &[u8]) -> usize
    ensures len { result ≡ prefix_len is_no_feed bytes.now }
    ensures fits { result ≤ length bytes.now }
{
    bytes.iter().take_while(|byte| **byte != b'\n').count()
}
