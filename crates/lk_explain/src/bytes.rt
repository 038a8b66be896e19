//! Bytes of a text, and how far they go on.

ghost use Rattle.lk_explain.specs.Places.{begins_char, char_count, ends_line, is_line_feed};
ghost use Rattle.std.specs.List.{prefix_len, suffix_len};
ghost use Rattle.std.specs.Prelude.{◌≡◌, ◌≤◌, count_by, drop, length, not, take};

/// The bytes before a place, or all where it is behind the end.
pub fn bytes_before(bytes: &[u8], at: usize) -> &[u8]
    ensures { result.now ≡ take at bytes.now }
{
    &bytes[..at.min(bytes.len())]
}

/// The bytes from a place on, or none where it is behind the end.
pub fn bytes_from(bytes: &[u8], at: usize) -> &[u8]
    ensures { result.now ≡ drop at bytes.now }
{
    &bytes[at.min(bytes.len())..]
}

/// Whether a character begins with this byte.
fn begins_char(byte: u8) -> bool
    ensures { result ≡ begins_char byte }
{
    byte < 0x80 || byte >= 0xc0
}

/// How many characters begin in these bytes.
pub fn char_count(bytes: &[u8]) -> usize
    ensures count { result ≡ char_count bytes.now }
    ensures fits { result ≤ length bytes.now }
{
    bytes.iter().filter(|byte| begins_char(**byte)).count()
}

/// How many line feeds are among these bytes.
pub fn line_feeds(bytes: &[u8]) -> usize
    ensures count { result ≡ count_by is_line_feed bytes.now }
    ensures fits { result ≤ length bytes.now }
{
    bytes.iter().filter(|byte| **byte == b'\n').count()
}

/// How many bytes stand behind the last line feed.
pub fn len_behind_feed(bytes: &[u8]) -> usize
    ensures len { result ≡ suffix_len (λ byte. not (is_line_feed byte)) bytes.now }
    ensures fits { result ≤ length bytes.now }
{
    bytes
        .iter()
        .rev()
        .take_while(|byte| **byte != b'\n')
        .count()
}

/// How many bytes stand before the end of the line.
pub fn len_before_end(bytes: &[u8]) -> usize
    ensures len { result ≡ prefix_len (λ byte. not (ends_line byte)) bytes.now }
    ensures fits { result ≤ length bytes.now }
{
    bytes
        .iter()
        .take_while(|byte| **byte != b'\n' && **byte != b'\r')
        .count()
}
