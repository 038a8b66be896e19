//! What the fields of a head say. They are in the bytes of the head, where httparse has found them.

ghost use Rattle.std.specs.Prelude.{◌≡◌, [], ◌∷◌, All, IfNone, IfSome, codes, length, map};
ghost use Rattle.std.specs.Char.{is_ascii_digit};
ghost use Rattle.std.specs.List.{list_all};
ghost use Rattle.httparse.specs.Spans.{IsHeaderWithin, header_bytes};
ghost use Rattle.lk_http.specs.Fields.{has_some, is_digits, length_by, length_in, values_in};
ghost use Rattle.lk_http.specs.Requests.{are_hosts};

use crate::fault::LengthFault;
use httparse::spans::HeaderSpan;
use lk_ast::MESSAGE_LIMIT;
use std::str;

/// The value of the first field of this name, and the fields behind it.
fn next_named<'a>(
    head: &'a [u8],
    fields: &'a [HeaderSpan],
    name: &str,
) -> Option<(&'a [u8], &'a [HeaderSpan])>
    requires { All (IsHeaderWithin (length head.now)) fields.now }
    ensures none { IfNone result (values_in name.now (map (header_bytes head.entry.now) fields.entry.now) ≡ []) }
    ensures some { IfSome result (λ found. values_in name.now (map (header_bytes head.entry.now) fields.entry.now)
        ≡ found.0.now ∷ values_in name.now (map (header_bytes head.entry.now) found.1.now)) }
    ensures within { IfSome result (λ found. All (IsHeaderWithin (length head.entry.now)) found.1.now) }
{
    for i in 0..fields.len() {
        let field = fields[i];
        if field.name.of(head).eq_ignore_ascii_case(name.as_bytes()) {
            return Some((field.value.of(head), &fields[i + 1..]));
        }
    }
    None
}

/// Whether there is a field of this name.
pub fn has_named(head: &[u8], fields: &[HeaderSpan], name: &str) -> bool
    requires { All (IsHeaderWithin (length head.now)) fields.now }
    ensures { result ≡ has_some (values_in name.now (map (header_bytes head.now) fields.now)) }
{
    next_named(head, fields, name).is_some()
}

/// Whether there is one field Host, or none in HTTP/1.0.
pub fn are_hosts(head: &[u8], fields: &[HeaderSpan], minor: u8) -> bool
    requires { All (IsHeaderWithin (length head.now)) fields.now }
    ensures { result ≡ are_hosts minor (values_in (codes "host") (map (header_bytes head.now) fields.now)) }
{
    match next_named(head, fields, "host") {
        None => minor == 0,
        Some((_, behind)) => !has_named(head, behind, "host"),
    }
}

/// The length of the body that the fields announce.
pub fn body_length(head: &[u8], fields: &[HeaderSpan]) -> Result<usize, LengthFault>
    requires { All (IsHeaderWithin (length head.now)) fields.now }
    ensures { result ≡ length_by (values_in (codes "content-length") (map (header_bytes head.now) fields.now)) }
{
    match next_named(head, fields, "content-length") {
        None => Err(LengthFault::Missing),
        Some((value, behind)) => {
            if has_named(head, behind, "content-length") {
                Err(LengthFault::Malformed)
            } else {
                length_in(value)
            }
        }
    }
}

/// The length of a body that a value writes.
fn length_in(value: &[u8]) -> Result<usize, LengthFault>
    ensures { result ≡ length_in value.now }
{
    if !is_digits(value) {
        return Err(LengthFault::Malformed);
    }
    let Ok(text) = str::from_utf8(value) else {
        return Err(LengthFault::Malformed);
    };
    match text.parse::<u64>() {
        Ok(length) if length <= MESSAGE_LIMIT => Ok(length as usize),
        Ok(_) => Err(LengthFault::Large),
        Err(_) => Err(LengthFault::Large),
    }
}

/// Whether these are digits, at least one.
fn is_digits(bytes: &[u8]) -> bool
    ensures { result ≡ is_digits bytes.now }
{
    !bytes.is_empty() && are_digits(bytes)
}

/// Whether each of these is a digit.
fn are_digits(bytes: &[u8]) -> bool
    ensures { result ≡ list_all is_ascii_digit bytes.now }
{
    bytes.iter().all(|byte| byte.is_ascii_digit())
}
