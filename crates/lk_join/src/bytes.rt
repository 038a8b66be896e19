//! Bytes as they are shown.

ghost use Rattle.std.specs.Fmt.{digit_glyph};
ghost use Rattle.std.specs.List.{flat_map};
ghost use Rattle.std.specs.Prelude.{◌≡◌, ◌<◌, ◌++◌, ◌/◌, ◌%◌, [], ◌∷◌, IfOk, OnOk, string_bytes, true};
ghost use Rattle.lk_join.specs.Reports.{is_shown_alone, shown_byte, shown_bytes};

use lk_ast::{NoMemory, Text};
use std::alloc::Global;

/// Bytes as a text: those that are no printed ASCII, and `%`, as `%` and two hexadecimal digits.
pub fn shown_bytes(alloc: Global, bytes: &[u8]) -> Result<Text, NoMemory>
    ensures { IfOk result (λ text. text ≡ shown_bytes bytes.now) }
{
    let mut text = String::new(alloc);
    for byte in bytes {
        push_byte(&mut text, *byte)?;
    }
    Ok(Text::from_string(text))
}

fn push_byte(text: &mut String, byte: u8) -> Result<(), NoMemory>
    ensures { OnOk result (string_bytes text.new ≡ string_bytes text.old ++ shown_byte byte) }
{
    if is_shown_alone(byte) {
        push_ascii(text, byte)
    } else {
        push_escaped(text, byte)
    }
}

fn is_shown_alone(byte: u8) -> bool
    ensures { result ≡ is_shown_alone byte }
{
    b' ' <= byte && byte <= b'~' && byte != b'%'
}

fn push_escaped(text: &mut String, byte: u8) -> Result<(), NoMemory>
    ensures { OnOk result (string_bytes text.new ≡ string_bytes text.old ++ (37 ∷ digit_glyph true (byte / 16) ∷ digit_glyph true (byte % 16) ∷ [])) }
{
    push_ascii(text, b'%')?;
    push_ascii(text, glyph(byte / 16))?;
    push_ascii(text, glyph(byte % 16))
}

/// The hexadecimal digit of a number below 16.
fn glyph(digit: u8) -> u8
    requires { digit < 16 }
    ensures is { result ≡ digit_glyph true digit }
    ensures ascii { result < 128 }
{
    if digit < 10 {
        b'0' + digit
    } else {
        b'A' - 10 + digit
    }
}

fn push_ascii(text: &mut String, byte: u8) -> Result<(), NoMemory>
    requires { byte < 128 }
    ensures { OnOk result (string_bytes text.new ≡ string_bytes text.old ++ byte ∷ []) }
{
    text.push(char::from(byte))?;
    Ok(())
}
