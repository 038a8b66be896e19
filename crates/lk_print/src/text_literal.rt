//! Text literals.

ghost use Rattle.lk_ast.specs.declared.token.TokenKind.TheVariants.{Text as AText};
ghost use Rattle.lk_print.specs.Written.{quoted, quoted_byte, spaced};
ghost use Rattle.std.specs.Prelude.{◌≡◌, ◌++◌, OnOk, IfOk};

use lk_ast::{NoMemory, Text};
use std::alloc::Global;
use std::str;

/// A byte of a text, as it stands between quotes.
fn push_quoted(bytes: &mut Vec<u8>, byte: u8) -> Result<(), NoMemory>
    ensures { OnOk result (bytes.new.items ≡ bytes.old.items ++ quoted_byte byte) }
{
    match byte {
        b'"' | b'\\' => {
            bytes.push(b'\\')?;
            bytes.push(byte)?;
        }
        b'\n' => bytes.extend_from_slice(b"\\n")?,
        b'\r' => bytes.extend_from_slice(b"\\r")?,
        b'\t' => bytes.extend_from_slice(b"\\t")?,
        _ => bytes.push(byte)?,
    }
    Ok(())
}

/// A text literal that means these bytes.
fn quoted(alloc: Global, text: &[u8]) -> Result<Vec<u8>, NoMemory>
    ensures { IfOk result (λ bytes. bytes.items ≡ quoted text.now) }
{
    let mut bytes = Vec::new(alloc);
    bytes.push(b'"')?;
    for byte in text {
        push_quoted(&mut bytes, *byte)?;
    }
    bytes.push(b'"')?;
    Ok(bytes)
}

/// A text literal, behind a space.
#[tactic(auto, using(crate::proofs::Appends::behind_both))]
pub fn write_text(alloc: Global, line: &mut Text, text: &str) -> Result<(), NoMemory>
    ensures { OnOk result (line.new ≡ line.old ++ spaced (AText text.now)) }
{
    let bytes = quoted(alloc, text.as_bytes())?;
    match str::from_utf8(bytes.as_slice()) {
        Ok(literal) => {
            line.push(" ")?;
            line.push(literal)
        }
        Err(_) => unreachable!(),
    }
}
