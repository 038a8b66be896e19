//! Tokens on a line, each behind a space.

ghost use Rattle.lk_ast.specs.declared.token.TokenKind.TheVariants.{Word as AWord, Tag as ATag, Int as AnInt, Text as AText, Sign as ASign};
ghost use Rattle.lk_print.specs.Written.{quoted_byte, spaced};
ghost use Rattle.std.specs.Prelude.{◌≡◌, ◌++◌, OnOk};

use lk_ast::{NoMemory, Text, Word};
use std::alloc::Global;

/// A word of the language, as `fun`.
#[tactic(auto, using(crate::proofs::Appends::behind_both))]
pub fn write_word(line: &mut Text, word: &str) -> Result<(), NoMemory>
    ensures { OnOk result (line.new ≡ line.old ++ spaced (AWord word.now)) }
{
    line.push(" ")?;
    line.push(word)?;
    Ok(())
}

/// A sign, as `(`.
#[tactic(auto, using(crate::proofs::Appends::behind_both))]
pub fn write_sign(line: &mut Text, sign: &str) -> Result<(), NoMemory>
    ensures { OnOk result (line.new ≡ line.old ++ spaced (ASign sign.now)) }
{
    line.push(" ")?;
    line.push(sign)?;
    Ok(())
}

/// A name or a label.
pub fn write_name(line: &mut Text, name: &Word) -> Result<(), NoMemory>
    ensures { OnOk result (line.new ≡ line.old ++ spaced (AWord name.now.text)) }
{
    write_word(line, name.text.as_str())
}

/// A tag.
#[tactic(auto, using(crate::proofs::Appends::behind_both))]
pub fn write_tag(line: &mut Text, tag: &str) -> Result<(), NoMemory>
    ensures { OnOk result (line.new ≡ line.old ++ spaced (ATag tag.now)) }
{
    line.push(" ")?;
    line.push(tag)?;
    Ok(())
}

/// An integer in decimal digits.
#[tactic(auto, using(crate::proofs::Appends::behind_both))]
pub fn write_int(alloc: Global, line: &mut Text, number: i64) -> Result<(), NoMemory>
    ensures { OnOk result (line.new ≡ line.old ++ spaced (AnInt number)) }
{
    let digits = format!(in alloc; "{number}")?;
    line.push(" ")?;
    line.push(digits.as_str())?;
    Ok(())
}
