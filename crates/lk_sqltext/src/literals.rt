//! Names, numbers and literals.

ghost use Rattle.lk_sql.specs.Text.{base_text, generator_text, name_text, quoted};
ghost use Rattle.std.specs.Fmt.{decimal};
ghost use Rattle.std.specs.Prelude.{◌≡◌, ◌++◌, OnOk, flat_map};

use lk_ast::{Base, NoMemory, Text};
use std::alloc::Global;

/// `"l"`.
#[tactic(auto, using(crate::proofs::Lists::texts_both))]
pub fn write_name(text: &mut Text, name: &Text) -> Result<(), NoMemory>
    ensures { OnOk result (text.new ≡ text.old ++ name_text name.now) }
{
    text.push("\"")?;
    text.push(name.as_str())?;
    text.push("\"")
}

/// `12`.
pub fn write_number(alloc: Global, text: &mut Text, number: u32) -> Result<(), NoMemory>
    ensures { OnOk result (text.new ≡ text.old ++ decimal number) }
{
    let digits = format!(in alloc; "{number}")?;
    text.push(digits.as_str())
}

/// `t1`.
#[tactic(auto, using(crate::proofs::Lists::texts_both))]
pub fn write_generator(alloc: Global, text: &mut Text, number: u32) -> Result<(), NoMemory>
    ensures { OnOk result (text.new ≡ text.old ++ generator_text number) }
{
    text.push("t")?;
    write_number(alloc, text, number)
}

/// `-12`, `TRUE`, `'text'`.
#[tactic(auto, using(crate::proofs::Lists::texts_both))]
pub fn write_base(alloc: Global, text: &mut Text, base: &Base) -> Result<(), NoMemory>
    ensures { OnOk result (text.new ≡ text.old ++ base_text base.now) }
{
    match base {
        Base::Int(number) => {
            let digits = format!(in alloc; "{number}")?;
            text.push(digits.as_str())
        }
        Base::Bool(true) => text.push("TRUE"),
        Base::Bool(false) => text.push("FALSE"),
        Base::Text(literal) => {
            text.push("'")?;
            write_doubled(text, literal.as_str())?;
            text.push("'")
        }
    }
}

/// A text with each apostrophe in it twice: what stands before the next one, then two of them, and so on with what stands
/// behind it.
#[tactic(auto, using(crate::proofs::Lists::texts_both))]
fn write_doubled(text: &mut Text, literal: &str) -> Result<(), NoMemory>
    ensures { OnOk result (text.new ≡ text.old ++ flat_map quoted literal.now) }
{
    let mut rest = literal;
    while let Some((before, behind)) = rest.split_once('\'') {
        text.push(before)?;
        text.push("''")?;
        rest = behind;
    }
    text.push(rest)
}
