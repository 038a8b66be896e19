//! Programs as text.

ghost use Rattle.lk_print.specs.Again.{IsSource, SaysAgain};
ghost use Rattle.lk_print.specs.Printed.{declarations};
ghost use Rattle.lk_print.specs.Written.{text_of};
ghost use Rattle.std.specs.Prelude.{◌≡◌, ℕ, IfOk, List};

use crate::declaration::write_decl;
use lk_ast::{NoMemory, Program, Text};
use std::alloc::Global;

/// The text of a program: a line for each declaration, one space between two tokens, and parentheses by one rule. It is a
/// format, exact to the byte.
pub fn print(alloc: Global, program: &Program) -> Result<Text, NoMemory>
    ensures text { IfOk result (λ text. text ≡ text_of (declarations program.now)) }
    // What is printed of a program that a text is of is of the same program, but for its places in the text.
    ensures again { (source : List ℕ) → IsSource source program.now → IfOk result (λ text. SaysAgain text program.now) }
{
    let mut text = Text::new(alloc);
    for decl in program.decls.as_slice() {
        write_decl(alloc, &mut text, decl)?;
    }
    Ok(text)
}
