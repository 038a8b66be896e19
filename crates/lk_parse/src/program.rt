//! From a text to its program.

ghost use Rattle.lk_ast.specs.declared.declaration.Program.{Program as TheProgram};
ghost use Rattle.lk_parse.specs.declared.error.ParseError.TheVariants.{NoMemory};
ghost use Rattle.lk_parse.specs.Refusals.{IsProgramText, IsRefused, span_or_end};
ghost use Rattle.lk_parse.specs.Tokens.{text_limit};
ghost use Rattle.std.specs.Prelude.{◌≡◌, ◌≤◌, IfOk, IfErr, length, slice_get};

use crate::error::ParseError;
use crate::nesting::check_nesting;
use crate::scan::tokens;
use lk_ast::{Program, Span, Token};
use lk_grammar::{GrammarError, read_program};
use lk_scope::scoped;
use std::alloc::Global;

/// The program that a text is.
#[tactic(auto, using(crate::proofs::Refused::refused_has_none))]
pub fn parse(alloc: Global, text: &[u8]) -> Result<Program, ParseError>
    ensures program { IfOk result (IsProgramText text.now) }
    // A text is of one program.
    ensures only { (other : TheProgram) → IfOk result (λ program. IsProgramText text.now other → other ≡ program) }
    // A text without one is refused for the first reason that there is, and a text with one only for want of memory.
    ensures refused { IfErr result (IsRefused text.now) }
    ensures complete { (program : TheProgram) → IfErr result (λ why. IsProgramText text.now program → why ≡ NoMemory) }
{
    let tokens = tokens(alloc, text)?;
    check_nesting(alloc, tokens.as_slice())?;
    match read_program(alloc, tokens.as_slice()) {
        Ok(tree) => Ok(scoped(alloc, tree)?),
        Err(GrammarError::Unexpected(at)) => {
            let at = place_of(text, tokens.as_slice(), at);
            Err(ParseError::Unexpected(at))
        }
        Err(GrammarError::NoMemory) => Err(ParseError::NoMemory),
    }
}

/// The span of the token of this number, or that of the text's end behind the last one.
fn place_of(text: &[u8], tokens: &[Token], at: u64) -> Span
    requires { length text.now ≤ text_limit }
    ensures { result ≡ span_or_end (length text.now) (slice_get tokens.now at) }
{
    match tokens.get(at as usize) {
        Some(token) => token.span,
        None => {
            let end = text.len() as u32;
            Span { start: end, end }
        }
    }
}
